//! A recording's file, where there is one, which tells why the recording ended.
ghost use Rattle.apd_site.specs.Recorded.{held_by};

use crate::notices::tell_recording_ended;
use log::Log;
use std::io::{self, ErrorKind, Write};

/// A writer over another one, which logs the fault of a write, by which a recording ends; or over none: a recording that
/// goes nowhere ends at its first line, and nothing is logged of that.
#[derive(Drop)]
pub struct TellingFile<'a, L: Log, W: Write + Drop> {
    log: &'a L,
    name: String,
    inner: Option<W>,
}

impl<'a, L: Log, W: Write + Drop> TellingFile<'a, L, W> {
    /// The writer of a recording of this name; without one, of none.
    pub(crate) fn new(log: &'a L, name: String, inner: Option<W>) -> TellingFile<'a, L, W> {
        TellingFile { log, name, inner }
    }
}

impl<L: Log, W: Write + Drop> Write for TellingFile<'_, L, W> {
    ghost contents = { λ file. held_by W.contents file.inner };

    fn write(&mut self, buf: &[u8]) -> io::Result<usize> {
        let Some(inner) = &mut self.inner else {
            return Err(ErrorKind::NotFound.into());
        };
        let answer = inner.write(buf);
        if let Err(error) = &answer
            && error.kind() != ErrorKind::Interrupted
        {
            tell_recording_ended(self.log, self.name.as_str(), error);
        }
        answer
    }

    fn flush(&mut self) -> io::Result<()> {
        match &mut self.inner {
            Some(inner) => inner.flush(),
            None => Ok(()),
        }
    }
}
