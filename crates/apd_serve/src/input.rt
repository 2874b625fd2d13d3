//! The input whose end ends a run.
use crate::running::RunFault;
use apd_site::{Alarm, TellingInput, UntilFault};
use log::Log;
use std::alloc::Global;
use std::io::{self, ErrorKind, Read};
use std::net::Net;
use std::os::fd::RawFd;

/// An input that tells that it ended. It may end, too, once an alarm has rung.
#[derive(Drop)]
pub(crate) enum Input<'a, 'b, L: Log, B: Read + Drop> {
    /// By itself alone.
    Alone(TellingInput<'a, L, B>),
    /// By an alarm, too.
    UntilFault(UntilFault<'b, TellingInput<'a, L, B>>),
}

impl<'a, 'b, L: Net + AllocGlobal + Log, B: Read + Drop> Input<'a, 'b, L, B> {
    /// An input. Where there is a descriptor, which can be read whenever the input can, this alarm ends it, too.
    ///
    /// Errors: `Input` where the system can't wait for both; `NoMemory`.
    pub(crate) fn new(
        rt: &'a L,
        reader: B,
        descriptor: Option<RawFd>,
        alarm: &'b Alarm,
    ) -> Result<Input<'a, 'b, L, B>, RunFault> {
        let reader = TellingInput::new(rt, reader);
        let Some(descriptor) = descriptor else {
            return Ok(Input::Alone(reader));
        };
        match UntilFault::new(rt, rt.alloc(), reader, descriptor, alarm) {
            Ok(reader) => Ok(Input::UntilFault(reader)),
            Err(error) if error.kind() == ErrorKind::OutOfMemory => Err(RunFault::NoMemory),
            Err(_) => Err(RunFault::Input),
        }
    }
}

impl<L: Log, B: Read + Drop> Read for Input<'_, '_, L, B> {
    fn read(&mut self, buf: &mut [u8]) -> io::Result<usize> {
        match self {
            Input::Alone(reader) => reader.read(buf),
            Input::UntilFault(reader) => reader.read(buf),
        }
    }
}
