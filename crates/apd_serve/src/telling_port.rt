//! A port of commands that tells of the list edits that were carried out.
use apd_desk::{Port, PortFault};
use apd_site::Edits;
use log::Log;
use std::os::fd::RawFd;

/// A port over another one, which logs the list edits that were carried out, where that is asked for: each as it is
/// replied to, which is once its entry is durable.
#[derive(Drop)]
pub(crate) struct TellingPort<'a, L: Log, P: Port + Drop> {
    log: &'a L,
    inner: P,
    edits: Option<Edits>,
}

impl<'a, L: Log, P: Port + Drop> TellingPort<'a, L, P> {
    pub(crate) fn new(log: &'a L, inner: P, edits: Option<Edits>) -> TellingPort<'a, L, P> {
        TellingPort { log, inner, edits }
    }
}

impl<L: Log, P: Port + Drop> Port for TellingPort<'_, L, P> {
    ghost replied = { λ port. P.replied port.inner };

    fn poll(&mut self) -> Result<Option<(u64, Vec<u8>)>, PortFault> {
        let got = self.inner.poll()?;
        if let Some(edits) = &mut self.edits
            && let Some((tag, bytes)) = &got
        {
            edits.note(*tag, bytes.as_slice());
        }
        Ok(got)
    }

    fn descriptor(&self) -> Option<RawFd> {
        self.inner.descriptor()
    }

    fn reply(&mut self, tag: u64, text: &[u8]) -> Result<(), PortFault> {
        let answer = self.inner.reply(tag, text);
        if let Some(edits) = &mut self.edits {
            edits.settle(self.log, tag, text);
        }
        answer
    }
}
