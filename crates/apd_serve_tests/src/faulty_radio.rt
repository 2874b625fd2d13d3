//! A radio whose driver fails for a while.
ghost use Rattle.apd_radio.specs.Model.{RadioModel};

use apd_base::Addr;
use apd_radio::{Radio, RadioFault};
use std::os::fd::RawFd;

/// A radio over another one, whose device fails so often when a station is to be installed, and serves then. Its count of
/// failures stands at the greatest value.
#[derive(Drop)]
pub(crate) struct Faulty<R: Radio> {
    inner: R,
    faults: u32,
}

impl<R: Radio> Faulty<R> {
    pub(crate) fn new(inner: R, faults: u32) -> Faulty<R> {
        Faulty { inner, faults }
    }
}

impl<R: Radio> Radio for Faulty<R> {
    ghost model = { record {
      stations = λ radio. R.model.stations radio.inner;
      faults = λ radio. 18446744073709551615;
      sent = λ radio. R.model.sent radio.inner;
    } };

    ghost frames = { λ radio. R.frames radio.inner };

    fn poll(&mut self) -> Result<Option<Vec<u8>>, RadioFault> {
        self.inner.poll()
    }

    fn descriptor(&self) -> Option<RawFd> {
        self.inner.descriptor()
    }

    fn install(&mut self, addr: Addr, aid: u16) -> Result<(), RadioFault> {
        if self.faults > 0 {
            self.faults -= 1;
            return Err(RadioFault::Device);
        }
        self.inner.install(addr, aid)
    }

    fn remove(&mut self, addr: Addr) -> Result<(), RadioFault> {
        self.inner.remove(addr)
    }

    fn transmit(&mut self, frame: &[u8]) -> Result<(), RadioFault> {
        self.inner.transmit(frame)
    }

    fn take_down(&mut self) {
        self.inner.take_down();
    }

    fn installed(&self, addr: Addr) -> Option<u16> {
        self.inner.installed(addr)
    }

    fn failures(&self) -> u64 {
        u64::MAX
    }
}
