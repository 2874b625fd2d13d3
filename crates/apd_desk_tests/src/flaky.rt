//! A radio whose driver fails for a while.
ghost use Rattle.std.specs.Prelude.{◌≡◌};

use apd_base::Addr;
use apd_radio::{Radio, RadioFault};

/// How many calls of `install`, `remove` and `transmit` a driver passes on, and how many of those behind fail in the
/// device: then it passes them on again.
#[derive(Clone, Copy)]
pub(crate) struct Calls {
    pub(crate) passes: u64,
    pub(crate) faults: u64,
}

/// A radio over another one, by such a driver. Its count of failures stands at the greatest value.
#[derive(Drop)]
pub(crate) struct Flaky<R: Radio> {
    inner: R,
    calls: Calls,
}

impl<R: Radio> Flaky<R> {
    pub(crate) fn new(inner: R, calls: Calls) -> Flaky<R> {
        Flaky { inner, calls }
    }

    // Takes a call off. Tells whether it is passed on.
    fn take_call(&mut self) -> bool
        ensures { self.new.inner ≡ self.old.inner }
    {
        if self.calls.passes > 0 {
            self.calls.passes -= 1;
            return true;
        }
        if self.calls.faults > 0 {
            self.calls.faults -= 1;
            return false;
        }
        true
    }
}

impl<R: Radio> Radio for Flaky<R> {
    ghost model = { record {
      stations = λ radio. R.model.stations radio.inner;
      faults = λ radio. 18446744073709551615;
      sent = λ radio. R.model.sent radio.inner;
    } };

    fn poll(&mut self) -> Result<Option<Vec<u8>>, RadioFault> {
        self.inner.poll()
    }

    fn install(&mut self, addr: Addr, aid: u16) -> Result<(), RadioFault> {
        if !self.take_call() {
            return Err(RadioFault::Device);
        }
        self.inner.install(addr, aid)
    }

    fn remove(&mut self, addr: Addr) -> Result<(), RadioFault> {
        if !self.take_call() {
            return Err(RadioFault::Device);
        }
        self.inner.remove(addr)
    }

    fn transmit(&mut self, frame: &[u8]) -> Result<(), RadioFault> {
        if !self.take_call() {
            return Err(RadioFault::Device);
        }
        self.inner.transmit(frame)
    }

    fn take_down(&mut self) {
        self.inner.take_down();
    }

    fn installed(&self, addr: Addr) -> Option<u16> {
        self.inner.installed(addr)
    }

    fn failures(&self) -> u64 {
        u64::MAX
    }
}
