//! A radio that lacks memory for a while.
ghost use Rattle.apd_radio.specs.Model.{inside};

use crate::stage::Stage;
use apd_base::Addr;
use apd_radio::{Radio, RadioFault};
use std::os::fd::RawFd;

/// A radio over another one, which lacks memory so often when it is to send a frame, and so often when a station is to
/// be installed. The stage counts each frame that it is to send behind a station that it didn't install.
#[derive(Drop)]
pub(crate) struct Short<'a, R: Radio> {
    inner: R,
    frames: u32,
    stations: u32,
    // Whether the last station met want of memory.
    waits: bool,
    stage: &'a Stage,
}

impl<'a, R: Radio> Short<'a, R> {
    pub(crate) fn new(inner: R, frames: u32, stations: u32, stage: &'a Stage) -> Short<'a, R> {
        Short {
            inner,
            frames,
            stations,
            waits: false,
            stage,
        }
    }
}

/// Takes one off, if there is one. Tells whether there was.
fn take_one(count: &mut u32) -> bool {
    match count.checked_sub(1) {
        Some(rest) => {
            *count = rest;
            true
        }
        None => false,
    }
}

impl<R: Radio> Radio for Short<'_, R> {
    ghost model = { inside R.model (λ radio. radio.inner) };

    ghost frames = { λ radio. R.frames radio.inner };

    fn poll(&mut self) -> Result<Option<Vec<u8>>, RadioFault> {
        self.inner.poll()
    }

    fn descriptor(&self) -> Option<RawFd> {
        self.inner.descriptor()
    }

    fn install(&mut self, addr: Addr, aid: u16) -> Result<(), RadioFault> {
        self.waits = take_one(&mut self.stations);
        if self.waits {
            return Err(RadioFault::NoMemory);
        }
        self.inner.install(addr, aid)
    }

    fn remove(&mut self, addr: Addr) -> Result<(), RadioFault> {
        self.inner.remove(addr)
    }

    fn transmit(&mut self, frame: &[u8]) -> Result<(), RadioFault> {
        if self.waits {
            self.stage.note_hole();
        }
        if take_one(&mut self.frames) {
            return Err(RadioFault::NoMemory);
        }
        self.inner.transmit(frame)
    }

    fn take_down(&mut self) {
        self.inner.take_down();
    }

    fn installed(&self, addr: Addr) -> Option<u16> {
        self.inner.installed(addr)
    }

    fn failures(&self) -> u64 {
        self.inner.failures()
    }
}
