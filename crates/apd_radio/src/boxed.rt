//! A boxed radio is a radio.
use crate::radio::{Radio, RadioFault};
use apd_base::Addr;
use std::os::fd::RawFd;

impl Radio for Box<dyn Radio + Send> {
    ghost model = { record {
      stations = λ b. (Radio-box b).model.stations b.value;
      faults = λ b. (Radio-box b).model.faults b.value;
      sent = λ b. (Radio-box b).model.sent b.value;
    } };

    ghost frames = { λ b. (Radio-box b).frames b.value };

    fn poll(&mut self) -> Result<Option<Vec<u8>>, RadioFault> {
        (**self).poll()
    }

    fn descriptor(&self) -> Option<RawFd> {
        (**self).descriptor()
    }

    fn install(&mut self, addr: Addr, aid: u16) -> Result<(), RadioFault> {
        (**self).install(addr, aid)
    }

    fn remove(&mut self, addr: Addr) -> Result<(), RadioFault> {
        (**self).remove(addr)
    }

    fn transmit(&mut self, frame: &[u8]) -> Result<(), RadioFault> {
        (**self).transmit(frame)
    }

    fn take_down(&mut self) {
        (**self).take_down();
    }

    fn installed(&self, addr: Addr) -> Option<u16> {
        (**self).installed(addr)
    }

    fn failures(&self) -> u64 {
        (**self).failures()
    }
}
