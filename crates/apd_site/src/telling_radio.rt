//! A radio that tells of its driver's faults, and of its stations where that is asked for.
ghost use Rattle.apd_radio.specs.Model.{inside};

use crate::driver_notes::DriverNotes;
use crate::station_notes::StationNotes;
use apd_base::Addr;
use apd_radio::{Radio, RadioFault};
use log::Log;
use std::os::fd::RawFd;

/// A radio over another one, which logs its driver's faults, what is tried then, and when it is up again; and, where
/// that is asked for, which stations associated, left and were let go. Its answers are those of the inner radio. What an
/// entry causes reaches a radio only once the entry is durable, so no station is told of before.
#[derive(Drop)]
pub struct TellingRadio<'a, L: Log, R: Radio> {
    inner: R,
    log: &'a L,
    interface: String,
    driver: DriverNotes,
    // None where stations aren't told of.
    stations: Option<StationNotes>,
}

impl<'a, L: Log, R: Radio> TellingRadio<'a, L, R> {
    /// A radio of an interface of this name, before its slot gives it any station.
    pub fn new(
        log: &'a L,
        interface: String,
        inner: R,
        stations: Option<StationNotes>,
    ) -> TellingRadio<'a, L, R> {
        TellingRadio {
            inner,
            log,
            interface,
            driver: DriverNotes::new(),
            stations,
        }
    }
}

impl<L: Log, R: Radio> Radio for TellingRadio<'_, L, R> {
    ghost model = { inside R.model (λ radio. radio.inner) };

    ghost frames = { λ radio. R.frames radio.inner };

    fn poll(&mut self) -> Result<Option<Vec<u8>>, RadioFault> {
        let got = self.inner.poll()?;
        self.driver.note_serving();
        if let Some(notes) = &mut self.stations
            && let Some(frame) = &got
            && let Some(addr) = notes.leaver(frame)
            && self.inner.installed(addr).is_some()
        {
            notes.expect_leave(addr);
        }
        Ok(got)
    }

    fn descriptor(&self) -> Option<RawFd> {
        self.inner.descriptor()
    }

    fn install(&mut self, addr: Addr, aid: u16) -> Result<(), RadioFault> {
        let was_there = self.inner.installed(addr).is_some();
        let answer = self.inner.install(addr, aid);
        let interface = self.interface.as_str();
        let associated = self
            .driver
            .note_install(self.log, interface, addr, aid, was_there, answer);
        if let Some(notes) = &mut self.stations {
            notes.note_associated(self.log, interface, associated);
        }
        answer
    }

    fn remove(&mut self, addr: Addr) -> Result<(), RadioFault> {
        let was_there = self.inner.installed(addr).is_some();
        let answer = self.inner.remove(addr);
        let interface = self.interface.as_str();
        self.driver
            .note_remove(self.log, interface, addr, was_there, answer);
        if let Some(notes) = &mut self.stations {
            notes.note_removed(self.log, interface, addr);
        }
        answer
    }

    fn transmit(&mut self, frame: &[u8]) -> Result<(), RadioFault> {
        let answer = self.inner.transmit(frame);
        self.driver.note_serving();
        if let Some(notes) = &mut self.stations
            && answer != Err(RadioFault::NoMemory)
        {
            notes.note_sent(self.log, self.interface.as_str(), frame);
        }
        answer
    }

    fn take_down(&mut self) {
        self.inner.take_down();
        self.driver
            .note_take_down(self.log, self.interface.as_str());
    }

    fn installed(&self, addr: Addr) -> Option<u16> {
        self.inner.installed(addr)
    }

    fn failures(&self) -> u64 {
        self.inner.failures()
    }
}
