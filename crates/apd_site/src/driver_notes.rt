//! What is known of a radio's driver: whether it failed, and what was tried since.
use crate::notices::{tell_driver_down, tell_driver_fault, tell_driver_tried, tell_driver_up};
use apd_base::Addr;
use apd_radio::RadioFault;
use log::Log;

/// How often after a fault a slot gives its own radio the stations anew.
const TRIES: u8 = 3;

/// A station and its identifier.
pub(crate) type Installation = (Addr, u16);

// A driver that failed.
#[derive(Clone, Copy, Debug)]
struct Failed {
    // How many stations are to be installed.
    wanted: usize,
    // How often they were given to it since, or are just now.
    tries: u8,
    // The station at whose installation it failed.
    asked: Option<Installation>,
}

/// What is known of a radio's driver.
#[derive(Debug, Drop)]
pub(crate) struct DriverNotes {
    // Whether it serves: before that its slot gives it the stations of the store.
    serves: bool,
    // How many stations are installed.
    installed: usize,
    failed: Option<Failed>,
}

impl DriverNotes {
    /// It has no station, and its slot resumes next.
    pub(crate) fn new() -> DriverNotes {
        DriverNotes {
            serves: false,
            installed: 0,
            failed: None,
        }
    }

    /// It was asked for what no slot asks that resumes.
    pub(crate) fn note_serving(&mut self) {
        self.serves = true;
    }

    /// A station was to be installed. Gives who is associated by that: after a fault its station, once all are there.
    pub(crate) fn note_install<L: Log>(
        &mut self,
        log: &L,
        interface: &str,
        addr: Addr,
        aid: u16,
        was_there: bool,
        answer: Result<(), RadioFault>,
    ) -> Option<Installation> {
        let after = self.installed.saturating_add(if was_there { 0 } else { 1 });
        match answer {
            Ok(()) => {
                self.installed = after;
                self.find_associated(log, interface, (addr, aid))
            }
            Err(fault) => {
                self.fail_at(log, interface, after, Some((addr, aid)), fault);
                None
            }
        }
    }

    /// A station was to be removed.
    pub(crate) fn note_remove<L: Log>(
        &mut self,
        log: &L,
        interface: &str,
        addr: Addr,
        was_there: bool,
        answer: Result<(), RadioFault>,
    ) {
        self.serves = true;
        let after = self.installed.saturating_sub(if was_there { 1 } else { 0 });
        match answer {
            Ok(()) => self.installed = after,
            Err(_) => {
                tell_driver_fault(log, interface, addr, "removed");
                self.begin(after, None);
            }
        }
    }

    /// All stations were taken out. A driver that failed is given them anew then.
    pub(crate) fn note_take_down<L: Log>(&mut self, log: &L, interface: &str) {
        self.installed = 0;
        if let Some(failed) = &mut self.failed {
            failed.tries = if failed.tries < TRIES {
                failed.tries + 1
            } else {
                1
            };
            tell_driver_tried(log, interface, failed.tries);
        }
        self.rise(log, interface);
    }

    // A driver that failed so, where so many stations are to be installed.
    fn begin(&mut self, wanted: usize, asked: Option<Installation>) {
        self.failed = Some(Failed {
            wanted,
            tries: 0,
            asked,
        });
    }

    // An installation failed, after which there were to be so many stations. Want of memory is no fault of the driver,
    // and yet ends a try.
    fn fail_at<L: Log>(
        &mut self,
        log: &L,
        interface: &str,
        wanted: usize,
        asked: Option<Installation>,
        fault: RadioFault,
    ) {
        match self.failed {
            Some(failed) if failed.tries >= TRIES => tell_driver_down(log, interface),
            Some(_) => {}
            None if fault == RadioFault::Device => {
                if let Some((addr, _)) = asked {
                    tell_driver_fault(log, interface, addr, "installed");
                }
                self.begin(wanted, asked);
            }
            None => {}
        }
    }

    // Whether a driver that failed has all its stations again. It is told, and the station at which it failed is given.
    fn rise<L: Log>(&mut self, log: &L, interface: &str) -> Option<Installation> {
        let failed = self.failed?;
        if failed.tries == 0 || self.installed < failed.wanted {
            return None;
        }
        self.failed = None;
        tell_driver_up(log, interface, self.installed);
        failed.asked
    }

    // Who is associated by an installation that went well.
    fn find_associated<L: Log>(
        &mut self,
        log: &L,
        interface: &str,
        installation: Installation,
    ) -> Option<Installation> {
        if self.failed.is_some() {
            self.rise(log, interface)
        } else if self.serves {
            Some(installation)
        } else {
            None
        }
    }
}
