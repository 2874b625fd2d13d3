//! What came to radios from elsewhere than their drivers.
use crate::notices::tell_strangers;
use apd_radio::Strangers;
use log::Log;
use std::alloc::{AllocError, Global};

/// How many looks there are from one line of a radio to its next, each about a second behind the one before.
const REST: u32 = 60;

// The count of a radio, and how many of it were told.
#[derive(Drop)]
struct Counted {
    interface: String,
    strangers: Strangers,
    told: u64,
}

impl Counted {
    // Tells how many came since the last line, if any did.
    fn tell<L: Log>(&mut self, log: &L) -> bool {
        let count = self.strangers.count();
        let new = count.wrapping_sub(self.told);
        if new == 0 {
            return false;
        }
        tell_strangers(log, self.interface.as_str(), new);
        self.told = count;
        true
    }
}

/// How many datagrams came to radios from elsewhere, and were passed over.
#[derive(Drop)]
pub struct Elsewhere {
    radios: Vec<Counted>,
    rest: u32,
}

impl Elsewhere {
    /// No radio counts.
    pub fn new(alloc: Global) -> Elsewhere {
        Elsewhere {
            radios: Vec::new(alloc),
            rest: 0,
        }
    }

    /// The radio of an interface has this count.
    pub fn add(&mut self, interface: String, strangers: Strangers) -> Result<(), AllocError> {
        self.radios.push(Counted {
            interface,
            strangers,
            told: 0,
        })?;
        Ok(())
    }

    /// Looks once, and tells what came since: once in sixty looks at most.
    pub fn look<L: Log>(&mut self, log: &L) {
        if self.rest > 0 {
            self.rest -= 1;
            return;
        }
        for radio in &mut self.radios {
            if radio.tell(log) {
                self.rest = REST;
            }
        }
    }
}
