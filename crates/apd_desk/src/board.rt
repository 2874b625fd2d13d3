//! What can be seen without the lock.
use crate::locked::{Locked, Look};
use std::sync::atomic::{AtomicBool, AtomicU64, Ordering};
use std::sync::ledger::Ledger;

/// What was posted of the shared core, for those who look while others hold the lock. Each post takes what lies under the
/// lock, which nobody has but who holds that: who takes the lock after a look finds at least what was seen.
#[derive(Drop)]
pub(crate) struct Board {
    stopped: AtomicBool,
    accepted: AtomicU64,
    settled: AtomicU64,
}

impl Board {
    /// Of a core of which this is seen.
    pub(crate) fn new(look: Look) -> Board {
        Board {
            stopped: AtomicBool::new(look.stopped),
            accepted: AtomicU64::new(look.accepted),
            settled: AtomicU64::new(look.settled),
        }
    }

    /// Posts how many entries were accepted.
    pub(crate) fn post_accepted<L: Ledger>(&self, locked: &Locked<L>) {
        self.accepted
            .store(locked.look().accepted, Ordering::SeqCst);
    }

    /// Posts the number of the last settled one.
    pub(crate) fn post_settled<L: Ledger>(&self, locked: &Locked<L>) {
        self.settled.store(locked.look().settled, Ordering::SeqCst);
    }

    /// Posts whether all are to stop.
    pub(crate) fn post_stop<L: Ledger>(&self, locked: &Locked<L>) {
        self.stopped.store(locked.look().stopped, Ordering::SeqCst);
    }

    /// What was posted last. The words are read one after the other, and posts may come in between.
    pub(crate) fn look(&self) -> Look {
        Look {
            stopped: self.stopped.load(Ordering::SeqCst),
            accepted: self.accepted.load(Ordering::SeqCst),
            settled: self.settled.load(Ordering::SeqCst),
        }
    }
}
