//! What all doubles of a run share.
use crate::notes::Lane;
use apd_base::Moment;
use std::sync::atomic::{AtomicBool, AtomicU64, AtomicUsize, Ordering};
use std::thread::yield_now;

/// How often a tick looks for calm, each time with a yield.
const LOOKS: u64 = 20_000;

/// The order of things, the moment, how many entries passed a gate, how many radios gave all that they receive, and
/// what keeps ticks and some frames apart.
///
/// A frame that may be no entry moves only the moment at which its station was heard, and only a tick looks at that. So
/// that its place among the ticks is known, no tick is submitted while one is under way.
#[derive(Drop)]
pub(crate) struct Stage {
    stamp: AtomicU64,
    moment: AtomicU64,
    accepted: AtomicU64,
    last: AtomicU64,
    done: AtomicUsize,
    under_way: AtomicUsize,
    ticking: AtomicBool,
}

impl Stage {
    /// The beginning.
    pub(crate) fn new() -> Stage {
        Stage {
            stamp: AtomicU64::new(0),
            moment: AtomicU64::new(0),
            accepted: AtomicU64::new(0),
            last: AtomicU64::new(0),
            done: AtomicUsize::new(0),
            under_way: AtomicUsize::new(0),
            ticking: AtomicBool::new(false),
        }
    }

    /// A stamp, later than each before.
    pub(crate) fn stamp(&self) -> u64 {
        self.stamp.fetch_add(1, Ordering::SeqCst)
    }

    /// The moment now.
    pub(crate) fn moment(&self) -> Moment {
        Moment(self.moment.load(Ordering::SeqCst))
    }

    /// Time goes on by so many milliseconds.
    pub(crate) fn go_on(&self, by: u64) {
        self.moment.fetch_add(by, Ordering::SeqCst);
    }

    /// The entry of this number passed a gate. Tells how many did.
    pub(crate) fn accept(&self, number: u64) -> u64 {
        self.last.fetch_max(number, Ordering::SeqCst);
        self.accepted.fetch_add(1, Ordering::SeqCst).wrapping_add(1)
    }

    /// How many entries passed a gate.
    pub(crate) fn accepted(&self) -> u64 {
        self.accepted.load(Ordering::SeqCst)
    }

    /// The greatest number of these.
    pub(crate) fn last(&self) -> u64 {
        self.last.load(Ordering::SeqCst)
    }

    /// A radio gave all that it receives.
    pub(crate) fn finish(&self, lane: &Lane) {
        if lane.finish() {
            self.done.fetch_add(1, Ordering::SeqCst);
        }
    }

    /// How many radios did.
    pub(crate) fn done(&self) -> usize {
        self.done.load(Ordering::SeqCst)
    }

    /// Begins a frame that needs calm. Tells whether there is.
    pub(crate) fn begin_calm(&self, lane: &Lane) -> bool {
        self.under_way.fetch_add(1, Ordering::SeqCst);
        if self.ticking.load(Ordering::SeqCst) {
            self.under_way.fetch_sub(1, Ordering::SeqCst);
            return false;
        }
        lane.swap_calm(true);
        true
    }

    /// What a worker received last was submitted.
    pub(crate) fn end_calm(&self, lane: &Lane) {
        if lane.swap_calm(false) {
            self.under_way.fetch_sub(1, Ordering::SeqCst);
        }
    }

    /// Begins a turn of ticks, once no frame that needs calm is under way. Tells whether none is.
    pub(crate) fn begin_tick(&self) -> bool {
        self.ticking.store(true, Ordering::SeqCst);
        for _look in 0..LOOKS {
            if self.under_way.load(Ordering::SeqCst) == 0 {
                return true;
            }
            yield_now();
        }
        self.end_tick();
        false
    }

    /// The turn ended.
    pub(crate) fn end_tick(&self) {
        self.ticking.store(false, Ordering::SeqCst);
    }
}
