//! What a talk moves while it is said: a gate that holds, and the moments of a clock.
use apd_base::Moment;
use apd_desk::{Clock, Gate, Place};
use std::sync::Wait;
use std::sync::atomic::Ordering::SeqCst;
use std::sync::atomic::{AtomicBool, AtomicU64};
use std::thread::sleep;
use std::time::{self, Duration};

/// How long a clock that was held stays so after it is let go, in milliseconds.
const LATER: u64 = 300;

/// Whether something is held, the moment in milliseconds, how often it was asked for, and how many frames were to be
/// sent behind a station that was not installed.
#[derive(Drop)]
pub(crate) struct Stage {
    held: AtomicBool,
    moment: AtomicU64,
    asked: AtomicU64,
    holes: AtomicU64,
}

impl Stage {
    /// The moment 0.
    pub(crate) fn new(held: bool) -> Stage {
        Stage {
            held: AtomicBool::new(held),
            moment: AtomicU64::new(0),
            asked: AtomicU64::new(0),
            holes: AtomicU64::new(0),
        }
    }

    /// What is held is let go.
    pub(crate) fn let_go(&self) {
        self.held.store(false, SeqCst);
    }

    /// The clock jumps to a moment.
    pub(crate) fn jump(&self, moment: u64) {
        self.moment.store(moment, SeqCst);
    }

    /// How often the clock was asked.
    pub(crate) fn ask_count(&self) -> u64 {
        self.asked.load(SeqCst)
    }

    /// A frame was to be sent behind a station that was not installed.
    pub(crate) fn note_hole(&self) {
        self.holes.fetch_add(1, SeqCst);
    }

    /// How many were.
    pub(crate) fn holes(&self) -> u64 {
        self.holes.load(SeqCst)
    }

    // Waits for as long as it is held. Tells whether it was.
    fn wait<R: Wait + time::Clock>(&self, rt: &R) -> bool {
        let mut waited = false;
        for _ in rt.forever() {
            if !self.held.load(SeqCst) {
                break;
            }
            waited = true;
            sleep(rt, Duration::from_millis(1));
        }
        waited
    }
}

/// A gate that holds the worker that commits before its next call of the device.
#[derive(Clone, Copy)]
pub(crate) struct HeldGate<'a, R> {
    pub(crate) rt: &'a R,
    pub(crate) stage: &'a Stage,
}

impl<R: Wait + time::Clock> Gate for HeldGate<'_, R> {
    fn pass(&self, at: Place) {
        if at == Place::BeforeCall {
            self.stage.wait(self.rt);
        }
    }
}

/// A clock of the stage's moments. It holds whoever asks it, and for a while longer.
#[derive(Drop)]
pub(crate) struct StageClock<'a, R> {
    pub(crate) rt: &'a R,
    pub(crate) stage: &'a Stage,
}

impl<R: Wait + time::Clock> Clock for StageClock<'_, R> {
    fn now(&self) -> Moment {
        self.stage.asked.fetch_add(1, SeqCst);
        if self.stage.wait(self.rt) {
            sleep(self.rt, Duration::from_millis(LATER));
        }
        Moment(self.stage.moment.load(SeqCst))
    }
}
