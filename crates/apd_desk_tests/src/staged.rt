//! A clock, a gate and habits of radios by which a test says when something comes, and when all are to stop.
use crate::common::stop;
use crate::habit::{Given, Habit};
use apd_base::Moment;
use apd_desk::{Clock, Gate, Place, Shared};
use std::alloc::{AllocError, Global};
use std::sync::Wait;
use std::sync::atomic::{AtomicBool, AtomicU64, AtomicUsize, Ordering};
use std::sync::ledger::Ledger;
use std::thread::sleep;
use std::time;
use std::time::Duration;

/// Tells its moments one after another, and with the last one tells all to stop.
#[derive(Drop)]
pub(crate) struct StagedClock<'a, L: Ledger, W: Wait> {
    rt: &'a W,
    shared: &'a Shared<L>,
    moments: &'a [u64],
    told: AtomicUsize,
}

impl<'a, L: Ledger, W: Wait> StagedClock<'a, L, W> {
    pub(crate) fn new(
        rt: &'a W,
        shared: &'a Shared<L>,
        moments: &'a [u64],
    ) -> StagedClock<'a, L, W> {
        StagedClock {
            rt,
            shared,
            moments,
            told: AtomicUsize::new(0),
        }
    }
}

impl<L: Ledger, W: Wait> Clock for StagedClock<'_, L, W> {
    fn now(&self) -> Moment {
        let at = self.told.fetch_add(1, Ordering::SeqCst);
        if at.saturating_add(1) >= self.moments.len() {
            stop(self.rt, self.shared);
        }
        Moment(self.moments.get(at).copied().unwrap_or(0))
    }
}

/// A clock that stands at a moment, in milliseconds.
pub(crate) struct At(pub(crate) u64);

impl Clock for At {
    fn now(&self) -> Moment {
        Moment(self.0)
    }
}

/// Keeps what passes it, a hexadecimal digit each: b and a before and after a turn, else the number of an entry.
#[derive(Drop)]
pub(crate) struct Log {
    digits: AtomicU64,
}

impl Log {
    pub(crate) fn new() -> Log {
        Log {
            digits: AtomicU64::new(0),
        }
    }

    pub(crate) fn digits(&self) -> u64 {
        self.digits.load(Ordering::SeqCst)
    }
}

fn digit(at: Place) -> u64 {
    match at {
        Place::BeforeCall => 0xb,
        Place::AfterCall => 0xa,
        Place::Accepted(number) => number.min(9),
    }
}

impl Gate for Log {
    fn pass(&self, at: Place) {
        let digits = self.digits.load(Ordering::SeqCst);
        self.digits
            .store(digits.wrapping_mul(16) | digit(at), Ordering::SeqCst);
    }
}

/// The habit of a radio that receives these frames, one at each look, and tells all to stop at the look behind them.
#[derive(Drop)]
pub(crate) struct Staged<'a, L: Ledger, W: Wait> {
    rt: &'a W,
    alloc: Global,
    shared: &'a Shared<L>,
    frames: &'a [&'a [u8]],
    given: usize,
}

impl<'a, L: Ledger, W: Wait> Staged<'a, L, W> {
    pub(crate) fn new(
        rt: &'a W,
        alloc: Global,
        shared: &'a Shared<L>,
        frames: &'a [&'a [u8]],
    ) -> Staged<'a, L, W> {
        Staged {
            rt,
            alloc,
            shared,
            frames,
            given: 0,
        }
    }

    fn next(&mut self) -> Given {
        let Some(frame) = self.frames.get(self.given) else {
            stop(self.rt, self.shared);
            return Ok(None);
        };
        let frame = Vec::from_slice(self.alloc, frame)?;
        self.given += 1;
        Ok(Some(frame))
    }
}

impl<L: Ledger, W: Wait> Habit for Staged<'_, L, W> {
    fn give(&mut self) -> Option<Given> {
        Some(self.next())
    }
}

/// The habit of a radio that meets want of memory at its first frame, so many times.
#[derive(Drop)]
pub(crate) struct Short {
    pub(crate) times: u64,
}

impl Habit for Short {
    fn refuses(&mut self, _frame: &[u8]) -> bool {
        let refuses = self.times > 0;
        self.times = self.times.saturating_sub(1);
        refuses
    }
}

/// What a radio's poll gives behind each frame.
#[derive(Clone, Copy)]
pub(crate) enum Trail {
    /// A frame of one byte, which is no request.
    Noise,
    /// Want of memory.
    Fault,
}

/// The habit of a radio behind each frame of which its next poll gives something that becomes no entry.
#[derive(Drop)]
pub(crate) struct Trailed {
    alloc: Global,
    trail: Trail,
    // Whether that is to come.
    comes: bool,
}

impl Trailed {
    pub(crate) fn new(alloc: Global, trail: Trail) -> Trailed {
        Trailed {
            alloc,
            trail,
            comes: false,
        }
    }

    fn trail(&self) -> Given {
        match self.trail {
            Trail::Noise => Ok(Some(Vec::from_slice(self.alloc, &[0])?)),
            Trail::Fault => Err(AllocError),
        }
    }
}

impl Habit for Trailed {
    fn give(&mut self) -> Option<Given> {
        if self.comes {
            self.comes = false;
            Some(self.trail())
        } else {
            None
        }
    }

    fn hear(&mut self, came: bool) {
        self.comes = came;
    }
}

/// The habit of a radio whose descriptor is told only after a rest behind each frame: as if its worker was held up
/// between its last look and its sleep.
#[derive(Drop)]
pub(crate) struct Resting<'a, W: time::Clock> {
    clock: &'a W,
    // Whether a frame was given since the last rest.
    heard: AtomicBool,
}

impl<'a, W: time::Clock> Resting<'a, W> {
    pub(crate) fn new(clock: &'a W) -> Resting<'a, W> {
        Resting {
            clock,
            heard: AtomicBool::new(false),
        }
    }
}

/// How long that rest is, in milliseconds: what the frame asks for is settled by then.
const REST: u64 = 400;

impl<W: time::Clock> Habit for Resting<'_, W> {
    fn hear(&mut self, came: bool) {
        if came {
            self.heard.store(true, Ordering::SeqCst);
        }
    }

    fn pause(&self) {
        if self.heard.swap(false, Ordering::SeqCst) {
            sleep(self.clock, Duration::from_millis(REST));
        }
    }
}
