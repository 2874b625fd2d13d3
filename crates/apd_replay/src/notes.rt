//! What the doubles note, a log for each worker.
use apd_base::{Addr, Moment};
use apd_ctrl::Query;
use apd_radio::RadioFault;
use std::alloc::{AllocError, Global};
use std::sync::atomic::{AtomicBool, AtomicU64, AtomicUsize, Ordering};
use std::sync::{Mutex, Wait};

/// What a driver was asked for; a frame by its sum.
#[derive(Clone, Copy, Debug, PartialEq)]
pub(crate) enum Asked {
    Install(Addr, u16),
    Remove(Addr),
    Transmit(u64),
    TakeDown,
}

/// A call of the driver of the radio of this number, and its answer.
#[derive(Clone, Copy, Debug, PartialEq)]
pub(crate) struct Call {
    pub(crate) radio: usize,
    pub(crate) asked: Asked,
    pub(crate) answer: Result<(), RadioFault>,
}

/// What the device was asked for: so many bytes at a place, or a sync.
#[derive(Clone, Copy, Debug)]
pub(crate) enum DeviceCall {
    Read(usize, usize),
    Write(usize, usize),
    Sync,
}

/// What the port saw of a radio at a look: whether it is noted to be up, and how often its drivers had failed, or were
/// taken down, before and behind that.
#[derive(Clone, Copy, Debug)]
pub(crate) struct Seen {
    pub(crate) before: u64,
    pub(crate) up: bool,
    pub(crate) behind: u64,
}

/// What was noted.
#[derive(Clone, Copy, Debug)]
pub(crate) enum Note {
    /// The frame, or the command, of this place was given, at this stamp.
    Given(u64, usize),
    /// The clock told this moment.
    Moment(Moment),
    /// The request became the entry of this number.
    Accepted(u64),
    /// A call of a driver.
    Called(Call),
    /// A call of the device, and whether that served it.
    Device(DeviceCall, bool),
    /// The committing worker is going to take a turn.
    BeforeTurn,
    /// It took the turn, by this stamp.
    AfterTurn(u64),
    /// What the port saw of the radio that the next command, or the one replied to next, is about.
    Seen(Seen),
    /// The port's own seat asked this, and was told a text of this sum, as of the entry of this number.
    Told(Query, u64, u64),
    /// The port was handed a reply to the command of this tag, of this sum.
    Replied(u64, u64),
}

/// What a worker's doubles noted, in order. A note for which memory lacks is missed when it is read.
#[derive(Drop)]
pub(crate) struct Log {
    notes: Mutex<Vec<Note>>,
}

impl Log {
    /// Nothing was noted.
    pub(crate) fn new(alloc: Global) -> Log {
        Log {
            notes: Mutex::new(Vec::new(alloc)),
        }
    }

    /// Notes it, behind all else.
    pub(crate) fn note(&self, rt: &impl Wait, note: Note) {
        let _ = self.notes.lock(rt).push(note);
    }

    /// All notes, in order.
    pub(crate) fn read(&self, rt: &impl Wait, alloc: Global) -> Result<Vec<Note>, AllocError> {
        self.notes.lock(rt).as_slice().to_vec(alloc)
    }

    /// How many notes there are.
    pub(crate) fn count(&self, rt: &impl Wait) -> usize {
        self.notes.lock(rt).len()
    }
}

/// What the doubles of one worker share: its log, and how far its radios are, which follow one another.
#[derive(Drop)]
pub(crate) struct Lane {
    pub(crate) log: Log,
    next: AtomicUsize,
    calm: AtomicBool,
    done: AtomicBool,
    troubles: AtomicU64,
}

impl Lane {
    /// Nothing was given.
    pub(crate) fn new(alloc: Global) -> Lane {
        Lane {
            log: Log::new(alloc),
            next: AtomicUsize::new(0),
            calm: AtomicBool::new(false),
            done: AtomicBool::new(false),
            troubles: AtomicU64::new(0),
        }
    }

    /// The place of the next frame.
    pub(crate) fn next(&self) -> usize {
        self.next.load(Ordering::SeqCst)
    }

    /// The frame at that place was given.
    pub(crate) fn go_on(&self) {
        self.next.fetch_add(1, Ordering::SeqCst);
    }

    /// Keeps whether a frame is under way that needs calm, and tells whether one was.
    pub(crate) fn swap_calm(&self, calm: bool) -> bool {
        self.calm.swap(calm, Ordering::SeqCst)
    }

    /// A driver failed, or was taken down.
    pub(crate) fn meet_trouble(&self) {
        self.troubles.fetch_add(1, Ordering::SeqCst);
    }

    /// How often that was.
    pub(crate) fn troubles(&self) -> u64 {
        self.troubles.load(Ordering::SeqCst)
    }

    /// All frames were given. Tells whether that is news.
    pub(crate) fn finish(&self) -> bool {
        !self.done.swap(true, Ordering::SeqCst)
    }
}
