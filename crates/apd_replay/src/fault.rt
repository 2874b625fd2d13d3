//! Why a run is no list of steps.
use std::alloc::{AllocError, AllocFailed};
use thiserror::Error;

/// What a run did otherwise than its replay, or what kept it from being compared.
#[derive(Clone, Copy, Debug, Error)]
pub(crate) enum Fault {
    #[error("memory ran out")]
    NoMemory,
    #[error("the device holds no store")]
    NoStore,
    #[error("the run did not start")]
    NoStart,
    #[error("a thread is lacking")]
    NoThread,
    #[error("a seat is lacking")]
    NoSeat,
    #[error("the radio at place {0} gave a frame out of order")]
    FrameOrder(usize),
    #[error("the worker at place {0} accepted something that it was not given")]
    NotGiven(usize),
    #[error("the worker at place {0} accepted something twice")]
    AcceptedTwice(usize),
    #[error("the numbers of the worker at place {0} don't rise")]
    NumberOrder(usize),
    #[error("the number {0} was given twice")]
    NumberTwice(u64),
    #[error("the number {0} is lacking")]
    NumberLacking(u64),
    #[error("the seats counted other entries than passed a gate")]
    Count,
    #[error("the entry {0} is none in the replay")]
    NoEntry(u64),
    #[error("the frame at place {1} of the radio at place {0} was lost: it is an entry in the replay")]
    LostFrame(usize, usize),
    #[error("the frame at place {1} of the radio at place {0} is no entry, and always is")]
    RefusedFrame(usize, usize),
    #[error("the replay did not settle the entry {0}")]
    NotSettled(u64),
    #[error("the radio at place {0} was asked for something else by its call at place {1}")]
    OtherCall(usize, usize),
    #[error("the radio at place {0} was asked for nothing more behind its call at place {1}")]
    NoCall(usize, usize),
    #[error("the radio at place {0} was asked for more than the {1} calls of the replay")]
    MoreCalls(usize, usize),
    #[error("the radio at place {0} is noted to be {1}")]
    Noted(usize, bool),
    #[error("the slot at place {0} is up: {1}")]
    Up(usize, bool),
    #[error("the slot at place {0} wants another station, or has another one")]
    Stations(usize),
    #[error("the command {0} was replied to twice, or never given")]
    ReplyTwice(u64),
    #[error("the command {0} was not replied to")]
    NoReply(u64),
    #[error("the command {0} was replied to otherwise")]
    OtherReply(u64),
    #[error("the answer to the command {0} is of no number settled meanwhile")]
    OtherAnswer(u64),
    #[error("the port's seat was told another text as of the entry {0}")]
    OtherTold(u64),
    #[error("the port's seat was told of the entry {0} after a later one")]
    ToldBack(u64),
    #[error("the table after the entry {0} is another one")]
    Table(u64),
    #[error("the last settled entry is {0}")]
    Last(u64),
    #[error("the committing worker took a turn within another, or ended in one")]
    Turn,
    #[error("the device was called outside of a turn, twice in one, or behind its fault")]
    DeviceCall,
    #[error("the entry {0} was given and accepted behind a fault of the device")]
    Behind(u64),
    #[error("the device that it left is refused")]
    Refused,
    #[error("the device that it left holds no table of the replay from the entry {0} on")]
    Recovered(u64),
}

impl From<AllocError> for Fault {
    fn from(_error: AllocError) -> Fault {
        Fault::NoMemory
    }
}

impl<T: Drop> From<AllocFailed<T>> for Fault {
    fn from(_failed: AllocFailed<T>) -> Fault {
        Fault::NoMemory
    }
}
