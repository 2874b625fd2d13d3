//! The steps of a durable core, what each tells, and what a round of them comes to.

use apd_base::{Bssid, Moment, Sequence};
use apd_core::{Answer, Input, PublishFault, QuietReason};
use apd_ctrl::Query;
use apd_mlme::{Out, Recipient};
use apd_slot::SlotFault;
use apd_store::StoreFault;

/// One step, which is done whole before the next.
#[derive(Clone, Copy, Debug)]
pub enum Step<'a> {
    /// Accepts a request at a moment.
    Accept(Input<'a>, Moment),
    /// Gives the flusher a batch: the one that waits, or else the one that the core gives.
    Take,
    /// Makes the flusher's next call of the device.
    Call,
    /// Publishes a receipt: the one that waits, or else the one that the flusher gives.
    Publish,
    /// Hands out what is settled for the recipient: to control itself, to a radio's slot into its queue.
    Hand(Recipient),
    /// Answers a query from the table after all settled entries.
    Ask(Query),
    /// Applies the first out that waits at the BSSID's slot.
    Apply(Bssid),
}

/// The answer to a request, with the number of its entry in place of the ticket.
#[derive(Clone, Copy, Debug, PartialEq, Eq)]
pub enum Reception {
    /// The core has failed, or all numbers of entries were given.
    Stopped,
    /// As many entries are kept as may be.
    Busy,
    /// The request is no entry.
    Quiet(QuietReason),
    /// The request is the entry of this number.
    Entry(u64),
}

/// What a step tells.
#[derive(Debug, Drop)]
pub enum Told {
    /// Of `Accept`.
    Accepted(Reception),
    /// Of `Take`: what the flusher answered. A batch that it refused waits.
    Loaded(Result<(), StoreFault>),
    /// Of `Call`. Where the device failed the core has failed, too.
    Called(Result<(), StoreFault>),
    /// Of `Publish`. A receipt that the core refused waits.
    Published(Result<(), PublishFault>),
    /// Of `Hand`: what the recipient is given, in order. A world tells it of control alone.
    Handed(Sequence<Out>),
    /// Of `Hand` of a radio, by a world: how many outs went into the queue of its slot.
    Queued(usize),
    /// Of `Ask`.
    Answered(Answer),
    /// Of `Apply`, by a world: the out, and what the slot answered.
    Applied(Out, Result<(), SlotFault>),
    /// There is no batch to take, no call to make, no receipt, no slot, or no out to apply. Nothing has changed.
    Nothing,
    /// Memory ran out, and nothing has changed.
    NoMemory,
}

/// What a round of steps comes to, by which a batch is committed.
#[derive(Clone, Copy, Debug, PartialEq, Eq)]
pub enum Commit {
    /// The batch in flight is settled.
    Settled,
    /// There was no batch to take, no call to make, and no receipt. Nothing has changed.
    Nothing,
    /// The flusher refused the batch or a call.
    Refused(StoreFault),
    /// The core refused the receipt, which is for another batch.
    Foreign,
    /// Memory ran out in the core, which gave no batch or didn't take the receipt.
    NoMemory,
}
