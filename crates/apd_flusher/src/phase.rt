//! How far a flusher's batch has come.

/// What a flusher does next.
#[derive(Clone, Copy, Debug, PartialEq, Eq)]
pub enum Phase {
    /// It waits for a batch.
    Idle,
    /// It has calls of a batch to make.
    Busy,
    /// It hands out the receipt: the batch is durable.
    Done,
    /// It refuses all: the device has failed.
    Failed,
}
