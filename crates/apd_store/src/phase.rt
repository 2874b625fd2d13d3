//! How far a batch has come.

/// What a store does next.
#[derive(Clone, Copy, Debug, PartialEq, Eq)]
pub enum Phase {
    /// It waits for a batch.
    Idle,
    /// It closes the other half, whose gate is open.
    CloseOther,
    /// It makes the closed gate durable.
    SyncClosed,
    /// It writes the other half anew behind its closed gate: an epoch, a snapshot and a closed gate.
    WriteHalf,
    /// It makes the new half durable.
    SyncHalf,
    /// It writes the new half's gate open.
    OpenHalf,
    /// It makes the open gate durable: the new half is the current one.
    SyncOpened,
    /// It writes the batch's group behind the closed gate.
    WriteGroup,
    /// It makes the group durable.
    SyncGroup,
    /// It writes the gate before the group open.
    OpenGate,
    /// It makes the open gate durable.
    SyncGate,
    /// It hands out the receipt: the batch is durable, or has no changes.
    Done,
    /// It refuses all: the device has failed.
    Failed,
}
