//! What is written at once.
use apd_base::Sequence;
use apd_record::Change;

/// Entries that become durable together: their changes make one group.
#[derive(Debug, Drop)]
pub struct Batch {
    /// The number of the first entry.
    pub first: u64,
    /// The number of the last entry.
    pub last: u64,
    /// The changes of the entries, in order. There may be none.
    pub changes: Sequence<Change>,
}

/// Bytes that wait to be written, and where they go.
#[derive(Debug, Drop)]
pub struct Plan {
    /// The place of the first byte, in the half.
    pub place: usize,
    /// The bytes.
    pub bytes: Sequence<u8>,
}
