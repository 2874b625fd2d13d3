//! A call that a disk in memory has served.
use apd_base::Sequence;

/// A call of a disk, as its record keeps it.
#[derive(Debug, Drop)]
pub enum Call {
    /// A read, at this position and of this length.
    Read(usize, usize),
    /// A write, at this position and of these bytes.
    Write(usize, Sequence<u8>),
    /// A sync.
    Sync,
}
