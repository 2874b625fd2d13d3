//! Entries that are not settled.
use apd_base::Sequence;
use apd_record::Change;

/// The changes of an entry that is not settled, and how many bytes their records have.
#[derive(Debug, Drop)]
pub(crate) struct Entry {
    pub(crate) changes: Sequence<Change>,
    pub(crate) length: usize,
}
