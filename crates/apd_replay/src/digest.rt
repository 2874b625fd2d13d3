//! Sums of bytes, of texts and of tables, which are others where these are.
use apd_table::Table;
use std::alloc::{AllocError, Global};

/// Where a sum begins, and what it is multiplied by (FNV-1a, 64 bits).
const BASIS: u64 = 0xcbf2_9ce4_8422_2325;

const PRIME: u64 = 0x0000_0100_0000_01b3;

/// The FNV-1a sum of bytes.
pub(crate) fn digest(bytes: &[u8]) -> u64 {
    let mut sum = BASIS;
    for byte in bytes {
        sum = (sum ^ u64::from(*byte)).wrapping_mul(PRIME);
    }
    sum
}

/// The sum of all that a table holds: of the changes that make it.
pub(crate) fn digest_of(alloc: Global, table: &Table) -> Result<u64, AllocError> {
    let changes = table.snapshot(alloc)?;
    let text = format!(in alloc; "{changes:?}")?;
    Ok(digest(text.as_bytes()))
}
