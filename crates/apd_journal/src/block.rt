//! Records with their length before them.
ghost use Rattle.std.specs.Prelude.{ℕ, List, IfOk, IfSome, IfNone};
ghost use Rattle.apd_journal.specs.Reading.{IsBlock, HasBlock};
ghost use Rattle.apd_record.specs.declared.change.Change.{Change as AnyChange};

use apd_base::Sequence;
use apd_record::{Change, read_all};
use std::alloc::{AllocError, Global};

/// The bytes behind a length, as many as it says but at most this limit, and what is behind them.
fn split_bytes(bytes: &[u8], limit: u32) -> Option<(&[u8], &[u8])>
    ensures some { IfSome result (λ parts. IsBlock bytes.now limit parts.0.now parts.1.now) }
    ensures none { IfNone result ((inside rest : List ℕ) → ¬ IsBlock bytes.now limit inside rest) }
{
    let [a, b, c, d, rest @ ..] = bytes else {
        return None;
    };
    let length = u32::from_le_bytes([*a, *b, *c, *d]);
    if length > limit || length as usize > rest.len() {
        return None;
    }
    Some(rest.split_at(length as usize))
}

/// The changes of the records that bytes begin with, behind their length, and what is behind them.
pub fn split_block(
    alloc: Global,
    bytes: &[u8],
    limit: u32,
) -> Result<Option<(Sequence<Change>, &[u8])>, AllocError>
    ensures some { IfOk result (λ found. IfSome found (λ parts. HasBlock bytes.now limit parts.0 parts.1.now)) }
    ensures none { IfOk result
        (λ found. IfNone found ((changes : List AnyChange) (rest : List ℕ)
        → ¬ HasBlock bytes.now limit changes rest)) }
{
    let Some((records, rest)) = split_bytes(bytes, limit) else {
        return Ok(None);
    };
    match read_all(alloc, records)? {
        Some(changes) => Ok(Some((Sequence::from_vec(changes), rest))),
        None => Ok(None),
    }
}
