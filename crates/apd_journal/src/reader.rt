//! From the bytes of a half to its changes.
ghost use Rattle.std.specs.Prelude.{◌≡◌, ◌≢◌, ◌<◌, ◌^◌, ◌∷◌, ◌++◌, ℕ, List, IfOk, IfSome, IfNone};
ghost use Rattle.std.specs.Int.{to_le_bytes, w64};
ghost use Rattle.apd_journal.specs.Half.{HalfHolds};
ghost use Rattle.apd_journal.specs.Reading.{HasGroups};
ghost use Rattle.apd_record.specs.declared.change.Change.{Change as AnyChange};

use crate::block::split_block;
use apd_base::Sequence;
use apd_base::limits::MAX_GROUP;
use apd_record::Change;
use std::alloc::{AllocError, Global};

/// What a half holds.
#[derive(Debug, Drop)]
pub struct Groups {
    /// Its epoch: of two open halves the one with the greater epoch counts.
    pub epoch: u64,
    /// The changes of its snapshot and then of its groups, one behind another.
    pub changes: Sequence<Change>,
    /// The place of the closed gate behind them, in the half: there the next group begins.
    pub gate: usize,
}

/// The epoch of an open half, and what is behind it, or `None` exactly where the half is closed or cut
/// within its epoch. It takes no memory.
pub fn split_epoch(half: &[u8]) -> Option<(u64, &[u8])>
    ensures some { IfSome result (λ parts. half.now ≡ 1 ∷ (to_le_bytes w64 parts.0 ++ parts.1.now)) }
    ensures range { IfSome result (λ parts. parts.0 < 2 ^ 64) }
    ensures none { IfNone result ((epoch : ℕ) (rest : List ℕ) → half.now ≢ 1 ∷ (to_le_bytes w64 epoch ++ rest)) }
{
    let [1, body @ ..] = half else {
        return None;
    };
    let (front, rest) = body.split_first_chunk::<8>()?;
    Some((u64::from_le_bytes(*front), rest))
}

/// The place of the closed gate behind open groups. Their changes are put behind those that are there.
fn read_open(
    alloc: Global,
    bytes: &[u8],
    changes: &mut Sequence<Change>,
) -> Result<Option<usize>, AllocError>
    ensures some { IfOk result
        (λ found. IfSome found (λ place. HasGroups bytes.now changes.old changes.new place)) }
    ensures none { IfOk result
        (λ found. IfNone found ((after : List AnyChange) (place : ℕ)
        → ¬ HasGroups bytes.now changes.old after place)) }
{
    let mut rest = bytes;
    loop {
        let [gate, behind @ ..] = rest else {
            return Ok(None);
        };
        if *gate != 1 {
            return Ok(Some(bytes.len() - rest.len()));
        }
        let Some((mut group, next)) = split_block(alloc, behind, MAX_GROUP as u32)? else {
            return Ok(None);
        };
        changes.append(&mut group)?;
        rest = next;
    }
}

/// What a half holds, or `None` exactly where it holds nothing: where it is closed, a length or records
/// do not read, a group has more than 65,536 bytes, or no closed gate is behind the groups inside the
/// half. What is behind the closed gate is not looked at.
///
/// It takes memory for the changes alone, and reads each byte at most twice.
pub fn read_groups(alloc: Global, half: &[u8]) -> Result<Option<Groups>, AllocError>
    ensures some { IfOk result
        (λ found. IfSome found (λ groups. HalfHolds half.now groups.epoch groups.changes groups.gate)) }
    ensures none { IfOk result
        (λ found. IfNone found ((epoch : ℕ) (changes : List AnyChange) (place : ℕ)
        → ¬ HalfHolds half.now epoch changes place)) }
{
    let Some((epoch, body)) = split_epoch(half) else {
        return Ok(None);
    };
    let Some((mut changes, rest)) = split_block(alloc, body, u32::MAX)? else {
        return Ok(None);
    };
    let Some(place) = read_open(alloc, rest, &mut changes)? else {
        return Ok(None);
    };
    let gate = half.len() - rest.len() + place;
    Ok(Some(Groups {
        epoch,
        changes,
        gate,
    }))
}
