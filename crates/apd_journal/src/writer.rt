//! From changes to the bytes of a group, and to those of a half that begins anew.
ghost use Rattle.std.specs.Prelude.{◌≡◌, ◌≤◌, ◌+◌, ◌-◌, ◌^◌, ◌++◌, ◌↔◌, IsTrue, IfOk, min};
ghost use Rattle.apd_journal.specs.Half.{begun_bytes, planned_bytes};
ghost use Rattle.apd_record.specs.Ranges.{AreChanges};

use crate::batch::{Batch, Plan};
use apd_base::Sequence;
use apd_record::{Change, write};
use std::alloc::{AllocError, Global};

/// Bytes of a half (own).
pub const HALF_LENGTH: usize = 1_048_576;

/// Whether a group of records of this length, its gate at this place, leaves room for the next gate in
/// the half.
pub fn fits(place: usize, length: usize) -> bool
    ensures { IsTrue result ↔ (place + length + 6 ≤ HALF_LENGTH) }
{
    const LAST: usize = HALF_LENGTH - 6;
    place <= LAST && length <= LAST - place
}

// Bytes, and behind them the length of records, the records, and a closed gate.
fn with_block(alloc: Global, front: &[u8], changes: &[Change]) -> Result<Sequence<u8>, AllocError>
    ensures bytes { IfOk result (λ bytes. bytes ≡ front.now ++ planned_bytes changes.now) }
    ensures known { AreChanges changes.now }
{
    let records = write(alloc, changes)?;
    let length = (records.len() % (1 << 32)) as u32;
    let room = records.len().saturating_add(front.len()).saturating_add(5);
    let mut bytes = Vec::with_capacity(alloc, room)?;
    bytes.extend_from_slice(front)?;
    bytes.extend_from_slice(&length.to_le_bytes())?;
    bytes.extend_from_slice(&records)?;
    bytes.push(0)?;
    Ok(Sequence::from_vec(bytes))
}

/// The bytes of a batch's group as they are written behind its closed gate at this place: the length of
/// its records, the records, and the next group's gate, closed. Want of memory is the only error.
///
/// The length has four bytes: of a greater one, which fits no half, they are the lowest four. A place at
/// the end of the numbers is its own next one. It takes memory twice: for the records, and for all bytes.
pub fn plan(alloc: Global, batch: &Batch, place: usize) -> Result<Plan, AllocError>
    ensures place { IfOk result (λ plan. plan.place ≡ min (place + 1) (2 ^ 64 - 1)) }
    ensures bytes { IfOk result (λ plan. plan.bytes ≡ planned_bytes batch.now.changes) }
    ensures known { AreChanges batch.now.changes }
{
    let bytes = with_block(alloc, &[], batch.changes.as_slice())?;
    Ok(Plan {
        place: place.saturating_add(1),
        bytes,
    })
}

/// The bytes of a half that begins anew, as they are written behind its gate: the epoch, the length of the
/// snapshot's records, the records, and the first group's gate, closed. Want of memory is the only error.
///
/// The length has four bytes: of a greater one they are the lowest four. It takes memory twice: for the
/// records, and for all bytes.
pub fn plan_half(alloc: Global, epoch: u64, snapshot: &[Change]) -> Result<Plan, AllocError>
    ensures place { IfOk result (λ plan. plan.place ≡ 1) }
    ensures bytes { IfOk result (λ plan. plan.bytes ≡ begun_bytes epoch snapshot.now) }
    ensures known { AreChanges snapshot.now }
{
    let bytes = with_block(alloc, &epoch.to_le_bytes(), snapshot)?;
    Ok(Plan { place: 1, bytes })
}
