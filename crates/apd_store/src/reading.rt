//! From the bytes of a device to the state that they show.
ghost use Rattle.std.specs.Prelude.{◌≡◌, ◌≢◌, ◌↔◌, ◌⊎◌, ℕ, List, length, take, IsTrue, OnErr, IfOk, Err};
ghost use Rattle.apd_base.specs.declared.limits.TheConstants.{DEVICE_LENGTH};
ghost use Rattle.apd_base.specs.State.{State, empty_state};
ghost use Rattle.apd_record.specs.Meaning.{meaning_of};
ghost use Rattle.apd_table.specs.Sound.{StaySound};
ghost use Rattle.apd_journal.specs.Half.{HalfHolds};
ghost use Rattle.apd_record.specs.declared.change.Change.{Change as AnyChange};
ghost use Rattle.apd_store.specs.Image.{current_changes, HasNoCursor, HasOpenGate, IsOpen, IsBehind, HalfShows, IsMarked, IsMarkedBy, IsMarkedOld, ShowsBy, ShowsNone, ShowsNoneOld, ShowsOld};
ghost use Rattle.apd_store.specs.Layout.{IsFound, IsFoundBy};

use crate::fault::StoreFault;
use crate::half::{Half, START_A};
use apd_base::limits::DEVICE_LENGTH;
use apd_journal::{HALF_LENGTH, read_groups, split_epoch};
use apd_record::Change;
use apd_table::{Table, TableFault};
use std::alloc::Global;

/// `RAPSTOR2`, with which a store begins.
pub const MAGIC: [u8; 8] = [b'R', b'A', b'P', b'S', b'T', b'O', b'R', b'2'];

/// `RAPSTOR1`, with which a store of version 1 begins.
pub const OLD_MAGIC: [u8; 8] = [b'R', b'A', b'P', b'S', b'T', b'O', b'R', b'1'];

/// The table that changes lead to, one after another, from the empty one.
fn table_of(alloc: Global, changes: &[Change]) -> Result<Table, TableFault>
    ensures ok { IfOk result (λ table. table ≡ meaning_of changes.now empty_state) }
    ensures sound { IfOk result (λ table. StaySound changes.now empty_state) }
    ensures invalid { result ≡ Err TableFault.Invalid → ¬ StaySound changes.now empty_state }
{
    let mut table = Table::new(alloc);
    for change in changes {
        table.apply(change)?;
    }
    Ok(table)
}

/// Where a store goes on, and the table of what it holds.
#[derive(Drop)]
pub(crate) struct Found {
    pub(crate) half: Half,
    pub(crate) epoch: u64,
    pub(crate) gate: usize,
    pub(crate) other_open: bool,
    /// Whether no change of the half is a cursor's.
    pub(crate) no_cursor: bool,
    pub(crate) table: Table,
}

/// Whether a half's gate is open.
fn is_open(half: &[u8]) -> bool
    ensures { IsTrue result ↔ HasOpenGate half.now }
{
    half.starts_with(&[1])
}

/// Whether no change is a cursor's.
fn has_no_cursor(changes: &[Change]) -> bool
    ensures { IsTrue result ↔ HasNoCursor changes.now }
{
    changes
        .iter()
        .all(|change| !matches!(change, Change::Cursor { .. }))
}

/// What the bytes of the half on this side show, beside the other half.
#[tactic(auto, using(crate::proofs::Found::shows))]
fn read_half(alloc: Global, half: Half, bytes: &[u8], other: &[u8]) -> Result<Found, StoreFault>
    ensures half { IfOk result (λ found. found.half ≡ half) }
    ensures shows { IfOk result (λ found. HalfShows bytes.now found.epoch found.gate found.table) }
    ensures other { IfOk result (λ found. IsTrue found.other_open ↔ HasOpenGate other.now) }
    ensures damaged { result ≡ Err StoreFault.Damaged → (epoch gate : ℕ) (state : State)
        → ¬ HalfShows bytes.now epoch gate state }
    ensures cursor { (epoch gate : ℕ) (changes : List AnyChange) → HalfHolds bytes.now epoch changes gate
        → IfOk result (λ found. IsTrue found.no_cursor ↔ HasNoCursor changes) }
    ensures only { OnErr result ((result ≡ Err StoreFault.Damaged) ⊎ (result ≡ Err StoreFault.NoMemory)) }
{
    let Some(groups) = read_groups(alloc, bytes)? else {
        return Err(StoreFault::Damaged);
    };
    match table_of(alloc, groups.changes.as_slice()) {
        Ok(table) => Ok(Found {
            half,
            epoch: groups.epoch,
            gate: groups.gate,
            other_open: is_open(other),
            no_cursor: has_no_cursor(groups.changes.as_slice()),
            table,
        }),
        Err(TableFault::Invalid) => Err(StoreFault::Damaged),
        Err(TableFault::NoMemory) => Err(StoreFault::NoMemory),
    }
}

/// Whether a half is open, and the other closed or of a smaller epoch.
fn is_current(half: &[u8], other: &[u8]) -> bool
    ensures { IsTrue result ↔ ((epoch : ℕ) × IsOpen half.now epoch × IsBehind other.now epoch) }
{
    let Some((epoch, _)) = split_epoch(half) else {
        return false;
    };
    match split_epoch(other) {
        Some((others, _)) => others < epoch,
        None => true,
    }
}

/// Whether bytes have a store's length and begin with this mark.
fn is_marked(bytes: &[u8], mark: &[u8; 8]) -> bool
    ensures { IsTrue result ↔ IsMarkedBy mark.now bytes.now }
{
    bytes.len() == DEVICE_LENGTH as usize && bytes.starts_with(mark)
}

/// What the current half shows, whatever version's mark stands before the halves.
fn read_halves(alloc: Global, bytes: &[u8]) -> Result<Found, StoreFault>
    requires { length bytes.now ≡ DEVICE_LENGTH }
    ensures ok { (mark : List ℕ) → IsMarkedBy mark bytes.now → IfOk result
        (λ found. IsFoundBy mark bytes.now found.half found.epoch found.gate found.other_open found.table) }
    ensures damaged { result ≡ Err StoreFault.Damaged → (mark : List ℕ) (state : State)
        → IsMarkedBy mark bytes.now → ¬ ShowsBy mark bytes.now state }
    ensures cursor { (mark : List ℕ) (state : State) → IsMarkedBy mark bytes.now → (shows : ShowsBy mark bytes.now state)
        → IfOk result (λ found. IsTrue found.no_cursor ↔ HasNoCursor (current_changes shows.current)) }
    ensures only { OnErr result ((result ≡ Err StoreFault.Damaged) ⊎ (result ≡ Err StoreFault.NoMemory)) }
{
    let (a, b) = bytes[START_A..].split_at(HALF_LENGTH);
    if is_current(a, b) {
        return read_half(alloc, Half::A, a, b);
    }
    if is_current(b, a) {
        return read_half(alloc, Half::B, b, a);
    }
    Err(StoreFault::Damaged)
}

/// The current half of a device's bytes, its closed gate and its table.
pub(crate) fn read_image(alloc: Global, bytes: &[u8]) -> Result<Found, StoreFault>
    ensures ok { IfOk result
        (λ found. IsFound bytes.now found.half found.epoch found.gate found.other_open found.table) }
    ensures not_a_store { result ≡ Err StoreFault.NotAStore → (¬ IsMarked bytes.now) × (¬ IsMarkedOld bytes.now) }
    ensures old_version { result ≡ Err StoreFault.OldVersion → IsMarkedOld bytes.now }
    ensures damaged { result ≡ Err StoreFault.Damaged → IsMarked bytes.now × ShowsNone bytes.now }
    ensures only { OnErr result ((result ≡ Err StoreFault.NotAStore) ⊎ (result ≡ Err StoreFault.OldVersion)
        ⊎ (result ≡ Err StoreFault.Damaged) ⊎ (result ≡ Err StoreFault.NoMemory)) }
{
    if is_marked(bytes, &OLD_MAGIC) {
        return Err(StoreFault::OldVersion);
    }
    if !is_marked(bytes, &MAGIC) {
        return Err(StoreFault::NotAStore);
    }
    read_halves(alloc, bytes)
}

/// The table that a device's bytes show to the program of version 1, whose records have no cursors.
pub(crate) fn read_old_image(alloc: Global, bytes: &[u8]) -> Result<Table, StoreFault>
    ensures ok { IfOk result (λ table. ShowsOld bytes.now table) }
    ensures not_a_store { result ≡ Err StoreFault.NotAStore → (¬ IsMarked bytes.now) × (¬ IsMarkedOld bytes.now) }
    ensures new_version { result ≡ Err StoreFault.NewVersion → IsMarked bytes.now }
    ensures damaged { result ≡ Err StoreFault.Damaged → IsMarkedOld bytes.now × ShowsNoneOld bytes.now }
    ensures only { OnErr result ((result ≡ Err StoreFault.NotAStore) ⊎ (result ≡ Err StoreFault.NewVersion)
        ⊎ (result ≡ Err StoreFault.Damaged) ⊎ (result ≡ Err StoreFault.NoMemory)) }
{
    if is_marked(bytes, &MAGIC) {
        return Err(StoreFault::NewVersion);
    }
    if !is_marked(bytes, &OLD_MAGIC) {
        return Err(StoreFault::NotAStore);
    }
    let found = read_halves(alloc, bytes)?;
    if !found.no_cursor {
        return Err(StoreFault::Damaged);
    }
    let Found { table, .. } = found;
    Ok(table)
}
