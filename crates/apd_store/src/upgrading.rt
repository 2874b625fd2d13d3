//! From a store of version 1 to one of this version, on another device.
ghost use Rattle.std.specs.Prelude.{◌≡◌, ◌≢◌, ◌≤◌, ◌<◌, ◌+◌, ◌-◌, ◌⊎◌, false, length, OnOk, IfOk, IfErr, OnErr, IsErrOf, Err, MatchResult};
ghost use Rattle.apd_base.specs.declared.limits.TheConstants.{DEVICE_LENGTH};
ghost use Rattle.apd_base.specs.Failures.{HasRisen};
ghost use Rattle.apd_disk.specs.Disk.{Only, LeavesOnly};
ghost use Rattle.apd_journal.specs.declared.writer.TheConstants.{HALF_LENGTH};
ghost use Rattle.apd_store.specs.Image.{IsMarked, IsMarkedOld, MayBeMade, ShowsNoneOld, ShowsOld};
ghost use Rattle.apd_store.specs.Layout.{BeginsBy, IsFound};
ghost use Rattle.apd_store.specs.Recovery.{HasFailedToSync};
ghost use Rattle.apd_store.specs.Upgrading.{HasNoneGiven, IsNotUpgraded, IsOnlyRead, IsUpgraded};
ghost use Rattle.apd_store.specs.declared.half.Half.TheVariants.{A};

use crate::fault::StoreFault;
use crate::formatting::{HEAD_B, lay_out};
use crate::half::Half;
use crate::phase::Phase;
use crate::reading::read_old_image;
use crate::recovery::read_device;
use crate::store::Store;
use apd_base::limits::DEVICE_LENGTH;
use apd_disk::Disk;
use apd_journal::plan_half;
use apd_table::Table;
use std::alloc::{AllocError, Global};

/// The table that a device shows to the program of version 1, after a sync.
fn read_old<D: Disk>(alloc: Global, device: &mut D) -> Result<Table, StoreFault>
    ensures was_honest { D.model.honest device.new → D.model.honest device.old }
    ensures only_read { D.model.honest device.new → IsOnlyRead D.model device.old device.new }
    ensures stays { D.model.honest device.new → result ≢ Err StoreFault.Device
        → D.model.reads device.new ≡ D.model.reads device.old }
    ensures durable { D.model.honest device.new → result ≢ Err StoreFault.Device
        → Only (D.model.reads device.old) (D.model.may_leave device.new) }
    ensures durable_first { D.model.honest device.new → result ≡ Err StoreFault.Device
        → Only (D.model.reads device.old) (D.model.may_leave device.new)
        ⊎ HasFailedToSync D.model device.old device.new }
    ensures ok { D.model.honest device.new → IfOk result (λ table. ShowsOld (D.model.reads device.old) table) }
    ensures none_given { IfOk result (λ table. HasNoneGiven table) }
    ensures right_length { OnOk result (D.model.size device.old ≡ DEVICE_LENGTH) }
    ensures other_length { D.model.size device.old ≢ DEVICE_LENGTH
        → OnErr result ((result ≡ Err StoreFault.NotAStore) ⊎ (result ≡ Err StoreFault.Device)) }
    ensures not_a_store { D.model.honest device.new → result ≡ Err StoreFault.NotAStore
        → (¬ IsMarked (D.model.reads device.old)) × (¬ IsMarkedOld (D.model.reads device.old)) }
    ensures new_version { D.model.honest device.new → result ≡ Err StoreFault.NewVersion
        → IsMarked (D.model.reads device.old) }
    ensures damaged { D.model.honest device.new → result ≡ Err StoreFault.Damaged
        → IsMarkedOld (D.model.reads device.old) × ShowsNoneOld (D.model.reads device.old) }
    ensures count { D.model.failed device.old ≤ D.model.failed device.new }
    ensures no_fault { result ≢ Err StoreFault.Device → D.model.failed device.new ≡ D.model.failed device.old }
    ensures device { IsErrOf result StoreFault.Device → HasRisen (D.model.failed device.old) (D.model.failed device.new) }
    ensures only { OnErr result ((result ≡ Err StoreFault.NotAStore) ⊎ (result ≡ Err StoreFault.NewVersion)
        ⊎ (result ≡ Err StoreFault.Damaged) ⊎ (result ≡ Err StoreFault.Device) ⊎ (result ≡ Err StoreFault.NoMemory)) }
{
    let bytes = read_device(alloc, device)?;
    read_old_image(alloc, &bytes)
}

/// The head of half A of a new store of this table: open, with epoch 1, its snapshot and a closed gate.
fn head_of(alloc: Global, table: &Table) -> Result<Vec<u8>, AllocError>
    ensures some { IfOk result (λ head. 1 ≤ length head.items) }
    ensures fits { IfOk result (λ head. length head.items ≤ HALF_LENGTH) }
    ensures begins { HasNoneGiven table.now
        → IfOk result (λ head. BeginsBy head.items 1 (length head.items - 1) table.now) }
{
    let snapshot = table.snapshot(alloc)?;
    let plan = plan_half(alloc, 1, &snapshot)?;
    let mut head = Vec::with_capacity(alloc, plan.bytes.len().saturating_add(1))?;
    head.push(1)?;
    head.extend_from_slice(plan.bytes.as_slice())?;
    Ok(head)
}

/// Lays out a store of this table, and answers the place of its closed gate. All memory is taken before the first call.
fn lay_out_copy<D: Disk>(alloc: Global, device: &mut D, table: &Table) -> Result<usize, StoreFault>
    ensures was_honest { D.model.honest device.new → D.model.honest device.old }
    ensures size { D.model.size device.new ≡ D.model.size device.old }
    ensures right_length { OnOk result (D.model.size device.old ≡ DEVICE_LENGTH) }
    ensures not_a_store { result ≡ Err StoreFault.NotAStore → D.model.size device.old ≢ DEVICE_LENGTH }
    ensures untouched { OnErr result (result ≢ Err StoreFault.Device → device.new ≡ device.old) }
    ensures other_length { D.model.size device.old ≢ DEVICE_LENGTH → device.new ≡ device.old }
    ensures gate { IfOk result (λ gate. gate < HALF_LENGTH) }
    ensures count { D.model.failed device.old ≤ D.model.failed device.new }
    ensures no_fault { OnOk result (D.model.failed device.new ≡ D.model.failed device.old) }
    ensures device { IsErrOf result StoreFault.Device → HasRisen (D.model.failed device.old) (D.model.failed device.new) }
    ensures only { OnErr result ((result ≡ Err StoreFault.NotAStore) ⊎ (result ≡ Err StoreFault.Device)
        ⊎ (result ≡ Err StoreFault.NoMemory)) }
    ensures any_moment { D.model.honest device.new → HasNoneGiven table.now
        → LeavesOnly D.model device.old device.new (MayBeMade table.now (D.model.may_leave device.old)) }
    ensures calls { D.model.honest device.new → D.model.moment device.new ≤ D.model.moment device.old + 9 }
    ensures found { D.model.honest device.new → HasNoneGiven table.now
        → IfOk result (λ gate. IsFound (D.model.reads device.new) A 1 gate false table.now
        × Only (D.model.reads device.new) (D.model.may_leave device.new)) }
{
    if device.len() != DEVICE_LENGTH as usize {
        return Err(StoreFault::NotAStore);
    }
    let head = head_of(alloc, table)?;
    lay_out(device, &head, &HEAD_B)?;
    Ok(head.len() - 1)
}

/// Makes the new device a store of the table that the old one, a store of version 1, shows to the program of that
/// version: each cursor is then 0. The old device is synced and read, and never written: a stop leaves of it what it
/// could leave before. Of the new one, whatever it held, a stop leaves what one within `format` does, with this table
/// in the place of the empty one. It takes memory for the old device's bytes, the table and its snapshot, all before
/// the new device is called.
///
/// Errors, with both devices handed back: of the old device `NotAStore` where the length differs, or the magic is that
/// of no version; `NewVersion` where it is that of version 2; else `Damaged` where the bytes show no state to the
/// program of version 1; then `NotAStore` where the new device's length differs; `Device` where either failed in this
/// call; `NoMemory`. The new device is as it was after any of them but `Device`.
pub fn upgrade<O: Disk, N: Disk>(
    alloc: Global,
    old: O,
    new: N,
) -> Result<(O, Store<N>), (O, N, StoreFault)>
    ensures made { IfOk result (λ made. IsUpgraded O.model N.model old made.0 new made.1) }
    ensures none { IfErr result (λ e. IsNotUpgraded O.model N.model old e.0 new e.1 e.2) }
    ensures only_read { MatchResult result (λ made. O.model.honest made.0 → IsOnlyRead O.model old made.0)
        (λ e. O.model.honest e.0 → IsOnlyRead O.model old e.0) }
{
    let mut old = old;
    let mut new = new;
    let table = match read_old(alloc, &mut old) {
        Ok(table) => table,
        Err(fault) => return Err((old, new, fault)),
    };
    match lay_out_copy(alloc, &mut new, &table) {
        Ok(gate) => Ok((old, Store::new(alloc, new, Half::A, 1, gate, false))),
        Err(fault) => Err((old, new, fault)),
    }
}
