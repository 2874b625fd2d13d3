//! A world begun anew, from what a device holds: its slots resume by the table.
ghost use Rattle.std.specs.Prelude.{◌≡◌, ◌≢◌, ◌⊎◌, IfOk, IfErr, OnOk};
ghost use Rattle.apd_base.specs.declared.address.Bssid.{Bssid as Address};
ghost use Rattle.apd_slot.specs.declared.slot.SlotFault.{SlotFault as Fault};
ghost use Rattle.apd_world.specs.BegunAnew.{IsBegunAnew, IsBegunWith, IsNotBegunAnew};
ghost use Rattle.apd_world.specs.Resumed.{AreHandedBack, AreResumed, EndsAtSlot, HasNotResumed, HasResumed, HaveSameBssids, HaveSameFrames};
ghost use Rattle.apd_world.specs.StandsFor.{BeginsAt};
ghost use Rattle.apd_world.specs.WorldParts.{durable_of, slots_of};

use crate::core_restarting::durable_core_of;
use crate::fault::WorldFault;
use crate::world::World;
use apd_base::{Bssid, Moment};
use apd_conf::Confs;
use apd_disk::Disk;
use apd_radio::Radio;
use apd_slot::{Slot, SlotFault};
use apd_store::{Store, StoreFault, an_image_shows_one_state, recover};
use apd_table::Table;
use std::alloc::Global;

// Resumes each slot by a table, in order.
//
// Errors: why the first that did not resume did not, with its BSSID.
fn resume_all<R: Radio>(
    alloc: Global,
    table: &Table,
    slots: &mut [Slot<R>],
) -> Result<(), (Bssid, SlotFault)>
    ensures ok { OnOk result (AreResumed R.model table.now slots.new) }
    ensures frames { OnOk result (HaveSameFrames R.frames slots.old slots.new) }
    ensures same { HaveSameBssids slots.old slots.new }
    ensures err { IfErr result (λ e. HasNotResumed R.model table.now e.0 e.1 slots.old slots.new) }
{
    for slot in slots.iter_mut() {
        if let Err(fault) = slot.resume(alloc, table) {
            return Err((slot.bssid(), fault));
        }
    }
    Ok(())
}

/// The world of a recovered store, of its table and of these slots: nothing is unsettled, and every station was heard
/// at this moment. Each slot is up, and its radio has the associated stations of its BSSID in that table; no out
/// waits. It makes no call of the store's device.
///
/// Errors, with that device and the slots handed back: `NoMemory`, where the slots are as they were; `Slot`, with the
/// BSSID of the first slot that did not resume, which is down, and `WentDown`, where its radio's device failed in this
/// call, or `NoMemory`. The slots before that one have resumed, and those behind it are as they were.
pub fn begin_anew<D: Disk, R: Radio>(
    alloc: Global,
    store: Store<D>,
    table: Table,
    confs: Confs,
    slots: Vec<Slot<R>>,
    moment: Moment,
) -> Result<World<D, R>, (D, Vec<Slot<R>>, WorldFault)>
    ensures begun { IfOk result (λ world. IsBegunWith D.model store table confs moment (durable_of world)) }
    ensures resumed { IfOk result (HasResumed R.model slots.items) }
    ensures begins { IfOk result (BeginsAt confs table) }
    ensures frames { IfOk result (λ world. HaveSameFrames R.frames slots.items (slots_of world)) }
    ensures none { IfErr result (λ e. AreHandedBack R.model store table slots.items e.0 e.1.items e.2) }
{
    let mut slots = slots;
    let durable = match durable_core_of(alloc, store, table, confs, moment) {
        Ok(durable) => durable,
        Err(device) => return Err((device, slots, WorldFault::NoMemory)),
    };
    match resume_all(alloc, durable.table(), slots.as_mut_slice()) {
        Ok(()) => Ok(World {
            alloc,
            durable,
            slots,
        }),
        Err((bssid, fault)) => {
            let (flusher, core) = durable.into_parts();
            drop(core);
            let fault = WorldFault::Slot(bssid, fault);
            Err((flusher.into_device(), slots, fault))
        }
    }
}

/// The world of the store that a device holds, and of these slots: its table is the state that the device's bytes
/// show, nothing is unsettled, and every station was heard at this moment: the world stands for the history that begins
/// there. Where the bytes show what a history keeps, as a stop leaves them, the table is the state that it keeps. Each
/// slot is up, and its radio has the associated stations of its BSSID in that table; no out waits. A stop within it
/// leaves what could be left before.
///
/// Errors, with the device and the slots handed back: `Store` with `NotAStore` where its length differs, or its magic
/// is that of no version; with `OldVersion` where that is version 1's; else with `Damaged` where the bytes show no
/// state; with `Device` where the device failed in this call; with `NoMemory`; then those of `begin_anew`. Where a stop
/// left one image before the call, as after a sync, it leaves that one after any of them; and so it does where the sync
/// with which the recovery began succeeded, also where the read behind it failed.
pub fn restart<D: Disk, R: Radio>(
    alloc: Global,
    device: D,
    confs: Confs,
    slots: Vec<Slot<R>>,
    moment: Moment,
) -> Result<World<D, R>, (D, Vec<Slot<R>>, WorldFault)>
    ensures begun { IfOk result (λ world. IsBegunAnew D.model device confs moment (durable_of world)) }
    ensures resumed { IfOk result (HasResumed R.model slots.items) }
    ensures begins { IfOk result (λ world. BeginsAt confs (durable_of world).core.settled world) }
    ensures frames { IfOk result (λ world. HaveSameFrames R.frames slots.items (slots_of world)) }
    ensures none { IfErr result (λ e. IsNotBegunAnew D.model device e.0 e.2) }
    ensures only { IfErr result
        (λ e. (e.2 ≡ WorldFault.Store StoreFault.NotAStore) ⊎ (e.2 ≡ WorldFault.Store StoreFault.OldVersion)
        ⊎ (e.2 ≡ WorldFault.Store StoreFault.Damaged) ⊎ (e.2 ≡ WorldFault.Store StoreFault.Device)
        ⊎ (e.2 ≡ WorldFault.Store StoreFault.NoMemory)
        ⊎ (e.2 ≡ WorldFault.NoMemory) ⊎ ((b : Address) × (fault : Fault) × (e.2 ≡ WorldFault.Slot b fault)
        × EndsAtSlot D.model R.model device e.0 b fault slots.items e.1.items)) }
    ensures still_slots { IfErr result (λ e. ((b : Address) (fault : Fault) → e.2 ≢ WorldFault.Slot b fault)
        → e.1.items ≡ slots.items) }
    ensures slots_err { IfErr result (λ e. HaveSameBssids slots.items e.1.items) }
{
    an_image_shows_one_state();
    match recover(alloc, device) {
        Ok((store, table)) => begin_anew(alloc, store, table, confs, slots, moment),
        Err((device, fault)) => Err((device, slots, WorldFault::Store(fault))),
    }
}
