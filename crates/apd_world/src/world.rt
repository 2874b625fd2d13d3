//! A world: a durable core, and a slot for each interface.
ghost use Rattle.std.specs.Prelude.{◌≡◌, ℕ, List, None, []};
ghost use Rattle.std.specs.List.{AllZip};
ghost use Rattle.apd_base.specs.declared.address.Bssid.{Bssid as Address};
ghost use Rattle.apd_flusher.specs.Flushing.{IsInside, IsSteady};
ghost use Rattle.apd_flusher.specs.Outside.{flusher_device, phase_of, table_of, waiting_batch, waiting_receipt};
ghost use Rattle.apd_slot.specs.Slots.{HasForgotten};

use crate::durable_core::DurableCore;
use crate::slots::{forget_all, place_of};
use apd_base::Bssid;
use apd_conf::Confs;
use apd_core::Core;
use apd_disk::Disk;
use apd_flusher::{Flusher, Phase};
use apd_radio::Radio;
use apd_slot::Slot;
use apd_table::Table;
use std::alloc::Global;

/// A durable core and its slots, with the outs that wait to be applied there. The slots are one for each configured
/// BSSID and no other, as the caller gives them: outs for a BSSID without a slot are held for ever, and a second slot
/// of a BSSID is given none.
#[derive(Drop)]
pub struct World<D: Disk, R: Radio> {
    pub(crate) alloc: Global,
    pub(crate) durable: DurableCore<D>,
    pub(crate) slots: Vec<Slot<R>>,
}

impl<D: Disk, R: Radio> World<D, R> {
    ghost use Rattle.apd_world.specs.Following.{AreFollowing};
    ghost use Rattle.apd_world.specs.History.{History, Keeps};
    ghost use Rattle.apd_world.specs.Outside.{device_of, flusher_of};
    ghost use Rattle.apd_world.specs.Proper.{IsProper, IsSafe, IsShown, IsUnused, IsWhole};
    ghost use Rattle.apd_world.specs.Resumed.{AreResumed};
    ghost use Rattle.apd_world.specs.StandsFor.{BeginsAt, BeginsHere, StandsFor};
    ghost use Rattle.apd_world.specs.WorldParts.{durable_of, is_up_if, queue_of, slot_at, slots_of};

    /// A flusher, a core and slots, which keep the outs that wait there; no batch and no receipt waits. It takes no
    /// memory. Over the flusher of a device that shows the table of a core that accepted nothing yet, what is said of a
    /// stop is so from here on; and where the slots have resumed by that table, they follow it. Where no out waits
    /// there it stands for the history in which nothing has happened.
    pub fn new(alloc: Global, flusher: Flusher<D>, core: Core, slots: Vec<Slot<R>>) -> World<D, R>
        ensures core { (durable_of result).core ≡ core }
        ensures flusher { flusher_of (durable_of result) ≡ flusher }
        ensures batch { waiting_batch (durable_of result).committer ≡ None }
        ensures receipt { waiting_receipt (durable_of result).committer ≡ None }
        ensures slots { slots_of result ≡ slots.items }
        ensures whole { IsUnused core → phase_of flusher ≡ Phase.Idle → IsInside D.model flusher
            → table_of flusher ≡ core.settled → IsWhole D.model (durable_of result) }
        ensures proper { IsUnused core → D.model.honest (flusher_device flusher) → IsInside D.model flusher
            → IsSteady D.model flusher core.settled → IsProper D.model (durable_of result) }
        ensures following { IsUnused core → AreResumed R.model core.settled slots.items → AreFollowing result }
        ensures begins { IsUnused core → ((b : Address) → queue_of result b ≡ [])
            → BeginsAt core.confs core.settled result }
    {
        core.sound();
        World {
            alloc,
            durable: DurableCore::new(flusher, core),
            slots,
        }
    }

    /// The table after all settled entries.
    pub fn table(&self) -> &Table
        ensures { result.now ≡ (durable_of self.now).core.settled }
    {
        self.durable.table()
    }

    /// The configurations.
    pub fn confs(&self) -> &Confs
        ensures { result.now ≡ (durable_of self.now).core.confs }
    {
        self.durable.confs()
    }

    /// Tells a caller's proof what a stop now leaves, between two steps: an image of the table after none of what is
    /// not settled, or after the batch in flight; from the last call of a batch on, if that succeeded, until it is
    /// published, after that batch. (One of no changes has no call: after it, from its load on.) So whatever history
    /// the world stands for keeps it. It does nothing.
    pub fn show_images(&self)
        ensures images { IsProper D.model (durable_of self.now) → IsShown D.model (durable_of self.now) }
        ensures kept { IsProper D.model (durable_of self.now) → (h : History) → StandsFor self.now h
            → (image : List ℕ) → D.model.may_leave (device_of (durable_of self.now)) image → Keeps h h image }
    {
        self.durable.show_images();
    }

    /// Tells a caller's proof that the world stands for a history: for the one that begins at its settled table, with
    /// what is not settled. It does nothing.
    pub fn history(&self)
        ensures { (h : History) × BeginsHere self.now h }
    {
        self.durable.sound();
    }

    /// Tells a caller's proof that a stop now, where no step is made, is as safe as within one. It does nothing.
    pub fn stops(&self)
        ensures { IsSafe D.model (durable_of self.now) (durable_of self.now) }
    {
        self.durable.stops();
    }

    /// Whether the slot of a BSSID is up; not so where it has no slot.
    pub fn is_up(&self, bssid: Bssid) -> bool
        ensures { result ≡ is_up_if (slot_at (slots_of self.now) bssid) }
    {
        match place_of(&self.slots, bssid) {
            Some(place) => self.slots[place].is_up(),
            None => false,
        }
    }

    /// The flusher, the core and the slots. A batch or a receipt that waits is dropped, and so is each out.
    pub fn into_parts(self) -> (Flusher<D>, Core, Vec<Slot<R>>)
        ensures flusher { result.0 ≡ flusher_of (durable_of self) }
        ensures core { result.1 ≡ (durable_of self).core }
        ensures slots { AllZip HasForgotten (slots_of self) result.2.items }
    {
        let World {
            durable,
            mut slots,
            ..
        } = self;
        forget_all(slots.as_mut_slice());
        let (flusher, core) = durable.into_parts();
        (flusher, core, slots)
    }
}
