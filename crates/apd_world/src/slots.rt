//! Slots and the outs that wait there: where a BSSID's is, and what goes in and out.
ghost use Rattle.std.specs.Prelude.{◌≡◌, ◌≤◌, IfOk, length, map, take};
ghost use Rattle.std.specs.List.{AllZip};
ghost use Rattle.apd_slot.specs.Slots.{bssid_of, radio_of, HasForgotten};
ghost use Rattle.apd_world.specs.Applying.{IsApplied};
ghost use Rattle.apd_world.specs.Queueing.{QueuesReady};
ghost use Rattle.apd_world.specs.Proper.{IsStepMade};
ghost use Rattle.apd_world.specs.WorldParts.{slot_place};

use crate::durable_core::DurableCore;
use crate::step::Told;
use apd_base::Bssid;
use apd_conf::Confs;
use apd_disk::Disk;
use apd_radio::Radio;
use apd_slot::Slot;
use std::alloc::{AllocError, Global};
use std::collections::VecDeque;

/// A new slot for each configuration, in their order, with the radio at its place. Where there are too few radios, the
/// last configurations have no slot.
pub fn slots_for<R: Radio>(
    alloc: Global,
    confs: &Confs,
    radios: Vec<R>,
) -> Result<Vec<Slot<R>>, AllocError>
    ensures bssids { length confs.now ≤ length radios.items
        → IfOk result (λ slots. map bssid_of slots.items ≡ map (λ conf. conf.bssid) confs.now) }
    ensures frames { length confs.now ≤ length radios.items
        → IfOk result (λ slots. map (λ slot. R.frames (radio_of slot)) slots.items
        ≡ map R.frames (take (length confs.now) radios.items)) }
{
    let mut radios = VecDeque::from_vec(radios);
    let mut slots = Vec::with_capacity(alloc, confs.list().len())?;
    for conf in confs.list() {
        let Some(radio) = radios.pop_front() else {
            return Ok(slots);
        };
        slots.push(Slot::new(alloc, radio, conf.bssid))?;
    }
    Ok(slots)
}

/// The place of a BSSID's slot.
pub(crate) fn place_of<R: Radio>(slots: &[Slot<R>], bssid: Bssid) -> Option<usize>
    ensures { result ≡ slot_place slots.now bssid }
{
    slots
        .iter()
        .position(|slot| bssid.cmp(&slot.bssid()).is_eq())
}

/// Drops the outs that wait at each slot.
pub(crate) fn forget_all<R: Radio>(slots: &mut [Slot<R>])
    ensures { AllZip HasForgotten slots.old slots.new }
{
    for slot in slots.iter_mut() {
        slot.forget();
    }
}

/// Hands what is ready for a radio to its slot, and tells how many outs. Room is made before.
pub(crate) fn hand_to<D: Disk, R: Radio>(
    durable: &mut DurableCore<D>,
    slot: &mut Slot<R>,
    bssid: Bssid,
) -> Told
    ensures queues { QueuesReady bssid result durable.old durable.new slot.old slot.new }
    ensures made { IsStepMade D.model result durable.old durable.new }
{
    durable.stops();
    durable.core.sound();
    match apd_steps::hand_to(&mut durable.core, slot, bssid) {
        Ok(count) => Told::Queued(count),
        Err(_) => Told::NoMemory,
    }
}

/// Applies the first of the outs that wait at a slot.
pub(crate) fn apply_first<R: Radio>(slot: &mut Slot<R>) -> Told
    ensures { IsApplied R.model result slot.old slot.new }
{
    match slot.apply_next() {
        Some(Ok((out, answer))) => Told::Applied(out, answer),
        Some(Err(_short)) => Told::NoMemory,
        None => Told::Nothing,
    }
}
