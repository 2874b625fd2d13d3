//! Restarts where memory is refused: each is tried once more, and has to come to the same. Where memory is ample
//! nothing is refused; by hand each allocation is refused in turn.
use crate::calls::{Memory, Refused, device, restart_world, slots_of, tell};
use crate::expect::expect;
use crate::seen::{Seen, look_at_two};
use crate::steps::{ASSOCIATIONS, OTHER, STATION, WLAN0, WLAN1, steps_of};
use crate::worlds::{confs, sims, start_world};
use apd_conf::Confs;
use apd_disk::{MemDisk, Torn};
use apd_radio::Sim;
use apd_slot::{Slot, SlotFault};
use apd_store::StoreFault;
use apd_world::WorldFault;
use std::alloc::Global;

/// The device on which a station is associated at each radio; none where a step was refused memory.
fn settle(alloc: Global) -> Option<MemDisk> {
    let steps = steps_of(alloc, ASSOCIATIONS)?;
    let mut world = start_world(alloc, &[1, 2])?;
    let tolds = tell(&mut world, &steps);
    let has_both = tolds.is_some() && world.table().rows() == 2;
    has_both.then_some(device(world))
}

fn settle_or_retry(alloc: Global) -> Option<MemDisk> {
    match settle(alloc) {
        Some(device) => Some(device),
        None => settle(alloc),
    }
}

/// What is seen of both slots.
fn look(slots: &[Slot<Sim>]) -> Option<[Seen; 2]> {
    look_at_two(slots, [STATION, OTHER])
}

/// A slot as it is new, one that has resumed, and one that has not.
const NEW: Seen = (true, None, None);

const RESUMED: Seen = (true, Some(1), Some(1));

const DOWN: Seen = (false, None, None);

/// What a restart that is refused so leaves of the slots. Want of memory alone refuses one here; the device, too,
/// fails for it.
fn slots_behind(fault: WorldFault) -> Option<[Seen; 2]> {
    match fault {
        WorldFault::NoMemory
        | WorldFault::Store(StoreFault::NoMemory)
        | WorldFault::Store(StoreFault::Device) => Some([NEW, NEW]),
        WorldFault::Slot(bssid, SlotFault::NoMemory) if bssid == WLAN0 => Some([DOWN, NEW]),
        WorldFault::Slot(bssid, SlotFault::NoMemory) if bssid == WLAN1 => Some([RESUMED, DOWN]),
        _ => None,
    }
}

fn two_confs(alloc: Global) -> Option<Confs> {
    match confs(alloc, &[1, 2]) {
        Some(confs) => Some(confs),
        None => confs(alloc, &[1, 2]),
    }
}

fn new_slots(alloc: Global) -> Option<Vec<Slot<Sim>>> {
    match sims(alloc, &[1, 2]) {
        Some(slots) => Some(slots),
        None => sims(alloc, &[1, 2]),
    }
}

/// Another world of what a refusal handed back, behind a stop that leaves such an image; none where the slots are
/// not as they should be.
fn begin_again(alloc: Global, refused: Refused<Sim>, torn: Torn) -> Option<Memory> {
    let (device, slots, fault) = refused;
    if look(&slots) != slots_behind(fault) {
        return None;
    }
    restart_world(alloc, device.crash(torn), two_confs(alloc)?, slots).ok()
}

/// The world of the device, where memory is refused that of the second try.
fn begin(alloc: Global, device: MemDisk, torn: Torn) -> Option<Memory> {
    let confs = two_confs(alloc)?;
    let slots = new_slots(alloc)?;
    match restart_world(alloc, device, confs, slots) {
        Ok(world) => Some(world),
        Err(refused) => begin_again(alloc, refused, torn),
    }
}

/// How many rows both BSSIDs have, and what is seen of the slots.
fn contents(world: Memory) -> (usize, Option<[Seen; 2]>) {
    let rows = world.table().rows();
    let slots = slots_of(world);
    (rows, look(&slots))
}

/// What is found in the world of a device on which a station was associated at each radio.
fn resume(alloc: Global, torn: Torn) -> Option<(usize, Option<[Seen; 2]>)> {
    Some(contents(begin(alloc, settle_or_retry(alloc)?, torn)?))
}

#[test]
fn a_restart_that_is_refused_memory_leaves_what_was(rt: HostRuntime) {
    for torn in [Torn::Old, Torn::New, Torn::Byte(0x55)] {
        let found = resume(rt.alloc(), torn);
        expect(&rt, found, Some((2, Some([RESUMED, RESUMED]))));
    }
}
