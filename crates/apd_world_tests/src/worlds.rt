//! The worlds of which tests speak, on devices of memory.
use crate::calls::{
    Memory, blank_disk, confs_of, core, device, flusher, join_parts, refusal, restart_world, store,
    tell,
};
use crate::steps::WLAN0;
use apd_base::{Addr, Bssid, Moment};
use apd_conf::{AddressList, Conf, Confs, InterfaceName};
use apd_core::{Core, Input};
use apd_disk::{Disk, MemDisk};
use apd_flusher::Flusher;
use apd_radio::{Failing, Radio, Sim};
use apd_slot::Slot;
use apd_world::{Step, Told, World};
use std::alloc::Global;

/// The BSSID that ends by this byte.
pub(crate) fn radio(last: u8) -> Bssid {
    Bssid(Addr([2, 0, 0, 0, 0, last]))
}

fn name_of(alloc: Global, name: [u8; 2]) -> Option<InterfaceName> {
    if InterfaceName::is_name(&name) {
        InterfaceName::from_bytes(&name, alloc).ok()
    } else {
        None
    }
}

/// An interface with the network `net`, at the BSSID that ends by this byte.
pub(crate) fn conf(alloc: Global, last: u8) -> Option<Conf> {
    let mut conf = Conf::built_in(alloc).ok()?;
    conf.interface = name_of(alloc, [b'w', b'0' | last])?;
    conf.bssid = radio(last);
    Some(conf)
}

/// Interfaces with the network `net`, at the BSSIDs that end by these bytes.
pub(crate) fn confs(alloc: Global, lasts: &[u8]) -> Option<Confs> {
    let mut list = Vec::new(alloc);
    for last in lasts {
        list.push(conf(alloc, *last)?).ok()?;
    }
    confs_of(list)
}

/// A slot for each of them, with a radio that does nothing.
pub(crate) fn sims(alloc: Global, lasts: &[u8]) -> Option<Vec<Slot<Sim>>> {
    let mut slots = Vec::new(alloc);
    for last in lasts {
        slots
            .push(Slot::new(alloc, Sim::new(alloc), radio(*last)))
            .ok()?;
    }
    Some(slots)
}

/// A slot for the first of them, whose radio passes so many calls and fails then.
pub(crate) fn failing_radio(alloc: Global, calls: u64) -> Option<Vec<Slot<Failing<Sim>>>> {
    let radio = Failing::new(Sim::new(alloc), calls);
    let mut slots = Vec::new(alloc);
    slots.push(Slot::new(alloc, radio, WLAN0)).ok()?;
    Some(slots)
}

fn new_flusher<D: Disk + Drop>(alloc: Global, disk: D) -> Option<Flusher<D>> {
    flusher(alloc, store(alloc, disk)?)
}

fn new_core(alloc: Global, lasts: &[u8]) -> Option<Core> {
    core(alloc, confs(alloc, lasts)?)
}

/// A world on a store that the device is given, of which no interface was started.
pub(crate) fn new_world<D: Disk + Drop, R: Radio>(
    alloc: Global,
    disk: D,
    lasts: &[u8],
    slots: Vec<Slot<R>>,
) -> Option<World<D, R>> {
    match new_flusher(alloc, disk).zip(new_core(alloc, lasts)) {
        Some((flusher, core)) => Some(join_parts(alloc, flusher, core, slots)),
        None => None,
    }
}

/// A started world on a new store, with these slots.
pub(crate) fn start_with<R: Radio>(
    alloc: Global,
    lasts: &[u8],
    slots: Vec<Slot<R>>,
) -> Option<World<MemDisk, R>> {
    running(new_world(alloc, blank_disk(alloc)?, lasts, slots)?)
}

/// The same with radios that do nothing.
pub(crate) fn start_world(alloc: Global, lasts: &[u8]) -> Option<Memory> {
    start_with(alloc, lasts, sims(alloc, lasts)?)
}

/// The world of the store that a device holds, of which no interface was started.
pub(crate) fn recover_world(alloc: Global, device: MemDisk, lasts: &[u8]) -> Option<Memory> {
    let confs = confs(alloc, lasts)?;
    let slots = sims(alloc, lasts)?;
    restart_world(alloc, device, confs, slots).ok()
}

/// The world, started.
fn running<R: Radio>(world: World<MemDisk, R>) -> Option<World<MemDisk, R>> {
    let mut world = world;
    refusal(&mut world).is_none().then_some(world)
}

/// What is told of the configuration of the interface at the BSSID that ends by this byte.
pub(crate) fn configure_radio<D: Disk, R: Radio>(
    alloc: Global,
    world: &mut World<D, R>,
    last: u8,
) -> Option<Vec<Told>> {
    let none = AddressList::new(alloc);
    let input = Input::Configure {
        bssid: radio(last),
        accept: &none,
        deny: &none,
    };
    tell(world, &[Step::Accept(input, Moment(0))])
}

/// The device after these steps of a world.
pub(crate) fn stop_after<R: Radio>(
    world: World<MemDisk, R>,
    steps: &[Step<'static>],
) -> Option<MemDisk> {
    let mut world = world;
    let tolds = tell(&mut world, steps);
    tolds.is_some().then_some(device(world))
}
