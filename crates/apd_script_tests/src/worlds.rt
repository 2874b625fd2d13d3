//! Scripts and worlds on devices of memory, each call by a function of its own, so that the proof of a test
//! needn't carry its contract.
use crate::calls::{one_radio, two_radios};
use crate::expect::expect;
use apd_base::{Bssid, Moment};
use apd_conf::Confs;
use apd_disk::{Disk, MemDisk};
use apd_radio::{Radio, Replaying, Sim};
use apd_script::{ScriptFault, new_store, run_on_store, run_script};
use apd_slot::Slot;
use apd_world::{World, restart};
use std::alloc::Global;
use std::io::{BufRead, Write};
use std::process::Abort;

/// A store of the empty table.
pub fn fresh_store(rt: &impl Abort, alloc: Global) -> MemDisk {
    new_store(alloc).expect(rt, "a store")
}

/// The device of a world.
fn device_of<D: Disk + Drop>(world: World<D, Sim>) -> D {
    let (flusher, core, slots) = world.into_parts();
    drop(core);
    drop(slots);
    flusher.into_device()
}

/// Runs a script on the store that a device holds, and hands the device back.
pub fn run_on<D: Disk + Drop, I: BufRead + Drop, W: Write>(
    alloc: Global,
    disk: D,
    confs: Confs,
    script: I,
    writer: &mut W,
) -> Result<D, ScriptFault> {
    match run_on_store(alloc, disk, confs, script, writer) {
        Ok(world) => Ok(device_of(world)),
        Err(fault) => Err(fault),
    }
}

/// How a script on one radio ends.
pub fn fault_on<D: Disk + Drop, I: BufRead + Drop, W: Write>(
    rt: &impl Abort,
    alloc: Global,
    disk: D,
    script: I,
    writer: &mut W,
) -> Option<ScriptFault> {
    run_on(alloc, disk, one_radio(rt, alloc), script, writer).err()
}

/// Expects how a script ends on one radio and a store, and what it prints.
pub fn expect_run_on<D: Disk + Drop>(
    rt: &impl Abort,
    alloc: Global,
    disk: D,
    script: &[u8],
    (fault, text): (Option<ScriptFault>, &[u8]),
) {
    let mut out = Vec::new(alloc);
    expect(rt, fault_on(rt, alloc, disk, script, &mut out), fault);
    expect(rt, out.as_slice(), text);
}

/// The same on a new store.
pub fn expect_run(
    rt: &impl Abort,
    alloc: Global,
    script: &[u8],
    fault: Option<ScriptFault>,
    text: &[u8],
) {
    let disk = fresh_store(rt, alloc);
    expect_run_on(rt, alloc, disk, script, (fault, text));
}

/// A world of a new store and of these slots, which is not started yet.
fn world_of_slots<R: Radio>(
    rt: &impl Abort,
    alloc: Global,
    confs: Confs,
    slots: Vec<Slot<R>>,
) -> World<MemDisk, R> {
    let disk = fresh_store(rt, alloc);
    let world = restart(alloc, disk, confs, slots, Moment(0)).ok();
    world.expect(rt, "a world")
}

/// Adds a slot.
fn add_slot<R: Radio>(
    rt: &impl Abort,
    alloc: Global,
    slots: &mut Vec<Slot<R>>,
    radio: R,
    bssid: Bssid,
) {
    let pushed = slots.push(Slot::new(alloc, radio, bssid));
    pushed.ok().expect(rt, "memory");
}

/// A slot for each configuration, with a radio that does nothing.
fn new_slots(rt: &impl Abort, alloc: Global, confs: &Confs) -> Vec<Slot<Sim>> {
    let mut slots = Vec::new(alloc);
    for conf in confs.list() {
        add_slot(rt, alloc, &mut slots, Sim::new(alloc), conf.bssid);
    }
    slots
}

/// A world of a new store and of one radio, which is not started yet.
pub fn new_world(rt: &impl Abort, alloc: Global) -> World<MemDisk, Sim> {
    let confs = one_radio(rt, alloc);
    let slots = new_slots(rt, alloc, &confs);
    world_of_slots(rt, alloc, confs, slots)
}

/// A radio that receives the frames of a recording.
fn replaying(rt: &impl Abort, alloc: Global, recording: &str) -> Replaying {
    let radio = Replaying::new(alloc, recording.as_bytes());
    radio.expect(rt, "a recording")
}

/// Slots with these radios, one for each configuration.
fn slots_with(
    rt: &impl Abort,
    alloc: Global,
    confs: &Confs,
    recordings: &[&str],
) -> Vec<Slot<Replaying>> {
    let mut slots = Vec::new(alloc);
    for (conf, recording) in confs.list().iter().zip(recordings) {
        let radio = replaying(rt, alloc, recording);
        add_slot(rt, alloc, &mut slots, radio, conf.bssid);
    }
    slots
}

/// A world of a new store and of two radios, which receive the frames of these recordings. It is not started yet.
fn replaying_world(
    rt: &impl Abort,
    alloc: Global,
    recordings: &[&str],
) -> World<MemDisk, Replaying> {
    let confs = two_radios(rt, alloc);
    let slots = slots_with(rt, alloc, &confs, recordings);
    world_of_slots(rt, alloc, confs, slots)
}

/// Radios that receive the frames of these recordings.
fn all_replaying(rt: &impl Abort, alloc: Global, recordings: &[&str]) -> Vec<Replaying> {
    let mut radios = Vec::new(alloc);
    for recording in recordings {
        let pushed = radios.push(replaying(rt, alloc, recording));
        pushed.ok().expect(rt, "memory");
    }
    radios
}

/// The slots of a world.
pub fn slots_of<R: Radio>(world: World<MemDisk, R>) -> Vec<Slot<R>> {
    let (flusher, core, slots) = world.into_parts();
    drop(flusher);
    drop(core);
    slots
}

/// The world that a script leaves, which takes these other radios at its stops.
fn run_in<R: Radio>(
    rt: &impl Abort,
    alloc: Global,
    world: World<MemDisk, R>,
    script: &[u8],
    spares: Vec<R>,
    out: &mut Vec<u8>,
) -> World<MemDisk, R> {
    let left = run_script(alloc, world, script, out, spares).ok();
    left.expect(rt, "a script without a fault")
}

/// The slots of a world of two radios once a script was run on it, whose stops take these other ones.
pub fn slots_after(
    rt: &impl Abort,
    alloc: Global,
    script: &[u8],
    radios: &[&str],
    spares: &[&str],
) -> Vec<Slot<Replaying>> {
    let left = all_replaying(rt, alloc, spares);
    let world = replaying_world(rt, alloc, radios);
    let mut out = Vec::new(alloc);
    slots_of(run_in(rt, alloc, world, script, left, &mut out))
}

/// A radio of any kind.
pub type Boxed = Box<dyn Radio + Send>;

/// A world of a new store and of this radio, which is not started yet.
pub fn world_with(rt: &impl Abort, alloc: Global, radio: Boxed) -> World<MemDisk, Boxed> {
    let confs = one_radio(rt, alloc);
    let bssid = confs.list().first().expect(rt, "an interface").bssid;
    let mut slots = Vec::new(alloc);
    add_slot(rt, alloc, &mut slots, radio, bssid);
    world_of_slots(rt, alloc, confs, slots)
}

/// Runs a script on a world, which is expected to print this, and gives the world back.
pub fn run_in_world(
    rt: &impl Abort,
    alloc: Global,
    world: World<MemDisk, Boxed>,
    script: &[u8],
    text: &[u8],
) -> World<MemDisk, Boxed> {
    let mut out = Vec::new(alloc);
    let world = run_in(rt, alloc, world, script, Vec::new(alloc), &mut out);
    expect(rt, out.as_slice(), text);
    world
}

/// Puts another radio in the place of a BSSID's, and gives that one back.
pub fn replace_radio(
    rt: &impl Abort,
    world: &mut World<MemDisk, Boxed>,
    bssid: Bssid,
    radio: Boxed,
) -> Boxed {
    let own = world.replace(bssid, radio).ok();
    own.expect(rt, "a radio that is replaced")
}

/// The device behind a script on one radio.
pub fn device_after(rt: &impl Abort, alloc: Global, script: &[u8]) -> MemDisk {
    store_after(rt, alloc, one_radio(rt, alloc), script)
}

/// The device behind a script on these radios.
pub fn store_after(rt: &impl Abort, alloc: Global, confs: Confs, script: &[u8]) -> MemDisk {
    let mut out = Vec::new(alloc);
    let disk = run_on(alloc, fresh_store(rt, alloc), confs, script, &mut out);
    disk.expect(rt, "a script without a fault")
}
