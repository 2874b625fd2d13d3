//! A script on the store of a device: radios in memory, a world begun from the store, and its lines.
ghost use Rattle.std.specs.Prelude.{◌≡◌, ◌*◌, ℕ, List, IfErr, IfOk, length, map};
ghost use Rattle.apd_base.specs.State.{empty_state};
ghost use Rattle.apd_script.specs.Faults.{IsFaultOn};
ghost use Rattle.apd_script.specs.Script.{IsRunOn};
ghost use Rattle.apd_slot.specs.Slots.{bssid_of};
ghost use Rattle.apd_store.specs.Image.{Shows};

use crate::script::{ScriptFault, begin_from, run_script};
use apd_base::Moment;
use apd_base::limits::DEVICE_LENGTH;
use apd_conf::Confs;
use apd_disk::{Disk, MemDisk};
use apd_radio::{Radio, Sim};
use apd_slot::Slot;
use apd_store::format;
use apd_world::{World, WorldFault, slots_for};
use std::alloc::{AllocError, Global};
use std::io::{BufRead, Write};

/// How often a script may stop.
pub const STOPS: usize = 8;

// No clause says what it holds: a proof would go through two million bytes.
fn blank_device(alloc: Global) -> Result<MemDisk, AllocError> {
    MemDisk::new(alloc, vec![in alloc; 0u8; DEVICE_LENGTH as usize]?)
}

/// A new store of the empty table, in memory.
///
/// # Errors
///
/// `World` where the device can't record its calls, and `NoMemory`.
pub fn new_store(alloc: Global) -> Result<MemDisk, ScriptFault>
    ensures { IfOk result
        (λ disk. (image : List ℕ) → ⟦<MemDisk as Disk>⟧.model.may_leave disk image → Shows image empty_state) }
{
    match format(alloc, blank_device(alloc)?) {
        Ok(store) => Ok(store.into_device()),
        Err((_device, fault)) => Err(ScriptFault::World(WorldFault::Store(fault))),
    }
}

/// So many radios in memory.
fn radios(alloc: Global, count: usize) -> Result<Vec<Sim>, AllocError>
    ensures { IfOk result (λ radios. length radios.items ≡ count) }
{
    let mut radios = Vec::new(alloc);
    for _place in 0..count {
        radios.push(Sim::new(alloc))?;
    }
    Ok(radios)
}

/// The radios in memory that the stops of these interfaces take.
fn spares_for(alloc: Global, confs: &Confs) -> Result<Vec<Sim>, AllocError>
    ensures { IfOk result (λ radios. length radios.items ≡ STOPS * length confs.now) }
{
    radios(alloc, STOPS * confs.list().len())
}

/// Recovers the store that a device holds, and runs a script on it as `run_script` does, with a radio for each
/// interface and as many more as eight stops take.
fn run_from<D: Disk + Drop, R: Radio, I: BufRead + Drop, W: Write>(
    alloc: Global,
    disk: D,
    confs: Confs,
    slots: Vec<Slot<R>>,
    spares: Vec<R>,
    reader: I,
    writer: &mut W,
) -> Result<World<D, R>, ScriptFault>
    ensures ok { IfOk result (λ new. map bssid_of slots.items ≡ map (λ conf. conf.bssid) confs
        → length spares.items ≡ STOPS * length confs → IsRunOn D.model R.model
        STOPS disk confs (I.remaining reader) new) }
    ensures err { IfErr result (λ why. map bssid_of slots.items ≡ map (λ conf. conf.bssid) confs
        → length spares.items ≡ STOPS * length confs → IsFaultOn D.model R.model
        STOPS disk confs (I.remaining reader) why) }
{
    let world = begin_from(alloc, disk, confs, slots, Moment(0))?;
    run_script(alloc, world, reader, writer, spares)
}

/// Recovers the store that a device holds, and runs a script on it as `run_script` does, with radios in memory:
/// one for each interface, and one more for each of eight stops. Hands back the world that it ends with.
///
/// # Errors
///
/// `World` where the store is refused or its device fails, before anything is printed; else as `run_script`.
pub fn run_on_store<D: Disk + Drop, I: BufRead + Drop, W: Write>(
    alloc: Global,
    disk: D,
    confs: Confs,
    reader: I,
    writer: &mut W,
) -> Result<World<D, Sim>, ScriptFault>
    ensures ok { IfOk result (IsRunOn D.model ⟦<Sim as Radio>⟧.model STOPS disk confs (I.remaining reader)) }
    ensures err { IfErr result (IsFaultOn D.model ⟦<Sim as Radio>⟧.model STOPS disk confs (I.remaining reader)) }
{
    let radios = radios(alloc, confs.list().len())?;
    let slots = slots_for(alloc, &confs, radios)?;
    let spares = spares_for(alloc, &confs)?;
    run_from(alloc, disk, confs, slots, spares, reader, writer)
}
