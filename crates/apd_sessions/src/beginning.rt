//! How a session begins: a device, its configurations, and the world of its store.
use crate::ending::{say_left_behind, say_slots};
use crate::images::{Image, disk_with};
use crate::saying::{say, say_again};
use crate::world::{Memory, is_short};
use apd_base::Moment;
use apd_conf::{Conf, Confs};
use apd_disk::MemDisk;
use apd_radio::Sim;
use apd_slot::Slot;
use apd_store::{StoreFault, format};
use apd_world::{WorldFault, restart, slots_for};
use std::alloc::{AllocError, Global};
use std::io;

/// What a restart that is refused hands back, and why it is.
type Refused = (MemDisk, Vec<Slot<Sim>>, WorldFault);

fn format_disk(alloc: Global, disk: MemDisk) -> Result<MemDisk, (MemDisk, StoreFault)> {
    Ok(format(alloc, disk)?.into_device())
}

/// A device that holds this, made once more where memory lacked.
pub fn device(rt: &impl Print, alloc: Global, image: Image) -> io::Result<MemDisk> {
    match disk_with(alloc, image) {
        Ok(disk) => Ok(disk),
        Err(_) => {
            say_again(rt, "a device")?;
            Ok(disk_with(alloc, image)?)
        }
    }
}

/// Formats a device; where a call of it failed, says why, and what it shows.
fn format_or_end(rt: &impl Print, alloc: Global, disk: MemDisk) -> io::Result<Option<MemDisk>> {
    match format_disk(alloc, disk) {
        Ok(disk) => Ok(Some(disk)),
        Err((disk, fault)) => {
            let said = say(rt, fault);
            say_left_behind(rt, alloc, said, disk)?;
            Ok(None)
        }
    }
}

/// A device of a new store; none where a call of it failed, and the session has ended. A format takes no memory but
/// that in which the device keeps its calls. What the device shows before it is said.
pub fn new_store(rt: &impl Print, alloc: Global) -> io::Result<Option<MemDisk>> {
    let disk = device(rt, alloc, Image::Blank)?;
    match say(rt, "no store") {
        Ok(()) => format_or_end(rt, alloc, disk),
        Err(error) => {
            drop(disk);
            Err(error)
        }
    }
}

fn new_list(alloc: Global) -> Result<Vec<Conf>, AllocError> {
    let mut list = Vec::new(alloc);
    list.push(Conf::built_in(alloc)?)?;
    Ok(list)
}

/// The list of the built-in configuration alone, made once more where memory lacked.
fn list(rt: &impl Print, alloc: Global) -> io::Result<Vec<Conf>> {
    match new_list(alloc) {
        Ok(list) => Ok(list),
        Err(_) => {
            say_again(rt, "the configuration")?;
            Ok(new_list(alloc)?)
        }
    }
}

/// The built-in configuration alone.
pub fn new_confs(rt: &impl Print, alloc: Global) -> io::Result<Option<Confs>> {
    Ok(Confs::new(list(rt, alloc)?).ok())
}

/// A slot for each interface, with a radio that does nothing.
fn new_slots(alloc: Global, confs: &Confs) -> Result<Vec<Slot<Sim>>, AllocError> {
    let mut radios = Vec::new(alloc);
    for _conf in confs.list() {
        radios.push(Sim::new(alloc))?;
    }
    slots_for(alloc, confs, radios)
}

/// The same, made once more where memory lacked.
fn slots(rt: &impl Print, alloc: Global, confs: &Confs) -> io::Result<Vec<Slot<Sim>>> {
    match new_slots(alloc, confs) {
        Ok(slots) => Ok(slots),
        Err(_) => {
            say_again(rt, "slots")?;
            Ok(new_slots(alloc, confs)?)
        }
    }
}

/// The call, without a clause.
fn copy(alloc: Global, confs: &Confs) -> Result<Confs, AllocError> {
    confs.copy(alloc)
}

/// A copy of configurations, made once more where memory lacked.
fn copy_confs(rt: &impl Print, alloc: Global, confs: &Confs) -> io::Result<Confs> {
    match copy(alloc, confs) {
        Ok(copied) => Ok(copied),
        Err(_) => {
            say_again(rt, "a copy of the configurations")?;
            Ok(copy(alloc, confs)?)
        }
    }
}

/// The world of a store, without a clause.
fn restart_world(
    alloc: Global,
    disk: MemDisk,
    confs: Confs,
    slots: Vec<Slot<Sim>>,
) -> Result<Memory, Refused> {
    restart(alloc, disk, confs, slots, Moment(0))
}

/// Once, with these slots, and with configurations of its own, which no refusal hands back.
fn try_once(
    rt: &impl Print,
    alloc: Global,
    disk: MemDisk,
    confs: &Confs,
    slots: Vec<Slot<Sim>>,
) -> io::Result<Result<Memory, Refused>> {
    match copy_confs(rt, alloc, confs) {
        Ok(copy) => Ok(restart_world(alloc, disk, copy, slots)),
        Err(error) => {
            drop(slots);
            drop(disk);
            Err(error)
        }
    }
}

/// Says that a restart is made once more, and what the slots have that came back.
fn say_retry(rt: &impl Print, slots: &[Slot<Sim>]) -> io::Result<()> {
    say_again(rt, "restart")?;
    say_slots(rt, slots)
}

/// A restart that lacked memory is made once more, with the device and the slots that came back. What these slots have
/// is said.
fn try_again(
    rt: &impl Print,
    alloc: Global,
    confs: &Confs,
    refused: Refused,
) -> io::Result<Result<Memory, Refused>> {
    let (disk, slots, fault) = refused;
    if !is_short(fault) {
        return Ok(Err((disk, slots, fault)));
    }
    match say_retry(rt, &slots) {
        Ok(()) => try_once(rt, alloc, disk, confs, slots),
        Err(error) => {
            drop(slots);
            drop(disk);
            Err(error)
        }
    }
}

/// Says why a restart is refused, and what the slots have that came back.
fn say_fault(rt: &impl Print, fault: WorldFault, slots: &[Slot<Sim>]) -> io::Result<()> {
    say(rt, fault)?;
    say_slots(rt, slots)
}

/// The same, and what its device shows.
fn say_refused(rt: &impl Print, alloc: Global, refused: Refused) -> io::Result<()> {
    let (disk, slots, fault) = refused;
    let said = say_fault(rt, fault, &slots);
    drop(slots);
    say_left_behind(rt, alloc, said, disk)
}

/// With these slots, once more where it lacked memory.
fn try_with(
    rt: &impl Print,
    alloc: Global,
    disk: MemDisk,
    confs: &Confs,
    slots: Vec<Slot<Sim>>,
) -> io::Result<Result<Memory, Refused>> {
    match try_once(rt, alloc, disk, confs, slots)? {
        Err(refused) => try_again(rt, alloc, confs, refused),
        begun => Ok(begun),
    }
}

/// With new slots, once more where it lacked memory.
fn try_or_retry(
    rt: &impl Print,
    alloc: Global,
    disk: MemDisk,
    confs: &Confs,
) -> io::Result<Result<Memory, Refused>> {
    match slots(rt, alloc, confs) {
        Ok(slots) => try_with(rt, alloc, disk, confs, slots),
        Err(error) => {
            drop(disk);
            Err(error)
        }
    }
}

/// The world of the store that a device holds; none where it is refused, as where a call of it failed, and the session
/// has ended.
pub fn begin(
    rt: &impl Print,
    alloc: Global,
    disk: MemDisk,
    confs: &Confs,
) -> io::Result<Option<Memory>> {
    match try_or_retry(rt, alloc, disk, confs)? {
        Ok(world) => Ok(Some(world)),
        Err(refused) => {
            say_refused(rt, alloc, refused)?;
            Ok(None)
        }
    }
}
