//! How a session ends: what its device holds, and what its slots have.
use crate::requests::{ANOTHER, STATION};
use crate::saying::{say, say_again, say_table};
use crate::world::{Calls, Memory};
use apd_base::Addr;
use apd_disk::{Call, MemDisk};
use apd_radio::Sim;
use apd_slot::Slot;
use apd_store::{StoreFault, recover};
use apd_table::Table;
use std::alloc::Global;
use std::io;

/// A device, and the table that a recovery of it finds, without a clause.
fn recover_table(alloc: Global, disk: MemDisk) -> (MemDisk, Result<Table, StoreFault>) {
    match recover(alloc, disk) {
        Ok((store, table)) => (store.into_device(), Ok(table)),
        Err((disk, fault)) => (disk, Err(fault)),
    }
}

/// Says what a device shows: a table, or no store.
fn say_shown(rt: &impl Print, found: &Result<Table, StoreFault>) -> io::Result<()> {
    match found {
        Ok(table) => say_table(rt, table),
        Err(StoreFault::NotAStore) => say(rt, "no store"),
        Err(fault) => say(rt, *fault),
    }
}

/// Prints the calls that a device has served.
pub fn say_calls(rt: &impl Print, calls: &[Call]) -> io::Result<()> {
    for call in calls {
        println!(rt; "{call:?}")?;
    }
    Ok(())
}

/// A device, and what a recovery finds on it, once what was said before could be printed.
fn recover_behind(
    alloc: Global,
    said: io::Result<()>,
    disk: MemDisk,
) -> io::Result<(MemDisk, Result<Table, StoreFault>)> {
    match said {
        Ok(()) => Ok(recover_table(alloc, disk)),
        Err(error) => {
            drop(disk);
            Err(error)
        }
    }
}

/// A device, and what a recovery finds on it, made once more where the device fails in it, or it lacks memory.
fn recover_or_retry(
    rt: &impl Print,
    alloc: Global,
    disk: MemDisk,
) -> io::Result<(MemDisk, Result<Table, StoreFault>)> {
    match recover_table(alloc, disk) {
        (disk, Err(StoreFault::NoMemory)) => {
            let said = say_again(rt, "recover");
            recover_behind(alloc, said, disk)
        }
        (disk, Err(StoreFault::Device)) => {
            let said = say(rt, StoreFault::Device);
            recover_behind(alloc, said, disk)
        }
        recovered => Ok(recovered),
    }
}

/// Says what a recovery found, and these calls.
fn say_found(rt: &impl Print, found: &Result<Table, StoreFault>, calls: &[Call]) -> io::Result<()> {
    say(rt, "left:")?;
    say_shown(rt, found)?;
    say_calls(rt, calls)
}

/// Says what a device shows, and which calls it has served, the recovery's too. Where it fails in the recovery, or that
/// lacks memory, it is recovered once more.
pub fn say_left(rt: &impl Print, alloc: Global, disk: MemDisk) -> io::Result<()> {
    let (disk, found) = recover_or_retry(rt, alloc, disk)?;
    let said = say_found(rt, &found, disk.calls());
    drop(found);
    drop(disk);
    said
}

/// Says whether a slot wants a station, and whether its radio has it: the identifiers.
fn say_station(rt: &impl Print, slot: &Slot<Sim>, addr: Addr) -> io::Result<()> {
    let (wanted, installed) = (slot.wanted(addr), slot.installed(addr));
    println!(rt; "{addr:?} wanted {wanted:?} installed {installed:?}")
}

/// Says of each slot whether it is up, how many outs wait, and what it has of two stations.
pub fn say_slots(rt: &impl Print, slots: &[Slot<Sim>]) -> io::Result<()> {
    for slot in slots {
        let (bssid, up, waiting) = (slot.bssid(), slot.is_up(), slot.waiting_count());
        println!(rt; "slot: {bssid:?} up {up} waiting {waiting}")?;
        say_station(rt, slot, STATION)?;
        say_station(rt, slot, ANOTHER)?;
    }
    Ok(())
}

/// The device, the number of the last settled entry, whether all are settled, and the slots of a world, without a
/// clause.
fn parts(world: Memory) -> (MemDisk, u64, bool, Vec<Slot<Sim>>) {
    let (flusher, core, slots) = world.into_parts();
    let (number, all) = (core.number(), core.is_settled());
    drop(core);
    (flusher.into_device(), number, all, slots)
}

/// Says how many entries are settled and what the slots have.
fn say_settled(rt: &impl Print, number: u64, all: bool, slots: &[Slot<Sim>]) -> io::Result<()> {
    println!(rt; "settled: {number}, all {all}")?;
    say_slots(rt, slots)
}

/// Says what a device shows behind what was said before, if that could be printed.
pub fn say_left_behind(
    rt: &impl Print,
    alloc: Global,
    said: io::Result<()>,
    disk: MemDisk,
) -> io::Result<()> {
    match said {
        Ok(()) => say_left(rt, alloc, disk),
        Err(error) => {
            drop(disk);
            Err(error)
        }
    }
}

/// Ends a session: says how many entries are settled and what the slots have, but where a call of the device failed;
/// what the device shows, and which calls it has served.
pub fn end(rt: &impl Print, alloc: Global, world: Memory, calls: Calls) -> io::Result<()> {
    let (disk, number, all, slots) = parts(world);
    let said = if calls.failed {
        Ok(())
    } else {
        say_settled(rt, number, all, &slots)
    };
    drop(slots);
    say_left_behind(rt, alloc, said, disk)
}
