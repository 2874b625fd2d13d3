//! The world that is measured: of the built-in configuration, with one radio in memory.
use crate::access_point::AccessPoint;
use crate::counting::Tally;
use crate::fault::BenchFault;
use crate::measuring::{Measured, Task, do_rounds};
use apd_base::{Addr, Bssid, Moment};
use apd_conf::{Conf, Confs};
use apd_core::Input;
use apd_disk::Disk;
use apd_mlme::Recipient;
use apd_radio::Sim;
use apd_slot::Slot;
use apd_store::format;
use apd_world::{Commit, Reception, Step, Told, World, restart};
use std::alloc::Global;
use std::time::Clock;

/// The BSSID of the one radio, which is the built-in configuration's.
const BSSID: Bssid = Bssid(Addr([2, 0, 0, 0, 0, 1]));

// How many outs wait at the radio by a step that did what it is for.
fn queue_count(told: &Told) -> Result<usize, BenchFault> {
    match told {
        Told::Accepted(Reception::Entry(_)) | Told::Applied(_, Ok(())) => Ok(0),
        Told::Queued(count) => Ok(*count),
        Told::NoMemory => Err(BenchFault::NoMemory),
        _ => Err(BenchFault::Refused),
    }
}

// Makes a step, and tells what it queued.
fn make<D: Disk>(world: &mut World<D, Sim>, step: &Step<'_>) -> Result<usize, BenchFault> {
    queue_count(&world.step(step))
}

impl<D: Disk> AccessPoint for World<D, Sim> {
    fn start(&mut self) -> Result<(), BenchFault> {
        match World::start(self) {
            Ok(_) => Ok(()),
            Err(_) => Err(BenchFault::Refused),
        }
    }

    fn accept(&mut self, frame: &[u8]) -> Result<(), BenchFault> {
        let input = Input::Received(BSSID, frame);
        make(self, &Step::Accept(input, Moment(0)))?;
        Ok(())
    }

    fn settle(&mut self) -> Result<(), BenchFault> {
        match self.commit() {
            Commit::Settled => Ok(()),
            Commit::NoMemory => Err(BenchFault::NoMemory),
            _ => Err(BenchFault::Refused),
        }
    }

    fn hand(&mut self) -> Result<(), BenchFault> {
        for _ in 0..make(self, &Step::Hand(Recipient::Radio(BSSID)))? {
            make(self, &Step::Apply(BSSID))?;
        }
        Ok(())
    }
}

// The built-in configuration alone.
fn confs(alloc: Global) -> Result<Confs, BenchFault> {
    let mut list = Vec::new(alloc);
    list.push(Conf::built_in(alloc)?)?;
    match Confs::new(list) {
        Ok(confs) => Ok(confs),
        Err(_) => Err(BenchFault::Refused),
    }
}

// The slot of the one radio.
fn slots(alloc: Global) -> Result<Vec<Slot<Sim>>, BenchFault> {
    let mut slots = Vec::new(alloc);
    slots.push(Slot::new(alloc, Sim::new(alloc), BSSID))?;
    Ok(slots)
}

// The disk, with a new store on it.
fn format_disk<D: Disk + Drop>(alloc: Global, disk: D) -> Result<D, BenchFault> {
    match format(alloc, disk) {
        Ok(store) => Ok(store.into_device()),
        Err(_) => Err(BenchFault::File),
    }
}

/// Does a task in a world over a new store on a disk, whose calls are tallied. It alone lets a world go.
pub fn do_on<D: Disk + Drop>(
    rt: &impl Clock,
    alloc: Global,
    disk: D,
    tally: &Tally,
    task: &Task<'_>,
) -> Result<Vec<Measured>, BenchFault> {
    let confs = confs(alloc)?;
    let slots = slots(alloc)?;
    let disk = format_disk(alloc, disk)?;
    match restart(alloc, disk, confs, slots, Moment(0)) {
        Ok(mut world) => do_rounds(rt, alloc, &mut world, tally, task),
        Err(_) => Err(BenchFault::Refused),
    }
}
