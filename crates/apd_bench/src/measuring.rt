//! A case, done over a store of its own.
use crate::access_point::AccessPoint;
use crate::bare::bare_rate;
use crate::case::Case;
use crate::counting::{Counting, DiskWork, Tally};
use crate::fault::BenchFault;
use crate::round::{Round, go_round, prepare, undo};
use crate::world::do_on;
use apd_base::limits::DEVICE_LENGTH;
use apd_disk::{FileDisk, MemDisk};
use std::alloc::{AllocError, Global};
use std::fs::{self, File};
use std::rt::Files;
use std::time::Clock;

/// What is done of a case: so many rounds of so many requests. Where there is a file, a round of the bare loop over it
/// comes after each.
#[derive(Clone, Copy)]
pub struct Task<'a> {
    pub case: &'a Case,
    pub rounds: u16,
    pub requests: u16,
    pub bare: Option<&'a File>,
}

/// What a round came to, and how often a second the bare loop turned after it.
#[derive(Clone, Copy)]
pub struct Measured {
    pub round: Round,
    pub bare: Option<u64>,
}

// How often a second the bare loop turns over a file, with as many bytes a turn as the commits of a round wrote; none
// without a file.
fn bare_rate_beside(
    rt: &impl Clock,
    alloc: Global,
    file: Option<&File>,
    round: &Round,
) -> Result<Option<u64>, BenchFault> {
    let Some(file) = file else {
        return Ok(None);
    };
    let bytes = round.device.bytes.checked_div(round.commits).unwrap_or(0);
    bare_rate(rt, alloc, file, bytes)
}

/// Does a task at an access point that isn't started. After each round the stations are as before.
pub fn do_rounds<A: AccessPoint>(
    rt: &impl Clock,
    alloc: Global,
    point: &mut A,
    tally: &Tally,
    task: &Task<'_>,
) -> Result<Vec<Measured>, BenchFault> {
    let case = task.case;
    prepare(point, case.stations_before(task.requests))?;
    let mut rounds = Vec::new(alloc);
    for _ in 0..task.rounds {
        let round = go_round(rt, point, tally, case, task.requests)?;
        undo(point, case, task.requests)?;
        let bare = bare_rate_beside(rt, alloc, task.bare, &round)?;
        rounds.push(Measured { round, bare })?;
    }
    Ok(rounds)
}

// A disk of so many bytes in memory.
fn in_memory(alloc: Global, length: u64) -> Result<MemDisk, AllocError> {
    MemDisk::new(alloc, vec![in alloc; 0u8; length as usize]?)
}

/// Does a task, over a new file of this name where the case's store isn't in memory.
pub fn measure(
    rt: &(impl Files<File = File> + Clock + AllocGlobal),
    name: &str,
    task: &Task<'_>,
) -> Result<Vec<Measured>, BenchFault> {
    let alloc = rt.alloc();
    let tally = &Tally::new(DiskWork::NONE);
    if task.case.is_in_memory() {
        let inner = in_memory(alloc, DEVICE_LENGTH)?;
        return do_on(rt, alloc, Counting { inner, tally }, tally, task);
    }
    let Ok(inner) = FileDisk::create(rt, name) else {
        return Err(BenchFault::File);
    };
    let measured = do_on(rt, alloc, Counting { inner, tally }, tally, task);
    let _removed = fs::remove_file(rt, name);
    measured
}
