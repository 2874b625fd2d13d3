//! One run after another, each replayed.
use crate::calls::format_disk;
use crate::fault::Fault;
use crate::history::History;
use crate::notes::Lane;
use crate::plan::Plan;
use crate::replaying::{compare, recovered};
use crate::running::{Record, Scene, lanes, run};
use crate::stage::Stage;
use crate::telling::{Sums, tell_fault};
use crate::working::Host;
use apd_base::limits::DEVICE_LENGTH;
use apd_disk::MemDisk;
use std::alloc::Global;
use std::io;

// What a device of a new store holds.
fn image(alloc: Global) -> Option<Vec<u8>> {
    let disk = MemDisk::new(alloc, vec![in alloc; 0u8; DEVICE_LENGTH as usize].ok()?).ok()?;
    let disk = format_disk(alloc, disk)?;
    Vec::from_slice(alloc, disk.bytes()).ok()
}

// Replays a history with logs of its own.
fn replay_history<W: Host>(
    rt: &W,
    alloc: Global,
    plan: &Plan,
    image: &[u8],
    history: &History,
    record: &Record,
    left: Result<u64, Fault>,
) -> Result<(), Fault> {
    let lanes = lanes(alloc, plan)?;
    let stage = Stage::new();
    let beside = Scene {
        plan,
        stage: &stage,
        lanes: lanes.as_slice(),
    };
    compare(rt, alloc, beside, image, history, record, left)
}

// Replays a run.
fn replay<W: Host>(
    rt: &W,
    alloc: Global,
    scene: Scene<'_>,
    image: &[u8],
    record: &Record,
    left: Result<u64, Fault>,
    sums: &mut Sums,
) -> Result<(), Fault> {
    let history = History::read(rt, alloc, scene.plan, scene.lanes, record)?;
    sums.add(record, &history);
    replay_history(rt, alloc, scene.plan, image, &history, record, left)
}

// Makes a run, and compares it with its replay.
fn run_and_replay<W: Host>(
    rt: &W,
    alloc: Global,
    scene: Scene<'_>,
    image: &[u8],
    sums: &mut Sums,
) -> Result<(), Fault> {
    let (record, disk) = run(rt, alloc, scene, image)?;
    let left = match disk {
        Some(disk) => recovered(alloc, disk, scene.plan),
        None => Err(Fault::NoStore),
    };
    replay(rt, alloc, scene, image, &record, left, sums)
}

// Makes a run of a plan, and tells where it is no list of steps.
fn try_plan<R: Host + Print>(
    rt: &R,
    alloc: Global,
    image: &[u8],
    plan: &Plan,
    lanes: &[Lane],
    sums: &mut Sums,
) -> io::Result<bool> {
    let stage = Stage::new();
    let scene = Scene {
        plan,
        stage: &stage,
        lanes,
    };
    match run_and_replay(rt, alloc, scene, image, sums) {
        Ok(()) => Ok(true),
        Err(fault) => {
            tell_fault(rt, alloc, scene, fault)?;
            Ok(false)
        }
    }
}

fn try_seed<R: Host + Print>(
    rt: &R,
    alloc: Global,
    image: &[u8],
    seed: u64,
    sums: &mut Sums,
) -> io::Result<bool> {
    let plan = Plan::draw(alloc, seed)?;
    let lanes = lanes(alloc, &plan)?;
    try_plan(rt, alloc, image, &plan, lanes.as_slice(), sums)
}

/// Makes so many runs, and tells of the first that is no list of steps; behind it no other is made. Tells whether each
/// is one.
pub(crate) fn try_runs<R: Host + Print>(
    rt: &R,
    alloc: Global,
    count: u64,
    seed: u64,
    tell: bool,
) -> io::Result<bool> {
    let Some(image) = image(alloc) else {
        rt.println("no store")?;
        return Ok(false);
    };
    let mut sums = Sums::new();
    for number in 0..count {
        let next = seed.wrapping_add(number);
        if !try_seed(rt, alloc, image.as_slice(), next, &mut sums)? {
            println!(rt; "run {number} is no list of steps")?;
            return Ok(false);
        }
    }
    println!(rt; "{count} runs, each a list of steps")?;
    if tell {
        rt.println(sums)?;
    }
    Ok(true)
}
