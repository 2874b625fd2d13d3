//! A run: a world is started and taken apart, its workers work in threads, and what they leave is kept.
ghost use Rattle.std.specs.Prelude.{◌≡◌};

use crate::calls::{restart_world, start_world, take_apart};
use crate::crew::work_all;
use crate::device::{Device, device};
use crate::digest::digest_of;
use crate::ending::{Left, SlotEnd, end_all};
use crate::fault::Fault;
use crate::frames::{FIRST_STATION, STATIONS};
use crate::gate::{NotedClock, NotedGate, TickClock};
use crate::generator::{Generator, Shaker};
use crate::notes::Lane;
use crate::plan::{End, Faults, Plan, RadioPlan, station};
use crate::port::NotedPort;
use crate::radio::{Feed, Noted, NotedRadio};
use crate::stage::Stage;
use crate::working::{Environment, Host, PortPart, RadioPart, Worker};
use apd_base::{Addr, Bssid, Station};
use apd_conf::Confs;
use apd_core::Core;
use apd_desk::{Seat, Shared};
use apd_disk::{Disk, MemDisk};
use apd_flusher::{Committer, Flusher};
use apd_radio::{Radio, Sim};
use apd_slot::Slot;
use apd_table::Table;
use apd_world::{World, slots_for};
use std::alloc::{AllocError, Global};
use std::marker::Brand;
use std::sync::Wait;
use std::sync::atomic::AtomicU64;
use std::sync::ledger::{Blank, Ledger};

/// What is kept of a run, beside what its doubles noted.
#[derive(Drop)]
pub(crate) struct Record {
    /// The last entry of the start.
    pub(crate) begin: u64,
    /// How many entries the seats counted.
    pub(crate) entries: u64,
    /// The last settled entry, and the sum of the table after it.
    pub(crate) number: u64,
    pub(crate) table: u64,
    pub(crate) failed: bool,
    pub(crate) slots: Vec<SlotEnd>,
    /// The stations of each radio that are associated in that table.
    pub(crate) associated: Vec<Vec<Option<u16>>>,
}

/// What the doubles of a run share.
#[derive(Clone, Copy)]
pub(crate) struct Scene<'a> {
    pub(crate) plan: &'a Plan,
    pub(crate) stage: &'a Stage,
    /// The logs of the radios, in the order of the plan, and then of the port, of the ticks and of the commits.
    pub(crate) lanes: &'a [Lane],
}

/// The logs of a run.
pub(crate) fn lanes(alloc: Global, plan: &Plan) -> Result<Vec<Lane>, AllocError> {
    let mut lanes = Vec::new(alloc);
    for _ in 0..plan.radios.len().saturating_add(3) {
        lanes.push(Lane::new(alloc))?;
    }
    Ok(lanes)
}

/// The store that a device begins with.
pub(crate) fn disk(alloc: Global, image: &[u8]) -> Result<MemDisk, AllocError> {
    MemDisk::new(alloc, Vec::from_slice(alloc, image)?)
}

fn feed<'a>(stage: &'a Stage, radio: &'a RadioPlan, replays: bool) -> Option<Feed<'a>> {
    if replays {
        return None;
    }
    Some(Feed {
        stage,
        frames: radio.frames.as_slice(),
    })
}

// Adds the radio of this number of its slot, whose driver fails by this plan.
fn add_noted<'a, W: Wait>(
    rt: &'a W,
    alloc: Global,
    lane: &'a Lane,
    seeds: &mut Generator,
    number: usize,
    faults: Faults,
    feed: Option<Feed<'a>>,
    radios: &mut Vec<NotedRadio<'a, W>>,
) -> Result<(), AllocError> {
    let (inner, seed) = (Sim::new(alloc), seeds.number());
    let radio = Noted::new(rt, alloc, inner, lane, seed, number, faults, feed);
    Ok(radios.push(radio)?)
}

/// The radio of each slot, with what it receives; in a replay nothing.
pub(crate) fn radios<'a, W: Wait>(
    rt: &'a W,
    alloc: Global,
    scene: Scene<'a>,
    seeds: &mut Generator,
    replays: bool,
) -> Result<Vec<NotedRadio<'a, W>>, AllocError> {
    let mut radios = Vec::new(alloc);
    for (radio, lane) in scene.plan.radios.iter().zip(scene.lanes) {
        let feed = feed(scene.stage, radio, replays);
        add_noted(rt, alloc, lane, seeds, 0, radio.own, feed, &mut radios)?;
    }
    Ok(radios)
}

/// The radios that stand by at a slot.
pub(crate) fn spares<'a, W: Wait>(
    rt: &'a W,
    alloc: Global,
    stage: &'a Stage,
    radio: &'a RadioPlan,
    lane: &'a Lane,
    seeds: &mut Generator,
    replays: bool,
) -> Result<Vec<NotedRadio<'a, W>>, AllocError> {
    let mut spares = Vec::new(alloc);
    for (place, faults) in radio.spares.iter().enumerate() {
        let number = place.wrapping_add(1);
        let feed = feed(stage, radio, replays);
        add_noted(rt, alloc, lane, seeds, number, *faults, feed, &mut spares)?;
    }
    Ok(spares)
}

// A world, started.
fn started<D: Disk + Drop, R: Radio>(world: World<D, R>) -> Result<World<D, R>, Fault> {
    let mut world = world;
    if start_world(&mut world) {
        Ok(world)
    } else {
        drop(world);
        Err(Fault::NoStart)
    }
}

// The world of a store, with the slots of these radios, started.
fn world_of<D: Disk + Drop, R: Radio>(
    alloc: Global,
    disk: D,
    confs: Confs,
    radios: Vec<R>,
) -> Result<World<D, R>, Fault> {
    let slots = match slots_for(alloc, &confs, radios) {
        Ok(slots) => slots,
        Err(error) => {
            drop(disk);
            drop(confs);
            return Err(error.into());
        }
    };
    match restart_world(alloc, disk, confs, slots) {
        Some(world) => started(world),
        None => Err(Fault::NoStore),
    }
}

/// The world of a store, with these radios, started.
pub(crate) fn world<D: Disk + Drop, R: Radio>(
    alloc: Global,
    disk: D,
    plan: &Plan,
    radios: Vec<R>,
) -> Result<World<D, R>, Fault> {
    match plan.confs.copy(alloc) {
        Ok(confs) => world_of(alloc, disk, confs, radios),
        Err(error) => {
            drop(disk);
            drop(radios);
            Err(error.into())
        }
    }
}

// A gate of the worker of this log.
fn gate<'a, L: Ledger, W: Wait>(
    rt: &'a W,
    shared: &'a Shared<L>,
    scene: Scene<'a>,
    lane: &'a Lane,
    seeds: &mut Generator,
) -> NotedGate<'a, L, W> {
    let stop_at = match scene.plan.end {
        End::AtEntry(entry) => Some(entry),
        End::AllGiven | End::AllSettled | End::AtPoll(_) => None,
    };
    NotedGate {
        rt,
        shared,
        stage: scene.stage,
        lane,
        shaker: Shaker::new(seeds.number()),
        stop_at,
    }
}

fn clock<'a, W: Wait>(
    rt: &'a W,
    scene: Scene<'a>,
    lane: &'a Lane,
    seeds: &mut Generator,
) -> NotedClock<'a, W> {
    NotedClock {
        rt,
        stage: scene.stage,
        lane,
        shaker: Shaker::new(seeds.number()),
    }
}

fn seat<L: Ledger, W: Wait>(rt: &W, shared: &Shared<L>) -> Result<Seat<L>, Fault> {
    shared.seat(rt).ok_or(Fault::NoSeat)
}

// The seat of the worker of a radio, and the radios that stand by.
fn seat_and_spares<'a, L: Ledger, W: Wait>(
    rt: &'a W,
    alloc: Global,
    shared: &Shared<L>,
    scene: Scene<'a>,
    radio: &'a RadioPlan,
    lane: &'a Lane,
    seeds: &mut Generator,
) -> Result<(Seat<L>, Vec<NotedRadio<'a, W>>), Fault> {
    let seat = seat(rt, shared)?;
    match spares(rt, alloc, scene.stage, radio, lane, seeds, false) {
        Ok(spares) => Ok((seat, spares)),
        Err(error) => {
            drop(seat);
            Err(error.into())
        }
    }
}

// What the worker of a radio has.
fn radio_part<'a, L: Ledger, W: Wait>(
    rt: &'a W,
    shared: &'a Shared<L>,
    scene: Scene<'a>,
    lane: &'a Lane,
    seat: Seat<L>,
    slot: Slot<NotedRadio<'a, W>>,
    spares: Vec<NotedRadio<'a, W>>,
    seeds: &mut Generator,
) -> RadioPart<'a, L, W> {
    RadioPart {
        seat,
        slot,
        spares,
        clock: clock(rt, scene, lane, seeds),
        gate: gate(rt, shared, scene, lane, seeds),
    }
}

// The seats of the worker of the port: its own, and the port's.
fn both_seats<L: Ledger, W: Wait>(rt: &W, shared: &Shared<L>) -> Result<(Seat<L>, Seat<L>), Fault> {
    let of_port = seat(rt, shared)?;
    match seat(rt, shared) {
        Ok(own) => Ok((own, of_port)),
        Err(fault) => {
            drop(of_port);
            Err(fault)
        }
    }
}

// What the worker of the port has.
fn control_part<'a, L: Ledger, W: Wait>(
    rt: &'a W,
    alloc: Global,
    shared: &'a Shared<L>,
    scene: Scene<'a>,
    lane: &'a Lane,
    seeds: &mut Generator,
) -> Result<PortPart<'a, L, W>, Fault> {
    let (seat, of_port) = both_seats(rt, shared)?;
    let port = NotedPort {
        rt,
        alloc,
        shared,
        seat: of_port,
        stage: scene.stage,
        lane,
        lanes: scene.lanes,
        shaker: Shaker::new(seeds.number()),
        plan: scene.plan,
        polls: 0,
        last_polls: 0,
        told: None,
    };
    Ok(PortPart {
        seat,
        port,
        clock: clock(rt, scene, lane, seeds),
        gate: gate(rt, shared, scene, lane, seeds),
    })
}

fn tick_clock<'a, W: Wait>(
    rt: &'a W,
    scene: Scene<'a>,
    lane: &'a Lane,
    seeds: &mut Generator,
) -> TickClock<'a, W> {
    TickClock {
        rt,
        stage: scene.stage,
        lane,
        shaker: Shaker::new(seeds.number()),
        ticks: scene.plan.ticks,
        radios: scene.plan.radios.len(),
        asked: AtomicU64::new(0),
    }
}

// Adds a worker behind the others.
fn add_worker<'a, L: Ledger, W: Wait>(
    workers: &mut Vec<Worker<'a, L, W>>,
    worker: Worker<'a, L, W>,
) -> Result<(), Fault> {
    Ok(workers.push(worker)?)
}

// Adds the worker that commits.
fn add_committing<'a, L: Ledger, W: Wait>(
    rt: &'a W,
    shared: &'a Shared<L>,
    scene: Scene<'a>,
    flusher: Flusher<Device<'a, W>>,
    seeds: &mut Generator,
    workers: &mut Vec<Worker<'a, L, W>>,
) -> Result<(), Fault> {
    let Some(lane) = scene.lanes.last() else {
        drop(flusher);
        return Err(Fault::NoThread);
    };
    let gate = gate(rt, shared, scene, lane, seeds);
    add_worker(workers, Worker::Committing(Committer::new(flusher), gate))
}

// Adds the worker of a radio.
fn add_radio<'a, L: Ledger, W: Wait>(
    rt: &'a W,
    alloc: Global,
    shared: &'a Shared<L>,
    scene: Scene<'a>,
    radio: &'a RadioPlan,
    lane: &'a Lane,
    slot: Slot<NotedRadio<'a, W>>,
    seeds: &mut Generator,
    workers: &mut Vec<Worker<'a, L, W>>,
) -> Result<(), Fault> {
    shared.note(rt, slot.bssid(), slot.is_up());
    match seat_and_spares(rt, alloc, shared, scene, radio, lane, seeds) {
        Ok((seat, spares)) => {
            let part = radio_part(rt, shared, scene, lane, seat, slot, spares, seeds);
            add_worker(workers, Worker::Radio(part))
        }
        Err(fault) => {
            drop(slot);
            Err(fault)
        }
    }
}

// Adds the workers of the radios.
fn add_radios<'a, L: Ledger, W: Wait>(
    rt: &'a W,
    alloc: Global,
    shared: &'a Shared<L>,
    scene: Scene<'a>,
    slots: Vec<Slot<NotedRadio<'a, W>>>,
    seeds: &mut Generator,
    workers: &mut Vec<Worker<'a, L, W>>,
) -> Result<(), Fault> {
    let places = scene.plan.radios.iter().zip(scene.lanes);
    for (slot, (radio, lane)) in slots.into_iter().zip(places) {
        add_radio(rt, alloc, shared, scene, radio, lane, slot, seeds, workers)?;
    }
    Ok(())
}

// Adds the workers of the port and of ticks.
fn add_others<'a, L: Ledger, W: Wait>(
    rt: &'a W,
    alloc: Global,
    shared: &'a Shared<L>,
    scene: Scene<'a>,
    seeds: &mut Generator,
    workers: &mut Vec<Worker<'a, L, W>>,
) -> Result<(), Fault> {
    let mut lanes = scene.lanes.iter().skip(scene.plan.radios.len());
    let lane = lanes.next().ok_or(Fault::NoThread)?;
    let part = control_part(rt, alloc, shared, scene, lane, seeds)?;
    add_worker(workers, Worker::Control(part))?;
    let lane = lanes.next().ok_or(Fault::NoThread)?;
    let seat = seat(rt, shared)?;
    let clock = tick_clock(rt, scene, lane, seeds);
    let gate = gate(rt, shared, scene, lane, seeds);
    add_worker(workers, Worker::Ticks(seat, clock, gate))
}

// Adds the workers: the first one commits.
fn add_all<'a, L: Ledger, W: Wait>(
    rt: &'a W,
    alloc: Global,
    shared: &'a Shared<L>,
    scene: Scene<'a>,
    flusher: Flusher<Device<'a, W>>,
    slots: Vec<Slot<NotedRadio<'a, W>>>,
    seeds: &mut Generator,
    workers: &mut Vec<Worker<'a, L, W>>,
) -> Result<(), Fault> {
    if let Err(fault) = add_committing(rt, shared, scene, flusher, seeds, workers) {
        drop(slots);
        return Err(fault);
    }
    add_radios(rt, alloc, shared, scene, slots, seeds, workers)?;
    add_others(rt, alloc, shared, scene, seeds, workers)
}

// The workers: the first one commits.
fn crew<'a, L: Ledger, W: Wait>(
    rt: &'a W,
    alloc: Global,
    shared: &'a Shared<L>,
    scene: Scene<'a>,
    flusher: Flusher<Device<'a, W>>,
    slots: Vec<Slot<NotedRadio<'a, W>>>,
    seeds: &mut Generator,
) -> Result<Vec<Worker<'a, L, W>>, Fault> {
    let mut workers = Vec::new(alloc);
    let added = add_all(
        rt,
        alloc,
        shared,
        scene,
        flusher,
        slots,
        seeds,
        &mut workers,
    );
    match added {
        Ok(()) => Ok(workers),
        Err(fault) => {
            drop(workers);
            Err(fault)
        }
    }
}

// The threads work until a stop, and what they leave is committed and handed out.
fn work<'a, L: Ledger + Send + Sync, W: Host>(
    rt: &'a W,
    alloc: Global,
    shared: &'a Shared<L>,
    scene: Scene<'a>,
    flusher: Flusher<Device<'a, W>>,
    slots: Vec<Slot<NotedRadio<'a, W>>>,
    seeds: &mut Generator,
) -> Result<Left<L>, Fault> {
    let workers = crew(rt, alloc, shared, scene, flusher, slots, seeds)?;
    let environment = Environment { rt, alloc, shared };
    match work_all(rt, alloc, &environment, workers) {
        Some(workers) => end_all(rt, alloc, shared, workers),
        None => Err(Fault::NoThread),
    }
}

// The identifier under which a station is associated.
fn association(table: &Table, bssid: Bssid, addr: Addr) -> Option<u16> {
    match table.get(bssid, addr) {
        Some(Station::Associated(association)) => Some(association.aid.number),
        Some(Station::Authenticated) | None => None,
    }
}

fn associations(
    alloc: Global,
    table: &Table,
    bssid: Bssid,
) -> Result<Vec<Option<u16>>, AllocError> {
    let mut all = Vec::new(alloc);
    for place in 0..STATIONS {
        let addr = station(FIRST_STATION.wrapping_add(place));
        all.push(association(table, bssid, addr))?;
    }
    Ok(all)
}

fn all_associations(alloc: Global, core: &Core) -> Result<Vec<Vec<Option<u16>>>, AllocError> {
    let mut all = Vec::new(alloc);
    for conf in core.confs().list() {
        all.push(associations(alloc, core.table(), conf.bssid)?)?;
    }
    Ok(all)
}

// The sum of a core's table, and the associations there.
fn sum_and_associations(
    alloc: Global,
    core: &Core,
) -> Result<(u64, Vec<Vec<Option<u16>>>), AllocError> {
    let sum = digest_of(alloc, core.table())?;
    Ok((sum, all_associations(alloc, core)?))
}

// What is kept of a core and of what was left.
fn keep(
    alloc: Global,
    begin: u64,
    core: &Core,
    entries: u64,
    slots: Vec<SlotEnd>,
) -> Result<Record, Fault> {
    match sum_and_associations(alloc, core) {
        Ok((table, associated)) => Ok(Record {
            begin,
            entries,
            number: core.number(),
            table,
            failed: core.has_failed(),
            slots,
            associated,
        }),
        Err(error) => {
            drop(slots);
            Err(error.into())
        }
    }
}

// What is kept, with what the device holds.
fn with_disk(
    record: Result<Record, Fault>,
    disk: Option<MemDisk>,
) -> Result<(Record, Option<MemDisk>), Fault> {
    match record {
        Ok(record) => Ok((record, disk)),
        Err(fault) => {
            drop(disk);
            Err(fault)
        }
    }
}

fn close<L: Ledger>(
    alloc: Global,
    begin: u64,
    shared: Shared<L>,
    left: Left<L>,
) -> Result<(Record, Option<MemDisk>), Fault>
    requires { L.parts ≡ 65536 }
{
    let Left { seats, slots, disk } = left;
    match shared.close(seats) {
        Ok((core, entries)) => {
            let record = keep(alloc, begin, &core, entries, slots);
            drop(core);
            with_disk(record, disk)
        }
        Err(missing) => {
            drop(missing);
            drop(slots);
            drop(disk);
            Err(Fault::NoSeat)
        }
    }
}

// As `run`, over one ledger.
fn run_over_ledger<'a, L: Ledger + Send + Sync, W: Host>(
    rt: &'a W,
    alloc: Global,
    blank: Blank,
    scene: Scene<'a>,
    world: World<Device<'a, W>, NotedRadio<'a, W>>,
    seeds: &mut Generator,
) -> Result<(Record, Option<MemDisk>), Fault>
    requires name { blank.name ≡ L.name }
    requires parts { blank.parts ≡ L.parts }
    requires all { blank.parts ≡ 65536 }
{
    let (flusher, core, slots) = take_apart(world);
    let begin = core.number();
    let shared = Shared::<L>::new(core, blank);
    match work(rt, alloc, &shared, scene, flusher, slots, seeds) {
        Ok(left) => close(alloc, begin, shared, left),
        Err(fault) => {
            drop(shared);
            Err(fault)
        }
    }
}

// The world of a run, started.
fn run_world<'a, W: Wait>(
    rt: &'a W,
    alloc: Global,
    scene: Scene<'a>,
    image: &[u8],
    seeds: &mut Generator,
) -> Result<World<Device<'a, W>, NotedRadio<'a, W>>, Fault> {
    let lane = scene.lanes.last().ok_or(Fault::NoThread)?;
    let disk = disk(alloc, image)?;
    let device = device(rt, lane, disk, scene.plan.device, seeds.number());
    match radios(rt, alloc, scene, seeds, false) {
        Ok(radios) => world(alloc, device, scene.plan, radios),
        Err(error) => {
            drop(device);
            Err(error.into())
        }
    }
}

/// Runs a plan on a store: its workers work in threads until a stop, and what they leave is committed and handed out.
/// What the device holds then is beside what is kept.
pub(crate) fn run<W: Host>(
    rt: &W,
    alloc: Global,
    scene: Scene<'_>,
    image: &[u8],
) -> Result<(Record, Option<MemDisk>), Fault> {
    let mut seeds = Generator::new(scene.plan.seed.wrapping_add(1));
    let world = run_world(rt, alloc, scene, image, &mut seeds)?;
    run_over_ledger::<Brand, W>(rt, alloc, Blank::new(65_536), scene, world, &mut seeds)
}
