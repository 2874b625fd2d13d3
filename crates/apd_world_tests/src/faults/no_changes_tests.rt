//! Requests that change nothing: they are answered without a call of the device, also of one that would fail.
use crate::expect::expect;
use crate::faults::calls::{commit_world, flush_refusal, flusher, tell};
use crate::faults::devices::{device_with, full_image, new_device};
use crate::faults::sessions::{ASSOCIATES, AUTHENTICATES, Said, WLAN0, in_short, starts, world};
use apd_base::Moment;
use apd_core::Input;
use apd_disk::{Disk, FuseDisk, MemDisk};
use apd_mlme::Recipient;
use apd_radio::Sim;
use apd_store::StoreFault;
use apd_world::{Commit, Reception, Step, World, WorldFault};
use std::alloc::Global;

/// A probe request to all, for any network.
const PROBE_FRAME: &[u8] = &[
    0x40, 0, 0, 0, 0xff, 0xff, 0xff, 0xff, 0xff, 0xff, 2, 0, 0, 0, 0, 0xaa, 0xff, 0xff, 0xff, 0xff,
    0xff, 0xff, 0x30, 0, 0, 0, 1, 4, 0x82, 0x84, 0x8b, 0x96,
];

const PROBES: Step<'static> = Step::Accept(Input::Received(WLAN0, PROBE_FRAME), Moment(0));

const HANDS: Step<'static> = Step::Hand(Recipient::Radio(WLAN0));

/// Whether the radio starts, and that is committed, by four calls.
fn starts_and_commits<D: Disk>(alloc: Global, world: &mut World<D, Sim>) -> bool {
    starts(alloc, world).is_some() && commit_world(world) == Commit::Settled
}

/// A started world, whose device passes so many calls.
fn started(alloc: Global, passes: u64) -> Option<World<FuseDisk<MemDisk>, Sim>> {
    let disk = FuseDisk::new(new_device(alloc)?, passes);
    let mut world = world(alloc, disk)?;
    starts_and_commits(alloc, &mut world).then_some(world)
}

/// A step, and what is told of it.
type Row = (Step<'static>, Said);

/// The first of these steps of which something else is told, and what.
fn otherwise<D: Disk>(world: &mut World<D, Sim>, rows: &[Row]) -> Option<(usize, Option<Said>)> {
    for (place, (step, is)) in rows.iter().enumerate() {
        let told = told_of(world, *step);
        if told != Some(*is) {
            return Some((place, told));
        }
    }
    None
}

fn told_of<D: Disk>(world: &mut World<D, Sim>, step: Step<'static>) -> Option<Said> {
    Some(in_short(tell(world, &[step])?.first()?))
}

/// The same of a started world, and how many calls its device has then served.
type Found = (Option<(usize, Option<Said>)>, usize);

fn found_behind(alloc: Global, rows: &[Row]) -> Option<Found> {
    let mut world = started(alloc, u64::MAX)?;
    let told = otherwise(&mut world, rows);
    let disk = flusher(world).into_device().into_inner();
    Some((told, disk.calls().len()))
}

/// The answer is settled without a call, and only then handed out.
fn probe() -> [Row; 8] {
    [
        (PROBES, Said::Accepted(Reception::Entry(2))),
        (HANDS, Said::Queued(0)),
        (Step::Take, Said::Loaded(None)),
        (HANDS, Said::Queued(0)),
        (Step::Call, Said::Nothing),
        (Step::Publish, Said::Published(None)),
        (HANDS, Said::Queued(1)),
        (Step::Take, Said::Nothing),
    ]
}

/// Behind a change that isn't settled it is of the same batch.
fn behind() -> [Row; 12] {
    [
        (AUTHENTICATES, Said::Accepted(Reception::Entry(2))),
        (PROBES, Said::Accepted(Reception::Entry(3))),
        (Step::Take, Said::Loaded(None)),
        (Step::Call, Said::Called(None)),
        (Step::Call, Said::Called(None)),
        (Step::Call, Said::Called(None)),
        (HANDS, Said::Queued(0)),
        (Step::Call, Said::Called(None)),
        (Step::Call, Said::Nothing),
        (Step::Publish, Said::Published(None)),
        (HANDS, Said::Queued(2)),
        (Step::Take, Said::Nothing),
    ]
}

// The recovery makes two calls, and the start four.
#[test]
fn a_probe_is_answered_without_a_call(rt: HostRuntime) {
    expect(&rt, found_behind(rt.alloc(), &probe()), Some((None, 6)));
}

#[test]
fn a_probe_behind_a_change_waits_for_the_four_calls_of_its_batch(rt: HostRuntime) {
    expect(&rt, found_behind(rt.alloc(), &behind()), Some((None, 10)));
}

/// What so many commits come to, each behind a probe request, and how many calls the device has then served.
fn commits(alloc: Global, probes: u64) -> Option<(u64, usize)> {
    let mut world = started(alloc, u64::MAX)?;
    let settled = settled_of(&mut world, probes);
    let disk = flusher(world).into_device().into_inner();
    Some((settled, disk.calls().len()))
}

fn settled_of<D: Disk>(world: &mut World<D, Sim>, probes: u64) -> u64 {
    let mut settled: u64 = 0;
    for _probe in 0..probes {
        let accepted = told_of(world, PROBES);
        if accepted.is_some() && commit_world(world) == Commit::Settled {
            settled = settled.saturating_add(1);
        }
    }
    settled
}

#[test]
fn a_commit_of_a_probe_alone_makes_no_call(rt: HostRuntime) {
    expect(&rt, commits(rt.alloc(), 100), Some((100, 6)));
}

/// Why two flushes are refused, each behind a request of a station to be authenticated; the second one changes nothing.
type Refusals = [Option<WorldFault>; 2];

fn refusals(alloc: Global, passes: u64) -> Option<Refusals> {
    let mut world = started(alloc, passes)?;
    let refusals = refusals_of(&mut world);
    drop(world);
    refusals
}

fn refusals_of<D: Disk>(world: &mut World<D, Sim>) -> Option<Refusals> {
    let _accepted = tell(world, &[AUTHENTICATES])?;
    let first = flush_refusal(world);
    let _accepted = tell(world, &[AUTHENTICATES])?;
    Some([first, flush_refusal(world)])
}

// The device fails behind the calls of the recovery, the start and the first station, or one call earlier.
#[test]
fn a_station_that_is_authenticated_once_more_is_told_so_without_a_call(rt: HostRuntime) {
    expect(&rt, refusals(rt.alloc(), 10), Some([None, None]));
    let device = Some(WorldFault::Store(StoreFault::Device));
    let failed = Some(WorldFault::Store(StoreFault::Failed));
    expect(&rt, refusals(rt.alloc(), 9), Some([device, failed]));
}

fn worn_world(alloc: Global) -> Option<World<MemDisk, Sim>> {
    world(alloc, device_with(alloc, full_image(alloc, u64::MAX)?)?)
}

/// A store of the greatest epoch that has no room takes it, and no change.
fn worn() -> [Row; 6] {
    [
        (PROBES, Said::Accepted(Reception::Entry(1))),
        (Step::Take, Said::Loaded(None)),
        (Step::Publish, Said::Published(None)),
        (HANDS, Said::Queued(1)),
        (ASSOCIATES, Said::Accepted(Reception::Entry(2))),
        (Step::Take, Said::Loaded(Some(StoreFault::Worn))),
    ]
}

fn told_when_worn(alloc: Global) -> Option<Found> {
    let mut world = worn_world(alloc)?;
    let told = otherwise(&mut world, &worn());
    let disk = flusher(world).into_device();
    Some((told, disk.calls().len()))
}

#[test]
fn a_worn_store_answers_probes(rt: HostRuntime) {
    expect(&rt, told_when_worn(rt.alloc()), Some((None, 2)));
}
