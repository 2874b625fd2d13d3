//! Three kinds of radios in one list of slots, each in a box.
use crate::calls::{parts_of, receive, receive_at, replace_radio, restart_world, slots_of, tell};
use crate::expect::expect;
use crate::said::{Said, in_short};
use crate::seen::{Seen, look_at};
use crate::steps::{OTHER, STATION, THIRD, WLAN0, WLAN1, WLAN2, steps_of};
use crate::worlds::{confs, start_with};
use apd_base::Addr;
use apd_disk::MemDisk;
use apd_radio::{Radio, Recording, Replaying, Sim};
use apd_slot::Slot;
use apd_world::{Told, World};
use std::alloc::Global;

type Boxed = Box<dyn Radio + Send>;

/// One for each slot.
type Three = (Boxed, Boxed, Boxed);

/// A station associates at each, all that is committed, and each is given what is for it.
const SERVES: &str = "
    authenticates associates
    other-authenticates-at-wlan1 other-associates-at-wlan1
    third-authenticates-at-wlan2 third-associates-at-wlan2
    take call call call call publish
    hand-to-wlan0 apply-at-wlan0 apply-at-wlan0 apply-at-wlan0
    hand-to-wlan1 apply-at-wlan1 apply-at-wlan1 apply-at-wlan1
    hand-to-wlan2 apply-at-wlan2 apply-at-wlan2 apply-at-wlan2
";

/// What is told of the last twelve: to each radio its answers, and between them the station under its first identifier.
const SERVED: [Said; 12] = [
    Said::Queued(3),
    Said::Sent,
    Said::Installed(1),
    Said::Sent,
    Said::Queued(3),
    Said::Sent,
    Said::Installed(1),
    Said::Sent,
    Said::Queued(3),
    Said::Sent,
    Said::Installed(1),
    Said::Sent,
];

/// One in memory receives nothing.
fn in_memory(alloc: Global) -> Option<Box<Sim>> {
    Box::new(alloc, Sim::new(alloc)).ok()
}

/// One that is recorded receives a frame of one byte, 1.
fn recording(alloc: Global) -> Option<Box<Recording<Replaying, Vec<u8>>>> {
    let inner = Replaying::new(alloc, b"rx 01\n").ok()?;
    let radio = Recording::new(alloc, inner, Vec::<u8>::new(alloc));
    Box::new(alloc, radio).ok()
}

/// One that replays receives a frame of one byte, 2.
fn replaying(alloc: Global) -> Option<Box<Replaying>> {
    let radio = Replaying::new(alloc, b"rx 02\n").ok()?;
    Box::new(alloc, radio).ok()
}

fn slots(alloc: Global, radios: Three) -> Option<Vec<Slot<Boxed>>> {
    let (first, second, third) = radios;
    let mut slots = Vec::new(alloc);
    slots.push(Slot::new(alloc, first, WLAN0)).ok()?;
    slots.push(Slot::new(alloc, second, WLAN1)).ok()?;
    slots.push(Slot::new(alloc, third, WLAN2)).ok()?;
    Some(slots)
}

fn all_said(alloc: Global, tolds: &[Told]) -> Option<Vec<Said>> {
    let mut all = Vec::new(alloc);
    for told in tolds {
        all.push(in_short(told)).ok()?;
    }
    Some(all)
}

/// What is seen of a slot, and the first byte that its radio receives: by it a radio is known.
type Kept = (Seen, Option<u8>);

fn look_and_receive(slot: &mut Slot<Boxed>, station: Addr) -> Kept {
    (look_at(slot, station), receive_at(slot))
}

/// The same of each slot.
type AllKept = (Kept, Kept, Kept);

fn look_at_three(slots: &mut [Slot<Boxed>]) -> Option<AllKept> {
    Some((
        look_and_receive(slots.get_mut(0)?, STATION),
        look_and_receive(slots.get_mut(1)?, OTHER),
        look_and_receive(slots.get_mut(2)?, THIRD),
    ))
}

/// A slot that is up and has its station, and whose radio receives this.
fn serving(received: Option<u8>) -> Kept {
    ((true, Some(1), Some(1)), received)
}

/// What three radios are told while they serve, what is seen of their slots at the stop, and the device.
type Served = (Vec<Said>, AllKept, MemDisk);

/// What is told from the thirteenth on.
fn last_said(alloc: Global, tolds: &[Told]) -> Option<Vec<Said>> {
    all_said(alloc, tolds.get(12..)?)
}

/// The same of a world that serves.
fn serves(alloc: Global, world: &mut World<MemDisk, Boxed>) -> Option<Vec<Said>> {
    let steps = steps_of(alloc, SERVES)?;
    let tolds = tell(world, &steps)?;
    let said = last_said(alloc, &tolds);
    drop(tolds);
    said
}

/// What is seen of the slots of a world that stops, and the device.
fn stop(world: World<MemDisk, Boxed>) -> (Option<AllKept>, MemDisk) {
    let (flusher, core, mut slots) = parts_of(world);
    drop(core);
    let kept = look_at_three(&mut slots);
    drop(slots);
    (kept, flusher.into_device())
}

fn serve(alloc: Global, radios: Three) -> Option<Served> {
    let mut world = start_with(alloc, &[1, 2, 3], slots(alloc, radios)?)?;
    let said = serves(alloc, &mut world);
    let (kept, device) = stop(world);
    let ((said, kept), device) = said.zip(kept).zip(Some(device))?;
    Some((said, kept, device))
}

/// The world that the device holds, with these radios.
fn restarted(alloc: Global, device: MemDisk, radios: Three) -> Option<World<MemDisk, Boxed>> {
    let (confs, slots) = confs(alloc, &[1, 2, 3]).zip(slots(alloc, radios))?;
    restart_world(alloc, device, confs, slots).ok()
}

/// What the other station has at a radio that is given back, and the first byte that it receives.
type Back = (Option<u16>, Option<u8>);

fn replace_second(world: &mut World<MemDisk, Boxed>, other: Boxed) -> Option<Back> {
    let mut back = replace_radio(world, WLAN1, other).ok()?;
    let found = (back.installed(OTHER), receive(&mut back));
    drop(back);
    Some(found)
}

/// What is found at the second radio, once another took its place, and what is seen of each slot then.
fn found(world: World<MemDisk, Boxed>, other: Boxed) -> Option<(Back, AllKept)> {
    let mut world = world;
    let back = replace_second(&mut world, other);
    let mut slots = slots_of(world);
    let kept = look_at_three(&mut slots);
    drop(slots);
    back.zip(kept)
}

/// The first run, with one of each kind.
fn first_run(alloc: Global) -> Option<Served> {
    let boxes = in_memory(alloc).zip(recording(alloc));
    let ((first, second), third) = boxes.zip(replaying(alloc))?;
    serve(alloc, (first, second, third))
}

/// The world of the next, in which each slot has another kind.
fn next_world(alloc: Global, device: MemDisk) -> Option<World<MemDisk, Boxed>> {
    let boxes = recording(alloc).zip(replaying(alloc));
    let ((first, second), third) = boxes.zip(in_memory(alloc))?;
    restarted(alloc, device, (first, second, third))
}

/// What is found by it, once the second slot has a third kind.
fn next_run(alloc: Global, device: MemDisk) -> Option<(Back, AllKept)> {
    let (other, world) = in_memory(alloc).zip(next_world(alloc, device))?;
    found(world, other)
}

/// What is told of both, and what is seen of the slots.
type Runs = (Vec<Said>, AllKept, (Back, AllKept));

fn runs(alloc: Global) -> Option<Runs> {
    let (said, kept, device) = first_run(alloc)?;
    Some((said, kept, next_run(alloc, device)?))
}

#[test]
fn three_kinds_serve_one_world(rt: HostRuntime) {
    let (said, kept, next) = match runs(rt.alloc()) {
        Some((said, kept, next)) => (Some(said), Some(kept), Some(next)),
        None => (None, None, None),
    };
    expect(&rt, said.as_deref(), Some(&SERVED[..]));
    let first = (serving(None), serving(Some(1)), serving(Some(2)));
    expect(&rt, kept, Some(first));
    let last = (serving(Some(1)), serving(None), serving(None));
    expect(&rt, next, Some(((None, Some(2)), last)));
}
