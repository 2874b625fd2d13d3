//! A run that stops, and what the next one finds.
use crate::calls::{Memory, tell};
use crate::expect::expect;
use crate::steps::{COMMITS, STATION, WLAN0, steps_of};
use crate::worlds::{recover_world, start_world, stop_after};
use apd_base::{Station, Which};
use apd_disk::{MemDisk, Torn};
use apd_world::Told;
use std::alloc::Global;

/// The device of one radio after so many of these steps.
fn device_after(alloc: Global, words: &str, count: usize) -> Option<MemDisk> {
    let steps = steps_of(alloc, words)?;
    let made = steps.get(..count)?;
    stop_after(start_world(alloc, &[1])?, made)
}

/// Half A from its first byte on, after the start of one interface and an authentication.
const TWO_GROUPS: [u8; 54] = [
    1, 1, 0, 0, 0, 0, 0, 0, 0, 0, 0, 0, 0, // the gate, the epoch and the snapshot
    1, 10, 0, 0, 0, 6, 2, 0, 0, 0, 0, 1, 0, 0xd7, 7, // at 77
    1, 20, 0, 0, 0, 1, 2, 0, 0, 0, 0, 1, 2, 0, 0, 0, 0, 0xaa, 1, 0, 0, 0, 0, 0, 0, // at 92
    0, // at 117
];

fn two_groups() -> &'static [u8] {
    &TWO_GROUPS
}

/// The bytes of half A that are in use on a device.
fn in_use(alloc: Global, device: &MemDisk) -> Option<Vec<u8>> {
    Vec::from_slice(alloc, device.bytes().get(64..118)?).ok()
}

/// The same after an authentication: all seven steps.
fn bytes_after_commit(alloc: Global) -> Option<Vec<u8>> {
    let device = device_after(alloc, COMMITS, 7)?;
    let bytes = in_use(alloc, &device);
    drop(device);
    bytes
}

#[test]
fn the_bytes_after_an_authentication(rt: HostRuntime) {
    let bytes = bytes_after_commit(rt.alloc());
    expect(&rt, bytes.as_deref(), Some(two_groups()));
}

/// How many steps of an authentication and its commit are made, what the stop leaves of what was not synced (else the
/// device is as it reads), and whether the station is found.
type Stop = (usize, Option<Torn>, bool);

const STOPS: [Stop; 9] = [
    // before the third call
    (4, None, false),
    (4, Some(Torn::Old), false),
    (4, Some(Torn::New), false),
    // inside it
    (5, Some(Torn::Byte(0x01)), true),
    (5, Some(Torn::Byte(0x7f)), false),
    // after it
    (5, None, true),
    (5, Some(Torn::Old), false),
    // after the fourth
    (6, Some(Torn::Old), true),
    (6, None, true),
];

fn stops() -> &'static [Stop] {
    &STOPS
}

/// What a stop leaves on a device.
fn image(device: MemDisk, torn: Option<Torn>) -> MemDisk {
    match torn {
        Some(torn) => device.crash(torn),
        None => device,
    }
}

/// Whether there is the station.
fn is_there(world: &Memory) -> bool {
    world.table().get(WLAN0, STATION).is_some()
}

/// The world begun anew after such a stop.
fn begin_after(alloc: Global, made: usize, torn: Option<Torn>) -> Option<Memory> {
    let device = device_after(alloc, COMMITS, made)?;
    recover_world(alloc, image(device, torn), &[1])
}

/// Whether the station is found in it.
fn is_found(alloc: Global, made: usize, torn: Option<Torn>) -> Option<bool> {
    let world = begin_after(alloc, made, torn)?;
    let found = is_there(&world);
    drop(world);
    Some(found)
}

/// The first of these stops after which something else is found.
fn otherwise(alloc: Global) -> Option<Stop> {
    for stop in stops() {
        let (made, torn, found) = *stop;
        if is_found(alloc, made, torn) != Some(found) {
            return Some(*stop);
        }
    }
    None
}

#[test]
fn a_stop_in_a_commit(rt: HostRuntime) {
    expect(&rt, otherwise(rt.alloc()), None);
}

/// The station associates, which is committed; it is put on the deny list, which is committed and handed out.
const DENIED: &str = "
    authenticates associates
    take call call call call publish
    deny
    take call call call call publish
    hand-to-wlan0 hand-to-control
";

/// Whether the station is associated, and whether the deny list has it.
fn look(world: &Memory) -> Option<(bool, bool)> {
    let table = world.table();
    let is_associated = matches!(table.get(WLAN0, STATION), Some(Station::Associated(_)));
    Some((is_associated, table.lists(WLAN0)?.has(Which::Deny, STATION)))
}

/// What is seen after a stop behind so many of these steps.
fn look_behind(alloc: Global, made: usize) -> Option<(bool, bool)> {
    let device = device_after(alloc, DENIED, made)?;
    let world = recover_world(alloc, device, &[1])?;
    let seen = look(&world);
    drop(world);
    seen
}

#[test]
fn a_denial_outlives_a_stop(rt: HostRuntime) {
    expect(&rt, look_behind(rt.alloc(), 8), Some((true, false)));
    expect(&rt, look_behind(rt.alloc(), 17), Some((false, true)));
}

/// The station is asked for before its authentication is published, and behind.
const ASKED_TWICE: &str = "authenticates take call call call call ask publish ask";

/// What a started world tells of these steps.
fn answers(alloc: Global, words: &str) -> Option<Vec<Told>> {
    let steps = steps_of(alloc, words)?;
    let mut world = start_world(alloc, &[1])?;
    let tolds = tell(&mut world, &steps);
    drop(world);
    tolds
}

/// The text of an answer to a query.
fn text(told: Option<&Told>) -> &[u8] {
    match told {
        Some(Told::Answered(answer)) => answer.text(),
        _ => b"no answer",
    }
}

fn station_text() -> &'static [u8] {
    b"02:00:00:00:00:aa\nflags=[AUTH]\naid=0\ncapability=0x0\nlisten_interval=0\n"
}

#[test]
fn a_query_sees_the_older_table_until_a_batch_is_published(rt: HostRuntime) {
    let tolds = answers(rt.alloc(), ASKED_TWICE);
    let tolds = tolds.as_deref().unwrap_or(&[]);
    expect(&rt, text(tolds.get(6)), b"FAIL\n");
    expect(&rt, text(tolds.get(8)), station_text());
}
