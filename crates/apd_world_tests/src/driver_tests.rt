//! What the drivers are told of a run, and of the next one.
use crate::calls::{Memory, slots_of};
use crate::expect::expect;
use crate::seen::{Seen, look_at_two};
use crate::steps::{COMMITS, ROAMS, STATION, WLAN0, WLAN1, steps_of};
use crate::worlds::{recover_world, start_with, stop_after};
use apd_base::Bssid;
use apd_disk::MemDisk;
use apd_radio::{Recording, Sim};
use apd_slot::Slot;
use std::alloc::Global;
use std::process::Abort;

type Recorded<'a> = Slot<Recording<Sim, &'a mut Vec<u8>>>;

/// A slot whose radio writes down what it is told.
fn recorder(alloc: Global, bssid: Bssid, written: &mut Vec<u8>) -> Recorded<'_> {
    let radio = Recording::new(alloc, Sim::new(alloc), written);
    Slot::new(alloc, radio, bssid)
}

/// Slots for two BSSIDs. What their radios are told is written.
fn two_slots<'a>(
    alloc: Global,
    first: &'a mut Vec<u8>,
    second: &'a mut Vec<u8>,
) -> Option<Vec<Recorded<'a>>> {
    let mut slots = Vec::new(alloc);
    slots.push(recorder(alloc, WLAN0, first)).ok()?;
    slots.push(recorder(alloc, WLAN1, second)).ok()?;
    Some(slots)
}

/// The device after these steps of a world of two radios. What they are told is written.
fn device_after(
    alloc: Global,
    words: &str,
    first: &mut Vec<u8>,
    second: &mut Vec<u8>,
) -> Option<MemDisk> {
    let steps = steps_of(alloc, words)?;
    let slots = two_slots(alloc, first, second)?;
    stop_after(start_with(alloc, &[1, 2], slots)?, &steps)
}

/// Expects that both radios are told this of these steps, until their world ends.
fn expect_lines(rt: &impl Abort, alloc: Global, words: &str, lines: [&[u8]; 2]) {
    let (mut first, mut second) = (Vec::new(alloc), Vec::new(alloc));
    let has_ended = device_after(alloc, words, &mut first, &mut second).is_some();
    expect(rt, has_ended, true);
    let [one, two] = lines;
    expect(rt, first.as_slice(), one);
    expect(rt, second.as_slice(), two);
}

fn nothing() -> &'static [u8] {
    b"down\ndown\n"
}

#[test]
fn nothing_is_sent_of_what_was_not_handed_out(rt: HostRuntime) {
    expect_lines(&rt, rt.alloc(), COMMITS, [nothing(), nothing()]);
}

/// A station authenticates, and then associates.
const JOINS: &str = "
    authenticates
    take call call call call publish
    hand-to-wlan0 apply-at-wlan0
    associates
    take call call call call publish
    hand-to-wlan0 apply-at-wlan0 apply-at-wlan0
";

fn first_lines() -> &'static [u8] {
    b"down
tx b00000000200000000aa0200000000010200000000010000000002000000
install 02:00:00:00:00:aa 1
tx 100000000200000000aa02000000000102000000000100000100000001c0010482848b96
down
"
}

#[test]
fn a_run_is_recorded(rt: HostRuntime) {
    expect_lines(&rt, rt.alloc(), JOINS, [first_lines(), nothing()]);
}

fn lines_of_leaving() -> &'static [u8] {
    b"down
tx b00000000200000000aa0200000000010200000000010000000002000000
install 02:00:00:00:00:aa 1
tx 100000000200000000aa02000000000102000000000100000100000001c0010482848b96
remove 02:00:00:00:00:aa
tx a00000000200000000aa02000000000102000000000100000100
down
"
}

fn lines_of_joining() -> &'static [u8] {
    b"down
tx b00000000200000000aa0200000000020200000000020000000002000000
install 02:00:00:00:00:aa 1
tx 100000000200000000aa02000000000202000000000200000100000001c0010482848b96
down
"
}

#[test]
fn a_station_goes_to_another_radio(rt: HostRuntime) {
    expect_lines(
        &rt,
        rt.alloc(),
        ROAMS,
        [lines_of_leaving(), lines_of_joining()],
    );
}

/// The device after the station went to the other radio.
fn roam(alloc: Global) -> Option<MemDisk> {
    let (mut first, mut second) = (Vec::new(alloc), Vec::new(alloc));
    device_after(alloc, ROAMS, &mut first, &mut second)
}

/// How many rows a world has, and what is seen of its slots.
fn contents(world: Memory) -> (usize, Option<[Seen; 2]>) {
    let rows = world.table().rows();
    let slots = slots_of(world);
    (rows, look_at_two(&slots, [STATION, STATION]))
}

/// What is found in the world begun anew of that device.
fn resume(alloc: Global) -> Option<(usize, Option<[Seen; 2]>)> {
    Some(contents(recover_world(alloc, roam(alloc)?, &[1, 2])?))
}

#[test]
fn the_drivers_have_the_stations_of_the_table_again(rt: HostRuntime) {
    let slots = [(true, None, None), (true, Some(1), Some(1))];
    expect(&rt, resume(rt.alloc()), Some((2, Some(slots))));
}
