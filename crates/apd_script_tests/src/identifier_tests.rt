//! Identifiers that go round, through the whole program: what is given and sent, what stands on the device, and what is
//! left by a stop.
use crate::calls::two_radios;
use crate::expect::expect;
use crate::scripts::{JOINS, add, join};
use crate::worlds::{device_after, fault_on, fresh_store};
use apd_disk::MemDisk;
use apd_radio::Sim;
use apd_record::write;
use apd_script::run_on_store;
use apd_world::World;
use std::alloc::Global;
use std::process::Abort;

/// The world that a script on a new store and two radios ends with.
fn world_after(rt: &impl Abort, alloc: Global, script: &[u8]) -> World<MemDisk, Sim> {
    let mut out = Vec::new(alloc);
    let disk = fresh_store(rt, alloc);
    let world = run_on_store(alloc, disk, two_radios(rt, alloc), script, &mut out);
    world.ok().expect(rt, "a script without a fault")
}

/// Expects the records of a world's table, in their order.
fn expect_records(rt: &impl Abort, alloc: Global, world: &World<MemDisk, Sim>, wanted: &[u8]) {
    let changes = world.table().snapshot(alloc).expect(rt, "memory");
    let records = write(alloc, &changes).expect(rt, "memory");
    expect(rt, records.as_slice(), wanted);
}

/// A station joins wlan0, and then wlan1.
const ROAMS: &[u8] = b"rx wlan0 b00000000200000000010200000000aa0200000000011000000001000000
rx wlan0 000000000200000000010200000000aa020000000001200031040a0000036e6574010482848b96
rx wlan1 b00000000200000000020200000000aa0200000000021000000001000000
rx wlan1 000000000200000000020200000000aa020000000002200031040a0000036e6574010482848b96
flush
";

/// The same, and a stop behind it.
const ROAMS_AND_STOPS: &[u8] =
    b"rx wlan0 b00000000200000000010200000000aa0200000000011000000001000000
rx wlan0 000000000200000000010200000000aa020000000001200031040a0000036e6574010482848b96
rx wlan1 b00000000200000000020200000000aa0200000000021000000001000000
rx wlan1 000000000200000000020200000000aa020000000002200031040a0000036e6574010482848b96
flush
stop
";

/// Two policies; 1 was given last by each; the station is authenticated at the first, and has 1 at the second.
const ROAMED: &[u8] = &[
    6, 2, 0, 0, 0, 0, 1, 0, 0xd7, 7, //
    6, 2, 0, 0, 0, 0, 2, 0, 0xd7, 7, //
    7, 2, 0, 0, 0, 0, 1, 1, 0, //
    7, 2, 0, 0, 0, 0, 2, 1, 0, //
    1, 2, 0, 0, 0, 0, 1, 2, 0, 0, 0, 0, 0xaa, 1, 0, 0, 0, 0, 0, 0, //
    1, 2, 0, 0, 0, 0, 2, 2, 0, 0, 0, 0, 0xaa, 2, 1, 0, 0x31, 4, 10, 0,
];

#[test]
fn each_of_two_radios_gave_1_last_before_a_stop_and_behind_it(rt: HostRuntime) {
    let alloc = rt.alloc();
    for script in [ROAMS, ROAMS_AND_STOPS] {
        expect_records(&rt, alloc, &world_after(&rt, alloc, script), ROAMED);
    }
}

/// The group of an association at the place 117: its gate, its length, the station's row and the identifier that was
/// given last.
const ASSOCIATION: &[u8] = &[
    1, 29, 0, 0, 0, // at 117
    1, 2, 0, 0, 0, 0, 1, 2, 0, 0, 0, 0, 0xaa, 2, 1, 0, 0x31, 4, 10, 0, // at 122
    7, 2, 0, 0, 0, 0, 1, 1, 0, // at 142
];

/// The closed gate behind it.
const CLOSED: &[u8] = &[
    0, // at 151
];

/// The same station associates once more, and keeps its identifier: its row alone.
const ONCE_MORE: &[u8] = &[
    1, 20, 0, 0, 0, // at 151
    1, 2, 0, 0, 0, 0, 1, 2, 0, 0, 0, 0, 0xaa, 2, 1, 0, 0x31, 4, 10, 0, // at 156
    0, // at 176
];

const ASSOCIATES: &str =
    "rx wlan0 000000000200000000010200000000aa020000000001200031040a0000036e6574010482848b96\nflush\n";

/// Expects these bytes of a device at a place.
fn expect_bytes(rt: &impl Abort, disk: &MemDisk, place: usize, wanted: &[u8]) {
    let behind = disk.bytes().get(place..).expect(rt, "a place");
    let found = behind.get(..wanted.len()).expect(rt, "as many bytes");
    expect(rt, found, wanted);
}

#[test]
fn an_identifier_is_written_where_it_is_given_alone(rt: HostRuntime) {
    let alloc = rt.alloc();
    let once = device_after(&rt, alloc, JOINS.as_bytes());
    expect_bytes(&rt, &once, 117, ASSOCIATION);
    expect_bytes(&rt, &once, 151, CLOSED);
    let script = join(&rt, alloc, &[JOINS, ASSOCIATES]);
    let twice = device_after(&rt, alloc, &script);
    expect_bytes(&rt, &twice, 117, ASSOCIATION);
    expect_bytes(&rt, &twice, 151, ONCE_MORE);
}

/// A station of this number joins.
fn add_joining(rt: &impl Abort, alloc: Global, script: &mut Vec<u8>, number: u16) {
    let lines = format!(in alloc;
        "rx wlan0 b0000000020000000001020000ff{number:04x}0200000000011000000001000000\nrx wlan0 00000000020000000001020000ff{number:04x}020000000001200031040a0000036e6574010482848b96\n"
    );
    add(rt, script, lines.expect(rt, "memory").as_bytes());
}

/// It is gone again.
fn add_leaving(rt: &impl Abort, alloc: Global, script: &mut Vec<u8>, number: u16) {
    let line = format!(in alloc;
        "rx wlan0 c0000000020000000001020000ff{number:04x}02000000000110000300\n"
    );
    add(rt, script, line.expect(rt, "memory").as_bytes());
}

/// So many stations join, each of which leaves before the next, and then one more joins; with a commit after each 500,
/// and in front of the last that leaves and behind it.
fn all_come_and_go(rt: &impl Abort, alloc: Global, count: u16) -> Vec<u8> {
    let mut script = Vec::new(alloc);
    for number in 1..=count {
        if number % 500 == 0 || number == count {
            add(rt, &mut script, b"flush\n");
        }
        add_joining(rt, alloc, &mut script, number);
        add_leaving(rt, alloc, &mut script, number);
    }
    add(rt, &mut script, b"flush\n");
    add_joining(rt, alloc, &mut script, count.saturating_add(1));
    add(rt, &mut script, b"flush\n");
    script
}

/// What the last two are told: the identifiers 2007 and 1.
const LAST_TWO: &[u8] = b"entry 6020
entry 6021
entry 6022
wlan0 tx b0000000020000ff07d70200000000010200000000010000000002000000
wlan0 install 02:00:00:ff:07:d7 2007
wlan0 tx 10000000020000ff07d7020000000001020000000001000001000000d7c7010482848b96
wlan0 remove 02:00:00:ff:07:d7
entry 6023
entry 6024
wlan0 tx b0000000020000ff07d80200000000010200000000010000000002000000
wlan0 install 02:00:00:ff:07:d8 1
wlan0 tx 10000000020000ff07d802000000000102000000000100000100000001c0010482848b96
";

#[test]
fn behind_2007_stations_that_came_and_went_the_next_gets_1(rt: HostRuntime) {
    let alloc = rt.alloc();
    let script = all_come_and_go(&rt, alloc, 2007);
    let mut out = Vec::new(alloc);
    let disk = fresh_store(&rt, alloc);
    let fault = fault_on(&rt, alloc, disk, script.as_slice(), &mut out);
    expect(&rt, (fault, out.ends_with(LAST_TWO)), (None, true));
}
