//! Scripts over radios whose driver fails.
use crate::expect::expect;
use crate::scripts::{JOINS, join};
use crate::worlds::{Boxed, replace_radio, run_in_world, slots_of, world_with};
use apd_base::{Addr, Bssid};
use apd_disk::MemDisk;
use apd_radio::{Failing, Sim};
use apd_world::World;
use std::alloc::Global;
use std::process::Abort;

const WLAN0: Bssid = Bssid(Addr([2, 0, 0, 0, 0, 1]));

const STATION: Addr = Addr([2, 0, 0, 0, 0, 0xaa]);

/// The station is told that it is authenticated.
const AUTHENTICATED: &str = "entry 2
wlan0 tx b00000000200000000aa0200000000010200000000010000000002000000
";

/// It is installed, and told that it is associated.
const ASSOCIATED: &str = "entry 3
wlan0 install 02:00:00:00:00:aa 1
wlan0 tx 100000000200000000aa02000000000102000000000100000100000001c0010482848b96
";

const DOWN: &str =
    "ctrl 5 state=DISABLED\\nchannel=6\\nbeacon_int=100\\nbss[0]=wlan0\\nbssid[0]=02:00:00:00:00:01\\nssid[0]=net\\nnum_sta[0]=1\\n
";

const UP: &str =
    "ctrl 1 state=ENABLED\\nchannel=6\\nbeacon_int=100\\nbss[0]=wlan0\\nbssid[0]=02:00:00:00:00:01\\nssid[0]=net\\nnum_sta[0]=1\\n
";

type Failed = World<MemDisk, Boxed>;

/// A world of one interface, whose radio passes so many calls on, and fails then.
fn failing_world(rt: &impl Abort, alloc: Global, calls: u64) -> Failed {
    let radio = Box::new(alloc, Failing::new(Sim::new(alloc), calls)).ok();
    world_with(rt, alloc, radio.expect(rt, "memory"))
}

/// The world that a script leaves, which is expected to print these texts.
fn run(rt: &impl Abort, alloc: Global, world: Failed, script: &[&str], texts: &[&str]) -> Failed {
    let script = join(rt, alloc, script);
    let text = join(rt, alloc, texts);
    run_in_world(rt, alloc, world, &script, &text)
}

/// Replaces the radio by one that doesn't fail, once it is seen that the station was not in it.
fn replace(rt: &impl Abort, alloc: Global, world: &mut Failed) {
    let other = Box::new(alloc, Sim::new(alloc)).ok();
    let own = replace_radio(rt, world, WLAN0, other.expect(rt, "memory"));
    expect(rt, own.installed(STATION), None);
}

/// Expects whether the slot of a world is up, and the identifier under which the station is wanted, and installed.
fn expect_slot(rt: &impl Abort, world: Failed, wanted: (bool, Option<u16>, Option<u16>)) {
    let slots = slots_of(world);
    let slot = slots.first().expect(rt, "a slot");
    let found = (slot.is_up(), slot.wanted(STATION), slot.installed(STATION));
    expect(rt, found, wanted);
}

#[test]
fn a_radio_that_fails_is_replaced(rt: HostRuntime) {
    let alloc = rt.alloc();
    let lost = "entry 3\nwlan0 down\nwlan0 lost\n";
    let script = [JOINS, "cmd STATUS\n"];
    let texts = [AUTHENTICATED, lost, DOWN];
    let mut world = run(&rt, alloc, failing_world(&rt, alloc, 1), &script, &texts);
    replace(&rt, alloc, &mut world);
    let world = run(&rt, alloc, world, &["cmd STATUS\n"], &[UP]);
    expect_slot(&rt, world, (true, Some(1), Some(1)));
}

/// Expects what a script prints over a radio that fails behind so many calls, and the slot that it leaves.
fn expect_left(
    rt: &impl Abort,
    alloc: Global,
    calls: u64,
    [script, texts]: [&[&str]; 2],
    wanted: (bool, Option<u16>, Option<u16>),
) {
    let world = failing_world(rt, alloc, calls);
    expect_slot(rt, run(rt, alloc, world, script, texts), wanted);
}

#[test]
fn a_frame_that_is_lost_leaves_its_radio_up(rt: HostRuntime) {
    let lost = "entry 3\nwlan0 install 02:00:00:00:00:aa 1\nwlan0 lost\n";
    let texts = [AUTHENTICATED, lost];
    let wanted = (true, Some(1), Some(1));
    expect_left(&rt, rt.alloc(), 2, [&[JOINS], &texts], wanted);
}

#[test]
fn a_removal_that_fails_takes_its_radio_down(rt: HostRuntime) {
    let leaves = "cmd DEAUTHENTICATE 02:00:00:00:00:aa\nflush\n";
    let lost = "entry 4\nwlan0 down\nwlan0 lost\nctrl 5 OK\\n\n";
    let texts = [AUTHENTICATED, ASSOCIATED, lost];
    let wanted = (false, None, Some(1));
    expect_left(&rt, rt.alloc(), 3, [&[JOINS, leaves], &texts], wanted);
}
