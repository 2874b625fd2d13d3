// What the worker of the control port replies to what is refused.
ghost use Rattle.std.specs.Prelude.{◌≡◌};

use crate::common::{
    WLAN0, WLAN1, authentication, core_of_two_radios, enters, new_core, new_seat, settle, share,
    started_core,
};
use crate::expect::expect;
use crate::operator::{are, replies_to};
use apd_core::{Core, Input};
use apd_desk::Shared;
use std::alloc::Global;
use std::marker::Brand;
use std::net::Net;
use std::sync::Wait;
use std::sync::ledger::{Blank, Ledger};
use std::time::Clock;

const ORDER: &[u8] = b"DEAUTHENTICATE 02:00:00:00:00:aa";

// Gives the commands one after another, at a new seat. Whether these are the replies.
fn serve<'a, L: Ledger, W: Wait + Clock + Net>(
    rt: &'a W,
    alloc: Global,
    shared: &'a Shared<L>,
    commands: &'a [&'a [u8]],
    texts: &[&[u8]],
) -> Option<bool> {
    let seat = new_seat(rt, shared)?;
    let replies = replies_to(rt, alloc, shared, seat, commands);
    let agree = are(replies.as_slice(), texts);
    drop(replies);
    Some(agree)
}

// Whether these are the replies to these commands on a core.
fn replies<L: Ledger, W: Wait + Clock + Net>(
    rt: &W,
    alloc: Global,
    core: Option<Core>,
    blank: Blank,
    commands: &[&'static [u8]],
    texts: &[&[u8]],
) -> Option<bool>
    requires name { blank.name ≡ L.name }
    requires parts { blank.parts ≡ L.parts }
    requires all { blank.parts ≡ 65536 }
{
    let shared: Shared<L> = share(core, blank)?;
    let replied = serve(rt, alloc, &shared, commands, texts);
    drop(shared);
    replied
}

fn failed_core(alloc: Global) -> Option<Core> {
    let mut core = started_core(alloc)?;
    core.fail();
    Some(core)
}

// A core that keeps as many entries as may be.
fn full_core(alloc: Global) -> Option<Core> {
    let mut core = started_core(alloc)?;
    let frame = authentication(0xaa);
    for _entry in 0..4096 {
        enters(&mut core, Input::Received(WLAN0, &frame));
    }
    Some(core)
}

// What is no command, or no interface's, or of an interface that was not started; and queries, which are answered.
const COMMANDS: &[&[u8]] = &[
    b"",
    b"\n",
    b"HELLO",
    b"PING PING",
    b"IFNAME=wlan9 PING",
    b"PING",
    b"STA 02:00:00:00:00:aa",
    ORDER,
    b"STA-FIRST",
];

const REPLIES: &[&[u8]] = &[
    b"UNKNOWN COMMAND\n",
    b"UNKNOWN COMMAND\n",
    b"UNKNOWN COMMAND\n",
    b"FAIL\n",
    b"FAIL\n",
    b"PONG\n",
    b"FAIL\n",
    b"FAIL\n",
    b"",
];

#[test]
fn each_refusal_is_replied_to(rt: HostRuntime) {
    let alloc = rt.alloc();
    let (core, blank) = (new_core(alloc), Blank::new(65_536));
    let replied = replies::<Brand, _>(&rt, alloc, core, blank, COMMANDS, REPLIES);
    expect(&rt, replied, Some(true));
}

const ORDERS: &[&[u8]] = &[ORDER, b"PING"];

const FAILS: &[&[u8]] = &[b"FAIL\n", b"PONG\n"];

#[test]
fn an_order_fails_on_a_core_that_has_failed(rt: HostRuntime) {
    let alloc = rt.alloc();
    let (core, blank) = (failed_core(alloc), Blank::new(65_536));
    let replied = replies::<Brand, _>(&rt, alloc, core, blank, ORDERS, FAILS);
    expect(&rt, replied, Some(true));
}

#[test]
fn an_order_fails_on_a_full_core(rt: HostRuntime) {
    let alloc = rt.alloc();
    let (core, blank) = (full_core(alloc), Blank::new(65_536));
    let replied = replies::<Brand, _>(&rt, alloc, core, blank, ORDERS, FAILS);
    expect(&rt, replied, Some(true));
}

// A core of two radios, the start of which is settled.
fn two_radios(alloc: Global) -> Option<Core> {
    settle(alloc, core_of_two_radios(alloc)?)
}

const ASKED: &[&[u8]] = &[b"STATUS", b"IFNAME=wlan1 STATUS", b"IFNAME=wlan0 STATUS"];

const DOWN: &[u8] = b"state=DISABLED
channel=6
beacon_int=100
bss[0]=wlan0
bssid[0]=02:00:00:00:00:01
ssid[0]=net
num_sta[0]=0
";

const UP: &[u8] = b"state=ENABLED
channel=6
beacon_int=100
bss[0]=wlan1
bssid[0]=02:00:00:00:00:02
ssid[0]=net
num_sta[0]=0
";

const STATES: &[&[u8]] = &[DOWN, UP, DOWN];

// Whether each of two radios shows its own state, the first of which is down.
fn shows_both<L: Ledger, W: Wait + Clock + Net>(rt: &W, alloc: Global, blank: Blank) -> Option<bool>
    requires name { blank.name ≡ L.name }
    requires parts { blank.parts ≡ L.parts }
    requires all { blank.parts ≡ 65536 }
{
    let shared: Shared<L> = share(two_radios(alloc), blank)?;
    shared.note(rt, WLAN0, false);
    shared.note(rt, WLAN1, true);
    let shown = serve(rt, alloc, &shared, ASKED, STATES);
    drop(shared);
    shown
}

#[test]
fn a_command_is_of_the_interface_that_it_names(rt: HostRuntime) {
    let shown = shows_both::<Brand, _>(&rt, rt.alloc(), Blank::new(65_536));
    expect(&rt, shown, Some(true));
}
