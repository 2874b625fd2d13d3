// What the worker of a radio does with what comes and what goes out.
ghost use Rattle.std.specs.Prelude.{◌≡◌};

use crate::common::{
    ASSOCIATION, Still, WLAN0, associated_core, authentication, commit_in_memory, new_seat,
    serve_alone, settle, share, started_core, submits_at,
};
use crate::expect::expect;
use crate::habit::Habitual;
use crate::staged::{At, Log, Short, Staged};
use apd_base::Moment;
use apd_core::{Core, Input};
use apd_desk::{Clock, Gate, NoGate, Seat, Shared};
use apd_mlme::{Out, Recipient};
use apd_radio::{Failing, Radio, Recording, Sim};
use std::alloc::Global;
use std::marker::Brand;
use std::net::Net;
use std::sync::Wait;
use std::sync::ledger::{Blank, Ledger};
use std::time;

// Serves a radio that receives these frames, until the look behind them. Gives the seat.
fn serve<L: Ledger, W: Wait + time::Clock + Net, R: Radio, C: Clock, G: Gate>(
    rt: &W,
    alloc: Global,
    shared: &Shared<L>,
    inner: R,
    frames: &[&[u8]],
    clock: &C,
    gate: &G,
) -> Option<Seat<L>> {
    let (seat, inner) = new_seat(rt, shared).zip(Some(inner))?;
    let radio = Habitual::new(inner, Staged::new(rt, alloc, shared, frames));
    Some(serve_alone(rt, alloc, shared, seat, radio, clock, gate))
}

// What a radio is told that meets want of memory so many times, at the first of the outs that wait. All are told to stop
// before the first of them.
fn radio_log<L: Ledger, W: Wait + time::Clock + Net>(
    rt: &W,
    alloc: Global,
    blank: Blank,
    times: u64,
) -> Option<Vec<u8>>
    requires name { blank.name ≡ L.name }
    requires parts { blank.parts ≡ L.parts }
    requires all { blank.parts ≡ 65536 }
{
    let shared: Shared<L> = share(associated_core(alloc), blank)?;
    let mut written = Vec::new(alloc);
    let served = writes_log(rt, alloc, &shared, times, &mut written);
    drop(shared);
    served.then_some(written)
}

fn writes_log<L: Ledger, W: Wait + time::Clock + Net>(
    rt: &W,
    alloc: Global,
    shared: &Shared<L>,
    times: u64,
    written: &mut Vec<u8>,
) -> bool {
    let inner = Recording::new(alloc, Sim::new(alloc), written);
    let radio = Habitual::new(inner, Short { times });
    serve(rt, alloc, shared, radio, &[], &Still, &NoGate).is_some()
}

fn all_lines() -> &'static [u8] {
    b"down
tx b00000000200000000aa0200000000010200000000010000000002000000
install 02:00:00:00:00:aa 1
tx 100000000200000000aa02000000000102000000000100000100000001c0010482848b96
down
"
}

// 260 times in a row are more than a worker looks again before it waits.
#[test]
fn no_out_is_lost_at_want_of_memory_or_at_a_stop(rt: HostRuntime) {
    for times in [0, 1, 260].as_slice() {
        let told = radio_log::<Brand, _>(&rt, rt.alloc(), Blank::new(65_536), *times);
        expect(&rt, (*times, told.as_deref()), (*times, Some(all_lines())));
    }
}

// Whether a tick at this moment lets a station go.
fn lets_go<L: Ledger, W: Wait>(
    rt: &W,
    shared: &Shared<L>,
    seat: &mut Seat<L>,
    moment: u64,
) -> bool {
    submits_at(rt, shared, seat, Input::Tick, Moment(moment))
}

// Whether a station that was heard at 200 s is let go at 400 s, and at 500 s.
fn departures<L: Ledger, W: Wait + time::Clock + Net>(
    rt: &W,
    alloc: Global,
    blank: Blank,
) -> Option<[bool; 2]>
    requires name { blank.name ≡ L.name }
    requires parts { blank.parts ≡ L.parts }
    requires all { blank.parts ≡ 65536 }
{
    let shared: Shared<L> = share(started_core(alloc), blank)?;
    let gone = departures_at(rt, alloc, &shared);
    drop(shared);
    gone
}

fn departures_at<L: Ledger, W: Wait + time::Clock + Net>(
    rt: &W,
    alloc: Global,
    shared: &Shared<L>,
) -> Option<[bool; 2]> {
    let frame = authentication(0xaa);
    let radio = Sim::new(alloc);
    let mut seat = serve(rt, alloc, shared, radio, &[&frame], &At(200_000), &NoGate)?;
    let gone = departures_by(rt, shared, &mut seat);
    drop(seat);
    Some(gone)
}

fn departures_by<L: Ledger, W: Wait>(rt: &W, shared: &Shared<L>, seat: &mut Seat<L>) -> [bool; 2] {
    [
        lets_go(rt, shared, seat, 400_000),
        lets_go(rt, shared, seat, 500_000),
    ]
}

#[test]
fn a_frame_is_heard_at_its_moment(rt: HostRuntime) {
    let gone = departures::<Brand, _>(&rt, rt.alloc(), Blank::new(65_536));
    expect(&rt, gone, Some([false, true]));
}

// Whether a radio that passes so many calls is noted as up, by the worker that served it.
fn noted_up_when_served<L: Ledger, W: Wait + time::Clock + Net>(
    rt: &W,
    alloc: Global,
    shared: &Shared<L>,
    calls: u64,
) -> Option<bool> {
    let radio = Failing::new(Sim::new(alloc), calls);
    let seat = serve(rt, alloc, shared, radio, &[], &Still, &NoGate)?;
    drop(seat);
    Some(shared.is_noted_up(rt, WLAN0))
}

// A core at which a station is to be installed, or none.
fn core_to_serve(alloc: Global, installs: bool) -> Option<Core> {
    if installs {
        associated_core(alloc)
    } else {
        started_core(alloc)
    }
}

// The same of a core at which a station is to be installed, or none.
fn up_when_served<L: Ledger, W: Wait + time::Clock + Net>(
    rt: &W,
    alloc: Global,
    blank: Blank,
    installs: bool,
    calls: u64,
) -> Option<bool>
    requires name { blank.name ≡ L.name }
    requires parts { blank.parts ≡ L.parts }
    requires all { blank.parts ≡ 65536 }
{
    let shared: Shared<L> = share(core_to_serve(alloc, installs), blank)?;
    let up = noted_up_when_served(rt, alloc, &shared, calls);
    drop(shared);
    up
}

// Whether a station is to be installed, how many calls a radio passes, and whether it is up then.
const NOTED: &[(bool, u64, bool)] = &[
    (false, 0, true),
    (true, 0, false),
    (true, 1, false),
    (true, 2, true),
];

#[test]
fn whether_a_radio_is_up_is_noted(rt: HostRuntime) {
    for (installs, calls, up) in NOTED {
        let blank = Blank::new(65_536);
        let is_up = up_when_served::<Brand, _>(&rt, rt.alloc(), blank, *installs, *calls);
        expect(&rt, (*calls, is_up), (*calls, Some(*up)));
    }
}

// What passes the gate of two frames and their commit.
fn gate_log<L: Ledger, W: Wait + time::Clock + Net>(
    rt: &W,
    alloc: Global,
    blank: Blank,
) -> Option<u64>
    requires name { blank.name ≡ L.name }
    requires parts { blank.parts ≡ L.parts }
    requires all { blank.parts ≡ 65536 }
{
    let shared: Shared<L> = share(started_core(alloc), blank)?;
    let logged = log_both(rt, alloc, &shared);
    drop(shared);
    logged
}

// Whether both frames are received.
fn receives_both<L: Ledger, W: Wait + time::Clock + Net>(
    rt: &W,
    alloc: Global,
    shared: &Shared<L>,
    log: &Log,
) -> bool {
    let frames: [&[u8]; 2] = [&authentication(0xaa), &ASSOCIATION];
    serve(rt, alloc, shared, Sim::new(alloc), &frames, &Still, log).is_some()
}

fn log_both<L: Ledger, W: Wait + time::Clock + Net>(
    rt: &W,
    alloc: Global,
    shared: &Shared<L>,
) -> Option<u64> {
    let log = Log::new();
    let commits = receives_both(rt, alloc, shared, &log)
        && commit_in_memory(rt, alloc, shared, &log);
    commits.then_some(log.digits())
}

// The entries 2 and 3, and the four turns of a commit.
#[test]
fn a_gate_is_passed_at_each_entry_and_each_turn(rt: HostRuntime) {
    let logged = gate_log::<Brand, _>(&rt, rt.alloc(), Blank::new(65_536));
    expect(&rt, logged, Some(0x23_baba_baba));
}

/// The frame by which a station asks which networks are there, whatever their names.
const PROBE: [u8; 32] = [
    0x40, 0, 0, 0, 2, 0, 0, 0, 0, 1, 2, 0, 0, 0, 0, 0xaa, 2, 0, 0, 0, 0, 1, 0x10, 0, 0, 0, 1, 4,
    0x82, 0x84, 0x8b, 0x96,
];

/// The first byte of a Probe Response (9.2.4.1.3).
const PROBE_RESPONSE: u8 = 0x50;

// Whether these outs are one frame, a Probe Response.
fn is_probe_answer(outs: &[Out]) -> bool {
    match outs {
        [Out::Frame(frame)] => frame.as_slice().first() == Some(&PROBE_RESPONSE),
        _ => false,
    }
}

// Whether that answer is handed out.
fn collects_probe_answer<L: Ledger, W: Wait>(
    rt: &W,
    shared: &Shared<L>,
    seat: &mut Seat<L>,
) -> bool {
    match shared.collect(rt, seat, Recipient::Radio(WLAN0)) {
        Ok(outs) => is_probe_answer(&outs),
        Err(_) => false,
    }
}

// Whether the answer to that frame is handed out once it is committed.
fn commits_probe<L: Ledger, W: Wait + time::Clock + Net>(
    rt: &W,
    alloc: Global,
    shared: &Shared<L>,
    log: &Log,
) -> Option<bool> {
    let mut seat = serve(rt, alloc, shared, Sim::new(alloc), &[&PROBE], &Still, log)?;
    let answered = commit_in_memory(rt, alloc, shared, log)
        && collects_probe_answer(rt, shared, &mut seat);
    drop(seat);
    Some(answered)
}

// The same, and what passed the gate.
fn log_probe<L: Ledger, W: Wait + time::Clock + Net>(
    rt: &W,
    alloc: Global,
    blank: Blank,
) -> Option<(bool, u64)>
    requires name { blank.name ≡ L.name }
    requires parts { blank.parts ≡ L.parts }
    requires all { blank.parts ≡ 65536 }
{
    let core = settle(alloc, started_core(alloc)?);
    let shared: Shared<L> = share(core, blank)?;
    let log = Log::new();
    let answered = commits_probe(rt, alloc, &shared, &log);
    drop(shared);
    Some((answered?, log.digits()))
}

// The entry 2 alone: no call of the device.
#[test]
fn what_changes_nothing_makes_no_call(rt: HostRuntime) {
    let found = log_probe::<Brand, _>(&rt, rt.alloc(), Blank::new(65_536));
    expect(&rt, found, Some((true, 2)));
}
