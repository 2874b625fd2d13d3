// What a seat collects, and what it is told afterwards.
ghost use Rattle.std.specs.Prelude.{◌≡◌};

use crate::common::{
    ASSOCIATION, Host, WLAN0, authentication, commit, commit_all, enters_both, finds_station,
    memory_flusher, new_seat, settles_in_memory, share, started_core, stop, submits,
};
use crate::expect::expect;
use apd_core::Core;
use apd_desk::{NoGate, Seat, Shared};
use apd_disk::MemDisk;
use apd_flusher::Flusher;
use apd_mlme::{Out, Recipient};
use std::alloc::Global;
use std::marker::Brand;
use std::sync::Wait;
use std::sync::ledger::{Blank, Ledger};
use std::thread::{join, yield_now};
use std::time::Clock;

/// How often a seat collects at most, each time with a yield: a test that waits for an answer ends.
const LOOKS: u64 = 10_000_000;

fn collect<L: Ledger, W: Wait>(rt: &W, shared: &Shared<L>, seat: &mut Seat<L>) -> Option<Vec<Out>> {
    shared.collect(rt, seat, Recipient::Radio(WLAN0)).ok()
}

fn installs(outs: &[Out]) -> bool {
    for out in outs {
        if let Out::Install(_, _) = out {
            return true;
        }
    }
    false
}

fn collects_one<L: Ledger, W: Wait>(rt: &W, shared: &Shared<L>, seat: &mut Seat<L>) -> bool {
    match collect(rt, shared, seat) {
        Some(outs) => installs(outs.as_slice()),
        None => false,
    }
}

// Collects until a station is installed.
fn collects_install<L: Ledger, W: Wait>(rt: &W, shared: &Shared<L>, seat: &mut Seat<L>) -> bool {
    for _look in 0..LOOKS {
        if collects_one(rt, shared, seat) {
            return true;
        }
        yield_now();
    }
    false
}

fn submits_both<L: Ledger, W: Wait>(rt: &W, shared: &Shared<L>, seat: &mut Seat<L>) -> bool {
    submits(rt, shared, seat, &authentication(0xaa)) && submits(rt, shared, seat, &ASSOCIATION)
}

// Lets the station associate, and asks for it at once where its answer was collected.
fn associates<L: Ledger, W: Wait>(rt: &W, shared: &Shared<L>, seat: Seat<L>) -> bool {
    let mut seat = seat;
    let told = submits_both(rt, shared, &mut seat)
        && collects_install(rt, shared, &mut seat)
        && finds_station(rt, shared, &mut seat);
    stop(rt, shared);
    drop(seat);
    told
}

fn commit_and_associate<L: Ledger + Send + Sync, W: Host>(
    rt: &W,
    shared: &Shared<L>,
    flusher: Flusher<MemDisk>,
    seat: Seat<L>,
) -> bool {
    join(
        rt,
        move || commit(rt, shared, flusher, &NoGate),
        move || associates(rt, shared, seat),
    )
    .1
}

// The same, of a new seat and a new flusher.
fn tells_new_seat<L: Ledger + Send + Sync, W: Host>(
    rt: &W,
    alloc: Global,
    shared: &Shared<L>,
) -> Option<bool> {
    let (seat, flusher) = new_seat(rt, shared).zip(memory_flusher(alloc))?;
    Some(commit_and_associate(rt, shared, flusher, seat))
}

fn tells_what_was_collected<L: Ledger + Send + Sync, W: Host>(
    rt: &W,
    alloc: Global,
    blank: Blank,
) -> Option<bool>
    requires name { blank.name ≡ L.name }
    requires parts { blank.parts ≡ L.parts }
    requires all { blank.parts ≡ 65536 }
{
    let shared: Shared<L> = share(started_core(alloc), blank)?;
    let told = tells_new_seat(rt, alloc, &shared);
    drop(shared);
    told
}

#[test]
fn a_seat_is_told_of_what_it_collected(rt: HostRuntime) {
    let told = tells_what_was_collected::<Brand, _>(&rt, rt.alloc(), Blank::new(65_536));
    expect(&rt, told, Some(true));
}

fn hand(core: &mut Core) -> Option<Vec<Out>> {
    core.hand(Recipient::Radio(WLAN0)).ok()
}

fn hand_after_both(alloc: Global, core: &mut Core) -> Option<Vec<Out>> {
    if enters_both(core) && settles_in_memory(alloc, core) {
        hand(core)
    } else {
        None
    }
}

// What a core hands out after the two frames.
fn outs_of_core(alloc: Global) -> Option<Vec<Out>> {
    let mut core = started_core(alloc)?;
    let outs = hand_after_both(alloc, &mut core);
    drop(core);
    outs
}

fn collect_both<L: Ledger, W: Wait + Clock>(
    rt: &W,
    alloc: Global,
    shared: &Shared<L>,
    seat: &mut Seat<L>,
) -> Option<Vec<Out>> {
    if submits_both(rt, shared, seat) && commit_all(rt, alloc, shared) {
        collect(rt, shared, seat)
    } else {
        None
    }
}

// What a new seat collects after the two frames.
fn outs_of_new_seat<L: Ledger, W: Wait + Clock>(
    rt: &W,
    alloc: Global,
    shared: &Shared<L>,
) -> Option<Vec<Out>> {
    let mut seat = new_seat(rt, shared)?;
    let outs = collect_both(rt, alloc, shared, &mut seat);
    drop(seat);
    outs
}

// The same, of a new shared core.
fn outs_of_seat<L: Ledger, W: Wait + Clock>(rt: &W, alloc: Global, blank: Blank) -> Option<Vec<Out>>
    requires name { blank.name ≡ L.name }
    requires parts { blank.parts ≡ L.parts }
    requires all { blank.parts ≡ 65536 }
{
    let shared: Shared<L> = share(started_core(alloc), blank)?;
    let outs = outs_of_new_seat(rt, alloc, &shared);
    drop(shared);
    outs
}

fn is_same(one: &Out, other: &Out) -> bool {
    match (one, other) {
        (Out::Install(one, first), Out::Install(other, second)) => one == other && first == second,
        (Out::Remove(one), Out::Remove(other)) => one == other,
        (Out::Frame(one), Out::Frame(other)) => one.as_slice() == other.as_slice(),
        (Out::Text(tag, one), Out::Text(same, other)) => tag == same
            && one.as_slice() == other.as_slice(),
        _ => false,
    }
}

// How many outs these are, if they are the same.
fn same(one: Option<Vec<Out>>, other: Option<Vec<Out>>) -> Option<usize> {
    let (one, other) = one.zip(other)?;
    let count = count_same(&one, &other);
    drop(one);
    drop(other);
    count
}

fn count_same(one: &[Out], other: &[Out]) -> Option<usize> {
    are_same(one, other).then_some(one.len())
}

fn are_same(one: &[Out], other: &[Out]) -> bool {
    for (one, other) in one.iter().zip(other) {
        if !is_same(one, other) {
            return false;
        }
    }
    one.len() == other.len()
}

#[test]
fn what_is_collected_is_what_a_core_hands_out(rt: HostRuntime) {
    let alloc = rt.alloc();
    let collected = outs_of_seat::<Brand, _>(&rt, alloc, Blank::new(65_536));
    expect(&rt, same(collected, outs_of_core(alloc)), Some(3));
}
