// A commit that is refused memory. Where memory is ample nothing is refused; by hand each allocation is refused in turn.
ghost use Rattle.std.specs.Prelude.{◌≡◌};

use crate::common::{asked_core, commit, finds_station, memory_flusher, new_seat, share, stop};
use crate::expect::expect;
use apd_core::Core;
use apd_desk::{NoGate, Seat, Shared};
use apd_disk::MemDisk;
use apd_flusher::Flusher;
use std::alloc::Global;
use std::marker::Brand;
use std::sync::Wait;
use std::sync::ledger::{Blank, Ledger};
use std::time::Clock;

// A core at which a station associates, which is not settled.
fn unsettled_core(alloc: Global) -> Option<Core> {
    match asked_core(alloc) {
        Some(core) => Some(core),
        None => asked_core(alloc),
    }
}

fn new_flusher(alloc: Global) -> Option<Flusher<MemDisk>> {
    match memory_flusher(alloc) {
        Some(flusher) => Some(flusher),
        None => memory_flusher(alloc),
    }
}

fn finds_station_at_last<L: Ledger, W: Wait>(
    rt: &W,
    shared: &Shared<L>,
    seat: &mut Seat<L>,
) -> bool {
    finds_station(rt, shared, seat) || finds_station(rt, shared, seat)
}

// Whether the station is there, as a new seat is told.
fn tells<L: Ledger, W: Wait>(rt: &W, shared: &Shared<L>) -> Option<bool> {
    let mut seat = new_seat(rt, shared)?;
    let told = finds_station_at_last(rt, shared, &mut seat);
    drop(seat);
    Some(told)
}

// Whether the station is there after the commit.
fn commits<L: Ledger, W: Wait + Clock>(rt: &W, alloc: Global, shared: &Shared<L>) -> Option<bool> {
    stop(rt, shared);
    commit(rt, shared, new_flusher(alloc)?, &NoGate);
    tells(rt, shared)
}

fn commits_shared<L: Ledger, W: Wait + Clock>(rt: &W, alloc: Global, blank: Blank) -> Option<bool>
    requires name { blank.name ≡ L.name }
    requires parts { blank.parts ≡ L.parts }
    requires all { blank.parts ≡ 65536 }
{
    let shared: Shared<L> = share(unsettled_core(alloc), blank)?;
    let committed = commits(rt, alloc, &shared);
    drop(shared);
    committed
}

#[test]
fn a_commit_that_is_refused_memory_is_tried_again(rt: HostRuntime) {
    let committed = commits_shared::<Brand, _>(&rt, rt.alloc(), Blank::new(65_536));
    expect(&rt, committed, Some(true));
}
