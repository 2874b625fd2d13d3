// Requests are accepted while a sync is under way.
ghost use Rattle.std.specs.Prelude.{◌≡◌};

use crate::common::{Host, blank_disk, commit, flusher, new_seat, share, started_core};
use crate::expect::expect;
use crate::hold::{HoldDisk, Turnstile};
use crate::operator::{Operator, are, serve_operator};
use apd_desk::{Seat, Shared};
use apd_disk::MemDisk;
use apd_flusher::Flusher;
use std::alloc::Global;
use std::marker::Brand;
use std::net::Net;
use std::sync::Wait;
use std::sync::ledger::{Blank, Ledger};
use std::thread::join;
use std::time::Clock;

const ORDERS: &[&[u8]] = &[
    b"DENY_ACL ADD_MAC 02:00:00:00:00:aa",
    b"DENY_ACL ADD_MAC 02:00:00:00:00:bb",
];

const REPLIES: &[&[u8]] = &[b"OK\n", b"OK\n"];

// Serves two orders that are given once the sync is held. Whether both are replied to.
fn serve<L: Ledger, W: Wait + Clock + Net>(
    rt: &W,
    alloc: Global,
    shared: &Shared<L>,
    seat: Seat<L>,
    turnstile: &Turnstile,
) -> bool {
    let operator = Operator::new(rt, alloc, shared, Some(turnstile), ORDERS);
    let replies = serve_operator(rt, alloc, shared, seat, operator, turnstile);
    let agree = are(replies.as_slice(), REPLIES);
    drop(replies);
    agree
}

// Commits and serves at once. Whether both orders are replied to.
fn commit_and_serve<L: Ledger + Send + Sync, W: Host>(
    rt: &W,
    alloc: Global,
    shared: &Shared<L>,
    seat: Seat<L>,
    flusher: Flusher<HoldDisk<'_, MemDisk>>,
    turnstile: &Turnstile,
) -> bool {
    join(
        rt,
        move || commit(rt, shared, flusher, turnstile),
        move || serve(rt, alloc, shared, seat, turnstile),
    )
    .1
}

fn holding_flusher(alloc: Global, turnstile: &Turnstile) -> Option<Flusher<HoldDisk<'_, MemDisk>>> {
    flusher(alloc, HoldDisk::new(blank_disk(alloc)?, turnstile))
}

// The same, of a new seat and a new flusher.
fn replies_meanwhile<L: Ledger + Send + Sync, W: Host>(
    rt: &W,
    alloc: Global,
    shared: &Shared<L>,
    turnstile: &Turnstile,
) -> Option<bool> {
    let (seat, flusher) = new_seat(rt, shared).zip(holding_flusher(alloc, turnstile))?;
    turnstile.arm();
    Some(commit_and_serve(rt, alloc, shared, seat, flusher, turnstile))
}

// Whether the sync was held until two orders were accepted, and whether both were replied to.
fn holds<L: Ledger + Send + Sync, W: Host>(
    rt: &W,
    alloc: Global,
    shared: &Shared<L>,
) -> (bool, Option<bool>) {
    let turnstile = Turnstile::new();
    let replied = replies_meanwhile(rt, alloc, shared, &turnstile);
    (turnstile.is_through(), replied)
}

// The same, of a new shared core.
fn accepts_while_held<L: Ledger + Send + Sync, W: Host>(
    rt: &W,
    alloc: Global,
    blank: Blank,
) -> Option<(bool, Option<bool>)>
    requires name { blank.name ≡ L.name }
    requires parts { blank.parts ≡ L.parts }
    requires all { blank.parts ≡ 65536 }
{
    let shared: Shared<L> = share(started_core(alloc), blank)?;
    let held = holds(rt, alloc, &shared);
    drop(shared);
    Some(held)
}

#[test]
fn sync_while_accepting(rt: HostRuntime) {
    let held = accepts_while_held::<Brand, _>(&rt, rt.alloc(), Blank::new(65_536));
    expect(&rt, held, Some((true, Some(true))));
}
