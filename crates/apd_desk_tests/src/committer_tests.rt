// What a committer holds when the commits begin, and what waits in it when they end.
ghost use Rattle.std.specs.Prelude.{◌≡◌};

use crate::common::{
    asked_core, finds_station, memory_flusher, new_seat, share, started_core, stop,
};
use crate::expect::expect;
use apd_core::Core;
use apd_desk::{NoGate, Shared, commit_all};
use apd_disk::{Disk, MemDisk};
use apd_flusher::Committer;
use std::alloc::Global;
use std::marker::Brand;
use std::sync::Wait;
use std::sync::ledger::{Blank, Ledger};
use std::time::Clock;

// A committer over a new store that has the batch of a core under way.
fn busy_committer(alloc: Global, core: &mut Core) -> Option<Committer<MemDisk>> {
    let (flusher, batch) = memory_flusher(alloc).zip(core.take().ok())?;
    let mut committer = Committer::new(flusher);
    let loads = matches!(committer.load(batch), Some(Ok(())));
    loads.then_some(committer)
}

// Commits until a stop, without the clauses of that.
fn work<L: Ledger, W: Wait + Clock, D: Disk>(
    rt: &W,
    shared: &Shared<L>,
    committer: &mut Committer<D>,
) {
    let _ending = commit_all(rt, shared, committer, &NoGate);
}

// Whether a station is there, as a new seat is told.
fn tells<L: Ledger, W: Wait>(rt: &W, shared: &Shared<L>) -> Option<bool> {
    let mut seat = new_seat(rt, shared)?;
    let told = finds_station(rt, shared, &mut seat);
    drop(seat);
    Some(told)
}

// Whether a station is there once the committer, where there is one, has ended.
fn tells_once_settled<L: Ledger, W: Wait + Clock>(
    rt: &W,
    shared: &Shared<L>,
    committer: Option<Committer<MemDisk>>,
) -> Option<bool> {
    let mut committer = committer?;
    stop(rt, shared);
    work(rt, shared, &mut committer);
    drop(committer);
    tells(rt, shared)
}

// Whether a station is there, of whose association a committer held the batch.
fn settles_held_batch<L: Ledger, W: Wait + Clock>(
    rt: &W,
    alloc: Global,
    blank: Blank,
) -> Option<bool>
    requires name { blank.name ≡ L.name }
    requires parts { blank.parts ≡ L.parts }
    requires all { blank.parts ≡ 65536 }
{
    let mut core = asked_core(alloc)?;
    let committer = busy_committer(alloc, &mut core);
    let shared: Shared<L> = Shared::new(core, blank);
    let told = tells_once_settled(rt, &shared, committer);
    drop(shared);
    told
}

#[test]
fn a_batch_that_a_committer_held_is_settled(rt: HostRuntime) {
    let settled = settles_held_batch::<Brand, _>(&rt, rt.alloc(), Blank::new(65_536));
    expect(&rt, settled, Some(true));
}

// A committer that has the batch of another core under way.
fn committer_of_another(alloc: Global) -> Option<Committer<MemDisk>> {
    let mut other = started_core(alloc)?;
    let committer = busy_committer(alloc, &mut other);
    drop(other);
    committer
}

fn receipt_waits<D: Disk + Drop>(committer: Committer<D>) -> bool {
    let (flusher, batch, receipt) = committer.into_parts();
    drop(flusher);
    drop(batch);
    let waits = receipt.is_some();
    drop(receipt);
    waits
}

// Whether the receipt of another core's batch waits in the committer when the commits have ended.
fn waits_behind<L: Ledger, W: Wait + Clock>(
    rt: &W,
    alloc: Global,
    shared: &Shared<L>,
) -> Option<bool> {
    let mut committer = committer_of_another(alloc)?;
    work(rt, shared, &mut committer);
    Some(receipt_waits(committer))
}

// The same, of a new shared core.
fn waits<L: Ledger, W: Wait + Clock>(rt: &W, alloc: Global, blank: Blank) -> Option<bool>
    requires name { blank.name ≡ L.name }
    requires parts { blank.parts ≡ L.parts }
    requires all { blank.parts ≡ 65536 }
{
    let shared: Shared<L> = share(started_core(alloc), blank)?;
    let waits = waits_behind(rt, alloc, &shared);
    drop(shared);
    waits
}

#[test]
fn a_receipt_that_is_refused_waits_in_the_committer(rt: HostRuntime) {
    let waits = waits::<Brand, _>(&rt, rt.alloc(), Blank::new(65_536));
    expect(&rt, waits, Some(true));
}
