// A device that fails: the worker that commits ends by itself, requests are stopped, and every seat comes back.
ghost use Rattle.std.specs.Prelude.{◌≡◌};

use crate::common::{
    Host, Still, WLAN0, authentication, blank_disk, close, commit, flusher, new_seat, serve_alone,
    serve_port, serve_ticks, share, started_core, stop,
};
use crate::expect::expect;
use apd_base::Moment;
use apd_core::{Accepted, Input};
use apd_desk::{Gate, NoGate, Place, Port, PortFault, Seat, Shared, flush_worker};
use apd_disk::{Disk, FuseDisk, MemDisk};
use apd_flusher::{Flusher, Phase};
use apd_radio::Sim;
use std::alloc::Global;
use std::marker::Brand;
use std::net::Net;
use std::sync::Wait;
use std::sync::atomic::{AtomicU64, Ordering};
use std::sync::ledger::{Blank, Ledger};
use std::thread::join;
use std::time::Clock;

/// How many calls of the device a new store takes.
const FORMAT: u64 = 7;

/// A port at which nobody asks.
#[derive(Drop)]
struct Silent;

impl Port for Silent {
    fn poll(&mut self) -> Result<Option<(u64, Vec<u8>)>, PortFault> {
        Ok(None)
    }

    fn reply(&mut self, _tag: u64, _text: &[u8]) -> Result<(), PortFault> {
        Ok(())
    }
}

fn finds_stopped<L: Ledger, W: Wait>(rt: &W, shared: &Shared<L>, seat: &mut Seat<L>) -> bool {
    let frame = authentication(0);
    let answer = shared.submit(rt, seat, Input::Received(WLAN0, &frame), Moment(0));
    matches!(answer, Ok(Accepted::Stopped))
}

// Commits until the device fails. Whether it has failed then.
fn commit_until_failed<L: Ledger, W: Wait + Clock, D: Disk + Drop>(
    rt: &W,
    shared: &Shared<L>,
    flusher: Flusher<D>,
) -> bool {
    let flusher = flush_worker(rt, shared, flusher, &NoGate);
    let has_failed = flusher.phase() == Phase::Failed;
    drop(flusher);
    has_failed
}

// Commits until the device fails, asks for one entry more, and tells all to stop. Gives the seat where that entry was
// refused.
fn commit_to_the_fault<L: Ledger, W: Wait + Clock, D: Disk + Drop>(
    rt: &W,
    shared: &Shared<L>,
    flusher: Flusher<D>,
) -> Option<Seat<L>> {
    let has_failed = commit_until_failed(rt, shared, flusher);
    let seat = stopped_seat(rt, shared);
    stop(rt, shared);
    has_failed.then_some(seat?)
}

fn stopped_seat<L: Ledger, W: Wait>(rt: &W, shared: &Shared<L>) -> Option<Seat<L>> {
    let mut seat = new_seat(rt, shared)?;
    finds_stopped(rt, shared, &mut seat).then_some(seat)
}

fn serve_sim<L: Ledger, W: Wait + Clock + Net>(
    rt: &W,
    alloc: Global,
    shared: &Shared<L>,
) -> Option<Seat<L>> {
    let seat = new_seat(rt, shared)?;
    Some(serve_alone(rt, alloc, shared, seat, Sim::new(alloc), &Still, &NoGate))
}

fn serve_commands<L: Ledger, W: Wait + Clock + Net>(
    rt: &W,
    alloc: Global,
    shared: &Shared<L>,
) -> Option<Seat<L>> {
    let seat = new_seat(rt, shared)?;
    let (seat, port) = serve_port(rt, alloc, shared, seat, Silent, &NoGate);
    drop(port);
    Some(seat)
}

// Both in one list.
fn list_of_both<X: Drop>(one: Option<Vec<X>>, other: Option<X>) -> Option<Vec<X>> {
    let (mut all, other) = one.zip(other)?;
    all.push(other).is_ok().then_some(all)
}

fn serve_both<L: Ledger + Send + Sync, W: Host>(
    rt: &W,
    alloc: Global,
    shared: &Shared<L>,
) -> Option<Vec<Seat<L>>> {
    let (one, other) = join(
        rt,
        move || serve_commands(rt, alloc, shared),
        move || serve_ticks(rt, shared),
    );
    list_of_both(list_of_both(Some(Vec::new(alloc)), one), other)
}

fn serve_all<L: Ledger + Send + Sync, W: Host>(
    rt: &W,
    alloc: Global,
    shared: &Shared<L>,
) -> Option<Vec<Seat<L>>> {
    let (one, others) = join(
        rt,
        move || serve_sim(rt, alloc, shared),
        move || serve_both(rt, alloc, shared),
    );
    list_of_both(others, one)
}

// The seats of all workers, and of one that was refused, once the device has failed.
fn work_to_the_fault<L: Ledger + Send + Sync, W: Host>(
    rt: &W,
    alloc: Global,
    shared: &Shared<L>,
    flusher: Flusher<FuseDisk<MemDisk>>,
) -> Option<Vec<Seat<L>>> {
    let (one, others) = join(
        rt,
        move || commit_to_the_fault(rt, shared, flusher),
        move || serve_all(rt, alloc, shared),
    );
    list_of_both(others, one)
}

// The same of a device that fails after as many calls.
fn fail<L: Ledger + Send + Sync, W: Host>(
    rt: &W,
    alloc: Global,
    shared: &Shared<L>,
    calls: u64,
) -> Option<Vec<Seat<L>>> {
    work_to_the_fault(rt, alloc, shared, failing_flusher(alloc, calls)?)
}

// How many seats come back, and how many entries there were, where the device fails after as many calls.
fn fails<L: Ledger + Send + Sync, W: Host>(
    rt: &W,
    alloc: Global,
    calls: u64,
    blank: Blank,
) -> Option<(usize, u64)>
    requires name { blank.name ≡ L.name }
    requires parts { blank.parts ≡ L.parts }
    requires all { blank.parts ≡ 65536 }
{
    let shared: Shared<L> = share(started_core(alloc), blank)?;
    let seats = fail(rt, alloc, &shared, calls);
    close_and_count(shared, seats)
}

fn close_and_count<L: Ledger>(
    shared: Shared<L>,
    seats: Option<Vec<Seat<L>>>,
) -> Option<(usize, u64)>
    requires { L.parts ≡ 65536 }
{
    let (shared, seats) = Some(shared).zip(seats)?;
    let back = seats.len();
    let (core, number) = close(shared, seats)?;
    drop(core);
    Some((back, number))
}

fn failing_flusher(alloc: Global, calls: u64) -> Option<Flusher<FuseDisk<MemDisk>>> {
    let disk = FuseDisk::new(blank_disk(alloc)?, FORMAT.saturating_add(calls));
    flusher(alloc, disk)
}

#[test]
fn each_worker_gives_its_seat_back_where_a_device_fails(rt: HostRuntime) {
    for calls in 0..4 {
        let closed = fails::<Brand, _>(&rt, rt.alloc(), calls, Blank::new(65_536));
        expect(&rt, (calls, closed), (calls, Some((4, 0))));
    }
}

/// A gate at which an entry is asked for behind each turn of the flusher.
#[derive(Drop)]
struct Asking<'a, L: Ledger, W> {
    rt: &'a W,
    shared: &'a Shared<L>,
    // How often it was told as stopped.
    stopped: AtomicU64,
}

impl<L: Ledger, W: Wait> Asking<'_, L, W> {
    fn ask(&self) {
        if let Some(seat) = stopped_seat(self.rt, self.shared) {
            drop(seat);
            self.stopped.fetch_add(1, Ordering::SeqCst);
        }
    }
}

impl<L: Ledger, W: Wait> Gate for Asking<'_, L, W> {
    fn pass(&self, at: Place) {
        if at == Place::AfterCall {
            self.ask();
        }
    }
}

// How many requests are stopped at the gate behind the call at which a device fails.
fn stops_at_the_gate<L: Ledger, W: Wait + Clock>(
    rt: &W,
    alloc: Global,
    shared: &Shared<L>,
) -> Option<u64> {
    let gate = Asking {
        rt,
        shared,
        stopped: AtomicU64::new(0),
    };
    commit(rt, shared, failing_flusher(alloc, 0)?, &gate);
    Some(gate.stopped.load(Ordering::SeqCst))
}

// The same, of a new shared core.
fn stops<L: Ledger, W: Wait + Clock>(rt: &W, alloc: Global, blank: Blank) -> Option<u64>
    requires name { blank.name ≡ L.name }
    requires parts { blank.parts ≡ L.parts }
    requires all { blank.parts ≡ 65536 }
{
    let shared: Shared<L> = share(started_core(alloc), blank)?;
    let stopped = stops_at_the_gate(rt, alloc, &shared);
    drop(shared);
    stopped
}

#[test]
fn nothing_is_accepted_behind_the_fault(rt: HostRuntime) {
    let stopped = stops::<Brand, _>(&rt, rt.alloc(), Blank::new(65_536));
    expect(&rt, stopped, Some(1));
}
