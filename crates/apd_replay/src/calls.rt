//! Calls of the access point whose clauses are long: each in a function without a clause, since none is needed here.
use apd_base::{Bssid, Moment};
use apd_conf::Confs;
use apd_core::Core;
use apd_desk::{
    Clock, Gate, Port, Seat, Shared, commit_all, control_worker, mend_first, radio_worker, tend,
    tick_worker,
};
use apd_disk::{Disk, MemDisk};
use apd_flusher::{Committer, Flusher};
use apd_radio::Radio;
use apd_slot::{Mending, Slot};
use apd_store::{format, recover};
use apd_table::Table;
use apd_world::{Commit, Step, Told, World, drive, restart};
use std::alloc::Global;
use std::net::Net;
use std::sync::Wait;
use std::sync::ledger::Ledger;
use std::time;

/// A device of a new store.
pub(crate) fn format_disk(alloc: Global, disk: MemDisk) -> Option<MemDisk> {
    Some(format(alloc, disk).ok()?.into_device())
}

/// The table that a recovery finds.
pub(crate) fn recover_table(alloc: Global, disk: MemDisk) -> Option<Table> {
    match recover(alloc, disk) {
        Ok((_store, table)) => Some(table),
        Err((_disk, _fault)) => None,
    }
}

/// The world of a store.
pub(crate) fn restart_world<D: Disk + Drop, R: Radio>(
    alloc: Global,
    disk: D,
    confs: Confs,
    slots: Vec<Slot<R>>,
) -> Option<World<D, R>> {
    restart(alloc, disk, confs, slots, Moment(0)).ok()
}

/// Starts a world. Tells whether that succeeds.
pub(crate) fn start_world<D: Disk, R: Radio>(world: &mut World<D, R>) -> bool {
    world.start().is_ok()
}

/// Takes a world apart.
pub(crate) fn take_apart<D: Disk, R: Radio>(
    world: World<D, R>,
) -> (Flusher<D>, Core, Vec<Slot<R>>) {
    world.into_parts()
}

/// Makes a list of one step, and tells what that told; none where memory lacks.
pub(crate) fn make_step<D: Disk, R: Radio>(
    world: &mut World<D, R>,
    step: Step<'_>,
) -> Option<Told> {
    drive(world, &[step]).ok()?.pop()
}

/// Commits a batch.
pub(crate) fn commit_batch<D: Disk, R: Radio>(world: &mut World<D, R>) -> Commit {
    world.commit()
}

/// Begins to mend the slot of a BSSID.
pub(crate) fn begin_mending<D: Disk, R: Radio>(
    world: &mut World<D, R>,
    bssid: Bssid,
    mending: &mut Mending<R>,
) {
    world.begin_mending(bssid, mending);
}

/// Goes on mending it. Tells whether a try was left.
pub(crate) fn go_on_mending<D: Disk, R: Radio>(
    world: &mut World<D, R>,
    bssid: Bssid,
    mending: &mut Mending<R>,
) -> bool {
    world.mend(bssid, mending)
}

/// Begins to mend a slot that is down at first.
pub(crate) fn mend_slot_first<R: Radio>(slot: &mut Slot<R>, mending: &mut Mending<R>) {
    mend_first(slot, mending);
}

/// Goes on mending a slot, and applies the first out that waits.
pub(crate) fn tend_slot<R: Radio>(slot: &mut Slot<R>, mending: &mut Mending<R>) {
    let _progress = tend(slot, mending);
}

/// Hands to a slot what is settled. Tells whether memory was there.
pub(crate) fn hand_to_slot<L: Ledger, W: Wait, R: Radio>(
    rt: &W,
    shared: &Shared<L>,
    seat: &mut Seat<L>,
    slot: &mut Slot<R>,
) -> bool {
    shared.hand_to(rt, seat, slot).is_ok()
}

/// Commits until a stop or a fault.
pub(crate) fn commit<L: Ledger, W: Wait + time::Clock, D: Disk, G: Gate>(
    rt: &W,
    shared: &Shared<L>,
    committer: &mut Committer<D>,
    gate: &G,
) {
    let _ending = commit_all(rt, shared, committer, gate);
}

/// Serves a radio until a stop.
pub(crate) fn serve_radio<L: Ledger, W: Wait + time::Clock + Net, R: Radio, C: Clock, G: Gate>(
    rt: &W,
    alloc: Global,
    shared: &Shared<L>,
    seat: Seat<L>,
    slot: Slot<R>,
    clock: &C,
    spares: Vec<R>,
    gate: &G,
) -> (Seat<L>, Slot<R>) {
    radio_worker(rt, alloc, shared, seat, slot, clock, spares, gate)
}

/// Serves a port until a stop.
pub(crate) fn serve_port<L: Ledger, W: Wait + time::Clock + Net, P: Port, C: Clock, G: Gate>(
    rt: &W,
    alloc: Global,
    shared: &Shared<L>,
    seat: Seat<L>,
    port: P,
    clock: &C,
    gate: &G,
) -> (Seat<L>, P) {
    control_worker(rt, alloc, shared, seat, port, clock, gate)
}

/// Submits ticks until a stop.
pub(crate) fn submit_ticks<L: Ledger, W: Wait + time::Clock, C: Clock, G: Gate>(
    rt: &W,
    shared: &Shared<L>,
    seat: Seat<L>,
    clock: &C,
    gate: &G,
) -> Seat<L> {
    tick_worker(rt, shared, seat, clock, gate)
}
