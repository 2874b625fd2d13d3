//! What is left of a run once its threads have ended: it is committed and handed out, as a serve does, and kept.
use crate::calls::{commit, hand_to_slot, mend_slot_first, tend_slot};
use crate::device::{Device, disk_of};
use crate::fault::Fault;
use crate::frames::{FIRST_STATION, STATIONS};
use crate::gate::NotedGate;
use crate::plan::station;
use crate::working::{PortPart, RadioPart, Worker};
use apd_desk::{Port, Seat, Shared};
use apd_disk::MemDisk;
use apd_flusher::Committer;
use apd_mlme::{Out, Recipient};
use apd_radio::Radio;
use apd_slot::{Mending, Slot};
use std::alloc::{AllocError, Global};
use std::sync::Wait;
use std::sync::ledger::Ledger;
use std::time::Clock;

/// How often what waits at a slot is looked at, at most.
const TURNS: u32 = 100_000;

/// Under which identifier a slot wants a station, and under which its radio has it.
pub(crate) type Held = (Option<u16>, Option<u16>);

/// How far the worker of a radio had come when it ended: the last settled entry whose outs it applied, how many notes
/// there were, whether its slot was up, and whether it was noted to be.
#[derive(Clone, Copy)]
pub(crate) struct Mark {
    pub(crate) seen: u64,
    pub(crate) notes: usize,
    pub(crate) up: bool,
    pub(crate) noted: bool,
}

/// A slot at the end.
#[derive(Drop)]
pub(crate) struct SlotEnd {
    pub(crate) mark: Mark,
    pub(crate) up: bool,
    pub(crate) stations: Vec<Held>,
}

/// What a run leaves.
#[derive(Drop)]
pub(crate) struct Left<L: Ledger> {
    pub(crate) seats: Vec<Seat<L>>,
    pub(crate) slots: Vec<SlotEnd>,
    pub(crate) disk: Option<MemDisk>,
}

impl<L: Ledger> Left<L> {
    /// Nothing yet.
    pub(crate) fn new(alloc: Global) -> Left<L> {
        Left {
            seats: Vec::new(alloc),
            slots: Vec::new(alloc),
            disk: None,
        }
    }

    fn add_seat(&mut self, seat: Seat<L>) -> Result<(), AllocError> {
        Ok(self.seats.push(seat)?)
    }

    // Adds a slot, and the seat of its worker.
    fn add_slot(&mut self, end: SlotEnd, seat: Seat<L>) -> Result<(), AllocError> {
        self.slots.push(end)?;
        self.add_seat(seat)
    }

    // Adds the seats of the worker of the port: its own, and the port's.
    fn add_both(&mut self, own: Seat<L>, of_port: Seat<L>) -> Result<(), AllocError> {
        self.add_seat(own)?;
        self.add_seat(of_port)
    }
}

/// What a slot has of each station.
pub(crate) fn held_by<R: Radio>(alloc: Global, slot: &Slot<R>) -> Result<Vec<Held>, AllocError> {
    let mut held = Vec::new(alloc);
    for place in 0..STATIONS {
        let addr = station(FIRST_STATION.wrapping_add(place));
        held.push((slot.wanted(addr), slot.installed(addr)))?;
    }
    Ok(held)
}

// Gives a slot what waits there.
fn empty<R: Radio>(slot: &mut Slot<R>, mending: &mut Mending<R>) {
    for _turn in 0..TURNS {
        if slot.waiting_count() == 0 {
            return;
        }
        tend_slot(slot, mending);
    }
}

// Hands out once more what was settled.
fn hand_out<L: Ledger, W: Wait, R: Radio>(
    rt: &W,
    alloc: Global,
    shared: &Shared<L>,
    seat: &mut Seat<L>,
    slot: &mut Slot<R>,
) {
    let mut mending = Mending::new(Vec::new(alloc));
    mend_slot_first(slot, &mut mending);
    let _handed = hand_to_slot(rt, shared, seat, slot);
    empty(slot, &mut mending);
    drop(mending);
}

// How far the worker of a radio had come, whose log had so many notes.
fn mark_of<L: Ledger, W: Wait, R: Radio>(
    rt: &W,
    shared: &Shared<L>,
    seat: &Seat<L>,
    slot: &Slot<R>,
    notes: usize,
) -> Mark {
    Mark {
        seen: seat.seen_number(),
        notes,
        up: slot.is_up(),
        noted: shared.is_noted_up(rt, slot.bssid()),
    }
}

// Hands out to a slot, and tells what becomes of it.
fn slot_end<L: Ledger, W: Wait, R: Radio>(
    rt: &W,
    alloc: Global,
    shared: &Shared<L>,
    seat: &mut Seat<L>,
    slot: Slot<R>,
    notes: usize,
) -> Result<SlotEnd, AllocError> {
    let mut slot = slot;
    let mark = mark_of(rt, shared, seat, &slot, notes);
    hand_out(rt, alloc, shared, seat, &mut slot);
    let up = slot.is_up();
    let held = held_by(alloc, &slot);
    drop(slot);
    Ok(SlotEnd {
        mark,
        up,
        stations: held?,
    })
}

fn radio_end<L: Ledger, W: Wait>(
    rt: &W,
    alloc: Global,
    shared: &Shared<L>,
    part: RadioPart<'_, L, W>,
    left: &mut Left<L>,
) -> Result<(), AllocError> {
    let RadioPart {
        mut seat,
        slot,
        spares,
        clock,
        gate,
    } = part;
    let notes = gate.lane.log.count(rt);
    drop(spares);
    drop(clock);
    drop(gate);
    match slot_end(rt, alloc, shared, &mut seat, slot, notes) {
        Ok(end) => left.add_slot(end, seat),
        Err(error) => {
            drop(seat);
            Err(error)
        }
    }
}

fn reply_all<P: Port>(port: &mut P, outs: &[Out]) {
    for out in outs {
        if let Out::Text(tag, text) = out {
            let _sent = port.reply(*tag, text.as_slice());
        }
    }
}

// Replies what was settled.
fn reply_settled<L: Ledger, W: Wait, P: Port>(
    rt: &W,
    shared: &Shared<L>,
    seat: &mut Seat<L>,
    port: &mut P,
) -> Result<(), AllocError> {
    let outs = shared.collect(rt, seat, Recipient::Control)?;
    reply_all(port, outs.as_slice());
    Ok(())
}

fn control_end<L: Ledger, W: Wait>(
    rt: &W,
    shared: &Shared<L>,
    part: PortPart<'_, L, W>,
    left: &mut Left<L>,
) -> Result<(), AllocError> {
    let PortPart {
        mut seat,
        mut port,
        clock,
        gate,
    } = part;
    drop(clock);
    drop(gate);
    match reply_settled(rt, shared, &mut seat, &mut port) {
        Ok(()) => left.add_both(seat, port.into_seat()),
        Err(error) => {
            drop(seat);
            drop(port);
            Err(error)
        }
    }
}

// What the device of the worker that commits holds, once what waits is committed.
fn commit_end<L: Ledger, W: Wait + Clock>(
    rt: &W,
    shared: &Shared<L>,
    committer: Committer<Device<'_, W>>,
    gate: NotedGate<'_, L, W>,
) -> MemDisk {
    let mut committer = committer;
    commit(rt, shared, &mut committer, &gate);
    drop(gate);
    let (flusher, batch, receipt) = committer.into_parts();
    drop(batch);
    drop(receipt);
    disk_of(flusher.into_device())
}

/// What a worker leaves: what waits is committed, or handed out once more.
fn end<L: Ledger, W: Wait + Clock>(
    rt: &W,
    alloc: Global,
    shared: &Shared<L>,
    worker: Worker<'_, L, W>,
    left: &mut Left<L>,
) -> Result<(), AllocError> {
    match worker {
        Worker::Committing(committer, gate) => {
            left.disk = Some(commit_end(rt, shared, committer, gate));
            Ok(())
        }
        Worker::Radio(part) => radio_end(rt, alloc, shared, part, left),
        Worker::Control(part) => control_end(rt, shared, part, left),
        Worker::Ticks(seat, clock, gate) => {
            drop(clock);
            drop(gate);
            left.add_seat(seat)
        }
    }
}

// Adds what the workers leave.
fn end_each<L: Ledger, W: Wait + Clock>(
    rt: &W,
    alloc: Global,
    shared: &Shared<L>,
    workers: Vec<Worker<'_, L, W>>,
    left: &mut Left<L>,
) -> Result<(), AllocError> {
    for worker in workers {
        end(rt, alloc, shared, worker, left)?;
    }
    Ok(())
}

/// What the workers leave, in order: the first of them commits.
pub(crate) fn end_all<L: Ledger, W: Wait + Clock>(
    rt: &W,
    alloc: Global,
    shared: &Shared<L>,
    workers: Vec<Worker<'_, L, W>>,
) -> Result<Left<L>, Fault> {
    let mut left = Left::new(alloc);
    match end_each(rt, alloc, shared, workers, &mut left) {
        Ok(()) => Ok(left),
        Err(error) => {
            drop(left);
            Err(error.into())
        }
    }
}
