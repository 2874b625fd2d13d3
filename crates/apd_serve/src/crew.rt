//! A crew: the workers round one core, from the first to the last.
ghost use Rattle.std.specs.Prelude.{◌≡◌, ◌+◌, [], IfOk, OnOk};
ghost use Rattle.apd_desk.specs.Counted.{entries_of_seats};
ghost use Rattle.apd_serve.specs.Entries.{entries_of_all, entries_of_seat};

use crate::environment::{Desk, Environment};
use crate::fault::ServeFault;
use crate::host::Host;
use crate::started::StartedWorld;
use crate::threads::work_until_end;
use crate::worker::Worker;
use apd_desk::{Clock, Gate, Port, SEATS, Seat, Shared};
use apd_disk::Disk;
use apd_flusher::Committer;
use apd_radio::Radio;
use apd_slot::Slot;
use log::Log;
use std::alloc::AllocError;
use std::io::Read;
use std::net::Net;
use std::sync::Wait;
use std::sync::ledger::{Blank, Ledger};
use std::time;

/// The workers round a shared core, with room for their seats.
#[derive(Drop)]
pub(crate) struct Crew<'a, L: Ledger, W, C, G, D: Disk + Drop, R: Radio, P: Port + Drop> {
    desk: Desk<'a, L, W, C, G>,
    workers: Vec<Worker<L, D, R, P>>,
    seats: Vec<Seat<L>>,
    ghost none: { seats.items ≡ [] },
}

// A seat for one more worker.
fn take_seat<L: Ledger, W: Wait, C, G>(desk: &Desk<'_, L, W, C, G>) -> Result<Seat<L>, ServeFault> {
    desk.shared
        .seat(desk.environment.rt)
        .ok_or(ServeFault::Thread)
}

fn add<L: Ledger, D: Disk + Drop, R: Radio, P: Port + Drop>(
    workers: &mut Vec<Worker<L, D, R, P>>,
    worker: Worker<L, D, R, P>,
) -> Result<(), AllocError> {
    workers.push(worker)?;
    Ok(())
}

// Adds a worker for each radio. Whether its slot is up is noted.
fn add_radios<L: Ledger, W: Wait, C, G, D: Disk + Drop, R: Radio, P: Port + Drop>(
    desk: &Desk<'_, L, W, C, G>,
    slots: Vec<Slot<R>>,
    workers: &mut Vec<Worker<L, D, R, P>>,
) -> Result<(), ServeFault> {
    for slot in slots {
        let seat = take_seat(desk)?;
        desk.shared
            .note(desk.environment.rt, slot.bssid(), slot.is_up());
        add(workers, Worker::Radio(seat, slot))?;
    }
    Ok(())
}

// Adds the worker of the control port, and that of ticks.
fn add_others<L: Ledger, W: Wait, C, G, D: Disk + Drop, R: Radio, P: Port + Drop>(
    desk: &Desk<'_, L, W, C, G>,
    port: P,
    workers: &mut Vec<Worker<L, D, R, P>>,
) -> Result<(), ServeFault> {
    let control = take_seat(desk)?;
    add(workers, Worker::Control(control, port))?;
    let ticks = take_seat(desk)?;
    add(workers, Worker::Ticks(ticks))?;
    Ok(())
}

// The workers: one that commits, one for each radio, one for the control port and one for ticks.
//
// Errors: `Thread` where there are more than seats; `NoMemory`.
fn workers_of<L: Ledger, W: Wait, C, G, D: Disk + Drop, R: Radio, P: Port + Drop>(
    desk: &Desk<'_, L, W, C, G>,
    committer: Committer<D>,
    slots: Vec<Slot<R>>,
    port: P,
) -> Result<Vec<Worker<L, D, R, P>>, ServeFault> {
    let mut workers = Vec::new(desk.environment.alloc);
    add(&mut workers, Worker::Committing(committer))?;
    add_radios(desk, slots, &mut workers)?;
    add_others(desk, port, &mut workers)?;
    Ok(workers)
}

// Keeps a seat, if there is one.
fn keep<L: Ledger>(seats: &mut Vec<Seat<L>>, seat: Option<Seat<L>>) -> Result<(), AllocError>
    ensures { OnOk result (entries_of_seats seats.new.items ≡ entries_of_seats seats.old.items + entries_of_seat seat) }
{
    if let Some(seat) = seat {
        seats.push(seat)?;
    }
    Ok(())
}

// Lets each worker go, in order, and keeps its seat.
fn dismiss<
    L: Ledger,
    W: Wait + time::Clock + Log,
    C,
    G: Gate,
    D: Disk + Drop,
    R: Radio,
    P: Port + Drop,
>(
    desk: &Desk<'_, L, W, C, G>,
    workers: Vec<Worker<L, D, R, P>>,
    seats: &mut Vec<Seat<L>>,
) -> Result<(), AllocError>
    ensures { OnOk result
        (entries_of_seats seats.new.items ≡ entries_of_seats seats.old.items + entries_of_all workers.items) }
{
    for worker in workers {
        keep(seats, worker.leave(desk))?;
    }
    Ok(())
}

impl<
    'a,
    L: Ledger + Send + Sync,
    W: Host + Net<Stream: Send + Sync, Listener: Send + Sync>,
    C: Clock + Sync,
    G: Gate + Sync,
    D: Disk + Drop + Send,
    R: Radio + Send,
    P: Port + Drop + Send,
> Crew<'a, L, W, C, G, D, R, P> {
    /// The crew of a started world, which is taken apart: a worker that commits, one for each radio, one for the control
    /// port and one for ticks. They share the world's core over the ledger of this blank.
    ///
    /// Errors: `Thread` where there are more workers than seats; `NoMemory`.
    pub(crate) fn new(
        environment: &'a Environment<'a, W, C, G>,
        blank: Blank,
        world: StartedWorld<D, R>,
        port: P,
    ) -> Result<Crew<'a, L, W, C, G, D, R, P>, ServeFault>
        requires name { blank.name ≡ L.name }
        requires parts { blank.parts ≡ L.parts }
        requires all { blank.parts ≡ SEATS }
    {
        let (flusher, core, slots) = world.into_world().into_parts();
        let shared = Shared::<L>::new(core, blank);
        let desk = Desk {
            environment,
            shared,
        };
        let workers = match workers_of(&desk, Committer::new(flusher), slots, port) {
            Ok(workers) => workers,
            Err(fault) => {
                drop(desk);
                return Err(fault);
            }
        };
        match Vec::with_capacity(environment.alloc, workers.len()) {
            Ok(seats) => Ok(Crew {
                desk,
                workers,
                seats,
            }),
            Err(error) => {
                drop(workers);
                drop(desk);
                Err(error.into())
            }
        }
    }

    /// Has each worker work in a thread of its own until the input ends.
    ///
    /// Errors: those of `work_until_end`.
    pub(crate) fn work<B: Read>(
        self,
        reader: &mut B,
    ) -> Result<Crew<'a, L, W, C, G, D, R, P>, ServeFault> {
        let Crew {
            desk,
            workers,
            seats,
            ..
        } = self;
        let Environment { rt, alloc, .. } = desk.environment;
        match work_until_end(*rt, *alloc, &desk, workers, reader) {
            Ok(workers) => Ok(Crew {
                desk,
                workers,
                seats,
            }),
            Err(fault) => {
                drop(seats);
                drop(desk);
                Err(fault)
            }
        }
    }

    /// How many entries the workers accepted. The first of them commits what no commit had yet; each of the others hands
    /// out once more what was settled.
    ///
    /// Errors: `Thread` where a seat is missing; `NoMemory`, which can't come where the seats have room for all.
    pub(crate) fn close(self) -> Result<u64, ServeFault>
        requires { L.parts ≡ SEATS }
        ensures { IfOk result (λ entries. entries ≡ entries_of_all self.entry.workers.items) }
    {
        let Crew {
            desk,
            workers,
            seats,
            ..
        } = self;
        let mut seats = seats;
        let dismissed = dismiss(&desk, workers, &mut seats);
        let Desk { shared, .. } = desk;
        match dismissed {
            Ok(()) => match shared.close(seats) {
                Ok((core, entries)) => {
                    drop(core);
                    Ok(entries)
                }
                Err((shared, seats)) => {
                    drop(seats);
                    drop(shared);
                    Err(ServeFault::Thread)
                }
            },
            Err(error) => {
                drop(seats);
                drop(shared);
                Err(error.into())
            }
        }
    }
}
