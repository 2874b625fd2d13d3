//! The workers of a run, and what each of them owns.
use crate::calls::{commit, serve_port, serve_radio, submit_ticks};
use crate::crew::{Job, Stops};
use crate::device::Device;
use crate::gate::{NotedClock, NotedGate, TickClock};
use crate::port::NotedPort;
use crate::radio::NotedRadio;
use apd_desk::{Seat, Shared};
use apd_flusher::Committer;
use apd_slot::Slot;
use std::alloc::Global;
use std::net::Net;
use std::sync::Wait;
use std::sync::ledger::Ledger;
use std::thread::Threads;
use std::time;

/// A runtime that threads share, by which they wait, tell the time and have sockets.
pub(crate) trait Host: Threads
    + Wait
    + time::Clock
    + Net<Stream: Send + Sync, Listener: Send + Sync>
    + Sync {}

impl<T: Threads + Wait + time::Clock + Net<Stream: Send + Sync, Listener: Send + Sync> + Sync> Host
    for T {}

/// What the workers share.
#[derive(Drop)]
pub(crate) struct Environment<'a, L: Ledger, W> {
    pub(crate) rt: &'a W,
    pub(crate) alloc: Global,
    pub(crate) shared: &'a Shared<L>,
}

impl<L: Ledger, W: Wait> Stops for Environment<'_, L, W> {
    fn stop(&self) {
        self.shared.stop(self.rt);
    }
}

/// The worker of a radio: its seat, its slot, the radios that stand by, and by what it is seen.
#[derive(Drop)]
pub(crate) struct RadioPart<'a, L: Ledger, W: Wait> {
    pub(crate) seat: Seat<L>,
    pub(crate) slot: Slot<NotedRadio<'a, W>>,
    pub(crate) spares: Vec<NotedRadio<'a, W>>,
    pub(crate) clock: NotedClock<'a, W>,
    pub(crate) gate: NotedGate<'a, L, W>,
}

/// The worker of the port: its seat, the port, and by what it is seen.
#[derive(Drop)]
pub(crate) struct PortPart<'a, L: Ledger, W: Wait> {
    pub(crate) seat: Seat<L>,
    pub(crate) port: NotedPort<'a, L, W>,
    pub(crate) clock: NotedClock<'a, W>,
    pub(crate) gate: NotedGate<'a, L, W>,
}

/// A worker, by what it owns.
#[derive(Drop)]
pub(crate) enum Worker<'a, L: Ledger, W: Wait> {
    Committing(Committer<Device<'a, W>>, NotedGate<'a, L, W>),
    Radio(RadioPart<'a, L, W>),
    Control(PortPart<'a, L, W>),
    Ticks(Seat<L>, TickClock<'a, W>, NotedGate<'a, L, W>),
}

impl<'a, L: Ledger, W: Wait + time::Clock + Net> RadioPart<'a, L, W> {
    fn work(self, environment: &Environment<'_, L, W>) -> RadioPart<'a, L, W> {
        let RadioPart {
            seat,
            slot,
            spares,
            clock,
            gate,
        } = self;
        let Environment { rt, alloc, shared } = environment;
        let (seat, slot) = serve_radio(*rt, *alloc, *shared, seat, slot, &clock, spares, &gate);
        RadioPart {
            seat,
            slot,
            spares: Vec::new(*alloc),
            clock,
            gate,
        }
    }
}

impl<'a, L: Ledger, W: Wait + time::Clock + Net> PortPart<'a, L, W> {
    fn work(self, environment: &Environment<'_, L, W>) -> PortPart<'a, L, W> {
        let PortPart {
            seat,
            port,
            clock,
            gate,
        } = self;
        let Environment { rt, alloc, shared } = environment;
        let (seat, port) = serve_port(*rt, *alloc, *shared, seat, port, &clock, &gate);
        PortPart {
            seat,
            port,
            clock,
            gate,
        }
    }
}

impl<'e, 'a, L: Ledger, W: Wait + time::Clock + Net> Job<Environment<'e, L, W>>
    for Worker<'a, L, W> {
    fn work(self, environment: &Environment<'e, L, W>) -> Worker<'a, L, W> {
        let Environment { rt, shared, .. } = environment;
        match self {
            Worker::Committing(mut committer, gate) => {
                commit(*rt, *shared, &mut committer, &gate);
                Worker::Committing(committer, gate)
            }
            Worker::Radio(part) => Worker::Radio(part.work(environment)),
            Worker::Control(part) => Worker::Control(part.work(environment)),
            Worker::Ticks(seat, clock, gate) => {
                let seat = submit_ticks(*rt, *shared, seat, &clock, &gate);
                Worker::Ticks(seat, clock, gate)
            }
        }
    }
}
