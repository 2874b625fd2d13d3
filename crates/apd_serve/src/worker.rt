//! The workers round a shared core, and what each of them owns.
ghost use Rattle.std.specs.Prelude.{◌≡◌, ◌≤◌};
ghost use Rattle.apd_flusher.specs.Handing.{Keeps};
ghost use Rattle.apd_desk.specs.Holding.{IsLed};
ghost use Rattle.apd_serve.specs.Entries.{entries_of, entries_of_seat};
ghost use Rattle.apd_serve.specs.Worked.{HasWorked};

use crate::environment::{Desk, Environment};
use crate::handing_out::{hand_out, reply_last};
use crate::threads::Job;
use apd_desk::{
    Clock, Ending, Gate, Port, Seat, commit_all, control_worker, radio_worker, tick_worker,
};
use apd_disk::Disk;
use apd_flusher::{Committer, Phase};
use apd_radio::Radio;
use apd_site::{Alarm, tell_device_fault, tell_worn_out};
use apd_slot::Slot;
use log::Log;
use std::net::Net;
use std::sync::Wait;
use std::sync::ledger::Ledger;
use std::time;

/// A worker, by what it owns.
#[derive(Drop)]
pub(crate) enum Worker<L: Ledger, D: Disk + Drop, R: Radio, P: Port + Drop> {
    /// Commits.
    Committing(Committer<D>),
    /// Serves a radio.
    Radio(Seat<L>, Slot<R>),
    /// Serves the control port.
    Control(Seat<L>, P),
    /// Submits ticks.
    Ticks(Seat<L>),
}

impl<
    'a,
    L: Ledger,
    D: Disk + Drop,
    R: Radio,
    P: Port + Drop,
    W: Wait + time::Clock + Log + Net,
    C: Clock,
    G: Gate,
> Job<Desk<'a, L, W, C, G>> for Worker<L, D, R, P> {
    fn work(self, desk: &Desk<'a, L, W, C, G>) -> Worker<L, D, R, P>
        ensures entries { entries_of self ≤ entries_of result }
        ensures worked { HasWorked D.model R.model self result }
    {
        let Desk {
            environment,
            shared,
        } = desk;
        let Environment {
            rt,
            alloc,
            clock,
            gate,
            ..
        } = *environment;
        match self {
            Worker::Committing(committer) => Worker::Committing(commit(desk, committer)),
            Worker::Radio(seat, slot) => {
                let none = Vec::new(*alloc);
                let (seat, slot) = radio_worker(
                    *rt, *alloc, shared, seat, slot, *clock, none, *gate,
                );
                Worker::Radio(seat, slot)
            }
            Worker::Control(seat, port) => {
                let (seat, port) = control_worker(*rt, *alloc, shared, seat, port, *clock, *gate);
                Worker::Control(seat, port)
            }
            Worker::Ticks(seat) => Worker::Ticks(tick_worker(*rt, shared, seat, *clock, *gate)),
        }
    }
}

// Whether the commits have ended before by a refusal: no batch waits behind a stop.
fn has_refused<D: Disk>(committer: &Committer<D>) -> bool {
    committer.phase() == Phase::Failed || committer.has_batch()
}

// Tells why the commits ended, by what the flusher does next, and rings where the device failed. Beside a fault of the
// device it is that the store is worn out: nothing else is refused to a core that one committer settles.
fn tell_refusal<W: Log>(rt: &W, phase: Phase, alarm: &Alarm) {
    if phase == Phase::Failed {
        tell_device_fault(rt);
        alarm.ring();
    } else {
        tell_worn_out(rt);
    }
}

// Commits until a stop, or until the store refuses, and gives back what is left: a batch or a receipt that was refused
// waits there. That the device failed, or the store is worn out, is told when it comes.
fn commit<L: Ledger, W: Wait + time::Clock + Log, C, G: Gate, D: Disk>(
    desk: &Desk<'_, L, W, C, G>,
    committer: Committer<D>,
) -> Committer<D>
    ensures led { IsLed D.model committer result }
    ensures keeps { Keeps D.model committer result }
{
    let Environment {
        rt,
        gate,
        alarm,
        ..
    } = desk.environment;
    let mut committer = committer;
    let had_refused = has_refused(&committer);
    let ending = commit_all(*rt, &desk.shared, &mut committer, *gate);
    if ending == Ending::Refused && !had_refused {
        tell_refusal(*rt, committer.phase(), *alarm);
    }
    committer
}

impl<L: Ledger, D: Disk + Drop, R: Radio, P: Port + Drop> Worker<L, D, R, P> {
    // Does once more what it is for: commits what was accepted since it looked last, or hands out what was settled.
    fn finish<W: Wait + time::Clock + Log, C, G: Gate>(
        self,
        desk: &Desk<'_, L, W, C, G>,
    ) -> Worker<L, D, R, P>
        ensures entries { entries_of result ≡ entries_of self }
        ensures worked { HasWorked D.model R.model self result }
    {
        let Environment { rt, alloc, .. } = desk.environment;
        match self {
            Worker::Committing(committer) => Worker::Committing(commit(desk, committer)),
            Worker::Radio(seat, slot) => {
                let (mut seat, mut slot) = (seat, slot);
                hand_out(*rt, *alloc, &desk.shared, &mut seat, &mut slot);
                Worker::Radio(seat, slot)
            }
            Worker::Control(seat, port) => {
                let (mut seat, mut port) = (seat, port);
                reply_last(*rt, &desk.shared, &mut seat, &mut port);
                Worker::Control(seat, port)
            }
            Worker::Ticks(seat) => Worker::Ticks(seat),
        }
    }

    // Lets go what it owns, but for its seat.
    fn into_seat(self) -> Option<Seat<L>>
        ensures { entries_of_seat result ≡ entries_of self }
    {
        match self {
            Worker::Committing(committer) => {
                drop(committer);
                None
            }
            Worker::Radio(seat, slot) => {
                drop(slot);
                Some(seat)
            }
            Worker::Control(seat, port) => {
                drop(port);
                Some(seat)
            }
            Worker::Ticks(seat) => Some(seat),
        }
    }

    /// Does once more what it is for. Then it lets go what it owns, and gives its seat, if it has one.
    pub(crate) fn leave<W: Wait + time::Clock + Log, C, G: Gate>(
        self,
        desk: &Desk<'_, L, W, C, G>,
    ) -> Option<Seat<L>>
        ensures { entries_of_seat result ≡ entries_of self }
    {
        self.finish(desk).into_seat()
    }
}
