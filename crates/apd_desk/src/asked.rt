//! A shared core, for one who has a seat.
ghost use Rattle.std.specs.Prelude.{◌≡◌};
ghost use Rattle.apd_desk.specs.Asking.{by_seat};

use crate::idle::Progress;
use crate::locked::Look;
use crate::news::News;
use crate::seat::{AskFault, Seat};
use crate::shared::Shared;
use crate::waking::Waiter;
use apd_base::{Bssid, Moment};
use apd_core::{Accepted, Answer, Input};
use apd_ctrl::Query;
use apd_mlme::{Out, Recipient};
use apd_radio::Radio;
use apd_slot::Slot;
use apd_steps::Asks;
use std::alloc::AllocError;
use std::os::fd::RawFd;
use std::sync::Wait;
use std::sync::ledger::Ledger;
use std::time::{Clock, Duration};

/// A shared core, for one who has a seat.
#[derive(Drop)]
pub(crate) struct Asked<'a, L: Ledger, W> {
    rt: &'a W,
    shared: &'a Shared<L>,
    seat: Seat<L>,
}

impl<'a, L: Ledger, W> Asked<'a, L, W> {
    pub(crate) fn new(rt: &'a W, shared: &'a Shared<L>, seat: Seat<L>) -> Asked<'a, L, W>
        ensures { result.seat ≡ seat }
    {
        Asked { rt, shared, seat }
    }

    pub(crate) fn into_seat(self) -> Seat<L>
        ensures { result ≡ self.entry.seat }
    {
        self.seat
    }
}

// Others may call before and after: what is known is that there was a core that went so.
impl<L: Ledger, W: Wait> Asks for Asked<'_, L, W> {
    type Refusal = AskFault;

    ghost made = { λ call old new. by_seat call old.seat new.seat };

    fn submit<'a>(&mut self, input: Input<'a>, moment: Moment) -> Result<Accepted<'a>, AllocError> {
        self.shared
            .submit_in_burst(self.rt, &mut self.seat, input, moment)
    }

    fn ask(&mut self, query: Query) -> Result<Answer, AskFault> {
        self.shared.ask(self.rt, &mut self.seat, query)
    }

    fn collect(&mut self, to: Recipient) -> Result<Vec<Out>, AllocError> {
        self.shared.collect(self.rt, &mut self.seat, to)
    }

    fn hand_to<R: Radio>(&mut self, slot: &mut Slot<R>) -> Result<usize, AllocError> {
        self.shared.hand_to(self.rt, &mut self.seat, slot)
    }
}

/// A core that is asked, for whose news one can wait, and beside which it is noted whether a radio is up.
pub(crate) trait Serves: Asks {
    /// What was posted last of it, without the lock: each word is read for itself.
    fn look(&self) -> Look;

    /// A burst of requests ended: who waits for entries is woken where one was an entry.
    fn end_burst(&self);

    /// Notes whether the radio of a BSSID is up.
    fn note(&self, bssid: Bssid, up: bool);

    /// Waits until a descriptor can be read, outs are ready, or a stop, as the waiter does.
    fn wait(&self, waiter: &mut Waiter, progress: Progress, descriptor: Option<RawFd>, seen: Look);

    /// Waits for the pause before something is tried again.
    fn pause(&self, seen: Look);

    /// Waits for a stop since a look, for this time at most.
    fn rest(&self, time: Duration, seen: Look);
}

impl<L: Ledger, W: Wait + Clock> Serves for Asked<'_, L, W> {
    fn look(&self) -> Look {
        self.shared.look()
    }

    fn end_burst(&self) {
        self.shared.end_burst(self.rt);
    }

    fn note(&self, bssid: Bssid, up: bool) {
        self.shared.note(self.rt, bssid, up);
    }

    fn wait(&self, waiter: &mut Waiter, progress: Progress, descriptor: Option<RawFd>, seen: Look) {
        waiter.wait(self.rt, self.shared, progress, descriptor, seen);
    }

    fn pause(&self, seen: Look) {
        self.shared.pause(self.rt, News::Settled, seen);
    }

    fn rest(&self, time: Duration, seen: Look) {
        self.shared.wait_within(self.rt, News::Stop, seen, time);
    }
}
