//! How a worker submits.
ghost use Rattle.std.specs.Prelude.{IsTrue};
ghost use Rattle.apd_desk.specs.SeatProgress.{IsLater};
ghost use Rattle.apd_desk.specs.Ticking.{HasEntered};

use crate::gate::{Gate, Place};
use crate::seat::Seat;
use crate::shared::Shared;
use apd_base::Moment;
use apd_core::{Accepted, Input};
use std::alloc::AllocError;
use std::sync::Wait;
use std::sync::ledger::Ledger;

/// Passes the gate where a request became an entry. Tells whether it did.
pub(crate) fn pass_entry<G: Gate>(answer: Result<Accepted<'_>, AllocError>, gate: &G) -> bool
    ensures { IsTrue result → HasEntered answer.entry }
{
    match answer {
        Ok(Accepted::Entry(ticket)) => {
            gate.pass(Place::Accepted(ticket.number()));
            true
        }
        Ok(Accepted::Stopped | Accepted::Busy | Accepted::Quiet(_)) | Err(_) => false,
    }
}

/// Submits a request, and passes the gate where it is an entry. Tells whether it is.
pub(crate) fn submit_passing<L: Ledger, W: Wait, G: Gate>(
    rt: &W,
    shared: &Shared<L>,
    seat: &mut Seat<L>,
    input: Input<'_>,
    moment: Moment,
    gate: &G,
) -> bool
    ensures { IsLater seat.old seat.new }
{
    pass_entry(shared.submit(rt, seat, input, moment), gate)
}
