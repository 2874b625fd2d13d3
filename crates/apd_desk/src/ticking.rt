//! The worker of ticks.
ghost use Rattle.std.specs.Prelude.{Result, IsTrue};
ghost use Rattle.std.specs.declared.alloc.AllocError.{AllocError as Short};
ghost use Rattle.apd_core.specs.declared.input.Input.TheVariants.{Tick};
ghost use Rattle.apd_core.specs.declared.ticket.Accepted.{Accepted as Answered};
ghost use Rattle.apd_steps.specs.Calls.{SubmitTells};
ghost use Rattle.apd_desk.specs.Asking.{by_seat};
ghost use Rattle.apd_desk.specs.SeatProgress.{IsLater};
ghost use Rattle.apd_desk.specs.Ticking.{HasEntered, HasTicked, IsTurn};

use crate::asked::{Asked, Serves};
use crate::clock::Clock;
use crate::gate::Gate;
use crate::seat::Seat;
use crate::shared::Shared;
use crate::submitting::pass_entry;
use apd_base::Moment;
use apd_core::Input;
use apd_steps::Asks;
use std::sync::Wait;
use std::sync::ledger::Ledger;
use std::time::{Clock as StdClock, Duration, Instant};

/// How far the moments of two turns are apart at least, in milliseconds.
const SECOND: u64 = 1000;

/// How many ticks a turn has at most: a sixteenth of the entries that a core keeps, so that silence alone never makes it
/// busy.
const TICKS: u32 = 256;

/// For how long a turn goes on, in milliseconds: others may want the lock meanwhile, and each tick looks through the
/// stations.
const LONGEST: u64 = 5;

// Submits a tick. Tells whether it is an entry.
fn tick<A: Asks, G: Gate>(core: &mut A, moment: Moment, gate: &G) -> bool
    ensures { (answer : Result Answered Short) × A.made (SubmitTells Tick moment answer) core.old core.new
        × (IsTrue result → HasEntered answer) }
{
    pass_entry(core.submit(Input::Tick, moment), gate)
}

// Whether a turn that began then has gone on for as long as it may.
fn is_over<W: StdClock>(rt: &W, began: Option<Instant>) -> bool {
    began
        .and_then(|began| began.elapsed(rt).ok())
        .is_some_and(|taken| taken >= Duration::from_millis(LONGEST))
}

// Submits ticks at one moment until one is no entry, all are to stop, or the turn is over.
fn submit_ticks<W: StdClock, A: Serves, G: Gate>(rt: &W, core: &mut A, moment: Moment, gate: &G)
    ensures { IsTurn A.made moment core.old core.new }
{
    let began = Instant::now(rt).ok();
    for _ in 0..TICKS {
        if !tick(core, moment, gate) {
            return;
        }
        if core.look().stopped || is_over(rt, began) {
            return;
        }
    }
}

// Makes a turn. It is a burst, so that its entries share a batch.
fn turn<W: StdClock, A: Serves, G: Gate>(rt: &W, core: &mut A, moment: Moment, gate: &G)
    ensures { IsTurn A.made moment core.old core.new }
{
    submit_ticks(rt, core, moment, gate);
    core.end_burst();
}

// Makes turns until a stop, by steps alone.
fn tick_by_steps<W: Wait + StdClock, A: Serves, C: Clock, G: Gate>(
    rt: &W,
    core: &mut A,
    clock: &C,
    gate: &G,
)
    ensures { HasTicked A.made core.old core.new }
{
    let mut last = clock.now();
    for _ in rt.forever() {
        let seen = core.look();
        if seen.stopped {
            return;
        }
        let now = clock.now();
        let past = now.0.abs_diff(last.0);
        if past < SECOND {
            core.rest(Duration::from_millis(SECOND - past), seen);
        } else {
            turn(rt, core, now, gate);
            last = now;
        }
    }
    unreachable!()
}

/// Makes a turn about once a second, by the clock's moments, until a stop, and gives its seat back. A turn submits ticks
/// at one moment until one is no entry, as where nobody is silent any more: 256 at most, and for a few milliseconds, but
/// one at least. The worker that commits is woken behind the last of them. The moments of two turns in a row are a second
/// apart at least: after a jump of the clock there is one turn.
pub fn tick_worker<L: Ledger, W: Wait + StdClock, C: Clock, G: Gate>(
    rt: &W,
    shared: &Shared<L>,
    seat: Seat<L>,
    clock: &C,
    gate: &G,
) -> Seat<L>
    ensures ticked { HasTicked by_seat seat result }
    ensures later { IsLater seat result }
{
    let mut core = Asked::new(rt, shared, seat);
    tick_by_steps(rt, &mut core, clock, gate);
    core.into_seat()
}
