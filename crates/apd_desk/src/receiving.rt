//! The worker of a radio.
ghost use Rattle.std.specs.Prelude.{◌≡◌, ◌<◌, [], length};
ghost use Rattle.apd_slot.specs.Slots.{bssid_of, queue_of, IsExact};
ghost use Rattle.apd_steps.specs.Serving.{IsRadioRun, IsTended};
ghost use Rattle.apd_desk.specs.Giving.{IsGivenOn};
ghost use Rattle.apd_desk.specs.SeatProgress.{IsLater};
ghost use Rattle.apd_desk.specs.Serving.{HasServed, NotesHands};

use crate::asked::{Asked, Serves};
use crate::clock::Clock;
use crate::gate::Gate;
use crate::idle::{AT_ONCE, Idle, Progress};
use crate::locked::Look;
use crate::seat::Seat;
use crate::shared::Shared;
use crate::submitting::pass_entry;
use crate::tending::{mend_first, tend};
use crate::waking::Waiter;
use apd_core::Input;
use apd_mlme::Recipient;
use apd_radio::Radio;
use apd_slot::{Mending, Slot};
use apd_steps::Asks;
use std::alloc::Global;
use std::net::Net;
use std::sync::Wait;
use std::sync::ledger::Ledger;
use std::time::Clock as StdClock;

// What the worker of a radio has, beside the core that it asks.
#[derive(Drop)]
struct Parts<R: Radio> {
    slot: Slot<R>,
    mending: Mending<R>,
    // The last settled entry of the look after which it collected last.
    collected: Option<u64>,
}

impl<R: Radio> Parts<R> {
    // Submits the next frame of the radio, if one waits. A frame that is no entry is dropped, as on the air.
    fn receive<A: Asks, C: Clock, G: Gate>(&mut self, core: &mut A, clock: &C, gate: &G) -> Progress
        ensures { IsRadioRun R.model R.frames A.made core.old core.new
            self.old.slot self.new.slot self.old.mending self.new.mending }
    {
        match self.slot.poll() {
            Ok(Some(frame)) => {
                let input = Input::Received(self.slot.bssid(), frame.as_slice());
                let answer = core.submit(input, clock.now());
                pass_entry(answer, gate);
                Progress::Made
            }
            Ok(None) => Progress::Nothing,
            Err(_) => Progress::Short,
        }
    }

    // Submits the frames that wait, up to as many as may be at once.
    fn receive_burst<A: Asks, C: Clock, G: Gate>(
        &mut self,
        core: &mut A,
        clock: &C,
        gate: &G,
    ) -> Progress
        ensures { IsRadioRun R.model R.frames A.made core.old core.new
            self.old.slot self.new.slot self.old.mending self.new.mending }
    {
        let mut progress = Progress::Nothing;
        for _ in 0..AT_ONCE {
            let next = self.receive(core, clock, gate);
            progress = progress.max(next);
            if next != Progress::Made {
                break;
            }
        }
        progress
    }

    // The same, unless all are to stop, and tells the core that the burst ended: whatever its last frame was.
    fn receive_all<A: Serves, C: Clock, G: Gate>(
        &mut self,
        core: &mut A,
        seen: Look,
        clock: &C,
        gate: &G,
    ) -> Progress
        ensures { IsRadioRun R.model R.frames A.made core.old core.new
            self.old.slot self.new.slot self.old.mending self.new.mending }
    {
        if seen.stopped {
            return Progress::Nothing;
        }
        let progress = self.receive_burst(core, clock, gate);
        if progress == Progress::Made {
            core.end_burst();
        }
        progress
    }

    // Puts into the slot's queue, if none waits there and by this look entries were settled since, what of settled entries
    // it was not given yet.
    fn collect<A: Serves>(&mut self, core: &mut A, seen: Look) -> Progress
        ensures { (run : IsRadioRun R.model R.frames A.made core.old core.new
            self.old.slot self.new.slot self.old.mending self.new.mending)
            × NotesHands run.steps seen.settled self.old.collected self.new.collected }
    {
        if self.slot.waiting_count() > 0 || self.collected == Some(seen.settled) {
            return Progress::Nothing;
        }
        match core.hand_to(&mut self.slot) {
            Ok(_count) => {
                self.collected = Some(seen.settled);
                Progress::Nothing
            }
            Err(_) => Progress::Short,
        }
    }

    // Notes whether the slot is up, where that changed.
    fn note_change<A: Serves>(&self, core: &A, was_up: bool) {
        if self.slot.is_up() != was_up {
            core.note(self.slot.bssid(), self.slot.is_up());
        }
    }

    // Goes on mending the slot, and applies the first of the outs that wait. It rests where the slot is still to be mended.
    fn advance<A: Serves>(&mut self, core: &A) -> Progress
        ensures tends { IsTended R.model R.frames
            self.old.slot self.new.slot self.old.mending self.new.mending }
        ensures fewer { result ≡ Progress.Made → length (queue_of self.new.slot) < length (queue_of self.old.slot) }
    {
        let was_up = self.slot.is_up();
        let progress = tend(&mut self.slot, &mut self.mending);
        self.note_change(core, was_up);
        if progress == Progress::Short && !self.slot.is_up() {
            core.pause(core.look());
        }
        progress
    }

    // Gives the slot what of settled entries it was not given yet, behind what waits, up to as many outs as may be at
    // once.
    fn apply_settled<A: Serves>(&mut self, core: &mut A) -> Progress
        ensures { IsRadioRun R.model R.frames A.made core.old core.new
            self.old.slot self.new.slot self.old.mending self.new.mending }
    {
        let seen = core.look();
        let mut progress = self.collect(core, seen);
        for _ in 0..AT_ONCE {
            let next = self.advance(core);
            progress = progress.max(next);
            if next != Progress::Made {
                break;
            }
        }
        progress
    }

    // Receives, and gives the slot what is settled by then.
    fn turn<A: Serves, C: Clock, G: Gate>(
        &mut self,
        core: &mut A,
        seen: Look,
        clock: &C,
        gate: &G,
    ) -> Progress
        ensures { IsRadioRun R.model R.frames A.made core.old core.new
            self.old.slot self.new.slot self.old.mending self.new.mending }
    {
        let received = self.receive_all(core, seen, clock, gate);
        let applied = self.apply_settled(core);
        received.max(applied)
    }
}

// Serves a radio until a stop, by steps alone.
fn serve_by_steps<W: Wait, A: Serves, R: Radio, C: Clock, G: Gate>(
    rt: &W,
    core: &mut A,
    parts: &mut Parts<R>,
    waiter: &mut Waiter,
    clock: &C,
    gate: &G,
)
    ensures run { IsRadioRun R.model R.frames A.made core.old core.new
        parts.old.slot parts.new.slot parts.old.mending parts.new.mending }
    ensures none_waits { queue_of parts.new.slot ≡ [] }
{
    let mut idle = Idle::new();
    mend_first(&mut parts.slot, &mut parts.mending);
    core.note(parts.slot.bssid(), parts.slot.is_up());
    for _ in rt.forever() {
        let seen = core.look();
        if seen.stopped && parts.slot.waiting_count() == 0 {
            return;
        }
        let progress = parts.turn(core, seen, clock, gate);
        if idle.rest(progress) {
            core.wait(waiter, progress, parts.slot.descriptor(), seen);
        }
    }
    unreachable!()
}

/// Serves a radio until a stop, and gives its seat and its slot back: submits the frames that it receives, gives
/// its slot what of settled entries is for it, and notes whether it is up. An out that meets want of memory stays
/// first in the slot's queue and is tried again, and so are those behind it: after a stop it ends once none waits. It
/// holds the lock for no call of the radio. Where there is nothing to do it waits for a frame, by the descriptor of the
/// radio that the slot has then, for outs that are ready, or for a stop.
///
/// A fault is an out at which the slot goes down, and a slot that is down at first. At each, every spare that is left
/// is tried once in the place of the slot's radio, in order, until one serves, before the next out is applied; a radio
/// that is tried so, or taken out, is dropped. Where none serves the slot's own is given anew what is wanted, three
/// times at most, once a turn with a rest behind. A try that fails, for want of memory too, is no fault. After
/// the last the slot stays down: its frames are lost, and what it wants goes on. Spares that are left are dropped.
pub fn radio_worker<L: Ledger, W: Wait + StdClock + Net, R: Radio, C: Clock, G: Gate>(
    rt: &W,
    alloc: Global,
    shared: &Shared<L>,
    seat: Seat<L>,
    slot: Slot<R>,
    clock: &C,
    spares: Vec<R>,
    gate: &G,
) -> (Seat<L>, Slot<R>)
    ensures served { HasServed R.model R.frames spares.items seat result.0 slot result.1 }
    ensures seat { IsLater seat result.0 }
    ensures exact { IsExact R.model slot → IsExact R.model result.1 }
    ensures bssid { bssid_of result.1 ≡ bssid_of slot }
    ensures given { IsGivenOn R.model slot result.1 }
    ensures none_waits { queue_of result.1 ≡ [] }
{
    let to = Recipient::Radio(slot.bssid());
    let mut waiter = Waiter::new(rt, alloc, shared, to);
    let mut core = Asked::new(rt, shared, seat);
    let mut parts = Parts {
        slot,
        mending: Mending::new(spares),
        collected: None,
    };
    serve_by_steps(rt, &mut core, &mut parts, &mut waiter, clock, gate);
    let Parts { slot, .. } = parts;
    (core.into_seat(), slot)
}
