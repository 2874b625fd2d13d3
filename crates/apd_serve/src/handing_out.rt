//! The last hand-out, when the workers have ended: what is settled by then and was not handed out.
ghost use Rattle.std.specs.Prelude.{◌≡◌, [], IsTrue};
ghost use Rattle.apd_slot.specs.Slots.{queue_of};
ghost use Rattle.apd_steps.specs.Serving.{IsRadioRun, IsTended};
ghost use Rattle.apd_desk.specs.Asking.{by_seat};
ghost use Rattle.apd_desk.specs.Giving.{IsGivenOn};
ghost use Rattle.apd_desk.specs.SeatProgress.{IsLater};
ghost use Rattle.apd_desk.specs.Serving.{HasServed};
ghost use Rattle.apd_serve.specs.HandedOut.{IsHandedBy};

use apd_desk::{Port, Progress, Seat, Shared, mend_first, tend};
use apd_mlme::{Out, Recipient};
use apd_radio::Radio;
use apd_site::tell_not_handed_out;
use apd_slot::{Mending, Slot};
use log::Log;
use std::alloc::Global;
use std::sync::Wait;
use std::sync::ledger::Ledger;
use std::thread::sleep;
use std::time::{Clock, Duration};

/// How often what meets want of memory is tried, and the pause before it is tried again, in milliseconds.
const TRIES: u32 = 1_000;

const PAUSE: u64 = 1;

// What of settled entries a recipient was not given yet. It tries again where memory lacks; where it lacks in the end,
// there is none.
fn collect<L: Ledger, W: Wait + Clock>(
    rt: &W,
    shared: &Shared<L>,
    seat: &mut Seat<L>,
    to: Recipient,
) -> Option<Vec<Out>>
    ensures count { seat.new.count ≡ seat.old.count }
    ensures later { IsLater seat.old seat.new }
{
    for _ in 0..TRIES {
        if let Ok(outs) = shared.collect(rt, seat, to) {
            return Some(outs);
        }
        sleep(rt, Duration::from_millis(PAUSE));
    }
    None
}

// Applies the first of the outs that wait. Where the slot is still to be mended, or memory lacks, it rests and tries
// again. Tells whether one was taken: none is where none waits, or where memory lacks in the end.
fn take_next<W: Clock, R: Radio>(rt: &W, slot: &mut Slot<R>, mending: &mut Mending<R>) -> bool
    ensures { IsTended R.model R.frames slot.old slot.new mending.old mending.new }
{
    for _ in 0..TRIES {
        match tend(slot, mending) {
            Progress::Nothing => return false,
            Progress::Made => return true,
            Progress::Short => sleep(rt, Duration::from_millis(PAUSE)),
        }
    }
    false
}

// Applies the outs that wait, in order, and nothing behind one that was not taken. Tells whether none waits then.
fn empty<W: Clock, R: Radio>(rt: &W, slot: &mut Slot<R>, mending: &mut Mending<R>) -> bool
    ensures tends { IsTended R.model R.frames slot.old slot.new mending.old mending.new }
    ensures none_waits { IsTrue result → queue_of slot.new ≡ [] }
{
    for _ in 0..slot.waiting_count() {
        if !take_next(rt, slot, mending) {
            return false;
        }
    }
    slot.waiting_count() == 0
}

// Puts into a slot's queue what of settled entries it was not given yet, and tries again where
// memory lacks. Tells whether it did.
fn hand<L: Ledger, W: Wait + Clock, R: Radio>(
    rt: &W,
    shared: &Shared<L>,
    seat: &mut Seat<L>,
    slot: &mut Slot<R>,
) -> bool
    ensures count { seat.new.count ≡ seat.old.count }
    ensures hands { IsHandedBy R.model R.frames seat.old seat.new slot.old slot.new }
{
    for _ in 0..TRIES {
        if shared.hand_to(rt, seat, slot).is_ok() {
            return true;
        }
        sleep(rt, Duration::from_millis(PAUSE));
    }
    false
}

// Gives a slot what waits there, and then what of settled entries it was not given yet. Tells whether it was given all.
fn give_all<L: Ledger, W: Wait + Clock, R: Radio>(
    rt: &W,
    shared: &Shared<L>,
    seat: &mut Seat<L>,
    slot: &mut Slot<R>,
    mending: &mut Mending<R>,
) -> bool
    ensures count { seat.new.count ≡ seat.old.count }
    ensures run { IsRadioRun R.model R.frames by_seat seat.old seat.new
        slot.old slot.new mending.old mending.new }
    ensures none_waits { IsTrue result → queue_of slot.new ≡ [] }
{
    if !empty(rt, slot, mending) {
        return false;
    }
    if !hand(rt, shared, seat, slot) {
        return false;
    }
    empty(rt, slot, mending)
}

/// Gives a slot what waits there, and then what of settled entries it was not given yet, in order, and nothing behind
/// an out that was not taken. Where the slot is down, or goes down at an out, its own radio is given anew what is
/// wanted before the next out, three times at most, with a rest between. Where memory lacks it tries again; what it
/// lacks for in the end waits on, which is logged.
pub(crate) fn hand_out<L: Ledger, W: Wait + Clock + Log, R: Radio>(
    rt: &W,
    alloc: Global,
    shared: &Shared<L>,
    seat: &mut Seat<L>,
    slot: &mut Slot<R>,
)
    ensures served { HasServed R.model R.frames [] seat.old seat.new slot.old slot.new }
    ensures count { seat.new.count ≡ seat.old.count }
    ensures later { IsLater seat.old seat.new }
    ensures given { IsGivenOn R.model slot.old slot.new }
{
    let mut mending = Mending::new(Vec::new(alloc));
    mend_first(slot, &mut mending);
    if !give_all(rt, shared, seat, slot, &mut mending) {
        tell_not_handed_out(rt);
    }
}

/// Sends the replies to orders that are settled. What the port loses is lost; that memory lacked for them is logged.
pub(crate) fn reply_last<L: Ledger, W: Wait + Clock + Log, P: Port>(
    rt: &W,
    shared: &Shared<L>,
    seat: &mut Seat<L>,
    port: &mut P,
)
    ensures count { seat.new.count ≡ seat.old.count }
    ensures later { IsLater seat.old seat.new }
{
    let Some(outs) = collect(rt, shared, seat, Recipient::Control) else {
        tell_not_handed_out(rt);
        return;
    };
    for out in outs.iter() {
        if let Out::Text(tag, text) = out {
            let _sent = port.reply(*tag, text.as_slice());
        }
    }
}
