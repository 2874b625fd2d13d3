//! What is done to a slot for which outs wait: it is mended where it went down, and the first of them is applied.
ghost use Rattle.std.specs.Prelude.{◌≡◌, ◌≢◌, ◌<◌, [], true, false, length, Err};
ghost use Rattle.apd_slot.specs.Mending.{Begins, HasOwnTries};
ghost use Rattle.apd_slot.specs.Slots.{is_up_of, queue_of};
ghost use Rattle.apd_steps.specs.Serving.{IsTended};
ghost use Rattle.apd_desk.specs.Giving.{IsServed};
ghost use Rattle.apd_desk.specs.Tending.{HasGoneOn, TendsOn};

use crate::idle::Progress;
use apd_radio::Radio;
use apd_slot::{Mending, Slot, SlotFault};

/// Begins to mend a slot that is down at first.
pub fn mend_first<R: Radio>(slot: &mut Slot<R>, mending: &mut Mending<R>)
    ensures tends { IsTended R.model R.frames slot.old slot.new mending.old mending.new }
    ensures served { IsServed R.model [] slot.old slot.new }
    ensures queue { queue_of slot.new ≡ queue_of slot.old }
    ensures same { is_up_of slot.old ≡ true → slot.new ≡ slot.old }
    ensures mending { is_up_of slot.old ≡ true → mending.new ≡ mending.old }
    ensures begun { is_up_of slot.new ≡ false → HasOwnTries mending.new }
{
    if !slot.is_up() {
        mending.begin(slot);
    }
}

// Begins to mend a slot that went down at an out.
fn mend_after<R: Radio>(answer: Result<(), SlotFault>, slot: &mut Slot<R>, mending: &mut Mending<R>)
    ensures begins { answer ≡ Err SlotFault.WentDown
        → Begins R.model R.frames mending.old mending.new slot.old slot.new }
    ensures served { IsServed R.model [] slot.old slot.new }
    ensures queue { queue_of slot.new ≡ queue_of slot.old }
    ensures same { answer ≢ Err SlotFault.WentDown → slot.new ≡ slot.old }
    ensures mending { answer ≢ Err SlotFault.WentDown → mending.new ≡ mending.old }
    ensures begun { answer ≡ Err SlotFault.WentDown → is_up_of slot.new ≡ false → HasOwnTries mending.new }
{
    if answer == Err(SlotFault::WentDown) {
        mending.begin(slot);
    }
}

// Gives the slot's own radio anew what is wanted, where a try is left: `Made` where the slot is up then.
fn try_own<R: Radio>(slot: &mut Slot<R>, mending: &mut Mending<R>) -> Progress
    ensures goes_on { HasGoneOn R.model R.frames result slot.old slot.new mending.old mending.new }
    ensures served { IsServed R.model [] slot.old slot.new }
    ensures queue { queue_of slot.new ≡ queue_of slot.old }
    ensures nothing { result ≡ Progress.Nothing → slot.new ≡ slot.old }
    ensures made { result ≡ Progress.Made → is_up_of slot.new ≡ true }
    ensures short { result ≡ Progress.Short → mending.new.tries < mending.old.tries }
{
    if !mending.go_on(slot) {
        return Progress::Nothing;
    }
    if slot.is_up() {
        Progress::Made
    } else {
        Progress::Short
    }
}

// Applies the first of the outs that wait; where the slot goes down at it, begins to mend it. One that meets want of
// memory stays first.
fn apply_first<R: Radio>(slot: &mut Slot<R>, mending: &mut Mending<R>) -> Progress
    ensures tends_on { TendsOn R.model R.frames slot.old slot.new mending.old mending.new }
    ensures served { IsServed R.model [] slot.old slot.new }
    ensures none_waits { result ≡ Progress.Nothing → queue_of slot.old ≡ [] }
    ensures fewer { result ≡ Progress.Made → length (queue_of slot.new) < length (queue_of slot.old) }
    ensures stays { result ≢ Progress.Made → queue_of slot.new ≡ queue_of slot.old }
{
    match slot.apply_next() {
        Some(Ok((_out, answer))) => {
            mend_after(answer, slot, mending);
            Progress::Made
        }
        Some(Err(_)) => Progress::Short,
        None => Progress::Nothing,
    }
}

/// Goes on mending a slot, and then applies the first of the outs that wait; where the slot goes down at it, begins to
/// mend it by the spares.
///
/// `Made` where an out was applied; `Nothing` where none waits; `Short` where it is to be tried again behind a rest,
/// since the slot's own radio was tried in vain, or the first out meets want of memory: all that waits does so still.
pub fn tend<R: Radio>(slot: &mut Slot<R>, mending: &mut Mending<R>) -> Progress
    ensures tends { IsTended R.model R.frames slot.old slot.new mending.old mending.new }
    ensures served { IsServed R.model [] slot.old slot.new }
    ensures none_waits { result ≡ Progress.Nothing → queue_of slot.new ≡ [] }
    ensures fewer { result ≡ Progress.Made → length (queue_of slot.new) < length (queue_of slot.old) }
    ensures stays { result ≢ Progress.Made → queue_of slot.new ≡ queue_of slot.old }
{
    match try_own(slot, mending) {
        Progress::Short => Progress::Short,
        Progress::Nothing | Progress::Made => apply_first(slot, mending),
    }
}
