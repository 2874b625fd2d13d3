//! Mending a slot that went down: by other radios, and by giving its own anew what is wanted.
ghost use Rattle.std.specs.Prelude.{◌≡◌, ◌<◌, ◌≤◌, ◌+◌, [], ◌∷◌, true, false, IsTrue};
ghost use Rattle.apd_slot.specs.Mending.{Begins, GoesOn, HasOwnTries, IsEndOf, IsMended, IsTried};
ghost use Rattle.apd_slot.specs.Slots.{is_up_of, radio_of, IsExact};
ghost use Rattle.apd_slot.specs.declared.mending.TheConstants.{TRIES};

use crate::slot::Slot;
use apd_radio::Radio;
use std::collections::VecDeque;

/// How often after a fault a slot's own radio is given anew what is wanted.
const TRIES: u8 = 3;

/// By what a slot is mended: other radios, each of which is tried once in the place of its own, and how often its own
/// is still given anew what is wanted.
#[derive(Drop)]
pub struct Mending<R> {
    spares: VecDeque<R>,
    tries: u8,
}

// Puts another radio in the place of a slot's, and drops the one that comes back. Tells whether the slot is up then.
fn try_replace<R: Radio>(slot: &mut Slot<R>, spare: R) -> bool
    ensures up { is_up_of slot.new ≡ result }
    ensures mended { IsMended R.model R.frames (spare ∷ []) slot.old slot.new }
    ensures refused { result ≡ false → radio_of slot.new ≡ radio_of slot.old }
    ensures tried { IsTried R.model R.frames spare result slot.old slot.new }
{
    slot.replace(spare).is_ok()
}

impl<R: Radio> Mending<R> {
    /// The slot met no fault: no try is left to its own radio. The spares are tried in this order.
    pub fn new(spares: Vec<R>) -> Mending<R>
        ensures tries { result.tries ≡ 0 }
        ensures spares { result.spares.items ≡ spares.items }
    {
        Mending {
            spares: VecDeque::from_vec(spares),
            tries: 0,
        }
    }

    /// The slot met a fault: the spares are tried, in order, until it is up; each that was tried is gone then, and those
    /// behind it are left for the next fault. If none serves, its own radio has its tries.
    pub fn begin(&mut self, slot: &mut Slot<R>)
        ensures begins { Begins R.model R.frames self.old self.new slot.old slot.new }
        ensures mended { IsMended R.model R.frames self.old.spares.items slot.old slot.new }
        ensures served { is_up_of slot.old ≡ false → is_up_of slot.new ≡ true → self.new.tries ≡ 0 }
        ensures all_tried { is_up_of slot.new ≡ false → HasOwnTries self.new }
        ensures in_order { IsEndOf self.new.spares.items self.old.spares.items }
        ensures most { self.new.tries ≤ TRIES }
    {
        self.tries = TRIES;
        while let Some(spare) = self.spares.pop_front() {
            if try_replace(slot, spare) {
                self.tries = 0;
                return;
            }
        }
    }

    /// Gives the slot's own radio anew what is wanted, where a try is left. Tells whether one was.
    pub fn go_on(&mut self, slot: &mut Slot<R>) -> bool
        ensures goes_on { GoesOn R.model R.frames result self.old self.new slot.old slot.new }
        ensures mended { IsMended R.model R.frames [] slot.old slot.new }
        ensures fewer { IsTrue result → self.new.tries < self.old.tries }
        ensures served { IsTrue result → is_up_of slot.new ≡ true → self.new.tries ≡ 0 }
        ensures failed { IsTrue result → is_up_of slot.new ≡ false → self.new.tries + 1 ≡ self.old.tries }
        ensures none_left { result ≡ false → (self.old.tries ≡ 0) × (slot.new ≡ slot.old) }
        ensures spares { self.new.spares ≡ self.old.spares }
    {
        let Some(left) = self.tries.checked_sub(1) else {
            return false;
        };
        self.tries = if slot.resync().is_ok() { 0 } else { left };
        true
    }
}
