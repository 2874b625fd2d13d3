//! Access to a core by who submits requests, and takes what leaves.
ghost use Rattle.apd_slot.specs.Slots.{bssid_of};
ghost use Rattle.apd_steps.specs.Calls.{AskTells, CollectTells, Made, SubmitTells, exactly, outs_in};
ghost use Rattle.apd_steps.specs.Handing.{HandsTo};

use apd_base::Moment;
use apd_core::{Accepted, Answer, Core, Input};
use apd_ctrl::Query;
use apd_mlme::{Out, Recipient};
use apd_radio::Radio;
use apd_slot::Slot;
use std::alloc::AllocError;

/// A core that is asked: the core itself, or one that others call in between. What a call does is said once, here; how
/// much of it is known of the core before and after, by `made`.
pub trait Asks {
    /// Why a query is not answered.
    type Refusal;

    /// That a call was made by which a core went so.
    ghost made: { Made Self };

    /// The core's `accept`.
    fn submit<'a>(&mut self, input: Input<'a>, moment: Moment) -> Result<Accepted<'a>, AllocError>
        ensures { made (SubmitTells input.entry moment result) self.old self.new };

    /// The core's `read`.
    fn ask(&mut self, query: Query) -> Result<Answer, Self::Refusal>
        ensures { made (AskTells query result) self.old self.new };

    /// The core's `hand`.
    fn collect(&mut self, to: Recipient) -> Result<Vec<Out>, AllocError>
        ensures { made (CollectTells to (outs_in (λ outs. outs.items) result)) self.old self.new };

    /// Hands what is ready for the radio of a slot to the slot, behind what waits there, and tells how many outs.
    ///
    /// Errors: where memory ran out, and no out has left the core.
    fn hand_to<R: Radio>(&mut self, slot: &mut Slot<R>) -> Result<usize, AllocError>
        ensures { made (λ core after. HandsTo (bssid_of slot.old) result core after slot.old slot.new)
            self.old self.new };
}

// Of the core itself all is known.
impl Asks for Core {
    type Refusal = AllocError;

    ghost made = { exactly };

    #[tactic(auto, using(crate::proofs::CallLemmas::submit_tells))]
    fn submit<'a>(&mut self, input: Input<'a>, moment: Moment) -> Result<Accepted<'a>, AllocError> {
        self.sound();
        self.accept(input, moment)
    }

    #[tactic(auto, using(crate::proofs::CallLemmas::ask_tells))]
    fn ask(&mut self, query: Query) -> Result<Answer, AllocError> {
        self.sound();
        self.read(query)
    }

    #[tactic(auto, using(crate::proofs::CallLemmas::collect_tells))]
    fn collect(&mut self, to: Recipient) -> Result<Vec<Out>, AllocError> {
        self.sound();
        self.hand(to)
    }

    fn hand_to<R: Radio>(&mut self, slot: &mut Slot<R>) -> Result<usize, AllocError> {
        self.sound();
        let bssid = slot.bssid();
        crate::handing::hand_to(self, slot, bssid)
    }
}
