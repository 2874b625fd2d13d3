//! The steps of a world.
ghost use Rattle.std.specs.Prelude.{[], ◌∷◌};
ghost use Rattle.apd_world.specs.declared.step.Step.TheVariants.{Hand, Apply};
ghost use Rattle.apd_mlme.specs.declared.decision.Recipient.TheVariants.{Radio as Of};

use crate::slots::{apply_first, hand_to, place_of};
use crate::step::{Step, Told};
use crate::world::World;
use apd_base::Bssid;
use apd_disk::Disk;
use apd_mlme::Recipient;
use apd_radio::Radio;

impl<D: Disk, R: Radio> World<D, R> {
    ghost use Rattle.apd_world.specs.Following.{AreExact, AreFollowing};
    ghost use Rattle.apd_world.specs.History.{History};
    ghost use Rattle.apd_world.specs.Proper.{IsSafeAtBoth, IsStepMade};
    ghost use Rattle.apd_world.specs.StandsFor.{LeadsOn, StandsFor};
    ghost use Rattle.apd_world.specs.WorldParts.{durable_of, slots_of};
    ghost use Rattle.apd_world.specs.WorldRun.{IsWorldStep};

    // Hands what is ready for a radio to its slot, if it has one.
    fn queue_ready(&mut self, bssid: Bssid) -> Told
        ensures step { IsWorldStep R.model (Hand (Of bssid)) result self.old self.new }
        ensures made { IsStepMade D.model result (durable_of self.old) (durable_of self.new) }
    {
        self.durable.stops();
        let Some(place) = place_of(&self.slots, bssid) else {
            return Told::Nothing;
        };
        hand_to(&mut self.durable, &mut self.slots[place], bssid)
    }

    // Hands out what is ready for a recipient: to control itself, to a radio's slot behind what waits there.
    fn hand(&mut self, to: Recipient) -> Told
        ensures step { IsWorldStep R.model (Hand to) result self.old self.new }
        ensures made { IsStepMade D.model result (durable_of self.old) (durable_of self.new) }
    {
        match to {
            Recipient::Radio(bssid) => self.queue_ready(bssid),
            Recipient::Control => self.durable.step(&Step::Hand(to)),
        }
    }

    // Applies the first out that waits at a BSSID's slot.
    fn apply(&mut self, bssid: Bssid) -> Told
        ensures step { IsWorldStep R.model (Apply bssid) result self.old self.new }
        ensures made { IsStepMade D.model result (durable_of self.old) (durable_of self.new) }
    {
        self.durable.stops();
        let Some(place) = place_of(&self.slots, bssid) else {
            return Told::Nothing;
        };
        apply_first(&mut self.slots[place])
    }

    // Makes one step.
    fn make(&mut self, step: &Step<'_>) -> Told
        ensures step { IsWorldStep R.model step.now result self.old self.new }
        ensures made { IsStepMade D.model result (durable_of self.old) (durable_of self.new) }
    {
        match *step {
            Step::Hand(to) => self.hand(to),
            Step::Apply(bssid) => self.apply(bssid),
            _ => self.durable.step(step),
        }
    }

    /// Makes one step, and tells its answer. What a stop leaves is as of the durable core's step; a step that applies
    /// an out leaves the durable core, and any other the slots. A stop before it, and one after it, is safe.
    ///
    /// Whatever history the world stands for, it stands for a later one after the step, in which what is new is what
    /// the step told; and what a stop leaves until then is the table after some of what happened, from the front, with
    /// all of which anything had been said.
    #[tactic(auto, using(crate::proofs::Moving::exact))]
    pub fn step(&mut self, step: &Step<'_>) -> Told
        ensures step { IsWorldStep R.model step.now result self.old self.new }
        ensures made { IsStepMade D.model result (durable_of self.old) (durable_of self.new) }
        ensures stops { IsSafeAtBoth D.model (durable_of self.old) (durable_of self.new) }
        ensures exact { AreExact R.model (slots_of self.old) → AreExact R.model (slots_of self.new) }
        ensures following { AreFollowing self.old → AreFollowing self.new }
        ensures leads { (h : History) → StandsFor self.old h
            → LeadsOn D.model (step.now ∷ []) (result ∷ []) self.old self.new h }
    {
        self.durable.stops();
        let told = self.make(step);
        self.durable.stops();
        told
    }
}
