//! What is settled is handed out: to each radio into the queue of its slot, where each out is applied; and then to
//! control.
ghost use Rattle.std.specs.Prelude.{◌≡◌, ◌≢◌, ◌≤◌, IfErr, IfOk, IsTrue, OnErr, OnOk, [], ◌∷◌, false, length};

use crate::fault::WorldFault;
use crate::slots::place_of;
use crate::step::{Step, Told};
use crate::world::World;
use apd_base::Bssid;
use apd_disk::Disk;
use apd_mlme::Recipient;
use apd_radio::Radio;

/// What steps told, each with the recipient of what was handed out or applied.
pub(crate) type Answers = Vec<(Recipient, Told)>;

impl<D: Disk, R: Radio> World<D, R> {
    ghost use Rattle.apd_world.specs.StepsMade.{AreAllApplied, AreAnswered};
    ghost use Rattle.apd_world.specs.WorldParts.{durable_of, queue_of};
    ghost use Rattle.apd_world.specs.CutShort.{AreAtRadios, AreOfHanding, AreToRadios, IsAtMost, WereMade};
    ghost use Rattle.apd_world.specs.Ending.{HasMetNoRefusal};
    ghost use Rattle.apd_world.specs.HandingOut.{HoldsReplies, IsForRadio, IsHandedOut, IsHanding, OnlyHands, radio_hands, recipient_of};
    ghost use Rattle.apd_world.specs.WorldRun.{IsWorldStep};

    #[tactic(auto, using(crate::proofs::RunLemmas::only_hands, crate::proofs::RunLemmas::holds_replies, crate::proofs::RunLemmas::none_handed))]
    // Makes a step, and adds what it told, for a recipient. Room is made before.
    fn answer(
        &mut self,
        to: Recipient,
        step: &Step<'_>,
        answers: &mut Answers,
    ) -> Result<(), WorldFault>
        ensures step { OnOk result
            ((told : Told) × (told ≢ Told.NoMemory) × IsWorldStep R.model step.now told self.old self.new) }
        ensures ok { OnOk result (IsHanding step.now → to ≡ recipient_of step.now
            → AreAnswered D.model R.model (step.now ∷ []) answers.old.items answers.new.items self.old self.new) }
        ensures err { OnErr result (IsHanding step.now → HasMetNoRefusal D.model R.model self.old self.new) }
        ensures fault { IfErr result (λ fault. fault ≡ WorldFault.NoMemory) }
        ensures only { IsHanding step.now → OnlyHands (durable_of self.old) (durable_of self.new) }
        ensures replies { IsForRadio step.now → HoldsReplies (durable_of self.old) (durable_of self.new) }
        ensures none { OnErr result (IsHanding step.now → HoldsReplies (durable_of self.old) (durable_of self.new)) }
        ensures cut { OnErr result (IsHanding step.now
            → WereMade D.model R.model (IsAtMost step.now) self.old self.new) }
    {
        self.durable.stops();
        if answers.reserve(1).is_err() {
            return Err(WorldFault::NoMemory);
        }
        match self.step(step) {
            Told::NoMemory => Err(WorldFault::NoMemory),
            told => {
                answers.push_reserved((to, told));
                Ok(())
            }
        }
    }

    #[tactic(auto, using(crate::proofs::RunLemmas::hands_then))]
    // Hands out to each radio, in the order of the configurations.
    fn hand_to_radios(&mut self, answers: &mut Answers) -> Result<(), WorldFault>
        ensures ok { OnOk result (AreAnswered D.model R.model
            (radio_hands (durable_of self.old).core.confs) answers.old.items answers.new.items self.old self.new) }
        ensures err { OnErr result (HasMetNoRefusal D.model R.model self.old self.new) }
        ensures cut { OnErr result
            (WereMade D.model R.model (AreToRadios (durable_of self.old).core.confs) self.old self.new) }
        ensures fault { IfErr result (λ fault. fault ≡ WorldFault.NoMemory) }
        ensures only { OnlyHands (durable_of self.old) (durable_of self.new) }
        ensures replies { HoldsReplies (durable_of self.old) (durable_of self.new) }
    {
        self.durable.stops();
        for place in 0..self.confs().list().len() {
            let to = Recipient::Radio(self.confs().list()[place].bssid);
            self.answer(to, &Step::Hand(to), answers)?;
        }
        Ok(())
    }

    // Whether an out waits at a BSSID's slot.
    fn has_out(&self, bssid: Bssid) -> bool
        ensures some { IsTrue result → 1 ≤ length (queue_of self.now bssid) }
        ensures none { result ≡ false → queue_of self.now bssid ≡ [] }
    {
        match place_of(&self.slots, bssid) {
            Some(place) => self.slots[place].waiting_count() > 0,
            None => false,
        }
    }

    #[tactic(auto, using(crate::proofs::RunLemmas::hands_then))]
    // Applies each out that waits at a slot, in the order of the configurations.
    fn apply_all(&mut self, answers: &mut Answers) -> Result<(), WorldFault>
        ensures ok { OnOk result (AreAllApplied D.model R.model
            (durable_of self.old).core.confs answers.old.items answers.new.items self.old self.new) }
        ensures err { OnErr result (HasMetNoRefusal D.model R.model self.old self.new) }
        ensures cut { OnErr result
            (WereMade D.model R.model (AreAtRadios (durable_of self.old).core.confs) self.old self.new) }
        ensures fault { IfErr result (λ fault. fault ≡ WorldFault.NoMemory) }
        ensures only { OnlyHands (durable_of self.old) (durable_of self.new) }
        ensures replies { HoldsReplies (durable_of self.old) (durable_of self.new) }
    {
        self.durable.stops();
        for place in 0..self.confs().list().len() {
            let bssid = self.confs().list()[place].bssid;
            while self.has_out(bssid) {
                self.answer(Recipient::Radio(bssid), &Step::Apply(bssid), answers)?;
            }
        }
        Ok(())
    }

    /// Hands out what is settled: to each radio, in the order of the configurations, into the queue of its slot; then
    /// applies each out that waits at a slot, in that order; and last of all hands out to control. It answers what these
    /// steps told, each with its recipient; a slot that went down, or a frame that was lost, is told so.
    ///
    /// Errors: `NoMemory`. The steps that were made stand: the front of that list. Control was given nothing, so that no reply is lost.
    pub fn hand_out(&mut self) -> Result<Vec<(Recipient, Told)>, WorldFault>
        ensures handed { IfOk result (λ answers. IsHandedOut D.model R.model [] answers.items self.old self.new) }
        ensures err { OnErr result (HasMetNoRefusal D.model R.model self.old self.new) }
        ensures fault { IfErr result (λ fault. fault ≡ WorldFault.NoMemory) }
        ensures only { OnlyHands (durable_of self.old) (durable_of self.new) }
        ensures none { OnErr result (HoldsReplies (durable_of self.old) (durable_of self.new)) }
        ensures cut { OnErr result
            (WereMade D.model R.model (AreOfHanding (durable_of self.old).core.confs) self.old self.new) }
    {
        self.durable.stops();
        let mut answers = Vec::new(self.alloc);
        self.hand_to_radios(&mut answers)?;
        self.apply_all(&mut answers)?;
        self.answer(
            Recipient::Control,
            &Step::Hand(Recipient::Control),
            &mut answers,
        )?;
        Ok(answers)
    }
}
