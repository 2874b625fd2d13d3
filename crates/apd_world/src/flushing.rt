//! A world flushed: what is unsettled is committed, and what is settled is handed out and applied.
ghost use Rattle.std.specs.Prelude.{◌≡◌, IfErr, IfOk, OnErr, OnOk, []};
ghost use Rattle.apd_core.specs.Core.{last_of};

use crate::durable_core::DurableCore;
use crate::fault::WorldFault;
use crate::step::{Commit, Told};
use crate::world::World;
use apd_disk::Disk;
use apd_mlme::Recipient;
use apd_radio::Radio;
use apd_store::StoreFault;

impl<D: Disk> DurableCore<D> {
    ghost use Rattle.apd_world.specs.Ending.{IsEnd};

    // What commits end with, after a round that came to this. A settled batch ends nothing.
    fn end_by(&self, answer: Commit) -> Option<Result<(), WorldFault>>
        ensures { IsEnd answer self.now result }
    {
        match answer {
            Commit::Settled => None,
            Commit::Nothing if self.is_settled() => Some(Ok(())),
            Commit::Nothing | Commit::Foreign => Some(Err(WorldFault::Store(StoreFault::Failed))),
            Commit::Refused(fault) => Some(Err(WorldFault::Store(fault))),
            Commit::NoMemory => Some(Err(WorldFault::NoMemory)),
        }
    }
}

impl<D: Disk, R: Radio> World<D, R> {
    ghost use Rattle.apd_world.specs.StepsMade.{AreSettled};
    ghost use Rattle.apd_world.specs.Proper.{IsWhole};
    ghost use Rattle.apd_world.specs.WorldParts.{durable_of};
    ghost use Rattle.apd_world.specs.CutShort.{AreOfFlush, AreRoundsOf, WereMade};
    ghost use Rattle.apd_world.specs.Ending.{HasEnded, HasFailedCore};
    ghost use Rattle.apd_world.specs.HandingOut.{HoldsReplies};
    ghost use Rattle.apd_world.specs.Starting.{IsFlushed};

    // Commits until nothing is unsettled.
    fn settle(&mut self) -> Result<(), WorldFault>
        ensures ok { OnOk result (AreSettled D.model R.model self.old self.new) }
        ensures ended { IfErr result (λ fault. HasEnded D.model R.model fault self.old self.new) }
        ensures failed { IsWhole D.model (durable_of self.old)
            → IfErr result (λ fault. HasFailedCore fault self.new) }
        ensures none_entered { last_of (durable_of self.new).core ≡ last_of (durable_of self.old).core }
        ensures cut { OnErr result (WereMade D.model R.model AreRoundsOf self.old self.new) }
        ensures replies { HoldsReplies (durable_of self.old) (durable_of self.new) }
    {
        self.durable.stops();
        loop {
            let answer = self.commit();
            if let Some(end) = self.durable.end_by(answer) {
                return end;
            }
        }
    }

    /// Commits until nothing is unsettled, and hands out what is settled. A batch or a receipt that is under way is
    /// gone on with. It answers as `hand_out` does.
    ///
    /// Errors: `Store` where the store refuses, with the fault that a step told, and with `Failed` where the core has
    /// failed or a round settled nothing; `NoMemory`. The steps that were made stand: rounds, and the front of a hand-out.
    /// Control was given nothing, so that no reply is lost.
    #[tactic(auto, using(crate::proofs::EndLemmas::if_residual, crate::proofs::EndLemmas::memory_fails_none))]
    pub fn flush(&mut self) -> Result<Vec<(Recipient, Told)>, WorldFault>
        ensures flushed { IfOk result (λ answers. IsFlushed D.model R.model [] answers.items self.old self.new) }
        ensures err { IfErr result (λ fault. HasEnded D.model R.model fault self.old self.new) }
        ensures failed { IsWhole D.model (durable_of self.old)
            → IfErr result (λ fault. HasFailedCore fault self.new) }
        ensures none_entered { last_of (durable_of self.new).core ≡ last_of (durable_of self.old).core }
        ensures cut { OnErr result
            (WereMade D.model R.model (AreOfFlush (durable_of self.old).core.confs) self.old self.new) }
        ensures none { OnErr result (HoldsReplies (durable_of self.old) (durable_of self.new)) }
    {
        self.settle()?;
        self.hand_out()
    }
}
