//! A batch committed, by a round of steps.
ghost use Rattle.std.specs.Prelude.{◌≡◌, ◌≤◌, ◌<◌, ◌⊎◌, IsTrue, false};
ghost use Rattle.apd_flusher.specs.Outside.{calls_left, phase_of};
ghost use Rattle.apd_world.specs.CoreRun.{GoesQuietly};
ghost use Rattle.apd_world.specs.Round.{commit_of};

use crate::durable_core::DurableCore;
use crate::step::{Commit, Step, Told};
use crate::world::World;
use apd_core::PublishFault;
use apd_disk::Disk;
use apd_flusher::Phase;
use apd_radio::Radio;

// What a step says of its round.
fn commit_of(told: Told) -> Option<Commit>
    ensures { result ≡ commit_of told }
{
    match told {
        Told::Loaded(Err(fault)) => Some(Commit::Refused(fault)),
        Told::Called(Err(fault)) => Some(Commit::Refused(fault)),
        Told::Published(Ok(())) => Some(Commit::Settled),
        Told::Published(Err(PublishFault::Foreign)) => Some(Commit::Foreign),
        Told::Published(Err(PublishFault::NoMemory)) => Some(Commit::NoMemory),
        Told::NoMemory => Some(Commit::NoMemory),
        _ => None,
    }
}

impl<D: Disk> DurableCore<D> {
    ghost use Rattle.apd_world.specs.Outside.{flusher_of};
    ghost use Rattle.apd_world.specs.Telling.{HasNoCall};

    // Whether `Call` has a call to make, or one to refuse.
    fn has_call(&self) -> bool
        ensures some { IsTrue result
            → (phase_of (flusher_of self.now) ≡ Phase.Busy) ⊎ (phase_of (flusher_of self.now) ≡ Phase.Failed) }
        ensures left { phase_of (flusher_of self.now) ≡ Phase.Busy → 1 ≤ calls_left (flusher_of self.now) }
        ensures none { result ≡ false → HasNoCall self.now }
    {
        match self.committer.phase() {
            Phase::Busy | Phase::Failed => true,
            Phase::Idle | Phase::Done => false,
        }
    }
}

impl<D: Disk, R: Radio> World<D, R> {
    ghost use Rattle.apd_world.specs.Proper.{IsWhole};
    ghost use Rattle.apd_world.specs.Round.{IsRoundAnswer, Commits, IsRound};
    ghost use Rattle.apd_world.specs.Telling.{HasNoBatch, HasNoCall, HasNoReceipt};
    ghost use Rattle.apd_world.specs.WorldParts.{durable_of};
    ghost use Rattle.apd_world.specs.WorldRun.{RestStays};

    /// Commits a batch by one round of steps: takes it, makes the calls that are left, ten at most, and
    /// publishes the receipt. It answers what the steps say first: that one was refused, or that a batch is
    /// settled; else there was nothing. The slots stay.
    ///
    /// A new batch of no changes has no call, and leaves the device as it was.
    ///
    /// From a whole world on that has not failed, also with a batch or a receipt under way, a round in which the device
    /// didn't fail, no memory was refused and there is room for the batch, or the other half can begin anew, settles one
    /// entry or more, where any is unsettled. It leads from history to history, as all steps do.
    pub fn commit(&mut self) -> Commit
        ensures round { IsRound D.model R.model result self.old self.new }
        ensures comes_to { IsWhole D.model (durable_of self.old)
            → IsRoundAnswer D.model result (durable_of self.old) (durable_of self.new) }
        ensures commits { IsWhole D.model (durable_of self.old)
            → Commits D.model result (durable_of self.old) (durable_of self.new) }
        ensures rest_stays { RestStays self.old self.new }
        ensures settled { result ≡ Commit.Settled
            → ((durable_of self.old).core.number < (durable_of self.new).core.number)
            × ((durable_of self.new).core.flight ≡ 0) }
        ensures nothing { result ≡ Commit.Nothing → HasNoBatch (durable_of self.old)
            × HasNoCall (durable_of self.old) × HasNoReceipt (durable_of self.old)
            × (durable_of self.new ≡ durable_of self.old) }
        ensures rests { HasNoBatch (durable_of self.old) → HasNoCall (durable_of self.old)
            → HasNoReceipt (durable_of self.old) → result ≡ Commit.Nothing }
        ensures quiet { GoesQuietly (durable_of self.old).core (durable_of self.new).core }
    {
        let taken = commit_of(self.step(&Step::Take));
        let mut called = None;
        while called.is_none() && self.durable.has_call() {
            called = commit_of(self.step(&Step::Call));
        }
        let published = commit_of(self.step(&Step::Publish));
        taken.or(called).or(published).unwrap_or(Commit::Nothing)
    }
}
