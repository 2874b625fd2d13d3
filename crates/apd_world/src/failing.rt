//! A core that is told to fail.
ghost use Rattle.std.specs.Prelude.{◌≡◌, [], true};

use crate::durable_core::DurableCore;
use crate::world::World;
use apd_disk::Disk;
use apd_radio::Radio;

impl<D: Disk> DurableCore<D> {
    ghost use Rattle.apd_world.specs.Proper.{IsSafe};

    // Tells the core to fail.
    fn fail(&mut self)
        ensures only { self.new ≡ record self.old { core = record self.old.core { failed = true } } }
        ensures safe { IsSafe D.model self.old self.new }
    {
        apd_steps::fail(&mut self.core, &self.committer);
    }
}

impl<D: Disk, R: Radio> World<D, R> {
    ghost use Rattle.apd_world.specs.Failing.{IsFailed};
    ghost use Rattle.apd_world.specs.Following.{AreExact, AreFollowing};
    ghost use Rattle.apd_world.specs.History.{History};
    ghost use Rattle.apd_world.specs.StandsFor.{LeadsSafely, StandsFor};
    ghost use Rattle.apd_world.specs.WorldParts.{slots_of};

    /// Tells the core to fail: from now on no request is accepted and no batch is taken; what is in flight may still be
    /// settled. All else of the world stays, and a stop leaves what it left. It is no step, and is called between lists
    /// of steps: the world stands for the history that it stood for. It is for who makes a world's steps in one thread;
    /// served, the committing worker does so.
    pub fn fail(&mut self)
        ensures failed { IsFailed D.model self.old self.new }
        ensures exact { AreExact R.model (slots_of self.old) → AreExact R.model (slots_of self.new) }
        ensures following { AreFollowing self.old → AreFollowing self.new }
        ensures leads { (h : History) → StandsFor self.old h → LeadsSafely D.model [] [] self.old self.new h h }
    {
        self.durable.fail();
    }
}
