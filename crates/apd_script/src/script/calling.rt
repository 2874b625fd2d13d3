//! The calls of the world that a script makes. Each says of it what a script's line does there, and no more, so that a
//! caller's proof carries no long contract.
ghost use Rattle.std.specs.Prelude.{◌≡◌, IfErr, None, OnOk};

use super::runner::Runner;
use apd_disk::Disk;
use apd_mlme::Recipient;
use apd_radio::Radio;
use apd_world::{Step, Told, WorldFault};

/// What was handed out and applied, each with its recipient.
pub type Answers = Vec<(Recipient, Told)>;

impl<D: Disk + Drop, R: Radio> Runner<D, R> {
    ghost use Rattle.apd_script.specs.Faults.{IsEndedBy, IsShort};
    ghost use Rattle.apd_script.specs.Script.{Flushes, HandsOut, Makes, Starts};

    /// Makes a step.
    pub fn make(&mut self, step: &Step<'_>) -> Told
        ensures { Makes D.model R.model step.now result self.old self.new }
    {
        self.world.step(step)
    }

    /// Hands out what is settled.
    pub fn hand_out(&mut self) -> Result<Answers, WorldFault>
        ensures ok { OnOk result (HandsOut D.model R.model self.old self.new) }
        ensures err { IfErr result (λ why. IsShort D.model R.model why self.old.world self.new.world) }
    {
        self.world.hand_out()
    }

    /// Commits until nothing is unsettled, and hands out: where no refusal was met.
    pub fn flush(&mut self) -> Result<Answers, WorldFault>
        ensures ok { self.old.refusal ≡ None → OnOk result (Flushes D.model R.model self.old self.new) }
        ensures err { IfErr result (λ why. IsEndedBy D.model R.model why self.old.world self.new.world) }
    {
        self.world.flush()
    }

    /// Starts the interfaces.
    pub fn start(&mut self) -> Result<Answers, WorldFault>
        ensures ok { OnOk result (Starts D.model R.model self.old self.new) }
        ensures err { IfErr result (λ why. IsEndedBy D.model R.model why self.old.world self.new.world) }
    {
        self.world.start()
    }
}
