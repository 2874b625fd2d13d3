//! A world started: its interfaces are configured, and what that brings about is committed, handed out and applied.
ghost use Rattle.std.specs.Prelude.{◌≡◌, IfErr, IfOk, OnErr, OnOk};

use crate::fault::WorldFault;
use crate::step::{Step, Told};
use crate::world::World;
use apd_base::Moment;
use apd_core::Input;
use apd_disk::Disk;
use apd_mlme::Recipient;
use apd_mlme::laws::a_command_is_answered_truly;
use apd_radio::Radio;

impl<D: Disk, R: Radio> World<D, R> {
    ghost use Rattle.apd_world.specs.StepsMade.{AreAccepted};
    ghost use Rattle.apd_world.specs.Proper.{IsWhole};
    ghost use Rattle.apd_world.specs.WorldParts.{durable_of};
    ghost use Rattle.apd_world.specs.CutShort.{AreFirstConfigured, AreOfStart, WereMade};
    ghost use Rattle.apd_world.specs.Ending.{HasEnded, HasFailedCore, HasMetNoRefusal};
    ghost use Rattle.apd_world.specs.HandingOut.{HoldsReplies};
    ghost use Rattle.apd_world.specs.Starting.{IsStarted};

    // Accepts each interface's configuration, with its lists, in order. One that is no entry is passed over.
    fn configure(&mut self) -> Result<(), WorldFault>
        ensures ok { OnOk result (AreAccepted D.model R.model (durable_of self.old).core.confs self.old self.new) }
        ensures err { OnErr result (HasMetNoRefusal D.model R.model self.old self.new) }
        ensures fault { IfErr result (λ fault. fault ≡ WorldFault.NoMemory) }
        ensures cut { OnErr result
            (WereMade D.model R.model (AreFirstConfigured (durable_of self.old).core.confs) self.old self.new) }
        ensures replies { HoldsReplies (durable_of self.old) (durable_of self.new) }
    {
        a_command_is_answered_truly();
        self.durable.stops();
        let Ok(confs) = self.confs().copy(self.alloc) else {
            return Err(WorldFault::NoMemory);
        };
        for conf in confs.list() {
            let input = Input::Configure {
                bssid: conf.bssid,
                accept: &conf.accept,
                deny: &conf.deny,
            };
            self.durable.sound();
            match self.step(&Step::Accept(input, Moment(0))) {
                Told::NoMemory => {
                    drop(confs);
                    return Err(WorldFault::NoMemory);
                }
                told => drop(told),
            }
        }
        drop(confs);
        Ok(())
    }

    /// Starts each interface: accepts its configuration, with its lists, in order, and flushes what that brings
    /// about. It answers as `hand_out` does. A configuration that is no entry, as that of a ninth
    /// BSSID, or any where the core is busy or has stopped, is passed over.
    ///
    /// Errors: `Store` where the store refuses, with the fault that a step told, and with `Failed` where the core has
    /// failed or a round settled nothing; `NoMemory`. The steps that were made stand: the front of that list. Control was
    /// given nothing, and a configuration has no reply: those that waited still wait, and no other does.
    #[tactic(auto, using(crate::proofs::EndLemmas::if_residual, crate::proofs::EndLemmas::memory_fails))]
    pub fn start(&mut self) -> Result<Vec<(Recipient, Told)>, WorldFault>
        ensures started { IfOk result (λ answers. IsStarted D.model R.model answers.items self.old self.new) }
        ensures err { IfErr result (λ fault. HasEnded D.model R.model fault self.old self.new) }
        ensures failed { IsWhole D.model (durable_of self.old)
            → IfErr result (λ fault. HasFailedCore fault self.new) }
        ensures cut { OnErr result
            (WereMade D.model R.model (AreOfStart (durable_of self.old).core.confs) self.old self.new) }
        ensures none { OnErr result (HoldsReplies (durable_of self.old) (durable_of self.new)) }
    {
        self.configure()?;
        self.flush()
    }
}
