//! What a reader may rely on, whatever lines a script has: each law is the contract of a function that does
//! nothing.
ghost use Rattle.std.specs.Prelude.{◌≡◌, List, ℕ, []};
ghost use Rattle.apd_script.specs.Lines.{HaveNoStop};
ghost use Rattle.apd_script.specs.Script.{AreFoundHonest, AreRun, IsProperAt, IsScriptRun, Starts};
ghost use Rattle.apd_script.specs.declared.script.runner.Runner.{Runner};
ghost use Rattle.apd_world.specs.History.{History};
ghost use Rattle.apd_world.specs.Proper.{IsProper, IsSafe};
ghost use Rattle.apd_world.specs.SafelyMade.{AreMadeInTurn, LeadsSince};
ghost use Rattle.apd_world.specs.StandsFor.{StandsFor};
ghost use Rattle.apd_world.specs.Ending.{HasGoneOn};
ghost use Rattle.apd_world.specs.WorldParts.{durable_of};
ghost use Rattle.apd_world.specs.declared.step.Step.{Step};
ghost use Rattle.apd_world.specs.declared.step.Told.{Told};
ghost use Rattle.apd_world.specs.declared.world.World.{World as AnyWorld};

use apd_disk::Disk;
use apd_radio::Radio;

/// Lines of a script among which is no `stop` make one list of steps of the world at which they begin, and so do the
/// start in front of them and these lines: what is proved of a world for every list of steps holds of each part of a
/// script from one start to the next `stop`, or to its end. No line makes no step: that a stop is then as safe is what
/// `World::stops` tells of every world.
pub fn lines_without_a_stop_are_one_run<D: Disk, R: Radio>()
    ensures lines { (n : ℕ) (texts : List (List ℕ)) (old new : Runner D R)
        → (texts ≡ [] → IsSafe D.model (durable_of old.world) (durable_of old.world))
        → HaveNoStop texts → AreRun D.model R.model n texts old new
        → HasGoneOn D.model R.model old.world new.world }
    ensures part { (n : ℕ) (texts : List (List ℕ)) (old started new : Runner D R)
        → Starts D.model R.model old started → HaveNoStop texts → AreRun D.model R.model n texts started new
        → HasGoneOn D.model R.model old.world new.world }
{}

/// Whatever history the world stands for at which such a part begins: it stands for a later one after the part, and
/// however many of the steps had been made, in the midst of a line too, as of a `flush` that hands out, a stop at any
/// moment since then leaves the table after some of what happened, from the front, with all of which anything had been
/// said by then. At a `stop` itself, what it begins anew from is said where it is run.
pub fn a_stop_within_a_script_loses_nothing_told<D: Disk, R: Radio>()
    ensures { (n : ℕ) (texts : List (List ℕ)) (old started new : Runner D R)
        → Starts D.model R.model old started → HaveNoStop texts → AreRun D.model R.model n texts started new
        → (steps : List Step) × (tolds : List Told) × AreMadeInTurn D.model R.model steps tolds old.world new.world
        × ((h : History) → StandsFor old.world h → (count : ℕ)
        → LeadsSince D.model R.model count steps tolds old.world new.world h) }
{}

/// Whatever lines a script has, a `stop` among them: where its world was proper, as of an honest device, and each stop
/// found the device honest, the one after them is. So what is proved of the steps from a proper world holds at each line.
pub fn a_script_leaves_a_proper_world_proper<D: Disk, R: Radio>()
    ensures { (texts : List (List ℕ)) (w : AnyWorld D R) (radios : List R) (last : Runner D R)
        → (h : IsScriptRun D.model R.model texts w radios last)
        → AreFoundHonest D.model R.model 1 texts h.started last h.run → IsProper D.model (durable_of w)
        → IsProperAt D.model R.model last }
{}
