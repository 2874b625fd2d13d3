//! Worlds on disks that are always honest.
ghost use Rattle.std.specs.Prelude.{List, Option, ℕ};
ghost use Rattle.apd_base.specs.State.{State};
ghost use Rattle.apd_base.specs.declared.address.Bssid.{Bssid};
ghost use Rattle.apd_base.specs.declared.moment.Moment.{Moment};
ghost use Rattle.apd_conf.specs.declared.conf.Conf.{Conf};
ghost use Rattle.apd_flusher.specs.Flushing.{IsSteady};
ghost use Rattle.apd_honest.specs.Worlds.{IsBegunOutright, IsNotBegunOutright, LosesNothingTold};
ghost use Rattle.apd_script.specs.Script.{IsProperAt, IsRunOn, IsScriptRun};
ghost use Rattle.apd_script.specs.declared.script.runner.Runner.{Runner};
ghost use Rattle.apd_slot.specs.declared.slot.Slot.{Slot};
ghost use Rattle.apd_slot.specs.declared.slot.SlotFault.{SlotFault};
ghost use Rattle.apd_store.specs.Image.{Shows};
ghost use Rattle.apd_world.specs.BegunAnew.{IsBegunAnew, IsNotBegunAnew};
ghost use Rattle.apd_world.specs.History.{History};
ghost use Rattle.apd_world.specs.Outside.{flusher_of};
ghost use Rattle.apd_world.specs.Proper.{IsProper, IsWhole};
ghost use Rattle.apd_world.specs.Resumed.{EndsAtSlot, HasNotResumed};
ghost use Rattle.apd_world.specs.SafelyMade.{AreSafelyMade};
ghost use Rattle.apd_world.specs.StandsFor.{StandsFor};
ghost use Rattle.apd_world.specs.WorldParts.{durable_of};
ghost use Rattle.apd_world.specs.declared.durable_core.DurableCore.{DurableCore};
ghost use Rattle.apd_world.specs.declared.fault.WorldFault.{WorldFault};
ghost use Rattle.apd_world.specs.declared.step.Step.{Step};
ghost use Rattle.apd_world.specs.declared.step.Told.{Told};
ghost use Rattle.apd_world.specs.declared.world.World.{World as AnyWorld};

use apd_disk::HonestDisk;
use apd_radio::Radio;

/// A durable core is proper over the flusher of a store and its table, as those of a format or a recovery are, where it
/// is whole, as `apd_world::World::new` makes it.
pub fn a_world_begins_proper_on_an_honest_disk<D: HonestDisk>()
    ensures { (new : DurableCore D) → IsWhole D.model new → IsSteady D.model (flusher_of new) new.core.settled
        → IsProper D.model new }
{}

/// `apd_world::restart` begins a proper world, of the state that the bytes show: where a stop left them, of the state that
/// the history keeps. Where it begins none, the bytes show why, or a slot has not resumed by the table that they show. A
/// stop within it leaves what it could leave before.
pub fn a_world_is_begun_anew_from_an_honest_disk<D: HonestDisk, R: Radio>()
    ensures begun { (device : D) (confs : List Conf) (m : Moment) (new : DurableCore D)
        → IsBegunAnew D.model device confs m new → IsBegunOutright D.model device new }
    ensures none { (device left : D) (why : WorldFault) → IsNotBegunAnew D.model device left why
        → IsNotBegunOutright D.model device left why }
    ensures slot { (device left : D) (b : Bssid) (fault : SlotFault) (old new : List (Slot R))
        → EndsAtSlot D.model R.model device left b fault old new
        → (table : State) × Shows (D.model.reads device) table × HasNotResumed R.model table b fault old new }
{}

/// Steps that `apd_world::drive` made from a proper world lead from whatever history it stood for to a later one, in which
/// what is new is what they told. However many of them had been made, a stop at any moment since then, inside a step or
/// between two, leaves a store, and the world that `apd_world::restart` begins of it has the state after some of what
/// happened, from the front, with all of which anything had been said.
pub fn steps_on_an_honest_disk_lose_nothing_told<D: HonestDisk, R: Radio>()
    ensures { (steps : List Step) (tolds : List Told) (old new : AnyWorld D R)
        → AreSafelyMade D.model R.model steps tolds old new → IsProper D.model (durable_of old)
        → (h : History) → StandsFor old h → (count : ℕ)
        → LosesNothingTold D.model R.model count steps tolds old new h }
{}

/// Whatever lines a script has, a `stop` among them: where its world was proper, the one after them is; and so it is
/// where the script begins at a store of the disk.
pub fn a_script_on_an_honest_disk_leaves_its_world_proper<D: HonestDisk, R: Radio>()
    ensures world { (texts : List (List ℕ)) (w : AnyWorld D R) (radios : List R) (last : Runner D R)
        → IsScriptRun D.model R.model texts w radios last → IsProper D.model (durable_of w)
        → IsProperAt D.model R.model last }
    ensures store { (stops : ℕ) (device : D) (confs : List Conf) (known : Option (List ℕ)) (new : AnyWorld D R)
        → IsRunOn D.model R.model stops device confs known new → IsProper D.model (durable_of new) }
{}
