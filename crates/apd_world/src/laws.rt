//! What a reader may rely on, whatever steps a world makes: each law is the contract of a function that does nothing.
ghost use Rattle.std.specs.Prelude.{◌≡◌, ◌↔◌, ◌≤◌, ◌⊎◌, ◌+◌, ◌++◌, List, Ok, map, ℕ};
ghost use Rattle.std.specs.List.{AllByRecursion, Contains};
ghost use Rattle.apd_base.specs.State.{IsListed, State};
ghost use Rattle.apd_base.specs.declared.address.Addr.{Addr};
ghost use Rattle.apd_base.specs.declared.address.Bssid.{Bssid};
ghost use Rattle.apd_base.specs.declared.moment.Moment.{Moment};
ghost use Rattle.apd_base.specs.declared.station.Which.{Which};
ghost use Rattle.apd_disk.specs.Disk.{LeavesOnly};
ghost use Rattle.apd_event.specs.Happening.{Happening};
ghost use Rattle.apd_mlme.specs.rules.{verdict};
ghost use Rattle.apd_mlme.specs.declared.decision.Out.{Out};
ghost use Rattle.apd_mlme.specs.declared.decision.Recipient.{Recipient};
ghost use Rattle.apd_mlme.specs.declared.decision.Recipient.TheVariants.{Radio as Of};
ghost use Rattle.apd_event.specs.declared.event.Edit.{Edit};
ghost use Rattle.apd_mlme.specs.laws.Broadcast.{IsFromStation, NoBroadcastRow};
ghost use Rattle.apd_mlme.specs.laws.Command.{IsOnAfter};
ghost use Rattle.apd_mlme.specs.laws.Outs.{OutsAreTrueForAll};
ghost use Rattle.apd_store.specs.Image.{Shows};
ghost use Rattle.apd_table.specs.Sound.{Sound};
ghost use Rattle.apd_core.specs.Core.{CoreState, front_of};
ghost use Rattle.apd_core.specs.Heard.{LastHeard};
ghost use Rattle.apd_core.specs.Requests.{happening_of};
ghost use Rattle.apd_core.specs.declared.query_answer.Answer.{Answer};
ghost use Rattle.apd_core.specs.declared.input.Input.{Input};
ghost use Rattle.apd_steps.specs.Calls.{exactly};
ghost use Rattle.apd_steps.specs.Run.{AreSteps, Step as WorkersStep};
ghost use Rattle.apd_world.specs.CoreRun.{AreUnsettled};
ghost use Rattle.apd_world.specs.History.{GoesOn, IsHistory, History, Keeps, after};
ghost use Rattle.apd_world.specs.Lasting.{Fact, Holds, Lasts, OutLasts, OutWasTrue, WasEdited};
ghost use Rattle.apd_world.specs.Order.{KeepsOrder};
ghost use Rattle.apd_world.specs.Outside.{device_of};
ghost use Rattle.apd_world.specs.Proper.{IsProper, IsSafe};
ghost use Rattle.apd_world.specs.SafelyMade.{AreSafelyMade};
ghost use Rattle.apd_world.specs.Shown.{ShowsEither, ShowsFlight};
ghost use Rattle.apd_world.specs.StandsFor.{LeadsOn, LeadsSafely, LeadsTo, StandsFor};
ghost use Rattle.apd_world.specs.WorkerRun.{AreParts, part_of};
ghost use Rattle.apd_world.specs.WorldParts.{durable_of};
ghost use Rattle.apd_world.specs.declared.durable_core.DurableCore.{DurableCore};
ghost use Rattle.apd_world.specs.declared.step.Step.{Step};
ghost use Rattle.apd_world.specs.declared.step.Told.{Told};
ghost use Rattle.apd_world.specs.declared.world.World.{World};

use apd_disk::Disk;
use apd_mlme::laws::a_command_is_answered_truly;
use apd_radio::Radio;

/// What leaves is so of everyone whom it is meant for, whatever steps were made from a world whose table after all
/// entries is sound and has no row of the broadcast address, as an empty one: no request is a frame from that address,
/// and no row ever has it, so a broadcast frame speaks of every station.
pub fn what_leaves_is_so_of_everyone<D: Disk, R: Radio>()
    ensures senders { (s : CoreState) (m : Moment) (i : Input) (h : Happening)
        → happening_of s.confs s.heard m i ≡ Ok h → IsFromStation h }
    ensures rows { (steps : List Step) (tolds : List Told) (old new : World D R)
        → AreSafelyMade D.model R.model steps tolds old new → NoBroadcastRow (front_of (durable_of old).core)
        → NoBroadcastRow (front_of (durable_of new).core) }
    ensures everyone { (steps : List Step) (tolds : List Told) (old new : World D R) (m : Moment) (i : Input)
        (h : Happening)
        → AreSafelyMade D.model R.model steps tolds old new → Sound (front_of (durable_of old).core)
        → NoBroadcastRow (front_of (durable_of old).core)
        → happening_of (durable_of new).core.confs (durable_of new).core.heard m i ≡ Ok h
        → OutsAreTrueForAll (verdict (front_of (durable_of new).core) (durable_of new).core.confs h).state
        (verdict (front_of (durable_of new).core) (durable_of new).core.confs h).outs }
{}

/// Steps of a world, and then further steps, are one list of steps: what is said of a stop since the first, and of all
/// that had been said by then, is so of the whole list.
pub fn lists_of_steps_join<D: Disk, R: Radio>()
    ensures { (xs ys : List Step) (ts us : List Told) (old mid new : World D R)
        → AreSafelyMade D.model R.model xs ts old mid → AreSafelyMade D.model R.model ys us mid new
        → AreSafelyMade D.model R.model (xs ++ ys) (ts ++ us) old new }
{}

/// No out is lost, comes twice or passes another, whatever steps are made: what control was told, and then what is held
/// for it, is what was held for it before, and then its outs of what was accepted. It is so of each radio, with what was
/// applied at its slot, then what waits there, and then what is held.
pub fn outs_keep_their_order<D: Disk, R: Radio>()
    ensures { (steps : List Step) (tolds : List Told) (old new : World D R)
        → AreSafelyMade D.model R.model steps tolds old new → KeepsOrder steps tolds old new }
{}

/// Any list of steps that was made leads so from whatever history the world stood for; a replacement leads from each to
/// itself, by `World::replace`; and what leads from one history to another, and what leads on from there, lead from the
/// first to the last. So do lists of steps between which radios are replaced, in any number; and since the midst of the
/// first of them, of which `LeadsSince` says that the others lead so.
pub fn histories_join<D: Disk, R: Radio>()
    ensures made { (steps : List Step) (tolds : List Told) (old new : World D R) (h : History)
        → AreSafelyMade D.model R.model steps tolds old new → StandsFor old h
        → LeadsOn D.model steps tolds old new h }
    ensures leads { (xs ys : List Step) (ts us : List Told) (old mid new : World D R) (h k l : History)
        → LeadsTo xs ts old mid h k → LeadsTo ys us mid new k l → LeadsTo (xs ++ ys) (ts ++ us) old new h l }
    ensures safely { (xs ys : List Step) (ts us : List Told) (old mid new : World D R) (h k l : History)
        → LeadsSafely D.model xs ts old mid h k → LeadsSafely D.model ys us mid new k l
        → LeadsSafely D.model (xs ++ ys) (ts ++ us) old new h l }
{}

/// What the committing worker of threads does to a core that no other calls meanwhile, and to its committer, is what a
/// world does: each of its steps is a list of one, the world's own of the same kind, told so; and between them the core
/// is told to fail, as by `World::fail`. The worker's clause is that it makes such steps and does nothing else, whatever
/// the core is; `World::stops` tells of each world the last premise.
pub fn the_committing_worker_makes_a_worlds_steps<D: Disk, R: Radio>()
    ensures { (steps : List WorkersStep) (old new : World D R)
        → AreSteps D.model exactly steps (durable_of old).core (durable_of new).core
        (durable_of old).committer (durable_of new).committer
        → new ≡ record old { durable = new.durable } → IsSafe D.model (durable_of new) (durable_of new)
        → AreParts D.model R.model (map part_of steps) old new }
{}

/// Inside a step, whatever it is, a stop leaves an image of the settled table, or of that after the batch in flight:
/// the table after none of what is not settled, or after as much of it as is in flight.
pub fn a_stop_within_a_step_leaves_all_of_a_batch_or_none<D: Disk>()
    ensures image { (s : CoreState) (hs : List Happening) (image : List ℕ) → AreUnsettled hs s → ShowsEither s image
        → ShowsFlight s hs image }
    ensures step { (old new : DurableCore D) (hs : List Happening) → IsSafe D.model old new → IsProper D.model old
        → AreUnsettled hs old.core → LeavesOnly D.model (device_of old) (device_of new) (ShowsFlight old.core hs) }
{}

/// What leaves is so. An out that was given since a history began is so after one of what happened that is durable. An
/// image that a history keeps shows a sound state, in which identifiers are distinct.
///
/// Whatever held of the state after some of what was durable holds in what a stop left, unless one of those that the
/// stop left says otherwise (`lasting`). So it is with whom a response told that it is authenticated, or associated
/// under the identifier of the response (`promise`); and with who is on a list, or is not, once the edit of a control
/// command was answered `OK` (`edits`, and then `lasting` behind that edit). Where a world is begun anew, `given` begins
/// empty: what the first stop left lasts over a further one by `lasting`, after none.
pub fn what_was_said_is_so_in_what_is_kept()
    ensures said { (h : History) (r : Recipient) → IsHistory h
        → AllByRecursion (λ out. Contains (h.owed r) out ⊎ OutWasTrue h r out) (h.given r) }
    ensures sound { (old new : History) (image : List ℕ) → Keeps old new image
        → (s : State) × Shows image s × Sound s }
    ensures lasting { (hs : List Happening) (heard : LastHeard) (given : Recipient → List Out) (read : List Answer)
        (old new : History) (image : List ℕ) (count : ℕ) (fact : Fact)
        → IsHistory old → GoesOn hs heard given read old new → (keeps : Keeps old new image) → count ≤ old.durable
        → Holds fact (after old count)
        → Lasts new image keeps.front count fact }
    ensures promise { (hs : List Happening) (heard : LastHeard) (given : Recipient → List Out) (read : List Answer)
        (old new : History) → GoesOn hs heard given read old new → (image : List ℕ) → IsHistory old
        → (keeps : Keeps old new image) → (b : Bssid) → AllByRecursion (λ out. Contains (old.owed (Of b)) out
        ⊎ ((behind : ℕ) × (behind ≤ old.durable) × OutLasts new image keeps.front behind b out)) (old.given (Of b)) }
    ensures edits { (h : History) (place : ℕ) (b : Bssid) (w : Which) (edit : Edit) → IsHistory h
        → WasEdited h place b w edit → (d : Addr)
        → IsListed (after h (place + 1)) b w d ↔ IsOnAfter (after h place) b w edit d }
{
    a_command_is_answered_truly();
}
