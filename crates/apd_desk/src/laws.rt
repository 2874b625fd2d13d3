//! What a reader may rely on whenever the lock is free.
ghost use Rattle.std.specs.Prelude.{◌≡◌, ◌≤◌, ◌<◌, ◌^◌, ℕ, length, IsSome};
ghost use Rattle.std.specs.FinMap as maps;
ghost use Rattle.apd_base.specs.declared.limits.TheConstants.{MAX_KEPT};
ghost use Rattle.apd_mlme.specs.Run.{run};
ghost use Rattle.apd_table.specs.Sound.{Sound};
ghost use Rattle.apd_core.specs.Core.{front_of, kept_count, last_of};
ghost use Rattle.apd_core.specs.Invariant.{Unsettled};

use apd_core::Core;

/// What holds of every core that nobody is calling, and so of a shared one whenever the lock is free. The table
/// after all entries is the one to which what happened by the entries that are not settled leads, from the settled
/// table on, and each of these entries has the changes and the outs of the verdict on what happened by it, in the
/// table before it. Their numbers follow the last settled one's, each is kept, and a batch in flight is a front of
/// them. Both tables are sound, and at most 4096 entries are kept.
pub fn a_core_that_nobody_calls(core: &Core)
    ensures entries { (u : Unsettled core.now) × (front_of core.now ≡ run core.now.settled core.now.confs u.happened) }
    ensures numbers { (k : ℕ) → core.now.number < k → k ≤ last_of core.now → IsSome (maps.get core.now.held.left k) }
    ensures last { last_of core.now < 2 ^ 64 }
    ensures in_flight { core.now.flight ≤ length core.now.unsettled }
    ensures settled { Sound core.now.settled }
    ensures front { Sound (front_of core.now) }
    ensures few { kept_count core.now ≤ MAX_KEPT }
{
    core.sound();
}
