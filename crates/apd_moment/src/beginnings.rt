//! Where threads that share a core begin.
ghost use Rattle.std.specs.Prelude.{◌≡◌, List, [], None};
ghost use Rattle.apd_base.specs.declared.address.Bssid.{Bssid};
ghost use Rattle.apd_flusher.specs.Outside.{flusher_of, waiting_batch, waiting_receipt};
ghost use Rattle.apd_flusher.specs.declared.committer.Committer.{Committer};
ghost use Rattle.apd_moment.specs.Moment.{IsSeen, StandsForCore, durable_at};
ghost use Rattle.apd_table.specs.Sound.{Sound};
ghost use Rattle.apd_world.specs.History.{History, blank};
ghost use Rattle.apd_world.specs.Proper.{IsUnused};
ghost use Rattle.apd_world.specs.StandsFor.{StandsFor};
ghost use Rattle.apd_world.specs.Starting.{IsAtRest};
ghost use Rattle.apd_world.specs.WorldParts.{durable_of, queue_of};
ghost use Rattle.apd_world.specs.declared.durable_core.DurableCore.{DurableCore};
ghost use Rattle.apd_world.specs.declared.world.World.{World};

use apd_disk::Disk;
use apd_radio::Radio;

/// Threads take over from a world at whose slots no out waits. Its core stands for what the world stood for; and where
/// no batch, no call and no receipt is left, as behind a start, a new committer over its flusher is its own.
pub fn threads_take_over_from_a_world<D: Disk, R: Radio>()
    ensures history { (w : World D R) (h : History) → StandsFor w h → ((b : Bssid) → queue_of w b ≡ [])
        → StandsForCore (durable_of w) [] h }
    ensures durable { (w : World D R) (committer : Committer D) → IsAtRest (durable_of w)
        → flusher_of committer ≡ flusher_of (durable_of w).committer → waiting_batch committer ≡ None
        → waiting_receipt committer ≡ None → durable_at (durable_of w) [] committer ≡ durable_of w }
{}

/// The law of a moment is of something. A core that accepted nothing yet stands for the blank history, and who has its
/// committer has seen no call.
pub fn threads_begin_with_no_call<D: Disk>()
    ensures history { (begun : DurableCore D) → IsUnused begun.core → Sound begun.core.settled
        → StandsForCore begun [] (blank begun.core.confs begun.core.settled begun.core.heard) }
    ensures seen { (begun : DurableCore D) → IsSeen D.model begun [] [] begun.committer }
{}
