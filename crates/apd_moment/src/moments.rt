//! What holds at each moment of threads that share a core, of which one commits.
ghost use Rattle.std.specs.Prelude.{List, []};
ghost use Rattle.apd_core.specs.Core.{CoreState};
ghost use Rattle.apd_history.specs.Chain.{AreCalls, Call};
ghost use Rattle.apd_moment.specs.Moment.{HasSeen, IsMoment, IsSeen, StandsForCore};
ghost use Rattle.apd_world.specs.History.{History};
ghost use Rattle.apd_world.specs.Proper.{IsProper};
ghost use Rattle.apd_world.specs.StandsFor.{IsHistoryOf};
ghost use Rattle.apd_world.specs.declared.durable_core.DurableCore.{DurableCore};

use apd_disk::Disk;
use apd_flusher::Committer;

/// What the threads did is one list of steps, as one thread makes them, and the headline holds of it.
///
/// Threads share a core, behind a lock. One of them takes batches from it, brings them to a device and settles them; it
/// alone has the committer. The others submit requests and take what is settled. This law is of one moment: of the
/// calls of the core since it began, as the lock keeps them (`all`); of those that the committing worker saw when it
/// was last there (`front`), since when nobody committed; and of its committer. It began with a durable core that was
/// proper, and stood for a history.
///
/// Then one list of steps leads from there to this core and this committer: the worker's own steps, in its order, and
/// between them each request and each hand-out of the others, where the lock took it (`list`, `own`). What happened by
/// them, and what was handed out, makes a history that goes on from the first (`stands`, `goes_on`). What a stop leaves
/// at this moment has all that had been said (`keeps`); and what one left since any step of the list has all that had
/// been said by that step (`since`). However much of the calls a thread has seen, it was handed and read what is of
/// this history (`told`, `read`). While the worker makes one more step, as a call of its device, a stop leaves what has
/// all that had been said; that is so of each history that the lock may show until the step is over (`within`).
pub fn what_threads_did_is_one_list_of_steps<D: Disk>(committer: &Committer<D>)
    ensures { (begun : DurableCore D) (h : History) → IsProper D.model begun → StandsForCore begun [] h
        → (all front : List Call) (seen : IsSeen D.model begun all front committer.now)
        → IsMoment D.model begun h all front committer.now seen }
{
    committer.show_images();
}

/// What one thread has seen of the calls makes a history by itself, whatever the others do. So what the thread was
/// handed, and what it read, is of entries that are settled in the core that it saw last.
pub fn what_a_thread_has_seen_is_a_history()
    ensures { (first : CoreState) (h : History) → IsHistoryOf first (λ r. []) h → (seen_by : List Call)
        → AreCalls first seen_by → HasSeen first h seen_by }
{}
