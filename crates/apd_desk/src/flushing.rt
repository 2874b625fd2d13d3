//! The committing worker for who has a flusher, and lends no committer.
ghost use Rattle.std.specs.Prelude.{◌↔◌};
ghost use Rattle.apd_base.specs.State.{State};
ghost use Rattle.apd_flusher.specs.Flushing.{IsInside, IsSteady, Stands};
ghost use Rattle.apd_flusher.specs.Outside.{flusher_device, next_of, table_of};

use crate::committing::commit_all;
use crate::gate::Gate;
use crate::shared::Shared;
use apd_disk::Disk;
use apd_flusher::{Committer, Flusher};
use std::sync::Wait;
use std::sync::ledger::Ledger;
use std::time::Clock;

/// Commits the entries of a shared core, as `commit_all` does, and gives the flusher back. What waits beside it then is
/// let go.
pub fn flush_worker<L: Ledger, W: Wait + Clock, D: Disk, G: Gate>(
    rt: &W,
    shared: &Shared<L>,
    flusher: Flusher<D>,
    gate: &G,
) -> Flusher<D>
    ensures inside { IsInside D.model flusher → IsInside D.model result }
    ensures honest { D.model.honest (flusher_device flusher) ↔ D.model.honest (flusher_device result) }
    ensures stands { D.model.honest (flusher_device flusher) → (s : State) → IsSteady D.model flusher s
        → Stands D.model result (table_of result) (next_of result) }
{
    let mut committer = Committer::new(flusher);
    let _ending = commit_all(rt, shared, &mut committer, gate);
    let (flusher, _batch, _receipt) = committer.into_parts();
    flusher
}
