//! A durable core: a core and the committer of its batches.
ghost use Rattle.std.specs.Prelude.{◌≡◌, ◌==◌, ◌&&◌, not, None, length};
ghost use Rattle.apd_flusher.specs.Flushing.{IsInside, IsSteady};
ghost use Rattle.apd_flusher.specs.Outside.{flusher_device, phase_of, table_of, waiting_batch, waiting_receipt};

use apd_conf::Confs;
use apd_core::Core;
use apd_disk::Disk;
use apd_flusher::{Committer, Flusher, Phase};
use apd_table::Table;

/// A core, and the committer that brings its batches to the device.
#[derive(Drop)]
pub struct DurableCore<D: Disk> {
    pub(crate) core: Core,
    pub(crate) committer: Committer<D>,
}

impl<D: Disk> DurableCore<D> {
    ghost use Rattle.apd_world.specs.Outside.{flusher_of};
    ghost use Rattle.apd_world.specs.Proper.{IsProper, IsUnused, IsWhole};

    /// A flusher and a core, with nothing that waits. Over an idle flusher of the table of a core that accepted nothing
    /// yet it is whole, and proper where the device shows that table.
    pub fn new(flusher: Flusher<D>, core: Core) -> DurableCore<D>
        ensures core { result.core ≡ core }
        ensures flusher { flusher_of result ≡ flusher }
        ensures batch { waiting_batch result.committer ≡ None }
        ensures receipt { waiting_receipt result.committer ≡ None }
        ensures whole { IsUnused core → phase_of flusher ≡ Phase.Idle → IsInside D.model flusher
            → table_of flusher ≡ core.settled → IsWhole D.model result }
        ensures proper { IsUnused core → D.model.honest (flusher_device flusher) → IsInside D.model flusher
            → IsSteady D.model flusher core.settled → IsProper D.model result }
    {
        DurableCore {
            core,
            committer: Committer::new(flusher),
        }
    }

    /// The table after all settled entries.
    pub fn table(&self) -> &Table
        ensures { result.now ≡ self.now.core.settled }
    {
        self.core.table()
    }

    /// The configurations.
    pub fn confs(&self) -> &Confs
        ensures { result.now ≡ self.now.core.confs }
    {
        self.core.confs()
    }

    /// Whether every entry is settled, and the core has not failed.
    pub(crate) fn is_settled(&self) -> bool
        ensures { result ≡ (not self.now.core.failed && (length self.now.core.unsettled == 0)) }
    {
        !self.core.has_failed() && self.core.is_settled()
    }

    /// The flusher and the core. A batch or a receipt that waits is dropped.
    pub fn into_parts(self) -> (Flusher<D>, Core)
        ensures flusher { result.0 ≡ flusher_of self }
        ensures core { result.1 ≡ self.core }
    {
        let (flusher, _, _) = self.committer.into_parts();
        (flusher, self.core)
    }
}
