//! A batch begun: the bytes of all its calls are laid down.
ghost use Rattle.std.specs.Prelude.{◌≡◌, ◌≢◌, ◌<◌, ◌+◌, ◌-◌, ◌^◌, true, false, [], min, IfOk, OnOk, IfErr};
ghost use Rattle.apd_base.specs.State.{State};
ghost use Rattle.apd_table.specs.Snapshot.{canonical};
ghost use Rattle.apd_journal.specs.Half.{begun_bytes};

use crate::fault::StoreFault;
use crate::phase::Phase;
use crate::store::Store;
use apd_base::Sequence;
use apd_disk::Disk;
use apd_journal::{Batch, Plan, fits, plan, plan_half};
use apd_record::total_length;
use apd_table::Table;
use std::alloc::AllocError;

// With which call a switch begins: only an open gate is closed, for a closed one could open if the zero were torn.
fn first_of_a_switch(other_open: bool) -> Phase
    ensures closed { other_open ≡ false → result ≡ Phase.WriteHalf }
    ensures open { other_open ≡ true → result ≡ Phase.CloseOther }
{
    if other_open {
        Phase::CloseOther
    } else {
        Phase::WriteHalf
    }
}

impl<D: Disk> Store<D> {
    ghost use Rattle.apd_store.specs.Beginning.{IsBegun, IsNotBegun};
    ghost use Rattle.apd_store.specs.Commit.{Fits, HasRoom};
    ghost use Rattle.apd_store.specs.Switch.{IsSnapshot};
    ghost use Rattle.apd_store.specs.Outside.{store_device, phase_of, epoch_of, IsInside};

    /// Lays down all bytes of the batch's group and, where it does not fit behind the closed gate, of the other
    /// half, which then begins anew with a snapshot of the table before it. The table is that of everything
    /// committed, and the batch's records are at most 65,536 bytes and each front of its changes leaves the
    /// table sound. A refusal hands the batch back, and changes nothing.
    ///
    /// Four calls are then left; with a switch eight, or ten where the other half's gate is open. A batch of no
    /// changes lays down nothing and has no call: its receipt is there, and `Failed` and `NotIdle` alone refuse it.
    ///
    /// Errors, in this order: `Failed`, `NotIdle`; where the group does not fit behind the closed gate,
    /// `BadBatch` exactly where it does not fit behind the snapshot either (its records are then longer than
    /// 65,536 bytes), and then `Worn` exactly where the epoch is the greatest. `NoMemory` may come in the place
    /// of the last two.
    pub fn begin(&mut self, batch: Batch, table: &Table) -> Result<(), (Batch, StoreFault)>
        ensures begun { OnOk result (IsBegun D.model batch table.now self.old self.new) }
        ensures refused { IfErr result (λ e. (e.0 ≡ batch) × (self.new ≡ self.old)) }
        ensures why { IfErr result (λ e. IsNotBegun batch table.now self.old e.1) }
        ensures device { store_device self.new ≡ store_device self.old }
        ensures inside { IsInside D.model self.old → IsInside D.model self.new }
    {
        match self.phase {
            Phase::Idle => {}
            Phase::Failed => return Err((batch, StoreFault::Failed)),
            _ => return Err((batch, StoreFault::NotIdle)),
        }
        if batch.changes.is_empty() {
            self.begin_none(batch);
            return Ok(());
        }
        if fits(self.gate, total_length(batch.changes.as_slice())) {
            return self.begin_group(batch);
        }
        self.begin_switch(batch, table)
    }

    // A batch of no changes has no call: the closed gate stays the next group's.
    fn begin_none(&mut self, batch: Batch)
        requires none { batch.changes ≡ [] }
        requires idle { phase_of self.old ≡ Phase.Idle }
        ensures inside { IsInside D.model self.old → IsInside D.model self.new }
        ensures begun { (state : State) → IsBegun D.model batch state self.old self.new }
        ensures device { store_device self.new ≡ store_device self.old }
    {
        self.plan = Plan {
            place: self.gate.saturating_add(1),
            bytes: Sequence::new(self.alloc),
        };
        self.batch = batch;
        self.phase = Phase::Done;
    }

    // Plans the four calls of a group that fits behind the closed gate.
    fn begin_group(&mut self, batch: Batch) -> Result<(), (Batch, StoreFault)>
        requires some { batch.changes ≢ [] }
        requires room { Fits self.old batch.changes }
        requires idle { phase_of self.old ≡ Phase.Idle }
        ensures inside { IsInside D.model self.old → IsInside D.model self.new }
        ensures begun { (state : State) → OnOk result (IsBegun D.model batch state self.old self.new) }
        ensures device { store_device self.new ≡ store_device self.old }
        ensures refused { IfErr result (λ e. (e.0 ≡ batch) × (self.new ≡ self.old)) }
        ensures only { IfErr result (λ e. e.1 ≡ StoreFault.NoMemory) }
    {
        let Ok(plan) = plan(self.alloc, &batch, self.gate) else {
            return Err((batch, StoreFault::NoMemory));
        };
        self.plan = plan;
        self.batch = batch;
        self.phase = Phase::WriteGroup;
        Ok(())
    }

    // The bytes of the other half, begun anew with the next epoch and a snapshot of the table.
    fn new_half(&self, table: &Table) -> Result<Plan, AllocError>
        ensures place { IfOk result (λ fresh. fresh.place ≡ 1) }
        ensures bytes { IfOk result
            (λ fresh. fresh.bytes ≡ begun_bytes (min (epoch_of self.now + 1) (2 ^ 64 - 1)) (canonical table.now)) }
        ensures snapshot { OnOk result (IsSnapshot (canonical table.now) table.now) }
    {
        let snapshot = table.snapshot(self.alloc)?;
        plan_half(self.alloc, self.epoch.saturating_add(1), &snapshot)
    }

    // Plans the calls of a switch, and the four of the group behind the snapshot.
    fn begin_switch(&mut self, batch: Batch, table: &Table) -> Result<(), (Batch, StoreFault)>
        requires room { ¬ HasRoom self.old batch.changes }
        requires idle { phase_of self.old ≡ Phase.Idle }
        ensures inside { IsInside D.model self.old → IsInside D.model self.new }
        ensures begun { OnOk result (IsBegun D.model batch table.now self.old self.new) }
        ensures refused { IfErr result (λ e. (e.0 ≡ batch) × (self.new ≡ self.old)) }
        ensures why { IfErr result (λ e. IsNotBegun batch table.now self.old e.1) }
        ensures device { store_device self.new ≡ store_device self.old }
    {
        let Ok(fresh) = self.new_half(table) else {
            return Err((batch, StoreFault::NoMemory));
        };
        let gate = fresh.bytes.len();
        if !fits(gate, total_length(batch.changes.as_slice())) {
            return Err((batch, StoreFault::BadBatch));
        }
        if self.epoch == u64::MAX {
            return Err((batch, StoreFault::Worn));
        }
        let Ok(plan) = plan(self.alloc, &batch, gate) else {
            return Err((batch, StoreFault::NoMemory));
        };
        self.fresh = fresh;
        self.plan = plan;
        self.batch = batch;
        self.phase = first_of_a_switch(self.other_open);
        Ok(())
    }
}
