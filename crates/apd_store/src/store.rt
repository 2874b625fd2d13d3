//! A store: a group is written behind a closed gate and made durable, and then its gate is opened by a
//! write of its own, which is made durable too.
ghost use Rattle.std.specs.Prelude.{◌≡◌, ◌≢◌, ◌↔◌, ◌≤◌, ◌<◌, ◌+◌, ◌-◌, ◌⊎◌, ℕ, List, [], length, IfSome, OnSome, IsSome, IsTrue};
ghost use Rattle.apd_base.specs.State.{State};
ghost use Rattle.apd_journal.specs.declared.writer.TheConstants.{HALF_LENGTH};
ghost use Rattle.apd_store.specs.Image.{Shows};

use crate::half::Half;
use crate::phase::Phase;
use apd_base::Sequence;
use apd_disk::Disk;
use apd_journal::{Batch, Plan};
use std::alloc::Global;
use std::mem;

/// Proof that a batch is durable: a stop shows the table after it. `Store::finish` alone makes one.
#[derive(Debug, Drop)]
pub struct Receipt {
    batch: Batch,
}

impl Receipt {
    ghost use Rattle.apd_store.specs.Outside.{held_batch};

    /// The batch.
    pub fn batch(&self) -> &Batch
        ensures { result.now ≡ held_batch self.now }
    {
        &self.batch
    }
}

/// A store on a device. It commits one batch after another, call by call.
#[derive(Drop)]
pub struct Store<D: Disk> {
    pub(crate) alloc: Global,
    pub(crate) device: D,
    // The current half, its epoch, and its closed gate's place in it.
    pub(crate) half: Half,
    pub(crate) epoch: u64,
    pub(crate) gate: usize,
    // Whether the other half's gate is open.
    pub(crate) other_open: bool,
    pub(crate) phase: Phase,
    // The batch under way and its bytes; none of both where the store is idle.
    pub(crate) batch: Batch,
    pub(crate) plan: Plan,
    // The bytes of the half that begins anew; none where no switch is under way.
    pub(crate) fresh: Plan,
}

fn no_batch(alloc: Global) -> Batch {
    Batch {
        first: 0,
        last: 0,
        changes: Sequence::new(alloc),
    }
}

pub(crate) fn no_plan(alloc: Global) -> Plan
    ensures place { result.place ≡ 0 }
    ensures bytes { result.bytes ≡ [] }
{
    Plan {
        place: 0,
        bytes: Sequence::new(alloc),
    }
}

// The place of a plan's last byte, which is the next group's gate.
pub(crate) fn last_place(plan: &Plan) -> usize
    ensures last { plan.now.place + length plan.now.bytes ≤ HALF_LENGTH
        → result ≡ plan.now.place + length plan.now.bytes - 1 }
    ensures inside { plan.now.place + length plan.now.bytes ≤ HALF_LENGTH → result < HALF_LENGTH }
{
    // Bytes inside a half are far from the end of the numbers.
    plan.place
        .saturating_add(plan.bytes.len())
        .saturating_sub(1)
}

impl<D: Disk> Store<D> {
    ghost use Rattle.apd_store.specs.Commit.{IsIdle, IsCommitting, HasFailed, MayShow};
    ghost use Rattle.apd_store.specs.Outside.{store_device, phase_of, calls_left, store_batch, held_batch, IsInside};

    // A store with no batch, which goes on at this gate of this half.
    pub(crate) fn new(
        alloc: Global,
        device: D,
        half: Half,
        epoch: u64,
        gate: usize,
        other_open: bool,
    ) -> Self
        ensures device { result.device ≡ device }
        ensures half { result.half ≡ half }
        ensures epoch { result.epoch ≡ epoch }
        ensures gate { result.gate ≡ gate }
        ensures other { result.other_open ≡ other_open }
        ensures phase { result.phase ≡ Phase.Idle }
        ensures plan { result.plan.bytes ≡ [] }
        ensures place { result.plan.place ≡ 0 }
        ensures no_bytes { result.fresh.bytes ≡ [] }
        ensures no_place { result.fresh.place ≡ 0 }
    {
        Store {
            alloc,
            device,
            half,
            epoch,
            gate,
            other_open,
            phase: Phase::Idle,
            batch: no_batch(alloc),
            plan: no_plan(alloc),
            fresh: no_plan(alloc),
        }
    }

    /// Whether the device has failed: the store then refuses all, and has to be recovered anew.
    pub fn failed(&self) -> bool
        ensures { IsTrue result ↔ (phase_of self.now ≡ Phase.Failed) }
    {
        self.phase == Phase::Failed
    }

    /// What the store does next.
    pub fn phase(&self) -> Phase
        ensures { result ≡ phase_of self.now }
    {
        self.phase
    }

    /// The device, as the calls left it.
    pub fn into_device(self) -> D
        ensures { result ≡ store_device self }
    {
        let Store { device, .. } = self;
        device
    }

    /// The receipt of a batch whose last call succeeded, or which had none, once. The store is then idle. It takes no
    /// memory.
    pub fn finish(&mut self) -> Option<Receipt>
        ensures inside { IsInside D.model self.old → IsInside D.model self.new }
        ensures exactly { IsSome result ↔ (phase_of self.old ≡ Phase.Done) }
        ensures receipt { IfSome result (λ receipt. held_batch receipt ≡ store_batch self.old) }
        ensures settled { (state after : State) → IsCommitting D.model self.old state after
            → OnSome result (IsIdle D.model self.new after) }
        ensures idle { OnSome result (phase_of self.new ≡ Phase.Idle) }
        ensures none { phase_of self.old ≢ Phase.Done → self.new ≡ self.old }
        ensures device { store_device self.new ≡ store_device self.old }
    {
        if self.phase != Phase::Done {
            return None;
        }
        self.gate = last_place(&self.plan);
        self.phase = Phase::Idle;
        self.plan = no_plan(self.alloc);
        let batch = mem::replace(&mut self.batch, no_batch(self.alloc));
        Some(Receipt { batch })
    }

    /// Tells a caller's proof what a stop now shows: of an idle store its state; of a batch under way the
    /// state before it, and where one call is left that state or the one after; once its last call succeeded,
    /// or where it has none, the state after alone; where a call failed one of the two. It does nothing.
    pub fn show_images(&self)
        ensures idle { (state : State) → IsIdle D.model self.now state → (c : List ℕ)
            → D.model.may_leave (store_device self.now) c → Shows c state }
        ensures under_way { (state after : State) → IsCommitting D.model self.now state after
            → (c : List ℕ) → D.model.may_leave (store_device self.now) c → MayShow (calls_left self.now) state after c }
        ensures before { (state after : State) → IsCommitting D.model self.now state after
            → 2 ≤ calls_left self.now → (c : List ℕ) → D.model.may_leave (store_device self.now) c → Shows c state }
        ensures done { (state after : State) → IsCommitting D.model self.now state after
            → phase_of self.now ≡ Phase.Done → (c : List ℕ)
            → D.model.may_leave (store_device self.now) c → Shows c after }
        ensures stuck { (state after : State) → HasFailed D.model self.now state after → (c : List ℕ)
            → D.model.may_leave (store_device self.now) c → Shows c state ⊎ Shows c after }
    {
        let _ = &self.device;
    }
}
