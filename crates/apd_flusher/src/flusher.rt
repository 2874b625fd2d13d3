//! A store and the table of what it has committed: a batch is loaded, brought to the device call by call,
//! and taken out as its receipt.
ghost use Rattle.std.specs.Prelude.{◌≡◌, ◌≢◌, ◌↔◌, ◌≤◌, ◌<◌, ◌+◌, ◌^◌, ◌⊎◌, ℕ, List, [], IfOk, OnOk, IfErr, OnErr, IfSome, OnSome, IsSome, IsOk, IsErrOf, Err};
ghost use Rattle.apd_base.specs.Failures.{HasRisen};
ghost use Rattle.apd_base.specs.State.{State};
ghost use Rattle.apd_record.specs.Meaning.{meaning_of};
ghost use Rattle.apd_store.specs.Commit.{IsIdle};
ghost use Rattle.apd_store.specs.Image.{Shows};
ghost use Rattle.apd_store.specs.Outside.{store_device, held_batch};

use crate::phase::Phase;
use apd_base::limits::MAX_GROUP;
use apd_disk::Disk;
use apd_journal::Batch;
use apd_record::total_length;
use apd_store::{Phase as StorePhase, Receipt, Store, StoreFault};
use apd_table::{Staged, Table, TableFault};
use std::alloc::Global;

/// The flusher of a device: it owns the store, the table of everything whose receipt it gave, and while a
/// batch is under way that table after the batch.
#[derive(Drop)]
pub struct Flusher<D: Disk> {
    alloc: Global,
    store: Store<D>,
    tables: Staged,
}

impl<D: Disk> Flusher<D> {
    ghost use Rattle.apd_flusher.specs.Flushing.{IsSteady, IsFlushing, IsStuck, Stands, StopShows, IsGood, HasRoom, IsInside, IsRefused, MayCommit};
    ghost use Rattle.apd_flusher.specs.Loading.{IsLoaded, IsNotLoaded};
    ghost use Rattle.apd_flusher.specs.Turning.{IsTurn, IsTurned, IsTurnBetween, IsNotTurned};
    ghost use Rattle.apd_flusher.specs.Outside.{store_of, flusher_device, phase_of, calls_left, flusher_batch, table_of, next_of};

    /// A flusher of a store and the table of everything that it has committed, as `format` and `recover` of
    /// the store give them. It copies the table once.
    ///
    /// Errors, with the store's device: `NoMemory`.
    pub fn new(alloc: Global, store: Store<D>, table: Table) -> Result<Flusher<D>, (D, StoreFault)>
        ensures store { IfOk result (λ flusher. store_of flusher ≡ store) }
        ensures table { IfOk result (λ flusher. table_of flusher ≡ table) }
        ensures steady { IsIdle D.model store table
            → IfOk result (λ flusher. IsSteady D.model flusher table) }
        ensures device { IfErr result (λ e. e.0 ≡ store_device store) }
        ensures only { IfErr result (λ e. e.1 ≡ StoreFault.NoMemory) }
    {
        match Staged::new(alloc, table) {
            Ok(tables) => Ok(Flusher {
                alloc,
                store,
                tables,
            }),
            Err(_) => Err((store.into_device(), StoreFault::NoMemory)),
        }
    }

    /// What the flusher does next: it is busy exactly where calls of a batch are left.
    pub fn phase(&self) -> Phase
        ensures phase { result ≡ phase_of self.now }
        ensures busy { (phase_of self.now ≡ Phase.Busy) ↔ (0 < calls_left self.now) }
    {
        match self.store.phase() {
            StorePhase::Idle => Phase::Idle,
            StorePhase::Done => Phase::Done,
            StorePhase::Failed => Phase::Failed,
            StorePhase::CloseOther
            | StorePhase::SyncClosed
            | StorePhase::WriteHalf
            | StorePhase::SyncHalf
            | StorePhase::OpenHalf
            | StorePhase::SyncOpened
            | StorePhase::WriteGroup
            | StorePhase::SyncGroup
            | StorePhase::OpenGate
            | StorePhase::SyncGate => Phase::Busy,
        }
    }

    /// The device, as the calls left it, in every phase.
    pub fn into_device(self) -> D
        ensures { result ≡ flusher_device self }
    {
        let Flusher { store, .. } = self;
        store.into_device()
    }

    /// Takes a batch, and makes its table and all bytes of its group; where the group does not fit, also those
    /// of the other half, with a snapshot of the table before the batch. It makes no call of the device. A batch
    /// of no changes has no call, and the flusher is done at once.
    ///
    /// Errors, with the very batch, in this order: `Failed` in that phase; `NotIdle` in `Busy` and `Done`;
    /// `BadBatch` exactly where the records of the batch exceed 65,536 bytes, or a change leaves the table
    /// unsound; `Worn` exactly where there is no room for the group and the epoch is the greatest. `NoMemory` may
    /// come in the place of the last two. A refusal leaves phase, table and device.
    pub fn load(&mut self, batch: Batch) -> Result<(), (Batch, StoreFault)>
        ensures flushing { (state : State) → IsSteady D.model self.old state
            → OnOk result (IsFlushing D.model self.new state (meaning_of batch.changes state)) }
        ensures loaded { OnOk result (IsLoaded batch self.old self.new) }
        ensures refused { IfErr result (λ e. IsNotLoaded e.1 batch self.old self.new) }
        ensures back { IfErr result (λ e. e.0 ≡ batch) }
        ensures rest { phase_of self.old ≢ Phase.Idle → self.new ≡ self.old }
        ensures device { flusher_device self.new ≡ flusher_device self.old }
        ensures inside { IsInside D.model self.old → IsInside D.model self.new }
    {
        match self.phase() {
            Phase::Idle => {}
            Phase::Failed => return Err((batch, StoreFault::Failed)),
            Phase::Busy | Phase::Done => return Err((batch, StoreFault::NotIdle)),
        }
        if let Err(fault) = self.stage(&batch) {
            return Err((batch, fault));
        }
        self.store.begin(batch, self.tables.table())
    }

    // Makes the table after a batch, which is a group and leaves the table sound.
    fn stage(&mut self, batch: &Batch) -> Result<(), StoreFault>
        ensures store { store_of self.new ≡ store_of self.old }
        ensures table { table_of self.new ≡ table_of self.old }
        ensures next { OnOk result (next_of self.new ≡ meaning_of batch.now.changes (table_of self.old)) }
        ensures good { OnOk result (IsGood batch.now.changes (table_of self.old)) }
        ensures bad { result ≡ Err StoreFault.BadBatch → ¬ IsGood batch.now.changes (table_of self.old) }
        ensures only { OnErr result ((result ≡ Err StoreFault.BadBatch) ⊎ (result ≡ Err StoreFault.NoMemory)) }
    {
        let changes = batch.changes.as_slice();
        if total_length(changes) > MAX_GROUP {
            return Err(StoreFault::BadBatch);
        }
        match self.tables.stage(self.alloc, changes) {
            Ok(()) => Ok(()),
            Err(TableFault::Invalid) => Err(StoreFault::BadBatch),
            Err(TableFault::NoMemory) => Err(StoreFault::NoMemory),
        }
    }

    /// Makes the next call of the batch where the flusher is busy; in `Idle` and `Done` there is none, and
    /// nothing is done. It takes no memory.
    ///
    /// Errors: `Device` where the device failed in this call, and it is `Failed` for good; `Failed` in that
    /// phase. A flusher whose store lies inside its device answers `Failed` only after a `Device`.
    pub fn turn(&mut self) -> Result<(), StoreFault>
        ensures turn { IsTurn D.model self.old self.new }
        ensures turned { OnOk result (IsTurned D.model self.old self.new) }
        ensures fault { IfErr result (IsNotTurned D.model self.old self.new) }
        ensures between { (state after : State) → IsTurnBetween D.model state after result self.old self.new }
        ensures quiet { (phase_of self.old ≡ Phase.Idle) ⊎ (phase_of self.old ≡ Phase.Done) → IsOk result }
        ensures failed { phase_of self.old ≡ Phase.Failed → result ≡ Err StoreFault.Failed }
    {
        self.show_images();
        match self.store.next_call() {
            Ok(_) => Ok(()),
            Err(fault) => Err(fault),
        }
    }

    /// The receipt of the batch whose last call succeeded, or which had none, once; the flusher is then idle, and
    /// its table the one after the batch. In another phase there is none, and nothing is done. It takes no memory.
    pub fn unload(&mut self) -> Option<Receipt>
        ensures exactly { IsSome result ↔ (phase_of self.old ≡ Phase.Done) }
        ensures receipt { IfSome result (λ receipt. held_batch receipt ≡ flusher_batch self.old) }
        ensures settled { (state after : State) → IsFlushing D.model self.old state after
            → OnSome result (IsSteady D.model self.new after) }
        ensures idle { OnSome result (phase_of self.new ≡ Phase.Idle) }
        ensures table { OnSome result (table_of self.new ≡ next_of self.old) }
        ensures none { phase_of self.old ≢ Phase.Done → self.new ≡ self.old }
        ensures device { flusher_device self.new ≡ flusher_device self.old }
        ensures inside { IsInside D.model self.old → IsInside D.model self.new }
    {
        let receipt = self.store.finish()?;
        self.tables.commit();
        Some(receipt)
    }

    /// Loads a batch and makes all calls of it, one a turn, to its receipt: what `load`, `turn` and `unload` do
    /// where nothing else is asked of the flusher in between. The workers make each call by itself, so this is for
    /// who has a flusher and no core, as tests do; and its clauses are the promise that a batch comes to its receipt.
    ///
    /// Errors: those of `load`, each for its reason, where the batch is let go; those of `turn`.
    pub fn commit(&mut self, batch: Batch) -> Result<Receipt, StoreFault>
        // Where the device does not fail, nothing but want of memory keeps such a batch from its receipt.
        ensures always { MayCommit D.model self.old batch.changes
            → D.model.failed (flusher_device self.old) + 1 < 2 ^ 64
            → D.model.failed (flusher_device self.new) ≡ D.model.failed (flusher_device self.old)
            → result ≢ Err StoreFault.NoMemory
            → IsOk result }
        ensures refused { IfErr result (λ fault. IsRefused D.model fault batch.changes self.old self.new) }
        ensures receipt { IfOk result (λ receipt. held_batch receipt ≡ batch) }
        ensures settled { (state : State) → D.model.honest (flusher_device self.old) → IsSteady D.model self.old state
            → OnOk result (IsSteady D.model self.new (meaning_of batch.changes state)) }
        // After a fault of the device in it a stop leaves the table before the batch or the one after, for good.
        ensures stuck { (state : State) → D.model.honest (flusher_device self.old) → IsSteady D.model self.old state
            → IsErrOf result StoreFault.Device
            → IsStuck D.model self.new state (meaning_of batch.changes state) }
        ensures honest { D.model.honest (flusher_device self.old) ↔ D.model.honest (flusher_device self.new) }
        ensures inside { IsInside D.model self.old → IsInside D.model self.new }

        // Each turn is one call of the device at most: none of a batch of no changes, four where the group fits, and
        // ten at most.
        ensures no_calls { batch.changes ≡ [] → flusher_device self.new ≡ flusher_device self.old }
        ensures ten { D.model.honest (flusher_device self.old)
            → D.model.moment (flusher_device self.new) ≤ D.model.moment (flusher_device self.old) + 10 }
        ensures four { D.model.honest (flusher_device self.old) → HasRoom self.old batch.changes
            → D.model.moment (flusher_device self.new) ≤ D.model.moment (flusher_device self.old) + 4 }
    {
        if let Err((_, fault)) = self.load(batch) {
            return Err(fault);
        }
        self.make_calls()?;
        self.unload().ok_or(StoreFault::Failed)
    }

    // Makes the calls that are left of a batch, one after another.
    fn make_calls(&mut self) -> Result<(), StoreFault>
        requires { (phase_of self.old ≡ Phase.Busy) ⊎ (phase_of self.old ≡ Phase.Done) }
        ensures rest { phase_of self.old ≡ Phase.Done → self.new ≡ self.old }
        ensures on { (state after : State) → D.model.honest (flusher_device self.old)
            → IsFlushing D.model self.old state after
            → OnOk result (IsFlushing D.model self.new state after) }
        ensures stuck { (state after : State) → D.model.honest (flusher_device self.old)
            → IsFlushing D.model self.old state after
            → OnErr result (IsStuck D.model self.new state after) }
        ensures done { OnOk result (phase_of self.new ≡ Phase.Done) }
        ensures batch { flusher_batch self.new ≡ flusher_batch self.old }
        ensures honest { D.model.honest (flusher_device self.old) ↔ D.model.honest (flusher_device self.new) }
        ensures inside { IsInside D.model self.old → IsInside D.model self.new }
        ensures calls { D.model.honest (flusher_device self.old)
            → D.model.moment (flusher_device self.new)
            ≤ D.model.moment (flusher_device self.old) + calls_left self.old }
        ensures device { IsErrOf result StoreFault.Device
            → HasRisen (D.model.failed (flusher_device self.old)) (D.model.failed (flusher_device self.new)) }
        ensures works { IsInside D.model self.old → result ≢ Err StoreFault.Failed }
        ensures only { OnErr result ((result ≡ Err StoreFault.Device) ⊎ (result ≡ Err StoreFault.Failed)) }
    {
        while self.phase() == Phase::Busy {
            self.turn()?;
        }
        Ok(())
    }

    /// Tells a caller's proof what a stop now shows, by the phase: the table where it is idle, and while it is
    /// busy with two calls left or more; that table or the next one where one call is left; the next one alone
    /// where it is done; one of the two where it has failed. It does nothing.
    pub fn show_images(&self)
        ensures shown { (state after : State) → Stands D.model self.now state after → (c : List ℕ)
            → D.model.may_leave (flusher_device self.now) c
            → StopShows (phase_of self.now) (calls_left self.now) state after c }
        ensures before { (state after : State) → IsFlushing D.model self.now state after
            → 2 ≤ calls_left self.now → (c : List ℕ) → D.model.may_leave (flusher_device self.now) c → Shows c state }
    {
        self.store.show_images();
    }
}
