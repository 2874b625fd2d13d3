//! What lies between a core and a device: a flusher, and what waits beside it.
ghost use Rattle.std.specs.Prelude.{◌≡◌, ◌⊎◌, ◌↔◌, ◌<◌, ℕ, List, Bool, Option, IfSome, IsNone, IsSome, None, Some, IsTrue, false};
ghost use Rattle.apd_base.specs.State.{State};
ghost use Rattle.apd_disk.specs.Disk.{LeavesOnly};
ghost use Rattle.apd_journal.specs.declared.batch.Batch.{Batch};
ghost use Rattle.apd_store.specs.Image.{Shows};
ghost use Rattle.apd_store.specs.Outside.{held_batch};

use crate::flusher::Flusher;
use crate::phase::Phase;
use apd_disk::Disk;
use apd_journal::Batch;
use apd_store::{Receipt, StoreFault};

/// The flusher of a core, a batch that the flusher refused, and a receipt that the core refused: none of them is
/// lost, whatever a call answers.
#[derive(Drop)]
pub struct Committer<D: Disk> {
    flusher: Flusher<D>,
    // The batch that waits for the flusher, and the receipt that waits for the core.
    batch: Option<Batch>,
    receipt: Option<Receipt>,
}

impl<D: Disk> Committer<D> {
    ghost use Rattle.apd_flusher.specs.Committing.{IsImaged, IsWhole, ShowsEither, has_failed_after, state_after_flight};
    ghost use Rattle.apd_flusher.specs.Flushing.{IsGood, IsInside, IsSteady};
    ghost use Rattle.apd_flusher.specs.Handing.{HasNoneToLoad, HasNoReceipt, IsLoadGiven, IsReceiptGiven, IsTurnMade, Keeps};
    ghost use Rattle.apd_flusher.specs.Outside.{calls_left, flusher_device, flusher_of, phase_of, table_of, waiting_batch, waiting_receipt};
    ghost use Rattle.apd_flusher.specs.Turning.{IsTurnBetween};

    /// A committer of a flusher, with nothing that waits.
    pub fn new(flusher: Flusher<D>) -> Committer<D>
        ensures flusher { flusher_of result ≡ flusher }
        ensures batch { waiting_batch result ≡ None }
        ensures receipt { waiting_receipt result ≡ None }
        ensures whole { phase_of flusher ≡ Phase.Idle → IsInside D.model flusher
            → (failed : Bool) → IsWhole D.model result (table_of flusher) None failed }
        ensures imaged { D.model.honest (flusher_device flusher) → (s : State) → IsSteady D.model flusher s
            → IsImaged D.model result }
    {
        Committer {
            flusher,
            batch: None,
            receipt: None,
        }
    }

    /// The flusher.
    pub fn flusher(&self) -> &Flusher<D>
        ensures { result.now ≡ flusher_of self.now }
    {
        &self.flusher
    }

    /// What the flusher does next: it is busy exactly where calls of a batch are left.
    pub fn phase(&self) -> Phase
        ensures phase { result ≡ phase_of (flusher_of self.now) }
        ensures busy { (phase_of (flusher_of self.now) ≡ Phase.Busy) ↔ (0 < calls_left (flusher_of self.now)) }
    {
        self.flusher.phase()
    }

    /// Whether a batch waits, so that none is to be handed in.
    pub fn has_batch(&self) -> bool
        ensures some { IsTrue result → IsSome (waiting_batch self.now) }
        ensures none { result ≡ false → waiting_batch self.now ≡ None }
    {
        self.batch.is_some()
    }

    /// Loads the batch that waits, or else the one that is handed in, as the flusher's `load` does; nothing is told and
    /// nothing is done where there is neither. A batch that is refused waits.
    pub fn load(&mut self, given: Option<Batch>) -> Option<Result<(), StoreFault>>
        requires { (waiting_batch self.old ≡ None) ⊎ (given ≡ None) }
        ensures loaded { IfSome result (λ answer. IsLoadGiven answer given self.old self.new) }
        ensures none { IsNone result → HasNoneToLoad given self.old × (self.new ≡ self.old) }
        ensures device { flusher_device (flusher_of self.new) ≡ flusher_device (flusher_of self.old) }
        ensures keeps { Keeps D.model self.old self.new }
        ensures whole { (s : State) (flight : Option Batch) (failed : Bool) → given ≡ None
            → IsWhole D.model self.old s flight failed → IsWhole D.model self.new s flight failed }
        ensures handed_in { (s : State) (batch : Batch) (failed : Bool) → given ≡ Some batch → IsGood batch.changes s
            → IsWhole D.model self.old s None failed → IsWhole D.model self.new s (Some batch) failed }
    {
        let batch = self.batch.take().or(given)?;
        match self.flusher.load(batch) {
            Ok(()) => Some(Ok(())),
            Err((batch, fault)) => {
                self.batch = Some(batch);
                Some(Err(fault))
            }
        }
    }

    /// Makes the next call of the batch that is under way, as the flusher's `turn` does. A stop at some moment since it
    /// began leaves an image of the settled state, or of that after the batch in flight.
    ///
    /// Errors: those of the flusher's `turn`.
    pub fn turn(&mut self) -> Result<(), StoreFault>
        ensures made { IsTurnMade D.model result self.old self.new }
        ensures between { (state after : State)
            → IsTurnBetween D.model state after result (flusher_of self.old) (flusher_of self.new) }
        ensures keeps { Keeps D.model self.old self.new }
        ensures whole { (s : State) (flight : Option Batch) (failed : Bool) → IsWhole D.model self.old s flight failed
            → IsWhole D.model self.new s flight (has_failed_after result failed) }
        ensures any_moment { (s : State) (flight : Option Batch) (failed : Bool)
            → IsWhole D.model self.old s flight failed → IsImaged D.model self.old
            → LeavesOnly D.model (flusher_device (flusher_of self.old)) (flusher_device (flusher_of self.new))
            (ShowsEither s flight) }
    {
        self.flusher.turn()
    }

    /// The receipt that waits, or else the one that the flusher gives. The core is to settle its batch, or the receipt
    /// is to be taken back.
    pub fn take_receipt(&mut self) -> Option<Receipt>
        ensures given { IfSome result (λ receipt. IsReceiptGiven receipt self.old self.new) }
        ensures none { IsNone result → HasNoReceipt self.old × (self.new ≡ self.old) }
        ensures device { flusher_device (flusher_of self.new) ≡ flusher_device (flusher_of self.old) }
        ensures keeps { Keeps D.model self.old self.new }
        ensures whole { (s : State) (flight : Option Batch) (failed : Bool) → IsWhole D.model self.old s flight failed
            → IfSome result (λ receipt. (flight ≡ Some (held_batch receipt))
            × IsWhole D.model self.new (state_after_flight s flight) None failed) }
    {
        match self.receipt.take() {
            Some(receipt) => Some(receipt),
            None => self.flusher.unload(),
        }
    }

    /// Takes back a receipt that the core refused: it waits.
    pub fn take_back(&mut self, receipt: Receipt)
        requires { waiting_receipt self.old ≡ None }
        ensures flusher { flusher_of self.new ≡ flusher_of self.old }
        ensures batch { waiting_batch self.new ≡ waiting_batch self.old }
        ensures receipt { waiting_receipt self.new ≡ Some receipt }
        ensures keeps { Keeps D.model self.old self.new }
        ensures whole { (s : State) (failed : Bool)
            → IsWhole D.model self.old (state_after_flight s (Some (held_batch receipt))) None failed
            → IsWhole D.model self.new s (Some (held_batch receipt)) failed }
    {
        self.receipt = Some(receipt);
    }

    /// Tells a caller's proof what a stop now shows: the settled state, or that after the batch in flight; from the
    /// last call of a batch on, if that succeeded, until its receipt is handed out, that after the batch. (One of no
    /// changes has no call: that after it, from its load on.) It does nothing.
    pub fn show_images(&self)
        ensures now { (s : State) (flight : Option Batch) (failed : Bool) → IsWhole D.model self.now s flight failed
            → IsImaged D.model self.now → (image : List ℕ)
            → D.model.may_leave (flusher_device (flusher_of self.now)) image → ShowsEither s flight image }
        ensures any_moment { (s : State) (flight : Option Batch) (failed : Bool)
            → IsWhole D.model self.now s flight failed → IsImaged D.model self.now
            → LeavesOnly D.model (flusher_device (flusher_of self.now)) (flusher_device (flusher_of self.now))
            (ShowsEither s flight) }
        ensures durable { (s : State) (flight : Option Batch) (failed : Bool)
            → IsWhole D.model self.now s flight failed → IsImaged D.model self.now
            → (phase_of (flusher_of self.now) ≡ Phase.Done) ⊎ IsSome (waiting_receipt self.now) → (image : List ℕ)
            → D.model.may_leave (flusher_device (flusher_of self.now)) image
            → Shows image (state_after_flight s flight) }
    {
        self.flusher.show_images();
    }

    /// The flusher, the batch that waits and the receipt that waits.
    pub fn into_parts(self) -> (Flusher<D>, Option<Batch>, Option<Receipt>)
        ensures flusher { result.0 ≡ flusher_of self }
        ensures batch { result.1 ≡ waiting_batch self }
        ensures receipt { result.2 ≡ waiting_receipt self }
    {
        let Committer {
            flusher,
            batch,
            receipt,
        } = self;
        (flusher, batch, receipt)
    }
}
