//! Committing the entries of a shared core, step by step.
ghost use Rattle.std.specs.Prelude.{◌≡◌, ◌≢◌, Option, None, Some, Ok};
ghost use Rattle.apd_flusher.specs.Handing.{Keeps};
ghost use Rattle.apd_journal.specs.declared.batch.Batch.{Batch as GivenBatch};
ghost use Rattle.apd_store.specs.declared.store.Receipt.{Receipt as GivenReceipt};
ghost use Rattle.apd_steps.specs.Run.{Call, IsRefusal, IsRun, Publish, Take};
ghost use Rattle.apd_desk.specs.Ends.{EndsAs};
ghost use Rattle.apd_desk.specs.Going.{HasGone};
ghost use Rattle.apd_desk.specs.Holding.{IsLed};

use crate::ending::Ending;
use crate::gate::{Gate, Place};
use crate::idle::{Idle, LOOKS, Progress};
use crate::locked::Look;
use crate::news::News;
use crate::shared::{Committed, Shared};
use apd_core::PublishFault;
use apd_disk::Disk;
use apd_flusher::{Committer, Phase};
use apd_steps::Settles;
use apd_store::StoreFault;
use std::alloc::AllocError;
use std::sync::Wait;
use std::sync::ledger::Ledger;
use std::thread::yield_now;
use std::time::Clock;

/// A core that gives batches away and settles them, and for whose news one can wait.
pub(crate) trait Rests: Settles {
    /// What was posted last of it, without the lock: each word is read for itself.
    fn look(&self) -> Look;

    /// Waits until there are entries since a look, or a stop.
    fn wait(&self, seen: Look);

    /// The same, for the pause before something is tried again.
    fn pause(&self, seen: Look);
}

impl<L: Ledger, W: Wait + Clock> Rests for Committed<'_, L, W> {
    fn look(&self) -> Look {
        self.shared.look()
    }

    fn wait(&self, seen: Look) {
        for _ in 0..LOOKS {
            if News::Entry.has_come(seen, self.shared.look()) {
                return;
            }
            yield_now();
        }
        self.shared.wait(self.rt, News::Entry, seen);
    }

    fn pause(&self, seen: Look) {
        self.shared.pause(self.rt, News::Entry, seen);
    }
}

// How a step went.
#[derive(Clone, Copy, Debug, PartialEq, Eq)]
enum Went {
    On,
    // The core settled the batch of the receipt that it was handed.
    Settled,
    // There was nothing to do.
    Nothing,
    // Memory ran out: the step is to be tried again.
    Short,
    Refused,
}

// How a load went.
fn went_loaded(told: Result<Option<Result<(), StoreFault>>, AllocError>) -> Went
    ensures refused { result ≡ Went.Refused → (given : Option GivenBatch) → IsRefusal (Take given told) }
    ensures nothing { result ≡ Went.Nothing → told ≡ Ok None }
{
    match told {
        Ok(Some(Ok(()))) => Went::On,
        Ok(None) => Went::Nothing,
        Ok(Some(Err(StoreFault::NoMemory))) | Err(_) => Went::Short,
        Ok(Some(Err(_))) => Went::Refused,
    }
}

// How a call of the device went.
fn went_called(told: Option<Result<(), StoreFault>>) -> Went
    ensures refused { result ≡ Went.Refused → IsRefusal (Call told) }
    ensures some { result ≢ Went.Nothing }
{
    match told {
        Some(Err(_)) => Went::Refused,
        Some(Ok(())) | None => Went::On,
    }
}

// How a receipt went.
fn went_published(told: Result<(), PublishFault>) -> Went
    ensures refused { result ≡ Went.Refused → (receipt : Option GivenReceipt)
        → IsRefusal (Publish receipt (Some told)) }
    ensures some { result ≢ Went.Nothing }
{
    match told {
        Ok(()) => Went::Settled,
        Err(PublishFault::NoMemory) => Went::Short,
        Err(PublishFault::Foreign) => Went::Refused,
    }
}

// Publishes the next receipt, and where there is none loads the next batch.
fn hand_on<A: Settles, D: Disk>(core: &mut A, committer: &mut Committer<D>) -> Went
    ensures { HasGone D.model A.made result core.old core.new committer.old committer.new }
{
    match apd_steps::publish(core, committer) {
        Some(told) => went_published(told),
        None => went_loaded(apd_steps::take(core, committer)),
    }
}

// Passes the gate before and after the next call of the device.
fn call<A: Settles, D: Disk, G: Gate>(core: &mut A, committer: &mut Committer<D>, gate: &G) -> Went
    ensures { HasGone D.model A.made result core.old core.new committer.old committer.new }
{
    gate.pass(Place::BeforeCall);
    let told = apd_steps::call(core, committer);
    gate.pass(Place::AfterCall);
    went_called(told)
}

fn step<A: Settles, D: Disk, G: Gate>(core: &mut A, committer: &mut Committer<D>, gate: &G) -> Went
    ensures { HasGone D.model A.made result core.old core.new committer.old committer.new }
{
    match committer.phase() {
        Phase::Busy | Phase::Failed => call(core, committer, gate),
        Phase::Idle | Phase::Done => hand_on(core, committer),
    }
}

// Behind a step that went so rests, until there is an entry or a stop where there was nothing to do, and looks again.
fn look_again<A: Rests>(core: &A, idle: &mut Idle, progress: Progress, seen: Look) -> Look {
    match progress {
        Progress::Nothing => core.wait(seen),
        Progress::Short | Progress::Made => {
            if idle.rest(progress) {
                core.pause(seen);
            }
        }
    }
    core.look()
}

// Commits the entries of a core, batch after batch, by steps alone; the core is told to fail where one is refused, which
// ends it.
fn commit_by_steps<W: Wait, A: Rests, D: Disk, G: Gate>(
    rt: &W,
    core: &mut A,
    committer: &mut Committer<D>,
    gate: &G,
) -> Ending
    ensures { (run : IsRun D.model A.made core.old core.new committer.old committer.new) × EndsAs result run.steps }
{
    let mut idle = Idle::new();
    let mut seen = core.look();
    for _ in rt.forever() {
        match step(core, committer, gate) {
            Went::On => {}
            Went::Settled => seen = look_again(core, &mut idle, Progress::Made, seen),
            Went::Nothing if seen.stopped => return Ending::Stopped,
            Went::Nothing => seen = look_again(core, &mut idle, Progress::Nothing, seen),
            Went::Short => seen = look_again(core, &mut idle, Progress::Short, seen),
            Went::Refused => {
                apd_steps::fail(core, committer);
                return Ending::Refused;
            }
        }
    }
    unreachable!()
}

/// Commits the entries of a shared core, batch after batch. After a stop it ends once nothing is unsettled. What met
/// want of memory is tried again; on any other refusal the core is told to fail, and it ends. It tells which of both
/// ended it. A batch or a receipt that was refused waits in the committer. It passes the gate before and after each turn
/// of the flusher, and holds the lock for none; it looks at what is posted once a group. Where there is nothing to
/// commit it waits for an entry, or a stop.
pub fn commit_all<L: Ledger, W: Wait + Clock, D: Disk, G: Gate>(
    rt: &W,
    shared: &Shared<L>,
    committer: &mut Committer<D>,
    gate: &G,
) -> Ending
    ensures led { (led : IsLed D.model committer.old committer.new) × EndsAs result led.steps }
    ensures keeps { Keeps D.model committer.old committer.new }
{
    let mut core = Committed { rt, shared };
    commit_by_steps(rt, &mut core, committer, gate)
}
