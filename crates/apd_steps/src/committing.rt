//! The steps of a core and its committer.
ghost use Rattle.std.specs.Prelude.{Option};
ghost use Rattle.apd_journal.specs.declared.batch.Batch.{Batch};
ghost use Rattle.apd_store.specs.declared.store.Receipt.{Receipt};
ghost use Rattle.apd_steps.specs.Run.{Call, Fail, IsStep, Publish, Take};

use crate::settles::Settles;
use apd_core::PublishFault;
use apd_disk::Disk;
use apd_flusher::{Committer, Phase};
use apd_store::StoreFault;
use std::alloc::AllocError;

/// Loads the batch that waits in the committer, or else one that the core gives, and tells what the flusher answered;
/// none where there is neither. A batch that is refused waits.
///
/// Errors: where memory ran out in the core, and all is as it was.
pub fn take<A: Settles, D: Disk>(
    core: &mut A,
    committer: &mut Committer<D>,
) -> Result<Option<Result<(), StoreFault>>, AllocError>
    ensures { (given : Option Batch)
        × IsStep D.model A.made (Take given result) core.old core.new committer.old committer.new }
{
    committer.show_images();
    if committer.has_batch() {
        return Ok(committer.load(None));
    }
    match core.take() {
        Ok(given) => Ok(committer.load(given)),
        Err(short) => Err(short),
    }
}

/// Makes the next call of the batch that is under way, and tells what became of it; none where no call is left. The
/// core fails with the device.
pub fn call<A: Settles, D: Disk>(
    core: &mut A,
    committer: &mut Committer<D>,
) -> Option<Result<(), StoreFault>>
    ensures { IsStep D.model A.made (Call result) core.old core.new committer.old committer.new }
{
    committer.show_images();
    match committer.phase() {
        Phase::Idle | Phase::Done => return None,
        Phase::Busy | Phase::Failed => {}
    }
    match committer.turn() {
        Ok(()) => Some(Ok(())),
        Err(fault) => {
            if fault == StoreFault::Device {
                core.fail();
            }
            Some(Err(fault))
        }
    }
}

/// Publishes the receipt that waits, or else the one that the flusher gives, and tells what the core answered; none
/// where there is neither. A receipt that is refused waits.
pub fn publish<A: Settles, D: Disk>(
    core: &mut A,
    committer: &mut Committer<D>,
) -> Option<Result<(), PublishFault>>
    ensures { (receipt : Option Receipt)
        × IsStep D.model A.made (Publish receipt result) core.old core.new committer.old committer.new }
{
    committer.show_images();
    let Some(receipt) = committer.take_receipt() else {
        return None;
    };
    match core.publish(receipt) {
        Ok(()) => Some(Ok(())),
        Err((receipt, fault)) => {
            committer.take_back(receipt);
            Some(Err(fault))
        }
    }
}

/// Tells the core to fail, and leaves its committer as it is.
pub fn fail<A: Settles, D: Disk>(core: &mut A, committer: &Committer<D>)
    ensures { IsStep D.model A.made Fail core.old core.new committer.now committer.now }
{
    committer.show_images();
    core.fail();
}
