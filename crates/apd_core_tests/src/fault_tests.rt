//! Calls of a switch that fail, and an epoch that has no next one.
use crate::expect::expect;
use crate::halves::{AUTHENTICATED, POLICY, both_open, device, flusher, full, load_and_turn, show};
use apd_disk::{Disk, MemDisk, OnceDisk, Torn};
use apd_flusher::Flusher;
use apd_journal::Batch;
use apd_store::StoreFault;
use std::alloc::Global;

// Why a batch is refused, where it comes back.
fn refusal<D: Disk>(flusher: &mut Flusher<D>, batch: Batch) -> Option<StoreFault> {
    let (first, last, length) = (batch.first, batch.last, batch.changes.len());
    let (back, fault) = flusher.load(batch).err()?;
    if back.first == first && back.last == last && back.changes.len() == length {
        Some(fault)
    } else {
        None
    }
}

// Why the next two turns fail.
fn faults<D: Disk>(flusher: &mut Flusher<D>) -> Option<(StoreFault, StoreFault)> {
    Some((flusher.turn().err()?, flusher.turn().err()?))
}

// Why the turns behind so many fail, and the device.
fn faults_after<D: Disk>(
    alloc: Global,
    disk: D,
    calls: u64,
) -> Option<((StoreFault, StoreFault), D)>
where
    D: Drop,
{
    let (mut flusher, batch) = flusher(alloc, disk)?;
    let turned = load_and_turn(&mut flusher, batch, calls);
    let faults = faults(&mut flusher);
    turned.and(faults).zip(Some(flusher.into_device()))
}

// The device after a stop, once the call behind so many of a switch has failed, where it told so once.
fn fail_once(alloc: Global, calls: u64, torn: Torn) -> Option<MemDisk> {
    // Behind two calls of the recovery.
    let disk = OnceDisk::new(both_open(alloc)?, calls.saturating_add(2));
    let (faults, disk) = faults_after(alloc, disk, calls)?;
    if faults == (StoreFault::Device, StoreFault::Failed) {
        Some(disk.into_inner().crash(torn))
    } else {
        None
    }
}

#[test]
fn each_of_ten_calls_fails_once(rt: HostRuntime) {
    let alloc = rt.alloc();
    for calls in 0..9 {
        let found = show(alloc, fail_once(alloc, calls, Torn::New));
        expect(&rt, (calls, found), (calls, "before"));
    }
    for (calls, torn, is) in [
        (0, Torn::Byte(1), "before"),
        (4, Torn::Byte(1), "before"),
        (8, Torn::Byte(1), "before"),
        (9, Torn::Old, "before"),
        (9, Torn::New, "after"),
        (10, Torn::New, "no device"),
    ] {
        let found = show(alloc, fail_once(alloc, calls, torn));
        expect(&rt, (calls, torn, found), (calls, torn, is));
    }
}

// Why a batch is refused, and the device.
fn refusal_on<D: Disk>(alloc: Global, disk: D) -> Option<(StoreFault, D)>
where
    D: Drop,
{
    let (mut flusher, batch) = flusher(alloc, disk)?;
    let fault = refusal(&mut flusher, batch);
    fault.zip(Some(flusher.into_device()))
}

// Why a batch is refused where half A is full and of this epoch, and how many calls the device served.
fn refusal_when_worn(alloc: Global, epoch: u64) -> Option<(StoreFault, usize)> {
    let half = full(alloc, epoch, POLICY, AUTHENTICATED, AUTHENTICATED)?;
    let (fault, disk) = refusal_on(alloc, device(alloc, &half, &[])?)?;
    Some((fault, disk.calls().len()))
}

// Refused it makes no call behind the two of the recovery.
#[test]
fn the_last_epoch_has_no_next_one(rt: HostRuntime) {
    let alloc = rt.alloc();
    let refusal = refusal_when_worn(alloc, u64::MAX);
    expect(&rt, refusal, Some((StoreFault::Worn, 2)));
    expect(&rt, refusal_when_worn(alloc, u64::MAX - 1), None);
}
