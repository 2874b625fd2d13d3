//! Flushes over a device that fails: they end by the store's fault, and never by want of memory.
use crate::calls::{blank_disk, flush_answers, hand_out_answers, makes, refusal};
use crate::expect::expect;
use crate::steps::steps_of;
use crate::worlds::{failing_radio, new_world, sims};
use apd_disk::{Disk, FuseDisk, OnceDisk};
use apd_radio::Radio;
use apd_slot::Slot;
use apd_store::StoreFault;
use apd_world::{World, WorldFault};
use std::alloc::Global;

/// Why a flush is refused; none where it is not.
fn flush_refusal<D: Disk, R: Radio>(world: &mut World<D, R>) -> Option<WorldFault> {
    flush_answers(world).err()
}

/// Why three flushes are refused, and a hand-out behind them.
type Refusals = ([Option<WorldFault>; 3], Option<WorldFault>);

/// The same of a started world, once a station has authenticated.
fn refusals<D: Disk, R: Radio>(alloc: Global, world: &mut World<D, R>) -> Option<Refusals> {
    makes(world, &steps_of(alloc, "authenticates")?)?;
    let flushes = [
        flush_refusal(world),
        flush_refusal(world),
        flush_refusal(world),
    ];
    Some((flushes, hand_out_answers(world).err()))
}

/// The same of a world on a store that the device is given, whose start is not refused.
fn refusals_over<D: Disk + Drop, R: Radio>(
    alloc: Global,
    disk: D,
    slots: Vec<Slot<R>>,
) -> Option<Refusals> {
    let mut world = new_world(alloc, disk, &[1], slots)?;
    let found = match refusal(&mut world) {
        Some(_) => None,
        None => refusals(alloc, &mut world),
    };
    drop(world);
    found
}

/// Over a device that passes this many calls, and fails for good then.
fn over_fuse(alloc: Global, passes: u64) -> Option<Refusals> {
    let disk = FuseDisk::new(blank_disk(alloc)?, passes);
    refusals_over(alloc, disk, sims(alloc, &[1])?)
}

/// Over one that fails the call behind this many alone.
fn over_once(alloc: Global, passes: u64) -> Option<Refusals> {
    let disk = OnceDisk::new(blank_disk(alloc)?, passes);
    refusals_over(alloc, disk, sims(alloc, &[1])?)
}

/// The same, with a radio that fails at once.
fn over_both(alloc: Global, passes: u64) -> Option<Refusals> {
    let disk = OnceDisk::new(blank_disk(alloc)?, passes);
    refusals_over(alloc, disk, failing_radio(alloc, 0)?)
}

// The store is formatted by seven calls, and a batch is committed by four: that of the start, and the station's.
#[test]
fn a_flush_tells_which_fault_of_the_store_ends_it(rt: HostRuntime) {
    let alloc = rt.alloc();
    let device = Some(WorldFault::Store(StoreFault::Device));
    let failed = Some(WorldFault::Store(StoreFault::Failed));
    for (passes, flushes) in [
        (11, [device, failed, failed]),
        (12, [device, failed, failed]),
        (13, [device, failed, failed]),
        (14, [device, failed, failed]),
        (15, [None, None, None]),
    ] {
        let found = [
            over_fuse(alloc, passes),
            over_once(alloc, passes),
            over_both(alloc, passes),
        ];
        expect(&rt, (passes, found), (passes, [Some((flushes, None)); 3]));
    }
}
