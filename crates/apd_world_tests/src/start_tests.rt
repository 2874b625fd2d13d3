//! Starts that find a full store, or a device that fails.
use crate::calls::{Memory, blank_disk, refusal};
use crate::expect::expect;
use crate::steps::WLAN0;
use crate::worlds::{
    configure_radio, new_world, radio, recover_world, sims, start_world, stop_after,
};
use apd_core::QuietReason;
use apd_disk::{FuseDisk, MemDisk};
use apd_radio::Sim;
use apd_store::StoreFault;
use apd_world::{Reception, Told, World, WorldFault};
use std::alloc::Global;

/// A store of which eight interfaces were started.
fn full_store(alloc: Global) -> Option<MemDisk> {
    stop_after(start_world(alloc, &[1, 2, 3, 4, 5, 6, 7, 8])?, &[])
}

/// What is told of the first step.
fn reception(tolds: &[Told]) -> Option<Reception> {
    match tolds.first()? {
        Told::Accepted(reception) => Some(*reception),
        _ => None,
    }
}

/// Whether the ninth BSSID has a policy, and whether the first.
fn have_policies(world: &Memory) -> (bool, bool) {
    let table = world.table();
    (
        table.policy(radio(9)).is_some(),
        table.policy(WLAN0).is_some(),
    )
}

/// What the ninth BSSID is told of its configuration.
fn ninth_reception(alloc: Global, world: &mut Memory) -> Option<Reception> {
    reception(configure_radio(alloc, world, 9).as_deref()?)
}

/// Of a world that comes upon the ninth BSSID first: after its start, which have policies, and what the ninth is told.
fn ninth(alloc: Global, world: &mut Memory) -> Option<((bool, bool), Reception)> {
    if refusal(world).is_some() {
        return None;
    }
    let policies = have_policies(world);
    Some((policies, ninth_reception(alloc, world)?))
}

/// The same of the full store.
fn ninth_of_full(alloc: Global) -> Option<((bool, bool), Reception)> {
    let mut world = recover_world(alloc, full_store(alloc)?, &[9, 1])?;
    let told = ninth(alloc, &mut world);
    drop(world);
    told
}

#[test]
fn a_start_passes_over_a_ninth_bssid(rt: HostRuntime) {
    let too_many = Reception::Quiet(QuietReason::TooManyBss);
    expect(
        &rt,
        ninth_of_full(rt.alloc()),
        Some(((false, true), too_many)),
    );
}

/// A world of one radio on a device that passes this many calls and fails then.
fn world_on_fuse(alloc: Global, passes: u64) -> Option<World<FuseDisk<MemDisk>, Sim>> {
    let disk = FuseDisk::new(blank_disk(alloc)?, passes);
    new_world(alloc, disk, &[1], sims(alloc, &[1])?)
}

/// Why two starts are refused.
fn refusals(alloc: Global, passes: u64) -> Option<[Option<WorldFault>; 2]> {
    let mut world = world_on_fuse(alloc, passes)?;
    let found = [refusal(&mut world), refusal(&mut world)];
    drop(world);
    Some(found)
}

// The store is formatted by seven calls, and each start commits a batch by four.
#[test]
fn a_start_tells_which_fault_of_the_store_ends_it(rt: HostRuntime) {
    let device = Some(WorldFault::Store(StoreFault::Device));
    let failed = Some(WorldFault::Store(StoreFault::Failed));
    for (passes, found) in [
        (7, [device, failed]),
        (10, [device, failed]),
        (11, [None, device]),
        (14, [None, device]),
        (15, [None, None]),
    ] {
        expect(
            &rt,
            (passes, refusals(rt.alloc(), passes)),
            (passes, Some(found)),
        );
    }
}
