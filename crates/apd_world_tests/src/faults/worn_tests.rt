//! A full store of the greatest epoch: it refuses each batch, which waits, and nothing else has failed.
use crate::expect::expect;
use crate::faults::calls::{flush_refusal, flusher, tell};
use crate::faults::devices::{device_with, full_image, table_of};
use crate::faults::sessions::{ASSOCIATES, Said, in_short, world};
use apd_disk::{Disk, MemDisk};
use apd_radio::Sim;
use apd_store::StoreFault;
use apd_world::{Reception, Step, World, WorldFault};
use std::alloc::Global;

fn worn_world(alloc: Global) -> Option<World<MemDisk, Sim>> {
    world(alloc, device_with(alloc, full_image(alloc, u64::MAX)?)?)
}

/// What is told of a step.
fn answer_to<D: Disk>(world: &mut World<D, Sim>, step: Step<'static>) -> Option<Said> {
    Some(in_short(tell(world, &[step])?.first()?))
}

/// Steps, and what is told of each: the batch of the first request waits, and the second one is accepted behind it.
fn rows() -> [(Step<'static>, Said); 8] {
    let worn = Said::Loaded(Some(StoreFault::Worn));
    [
        (Step::Take, Said::Nothing),
        (ASSOCIATES, Said::Accepted(Reception::Entry(1))),
        (Step::Take, worn),
        (Step::Call, Said::Nothing),
        (Step::Publish, Said::Nothing),
        (ASSOCIATES, Said::Accepted(Reception::Entry(2))),
        (Step::Take, worn),
        (Step::Take, worn),
    ]
}

/// The first of these steps of which something else is told, and what.
fn otherwise<D: Disk>(world: &mut World<D, Sim>) -> Option<(usize, Option<Said>)> {
    for (place, (step, is)) in rows().iter().enumerate() {
        let told = answer_to(world, *step);
        if told != Some(*is) {
            return Some((place, told));
        }
    }
    None
}

#[test]
fn a_batch_that_is_refused_waits(rt: HostRuntime) {
    let mut world = worn_world(rt.alloc()).expect(&rt, "memory");
    let told = otherwise(&mut world);
    drop(world);
    expect(&rt, told, None);
}

/// Why two flushes are refused behind a request.
fn refusals<D: Disk>(world: &mut World<D, Sim>) -> Option<[Option<WorldFault>; 2]> {
    let _accepted = tell(world, &[ASSOCIATES])?;
    Some([flush_refusal(world), flush_refusal(world)])
}

#[test]
fn a_flush_tells_that_the_store_is_worn(rt: HostRuntime) {
    let mut world = worn_world(rt.alloc()).expect(&rt, "memory");
    let refusals = refusals(&mut world);
    drop(world);
    let worn = Some(WorldFault::Store(StoreFault::Worn));
    expect(&rt, refusals, Some([worn, worn]));
}

/// How many calls the device of such a world has served, and the table that it shows.
fn outcome(alloc: Global) -> Option<(usize, Option<u64>)> {
    let mut world = worn_world(alloc)?;
    let refusals = refusals(&mut world);
    let device = flusher(world).into_device();
    let calls = device.calls().len();
    refusals.and(Some((calls, table_of(alloc, device))))
}

// The recovery makes two calls.
#[test]
fn no_call_is_made_for_a_batch_that_a_worn_store_refuses(rt: HostRuntime) {
    expect(&rt, outcome(rt.alloc()), Some((2, Some(2))));
}
