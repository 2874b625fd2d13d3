//! Scripts on a store whose current half has the greatest epoch and little room: the other half can't begin anew.
use crate::expect::expect;
use crate::scripts::{JOINS, add};
use crate::worlds::expect_run_on;
use apd_disk::MemDisk;
use apd_script::ScriptFault;
use apd_store::StoreFault;
use apd_world::WorldFault;
use std::alloc::Global;
use std::process::Abort;

/// The front of an open half: the greatest epoch, and an empty snapshot.
const FRONT: [u8; 13] = [1, 255, 255, 255, 255, 255, 255, 255, 255, 0, 0, 0, 0];

/// A group of one record, by which a list of no radio is cleared.
const CLEARED: [u8; 13] = [1, 8, 0, 0, 0, 5, 2, 0, 0, 0, 0, 9, 0];

/// A group of no records.
const NOTHING: [u8; 5] = [1, 0, 0, 0, 0];

/// Adds a group, as many times.
fn add_groups(rt: &impl Abort, bytes: &mut Vec<u8>, group: &[u8], times: u32) {
    for _ in 0..times {
        add(rt, bytes, group);
    }
}

/// Adds zeros up to a length.
fn fill(rt: &impl Abort, bytes: &mut Vec<u8>, length: usize) {
    bytes.resize(length, 0).expect(rt, "memory");
}

/// A device whose half A has so many groups of either kind, and its closed gate at a place of the half.
fn worn_device(rt: &impl Abort, alloc: Global, cleared: u32, nothing: u32, gate: usize) -> MemDisk {
    let mut bytes = Vec::new(alloc);
    add(rt, &mut bytes, b"RAPSTOR2");
    fill(rt, &mut bytes, 64);
    add(rt, &mut bytes, &FRONT);
    add_groups(rt, &mut bytes, &CLEARED, cleared);
    add_groups(rt, &mut bytes, &NOTHING, nothing);
    expect(rt, bytes.len().checked_sub(64), Some(gate));
    fill(rt, &mut bytes, 2_097_216);
    MemDisk::new(alloc, bytes).expect(rt, "memory")
}

const WORN: Option<ScriptFault> = Some(ScriptFault::World(WorldFault::Store(StoreFault::Worn)));

/// The group of the start's policy has 15 bytes, and the closed gate behind it one: it fits up to 1,048,560.
#[test]
fn a_worn_store_ends_a_script_at_its_start_or_first_flush(rt: HostRuntime) {
    let alloc = rt.alloc();
    for (cleared, nothing, gate, script, fault, want) in [
        (4, 209_699, 1_048_560, b"".as_slice(), None, b"".as_slice()),
        (4, 209_699, 1_048_560, JOINS.as_bytes(), WORN, b"entry 2\n"),
        (1, 209_707, 1_048_561, b"", WORN, b""),
    ] {
        let disk = worn_device(&rt, alloc, cleared, nothing, gate);
        expect_run_on(&rt, alloc, disk, script, (fault, want));
    }
}
