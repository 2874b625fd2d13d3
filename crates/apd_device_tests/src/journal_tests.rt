//! A half in bytes, what its cuts and changed bytes hold, and the bytes of groups.
use crate::common::{association, policy, put};
use crate::expect::expect;
use apd_base::{Sequence, Station};
use apd_journal::{Batch, Groups, fits, plan, read_groups};
use apd_record::Change;
use std::alloc::Global;
use std::process::Abort;

// Epoch 1, an empty snapshot, three groups of one change each, a closed gate at 78, and zeros.
const HALF: &[u8] = &[
    1, 1, 0, 0, 0, 0, 0, 0, 0, 0, 0, 0, 0, // the gate, the epoch and the snapshot
    1, 10, 0, 0, 0, 6, 2, 0, 0, 0, 0, 1, 0, 0xd7, 7, // at 13
    1, 20, 0, 0, 0, 1, 2, 0, 0, 0, 0, 1, 2, 0, 0, 0, 0, 0xaa, 1, 0, 0, 0, 0, 0, 0, // at 28
    1, 20, 0, 0, 0, 1, 2, 0, 0, 0, 0, 1, 2, 0, 0, 0, 0, 0xaa, 2, 1, 0, 0x31, 4, 10, 0, // at 53
    0, 0, 0, 0, 0, 0, 0, 0, 0, 0, 0, 0, // at 78
];

// The groups of a half, where bytes are one.
fn groups_of(rt: &impl Abort, alloc: Global, half: &[u8]) -> Option<Groups> {
    read_groups(alloc, half).expect(rt, "memory")
}

// Whether bytes are a half.
fn is_half(rt: &impl Abort, alloc: Global, half: &[u8]) -> bool {
    groups_of(rt, alloc, half).is_some()
}

// Expects that a half holds these changes under epoch 1, its closed gate at this place.
fn expect_groups(rt: &impl Abort, alloc: Global, half: &[u8], changes: &[Change], gate: usize) {
    let groups = groups_of(rt, alloc, half).expect(rt, "a half");
    expect(rt, (groups.epoch, groups.gate), (1, gate));
    expect(rt, groups.changes.as_slice(), changes);
}

// The half where these bytes stand at this place.
fn half_with(rt: &impl Abort, alloc: Global, place: usize, bytes: &[u8]) -> Vec<u8> {
    let mut half = Vec::from_slice(alloc, HALF).expect(rt, "memory");
    for (i, byte) in bytes.iter().enumerate() {
        if let Some(at) = half.get_mut(place.saturating_add(i)) {
            *at = *byte;
        }
    }
    half
}

// How many changes a half holds, and where its closed gate is.
fn counts(rt: &impl Abort, alloc: Global, half: &[u8]) -> Option<(usize, usize)> {
    let groups = groups_of(rt, alloc, half)?;
    Some((groups.changes.len(), groups.gate))
}

#[test]
fn three_groups(rt: HostRuntime) {
    let last = put(association(&rt));
    let changes = [policy(&rt), put(Station::Authenticated), last];
    expect_groups(&rt, rt.alloc(), HALF, &changes, 78);
}

#[test]
fn two_groups_and_the_end(rt: HostRuntime) {
    let changes = [policy(&rt), put(Station::Authenticated)];
    let front = HALF.get(..53).expect(&rt, "53 bytes");
    let mut half = Vec::from_slice(rt.alloc(), front).expect(&rt, "memory");
    expect(&rt, is_half(&rt, rt.alloc(), &half), false);
    half.push(0).expect(&rt, "memory");
    expect_groups(&rt, rt.alloc(), &half, &changes, 53);
}

#[test]
fn a_half_cut_before_its_last_gate_is_refused(rt: HostRuntime) {
    for end in 0..91 {
        let front = HALF.get(..end).expect(&rt, "so many bytes");
        let found = is_half(&rt, rt.alloc(), front);
        expect(&rt, (end, found), (end, end > 78));
    }
}

// Bytes at a place of the half, and what it holds where they stand there.
const OTHERS: &[(usize, &[u8], Option<(usize, usize)>)] = &[
    // The half is closed.
    (0, &[0], None),
    (0, &[2], None),
    // A group's gate is closed.
    (13, &[0], Some((0, 13))),
    (28, &[2], Some((1, 28))),
    (53, &[0], Some((2, 53))),
    (53, &[0x7f], Some((2, 53))),
    // A station of no kind, and a length that cuts a record.
    (46, &[3], None),
    (29, &[19], None),
    // A group of no records, and one that is too long.
    (78, &[1], Some((3, 83))),
    (78, &[1, 1, 0, 1, 0], None),
    // What is behind the closed gate is not looked at.
    (79, &[255, 255, 255, 255], Some((3, 78))),
];

#[test]
fn other_bytes_in_a_half(rt: HostRuntime) {
    let alloc = rt.alloc();
    for (place, bytes, found) in OTHERS {
        let is = counts(&rt, alloc, &half_with(&rt, alloc, *place, bytes));
        expect(&rt, (*place, *bytes, is), (*place, *bytes, *found));
    }
}

// A batch of no changes.
fn empty_batch(alloc: Global) -> Batch {
    Batch {
        first: 1,
        last: 1,
        changes: Sequence::new(alloc),
    }
}

// Expects of a batch that it is planned so.
fn expect_plan(
    rt: &impl Abort,
    alloc: Global,
    batch: &Batch,
    place: usize,
    wanted: (usize, &[u8]),
) {
    let made = plan(alloc, batch, place).expect(rt, "memory");
    expect(rt, (made.place, made.bytes.as_slice()), wanted);
}

#[test]
fn a_plan_has_the_bytes_behind_its_gate(rt: HostRuntime) {
    let mut batch = empty_batch(rt.alloc());
    expect_plan(&rt, rt.alloc(), &batch, 78, (79, &[0, 0, 0, 0, 0]));
    batch.changes.push(policy(&rt)).expect(&rt, "memory");
    let bytes = &[10, 0, 0, 0, 6, 2, 0, 0, 0, 0, 1, 0, 0xd7, 7, 0];
    expect_plan(&rt, rt.alloc(), &batch, 13, (14, bytes));
}

#[test]
fn groups_of_one_row_that_fit(rt: HostRuntime) {
    // A policy's group leaves the closed gate at 28; the group of a row has 25 bytes.
    for groups in 0..41_941 {
        expect(&rt, (groups, fits(28 + 25 * groups, 20)), (groups, true));
    }
    expect(&rt, fits(28 + 25 * 41_941, 20), false);
    expect(&rt, fits(28 + 25 * 41_941, 10), true);
    expect(&rt, fits(usize::MAX, usize::MAX), false);
}
