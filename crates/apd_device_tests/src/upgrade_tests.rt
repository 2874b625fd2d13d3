// A store of version 1 is copied into a new one: the bytes, a stop and a fault at each call, and each refusal.
use crate::common::{
    LENGTH, Made, association, blank_disk, calls_after, format_store, table_of, write_bytes,
};
use crate::expect::expect;
use crate::old_images::{EMPTY, JOINED, Part, SWITCHED, device_of, device_of_length};
use crate::version_tests::{FIRST, Rows, SECOND, TORN, left_behind, rows};
use apd_base::Station;
use apd_disk::{Call, Disk, FuseDisk, MemDisk, OnceDisk, Torn};
use apd_store::{StoreFault, upgrade};
use std::alloc::Global;
use std::process::Abort;

// What a copy of `JOINED` has: half A with one snapshot.
const COPY: &[Part] = &[
    (0, b"RAPSTOR2"),
    (
        64,
        &[
            1, 1, 0, 0, 0, 0, 0, 0, 0, 30, 0, 0, 0, // the gate, the epoch, and the length of the snapshot
            6, 2, 0, 0, 0, 0, 1, 0, 0xd7, 7, // the policy
            1, 2, 0, 0, 0, 0, 1, 2, 0, 0, 0, 0, 0xaa, 2, 1, 0, 0x31, 4, 10, 0, // the station
            0, // the closed gate, at 107
        ],
    ),
];

// How a copying ends, and both devices.
fn copy_store<O: Disk, N: Disk>(alloc: Global, old: O, new: N) -> (Option<StoreFault>, O, N) {
    match upgrade(alloc, old, new) {
        Ok((old, store)) => (None, old, store.into_device()),
        Err((old, new, fault)) => (Some(fault), old, new),
    }
}

// The same onto a new device.
fn copy_to_blank<O: Disk>(
    rt: &impl Abort,
    alloc: Global,
    old: O,
) -> (Option<StoreFault>, O, MemDisk) {
    copy_store(alloc, old, blank_disk(rt, alloc, LENGTH))
}

// How the copying of a device ends, and what the new one shows then.
fn copy_and_look(alloc: Global, old: MemDisk, new: MemDisk) -> (Option<StoreFault>, Rows) {
    let (fault, _old, new) = copy_store(alloc, old, new);
    (fault, rows(alloc, new))
}

// What a device shows of its table once it was copied to a new one.
fn rows_of_a_copy(rt: &impl Abort, alloc: Global, old: MemDisk) -> Rows {
    let (fault, rows) = copy_and_look(alloc, old, blank_disk(rt, alloc, LENGTH));
    match fault {
        None => rows,
        Some(fault) => Err(fault),
    }
}

// The table of `SWITCHED`.
fn switch_rows(rt: &impl Abort) -> Rows {
    let associated = Some(association(rt));
    Ok((2, associated, Some(Station::Authenticated)))
}

// The calls by which an old device is copied.
const READING: [Made; 2] = [Made::Sync, Made::Read(0, LENGTH)];

// Those by which a new one is made of `JOINED`.
const MAKING: [Made; 7] = [
    Made::Sync,
    Made::Read(0, 8),
    Made::Write(64, 44),
    Made::Write(1_048_640, 13),
    Made::Sync,
    Made::Write(0, 8),
    Made::Sync,
];

// Expects on a device that these calls were made of it behind so many others, and that these parts stand on it.
fn expect_device(
    rt: &impl Abort,
    alloc: Global,
    disk: &MemDisk,
    (calls, made): (usize, &[Made]),
    parts: &[Part],
) {
    let found = calls_after(rt, alloc, disk, calls);
    expect(rt, found.as_slice(), made);
    expect_bytes(rt, disk, &device_of(rt, alloc, parts));
}

// Expects on a device the bytes of another.
fn expect_bytes(rt: &impl Abort, disk: &MemDisk, wanted: &MemDisk) {
    expect(rt, disk.bytes() == wanted.bytes(), true);
}

// The old device is synced and read, and the new one is made by the calls of a format.
#[test]
fn the_bytes_of_a_copy(rt: HostRuntime) {
    let alloc = rt.alloc();
    let before = device_of(&rt, alloc, JOINED);
    let calls = before.calls().len();
    let (fault, old, new) = copy_to_blank(&rt, alloc, before);
    expect(&rt, fault, None);
    expect_device(&rt, alloc, &old, (calls, &READING), JOINED);
    expect_device(&rt, alloc, &new, (0, &MAKING), COPY);
}

// A new device with the snapshot of the second half of `SWITCHED`.
fn copy_of_second_half(rt: &impl Abort, alloc: Global) -> MemDisk {
    let (_place, half) = SWITCHED.last().expect(rt, "a half");
    let snapshot = half.get(9..129).expect(rt, "a snapshot");
    let mut copy = device_of(rt, alloc, &[(0, b"RAPSTOR2"), (64, &[1, 1])]);
    write_bytes(rt, &mut copy, 73, snapshot);
    copy
}

// From the second half, whose epoch is 7: its snapshot is in order already, and its group sets both policies again.
#[test]
fn a_copy_of_the_second_half(rt: HostRuntime) {
    let alloc = rt.alloc();
    let old = device_of(&rt, alloc, SWITCHED);
    let (fault, _old, new) = copy_to_blank(&rt, alloc, old);
    expect(&rt, fault, None);
    expect_bytes(&rt, &new, &copy_of_second_half(&rt, alloc));
}

// The identifiers that the BSSIDs of a device give next.
fn next_identifiers(alloc: Global, disk: MemDisk) -> Option<[Option<u16>; 2]> {
    let table = table_of(alloc, disk).ok()?;
    Some([table.next_free(FIRST), table.next_free(SECOND)])
}

// Expects that `JOINED` is copied where its station has this identifier, and these identifiers that the copy gives next.
fn expect_identifiers(rt: &impl Abort, alloc: Global, aid: u8, next: [Option<u16>; 2]) {
    let mut old = device_of(rt, alloc, JOINED);
    write_bytes(rt, &mut old, 136, &[aid]);
    let (fault, _old, new) = copy_to_blank(rt, alloc, old);
    let found = (fault, next_identifiers(alloc, new));
    expect(rt, found, (None, Some(next)));
}

// The copied station keeps its identifier, and the next one gets the least free above 0.
#[test]
fn the_identifiers_of_a_copy(rt: HostRuntime) {
    expect_identifiers(&rt, rt.alloc(), 1, [Some(2), Some(1)]);
    expect_identifiers(&rt, rt.alloc(), 5, [Some(1), Some(1)]);
}

// How a copying ends whose old device stops behind so many calls, what that one shows then once it is copied, and whether
// the new one is a store.
fn stop_on_old(
    rt: &impl Abort,
    alloc: Global,
    passes: u64,
    torn: Torn,
) -> (Option<StoreFault>, Rows, bool) {
    let fuse = FuseDisk::new(device_of(rt, alloc, SWITCHED), passes);
    let (fault, old, new) = copy_to_blank(rt, alloc, fuse);
    let is_store = rows(alloc, new.crash(torn)).is_ok();
    let left = rows_of_a_copy(rt, alloc, old.into_inner().crash(torn));
    (fault, left, is_store)
}

// Calls of the old device behind which it stops, and how the copying ends.
const OLD_STOPS: &[(u64, Option<StoreFault>)] = &[
    (0, Some(StoreFault::Device)),
    (1, Some(StoreFault::Device)),
    (2, None),
];

// Stops at each call on the old device.
fn stop_old(rt: &impl Abort, alloc: Global, torn: Torn) {
    let left = switch_rows(rt);
    for (passes, fault) in OLD_STOPS {
        let found = stop_on_old(rt, alloc, *passes, torn);
        let wanted = (*fault, left, fault.is_none());
        expect(rt, (torn, *passes, found), (torn, *passes, wanted));
    }
}

#[test]
fn a_stop_at_each_call_on_the_old_device(rt: HostRuntime) {
    for torn in TORN {
        stop_old(&rt, rt.alloc(), *torn);
    }
}

// Whether a copying ends well whose new device, a store of version 1 before, stops behind so many calls, and what both
// devices show then: the old one once it is copied.
fn stop_on_new(rt: &impl Abort, alloc: Global, passes: u64, torn: Torn) -> (bool, Rows, Rows) {
    let fuse = FuseDisk::new(device_of(rt, alloc, JOINED), passes);
    let (fault, old, new) = copy_store(alloc, device_of(rt, alloc, SWITCHED), fuse);
    let found = rows(alloc, new.into_inner().crash(torn));
    let left = rows_of_a_copy(rt, alloc, old.crash(torn));
    (fault.is_none(), found, left)
}

// What is found of both devices after a stop at each call on the new one.
fn stop_at_each_call(rt: &impl Abort, alloc: Global, torn: Torn) {
    let copy = switch_rows(rt);
    for passes in 0..10 {
        let found = stop_on_new(rt, alloc, passes, torn);
        let wanted = left_behind(passes, torn, copy);
        expect(rt, (passes, found), (passes, (passes == 9, wanted, copy)));
    }
}

#[test]
fn a_stop_that_leaves_what_was(rt: HostRuntime) {
    stop_at_each_call(&rt, rt.alloc(), Torn::Old);
}

#[test]
fn a_stop_that_leaves_what_was_written(rt: HostRuntime) {
    stop_at_each_call(&rt, rt.alloc(), Torn::New);
}

#[test]
fn a_stop_that_tears_to_ones(rt: HostRuntime) {
    stop_at_each_call(&rt, rt.alloc(), Torn::Byte(1));
}

#[test]
fn a_stop_that_tears_to_other_bytes(rt: HostRuntime) {
    stop_at_each_call(&rt, rt.alloc(), Torn::Byte(0x7f));
}

// How a copying ends whose old device fails once, the calls of the new one, and what the old one shows then once it is
// copied.
fn fail_on_old(rt: &impl Abort, alloc: Global, call: u64) -> (Option<StoreFault>, usize, Rows) {
    let once = OnceDisk::new(device_of(rt, alloc, SWITCHED), call);
    let (fault, old, new) = copy_to_blank(rt, alloc, once);
    let calls = new.calls().len();
    drop(new);
    let left = rows_of_a_copy(rt, alloc, old.into_inner());
    (fault, calls, left)
}

// How a copying ends whose new device fails once, how the next one from and to them ends, and what the new one shows then.
fn fail_on_new(
    rt: &impl Abort,
    alloc: Global,
    call: u64,
) -> (Option<StoreFault>, (Option<StoreFault>, Rows)) {
    let once = OnceDisk::new(device_of(rt, alloc, JOINED), call);
    let (fault, old, new) = copy_store(alloc, device_of(rt, alloc, SWITCHED), once);
    (fault, copy_and_look(alloc, old, new.into_inner()))
}

fn expect_fail_on_old(rt: &impl Abort, alloc: Global, call: u64) {
    let found = fail_on_old(rt, alloc, call);
    let failed = Some(StoreFault::Device);
    expect(rt, (call, found), (call, (failed, 0, switch_rows(rt))));
}

fn expect_fail_on_new(rt: &impl Abort, alloc: Global, call: u64) {
    let found = fail_on_new(rt, alloc, call);
    let failed = Some(StoreFault::Device);
    let copy = (None, switch_rows(rt));
    expect(rt, (call, found), (call, (failed, copy)));
}

// A call fails once on either device: both are handed back, and copied from and to again.
#[test]
fn a_fault_at_each_call(rt: HostRuntime) {
    for call in 0..2 {
        expect_fail_on_old(&rt, rt.alloc(), call);
    }
    for call in 0..9 {
        expect_fail_on_new(&rt, rt.alloc(), call);
    }
}

// Whether a device was written behind so many calls.
fn is_written(disk: &MemDisk, calls: usize) -> bool {
    let mut is_so = false;
    for call in disk.calls().iter().skip(calls) {
        is_so = is_so || matches!(call, Call::Write(_, _));
    }
    is_so
}

// Expects that the copying of a device onto one of this length is refused for this fault, which leaves both as they were.
fn expect_refusal(rt: &impl Abort, alloc: Global, old: MemDisk, length: usize, wanted: StoreFault) {
    let calls = old.calls().len();
    let (fault, old, new) = copy_store(alloc, old, blank_disk(rt, alloc, length));
    let written = !new.calls().is_empty() || is_written(&old, calls);
    expect(rt, (length, fault, written), (length, Some(wanted), false));
}

// Lengths of old devices, what stands on them, and why they are not copied.
const REFUSED: &[(usize, &[Part], StoreFault)] = &[
    (LENGTH, &[], StoreFault::NotAStore),
    (LENGTH - 1, &[(0, b"RAPSTOR1")], StoreFault::NotAStore),
    (LENGTH + 1, &[(0, b"RAPSTOR2")], StoreFault::NotAStore),
    (8, &[(0, b"RAPSTOR2")], StoreFault::NotAStore),
    (LENGTH, COPY, StoreFault::NewVersion),
    (LENGTH, &[(0, b"RAPSTOR1")], StoreFault::Damaged),
];

// What stands on an old device over `JOINED`, which is then damaged: a station of no kind, and a cursor's record, of 0.
const DAMAGES: &[Part] = &[(110, &[3]), (142, &[1, 9, 0, 0, 0, 7, 2, 0, 0, 0, 0, 1])];

// Expects that the copying of `JOINED` with this part over it is refused.
fn expect_damage(rt: &impl Abort, alloc: Global, (place, bytes): Part) {
    let mut old = device_of(rt, alloc, JOINED);
    write_bytes(rt, &mut old, place, bytes);
    expect_refusal(rt, alloc, old, LENGTH - 1, StoreFault::Damaged);
}

// Expects that `JOINED` is not copied onto a device of this length.
fn expect_no_room(rt: &impl Abort, alloc: Global, length: usize) {
    let old = device_of(rt, alloc, JOINED);
    expect_refusal(rt, alloc, old, length, StoreFault::NotAStore);
}

#[test]
fn an_upgrade_refuses_damaged_stores_and_other_lengths(rt: HostRuntime) {
    let alloc = rt.alloc();
    for (length, parts, fault) in REFUSED {
        let old = device_of_length(&rt, alloc, *length, parts);
        expect_refusal(&rt, alloc, old, LENGTH - 1, *fault);
    }
    for part in DAMAGES {
        expect_damage(&rt, alloc, *part);
    }
    for length in [0, 64, LENGTH - 1, LENGTH + 1] {
        expect_no_room(&rt, alloc, length);
    }
}

// A new store.
fn empty_store(rt: &impl Abort, alloc: Global) -> MemDisk {
    format_store(rt, alloc, blank_disk(rt, alloc, LENGTH)).into_device()
}

// Expects that the copying of `SWITCHED` ends well onto a device on which these parts stand.
fn expect_copy_onto(rt: &impl Abort, alloc: Global, parts: &[Part]) {
    let old = device_of(rt, alloc, SWITCHED);
    let found = copy_and_look(alloc, old, device_of(rt, alloc, parts));
    expect(rt, found, (None, switch_rows(rt)));
}

#[test]
fn an_upgrade_overwrites_a_store(rt: HostRuntime) {
    let alloc = rt.alloc();
    expect_copy_onto(&rt, alloc, EMPTY);
    expect_copy_onto(&rt, alloc, SWITCHED);
    expect_copy_onto(&rt, alloc, COPY);
    let old = device_of(&rt, alloc, EMPTY);
    let found = copy_and_look(alloc, old, empty_store(&rt, alloc));
    expect(&rt, found, (None, Ok((0, None, None))));
}
