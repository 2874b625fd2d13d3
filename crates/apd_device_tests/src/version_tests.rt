// Stores of version 1: they are told apart, and what a format leaves of them.
use crate::common::{table_of, write_bytes};
use crate::expect::expect;
use crate::old_images::{EMPTY, JOINED, Part, SWITCHED, device_of};
use apd_base::{Addr, Bssid, Station};
use apd_disk::{Disk, FuseDisk, MemDisk, Torn};
use apd_record::write;
use apd_store::{StoreFault, format, recover};
use std::alloc::Global;
use std::process::Abort;

pub(crate) const FIRST: Bssid = Bssid(Addr([2, 0, 0, 0, 0, 1]));

pub(crate) const SECOND: Bssid = Bssid(Addr([2, 0, 0, 0, 0, 2]));

// The number of rows of a device's table, and the stations aa and bb of its two BSSIDs; or why there is no table.
pub(crate) type Rows = Result<(usize, Option<Station>, Option<Station>), StoreFault>;

pub(crate) fn rows(alloc: Global, disk: MemDisk) -> Rows {
    let table = table_of(alloc, disk)?;
    Ok((
        table.rows(),
        table.get(FIRST, Addr([2, 0, 0, 0, 0, 0xaa])),
        table.get(SECOND, Addr([2, 0, 0, 0, 0, 0xbb])),
    ))
}

pub(crate) const TORN: &[Torn] = &[Torn::Old, Torn::New, Torn::Byte(1), Torn::Byte(0x7f)];

// The device that a format leaves, whether or not it fails.
fn format_device<D: Disk>(alloc: Global, disk: D) -> D
where
    D: Drop,
{
    match format(alloc, disk) {
        Ok(store) => store.into_device(),
        Err((disk, _fault)) => disk,
    }
}

// What is found of a store of version 1 after a stop at the call of a format behind this many others.
fn stop_format(rt: &impl Abort, alloc: Global, passes: u64, torn: Torn) -> Rows {
    let fuse = FuseDisk::new(device_of(rt, alloc, JOINED), passes);
    let disk = format_device(alloc, fuse).into_inner();
    rows(alloc, disk.crash(torn))
}

// How a recovery ends, and the device.
fn recover_device<D: Disk>(alloc: Global, disk: D) -> (Option<StoreFault>, D)
where
    D: Drop,
{
    match recover(alloc, disk) {
        Ok((store, _table)) => (None, store.into_device()),
        Err((disk, fault)) => (Some(fault), disk),
    }
}

// How a recovery of a store of version 1 ends whose call behind this many others fails, and what is found after a stop.
fn stop_recovery(
    rt: &impl Abort,
    alloc: Global,
    passes: u64,
    torn: Torn,
) -> (Option<StoreFault>, Rows) {
    let fuse = FuseDisk::new(device_of(rt, alloc, SWITCHED), passes);
    let (fault, fuse) = recover_device(alloc, fuse);
    (fault, rows(alloc, fuse.into_inner().crash(torn)))
}

// Calls of a recovery of which the next one fails, where there is one, and how it ends.
const RECOVERIES: &[(u64, StoreFault)] = &[
    (0, StoreFault::Device),
    (1, StoreFault::Device),
    (2, StoreFault::OldVersion),
];

// Stops at each call of a recovery.
fn stop_recoveries(rt: &impl Abort, alloc: Global, torn: Torn) {
    for (passes, fault) in RECOVERIES {
        let found = stop_recovery(rt, alloc, *passes, torn);
        let want = (Some(*fault), Err(StoreFault::OldVersion));
        expect(rt, (torn, *passes, found), (torn, *passes, want));
    }
}

#[test]
fn a_stop_at_each_call_of_a_recovery(rt: HostRuntime) {
    for torn in TORN {
        stop_recoveries(&rt, rt.alloc(), *torn);
    }
}

fn expect_old(rt: &impl Abort, alloc: Global, parts: &[Part]) {
    let found = rows(alloc, device_of(rt, alloc, parts));
    expect(rt, found, Err(StoreFault::OldVersion));
}

#[test]
fn each_store_of_version_1_is_told_apart(rt: HostRuntime) {
    expect_old(&rt, rt.alloc(), EMPTY);
    expect_old(&rt, rt.alloc(), JOINED);
    expect_old(&rt, rt.alloc(), SWITCHED);
}

// A device on which these parts stand, its mark that of version 2.
fn remarked(rt: &impl Abort, alloc: Global, parts: &[Part]) -> MemDisk {
    let mut disk = device_of(rt, alloc, parts);
    write_bytes(rt, &mut disk, 7, b"2");
    disk
}

// Expects what these parts show once their mark is that of version 2: so many rows, whether the first station is
// associated, and what the second one is.
fn expect_remarked(
    rt: &impl Abort,
    alloc: Global,
    parts: &[Part],
    wanted: (usize, bool, Option<Station>),
) {
    let found = rows(alloc, remarked(rt, alloc, parts));
    let (rows, aa, bb) = found.expect(rt, "a table");
    let joined = matches!(aa, Some(Station::Associated(_)));
    expect(rt, (rows, joined, bb), wanted);
}

// By the last byte of its mark alone a store is of one version or of the other.
#[test]
fn the_last_byte_of_the_mark(rt: HostRuntime) {
    let alloc = rt.alloc();
    let second = Some(Station::Authenticated);
    expect_remarked(&rt, alloc, EMPTY, (0, false, None));
    expect_remarked(&rt, alloc, JOINED, (1, true, None));
    expect_remarked(&rt, alloc, SWITCHED, (2, true, second));
}

// The records of the table that these parts show once their mark is that of version 2.
fn mark_anew(rt: &impl Abort, alloc: Global, parts: &[Part]) -> Vec<u8> {
    let table = table_of(alloc, remarked(rt, alloc, parts));
    let table = table.ok().expect(rt, "a table");
    let snapshot = table.snapshot(alloc).expect(rt, "memory");
    write(alloc, &snapshot).expect(rt, "memory")
}

// All of it is in the snapshot with which the second half began: the group behind it sets what was set.
#[test]
fn a_store_of_version_1_has_the_same_state_in_version_2(rt: HostRuntime) {
    let (_place, half) = SWITCHED.last().expect(&rt, "a half");
    let records = mark_anew(&rt, rt.alloc(), SWITCHED);
    expect(&rt, Some(records.as_slice()), half.get(13..129));
}

// What a device of version 1 shows that is made a new store where that stops behind so many calls. The mark of version 1
// stands until the write of zeros, which is the third call, and the new one from the eighth on.
pub(crate) fn left_behind(passes: u64, torn: Torn, made: Rows) -> Rows {
    if passes < 2 || passes == 2 && torn == Torn::Old {
        Err(StoreFault::OldVersion)
    } else if passes > 7 || passes == 7 && torn == Torn::New {
        made
    } else {
        Err(StoreFault::NotAStore)
    }
}

fn stop_formats(rt: &impl Abort, alloc: Global, torn: Torn) {
    for passes in 0..9 {
        let found = stop_format(rt, alloc, passes, torn);
        let wanted = left_behind(passes, torn, Ok((0, None, None)));
        expect(rt, (torn, passes, found), (torn, passes, wanted));
    }
}

#[test]
fn a_stop_at_each_call_of_a_format(rt: HostRuntime) {
    for torn in TORN {
        stop_formats(&rt, rt.alloc(), *torn);
    }
}
