//! A disk over a file in memory: what it asks the file for, and what a store finds where the file loses what was not
//! synced, refuses or lies. No clause says it of a file of the system, whose calls show in no value.
use crate::common::{LENGTH, Seen, look, write_bytes, write_inside};
use crate::disk_tests::expect_bytes;
use crate::expect::expect;
use crate::store_tests::{
    BEFORE, STOPS, advance, begin_station, committing, fault_of, seen, with_commits,
};
use apd_disk::{Disk, DiskFault, FileDisk, Torn};
use apd_double::{Asked, Fault, MemoryFile};
use apd_store::{StoreFault, recover};
use std::alloc::Global;
use std::process::Abort;

// A disk over a file.
fn over(rt: &impl Abort, file: MemoryFile) -> FileDisk<MemoryFile> {
    FileDisk::over(file).expect(rt, "a file with a length")
}

// A disk over a file that is only read.
fn over_to_read(rt: &impl Abort, file: MemoryFile) -> FileDisk<MemoryFile> {
    FileDisk::over_to_read(file).expect(rt, "a file with a length")
}

// A file of ten bytes.
fn digits(rt: &impl Abort, alloc: Global) -> MemoryFile {
    let mut disk = over(rt, MemoryFile::new(alloc, 10));
    write_bytes(rt, &mut disk, 0, b"0123456789");
    disk.into_file().cut(Torn::Old)
}

// Reads three bytes, writes two, syncs twice, and reads four.
fn make_calls<D: Disk>(rt: &(impl Abort + AllocGlobal), disk: &mut D) {
    expect_bytes(rt, disk, (10, 2), b"234");
    write_inside(rt, disk, 3, b"ab");
    expect(rt, disk.sync(), Ok(()));
    expect(rt, disk.sync(), Ok(()));
    expect_bytes(rt, disk, (10, 2), b"2ab5");
}

// What a file was asked for by them: the first sync drops its pages.
const CALLS: &[Asked] = &[
    Asked::Read(2, 3),
    Asked::Write(3, 2),
    Asked::Sync,
    Asked::DropPages,
    Asked::Sync,
    Asked::Read(2, 4),
];

#[test]
fn a_disk_asks_its_file_for_each_call(rt: HostRuntime) {
    let mut disk = over(&rt, digits(&rt, rt.alloc()));
    make_calls(&rt, &mut disk);
    let file = disk.into_file();
    expect(&rt, file.asked(), CALLS);
}

// Expects these bytes of a file, once power was lost.
fn expect_left(
    rt: &(impl Abort + AllocGlobal),
    disk: FileDisk<MemoryFile>,
    torn: Torn,
    want: &[u8],
) {
    let mut left = over(rt, disk.into_file().cut(torn));
    expect_bytes(rt, &mut left, (10, 2), want);
}

// A disk with a write that is synced, and another.
fn written(rt: &impl Abort, alloc: Global) -> FileDisk<MemoryFile> {
    let mut disk = over(rt, digits(rt, alloc));
    write_bytes(rt, &mut disk, 3, b"ab");
    write_inside(rt, &mut disk, 4, b"cd");
    disk
}

#[test]
fn a_file_loses_what_was_not_synced(rt: HostRuntime) {
    let alloc = rt.alloc();
    expect_left(&rt, written(&rt, alloc), Torn::Old, b"2ab567");
    expect_left(&rt, written(&rt, alloc), Torn::New, b"2acd67");
    expect_left(&rt, written(&rt, alloc), Torn::Byte(b'x'), b"2axx67");
}

// Writes two bytes inside the disk, and syncs twice.
fn answers<D: Disk>(rt: &impl Abort, disk: &mut D) -> [Result<(), DiskFault>; 3] {
    assert!(rt; disk.len() == 10);
    let write = disk.write_at(3, b"ab");
    let first = disk.sync();
    [write, first, disk.sync()]
}

// What they answer where the file refuses one of its calls, and how many it was asked for.
fn expect_answers(
    rt: &impl Abort,
    disk: FileDisk<MemoryFile>,
    want: [Result<(), DiskFault>; 3],
    asked: usize,
) {
    let mut disk = disk;
    expect(rt, answers(rt, &mut disk), want);
    expect(rt, disk.into_file().asked().len(), asked);
}

// A file of ten bytes that refuses the call behind so many.
fn refusing(rt: &impl Abort, alloc: Global, calls: usize) -> MemoryFile {
    digits(rt, alloc).with(Fault::Refuses(calls))
}

const FAILED: Result<(), DiskFault> = Err(DiskFault);

// A write that fails leaves a part of its bytes. After a sync that fails the file is asked for none.
#[test]
fn a_file_that_refuses(rt: HostRuntime) {
    let alloc = rt.alloc();
    let write = over(&rt, refusing(&rt, alloc, 0));
    expect_answers(&rt, write, [FAILED, Ok(()), Ok(())], 4);
    let sync = over(&rt, refusing(&rt, alloc, 1));
    expect_answers(&rt, sync, [Ok(()), FAILED, FAILED], 2);
    let again = over(&rt, refusing(&rt, alloc, 3));
    expect_answers(&rt, again, [Ok(()), Ok(()), FAILED], 4);
}

// It is asked for no write; where it can't sync, nothing is lost.
#[test]
fn a_file_that_is_only_read(rt: HostRuntime) {
    let alloc = rt.alloc();
    let reader = over_to_read(&rt, digits(&rt, alloc));
    expect_answers(&rt, reader, [FAILED, Ok(()), Ok(())], 3);
    let reader = over_to_read(&rt, refusing(&rt, alloc, 0));
    expect_answers(&rt, reader, [FAILED, Ok(()), Ok(())], 3);
}

// A new file of a store's length.
fn blank(rt: &impl Abort, alloc: Global) -> FileDisk<MemoryFile> {
    over(rt, MemoryFile::new(alloc, LENGTH))
}

// What a file was asked for by a format, a policy's commit and a station's.
const STORED: &[Asked] = &[
    Asked::Sync,
    Asked::DropPages,
    Asked::Read(0, 8),
    Asked::Write(64, 14),
    Asked::Write(1_048_640, 13),
    Asked::Sync,
    Asked::Write(0, 8),
    Asked::Sync,
    Asked::Write(78, 15),
    Asked::Sync,
    Asked::Write(77, 1),
    Asked::Sync,
    Asked::Write(93, 25),
    Asked::Sync,
    Asked::Write(92, 1),
    Asked::Sync,
];

#[test]
fn a_store_asks_its_file_for_each_call(rt: HostRuntime) {
    let alloc = rt.alloc();
    let file = with_commits(&rt, alloc, blank(&rt, alloc), 2).into_file();
    expect(&rt, file.asked(), STORED);
}

// What is seen of a store after a loss of power.
fn look_after(rt: &impl Abort, alloc: Global, disk: FileDisk<MemoryFile>, torn: Torn) -> Seen {
    look(alloc, over(rt, disk.into_file().cut(torn)))
}

#[test]
fn a_loss_of_power_at_each_call_of_a_commit(rt: HostRuntime) {
    let alloc = rt.alloc();
    for (calls, torn, there) in STOPS {
        let disk = committing(&rt, alloc, blank(&rt, alloc), *calls);
        let found = look_after(&rt, alloc, disk, *torn);
        let wanted = (*calls, *torn, seen(*there));
        expect(&rt, (*calls, *torn, found), wanted);
    }
}

// A disk over the store of a policy, whose file has this fault.
fn faulty(rt: &impl Abort, alloc: Global, fault: Fault) -> FileDisk<MemoryFile> {
    let disk = with_commits(rt, alloc, blank(rt, alloc), 1);
    over(rt, disk.into_file().with(fault))
}

// Expects what is told where one of a file's calls is refused, of a recovery and a station's commit, and what is seen
// once power was lost.
fn expect_refusal(
    rt: &impl Abort,
    alloc: Global,
    (calls, torn): (usize, Torn),
    wanted: (StoreFault, Seen),
) {
    let refusing = faulty(rt, alloc, Fault::Refuses(calls));
    let (fault, disk) = fault_of(rt, alloc, refusing);
    let found = (fault, look_after(rt, alloc, disk, torn));
    expect(rt, (calls, torn, found), (calls, torn, wanted));
}

// It syncs, drops the file's pages and reads all.
#[test]
fn a_recovery_whose_file_refuses(rt: HostRuntime) {
    for calls in [0, 2] {
        let wanted = (StoreFault::Device, BEFORE);
        expect_refusal(&rt, rt.alloc(), (calls, Torn::Old), wanted);
    }
}

// The write of the group, its sync, and the gate.
#[test]
fn a_commit_whose_file_refuses(rt: HostRuntime) {
    for calls in [3, 4, 5] {
        let wanted = (StoreFault::Failed, BEFORE);
        expect_refusal(&rt, rt.alloc(), (calls, Torn::New), wanted);
    }
}

// The gate is open, or it isn't: nobody was told.
#[test]
fn a_last_sync_that_its_file_refuses(rt: HostRuntime) {
    for (torn, there) in [(Torn::Old, false), (Torn::New, true)] {
        let wanted = (StoreFault::Failed, seen(there));
        expect_refusal(&rt, rt.alloc(), (6, torn), wanted);
    }
}

// The device after a recovery and a station's commit.
fn commit_station<D: Disk>(rt: &impl Abort, alloc: Global, disk: D) -> D
where
    D: Drop,
{
    let recovered = recover(alloc, disk).ok();
    let (mut store, _table) = recovered.expect(rt, "a recovery");
    begin_station(rt, alloc, &mut store);
    expect(rt, advance(&mut store, 4), Ok(()));
    store.into_device()
}

// The hypotheses on a file are needed: where a sync lies, a loss of power takes back what was settled; where the read of
// a recovery lies, another store is found, or none.
#[test]
fn a_file_that_lies(rt: HostRuntime) {
    let alloc = rt.alloc();
    let disk = faulty(&rt, alloc, Fault::LiesInSyncs);
    let settled = commit_station(&rt, alloc, disk);
    let found = look_after(&rt, alloc, settled, Torn::Old);
    expect(&rt, found, BEFORE);
    let lying = faulty(&rt, alloc, Fault::LiesInReads);
    let none = Err(StoreFault::NotAStore);
    expect(&rt, look(alloc, lying), none);
}
