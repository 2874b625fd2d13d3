// What no clause says: that calls succeed where memory is ample, the bytes of a store, and printed text.
use crate::common::{
    BSSID, LENGTH, Made, Seen, TWO_GROUPS, association, batch_of, blank_disk, calls_after,
    disk_of_byte, format_store, look, policy, put, table_of, write_bytes,
};
use crate::expect::{expect, expect_text};
use apd_base::{Station, StationNumber};
use apd_disk::{Disk, FuseDisk, MemDisk, Torn};
use apd_journal::Batch;
use apd_record::{Change, write};
use apd_store::{Store, StoreFault, format, recover};
use apd_table::Table;
use std::alloc::Global;
use std::process::Abort;

// Begins a batch, which is handed back where it is refused.
fn begin_batch<D: Disk>(
    alloc: Global,
    store: &mut Store<D>,
    batch: Batch,
) -> Result<(), (Batch, StoreFault)> {
    store.begin(batch, &Table::new(alloc))
}

// Begins a batch that is not refused.
fn begin<D: Disk>(rt: &impl Abort, alloc: Global, store: &mut Store<D>, batch: Batch) {
    let begun = begin_batch(alloc, store, batch).ok();
    begun.expect(rt, "a batch that begins");
}

// Why a batch of one change is refused. It is handed back.
fn refusal<D: Disk>(
    rt: &impl Abort,
    alloc: Global,
    store: &mut Store<D>,
    change: Change,
) -> StoreFault {
    let batch = batch_of(rt, alloc, 9, change);
    let refused = begin_batch(alloc, store, batch).err();
    let (batch, fault) = refused.expect(rt, "a refusal");
    expect(rt, (batch.first, batch.changes.len()), (9, 1));
    fault
}

// Makes a call of the device at most; whether one is left.
fn next_call<D: Disk>(store: &mut Store<D>) -> Result<bool, StoreFault> {
    store.next_call()
}

// Makes as many calls.
pub(crate) fn advance<D: Disk>(store: &mut Store<D>, calls: u64) -> Result<(), StoreFault> {
    for _call in 0..calls {
        next_call(store)?;
    }
    Ok(())
}

// Makes the four calls of a batch that was begun.
fn commit<D: Disk>(rt: &impl Abort, store: &mut Store<D>, number: u64) {
    expect(rt, advance(store, 3), Ok(()));
    expect(rt, next_call(store), Ok(false));
    let receipt = store.finish().expect(rt, "a receipt");
    expect(rt, receipt.batch().first, number);
}

// Begins a policy as the batch 1.
fn begin_policy<D: Disk>(rt: &impl Abort, alloc: Global, store: &mut Store<D>) {
    begin(rt, alloc, store, batch_of(rt, alloc, 1, policy(rt)));
}

// Begins an authenticated station as the batch 2.
pub(crate) fn begin_station<D: Disk>(rt: &impl Abort, alloc: Global, store: &mut Store<D>) {
    let change = put(Station::Authenticated);
    begin(rt, alloc, store, batch_of(rt, alloc, 2, change));
}

// Begins a station's association, and the identifier that it was given, as the batch 3.
fn begin_association<D: Disk>(rt: &impl Abort, alloc: Global, store: &mut Store<D>) {
    let mut batch = batch_of(rt, alloc, 3, put(association(rt)));
    let cursor = Change::Cursor {
        bssid: BSSID,
        last: StationNumber::new(1).expect(rt, "a number of stations"),
    };
    batch.changes.push(cursor).expect(rt, "memory");
    begin(rt, alloc, store, batch);
}

// A policy, an authenticated station and its association, as far as they are wanted.
fn make_commits<D: Disk>(rt: &impl Abort, alloc: Global, store: &mut Store<D>, commits: u64) {
    if commits > 0 {
        begin_policy(rt, alloc, store);
        commit(rt, store, 1);
    }
    if commits > 1 {
        begin_station(rt, alloc, store);
        commit(rt, store, 2);
    }
    if commits > 2 {
        begin_association(rt, alloc, store);
        commit(rt, store, 3);
    }
}

// The device, formatted, after so many of them.
// Generic, as all that asks for room in the device: no proof then meets its length.
pub(crate) fn with_commits<D: Disk>(rt: &impl Abort, alloc: Global, disk: D, commits: u64) -> D
where
    D: Drop,
{
    let mut store = format_store(rt, alloc, disk);
    make_commits(rt, alloc, &mut store, commits);
    store.into_device()
}

// The device, formatted, after a policy and as many calls of a station's commit.
pub(crate) fn committing<D: Disk>(rt: &impl Abort, alloc: Global, disk: D, calls: u64) -> D
where
    D: Drop,
{
    let mut store = format_store(rt, alloc, disk);
    make_commits(rt, alloc, &mut store, 1);
    begin_station(rt, alloc, &mut store);
    expect(rt, advance(&mut store, calls), Ok(()));
    store.into_device()
}

// The device, formatted once more.
fn format_again<D: Disk>(rt: &impl Abort, alloc: Global, disk: D) -> D
where
    D: Drop,
{
    format_store(rt, alloc, disk).into_device()
}

// The device, recovered.
fn recover_device<D: Disk>(rt: &impl Abort, alloc: Global, disk: D) -> D
where
    D: Drop,
{
    let recovered = recover(alloc, disk).ok();
    let (store, _table) = recovered.expect(rt, "a recovery");
    store.into_device()
}

// What is told where a call of a commit has failed.
fn fault_of_commit<D: Disk>(rt: &impl Abort, alloc: Global, store: &mut Store<D>) -> StoreFault {
    begin_station(rt, alloc, store);
    let advanced = advance(store, 4);
    expect(
        rt,
        (advanced, store.failed()),
        (Err(StoreFault::Device), true),
    );
    refusal(rt, alloc, store, policy(rt))
}

// What is told where a call of a recovery or of the commit behind it fails, and the device.
pub(crate) fn fault_of<D: Disk>(rt: &impl Abort, alloc: Global, disk: D) -> (StoreFault, D)
where
    D: Drop,
{
    match recover(alloc, disk) {
        Ok((store, _table)) => {
            let mut store = store;
            let fault = fault_of_commit(rt, alloc, &mut store);
            (fault, store.into_device())
        }
        Err((disk, fault)) => (fault, disk),
    }
}

fn device(rt: &impl Abort, alloc: Global, commits: u64) -> MemDisk {
    with_commits(rt, alloc, blank_disk(rt, alloc, LENGTH), commits)
}

// What is seen after a stop in the commit of a station, once as many of its calls were made.
fn stop(rt: &impl Abort, alloc: Global, calls: u64, torn: Torn) -> Seen {
    let disk = committing(rt, alloc, blank_disk(rt, alloc, LENGTH), calls);
    look(alloc, disk.crash(torn))
}

// A disk with the bytes of another.
fn copy_of(rt: &impl Abort, alloc: Global, disk: &MemDisk) -> MemDisk {
    let bytes = Vec::from_slice(alloc, disk.bytes()).expect(rt, "memory");
    MemDisk::new(alloc, bytes).expect(rt, "memory")
}

// What is seen where these bytes stand at this place.
fn look_with(rt: &impl Abort, alloc: Global, disk: &MemDisk, place: usize, bytes: &[u8]) -> Seen {
    let mut changed = copy_of(rt, alloc, disk);
    write_bytes(rt, &mut changed, place, bytes);
    look(alloc, changed)
}

// The record of a policy of the BSSID.
const POLICY: &[u8] = &[6, 2, 0, 0, 0, 0, 1, 0, 0xd7, 7];

// The first bytes of half A: the gate, the epoch and the snapshot.
const HEAD: &[u8] = &[1, 1, 0, 0, 0, 0, 0, 0, 0, 0, 0, 0, 0];

fn add(rt: &impl Abort, half: &mut Vec<u8>, bytes: &[u8]) {
    half.extend_from_slice(bytes).expect(rt, "memory");
}

// Half A from its first byte on, with a group of each of these records.
fn half_of(rt: &impl Abort, alloc: Global, records: &[&[u8]]) -> Vec<u8> {
    let mut half = Vec::new(alloc);
    add(rt, &mut half, HEAD);
    for record in records {
        let length = u8::try_from(record.len()).expect(rt, "a short record");
        add(rt, &mut half, &[1, length, 0, 0, 0]);
        add(rt, &mut half, record);
    }
    half
}

// A device whose groups have these records.
fn device_with(rt: &impl Abort, alloc: Global, records: &[&[u8]]) -> MemDisk {
    let half = half_of(rt, alloc, records);
    let mut disk = blank_disk(rt, alloc, LENGTH);
    write_bytes(rt, &mut disk, 0, b"RAPSTOR2");
    write_bytes(rt, &mut disk, 64, &half);
    disk
}

// The identifier that the BSSID of a table gives next, and the records of its snapshot.
fn given_by(rt: &impl Abort, alloc: Global, table: &Table) -> (Option<u16>, Vec<u8>) {
    let snapshot = table.snapshot(alloc).expect(rt, "memory");
    let records = write(alloc, &snapshot).expect(rt, "memory");
    (table.next_free(BSSID), records)
}

// The same of the table that is recovered of groups with these records.
type Given = Result<(Option<u16>, Vec<u8>), StoreFault>;

fn recovery_of(rt: &impl Abort, alloc: Global, records: &[&[u8]]) -> Given {
    let table = table_of(alloc, device_with(rt, alloc, records))?;
    Ok(given_by(rt, alloc, &table))
}

// Why no store is recovered whose groups have these records.
fn refusal_of(rt: &impl Abort, alloc: Global, records: &[&[u8]]) -> Option<StoreFault> {
    recovery_of(rt, alloc, records).err()
}

// What is seen of a half A with a policy and a station, and a half B of this epoch with another policy.
fn two_halves(rt: &impl Abort, alloc: Global, epoch: u8) -> Seen {
    let head = [1, epoch, 0, 0, 0, 0, 0, 0, 0, 10, 0, 0, 0];
    let mut disk = blank_disk(rt, alloc, LENGTH);
    write_bytes(rt, &mut disk, 0, b"RAPSTOR2");
    write_bytes(rt, &mut disk, 64, TWO_GROUPS);
    write_bytes(rt, &mut disk, 1_048_640, &head);
    write_bytes(rt, &mut disk, 1_048_653, OTHER_POLICY);
    look(alloc, disk)
}

// The record of another policy, and the closed gate.
const OTHER_POLICY: &[u8] = &[6, 2, 0, 0, 0, 0, 1, 1, 9, 0, 0];

fn add_place(rt: &impl Abort, places: &mut Vec<(usize, u8)>, place: usize, byte: u8) {
    places.push((place, byte)).expect(rt, "memory");
}

// The places of a newly made store that don't hold this byte, which each byte of the device was before, and what they hold.
fn writes_over(rt: &impl Abort, alloc: Global, byte: u8) -> Vec<(usize, u8)> {
    let made = format_again(rt, alloc, disk_of_byte(rt, alloc, byte, LENGTH));
    let mut written = Vec::new(alloc);
    for (place, now) in made.bytes().iter().enumerate() {
        if *now != byte {
            add_place(rt, &mut written, place, *now);
        }
    }
    written
}

// What is seen of a store of a policy after this many calls of another format; none where it was not stopped.
fn stop_format(rt: &impl Abort, alloc: Global, passes: u64) -> Option<Seen> {
    let (fuse, fault) = format(alloc, FuseDisk::new(device(rt, alloc, 1), passes)).err()?;
    expect(rt, fault, StoreFault::Device);
    Some(look(alloc, fuse.into_inner()))
}

// What is told and seen where the call after as many others fails, of a recovery and then a commit.
fn fault_after(rt: &impl Abort, alloc: Global, passes: u64) -> (StoreFault, Seen) {
    let (fault, fuse) = fault_of(rt, alloc, FuseDisk::new(device(rt, alloc, 1), passes));
    (fault, look(alloc, fuse.into_inner()))
}

#[test]
fn a_store_begins_with_its_magic_and_its_groups(rt: HostRuntime) {
    let disk = device(&rt, rt.alloc(), 2);
    let bytes = disk.bytes();
    expect(&rt, bytes.get(..8), Some(b"RAPSTOR2".as_slice()));
    expect(&rt, bytes.get(64..118), Some(TWO_GROUPS));
}

// The group of an association: the station's row, and behind it the identifier that its BSSID gave last.
const ASSOCIATION: &[u8] = &[
    1, 29, 0, 0, 0, // at 117
    1, 2, 0, 0, 0, 0, 1, 2, 0, 0, 0, 0, 0xaa, 2, 1, 0, 0x31, 4, 10, 0, // at 122
    7, 2, 0, 0, 0, 0, 1, 1, 0, // at 142
    0, // at 151
];

#[test]
fn the_bytes_of_an_association(rt: HostRuntime) {
    let disk = device(&rt, rt.alloc(), 3);
    let bytes = disk.bytes();
    expect(&rt, bytes.get(64..117), TWO_GROUPS.get(..53));
    expect(&rt, bytes.get(117..152), Some(ASSOCIATION));
}

// The calls of the device that a station's commit makes.
const COMMIT: &[Made] = &[
    Made::Write(93, 25),
    Made::Sync,
    Made::Write(92, 1),
    Made::Sync,
];

// How many of them are made behind so many `next_call`.
const MADE: &[(u64, usize)] = &[(0, 0), (1, 1), (2, 2), (3, 3), (4, 4), (5, 4)];

// Expects the first so many of them where as many calls were made of it.
fn expect_calls(rt: &impl Abort, alloc: Global, calls: u64, many: usize) {
    let disk = committing(rt, alloc, blank_disk(rt, alloc, LENGTH), calls);
    // Behind seven calls of the format and four of the policy's commit.
    let made = calls_after(rt, alloc, &disk, 11);
    let found = (calls, Some(made.as_slice()));
    expect(rt, found, (calls, COMMIT.get(..many)));
}

// Each `next_call` is one call of the device at most, and none is left after the fourth.
#[test]
fn the_calls_of_a_commit(rt: HostRuntime) {
    for (calls, many) in MADE {
        expect_calls(&rt, rt.alloc(), *calls, *many);
    }
}

// The calls by which a device is formatted that is no store, and by which one that is.
const FORMAT: &[Made] = &[
    Made::Sync,
    Made::Read(0, 8),
    Made::Write(64, 14),
    Made::Write(1_048_640, 13),
    Made::Sync,
    Made::Write(0, 8),
    Made::Sync,
];

const FORMAT_AGAIN: &[Made] = &[
    Made::Sync,
    Made::Read(0, 8),
    Made::Write(0, 8),
    Made::Sync,
    Made::Write(64, 14),
    Made::Write(1_048_640, 13),
    Made::Sync,
    Made::Write(0, 8),
    Made::Sync,
];

// Expects that a device has served these calls behind so many.
fn expect_made(rt: &impl Abort, alloc: Global, disk: &MemDisk, calls: usize, wanted: &[Made]) {
    let made = calls_after(rt, alloc, disk, calls);
    expect(rt, made.as_slice(), wanted);
}

// Nothing is written but the heads and the magic, which is overwritten first where it stands.
#[test]
fn the_calls_of_a_format(rt: HostRuntime) {
    let alloc = rt.alloc();
    expect_made(&rt, alloc, &device(&rt, alloc, 0), 0, FORMAT);
    let again = format_again(&rt, alloc, device(&rt, alloc, 0));
    expect_made(&rt, alloc, &again, 7, FORMAT_AGAIN);
}

// Adds zeros at the places of a head that a new store doesn't set otherwise.
fn add_zeros(rt: &impl Abort, places: &mut Vec<(usize, u8)>) {
    for place in 66..78 {
        add_place(rt, places, place, 0);
    }
    for place in 1_048_640..1_048_653 {
        add_place(rt, places, place, 0);
    }
}

// The places of the magic, and of the gate and the epoch of half A, and what they hold.
const SET: [(usize, u8); 10] = [
    (0, b'R'),
    (1, b'A'),
    (2, b'P'),
    (3, b'S'),
    (4, b'T'),
    (5, b'O'),
    (6, b'R'),
    (7, b'2'),
    (64, 1),
    (65, 1),
];

// The whole device: the magic and the heads of both halves stand on it, and no other byte is written.
#[test]
fn all_bytes_of_a_new_store(rt: HostRuntime) {
    let alloc = rt.alloc();
    let mut want = Vec::from_slice(alloc, &SET).expect(&rt, "memory");
    expect(&rt, writes_over(&rt, alloc, 0) == want, true);
    add_zeros(&rt, &mut want);
    expect(&rt, writes_over(&rt, alloc, 7) == want, true);
}

// The calls of a recovery behind its sync: each byte is read once.
const RECOVERY: &[Made] = &[Made::Sync, Made::Read(0, LENGTH)];

// It begins with a sync, reads each byte once, and writes nothing.
#[test]
fn the_calls_of_a_recovery(rt: HostRuntime) {
    let alloc = rt.alloc();
    let disk = recover_device(&rt, alloc, device(&rt, alloc, 0));
    expect_made(&rt, alloc, &disk, 7, RECOVERY);
}

pub(crate) const BEFORE: Seen = Ok((Some((0, 2007)), None));

const AFTER: Seen = Ok((Some((0, 2007)), Some(Station::Authenticated)));

// What is seen of a store of a policy, with the station or without it.
pub(crate) fn seen(there: bool) -> Seen {
    if there { AFTER } else { BEFORE }
}

// Stops in the commit of a station, and whether each shows the station.
pub(crate) const STOPS: &[(u64, Torn, bool)] = &[
    (0, Torn::Byte(1), false),
    (1, Torn::Byte(1), false),
    (2, Torn::Old, false),
    (2, Torn::New, false),
    (3, Torn::Old, false),
    (3, Torn::Byte(0x7f), false),
    (3, Torn::Byte(1), true),
    (4, Torn::Old, true),
];

#[test]
fn a_stop_at_each_call_of_a_commit(rt: HostRuntime) {
    for (calls, torn, there) in STOPS {
        let found = stop(&rt, rt.alloc(), *calls, *torn);
        let wanted = (*calls, *torn, seen(*there));
        expect(&rt, (*calls, *torn, found), wanted);
    }
}

// How a short device is refused, by a format and then by a recovery.
fn refusals_of_short(rt: &impl Abort, alloc: Global) -> (Option<StoreFault>, Seen) {
    let mut short = blank_disk(rt, alloc, 2_097_215);
    write_bytes(rt, &mut short, 0, b"RAPSTOR1");
    match format(alloc, short) {
        Ok(store) => (None, look(alloc, store.into_device())),
        Err((short, fault)) => (Some(fault), look(alloc, short)),
    }
}

#[test]
fn devices_that_are_no_stores(rt: HostRuntime) {
    let alloc = rt.alloc();
    for length in [0, 2_097_215, 2_097_216, 2_097_217] {
        let found = look(alloc, blank_disk(&rt, alloc, length));
        expect(&rt, (length, found), (length, Err(StoreFault::NotAStore)));
    }
    // The length is looked at before the magic.
    let none = StoreFault::NotAStore;
    let found = refusals_of_short(&rt, alloc);
    expect(&rt, found, (Some(none), Err(none)));
}

#[test]
fn of_two_open_halves_the_later_is_read_and_equal_ones_are_damaged(rt: HostRuntime) {
    let alloc = rt.alloc();
    expect(&rt, two_halves(&rt, alloc, 0), AFTER);
    let damaged = Err(StoreFault::Damaged);
    expect(&rt, two_halves(&rt, alloc, 1), damaged);
    let other = Ok((Some((1, 9)), None));
    expect(&rt, two_halves(&rt, alloc, 2), other);
}

// What is seen of a store of a policy and a station where a byte in front of its halves is another one.
fn expect_front(rt: &impl Abort, alloc: Global, disk: &MemDisk) {
    for place in 0..64 {
        let none = Err(StoreFault::NotAStore);
        let wanted = if place < 8 { none } else { AFTER };
        expect_with(rt, alloc, disk, (place, &[7]), wanted);
    }
}

#[test]
fn each_byte_in_front_of_the_halves(rt: HostRuntime) {
    expect_front(&rt, rt.alloc(), &device(&rt, rt.alloc(), 2));
}

// Bytes at a place by which a store with an association is damaged.
const DAMAGES: &[(usize, &[u8])] = &[
    (64, &[0]),
    // The policy's BSSID becomes another one: the station has none.
    (87, &[9]),
    (110, &[3]),
    // No record begins with 8, the cursor's BSSID becomes another one, and 2049 is no identifier.
    (142, &[8]),
    (148, &[9]),
    (150, &[8]),
    // A group that is too long.
    (151, &[1, 1, 0, 1, 0]),
];

// A byte at a place where it makes no difference: a group of no records, and what is not looked at, behind the closed
// gate and in half B.
const NO_OTHERS: &[(usize, u8)] = &[(63, 7), (149, 7), (151, 1), (152, 255), (1_048_641, 9)];

fn expect_with(
    rt: &impl Abort,
    alloc: Global,
    disk: &MemDisk,
    (place, bytes): (usize, &[u8]),
    wanted: Seen,
) {
    let found = look_with(rt, alloc, disk, place, bytes);
    expect(rt, (place, bytes, found), (place, bytes, wanted));
}

fn expect_damages(rt: &impl Abort, alloc: Global, disk: &MemDisk) {
    for part in DAMAGES {
        let damaged = Err(StoreFault::Damaged);
        expect_with(rt, alloc, disk, *part, damaged);
    }
}

fn expect_others(rt: &impl Abort, alloc: Global, disk: &MemDisk) {
    let old = Err(StoreFault::OldVersion);
    expect_with(rt, alloc, disk, (7, b"1"), old);
    let none = Err(StoreFault::NotAStore);
    expect_with(rt, alloc, disk, (7, b"3"), none);
    let empty = Ok((None, None));
    expect_with(rt, alloc, disk, (77, &[0]), empty);
    expect_with(rt, alloc, disk, (92, &[2]), BEFORE);
    expect_with(rt, alloc, disk, (117, &[0]), AFTER);
}

fn expect_no_others(rt: &impl Abort, alloc: Global, disk: &MemDisk, same: Seen) {
    for (place, byte) in NO_OTHERS {
        expect_with(rt, alloc, disk, (*place, &[*byte]), same);
    }
}

#[test]
fn other_bytes_in_a_store(rt: HostRuntime) {
    let alloc = rt.alloc();
    let same = Ok((Some((0, 2007)), Some(association(&rt))));
    let disk = device(&rt, alloc, 3);
    expect_damages(&rt, alloc, &disk);
    expect_others(&rt, alloc, &disk);
    expect_no_others(&rt, alloc, &disk, same);
    expect(&rt, look(alloc, disk), same);
}

// Expects these records in the snapshot of a table, and the identifier that it gives next.
fn expect_recovery(rt: &impl Abort, alloc: Global, groups: &[&[u8]], next: u16, records: &[&[u8]]) {
    let wanted = records.concat(alloc).expect(rt, "memory");
    let found = recovery_of(rt, alloc, groups);
    expect(rt, found, Ok((Some(next), wanted)));
}

#[test]
fn a_cursor_in_a_group(rt: HostRuntime) {
    let alloc = rt.alloc();
    // The least free identifier above the one given last, and the first one behind the greatest.
    for (cursor, next) in [
        ([7, 2, 0, 0, 0, 0, 1, 5, 0], 6),
        ([7, 2, 0, 0, 0, 0, 1, 0xd7, 7], 1),
    ] {
        let records = [POLICY, cursor.as_slice()];
        expect_recovery(&rt, alloc, &records, next, &records);
    }
    // Where none was given yet it has no record.
    let none = [7, 2, 0, 0, 0, 0, 1, 0, 0];
    expect_recovery(&rt, alloc, &[POLICY, &none], 1, &[POLICY]);
}

fn expect_damage(rt: &impl Abort, alloc: Global, records: &[&[u8]]) {
    let fault = refusal_of(rt, alloc, records);
    expect(rt, fault, Some(StoreFault::Damaged));
}

#[test]
fn a_cursor_that_is_refused(rt: HostRuntime) {
    let alloc = rt.alloc();
    // Its BSSID has no policy, and 2008 is no identifier.
    expect_damage(&rt, alloc, &[&[7, 2, 0, 0, 0, 0, 1, 5, 0]]);
    expect_damage(&rt, alloc, &[&[7, 2, 0, 0, 0, 0, 1, 0, 0]]);
    expect_damage(&rt, alloc, &[POLICY, &[7, 2, 0, 0, 0, 0, 1, 0xd8, 7]]);
}

// Calls of which the next one fails, what is told, and whether the station is seen.
const FAULTS: &[(u64, StoreFault, bool)] = &[
    (0, StoreFault::Device, false),
    (1, StoreFault::Device, false),
    (2, StoreFault::Failed, false),
    (3, StoreFault::Failed, false),
    (4, StoreFault::Failed, true),
    (5, StoreFault::Failed, true),
];

#[test]
fn each_call_that_fails(rt: HostRuntime) {
    for (passes, fault, there) in FAULTS {
        let is = fault_after(&rt, rt.alloc(), *passes);
        let wanted = (*fault, seen(*there));
        expect(&rt, (*passes, is), (*passes, wanted));
    }
}

fn expect_stop(rt: &impl Abort, alloc: Global, passes: u64, wanted: Option<Seen>) {
    let found = stop_format(rt, alloc, passes);
    expect(rt, (passes, found), (passes, wanted));
}

#[test]
fn each_call_of_a_format_that_fails(rt: HostRuntime) {
    let alloc = rt.alloc();
    expect_stop(&rt, alloc, 0, Some(BEFORE));
    expect_stop(&rt, alloc, 1, Some(BEFORE));
    let none = Some(Err(StoreFault::NotAStore));
    expect_stop(&rt, alloc, 2, none);
    expect_stop(&rt, alloc, 6, none);
    let empty = Some(Ok((None, None)));
    expect_stop(&rt, alloc, 7, empty);
    expect_stop(&rt, alloc, 8, empty);
    expect_stop(&rt, alloc, 9, None);
}

// A second batch is refused while one is under way.
fn expect_busy<D: Disk>(rt: &impl Abort, alloc: Global, disk: D)
where
    D: Drop,
{
    let mut store = format_store(rt, alloc, disk);
    begin_policy(rt, alloc, &mut store);
    let fault = refusal(rt, alloc, &mut store, policy(rt));
    expect(rt, fault, StoreFault::NotIdle);
}

#[test]
fn a_store_that_is_busy(rt: HostRuntime) {
    let alloc = rt.alloc();
    expect_busy(&rt, alloc, blank_disk(&rt, alloc, LENGTH));
}

const TEXTS: &[(StoreFault, &str)] = &[
    (StoreFault::NotAStore, "not a store"),
    (StoreFault::Damaged, "damaged store"),
    (StoreFault::Device, "device fault"),
    (StoreFault::Failed, "store has failed"),
    (StoreFault::Worn, "store is worn out"),
    (StoreFault::NotIdle, "a batch is in flight"),
    (StoreFault::BadBatch, "batch does not fit"),
    (StoreFault::OldVersion, "store of version 1"),
    (StoreFault::NewVersion, "store of version 2"),
    (StoreFault::NoMemory, "out of memory"),
];

const NUMBERS: &[(StoreFault, u8)] = &[
    (StoreFault::NotAStore, 1),
    (StoreFault::Failed, 4),
    (StoreFault::Worn, 6),
    (StoreFault::BadBatch, 8),
    (StoreFault::OldVersion, 9),
    (StoreFault::NewVersion, 10),
];

#[test]
fn each_fault_of_a_store_has_its_text_and_number(rt: HostRuntime) {
    for (fault, text) in TEXTS {
        expect_text(&rt, rt.alloc(), fault, text);
    }
    for (fault, number) in NUMBERS {
        expect(&rt, *fault as u8, *number);
    }
}
