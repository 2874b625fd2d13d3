// What no clause says of a flusher: that its calls succeed where memory is ample, and which calls of the device
// and which bytes a commit makes.
use crate::common::{
    BSSID, LENGTH, Made, STATION, Seen, TWO_GROUPS, batch_of, blank_disk, calls_after,
    format_store, look, policy, put,
};
use crate::expect::expect;
use apd_base::{Sequence, Station, Which};
use apd_disk::{Disk, FuseDisk, MemDisk, Torn};
use apd_flusher::{Flusher, Phase};
use apd_journal::Batch;
use apd_record::Change;
use apd_store::StoreFault;
use apd_table::Table;
use std::alloc::Global;
use std::process::Abort;

fn new_flusher<D: Disk>(rt: &impl Abort, alloc: Global, disk: D) -> Flusher<D>
where
    D: Drop,
{
    let store = format_store(rt, alloc, disk);
    let flusher = Flusher::new(alloc, store, Table::new(alloc)).ok();
    flusher.expect(rt, "memory")
}

// Loads a batch, which is handed back where it is refused.
fn try_load<D: Disk>(flusher: &mut Flusher<D>, batch: Batch) -> Result<(), (Batch, StoreFault)> {
    flusher.load(batch)
}

// Loads a batch that is not refused.
fn load<D: Disk>(rt: &impl Abort, flusher: &mut Flusher<D>, batch: Batch) {
    let loaded = try_load(flusher, batch).ok();
    loaded.expect(rt, "a batch that is loaded");
}

// Why a batch is refused. It is handed back.
fn refusal<D: Disk>(rt: &impl Abort, flusher: &mut Flusher<D>, batch: Batch) -> StoreFault {
    let wanted = (batch.first, batch.changes.len());
    let refused = try_load(flusher, batch).err();
    let (back, fault) = refused.expect(rt, "a refusal");
    expect(rt, (back.first, back.changes.len()), wanted);
    fault
}

// Makes a turn.
fn turn<D: Disk>(flusher: &mut Flusher<D>) -> Result<(), StoreFault> {
    flusher.turn()
}

// Makes as many turns.
fn turns<D: Disk>(rt: &impl Abort, flusher: &mut Flusher<D>, turns: u64) {
    for _turn in 0..turns {
        turn(flusher).expect(rt, "a turn");
    }
}

// The number of the batch whose receipt is given.
fn unload<D: Disk>(flusher: &mut Flusher<D>) -> Option<u64> {
    let receipt = flusher.unload()?;
    Some(receipt.batch().first)
}

// Loads a batch, and commits it in as many turns.
fn commit<D: Disk>(rt: &impl Abort, flusher: &mut Flusher<D>, batch: Batch, in_turns: u64) {
    let number = batch.first;
    load(rt, flusher, batch);
    turns(rt, flusher, in_turns);
    expect(rt, unload(flusher), Some(number));
}

// A policy's batch of this number.
fn policy_batch(rt: &impl Abort, alloc: Global, number: u64) -> Batch {
    batch_of(rt, alloc, number, policy(rt))
}

// A station's batch of this number.
fn station_batch(rt: &impl Abort, alloc: Global, number: u64) -> Batch {
    batch_of(rt, alloc, number, put(Station::Authenticated))
}

// Commits a policy in one call.
fn commit_policy<D: Disk>(rt: &impl Abort, alloc: Global, flusher: &mut Flusher<D>) {
    let committed = flusher.commit(policy_batch(rt, alloc, 1));
    let receipt = committed.ok().expect(rt, "a commit");
    expect(rt, receipt.batch().first, 1);
}

// A flusher that has committed a policy.
fn with_policy<D: Disk>(rt: &impl Abort, alloc: Global, disk: D) -> Flusher<D>
where
    D: Drop,
{
    let mut flusher = new_flusher(rt, alloc, disk);
    commit_policy(rt, alloc, &mut flusher);
    flusher
}

// Makes as many turns of a station's commit.
fn begin_station<D: Disk>(rt: &impl Abort, alloc: Global, flusher: &mut Flusher<D>, calls: u64) {
    load(rt, flusher, station_batch(rt, alloc, 2));
    turns(rt, flusher, calls);
}

// The device after a policy and as many turns of a station's commit.
fn committing<D: Disk>(rt: &impl Abort, alloc: Global, disk: D, calls: u64) -> D
where
    D: Drop,
{
    let mut flusher = with_policy(rt, alloc, disk);
    begin_station(rt, alloc, &mut flusher, calls);
    flusher.into_device()
}

// Adds a change as many times.
fn add(rt: &impl Abort, changes: &mut Sequence<Change>, change: Change, times: u64) {
    for _time in 0..times {
        changes.push(change).expect(rt, "memory");
    }
}

// Adds so many that list's end, of 8 bytes each.
fn add_clears(rt: &impl Abort, changes: &mut Sequence<Change>, times: u64) {
    let clear = Change::ListClear {
        bssid: BSSID,
        which: Which::Accept,
    };
    add(rt, changes, clear, times);
}

// A batch whose records have 65,536 bytes: 8 for each change.
fn long_batch(rt: &impl Abort, alloc: Global) -> Batch {
    let mut changes = Sequence::new(alloc);
    add_clears(rt, &mut changes, 8_192);
    Batch {
        first: 1,
        last: 4096,
        changes,
    }
}

// With one more of 13 and two of 10 in the place of four it has 65,537.
fn too_long_batch(rt: &impl Abort, alloc: Global) -> Batch {
    let drop = Change::Drop {
        bssid: BSSID,
        addr: STATION,
    };
    let mut changes = Sequence::new(alloc);
    add(rt, &mut changes, policy(rt), 2);
    add(rt, &mut changes, drop, 1);
    add_clears(rt, &mut changes, 8_188);
    Batch {
        first: 1,
        last: 4096,
        changes,
    }
}

// Refused for a station without a policy and for a byte too much, and then a good batch of the greatest length.
fn refuse_and_commit<D: Disk>(rt: &impl Abort, alloc: Global, flusher: &mut Flusher<D>) {
    let unsound = refusal(rt, flusher, station_batch(rt, alloc, 1));
    let long = refusal(rt, flusher, too_long_batch(rt, alloc));
    let bad = StoreFault::BadBatch;
    expect(rt, (unsound, long), (bad, bad));
    commit(rt, flusher, long_batch(rt, alloc), 4);
}

// The device after two batches that are refused, by which it is as it was, and a good one.
fn bad_and_good<D: Disk>(rt: &impl Abort, alloc: Global, disk: D) -> D
where
    D: Drop,
{
    let mut flusher = new_flusher(rt, alloc, disk);
    refuse_and_commit(rt, alloc, &mut flusher);
    flusher.into_device()
}

// Expects this phase of a flusher, which has no receipt.
fn expect_phase<D: Disk>(rt: &impl Abort, flusher: &mut Flusher<D>, phase: Phase) {
    expect(rt, (flusher.phase(), unload(flusher)), (phase, None));
}

// Expects this phase of a flusher, and that it refuses a policy as the batch of this number for this fault.
fn expect_refusal<D: Disk>(
    rt: &impl Abort,
    alloc: Global,
    flusher: &mut Flusher<D>,
    number: u64,
    wanted: (Phase, StoreFault),
) {
    let phase = flusher.phase();
    let fault = refusal(rt, flusher, policy_batch(rt, alloc, number));
    expect(rt, (phase, fault), wanted);
}

// The phases on the way of a batch, and how each call in them is answered.
fn expect_phases<D: Disk>(rt: &impl Abort, alloc: Global, flusher: &mut Flusher<D>) {
    turns(rt, flusher, 1);
    expect_phase(rt, flusher, Phase::Idle);
    load(rt, flusher, policy_batch(rt, alloc, 1));
    expect_phase(rt, flusher, Phase::Busy);
    let busy = (Phase::Busy, StoreFault::NotIdle);
    expect_refusal(rt, alloc, flusher, 2, busy);
    turns(rt, flusher, 4);
    expect(rt, flusher.phase(), Phase::Done);
    turns(rt, flusher, 1);
    let done = (Phase::Done, StoreFault::NotIdle);
    expect_refusal(rt, alloc, flusher, 2, done);
    expect(rt, unload(flusher), Some(1));
    expect_phase(rt, flusher, Phase::Idle);
}

// All is refused once the turn after as many others has failed.
fn expect_stuck<D: Disk>(rt: &impl Abort, alloc: Global, flusher: &mut Flusher<D>, calls: u64) {
    begin_station(rt, alloc, flusher, calls);
    let found = (turn(flusher), flusher.phase());
    expect(rt, found, (Err(StoreFault::Device), Phase::Failed));
    expect(rt, turn(flusher), Err(StoreFault::Failed));
    expect_phase(rt, flusher, Phase::Failed);
    let failed = (Phase::Failed, StoreFault::Failed);
    expect_refusal(rt, alloc, flusher, 3, failed);
}

// As many commits of a row, and one more that switches to the other half.
fn put_and_switch<D: Disk>(rt: &impl Abort, alloc: Global, flusher: &mut Flusher<D>, rows: u64) {
    for number in 0..rows {
        commit(rt, flusher, station_batch(rt, alloc, number), 4);
    }
    commit(rt, flusher, station_batch(rt, alloc, 9), 8);
}

// The device after a policy, as many commits of a row, and one more that switches to the other half.
fn switch_half<D: Disk>(rt: &impl Abort, alloc: Global, disk: D, rows: u64) -> D
where
    D: Drop,
{
    let mut flusher = with_policy(rt, alloc, disk);
    put_and_switch(rt, alloc, &mut flusher, rows);
    flusher.into_device()
}

// Loads a batch, once more where memory was refused: nothing had changed then.
fn load_again<D: Disk>(rt: &impl Abort, flusher: &mut Flusher<D>, batch: Batch) {
    if let Err((back, fault)) = try_load(flusher, batch) {
        let found = (fault, flusher.phase());
        expect(rt, found, (StoreFault::NoMemory, Phase::Idle));
        load(rt, flusher, back);
    }
}

// Commits a station, its batch loaded once more where memory was refused.
fn commit_again<D: Disk>(rt: &impl Abort, alloc: Global, flusher: &mut Flusher<D>) {
    load_again(rt, flusher, station_batch(rt, alloc, 2));
    turns(rt, flusher, 4);
    expect(rt, unload(flusher), Some(2));
}

fn on_memory(rt: &impl Abort, alloc: Global, calls: u64) -> MemDisk {
    committing(rt, alloc, blank_disk(rt, alloc, LENGTH), calls)
}

fn stop(rt: &impl Abort, alloc: Global, calls: u64, torn: Torn) -> Seen {
    look(alloc, on_memory(rt, alloc, calls).crash(torn))
}

// The device after a commit that was tried once more where memory was refused.
fn try_again<D: Disk>(rt: &impl Abort, alloc: Global, disk: D) -> D
where
    D: Drop,
{
    let mut flusher = with_policy(rt, alloc, disk);
    commit_again(rt, alloc, &mut flusher);
    flusher.into_device()
}

// The same on a device that holds nothing yet.
fn expect_stuck_on<D: Disk>(rt: &impl Abort, alloc: Global, disk: D, calls: u64)
where
    D: Drop,
{
    let mut flusher = with_policy(rt, alloc, disk);
    expect_stuck(rt, alloc, &mut flusher, calls);
}

// Over a device that fails behind seven calls of the format, four of the policy's commit and as many turns.
fn expect_stuck_over_fuse(rt: &impl Abort, alloc: Global, calls: u64) {
    let passes = calls.saturating_add(11);
    let fuse = FuseDisk::new(blank_disk(rt, alloc, LENGTH), passes);
    expect_stuck_on(rt, alloc, fuse, calls);
}

#[test]
fn the_bytes_of_two_commits(rt: HostRuntime) {
    let disk = on_memory(&rt, rt.alloc(), 4);
    expect(&rt, disk.bytes().get(64..118), Some(TWO_GROUPS));
}

const THERE: Seen = Ok((Some((0, 2007)), Some(Station::Authenticated)));

// Stops behind so many turns of a station's commit, and whether each shows the station.
const STOPS: &[(u64, Torn, bool)] = &[
    (0, Torn::Byte(1), false),
    (2, Torn::Byte(1), false),
    (3, Torn::Byte(1), true),
    (3, Torn::Byte(0x7f), false),
    (4, Torn::Byte(0x7f), true),
];

fn expect_stop(rt: &impl Abort, alloc: Global, calls: u64, torn: Torn, found: Seen) {
    let is = stop(rt, alloc, calls, torn);
    expect(rt, (torn, calls, is), (torn, calls, found));
}

#[test]
fn a_stop_at_each_turn(rt: HostRuntime) {
    for (calls, torn, there) in STOPS {
        let none = Ok((Some((0, 2007)), None));
        let found = if *there { THERE } else { none };
        expect_stop(&rt, rt.alloc(), *calls, *torn, found);
    }
}

// The calls of a long batch's commit.
const LONG: &[Made] = &[
    Made::Write(78, 65_541),
    Made::Sync,
    Made::Write(77, 1),
    Made::Sync,
];

// A bad batch makes no call. A commit makes two writes and two syncs, however many changes it has.
#[test]
fn the_calls_of_a_long_batch(rt: HostRuntime) {
    let alloc = rt.alloc();
    let disk = bad_and_good(&rt, alloc, blank_disk(&rt, alloc, LENGTH));
    let made = calls_after(&rt, alloc, &disk, 7);
    expect(&rt, made.as_slice(), LONG);
}

// The same of a new flusher on a device.
fn expect_phases_on<D: Disk>(rt: &impl Abort, alloc: Global, disk: D)
where
    D: Drop,
{
    let mut flusher = new_flusher(rt, alloc, disk);
    expect_phases(rt, alloc, &mut flusher);
}

#[test]
fn the_phases_of_a_batch(rt: HostRuntime) {
    let alloc = rt.alloc();
    expect_phases_on(&rt, alloc, blank_disk(&rt, alloc, LENGTH));
}

#[test]
fn a_fault_at_each_turn(rt: HostRuntime) {
    for calls in 0..4 {
        expect_stuck_over_fuse(&rt, rt.alloc(), calls);
    }
}

// It says more where an allocation fails (`rt try --test --fail-alloc N`): one that fails in `load` is made good.
#[test]
fn a_batch_is_tried_again(rt: HostRuntime) {
    let alloc = rt.alloc();
    let disk = try_again(&rt, alloc, blank_disk(&rt, alloc, LENGTH));
    expect(&rt, look(alloc, disk), THERE);
}

// The calls of the commit that switches to half B: its snapshot, and then the row.
const SWITCH: &[Made] = &[
    Made::Write(1_048_641, 43),
    Made::Sync,
    Made::Write(1_048_640, 1),
    Made::Sync,
    Made::Write(1_048_684, 25),
    Made::Sync,
    Made::Write(1_048_683, 1),
    Made::Sync,
];

// The first bytes of half B then.
const HEAD: &[u8] = &[1, 2, 0, 0, 0, 0, 0, 0, 0, 30, 0, 0, 0];

// A policy's group leaves the closed gate at 28, and the group of a row has 25 bytes: after 41,941 of them the
// closed gate is at 1,048,553, and the next one has no room. Half B then begins with a policy and a row, 30 bytes,
// and its first group's gate is at 1,048,683 of the device.
#[test]
fn a_full_half_makes_way(rt: HostRuntime) {
    let alloc = rt.alloc();
    let disk = switch_half(&rt, alloc, blank_disk(&rt, alloc, LENGTH), 41_941);
    // Behind seven calls of the format and four of each commit.
    let made = calls_after(&rt, alloc, &disk, 7 + 4 + 4 * 41_941);
    expect(&rt, made.as_slice(), SWITCH);
    let found = disk.bytes().get(1_048_640..1_048_653);
    expect(&rt, found, Some(HEAD));
    expect(&rt, look(alloc, disk), THERE);
}
