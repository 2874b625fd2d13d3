// What no clause says of a batch of no changes: that it is taken where memory is ample, and the calls and the bytes of a
// device on which one is committed between two others.
use crate::common::{
    LENGTH, Made, TWO_GROUPS, batch_of, blank_disk, calls_after, format_store, policy, put,
};
use crate::expect::expect;
use apd_base::{Sequence, Station};
use apd_disk::{Disk, FuseDisk, MemDisk};
use apd_flusher::{Flusher, Phase as FlusherPhase};
use apd_journal::Batch;
use apd_record::Change;
use apd_store::{Phase, Store, StoreFault, recover};
use apd_table::Table;
use std::alloc::Global;
use std::process::Abort;

fn no_changes(alloc: Global, number: u64) -> Batch {
    Batch {
        first: number,
        last: number,
        changes: Sequence::new(alloc),
    }
}

// Begins a batch: why it is refused, or none.
fn refusal<D: Disk>(alloc: Global, store: &mut Store<D>, batch: Batch) -> Option<StoreFault> {
    match store.begin(batch, &Table::new(alloc)) {
        Ok(()) => None,
        Err((_batch, fault)) => Some(fault),
    }
}

// The number of the batch whose receipt is given.
fn finish<D: Disk>(store: &mut Store<D>) -> Option<u64> {
    let receipt = store.finish()?;
    Some(receipt.batch().first)
}

fn next_call<D: Disk>(store: &mut Store<D>) -> Result<bool, StoreFault> {
    store.next_call()
}

// Commits a batch of one change by four calls.
fn commit<D: Disk>(
    rt: &impl Abort,
    alloc: Global,
    store: &mut Store<D>,
    number: u64,
    change: Change,
) {
    let batch = batch_of(rt, alloc, number, change);
    expect(rt, refusal(alloc, store, batch), None);
    for more in [true, true, true, false] {
        expect(rt, next_call(store), Ok(more));
    }
    expect(rt, finish(store), Some(number));
}

// Its receipt is there at once, and once.
fn commit_none<D: Disk>(rt: &impl Abort, alloc: Global, store: &mut Store<D>, number: u64) {
    let refused = refusal(alloc, store, no_changes(alloc, number));
    expect(rt, (refused, store.phase()), (None, Phase::Done));
    expect(rt, next_call(store), Ok(false));
    let receipts = (finish(store), finish(store));
    expect(rt, receipts, (Some(number), None));
    expect(rt, store.phase(), Phase::Idle);
}

// One of no changes before a policy, behind it, and behind a station.
fn make_commits<D: Disk>(rt: &impl Abort, alloc: Global, store: &mut Store<D>) {
    commit_none(rt, alloc, store, 1);
    commit(rt, alloc, store, 2, policy(rt));
    commit_none(rt, alloc, store, 3);
    commit(rt, alloc, store, 4, put(Station::Authenticated));
    commit_none(rt, alloc, store, 5);
}

fn with_commits<D: Disk>(rt: &impl Abort, alloc: Global, disk: D) -> D
where
    D: Drop,
{
    let mut store = format_store(rt, alloc, disk);
    make_commits(rt, alloc, &mut store);
    store.into_device()
}

// The calls of the policy's commit, and of the station's.
const COMMITS: &[Made] = &[
    Made::Write(78, 15),
    Made::Sync,
    Made::Write(77, 1),
    Made::Sync,
    Made::Write(93, 25),
    Made::Sync,
    Made::Write(92, 1),
    Made::Sync,
];

// Each group stands where it would without them.
#[test]
fn no_call_is_made_for_no_changes(rt: HostRuntime) {
    let alloc = rt.alloc();
    let disk = with_commits(&rt, alloc, blank_disk(&rt, alloc, LENGTH));
    // Behind the seven of the format.
    let made = calls_after(&rt, alloc, &disk, 7);
    expect(&rt, made.as_slice(), COMMITS);
    expect(&rt, disk.bytes().get(64..118), Some(TWO_GROUPS));
}

// Expects that one of no changes is refused for this fault, and nothing has changed.
fn expect_refused<D: Disk>(
    rt: &impl Abort,
    alloc: Global,
    store: &mut Store<D>,
    phase: Phase,
    fault: StoreFault,
) {
    let refused = refusal(alloc, store, no_changes(alloc, 9));
    expect(rt, (refused, store.phase()), (Some(fault), phase));
}

// The phases of a group, as long as no call has failed.
const PHASES: [Phase; 5] = [
    Phase::WriteGroup,
    Phase::SyncGroup,
    Phase::OpenGate,
    Phase::SyncGate,
    Phase::Done,
];

// While a batch is under way, and once its calls are made.
fn expect_busy<D: Disk>(rt: &impl Abort, alloc: Global, store: &mut Store<D>) {
    let batch = batch_of(rt, alloc, 1, policy(rt));
    expect(rt, refusal(alloc, store, batch), None);
    for phase in PHASES {
        expect_refused(rt, alloc, store, phase, StoreFault::NotIdle);
        let _more = next_call(store);
    }
    expect(rt, finish(store), Some(1));
    // And while one of no changes waits for its receipt to be taken.
    expect(rt, refusal(alloc, store, no_changes(alloc, 2)), None);
    expect_refused(rt, alloc, store, Phase::Done, StoreFault::NotIdle);
    expect(rt, finish(store), Some(2));
}

fn expect_busy_on<D: Disk>(rt: &impl Abort, alloc: Global, disk: D)
where
    D: Drop,
{
    let mut store = format_store(rt, alloc, disk);
    expect_busy(rt, alloc, &mut store);
}

#[test]
fn one_behind_a_batch_waits_for_it(rt: HostRuntime) {
    let alloc = rt.alloc();
    expect_busy_on(&rt, alloc, blank_disk(&rt, alloc, LENGTH));
}

// Once a call has failed.
fn expect_failed<D: Disk>(rt: &impl Abort, alloc: Global, store: &mut Store<D>) {
    let batch = batch_of(rt, alloc, 1, policy(rt));
    expect(rt, refusal(alloc, store, batch), None);
    expect(rt, next_call(store), Err(StoreFault::Device));
    expect_refused(rt, alloc, store, Phase::Failed, StoreFault::Failed);
    expect(rt, finish(store), None);
}

fn expect_failed_on<D: Disk>(rt: &impl Abort, alloc: Global, disk: D)
where
    D: Drop,
{
    let mut store = format_store(rt, alloc, disk);
    expect_failed(rt, alloc, &mut store);
}

// The device fails behind the seven calls of the format.
#[test]
fn a_failed_store_refuses_it(rt: HostRuntime) {
    let alloc = rt.alloc();
    let fuse = FuseDisk::new(blank_disk(&rt, alloc, LENGTH), 7);
    expect_failed_on(&rt, alloc, fuse);
}

fn add(rt: &impl Abort, bytes: &mut Vec<u8>, more: &[u8]) {
    bytes.extend_from_slice(more).expect(rt, "memory");
}

// Adds zeros up to a length, which no proof meets here.
fn pad(rt: &impl Abort, bytes: &mut Vec<u8>, length: usize) {
    bytes.resize(length, 0).expect(rt, "memory");
}

// The records of a policy, and of the end of its accept list.
const POLICY: &[u8] = &[6, 2, 0, 0, 0, 0, 1, 0, 0xd7, 7];

const CLEARED: &[u8] = &[5, 2, 0, 0, 0, 0, 1, 0];

// So many of the latter behind the former have 1,048,562 bytes: the closed gate is the last byte of the half.
const CLEARS: u32 = 131_069;

// The bytes of a store of the greatest epoch whose half A is full to its last byte.
fn worn_bytes(rt: &impl Abort, alloc: Global) -> Vec<u8> {
    let mut bytes = Vec::new(alloc);
    add(rt, &mut bytes, b"RAPSTOR2");
    pad(rt, &mut bytes, 64);
    add(rt, &mut bytes, &[1]);
    add(rt, &mut bytes, &u64::MAX.to_le_bytes());
    add(rt, &mut bytes, &1_048_562_u32.to_le_bytes());
    add(rt, &mut bytes, POLICY);
    for _record in 0..CLEARS {
        add(rt, &mut bytes, CLEARED);
    }
    pad(rt, &mut bytes, LENGTH);
    bytes
}

fn worn_disk(rt: &impl Abort, alloc: Global) -> MemDisk {
    MemDisk::new(alloc, worn_bytes(rt, alloc)).expect(rt, "memory")
}

// The calls of a recovery.
const RECOVERY: &[Made] = &[Made::Sync, Made::Read(0, LENGTH)];

// Such a store takes one of no changes, and no other.
fn expect_worn<D: Disk>(rt: &impl Abort, alloc: Global, store: &mut Store<D>) {
    commit_none(rt, alloc, store, 1);
    let batch = batch_of(rt, alloc, 2, policy(rt));
    let refused = refusal(alloc, store, batch);
    expect(
        rt,
        (refused, store.phase()),
        (Some(StoreFault::Worn), Phase::Idle),
    );
    commit_none(rt, alloc, store, 3);
}

fn with_worn<D: Disk>(rt: &impl Abort, alloc: Global, disk: D) -> D
where
    D: Drop,
{
    let recovered = recover(alloc, disk).ok();
    let (mut store, _table) = recovered.expect(rt, "a recovery");
    expect_worn(rt, alloc, &mut store);
    store.into_device()
}

#[test]
fn a_worn_store_takes_no_changes(rt: HostRuntime) {
    let alloc = rt.alloc();
    let disk = with_worn(&rt, alloc, worn_disk(&rt, alloc));
    let made = calls_after(&rt, alloc, &disk, 0);
    expect(&rt, made.as_slice(), RECOVERY);
}

fn load<D: Disk>(flusher: &mut Flusher<D>, batch: Batch) -> Option<StoreFault> {
    match flusher.load(batch) {
        Ok(()) => None,
        Err((_batch, fault)) => Some(fault),
    }
}

// The number of the batch whose receipt is given.
fn unload<D: Disk>(flusher: &mut Flusher<D>) -> Option<u64> {
    let receipt = flusher.unload()?;
    Some(receipt.batch().first)
}

fn commit_at_once<D: Disk>(flusher: &mut Flusher<D>, batch: Batch) -> Option<u64> {
    let receipt = flusher.commit(batch).ok()?;
    Some(receipt.batch().first)
}

// A flusher is done as soon as it has taken one.
fn expect_done<D: Disk>(rt: &impl Abort, alloc: Global, flusher: &mut Flusher<D>) {
    let refused = load(flusher, no_changes(alloc, 1));
    expect(rt, (refused, flusher.phase()), (None, FlusherPhase::Done));
    expect(rt, flusher.turn(), Ok(()));
    let receipts = (unload(flusher), unload(flusher));
    expect(rt, receipts, (Some(1), None));
    let committed = commit_at_once(flusher, no_changes(alloc, 2));
    expect(
        rt,
        (committed, flusher.phase()),
        (Some(2), FlusherPhase::Idle),
    );
}

fn flushed<D: Disk>(rt: &impl Abort, alloc: Global, disk: D) -> D
where
    D: Drop,
{
    let store = format_store(rt, alloc, disk);
    let flusher = Flusher::new(alloc, store, Table::new(alloc)).ok();
    let mut flusher = flusher.expect(rt, "memory");
    expect_done(rt, alloc, &mut flusher);
    flusher.into_device()
}

#[test]
fn a_flusher_makes_no_call_for_no_changes(rt: HostRuntime) {
    let alloc = rt.alloc();
    let disk = flushed(&rt, alloc, blank_disk(&rt, alloc, LENGTH));
    expect(&rt, calls_after(&rt, alloc, &disk, 7).len(), 0);
}
