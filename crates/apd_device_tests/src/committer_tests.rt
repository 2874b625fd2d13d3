//! What lies between a core and a device: whatever is refused there waits, and is not lost.
use crate::common::{LENGTH, Seen, batch_of, blank_disk, format_store, look, policy, put};
use crate::expect::expect;
use apd_base::Station;
use apd_disk::{Disk, FuseDisk, MemDisk};
use apd_flusher::{Committer, Flusher, Phase};
use apd_journal::Batch;
use apd_store::{Receipt, Store, StoreFault, recover};
use apd_table::Table;
use std::alloc::Global;
use std::process::Abort;

/// The store of a device, and its table.
fn recover_store<D: Disk>(rt: &impl Abort, alloc: Global, disk: D) -> (Store<D>, Table)
where
    D: Drop,
{
    recover(alloc, disk).ok().expect(rt, "a recovery")
}

/// A committer of the store that a device holds.
fn committer<D: Disk>(rt: &impl Abort, alloc: Global, disk: D) -> Committer<D>
where
    D: Drop,
{
    let (store, table) = recover_store(rt, alloc, disk);
    let flusher = Flusher::new(alloc, store, table).ok();
    Committer::new(flusher.expect(rt, "memory"))
}

/// A committer of a new store on a device.
fn new_committer<D: Disk>(rt: &impl Abort, alloc: Global, disk: D) -> Committer<D>
where
    D: Drop,
{
    let device = format_store(rt, alloc, disk).into_device();
    committer(rt, alloc, device)
}

/// The same in memory.
fn committer_in_memory(rt: &impl Abort, alloc: Global) -> Committer<MemDisk> {
    new_committer(rt, alloc, blank_disk(rt, alloc, LENGTH))
}

/// What is answered to a load.
type Loaded = Option<Result<(), StoreFault>>;

/// Loads a batch that is handed in, where none waits.
fn hand_in<D: Disk>(committer: &mut Committer<D>, batch: Batch) -> Loaded {
    if committer.has_batch() {
        return None;
    }
    committer.load(Some(batch))
}

/// The same of a policy's batch, of the number 1.
fn hand_in_policy<D: Disk>(rt: &impl Abort, alloc: Global, committer: &mut Committer<D>) -> Loaded {
    hand_in(committer, batch_of(rt, alloc, 1, policy(rt)))
}

/// The same of a station's batch of this number.
fn hand_in_station<D: Disk>(
    rt: &impl Abort,
    alloc: Global,
    committer: &mut Committer<D>,
    number: u64,
) -> Loaded {
    let change = put(Station::Authenticated);
    hand_in(committer, batch_of(rt, alloc, number, change))
}

/// Loads the batch that waits.
fn load<D: Disk>(committer: &mut Committer<D>) -> Loaded {
    committer.load(None)
}

/// Makes a turn.
fn turn<D: Disk>(committer: &mut Committer<D>) -> Result<(), StoreFault> {
    committer.turn()
}

/// Makes four turns.
fn four_turns<D: Disk>(rt: &impl Abort, committer: &mut Committer<D>) {
    for _turn in 0..4 {
        turn(committer).expect(rt, "a turn");
    }
}

/// The number of the batch whose receipt is given.
fn receipt<D: Disk>(committer: &mut Committer<D>) -> Option<u64> {
    Some(committer.take_receipt()?.batch().first)
}

/// The number of the batch whose receipt is given. It is taken back.
fn receipt_taken_back<D: Disk>(committer: &mut Committer<D>) -> Option<u64> {
    let receipt = committer.take_receipt()?;
    let number = receipt.batch().first;
    committer.take_back(receipt);
    Some(number)
}

fn number_of(batch: Option<Batch>) -> Option<u64> {
    Some(batch?.first)
}

fn number_in(receipt: Option<Receipt>) -> Option<u64> {
    Some(receipt?.batch().first)
}

/// The numbers of the batch and of the receipt that wait at the end.
fn rest_of<D: Disk>(committer: Committer<D>) -> (Option<u64>, Option<u64>)
where
    D: Drop,
{
    let (flusher, batch, receipt) = committer.into_parts();
    drop(flusher);
    let number = number_of(batch);
    (number, number_in(receipt))
}

/// Expects that a station's batch of this number is refused for this fault and waits, that the next load is answered
/// so, and that the batch waits at the end.
fn expect_waits<D: Disk>(
    rt: &impl Abort,
    alloc: Global,
    committer: Committer<D>,
    number: u64,
    fault: StoreFault,
)
where
    D: Drop,
{
    let mut committer = committer;
    let first = hand_in_station(rt, alloc, &mut committer, number);
    let waits = committer.has_batch();
    let next = load(&mut committer);
    let found = (first, waits, next, rest_of(committer));
    let refusal = Some(Err(fault));
    expect(rt, found, (refusal, true, refusal, (Some(number), None)));
}

// The station's BSSID has no policy.
#[test]
fn a_bad_batch_waits(rt: HostRuntime) {
    let committer = committer_in_memory(&rt, rt.alloc());
    expect_waits(&rt, rt.alloc(), committer, 5, StoreFault::BadBatch);
}

/// Adds zeros up to a length, which no proof meets here.
fn pad(rt: &impl Abort, bytes: &mut Vec<u8>, length: usize) {
    bytes.resize(length, 0).expect(rt, "memory");
}

fn add(rt: &impl Abort, bytes: &mut Vec<u8>, more: &[u8]) {
    bytes.extend_from_slice(more).expect(rt, "memory");
}

/// The record of a policy of the BSSID.
const POLICY: &[u8] = &[6, 2, 0, 0, 0, 0, 1, 0, 0xd7, 7];

/// So many of it, and 23 more bytes, leave a half no room for a group of a station.
const POLICIES: u32 = 104_855;

/// The bytes of a device whose half A is full, and of the greatest epoch.
fn worn_bytes(rt: &impl Abort, alloc: Global) -> Vec<u8> {
    let mut bytes = Vec::new(alloc);
    add(rt, &mut bytes, b"RAPSTOR2");
    pad(rt, &mut bytes, 64);
    add(rt, &mut bytes, &[1]);
    add(rt, &mut bytes, &u64::MAX.to_le_bytes());
    add(rt, &mut bytes, &1_048_550_u32.to_le_bytes());
    for _record in 0..POLICIES {
        add(rt, &mut bytes, POLICY);
    }
    pad(rt, &mut bytes, LENGTH);
    bytes
}

fn worn_committer(rt: &impl Abort, alloc: Global) -> Committer<MemDisk> {
    let disk = MemDisk::new(alloc, worn_bytes(rt, alloc));
    committer(rt, alloc, disk.expect(rt, "memory"))
}

#[test]
fn a_batch_for_which_a_worn_store_has_no_room_waits(rt: HostRuntime) {
    let committer = worn_committer(&rt, rt.alloc());
    expect_waits(&rt, rt.alloc(), committer, 5, StoreFault::Worn);
}

/// A committer over a device that fails at its first call behind the seven of the format and the two of the recovery.
fn committer_on_fuse(rt: &impl Abort, alloc: Global) -> Committer<FuseDisk<MemDisk>> {
    let fuse = FuseDisk::new(blank_disk(rt, alloc, LENGTH), 9);
    new_committer(rt, alloc, fuse)
}

/// Loads a policy as the batch 1, and makes a turn, which fails.
fn expect_fault<D: Disk>(rt: &impl Abort, alloc: Global, committer: &mut Committer<D>) {
    let loaded = hand_in_policy(rt, alloc, committer);
    let begun = (loaded, turn(committer));
    expect(rt, begun, (Some(Ok(())), Err(StoreFault::Device)));
}

/// The same, behind which a station's batch waits.
fn expect_fault_and_waits<D: Disk>(rt: &impl Abort, alloc: Global, committer: Committer<D>)
where
    D: Drop,
{
    let mut committer = committer;
    expect_fault(rt, alloc, &mut committer);
    expect_waits(rt, alloc, committer, 2, StoreFault::Failed);
}

#[test]
fn a_batch_waits_where_the_device_has_failed(rt: HostRuntime) {
    let committer = committer_on_fuse(&rt, rt.alloc());
    expect_fault_and_waits(&rt, rt.alloc(), committer);
}

/// Loads a policy, and makes its four turns.
fn commit_policy<D: Disk>(rt: &impl Abort, alloc: Global, committer: &mut Committer<D>) {
    let _loaded = hand_in_policy(rt, alloc, committer);
    four_turns(rt, committer);
}

/// What is answered to the station's batch in a policy's first turn, to the load behind its last one, and to that behind
/// its receipt; and the numbers of both receipts.
type Both = ([Loaded; 3], [Option<u64>; 2]);

fn commit_both<D: Disk>(rt: &impl Abort, alloc: Global, committer: &mut Committer<D>) -> Both {
    let _loaded = hand_in_policy(rt, alloc, committer);
    let _begun = turn(committer);
    let busy = hand_in_station(rt, alloc, committer, 2);
    four_turns(rt, committer);
    let done = load(committer);
    let first = receipt(committer);
    let idle = load(committer);
    four_turns(rt, committer);
    ([busy, done, idle], [first, receipt(committer)])
}

fn device<D: Disk>(committer: Committer<D>) -> D
where
    D: Drop,
{
    let (flusher, _batch, _receipt) = committer.into_parts();
    flusher.into_device()
}

/// The same, and the device.
fn both_committed<D: Disk>(rt: &impl Abort, alloc: Global, committer: Committer<D>) -> (Both, D)
where
    D: Drop,
{
    let mut committer = committer;
    let both = commit_both(rt, alloc, &mut committer);
    (both, device(committer))
}

const THERE: Seen = Ok((Some((0, 2007)), Some(Station::Authenticated)));

#[test]
fn a_batch_waits_until_the_one_in_flight_is_published(rt: HostRuntime) {
    let alloc = rt.alloc();
    let (both, disk) = both_committed(&rt, alloc, committer_in_memory(&rt, alloc));
    expect(&rt, look(alloc, disk), THERE);
    let busy = Some(Err(StoreFault::NotIdle));
    expect(&rt, both, ([busy, busy, Some(Ok(()))], [Some(1), Some(2)]));
}

/// The number of each receipt that is given: of a policy's, which is taken back twice; and once the station is committed
/// behind it, of each.
fn receipts<D: Disk>(
    rt: &impl Abort,
    alloc: Global,
    committer: &mut Committer<D>,
) -> [Option<u64>; 5] {
    commit_policy(rt, alloc, committer);
    let once = receipt_taken_back(committer);
    let twice = receipt_taken_back(committer);
    let _loaded = hand_in_station(rt, alloc, committer, 2);
    four_turns(rt, committer);
    let first = receipt(committer);
    let second = receipt(committer);
    [once, twice, first, second, receipt(committer)]
}

fn expect_receipts<D: Disk>(rt: &impl Abort, alloc: Global, committer: Committer<D>)
where
    D: Drop,
{
    let mut committer = committer;
    let found = receipts(rt, alloc, &mut committer);
    expect(rt, found, [Some(1), Some(1), Some(1), Some(2), None]);
}

#[test]
fn a_receipt_that_is_taken_back_is_given_again(rt: HostRuntime) {
    let committer = committer_in_memory(&rt, rt.alloc());
    expect_receipts(&rt, rt.alloc(), committer);
}

/// Expects that the receipt of a policy waits at the end where it was taken back.
fn expect_rest<D: Disk>(rt: &impl Abort, alloc: Global, committer: Committer<D>)
where
    D: Drop,
{
    let mut committer = committer;
    commit_policy(rt, alloc, &mut committer);
    let _number = receipt_taken_back(&mut committer);
    expect(rt, rest_of(committer), (None, Some(1)));
}

#[test]
fn a_receipt_that_waits_is_left_at_the_end(rt: HostRuntime) {
    let committer = committer_in_memory(&rt, rt.alloc());
    expect_rest(&rt, rt.alloc(), committer);
}

/// What is answered to a load, to a turn and to who asks for a receipt.
fn answers<D: Disk>(
    committer: &mut Committer<D>,
) -> (Loaded, Result<(), StoreFault>, Option<u64>, Phase) {
    let loaded = load(committer);
    let made = turn(committer);
    let number = receipt(committer);
    (loaded, made, number, committer.phase())
}

/// There is nothing to load, and no receipt.
fn expect_nothing<D: Disk>(rt: &impl Abort, committer: Committer<D>)
where
    D: Drop,
{
    let mut committer = committer;
    let found = answers(&mut committer);
    expect(rt, found, (None, Ok(()), None, Phase::Idle));
}

#[test]
fn there_is_nothing_to_load_and_no_receipt_at_first(rt: HostRuntime) {
    expect_nothing(&rt, committer_in_memory(&rt, rt.alloc()));
}
