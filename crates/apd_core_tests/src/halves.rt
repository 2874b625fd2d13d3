//! Devices that are made byte by byte, and batches on them. `None` is want of memory, or a refusal.
use apd_base::{Addr, Bssid, Moment, Station};
use apd_conf::{Conf, Confs};
use apd_core::{Accepted, Core, Input};
use apd_disk::{Disk, MemDisk};
use apd_flusher::Flusher;
use apd_journal::Batch;
use apd_store::{Store, StoreFault, recover};
use apd_table::Table;
use std::alloc::Global;

/// The BSSID of the built-in configuration.
pub(crate) const RADIO: Bssid = Bssid(Addr([2, 0, 0, 0, 0, 1]));

/// The station of the record, and of the association request.
pub(crate) const STATION: Addr = Addr([2, 0, 0, 0, 0, 0xaa]);

/// The record of the radio's policy.
pub(crate) const POLICY: &[u8] = &[6, 2, 0, 0, 0, 0, 1, 0, 0xd7, 7];

/// The record of the station, which is authenticated.
pub(crate) const AUTHENTICATED: &[u8] = &[
    1, 2, 0, 0, 0, 0, 1, 2, 0, 0, 0, 0, 0xaa, 1, 0, 0, 0, 0, 0, 0,
];

/// The record of the station once it is associated.
pub(crate) const ASSOCIATED: &[u8] = &[
    1, 2, 0, 0, 0, 0, 1, 2, 0, 0, 0, 0, 0xaa, 2, 1, 0, 0x31, 4, 10, 0,
];

// Its association request: capability 0x0431, listen interval 10, the network "net" and four rates.
const ASSOCIATION: &[u8] = &[
    0, 0, 0, 0, 2, 0, 0, 0, 0, 1, 2, 0, 0, 0, 0, 0xaa, 2, 0, 0, 0, 0, 1, 0x20, 0, 0x31, 4, 10, 0,
    0, 3, b'n', b'e', b't', 1, 4, 0x82, 0x84, 0x8b, 0x96,
];

// An authentication request of another station.
const AUTHENTICATION: &[u8] = &[
    0xb0, 0, 0, 0, 2, 0, 0, 0, 0, 1, 2, 0, 0, 0, 0, 0xbb, 2, 0, 0, 0, 0, 1, 0, 0, 0, 0, 1, 0, 0, 0,
];

/// How many bytes a half has.
pub(crate) const HALF: usize = 1_048_576;

/// The place of half A.
pub(crate) const HALF_A: usize = 64;

/// The place of half B.
pub(crate) const HALF_B: usize = 1_048_640;

/// How many bytes a device of a store has.
const LENGTH: usize = 2_097_216;

/// The front of an open half: its gate, its epoch and its snapshot.
pub(crate) fn front_of(alloc: Global, epoch: u64, snapshot: &[u8]) -> Option<Vec<u8>> {
    let length = u32::try_from(snapshot.len()).ok()?;
    let mut half = Vec::new(alloc);
    half.push(1).ok()?;
    half.extend_from_slice(&epoch.to_le_bytes()).ok()?;
    half.extend_from_slice(&length.to_le_bytes()).ok()?;
    half.extend_from_slice(snapshot).ok()?;
    Some(half)
}

/// Adds an open group of these records.
pub(crate) fn add_group(half: &mut Vec<u8>, records: &[u8]) -> Option<()> {
    let length = u32::try_from(records.len()).ok()?;
    half.push(1).ok()?;
    half.extend_from_slice(&length.to_le_bytes()).ok()?;
    half.extend_from_slice(records).ok()
}

// Adds groups of the record, as many as there is room for below a length.
fn fill(half: &mut Vec<u8>, record: &[u8], length: usize) -> Option<()> {
    let room = length.checked_sub(half.len())?;
    let group = record.len().checked_add(5)?;
    for _time in 0..room.checked_div(group)? {
        add_group(half, record)?;
    }
    Some(())
}

/// An open half with a group behind its snapshot, and then as many groups of one record as there is room for.
pub(crate) fn full(
    alloc: Global,
    epoch: u64,
    snapshot: &[u8],
    group: &[u8],
    record: &[u8],
) -> Option<Vec<u8>> {
    let mut half = front_of(alloc, epoch, snapshot)?;
    add_group(&mut half, group)?;
    fill(&mut half, record, HALF - 1)?;
    Some(half)
}

/// Adds zeros up to a length, which no proof meets here.
pub(crate) fn pad(bytes: &mut Vec<u8>, length: usize) -> Option<()> {
    bytes.resize(length, 0).ok()
}

/// A device of a store of two halves, each with zeros behind it.
pub(crate) fn device(alloc: Global, a: &[u8], b: &[u8]) -> Option<MemDisk> {
    let mut bytes = Vec::new(alloc);
    bytes.extend_from_slice(b"RAPSTOR2").ok()?;
    pad(&mut bytes, HALF_A)?;
    bytes.extend_from_slice(a).ok()?;
    pad(&mut bytes, HALF_B)?;
    bytes.extend_from_slice(b).ok()?;
    pad(&mut bytes, LENGTH)?;
    MemDisk::new(alloc, bytes).ok()
}

/// A device of a new store that has committed a policy and then the station 41,941 times: half A is full, and half B
/// was never open.
pub(crate) fn one_open(alloc: Global) -> Option<MemDisk> {
    device(alloc, &full(alloc, 1, &[], POLICY, AUTHENTICATED)?, &[])
}

/// A device whose halves are both open: A with a policy alone, and the newer B with the station, and full.
pub(crate) fn both_open(alloc: Global) -> Option<MemDisk> {
    let newer = full(alloc, 2, POLICY, AUTHENTICATED, AUTHENTICATED)?;
    device(alloc, &front_of(alloc, 1, POLICY)?, &newer)
}

fn new_list(alloc: Global) -> Option<Vec<Conf>> {
    let mut list = Vec::new(alloc);
    list.push(Conf::built_in(alloc).ok()?).ok()?;
    Some(list)
}

fn core_of(alloc: Global, table: Table, list: Vec<Conf>) -> Option<Core> {
    let (table, confs) = Some(table).zip(Confs::new(list).ok())?;
    Core::new(alloc, table, confs, Moment(0)).ok()
}

fn enters(core: &mut Core, frame: &[u8]) -> bool {
    let answer = core.accept(Input::Received(RADIO, frame), Moment(0));
    matches!(answer, Ok(Accepted::Entry(_)))
}

fn take_batch(core: &mut Core) -> Option<Batch> {
    match core.take() {
        Ok(batch) => batch,
        Err(_) => None,
    }
}

fn associates(core: &mut Core) -> Option<Batch> {
    if enters(core, ASSOCIATION) {
        take_batch(core)
    } else {
        None
    }
}

// The batch of the station's association. The core accepts one more request meanwhile.
fn association(core: &mut Core) -> Option<Batch> {
    let batch = associates(core);
    if enters(core, AUTHENTICATION) {
        batch
    } else {
        None
    }
}

// The same of a core of this table.
fn association_of(alloc: Global, table: &Table) -> Option<Batch> {
    let (table, list) = table.copy(alloc).ok().zip(new_list(alloc))?;
    association(&mut core_of(alloc, table, list)?)
}

/// A store and its table, by two calls of the device.
pub(crate) fn recover_store<D: Disk>(alloc: Global, disk: D) -> Option<(Store<D>, Table)>
where
    D: Drop,
{
    recover(alloc, disk).ok()
}

/// A flusher of a store and its table.
pub(crate) fn flusher_of<D: Disk>(
    alloc: Global,
    store: Store<D>,
    table: Table,
) -> Option<Flusher<D>>
where
    D: Drop,
{
    Flusher::new(alloc, store, table).ok()
}

/// A flusher of a store that is recovered, and the batch of the station's association.
pub(crate) fn flusher<D: Disk>(alloc: Global, disk: D) -> Option<(Flusher<D>, Batch)>
where
    D: Drop,
{
    let (store, table) = recover_store(alloc, disk)?;
    let batch = association_of(alloc, &table);
    flusher_of(alloc, store, table).zip(batch)
}

// Makes as many turns.
fn turns<D: Disk>(flusher: &mut Flusher<D>, turns: u64) -> Option<()> {
    for _turn in 0..turns {
        flusher.turn().ok()?;
    }
    Some(())
}

// Loads a batch.
fn load<D: Disk>(flusher: &mut Flusher<D>, batch: Batch) -> Option<()> {
    flusher.load(batch).ok()
}

/// Loads a batch, and makes as many turns.
pub(crate) fn load_and_turn<D: Disk>(
    flusher: &mut Flusher<D>,
    batch: Batch,
    calls: u64,
) -> Option<()> {
    load(flusher, batch)?;
    turns(flusher, calls)
}

/// The device after as many calls of the station's association.
pub(crate) fn switching<D: Disk>(alloc: Global, disk: D, calls: u64) -> Option<D>
where
    D: Drop,
{
    let (mut flusher, batch) = flusher(alloc, disk)?;
    let turned = load_and_turn(&mut flusher, batch, calls);
    turned.and(Some(flusher.into_device()))
}

// Whether the table has the station, as before its association or after it, and no other.
fn word_of(table: &Table) -> &'static str {
    match (table.get(RADIO, STATION), table.rows()) {
        (Some(Station::Authenticated), 1) => "before",
        (Some(Station::Associated(_)), 1) => "after",
        (None, 0) => "no station",
        _ => "another table",
    }
}

/// What a device shows, where there is one.
pub(crate) fn show(alloc: Global, disk: Option<MemDisk>) -> &'static str {
    let Some(disk) = disk else {
        return "no device";
    };
    match recover(alloc, disk) {
        Ok((store, table)) => {
            drop(store);
            let word = word_of(&table);
            drop(table);
            word
        }
        Err((_disk, StoreFault::Damaged)) => "damaged",
        Err(_) => "no store",
    }
}
