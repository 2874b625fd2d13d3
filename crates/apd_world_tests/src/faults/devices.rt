//! Devices of memory, and what they show.
use crate::faults::calls::{format_device, recover_store};
use apd_disk::{Disk, MemDisk};
use apd_record::write;
use apd_store::StoreFault;
use apd_table::Table;
use std::alloc::Global;

/// How many bytes a device of a store has.
const LENGTH: usize = 2_097_216;

/// The places of its halves.
const HALF_A: usize = 64;

const HALF_B: usize = 1_048_640;

/// The record of the radio's policy, and of its station, which is authenticated.
const POLICY: &[u8] = &[6, 2, 0, 0, 0, 0, 1, 0, 0xd7, 7];

const AUTHENTICATED: &[u8] = &[
    1, 2, 0, 0, 0, 0, 1, 2, 0, 0, 0, 0, 0xaa, 1, 0, 0, 0, 0, 0, 0,
];

/// So many of the latter, behind the former, leave a half no room for a group of one more.
const ROWS: u32 = 52_427;

// No clause says what the disk holds: a proof would go through two million bytes.
fn blank_disk(alloc: Global) -> Option<MemDisk> {
    MemDisk::new(alloc, vec![in alloc; 0u8; LENGTH].ok()?).ok()
}

/// The bytes of a new store, which is formatted by seven calls.
pub(crate) fn new_image(alloc: Global) -> Option<Vec<u8>> {
    format_device(alloc, blank_disk(alloc)?)?
        .bytes()
        .to_vec(alloc)
        .ok()
}

/// Adds zeros up to a length, which no proof meets here.
fn pad(bytes: &mut Vec<u8>, length: usize) -> Option<()> {
    bytes.resize(length, 0).ok()
}

/// Adds an open half of this epoch, whose snapshot has the radio's policy, and its station so many times.
fn add_half(bytes: &mut Vec<u8>, epoch: u64, rows: u32) -> Option<()> {
    bytes.push(1).ok()?;
    bytes.extend_from_slice(&epoch.to_le_bytes()).ok()?;
    let length = rows.checked_mul(20)?.checked_add(10)?;
    bytes.extend_from_slice(&length.to_le_bytes()).ok()?;
    bytes.extend_from_slice(POLICY).ok()?;
    for _row in 0..rows {
        bytes.extend_from_slice(AUTHENTICATED).ok()?;
    }
    Some(())
}

/// The bytes of a full store: both halves are open, the older one with the radio's policy alone, and the newer one, of
/// this epoch, with its station too, and no room for one more group of it.
pub(crate) fn full_image(alloc: Global, epoch: u64) -> Option<Vec<u8>> {
    let mut bytes = Vec::new(alloc);
    let filled = add_store(&mut bytes, epoch);
    filled.is_some().then_some(bytes)
}

/// Adds those bytes.
fn add_store(bytes: &mut Vec<u8>, epoch: u64) -> Option<()> {
    bytes.extend_from_slice(b"RAPSTOR2").ok()?;
    pad(bytes, HALF_A)?;
    add_half(bytes, 1, 0)?;
    pad(bytes, HALF_B)?;
    add_half(bytes, epoch, ROWS)?;
    pad(bytes, LENGTH)
}

/// A device that holds these bytes, and has served no call.
pub(crate) fn device_of(alloc: Global, image: &[u8]) -> Option<MemDisk> {
    device_with(alloc, image.to_vec(alloc).ok()?)
}

/// The same that takes the bytes.
pub(crate) fn device_with(alloc: Global, image: Vec<u8>) -> Option<MemDisk> {
    MemDisk::new(alloc, image).ok()
}

/// A device that holds a new store, and has served no call.
pub(crate) fn new_device(alloc: Global) -> Option<MemDisk> {
    device_with(alloc, new_image(alloc)?)
}

/// The tables of a session, as the records that make them: the empty one, that of the radio's policy, and those with
/// its station too, authenticated, and associated, with the identifier that was given last.
const TABLES: [&[u8]; 4] = [
    &[],
    POLICY,
    &[
        6, 2, 0, 0, 0, 0, 1, 0, 0xd7, 7, //
        1, 2, 0, 0, 0, 0, 1, 2, 0, 0, 0, 0, 0xaa, 1, 0, 0, 0, 0, 0, 0,
    ],
    &[
        6, 2, 0, 0, 0, 0, 1, 0, 0xd7, 7, //
        7, 2, 0, 0, 0, 0, 1, 1, 0, //
        1, 2, 0, 0, 0, 0, 1, 2, 0, 0, 0, 0, 0xaa, 2, 1, 0, 0x31, 4, 10, 0,
    ],
];

/// The records that make a table, which hold all of it.
fn records_of(alloc: Global, table: &Table) -> Option<Vec<u8>> {
    let changes = table.snapshot(alloc).ok()?;
    write(alloc, changes.as_slice()).ok()
}

/// The place of the table that these records make among those of a session.
fn place_among(records: &[u8]) -> Option<u64> {
    let place = TABLES.iter().position(|table| *table == records)?;
    u64::try_from(place).ok()
}

/// Which table of a session this is: the empty one (0), that of the radio's policy (1), or that with its station too,
/// authenticated (2) or associated (3); none where it holds anything else.
pub(crate) fn place_of(alloc: Global, table: &Table) -> Option<u64> {
    place_among(records_of(alloc, table)?.as_slice())
}

/// A device that is recovered, and which table it shows; else why there is none, beside the device.
pub(crate) fn recover_device<D: Disk + Drop>(
    alloc: Global,
    device: D,
) -> Result<(D, Option<u64>), (D, StoreFault)> {
    let (store, table) = recover_store(alloc, device)?;
    let place = place_of(alloc, &table);
    drop(table);
    Ok((store.into_device(), place))
}

/// Which table a device shows.
pub(crate) fn table_of<D: Disk + Drop>(alloc: Global, device: D) -> Option<u64> {
    let (_device, table) = recover_device(alloc, device).ok()?;
    table
}
