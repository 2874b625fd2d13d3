//! Devices of memory: blank, and with a store that is made byte by byte.
use apd_base::limits::DEVICE_LENGTH;
use apd_disk::MemDisk;
use std::alloc::{AllocError, Global};

/// The records of two policies and of the identifiers given last; of an address that `02:00:00:00:00:01` denies; and of
/// two stations at each BSSID. At the first one the first of them is associated, at the second one the other.
const SNAPSHOT: &[u8] = &[
    6, 2, 0, 0, 0, 0, 1, 0, 0xd7, 7, //
    6, 2, 0, 0, 0, 0, 2, 0, 0xd7, 7, //
    7, 2, 0, 0, 0, 0, 1, 1, 0, //
    7, 2, 0, 0, 0, 0, 2, 1, 0, //
    3, 2, 0, 0, 0, 0, 1, 1, 2, 0, 0, 0, 0, 0xcc, //
    1, 2, 0, 0, 0, 0, 1, 2, 0, 0, 0, 0, 0xaa, 2, 1, 0, 0x31, 4, 10, 0, //
    1, 2, 0, 0, 0, 0, 1, 2, 0, 0, 0, 0, 0xbb, 1, 0, 0, 0, 0, 0, 0, //
    1, 2, 0, 0, 0, 0, 2, 2, 0, 0, 0, 0, 0xaa, 1, 0, 0, 0, 0, 0, 0, //
    1, 2, 0, 0, 0, 0, 2, 2, 0, 0, 0, 0, 0xbb, 2, 1, 0, 0x31, 4, 10, 0,
];

/// The groups of a policy and of a station that authenticated and then associated, as a program of version 1 wrote them
/// behind an empty snapshot, in hexadecimal.
const OLD_GROUPS: &[u8] = &[
    0x01, 0x0a, 0x00, 0x00, 0x00, 0x06, 0x02, 0x00, 0x00, 0x00, 0x00, 0x01, 0x00, 0xd7, 0x07, //
    0x01, 0x14, 0x00, 0x00, 0x00, 0x01, 0x02, 0x00, 0x00, 0x00, 0x00, 0x01, 0x02, 0x00, 0x00, 0x00,
    0x00, 0xaa, 0x01, 0x00, 0x00, 0x00, 0x00, 0x00, 0x00, //
    0x01, 0x14, 0x00, 0x00, 0x00, 0x01, 0x02, 0x00, 0x00, 0x00, 0x00, 0x01, 0x02, 0x00, 0x00, 0x00,
    0x00, 0xaa, 0x02, 0x01, 0x00, 0x31, 0x04, 0x0a, 0x00,
];

/// The place of half A.
const HALF_A: usize = 64;

// No clause says what it holds: a proof would go through two million bytes.
fn zeros(alloc: Global) -> Result<Vec<u8>, AllocError> {
    vec![in alloc; 0u8; DEVICE_LENGTH as usize]
}

/// What a device holds at first.
#[derive(Clone, Copy, PartialEq, Eq)]
pub enum Image {
    /// Zeros.
    Blank,
    /// A store with stations at two radios.
    Stations,
    /// A store of version 1 with one station.
    Old,
}

fn blank_disk(alloc: Global) -> Result<MemDisk, AllocError> {
    MemDisk::new(alloc, zeros(alloc)?)
}

/// Adds zeros up to a length, which no proof meets here.
fn pad(bytes: &mut Vec<u8>, length: usize) -> Result<(), AllocError> {
    bytes.resize(length, 0)
}

fn add(bytes: &mut Vec<u8>, more: &[u8]) -> Result<(), AllocError> {
    bytes.extend_from_slice(more)
}

/// Adds a mark, and half A up to its epoch.
fn add_front(bytes: &mut Vec<u8>, mark: &[u8]) -> Result<(), AllocError> {
    add(bytes, mark)?;
    pad(bytes, HALF_A)?;
    add(bytes, &[1, 1, 0, 0, 0, 0, 0, 0, 0])
}

/// Adds the snapshot of half A, and its length in front of it.
fn add_snapshot(bytes: &mut Vec<u8>, snapshot: &[u8]) -> Result<(), AllocError> {
    let length = u32::try_from(snapshot.len()).unwrap_or(0);
    add(bytes, &length.to_le_bytes())?;
    add(bytes, snapshot)
}

/// Adds what a device has that begins so.
fn add_store(
    bytes: &mut Vec<u8>,
    mark: &[u8],
    snapshot: &[u8],
    groups: &[u8],
) -> Result<(), AllocError> {
    add_front(bytes, mark)?;
    add_snapshot(bytes, snapshot)?;
    add(bytes, groups)?;
    pad(bytes, DEVICE_LENGTH as usize)
}

/// A device that begins with a mark, and whose half A, open and of epoch 1, has a snapshot of these records, and these
/// groups behind it.
fn disk_of(
    alloc: Global,
    mark: &[u8],
    snapshot: &[u8],
    groups: &[u8],
) -> Result<MemDisk, AllocError> {
    let mut bytes = Vec::with_capacity(alloc, DEVICE_LENGTH as usize)?;
    match add_store(&mut bytes, mark, snapshot, groups) {
        Ok(()) => MemDisk::new(alloc, bytes),
        Err(error) => Err(error),
    }
}

/// A device that holds this.
pub fn disk_with(alloc: Global, image: Image) -> Result<MemDisk, AllocError> {
    match image {
        Image::Blank => blank_disk(alloc),
        Image::Stations => disk_of(alloc, b"RAPSTOR2", SNAPSHOT, &[]),
        Image::Old => disk_of(alloc, b"RAPSTOR1", &[], OLD_GROUPS),
    }
}
