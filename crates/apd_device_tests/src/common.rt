//! What several tests of stores and of what stands on them use. What a test builds on has to be made: where it isn't,
//! the test ends there.
use apd_base::{AclMode, Addr, Aid, Association, Bssid, Policy, Sequence, Station, StationNumber};
use apd_disk::{Call, Disk, MemDisk};
use apd_journal::Batch;
use apd_record::Change;
use apd_store::{Store, StoreFault, format, recover};
use apd_table::Table;
use std::alloc::Global;
use std::process::Abort;

pub(crate) const BSSID: Bssid = Bssid(Addr([2, 0, 0, 0, 0, 1]));

pub(crate) const STATION: Addr = Addr([2, 0, 0, 0, 0, 0xaa]);

pub(crate) const LENGTH: usize = 2_097_216;

// Half A from its first byte on, after a policy and an authenticated station.
pub(crate) const TWO_GROUPS: &[u8] = &[
    1, 1, 0, 0, 0, 0, 0, 0, 0, 0, 0, 0, 0, // the gate, the epoch and the snapshot
    1, 10, 0, 0, 0, 6, 2, 0, 0, 0, 0, 1, 0, 0xd7, 7, // at 77
    1, 20, 0, 0, 0, 1, 2, 0, 0, 0, 0, 1, 2, 0, 0, 0, 0, 0xaa, 1, 0, 0, 0, 0, 0, 0, // at 92
    0, // at 117
];

// A disk whose bytes are all this one. No clause says what it holds: a proof would go through two million bytes.
pub(crate) fn disk_of_byte(rt: &impl Abort, alloc: Global, byte: u8, size: usize) -> MemDisk {
    let bytes = vec![in alloc; byte; size].expect(rt, "memory");
    MemDisk::new(alloc, bytes).expect(rt, "memory")
}

pub(crate) fn blank_disk(rt: &impl Abort, alloc: Global, size: usize) -> MemDisk {
    disk_of_byte(rt, alloc, 0, size)
}

// Writes bytes, which have to lie inside the disk.
pub(crate) fn write_inside<D: Disk>(rt: &impl Abort, disk: &mut D, at: usize, bytes: &[u8]) {
    let length = disk.len();
    assert!(rt; at <= length);
    assert!(rt; bytes.len() <= length - at);
    disk.write_at(at, bytes).expect(rt, "a write");
}

// The same, and syncs them.
pub(crate) fn write_bytes<D: Disk>(rt: &impl Abort, disk: &mut D, at: usize, bytes: &[u8]) {
    write_inside(rt, disk, at, bytes);
    disk.sync().expect(rt, "a sync");
}

// The store of a device that is formatted.
pub(crate) fn format_store<D: Disk>(rt: &impl Abort, alloc: Global, disk: D) -> Store<D>
where
    D: Drop,
{
    format(alloc, disk).ok().expect(rt, "a format")
}

pub(crate) fn policy(rt: &impl Abort) -> Change {
    let max = StationNumber::new(2007).expect(rt, "a limit");
    let mode = AclMode::AcceptUnlessDenied;
    Change::Policy {
        bssid: BSSID,
        policy: Policy { mode, max },
    }
}

pub(crate) fn put(station: Station) -> Change {
    Change::Put {
        bssid: BSSID,
        addr: STATION,
        station,
    }
}

// The station's association, under the identifier 1.
pub(crate) fn association(rt: &impl Abort) -> Station {
    Station::Associated(Association {
        aid: Aid::new(1).expect(rt, "an identifier"),
        capability: 0x0431,
        listen_interval: 10,
    })
}

pub(crate) fn batch_of(rt: &impl Abort, alloc: Global, number: u64, change: Change) -> Batch {
    let mut changes = Sequence::new(alloc);
    changes.push(change).expect(rt, "memory");
    Batch {
        first: number,
        last: number,
        changes,
    }
}

// A call by its place and how many bytes it reads or writes.
#[derive(Clone, Copy, Debug, PartialEq, Eq)]
pub(crate) enum Made {
    Read(usize, usize),
    Write(usize, usize),
    Sync,
}

fn shape_of(call: &Call) -> Made {
    match call {
        Call::Read(at, length) => Made::Read(*at, *length),
        Call::Write(at, bytes) => Made::Write(*at, bytes.len()),
        Call::Sync => Made::Sync,
    }
}

// The calls that a disk has served behind this many.
pub(crate) fn calls_after(
    rt: &impl Abort,
    alloc: Global,
    disk: &MemDisk,
    calls: usize,
) -> Vec<Made> {
    let mut all = Vec::new(alloc);
    for call in disk.calls().iter().skip(calls) {
        all.push(shape_of(call)).expect(rt, "memory");
    }
    all
}

// The table that a device shows, or why there is none.
pub(crate) fn table_of<D: Disk>(alloc: Global, disk: D) -> Result<Table, StoreFault>
where
    D: Drop,
{
    match recover(alloc, disk) {
        Ok((_store, table)) => Ok(table),
        Err((_disk, fault)) => Err(fault),
    }
}

// What the table of a device says of the station's BSSID and of the station, or why there is none.
pub(crate) type Seen = Result<(Option<(u8, u16)>, Option<Station>), StoreFault>;

pub(crate) fn look<D: Disk>(alloc: Global, disk: D) -> Seen
where
    D: Drop,
{
    let table = table_of(alloc, disk)?;
    Ok((table.policy(BSSID), table.get(BSSID, STATION)))
}
