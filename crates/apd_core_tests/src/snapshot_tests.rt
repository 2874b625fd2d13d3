//! Snapshots: the greatest, and one of changes in another order.
use crate::expect::expect;
use crate::halves::{
    HALF, HALF_B, RADIO, add_group, device, flusher_of, front_of, full, load_and_turn, pad,
    recover_store,
};
use apd_base::{Addr, Sequence};
use apd_disk::Disk;
use apd_journal::Batch;
use apd_record::Change;
use apd_table::MAX_SNAPSHOT;
use std::alloc::Global;

/// The record by which the first station of the first radio goes.
const GOING: &[u8] = &[2, 2, 0, 0, 0, 0, 1, 2, 1, 0, 1, 0, 1];

/// One by which nothing changes.
const NOTHING: &[u8] = &[2, 2, 0, 0, 0, 0, 1, 2, 1, 0, 0, 0, 0];

// The batch by which the station goes.
fn going(alloc: Global) -> Option<Batch> {
    let mut changes = Sequence::new(alloc);
    let change = Change::Drop {
        bssid: RADIO,
        addr: Addr([2, 1, 0, 1, 0, 1]),
    };
    changes.push(change).ok()?;
    Some(Batch {
        first: 1,
        last: 1,
        changes,
    })
}

// The device behind a switch and a commit by which the station goes.
fn switch<D: Disk>(alloc: Global, disk: D) -> Option<D>
where
    D: Drop,
{
    let batch = going(alloc)?;
    let (store, table) = recover_store(alloc, disk)?;
    let mut flusher = flusher_of(alloc, store, table)?;
    let turned = load_and_turn(&mut flusher, batch, 8);
    turned.and(Some(flusher.into_device()))
}

// Half B that begins with this snapshot, and has the group by which the station goes.
fn half_of(alloc: Global, snapshot: &[u8]) -> Option<Vec<u8>> {
    let mut half = front_of(alloc, 2, snapshot)?;
    add_group(&mut half, GOING)?;
    pad(&mut half, HALF)?;
    Some(half)
}

// Whether a switch from a half with one snapshot begins one with the other, and how many stations are left.
fn begins(alloc: Global, snapshot: &[u8], canonical: &[u8]) -> Option<(bool, usize)> {
    let old = full(alloc, 1, snapshot, &[], NOTHING)?;
    let disk = switch(alloc, device(alloc, &old, &[])?)?;
    let new = half_of(alloc, canonical)?;
    let begins = disk.bytes().get(HALF_B..)? == new.as_slice();
    let (store, table) = recover_store(alloc, disk)?;
    drop(store);
    let rows = table.rows();
    drop(table);
    Some((begins, rows))
}

fn add_address(records: &mut Vec<u8>, radio: u8, which: u8, number: u16) -> Option<()> {
    let [high, low] = number.to_be_bytes();
    let record = [3, 2, 0, 0, 0, 0, radio, which, 2, 2, 0, 0, high, low];
    records.extend_from_slice(&record).ok()
}

fn add_station(records: &mut Vec<u8>, radio: u8, aid: u16) -> Option<()> {
    let [high, low] = aid.to_be_bytes();
    let record = [
        1, 2, 0, 0, 0, 0, radio, 2, 1, 0, radio, high, low, 2, low, high, 0x31, 4, 10, 0,
    ];
    records.extend_from_slice(&record).ok()
}

// The records of the greatest table: eight radios, each with two full lists and all its identifiers given, the
// last one last, to stations of its own.
fn greatest(alloc: Global) -> Option<Vec<u8>> {
    let mut records = Vec::new(alloc);
    for radio in 1..=8 {
        let policy = [6, 2, 0, 0, 0, 0, radio, 0, 0xd7, 7];
        records.extend_from_slice(&policy).ok()?;
    }
    for radio in 1..=8 {
        let cursor = [7, 2, 0, 0, 0, 0, radio, 0xd7, 7];
        records.extend_from_slice(&cursor).ok()?;
    }
    for radio in 1..=8 {
        for number in 0..2048 {
            let which = if number < 1024 { 0 } else { 1 };
            add_address(&mut records, radio, which, number)?;
        }
    }
    for radio in 1..=8 {
        for aid in 1..=2007 {
            add_station(&mut records, radio, aid)?;
        }
    }
    Some(records)
}

// How many bytes its snapshot has, and what a switch makes of it.
fn greatest_switch(alloc: Global) -> Option<(usize, (bool, usize))> {
    let records = greatest(alloc)?;
    Some((records.len(), begins(alloc, &records, &records)?))
}

#[test]
fn the_greatest_table(rt: HostRuntime) {
    expect(&rt, MAX_SNAPSHOT, 550_648);
    let switch = greatest_switch(rt.alloc());
    expect(&rt, switch, Some((MAX_SNAPSHOT, (true, 16_055))));
}

const ANY_ORDER: &[u8] = &[
    6, 2, 0, 0, 0, 0, 2, 1, 5, 0, // the policy of the second radio
    7, 2, 0, 0, 0, 0, 2, 3, 0, // it gave 3 last
    6, 2, 0, 0, 0, 0, 1, 1, 1, 0, // the policy of the first radio
    7, 2, 0, 0, 0, 0, 1, 4, 0, // it gave 4 last
    6, 2, 0, 0, 0, 0, 3, 0, 5, 0, // the policy of the third radio
    7, 2, 0, 0, 0, 0, 3, 6, 0, // it gave 6 last
    7, 2, 0, 0, 0, 0, 3, 0, 0, // none yet
    7, 2, 0, 0, 0, 0, 1, 5, 0, // the first radio gave 5 last
    3, 2, 0, 0, 0, 0, 1, 1, 2, 2, 0, 0, 0, 9, // denied: 9
    3, 2, 0, 0, 0, 0, 1, 1, 2, 2, 0, 0, 0, 8, // 8
    3, 2, 0, 0, 0, 0, 1, 0, 2, 2, 0, 0, 0, 7, // accepted: 7
    3, 2, 0, 0, 0, 0, 1, 0, 2, 2, 0, 0, 0, 6, // 6
    4, 2, 0, 0, 0, 0, 1, 0, 2, 2, 0, 0, 0, 7, // 7 no more
    6, 2, 0, 0, 0, 0, 1, 0, 0xd7, 7, // the first radio's policy again
    1, 2, 0, 0, 0, 0, 1, 2, 1, 0, 1, 0, 2, 1, 0, 0, 0, 0, 0, 0, // its station 2
    1, 2, 0, 0, 0, 0, 1, 2, 1, 0, 1, 0, 1, 1, 0, 0, 0, 0, 0, 0, // 1
    1, 2, 0, 0, 0, 0, 1, 2, 1, 0, 1, 0, 2, 2, 5, 0, 0x31, 4, 10, 0, // 2 is associated
    1, 2, 0, 0, 0, 0, 1, 2, 1, 0, 1, 0, 3, 1, 0, 0, 0, 0, 0, 0, // 3
    2, 2, 0, 0, 0, 0, 1, 2, 1, 0, 1, 0, 3, // 3 goes
];

const CANONICAL: &[u8] = &[
    6, 2, 0, 0, 0, 0, 1, 0, 0xd7, 7, // policies
    6, 2, 0, 0, 0, 0, 2, 1, 5, 0, //
    6, 2, 0, 0, 0, 0, 3, 0, 5, 0, //
    7, 2, 0, 0, 0, 0, 1, 5, 0, // cursors
    7, 2, 0, 0, 0, 0, 2, 3, 0, //
    3, 2, 0, 0, 0, 0, 1, 0, 2, 2, 0, 0, 0, 6, // lists
    3, 2, 0, 0, 0, 0, 1, 1, 2, 2, 0, 0, 0, 8, //
    3, 2, 0, 0, 0, 0, 1, 1, 2, 2, 0, 0, 0, 9, //
    1, 2, 0, 0, 0, 0, 1, 2, 1, 0, 1, 0, 1, 1, 0, 0, 0, 0, 0, 0, // stations
    1, 2, 0, 0, 0, 0, 1, 2, 1, 0, 1, 0, 2, 2, 5, 0, 0x31, 4, 10, 0, //
];

#[test]
fn a_snapshot_in_another_order(rt: HostRuntime) {
    let begins = begins(rt.alloc(), ANY_ORDER, CANONICAL);
    expect(&rt, begins, Some((true, 1)));
}
