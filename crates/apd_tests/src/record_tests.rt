//! The table of records in bytes, and what is no list of records.
use crate::expect::expect;
use apd_base::{AclMode, Addr, Aid, Association, Bssid, Policy, Station, StationNumber, Which};
use apd_record::{Change, read_all, write};
use std::alloc::Global;
use std::process::Abort;

const BSSID: Bssid = Bssid(Addr([2, 0, 0, 0, 0, 1]));

const STATION: Addr = Addr([2, 0, 0, 0, 0, 0xaa]);

// An authenticated row.
const AUTHENTICATED: [u8; 20] = [
    1, 2, 0, 0, 0, 0, 1, 2, 0, 0, 0, 0, 0xaa, 1, 0, 0, 0, 0, 0, 0,
];

// An associated row: identifier 2007, capability 0x0421 and listen interval 10.
const ASSOCIATED: [u8; 20] = [
    1, 2, 0, 0, 0, 0, 1, 2, 0, 0, 0, 0, 0xaa, 2, 0xd7, 7, 0x21, 4, 10, 0,
];

const DROP: [u8; 13] = [2, 2, 0, 0, 0, 0, 1, 2, 0, 0, 0, 0, 0xaa];

const LIST_ADD: [u8; 14] = [3, 2, 0, 0, 0, 0, 1, 0, 2, 0, 0, 0, 0, 0xaa];

const LIST_DEL: [u8; 14] = [4, 2, 0, 0, 0, 0, 1, 1, 2, 0, 0, 0, 0, 0xaa];

const LIST_CLEAR: [u8; 8] = [5, 2, 0, 0, 0, 0, 1, 1];

// Mode 1, and a limit of 2007 stations.
const POLICY: [u8; 10] = [6, 2, 0, 0, 0, 0, 1, 1, 0xd7, 7];

// The identifier that was given last: 2007.
const CURSOR: [u8; 9] = [7, 2, 0, 0, 0, 0, 1, 0xd7, 7];

fn put(station: Station) -> Change {
    Change::Put {
        bssid: BSSID,
        addr: STATION,
        station,
    }
}

fn associated_row(number: u16) -> Option<Change> {
    Some(put(Station::Associated(Association {
        aid: Aid::new(number)?,
        capability: 0x0421,
        listen_interval: 10,
    })))
}

fn policy(count: u16) -> Option<Change> {
    Some(Change::Policy {
        bssid: BSSID,
        policy: Policy {
            mode: AclMode::DenyUnlessAccepted,
            max: StationNumber::new(count)?,
        },
    })
}

fn cursor(number: u16) -> Option<Change> {
    Some(Change::Cursor {
        bssid: BSSID,
        last: StationNumber::new(number)?,
    })
}

fn list_add() -> Change {
    Change::ListAdd {
        bssid: BSSID,
        which: Which::Accept,
        addr: STATION,
    }
}

fn list_del() -> Change {
    Change::ListDel {
        bssid: BSSID,
        which: Which::Deny,
        addr: STATION,
    }
}

fn list_clear() -> Change {
    Change::ListClear {
        bssid: BSSID,
        which: Which::Deny,
    }
}

fn drop_row() -> Change {
    Change::Drop {
        bssid: BSSID,
        addr: STATION,
    }
}

// A change has this record, of this length, and is read from it.
fn expect_record(rt: &impl Abort, alloc: Global, change: Change, record: &[u8]) {
    let bytes = write(alloc, &[change]).expect(rt, "memory");
    expect(rt, bytes.as_slice(), record);
    expect(rt, change.record_length(), record.len());
    let read = read_all(alloc, record).expect(rt, "memory");
    let changes = read.expect(rt, "records");
    expect(rt, changes.as_slice(), [change].as_slice());
}

// Whether bytes are a list of records.
fn is_list(rt: &impl Abort, alloc: Global, bytes: &[u8]) -> bool {
    let read = read_all(alloc, bytes).expect(rt, "memory");
    read.is_some()
}

#[test]
fn the_table_of_records(rt: HostRuntime) {
    for (change, record) in [
        (Some(put(Station::Authenticated)), AUTHENTICATED.as_slice()),
        (associated_row(2007), &ASSOCIATED),
        (Some(drop_row()), &DROP),
        (Some(list_add()), &LIST_ADD),
        (Some(list_del()), &LIST_DEL),
        (Some(list_clear()), &LIST_CLEAR),
        (policy(2007), &POLICY),
        (cursor(2007), &CURSOR),
    ] {
        let change = change.expect(&rt, "an identifier, a limit and a number");
        expect_record(&rt, rt.alloc(), change, record);
    }
    expect(&rt, is_list(&rt, rt.alloc(), &CURSOR[..8]), false);
}

#[test]
fn nothing_is_no_change(rt: HostRuntime) {
    let read = read_all(rt.alloc(), &[]).expect(&rt, "memory");
    let changes = read.expect(&rt, "a list of records");
    expect(&rt, changes.len(), 0);
    let bytes = write(rt.alloc(), &[]).expect(&rt, "memory");
    expect(&rt, bytes.len(), 0);
}

// The bytes are no list of records with this value at this place.
fn expect_no_value(rt: &impl Abort, alloc: Global, record: &[u8], place: usize, value: u8) {
    let mut bytes = Vec::from_slice(alloc, record).expect(rt, "memory");
    if let Some(byte) = bytes.get_mut(place) {
        *byte = value;
    }
    let found = is_list(rt, alloc, &bytes);
    expect(rt, (value, place, found), (value, place, false));
}

#[test]
fn each_unknown_tag(rt: HostRuntime) {
    for tag in [0].into_iter().chain(8..=255) {
        expect_no_value(&rt, rt.alloc(), &AUTHENTICATED, 0, tag);
    }
}

#[test]
fn values_out_of_range(rt: HostRuntime) {
    for (record, place, value) in [
        (AUTHENTICATED.as_slice(), 13, 0),
        (AUTHENTICATED.as_slice(), 13, 3),
        (AUTHENTICATED.as_slice(), 14, 1),
        (AUTHENTICATED.as_slice(), 15, 1),
        (AUTHENTICATED.as_slice(), 16, 1),
        (AUTHENTICATED.as_slice(), 17, 1),
        (AUTHENTICATED.as_slice(), 18, 1),
        (AUTHENTICATED.as_slice(), 19, 1),
        (ASSOCIATED.as_slice(), 13, 1),
        (ASSOCIATED.as_slice(), 14, 0xd8),
        (ASSOCIATED.as_slice(), 15, 8),
        (LIST_ADD.as_slice(), 7, 2),
        (LIST_DEL.as_slice(), 7, 2),
        (LIST_CLEAR.as_slice(), 7, 255),
        (POLICY.as_slice(), 7, 2),
        (POLICY.as_slice(), 8, 0xd8),
        (POLICY.as_slice(), 9, 8),
        (CURSOR.as_slice(), 7, 0xd8),
        (CURSOR.as_slice(), 8, 8),
    ] {
        expect_no_value(&rt, rt.alloc(), record, place, value);
    }
}

#[test]
fn identifier_zero(rt: HostRuntime) {
    let mut bytes = ASSOCIATED;
    bytes[14] = 0;
    bytes[15] = 0;
    expect(&rt, is_list(&rt, rt.alloc(), &bytes), false);
}

// One record of each kind.
fn each_kind(rt: &impl Abort) -> [Change; 7] {
    let limit = policy(0).expect(rt, "0 is a limit");
    let none_given = cursor(0).expect(rt, "0 is a number");
    let row = put(Station::Authenticated);
    let (added, taken, cleared) = (list_add(), list_del(), list_clear());
    [row, drop_row(), added, taken, cleared, limit, none_given]
}

// Where a record ends, the front is a list of records.
fn check_cut(rt: &impl Abort, alloc: Global, bytes: &[u8], end: usize) {
    let ends = [0, 20, 33, 47, 61, 69, 79, 88];
    let front = bytes.get(..end).expect(rt, "a front");
    let is_list = is_list(rt, alloc, front);
    expect(rt, (end, is_list), (end, ends.contains(&end)));
}

#[test]
fn a_list_of_records_that_is_cut_is_refused(rt: HostRuntime) {
    let changes = each_kind(&rt);
    let bytes = write(rt.alloc(), &changes).expect(&rt, "memory");
    expect(&rt, bytes.len(), 88);
    for end in 0..89 {
        check_cut(&rt, rt.alloc(), &bytes, end);
    }
}

#[test]
fn one_bad_record_behind_a_good_one(rt: HostRuntime) {
    let mut bytes = Vec::from_slice(rt.alloc(), &DROP).expect(&rt, "memory");
    bytes.extend_from_slice(&LIST_CLEAR).expect(&rt, "memory");
    expect(&rt, is_list(&rt, rt.alloc(), &bytes), true);
    bytes.push(0).expect(&rt, "memory");
    expect(&rt, is_list(&rt, rt.alloc(), &bytes), false);
}
