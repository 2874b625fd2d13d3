//! Association identifiers go round: which one a BSSID gives next, by the one that it gave last. The numbers
//! here are those of the rule, worked out by hand.
use crate::calls::{
    address, associated, cursor_of, next_free, policy_of, refuses, table_of, takes,
};
use crate::expect::expect;
use apd_base::{AclMode, Addr, Bssid};
use apd_record::Change;
use apd_table::Table;
use std::alloc::Global;
use std::process::Abort;

const BSSID: Bssid = Bssid(Addr([2, 0, 0, 0, 0, 1]));

const OTHER: Bssid = Bssid(Addr([2, 0, 0, 0, 0, 2]));

fn open(rt: &impl Abort, alloc: Global) -> Table {
    table_of(rt, alloc, &[policy_of(BSSID, AclMode::AcceptUnlessDenied)])
}

fn point(rt: &impl Abort, table: &mut Table, number: u16) {
    takes(rt, table, &[cursor_of(rt, BSSID, number)]);
}

// Associates the station of a number under it.
fn associate(rt: &impl Abort, table: &mut Table, number: u16) {
    let put = Change::Put {
        bssid: BSSID,
        addr: address(1, number),
        station: associated(rt, number, 0x431, 10),
    };
    takes(rt, table, &[put]);
}

// The numbers that are given one after another: each to a station, and the table goes on to it.
fn gives(rt: &impl Abort, table: &mut Table, numbers: &[u16]) {
    for number in numbers {
        expect(rt, next_free(table, BSSID), Some(*number));
        associate(rt, table, *number);
        point(rt, table, *number);
    }
}

// The number that is given next once one was given last, row by row.
fn goes_on(rt: &impl Abort, table: &mut Table, rows: &[(u16, u16)]) {
    for (last, next) in rows {
        point(rt, table, *last);
        expect(rt, (*last, next_free(table, BSSID)), (*last, Some(*next)));
    }
}

// Associates stations under all numbers but 1 and 5.
fn associate_all_but_two(rt: &impl Abort, table: &mut Table) {
    for number in 1..=2007 {
        if number != 1 && number != 5 {
            associate(rt, table, number);
        }
    }
}

#[test]
fn behind_2007_come_the_free_ones_from_1_on(rt: HostRuntime) {
    let mut table = open(&rt, rt.alloc());
    associate_all_but_two(&rt, &mut table);
    point(&rt, &mut table, 2007);
    gives(&rt, &mut table, &[1, 5]);
    expect(&rt, next_free(&table, BSSID), None);
}

#[test]
fn behind_2006_comes_2007_and_then_1(rt: HostRuntime) {
    let mut table = open(&rt, rt.alloc());
    point(&rt, &mut table, 2006);
    gives(&rt, &mut table, &[2007, 1, 2]);
}

#[test]
fn one_that_was_left_waits_for_the_others(rt: HostRuntime) {
    let mut table = open(&rt, rt.alloc());
    gives(&rt, &mut table, &[1, 2]);
    let left = Change::Drop {
        bssid: BSSID,
        addr: address(1, 1),
    };
    takes(&rt, &mut table, &[left]);
    gives(&rt, &mut table, &[3]);
    expect(&rt, table.least_free(BSSID), Some(1));
}

#[test]
fn no_number_is_passed_at_a_words_end(rt: HostRuntime) {
    let mut table = open(&rt, rt.alloc());
    let rows = [
        (62, 63),
        (63, 64),
        (64, 65),
        (65, 66),
        (127, 128),
        (2007, 1),
    ];
    goes_on(&rt, &mut table, &rows);
}

#[test]
fn taken_ones_are_passed_at_a_words_end(rt: HostRuntime) {
    let mut table = open(&rt, rt.alloc());
    for number in [1, 63, 64, 65, 66, 128] {
        associate(&rt, &mut table, number);
    }
    let rows = [
        (62, 67),
        (63, 67),
        (64, 67),
        (65, 67),
        (127, 129),
        (2007, 2),
    ];
    goes_on(&rt, &mut table, &rows);
}

#[test]
fn a_whole_word_is_passed(rt: HostRuntime) {
    let mut table = open(&rt, rt.alloc());
    for number in 64..=127 {
        associate(&rt, &mut table, number);
    }
    let rows = [(62, 63), (63, 128), (64, 128), (127, 128), (2007, 1)];
    goes_on(&rt, &mut table, &rows);
}

#[test]
fn a_cursor_needs_a_policy(rt: HostRuntime) {
    let mut table = open(&rt, rt.alloc());
    for number in [0, 1, 2007] {
        refuses(&rt, &mut table, &[cursor_of(&rt, OTHER, number)]);
    }
    expect(&rt, next_free(&table, OTHER), Some(1));
}

// A snapshot of the table has these changes.
fn expect_snapshot(rt: &impl Abort, alloc: Global, table: &Table, wanted: &[Change]) {
    let snapshot = table.snapshot(alloc).expect(rt, "memory");
    expect(rt, snapshot.as_slice(), wanted);
}

#[test]
fn a_second_policy_leaves_the_cursor(rt: HostRuntime) {
    let mut table = open(&rt, rt.alloc());
    goes_on(&rt, &mut table, &[(40, 41)]);
    let closed = policy_of(BSSID, AclMode::DenyUnlessAccepted);
    takes(&rt, &mut table, &[closed]);
    expect(&rt, next_free(&table, BSSID), Some(41));
    let wanted = [closed, cursor_of(&rt, BSSID, 40)];
    expect_snapshot(&rt, rt.alloc(), &table, &wanted);
}

#[test]
fn a_snapshot_has_no_cursor_of_0(rt: HostRuntime) {
    let mut table = open(&rt, rt.alloc());
    goes_on(&rt, &mut table, &[(40, 41), (0, 1)]);
    let open = policy_of(BSSID, AclMode::AcceptUnlessDenied);
    expect_snapshot(&rt, rt.alloc(), &table, &[open]);
}
