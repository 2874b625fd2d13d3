//! Each device call of a session fails once, in turn: it is not passed on, and the device is good again behind it. The
//! flusher stays failed all the same. Then the very device is recovered; or it stops before that.
use crate::expect::expect;
use crate::faults::cases::{Row, Way, otherwise};
use crate::faults::sessions::Session;
use apd_disk::Torn;
use std::process::Abort;

/// The three commits. Where the fourth call of one fails its gate is written, and not synced.
const IN_COMMITS: [Row; 13] = [
    // calls, the number spoken, the outs given; the tables of the device handed back, and where it stops and bytes are
    // as they were, as written, 01, 7f
    (0, 0, 0, &[0, 0, 0, 0, 0]),
    (1, 0, 0, &[0, 0, 0, 0, 0]),
    (2, 0, 0, &[0, 0, 0, 0, 0]),
    (3, 0, 0, &[1, 0, 1, 1, 0]),
    (4, 1, 0, &[1, 1, 1, 1, 1]),
    (5, 1, 0, &[1, 1, 1, 1, 1]),
    (6, 1, 0, &[1, 1, 1, 1, 1]),
    (7, 1, 0, &[2, 1, 2, 2, 1]),
    (8, 2, 1, &[2, 2, 2, 2, 2]),
    (9, 2, 1, &[2, 2, 2, 2, 2]),
    (10, 2, 1, &[2, 2, 2, 2, 2]),
    (11, 2, 1, &[3, 2, 3, 3, 2]),
    (12, 3, 3, &[3, 3, 3, 3, 3]),
];

/// The commit on a full store.
const IN_A_SWITCH: [Row; 11] = [
    // calls, the number spoken, the outs given; the tables of the device handed back, and where it stops and bytes are
    // as they were, as written, 01, 7f, ff
    (0, 0, 0, &[2, 2, 2, 2, 2, 2]),
    (1, 0, 0, &[2, 2, 2, 2, 2, 2]),
    (2, 0, 0, &[2, 2, 2, 2, 2, 2]),
    (3, 0, 0, &[2, 2, 2, 2, 2, 2]),
    (4, 0, 0, &[2, 2, 2, 2, 2, 2]),
    (5, 0, 0, &[2, 2, 2, 2, 2, 2]),
    (6, 0, 0, &[2, 2, 2, 2, 2, 2]),
    (7, 0, 0, &[2, 2, 2, 2, 2, 2]),
    (8, 0, 0, &[2, 2, 2, 2, 2, 2]),
    (9, 0, 0, &[3, 2, 3, 3, 2, 2]),
    (10, 1, 2, &[3, 3, 3, 3, 3, 3]),
];

/// Ends the test where a row does not hold in this column.
fn in_commits(rt: &(impl Abort + AllocGlobal), way: Way, column: usize) {
    let found = otherwise(rt.alloc(), Session::ThreeCommits, way, &IN_COMMITS, column);
    expect(rt, found, None);
}

/// The same of these rows of the other session.
fn in_rows(rt: &(impl Abort + AllocGlobal), rows: &[Row], way: Way, column: usize) {
    expect(
        rt,
        otherwise(rt.alloc(), Session::OneSwitch, way, rows, column),
        None,
    );
}

/// The same of the first six rows, and of the others.
fn in_a_switch(rt: &(impl Abort + AllocGlobal), way: Way, column: usize) {
    let (rows, _) = IN_A_SWITCH.split_at(6);
    in_rows(rt, rows, way, column);
}

fn behind_a_switch(rt: &(impl Abort + AllocGlobal), way: Way, column: usize) {
    let (_, rows) = IN_A_SWITCH.split_at(6);
    in_rows(rt, rows, way, column);
}

#[test]
fn in_commits_it_is_handed_back(rt: HostRuntime) {
    in_commits(&rt, Way::HandedBack, 0);
}

#[test]
fn in_commits_bytes_are_as_they_were(rt: HostRuntime) {
    in_commits(&rt, Way::Once(Torn::Old), 1);
}

#[test]
fn in_commits_bytes_are_as_written(rt: HostRuntime) {
    in_commits(&rt, Way::Once(Torn::New), 2);
}

#[test]
fn in_commits_bytes_are_01(rt: HostRuntime) {
    in_commits(&rt, Way::Once(Torn::Byte(0x01)), 3);
}

#[test]
fn in_commits_bytes_are_7f(rt: HostRuntime) {
    in_commits(&rt, Way::Once(Torn::Byte(0x7f)), 4);
}

#[test]
fn in_a_switch_it_is_handed_back(rt: HostRuntime) {
    in_a_switch(&rt, Way::HandedBack, 0);
}

#[test]
fn in_a_switch_bytes_are_as_they_were(rt: HostRuntime) {
    in_a_switch(&rt, Way::Once(Torn::Old), 1);
}

#[test]
fn in_a_switch_bytes_are_as_written(rt: HostRuntime) {
    in_a_switch(&rt, Way::Once(Torn::New), 2);
}

#[test]
fn in_a_switch_bytes_are_01(rt: HostRuntime) {
    in_a_switch(&rt, Way::Once(Torn::Byte(0x01)), 3);
}

#[test]
fn in_a_switch_bytes_are_7f(rt: HostRuntime) {
    in_a_switch(&rt, Way::Once(Torn::Byte(0x7f)), 4);
}

#[test]
fn in_a_switch_bytes_are_ff(rt: HostRuntime) {
    in_a_switch(&rt, Way::Once(Torn::Byte(0xff)), 5);
}

#[test]
fn behind_a_switch_it_is_handed_back(rt: HostRuntime) {
    behind_a_switch(&rt, Way::HandedBack, 0);
}

#[test]
fn behind_a_switch_bytes_are_as_they_were(rt: HostRuntime) {
    behind_a_switch(&rt, Way::Once(Torn::Old), 1);
}

#[test]
fn behind_a_switch_bytes_are_as_written(rt: HostRuntime) {
    behind_a_switch(&rt, Way::Once(Torn::New), 2);
}

#[test]
fn behind_a_switch_bytes_are_01(rt: HostRuntime) {
    behind_a_switch(&rt, Way::Once(Torn::Byte(0x01)), 3);
}

#[test]
fn behind_a_switch_bytes_are_7f(rt: HostRuntime) {
    behind_a_switch(&rt, Way::Once(Torn::Byte(0x7f)), 4);
}

#[test]
fn behind_a_switch_bytes_are_ff(rt: HostRuntime) {
    behind_a_switch(&rt, Way::Once(Torn::Byte(0xff)), 5);
}
