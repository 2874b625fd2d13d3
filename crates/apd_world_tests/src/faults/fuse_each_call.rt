//! Each device call of a session is the last one, in turn: it is passed on, and answered as failed. Then the device
//! stops, and each byte that no sync has made durable is as it was, as it was written, or another one.
use crate::expect::expect;
use crate::faults::cases::{Row, Way, otherwise};
use crate::faults::sessions::Session;
use apd_disk::Torn;
use std::process::Abort;

/// Three commits of four calls: of the radio's policy, of the station's authentication, and of its association. By each
/// fourth call a batch is durable. The third one writes its gate, which is open as 1 alone, and which no sync has made
/// durable. The tables are the empty one, 0, and those after so many commits.
const IN_COMMITS: [Row; 13] = [
    // calls, the number spoken, the outs given; the tables where bytes are as they were, as written, 01, 7f
    (0, 0, 0, &[0, 0, 0, 0]),
    (1, 0, 0, &[0, 0, 0, 0]),
    (2, 0, 0, &[0, 1, 1, 0]),
    (3, 0, 0, &[1, 1, 1, 1]),
    (4, 1, 0, &[1, 1, 1, 1]),
    (5, 1, 0, &[1, 1, 1, 1]),
    (6, 1, 0, &[1, 2, 2, 1]),
    (7, 1, 0, &[2, 2, 2, 2]),
    (8, 2, 1, &[2, 2, 2, 2]),
    (9, 2, 1, &[2, 2, 2, 2]),
    (10, 2, 1, &[2, 3, 3, 2]),
    (11, 2, 1, &[3, 3, 3, 3]),
    (12, 3, 3, &[3, 3, 3, 3]),
];

/// One commit on a full store. Six calls close the other half, lay it down and open it, which changes nothing that is
/// shown; and four commit the station's association there. The table before is 2.
const IN_A_SWITCH: [Row; 11] = [
    // calls, the number spoken, the outs given; the tables where bytes are as they were, as written, 01, 7f, ff
    (0, 0, 0, &[2, 2, 2, 2, 2]),
    (1, 0, 0, &[2, 2, 2, 2, 2]),
    (2, 0, 0, &[2, 2, 2, 2, 2]),
    (3, 0, 0, &[2, 2, 2, 2, 2]),
    (4, 0, 0, &[2, 2, 2, 2, 2]),
    (5, 0, 0, &[2, 2, 2, 2, 2]),
    (6, 0, 0, &[2, 2, 2, 2, 2]),
    (7, 0, 0, &[2, 2, 2, 2, 2]),
    (8, 0, 0, &[2, 3, 3, 2, 2]),
    (9, 0, 0, &[3, 3, 3, 3, 3]),
    (10, 1, 2, &[3, 3, 3, 3, 3]),
];

/// Ends the test where a row does not hold in this column.
fn in_commits(rt: &(impl Abort + AllocGlobal), torn: Torn, column: usize) {
    let (session, way) = (Session::ThreeCommits, Way::Fuse(torn));
    expect(
        rt,
        otherwise(rt.alloc(), session, way, &IN_COMMITS, column),
        None,
    );
}

/// The same of these rows of the other session.
fn in_rows(rt: &(impl Abort + AllocGlobal), rows: &[Row], torn: Torn, column: usize) {
    let (session, way) = (Session::OneSwitch, Way::Fuse(torn));
    expect(rt, otherwise(rt.alloc(), session, way, rows, column), None);
}

/// The same of the first six rows, and of the others.
fn in_a_switch(rt: &(impl Abort + AllocGlobal), torn: Torn, column: usize) {
    let (rows, _) = IN_A_SWITCH.split_at(6);
    in_rows(rt, rows, torn, column);
}

fn behind_a_switch(rt: &(impl Abort + AllocGlobal), torn: Torn, column: usize) {
    let (_, rows) = IN_A_SWITCH.split_at(6);
    in_rows(rt, rows, torn, column);
}

#[test]
fn in_commits_bytes_are_as_they_were(rt: HostRuntime) {
    in_commits(&rt, Torn::Old, 0);
}

#[test]
fn in_commits_bytes_are_as_written(rt: HostRuntime) {
    in_commits(&rt, Torn::New, 1);
}

#[test]
fn in_commits_bytes_are_01(rt: HostRuntime) {
    in_commits(&rt, Torn::Byte(0x01), 2);
}

#[test]
fn in_commits_bytes_are_7f(rt: HostRuntime) {
    in_commits(&rt, Torn::Byte(0x7f), 3);
}

#[test]
fn in_a_switch_bytes_are_as_they_were(rt: HostRuntime) {
    in_a_switch(&rt, Torn::Old, 0);
}

#[test]
fn in_a_switch_bytes_are_as_written(rt: HostRuntime) {
    in_a_switch(&rt, Torn::New, 1);
}

#[test]
fn in_a_switch_bytes_are_01(rt: HostRuntime) {
    in_a_switch(&rt, Torn::Byte(0x01), 2);
}

#[test]
fn in_a_switch_bytes_are_7f(rt: HostRuntime) {
    in_a_switch(&rt, Torn::Byte(0x7f), 3);
}

#[test]
fn in_a_switch_bytes_are_ff(rt: HostRuntime) {
    in_a_switch(&rt, Torn::Byte(0xff), 4);
}

#[test]
fn behind_a_switch_bytes_are_as_they_were(rt: HostRuntime) {
    behind_a_switch(&rt, Torn::Old, 0);
}

#[test]
fn behind_a_switch_bytes_are_as_written(rt: HostRuntime) {
    behind_a_switch(&rt, Torn::New, 1);
}

#[test]
fn behind_a_switch_bytes_are_01(rt: HostRuntime) {
    behind_a_switch(&rt, Torn::Byte(0x01), 2);
}

#[test]
fn behind_a_switch_bytes_are_7f(rt: HostRuntime) {
    behind_a_switch(&rt, Torn::Byte(0x7f), 3);
}

#[test]
fn behind_a_switch_bytes_are_ff(rt: HostRuntime) {
    behind_a_switch(&rt, Torn::Byte(0xff), 4);
}
