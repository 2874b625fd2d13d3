//! A switch that is stopped.
use crate::expect::expect;
use crate::halves::{both_open, one_open, show, switching};
use apd_disk::{MemDisk, Torn};
use std::alloc::Global;

// The device after a stop in the last of so many calls of the station's association.
fn stop(alloc: Global, disk: Option<MemDisk>, calls: u64, torn: Torn) -> Option<MemDisk> {
    Some(switching(alloc, disk?, calls)?.crash(torn))
}

// Four calls lay the other half down, and four more the group.
#[test]
fn a_switch_of_four_calls(rt: HostRuntime) {
    let alloc = rt.alloc();
    for calls in 1..=4 {
        for torn in [Torn::Old, Torn::New, Torn::Byte(1), Torn::Byte(0x7f)] {
            let found = show(alloc, stop(alloc, one_open(alloc), calls, torn));
            expect(&rt, (calls, torn, found), (calls, torn, "before"));
        }
    }
}

#[test]
fn the_group_behind_a_switch(rt: HostRuntime) {
    let alloc = rt.alloc();
    for (calls, torn, is) in [
        (5, Torn::New, "before"),
        (6, Torn::New, "before"),
        (7, Torn::Old, "before"),
        (7, Torn::Byte(0x7f), "before"),
        (7, Torn::Byte(1), "after"),
        (7, Torn::New, "after"),
        (8, Torn::Byte(0x7f), "after"),
    ] {
        let found = show(alloc, stop(alloc, one_open(alloc), calls, torn));
        expect(&rt, (calls, torn, found), (calls, torn, is));
    }
}

// The open gate of the other half is closed first.
#[test]
fn a_switch_of_six_calls(rt: HostRuntime) {
    let alloc = rt.alloc();
    for (calls, torn) in [
        (1, Torn::Byte(1)),
        (1, Torn::Old),
        (2, Torn::New),
        (3, Torn::Byte(0xff)),
        (3, Torn::Byte(1)),
        (4, Torn::Old),
        (5, Torn::Old),
        (5, Torn::Byte(1)),
        (6, Torn::New),
        (8, Torn::Byte(1)),
        (9, Torn::Byte(0x7f)),
    ] {
        let found = show(alloc, stop(alloc, both_open(alloc), calls, torn));
        expect(&rt, (calls, torn, found), (calls, torn, "before"));
    }
}

// What is shown after a stop in a switch over what another one left, which was stopped in its third call.
fn show_over(alloc: Global, calls: u64, torn: Torn) -> &'static str {
    let left = stop(alloc, both_open(alloc), 3, Torn::Byte(0xff));
    show(alloc, stop(alloc, left, calls, torn))
}

// Stopped in its third call a switch leaves any bytes behind the closed gate: the next one has four calls. It is
// stopped in each, and in each of the four calls of its group.
#[test]
fn a_switch_over_what_another_left(rt: HostRuntime) {
    let alloc = rt.alloc();
    for calls in 1..=6 {
        for torn in [Torn::Old, Torn::Byte(1), Torn::Byte(0xff)] {
            let found = show_over(alloc, calls, torn);
            expect(&rt, (calls, torn, found), (calls, torn, "before"));
        }
    }
    for (calls, torn, is) in [
        (7, Torn::Byte(0), "before"),
        (7, Torn::Byte(1), "after"),
        (8, Torn::Byte(0), "after"),
    ] {
        let found = show_over(alloc, calls, torn);
        expect(&rt, (calls, torn, found), (calls, torn, is));
    }
}
