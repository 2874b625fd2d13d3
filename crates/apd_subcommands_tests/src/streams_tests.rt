use crate::expect::{expect, hold};
use apd_subcommands::hold_closed_streams;
use std::fs::File;
use std::os::fd::AsRawFd;
use std::process::Abort;

// Expects each of these files at one of the places of the standard streams.
fn expect_standard(rt: &impl Abort, files: &[File]) {
    for file in files {
        hold(rt, file.as_raw_fd() <= 2);
    }
}

#[test]
fn streams_that_are_open_are_left_alone(rt: HostRuntime) {
    let held = hold_closed_streams(&rt).expect(&rt, "/dev/null");
    // What a test's own streams were like isn't known; now they are open.
    expect_standard(&rt, &held);
    let none = hold_closed_streams(&rt).expect(&rt, "/dev/null");
    expect(&rt, none.len(), 0);
}
