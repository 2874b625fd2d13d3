//! A radio that fails after some calls.
use crate::expect::expect;
use crate::radio_calls::{Answer, Asked, Row, goes_through, receives};
use crate::slot_samples::replaying;
use apd_radio::{Failing, Radio, RadioFault, Recording, Sim};
use std::alloc::Global;
use std::process::Abort;

const DEVICE: Answer = Err(RadioFault::Device);

const BEHIND_THREE: &[Row] = &[
    (Asked::Install(7), Ok(()), Some(7), 0),
    (Asked::Transmit(b"\x01"), Ok(()), Some(7), 0),
    (Asked::Install(8), Ok(()), Some(8), 0),
    (Asked::Install(9), DEVICE, Some(8), 1),
    (Asked::Remove, DEVICE, Some(8), 2),
    (Asked::Transmit(b"\x01"), DEVICE, Some(8), 3),
    (Asked::TakeDown, Ok(()), None, 3),
];

#[test]
fn each_call_behind_the_last_one_fails(rt: HostRuntime) {
    let mut radio = Failing::new(Sim::new(rt.alloc()), 3);
    goes_through(&rt, &mut radio, BEHIND_THREE);
}

#[test]
fn a_removal_is_a_call(rt: HostRuntime) {
    let alloc = rt.alloc();
    let mut radio = Failing::new(Sim::new(alloc), 1);
    let rows = [
        (Asked::Remove, Ok(()), None, 0),
        (Asked::Remove, DEVICE, None, 1),
    ];
    goes_through(&rt, &mut radio, &rows);
}

const TWO_SENT: &[Row] = &[
    (Asked::Transmit(b""), Ok(()), None, 0),
    (Asked::Transmit(b""), DEVICE, None, 1),
];

/// Polls before, between and behind two transmissions, of which the second fails.
fn receives_all_the_same<R: Radio>(rt: &impl Abort, radio: &mut R) {
    receives(rt, radio, Some(b"\x01"));
    goes_through(rt, radio, TWO_SENT);
    receives(rt, radio, Some(b"\x02"));
    receives(rt, radio, None);
    expect(rt, radio.failures(), 1);
}

#[test]
fn it_receives_whether_or_not_it_fails(rt: HostRuntime) {
    let inner = replaying(&rt, rt.alloc(), b"rx 01\nrx 02\n");
    receives_all_the_same(&rt, &mut Failing::new(inner, 1));
}

#[test]
fn its_count_begins_at_that_of_the_radio_inside(rt: HostRuntime) {
    let alloc = rt.alloc();
    let mut inner = Failing::new(Sim::new(alloc), 0);
    goes_through(&rt, &mut inner, &[(Asked::Install(1), DEVICE, None, 1)]);
    let mut radio = Failing::new(inner, 1);
    expect(&rt, radio.failures(), 1);
    let rows = [
        (Asked::Install(1), DEVICE, None, 2),
        (Asked::Install(1), DEVICE, None, 3),
    ];
    goes_through(&rt, &mut radio, &rows);
}

const BEHIND_TWO: &[Row] = &[
    (Asked::Transmit(b"\x01"), Ok(()), None, 0),
    (Asked::Install(7), Ok(()), Some(7), 0),
    (Asked::Transmit(b"\x02"), DEVICE, Some(7), 1),
    (Asked::Remove, DEVICE, Some(7), 2),
    (Asked::TakeDown, Ok(()), None, 2),
];

/// Two calls that are recorded, and two that fail.
fn record_calls(rt: &impl Abort, alloc: Global, written: &mut Vec<u8>) {
    let inner = Recording::new(alloc, Sim::new(alloc), written);
    let mut radio = Failing::new(inner, 2);
    goes_through(rt, &mut radio, BEHIND_TWO);
}

#[test]
fn what_it_passes_on_comes_to_the_radio_inside(rt: HostRuntime) {
    let alloc = rt.alloc();
    let mut written: Vec<u8> = Vec::new(alloc);
    record_calls(&rt, alloc, &mut written);
    // Three times: by the call, where it is dropped, and where the recording inside is.
    let lines = b"tx 01\ninstall 02:00:00:00:00:aa 7\ndown\ndown\ndown\n";
    expect(&rt, written.as_slice(), lines.as_slice());
}
