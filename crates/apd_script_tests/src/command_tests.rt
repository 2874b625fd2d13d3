use crate::expect::expect;
use crate::worlds::new_world;
use apd_base::{Addr, Bssid, Moment};
use apd_core::{Input, QuietReason};
use apd_disk::Disk;
use apd_frame::Reason;
use apd_mlme::Event;
use apd_radio::Radio;
use apd_world::{Reception, Step, Told, World};
use std::process::Abort;

/// The radio of the built-in configuration.
const RADIO: Bssid = Bssid(Addr([2, 0, 0, 0, 0, 1]));

/// A radio that is not configured.
const OTHER: Bssid = Bssid(Addr([2, 0, 0, 0, 0, 2]));

const STATION: Addr = Addr([2, 0, 0, 0, 0, 0xaa]);

/// A command that sends the station away from a radio.
fn kick(bssid: Bssid) -> Event<'static> {
    Event::Kick {
        bssid,
        to: STATION,
        reason: Reason(2),
        deauth: true,
        tag: 7,
    }
}

/// What a world answers to a command.
fn answer_to<D: Disk, R: Radio>(world: &mut World<D, R>, event: Event<'_>) -> Option<Reception> {
    match world.step(&Step::Accept(Input::Order(event), Moment(0))) {
        Told::Accepted(answer) => Some(answer),
        _ => None,
    }
}

/// Expects the answer to a command.
fn expect_answer<D: Disk, R: Radio>(
    rt: &impl Abort,
    world: &mut World<D, R>,
    event: Event<'_>,
    answer: Reception,
) {
    expect(rt, answer_to(world, event), Some(answer));
}

/// Starts a world.
fn start<D: Disk, R: Radio>(rt: &impl Abort, world: &mut World<D, R>) {
    let started = world.start().ok();
    drop(started.expect(rt, "a world that is started"));
}

#[test]
fn a_command_needs_a_radio_that_was_started(rt: HostRuntime) {
    let mut world = new_world(&rt, rt.alloc());
    let silence = Event::Expire {
        bssid: RADIO,
        addr: STATION,
    };
    for (event, reason) in [
        (kick(OTHER), QuietReason::NoInterface),
        (kick(RADIO), QuietReason::NoPolicy),
        (silence, QuietReason::Nothing),
    ] {
        expect_answer(&rt, &mut world, event, Reception::Quiet(reason));
    }
    start(&rt, &mut world);
    expect_answer(&rt, &mut world, kick(RADIO), Reception::Entry(2));
}
