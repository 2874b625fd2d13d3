//! What is left when the input ends: it is committed, and handed out once more.
use crate::expect::expect;
use crate::faulty_radio::Faulty;
use crate::hearing::Hearing;
use crate::serving_tests::{NEVER, Scene, disk, radio, serve_at, serves_on_stage, world};
use crate::short_radio::Short;
use crate::stage::{Stage, StageClock};
use crate::talk::{
    ASSOCIATED, ASSOCIATION, AUTHENTICATED, AUTHENTICATION, CONTROL, Datagram, Line, RADIO, Talk,
    free_ports,
};
use apd_base::{Addr, Bssid, Moment};
use apd_core::Input;
use apd_desk::NoGate;
use apd_disk::{MemDisk, OnceDisk};
use apd_radio::{Radio, UdpSim};
use apd_world::{Step, World};
use log::Log;
use std::alloc::Global;
use std::net::Net;
use std::process::Abort;
use std::sync::Wait;
use std::thread::Threads;
use std::time;

/// How often a radio lacks memory: more often than the last hand-out tries.
const LONG: u32 = 1_200;

/// What is told where memory lacks to the end.
const NOT_HANDED_OUT: &str = "[ERROR apd] out of memory: not all that is durable was answered\n";

#[test]
fn what_is_accepted_at_the_end_is_committed_and_answered(rt: HostRuntime) {
    // Each of three workers asks the clock, and gets its moment when the one that commits has ended.
    const SCENE: Scene<'static> = Scene {
        lines: &[
            Line::Sends(0, RADIO, Datagram::Hex(AUTHENTICATION)),
            Line::Sends(
                1,
                CONTROL,
                Datagram::Text("DENY_ACL ADD_MAC 02:00:00:00:00:ab"),
            ),
            Line::Asked(3),
        ],
        after: &[
            Line::Gets(0, RADIO, Datagram::Hex(AUTHENTICATED)),
            Line::Gets(1, CONTROL, Datagram::Text("OK\n")),
        ],
        entries: 2,
    };
    serves_on_stage(&rt, rt.alloc(), SCENE, true);
}

/// A world whose radio lacks memory so often for a frame, and so often for a station.
fn short_world<'a>(
    rt: &(impl Net + AllocGlobal + Abort),
    port: u16,
    frames: u32,
    stations: u32,
    stage: &'a Stage,
) -> World<OnceDisk<MemDisk>, Short<'a, UdpSim>> {
    let alloc = rt.alloc();
    let short = Short::new(radio(rt, alloc, port), frames, stations, stage);
    world(rt, alloc, disk(rt, alloc, NEVER), short)
}

/// Starts a world, and authenticates the first station.
fn authenticate<R: Radio>(rt: &impl Abort, alloc: Global, world: &mut World<OnceDisk<MemDisk>, R>) {
    let frame = hex::decode(alloc, AUTHENTICATION).expect(rt, "a frame");
    let input = Input::Received(Bssid(Addr([2, 0, 0, 0, 0, 1])), frame.as_slice());
    let started = world.start().is_ok();
    world.step(&Step::Accept(input, Moment(0)));
    let is_committed = world.flush().is_ok();
    expect(rt, (started, is_committed), (true, true));
}

/// Ends the test where `serve` answers anything else than one entry, while the worker of the radio submits this frame
/// when the one that commits has ended. Tells how many lines were said, of which the last is said afterwards.
fn serve_to_the_end<
    R: Net + Wait + Threads + time::Clock + AllocGlobal + Log + Sync + Abort,
    S: Radio + Send,
>(
    rt: &R,
    port: u16,
    world: World<OnceDisk<MemDisk>, S>,
    stage: &Stage,
    frame: &'static str,
    after: Line,
) -> usize
where
    R::Stream: Send + Sync,
    R::Listener: Send + Sync,
{
    let alloc = rt.alloc();
    let lines = [Line::Sends(0, RADIO, Datagram::Hex(frame)), Line::Asked(2)];
    let mut talk = Talk::new(rt, alloc, port, &lines, stage);
    let clock = StageClock { rt, stage };
    let answer = serve_at(rt, alloc, port, world, clock, &NoGate, &mut talk);
    talk.say(&[after]);
    let said = talk.said_count();
    drop(talk);
    expect(rt, answer, Ok(1));
    said
}

/// Authenticates the first station, and does the same with the frame that asks to associate it.
pub(crate) fn associate_to_the_end<
    R: Net + Wait + Threads + time::Clock + AllocGlobal + Log + Sync + Abort,
    S: Radio + Send,
>(rt: &R, port: u16, world: World<OnceDisk<MemDisk>, S>, stage: &Stage, after: Line) -> usize
where
    R::Stream: Send + Sync,
    R::Listener: Send + Sync,
{
    let mut world = world;
    authenticate(rt, rt.alloc(), &mut world);
    serve_to_the_end(rt, port, world, stage, ASSOCIATION, after)
}

#[test]
fn an_answer_that_lacked_memory_is_given_at_the_end(rt: HostRuntime) {
    let stage = Stage::new(true);
    let port = free_ports(&rt, 1);
    let world = short_world(&rt, port, 1, 0, &stage);
    let after = Line::Gets(0, RADIO, Datagram::Hex(AUTHENTICATED));
    let said = serve_to_the_end(&rt, port, world, &stage, AUTHENTICATION, after);
    expect(&rt, said, 3);
}

#[test]
fn a_station_that_lacked_memory_is_installed_at_the_end(rt: HostRuntime) {
    let stage = Stage::new(true);
    let port = free_ports(&rt, 1);
    let world = short_world(&rt, port, 0, 3, &stage);
    let after = Line::Gets(0, RADIO, Datagram::Hex(ASSOCIATED));
    let said = associate_to_the_end(&rt, port, world, &stage, after);
    expect(&rt, (said, stage.holes()), (3, 0));
}

#[test]
fn nothing_is_sent_behind_a_station_that_lacks_memory(rt: HostRuntime) {
    let stage = Stage::new(true);
    let port = free_ports(&rt, 1);
    let hearing = Hearing::new(rt, rt.alloc());
    let world = short_world(&rt, port, 0, LONG, &stage);
    let said = associate_to_the_end(&hearing, port, world, &stage, Line::GetsNothing(0));
    expect(&rt, stage.holes(), 0);
    // A worker that is still there to give it tries until it is installed.
    let wanted = if said == 3 { NOT_HANDED_OUT } else { "" };
    hearing.expect_heard(wanted);
}

/// The world of a radio whose driver fails at so many installations.
fn faulty_world(
    rt: &(impl Net + AllocGlobal + Abort),
    port: u16,
    faults: u32,
) -> World<OnceDisk<MemDisk>, Faulty<UdpSim>> {
    let alloc = rt.alloc();
    let faulty = Faulty::new(radio(rt, alloc, port), faults);
    world(rt, alloc, disk(rt, alloc, NEVER), faulty)
}

#[test]
fn what_waits_behind_a_driver_fault_is_sent_at_the_end(rt: HostRuntime) {
    // The out itself, and two of the three tries.
    for faults in [1, 3] {
        let stage = Stage::new(true);
        let port = free_ports(&rt, 1);
        let world = faulty_world(&rt, port, faults);
        let after = Line::Gets(0, RADIO, Datagram::Hex(ASSOCIATED));
        let said = associate_to_the_end(&rt, port, world, &stage, after);
        expect(&rt, (faults, said), (faults, 3));
    }
}

#[test]
fn a_driver_that_fails_on_is_given_up_at_the_end(rt: HostRuntime) {
    // The out itself, and all three tries.
    let stage = Stage::new(true);
    let port = free_ports(&rt, 1);
    let world = faulty_world(&rt, port, 4);
    let said = associate_to_the_end(&rt, port, world, &stage, Line::GetsNothing(0));
    expect(&rt, said, 3);
}
