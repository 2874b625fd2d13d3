use crate::configurations::{alone, built_in};
use crate::expect::expect;
use crate::files::formatted;
use crate::hearing::Hearing;
use crate::stage::{HeldGate, Stage, StageClock};
use crate::talk::{
    ASSOCIATED, ASSOCIATION, AUTHENTICATED, AUTHENTICATION, CONTROL, DATA, DISASSOCIATED, Datagram,
    Line, OTHER_AUTHENTICATED, OTHER_AUTHENTICATION, RADIO, Talk, free_ports,
};
use apd_base::{Bssid, Moment};
use apd_conf::{AddressList, Conf, read_list};
use apd_control_port::ControlPort;
use apd_desk::{Clock, Gate, NoGate};
use apd_disk::{Disk, MemDisk, OnceDisk};
use apd_radio::{Radio, UdpSim};
use apd_serve::{ServeFault, SystemClock, serve};
use apd_slot::Slot;
use apd_store::StoreFault;
use apd_world::{World, restart};
use log::Log;
use std::alloc::Global;
use std::io::Read;
use std::net::Net;
use std::process::Abort;
use std::sync::Wait;
use std::thread::Threads;
use std::time;

/// The number of a device's bytes.
pub(crate) const LENGTH: usize = 2_097_216;

const STATUS: &str =
    "state=ENABLED\nchannel=6\nbeacon_int=100\nbss[0]=wlan0\nbssid[0]=02:00:00:00:00:01\nssid[0]=net\nnum_sta[0]=1\n";

/// The list file of the one station that is denied from the start, and the list with another one.
const DENIED: &str = "02:00:00:00:00:ac\n";

const BOTH_DENIED: &str = "02:00:00:00:00:ab VLAN_ID=0\n02:00:00:00:00:ac VLAN_ID=0\n";

/// The station that was heard.
const HEARD: &str =
    "02:00:00:00:00:aa\nflags=[AUTH][ASSOC][AUTHORIZED]\naid=1\ncapability=0x431\nlisten_interval=10\n";

/// What is told of a device that failed.
pub(crate) const FAILED: &str =
    "[ERROR apd] device fault: nothing more is made durable, and what would change the table is refused; end it, see to the disk, and start it again\n";

/// A device call that doesn't come.
pub(crate) const NEVER: u64 = u64::MAX;

/// How many calls come before the first of the first request's commit: a recovery has two, and the commit of the start four.
pub(crate) const STARTED: u64 = 6;

/// The built-in configuration, with a station that is denied.
fn conf(rt: &impl Abort, alloc: Global) -> Conf {
    let denied = read_list(alloc, DENIED.as_bytes()).expect(rt, "a list");
    let mut conf = built_in(rt, alloc);
    conf.set_lists(AddressList::new(alloc), denied);
    conf
}

/// A new store in memory, whose device fails the call after so many.
pub(crate) fn disk(rt: &impl Abort, alloc: Global, calls: u64) -> OnceDisk<MemDisk> {
    let bytes = vec![in alloc; 0u8; LENGTH].expect(rt, "memory");
    let disk = MemDisk::new(alloc, bytes).expect(rt, "memory");
    OnceDisk::new(formatted(rt, alloc, disk), calls)
}

/// One slot, with this radio.
fn slots<R: Radio>(rt: &impl Abort, alloc: Global, bssid: Bssid, radio: R) -> Vec<Slot<R>> {
    let mut slots = Vec::new(alloc);
    slots
        .push(Slot::new(alloc, radio, bssid))
        .expect(rt, "memory");
    slots
}

/// The world of the one configuration over this disk, with this radio.
pub(crate) fn world<D: Disk + Drop, R: Radio>(
    rt: &impl Abort,
    alloc: Global,
    disk: D,
    radio: R,
) -> World<D, R> {
    let conf = conf(rt, alloc);
    let slots = slots(rt, alloc, conf.bssid, radio);
    let confs = alone(rt, alloc, conf);
    let world = restart(alloc, disk, confs, slots, Moment(0)).ok();
    world.expect(rt, "what the disk holds is recovered")
}

/// A radio whose port is the first behind this one.
pub(crate) fn radio(rt: &(impl Net + Abort), alloc: Global, port: u16) -> UdpSim {
    UdpSim::new(rt, alloc, port.wrapping_add(RADIO)).expect(rt, "a radio")
}

/// What `serve` answers of a world, whose commands come to this port, once the input ends.
pub(crate) fn serve_at<
    R: Net + Wait + Threads + time::Clock + Log + Sync + Abort,
    D: Disk + Drop + Send,
    S: Radio + Send,
    C: Clock + Drop + Sync,
    G: Gate + Sync,
    B: Read + Drop,
>(
    rt: &R,
    alloc: Global,
    port: u16,
    world: World<D, S>,
    clock: C,
    gate: &G,
    input: B,
) -> Result<u64, ServeFault>
where
    R::Stream: Send + Sync,
    R::Listener: Send + Sync,
{
    let control = ControlPort::open(rt, alloc, port).expect(rt, "a port of commands");
    serve(rt, alloc, world, control, clock, gate, input)
}

/// The same of the world over a device, with the radio behind this port.
pub(crate) fn serve_device<
    R: Net + Wait + Threads + time::Clock + Log + Sync + Abort,
    D: Disk + Drop + Send,
    C: Clock + Drop + Sync,
    G: Gate + Sync,
    B: Read + Drop,
>(
    rt: &R,
    alloc: Global,
    port: u16,
    device: D,
    clock: C,
    gate: &G,
    input: B,
) -> Result<u64, ServeFault>
where
    R::Stream: Send + Sync,
    R::Listener: Send + Sync,
{
    let world = world(rt, alloc, device, radio(rt, alloc, port));
    serve_at(rt, alloc, port, world, clock, gate, input)
}

/// What is said while it serves and when it has ended, and of how many entries that is.
#[derive(Clone, Copy)]
pub(crate) struct Scene<'a> {
    pub(crate) lines: &'a [Line],
    pub(crate) after: &'a [Line],
    pub(crate) entries: u64,
}

/// Ends the test where `serve` over a device answers anything else in a scene than its entries, or not all of its lines
/// are said.
fn serves_scene<
    R: Net + Wait + Threads + time::Clock + Log + Sync + Abort,
    D: Disk + Drop + Send,
    C: Clock + Drop + Sync,
    G: Gate + Sync,
>(rt: &R, alloc: Global, device: D, scene: Scene<'_>, stage: &Stage, clock: C, gate: &G)
where
    R::Stream: Send + Sync,
    R::Listener: Send + Sync,
{
    let port = free_ports(rt, 1);
    let mut talk = Talk::new(rt, alloc, port, scene.lines, stage);
    let answer = serve_device(rt, alloc, port, device, clock, gate, &mut talk);
    talk.say(scene.after);
    let said = talk.said_count();
    drop(talk);
    let written = scene.lines.len().saturating_add(scene.after.len());
    expect(rt, (answer, said), (Ok(scene.entries), written));
}

/// The same, where only lines are said, and nothing is held.
pub(crate) fn serves_over<
    R: Net + Wait + Threads + time::Clock + Log + Sync + Abort,
    D: Disk + Drop + Send,
>(rt: &R, alloc: Global, device: D, lines: &[Line], entries: u64)
where
    R::Stream: Send + Sync,
    R::Listener: Send + Sync,
{
    let scene = Scene {
        lines,
        after: &[],
        entries,
    };
    let stage = Stage::new(false);
    let clock = SystemClock::new(rt);
    serves_scene(rt, alloc, device, scene, &stage, clock, &NoGate);
}

/// The same over a new store in memory, whose device fails the call after so many.
fn serves_talk<R: Net + Wait + Threads + time::Clock + Log + Sync + Abort>(
    rt: &R,
    alloc: Global,
    lines: &[Line],
    calls: u64,
    entries: u64,
)
where
    R::Stream: Send + Sync,
    R::Listener: Send + Sync,
{
    serves_over(rt, alloc, disk(rt, alloc, calls), lines, entries);
}

// A ping and a frame are answered over loopback, both ends in one process.
#[test]
fn serve_loopback(rt: HostRuntime) {
    const LINES: &[Line] = &[
        Line::Sends(0, CONTROL, Datagram::Text("PING")),
        Line::Gets(0, CONTROL, Datagram::Text("PONG\n")),
        Line::Sends(0, RADIO, Datagram::Hex(AUTHENTICATION)),
        Line::Gets(0, RADIO, Datagram::Hex(AUTHENTICATED)),
    ];
    serves_talk(&rt, rt.alloc(), LINES, NEVER, 1);
}

#[test]
fn a_station_associates_and_is_counted(rt: HostRuntime) {
    const LINES: &[Line] = &[
        Line::Sends(0, RADIO, Datagram::Hex(AUTHENTICATION)),
        Line::Gets(0, RADIO, Datagram::Hex(AUTHENTICATED)),
        Line::Sends(0, RADIO, Datagram::Hex(ASSOCIATION)),
        Line::Gets(0, RADIO, Datagram::Hex(ASSOCIATED)),
        Line::Sends(1, CONTROL, Datagram::Text("STATUS")),
        Line::Gets(1, CONTROL, Datagram::Text(STATUS)),
    ];
    serves_talk(&rt, rt.alloc(), LINES, NEVER, 2);
}

#[test]
fn each_sender_gets_its_own_replies(rt: HostRuntime) {
    const LINES: &[Line] = &[
        Line::Sends(
            0,
            CONTROL,
            Datagram::Text("DEAUTHENTICATE 02:00:00:00:00:aa"),
        ),
        Line::Sends(1, CONTROL, Datagram::Text("PING")),
        Line::Gets(1, CONTROL, Datagram::Text("PONG\n")),
        Line::Gets(0, CONTROL, Datagram::Text("OK\n")),
        Line::Sends(
            1,
            CONTROL,
            Datagram::Text("DENY_ACL ADD_MAC 02:00:00:00:00:ab"),
        ),
        Line::Gets(1, CONTROL, Datagram::Text("OK\n")),
        Line::Sends(0, CONTROL, Datagram::Text("DENY_ACL SHOW")),
        Line::Gets(0, CONTROL, Datagram::Text(BOTH_DENIED)),
        Line::Sends(0, CONTROL, Datagram::Text("STA-FIRST")),
        Line::Gets(0, CONTROL, Datagram::Text("")),
    ];
    serves_talk(&rt, rt.alloc(), LINES, NEVER, 2);
}

#[test]
fn datagrams_of_any_length(rt: HostRuntime) {
    const LINES: &[Line] = &[
        Line::Sends(0, CONTROL, Datagram::Bytes(b'P', 4_097)),
        Line::Gets(0, CONTROL, Datagram::Text("FAIL\n")),
        Line::Sends(0, CONTROL, Datagram::Text("")),
        Line::Gets(0, CONTROL, Datagram::Text("UNKNOWN COMMAND\n")),
        Line::Sends(0, RADIO, Datagram::Bytes(0xb0, 2_305)),
        Line::Sends(0, RADIO, Datagram::Hex(AUTHENTICATION)),
        Line::Gets(0, RADIO, Datagram::Hex(AUTHENTICATED)),
        Line::GetsNothing(0),
    ];
    serves_talk(&rt, rt.alloc(), LINES, NEVER, 1);
}

#[test]
fn an_answer_waits_for_its_commit_and_the_start_for_nothing(rt: HostRuntime) {
    const LINES: &[Line] = &[
        Line::Sends(0, RADIO, Datagram::Hex(AUTHENTICATION)),
        Line::Sends(
            1,
            CONTROL,
            Datagram::Text("DENY_ACL ADD_MAC 02:00:00:00:00:ab"),
        ),
        Line::GetsNothing(0),
        Line::GetsNothing(1),
        Line::Sends(0, CONTROL, Datagram::Text("STA-FIRST")),
        Line::Gets(0, CONTROL, Datagram::Text("")),
        Line::Sends(0, CONTROL, Datagram::Text("DENY_ACL SHOW")),
        Line::Gets(0, CONTROL, Datagram::Text("02:00:00:00:00:ac VLAN_ID=0\n")),
        Line::LetsGo,
        Line::Gets(0, RADIO, Datagram::Hex(AUTHENTICATED)),
        Line::Gets(1, CONTROL, Datagram::Text("OK\n")),
    ];
    let stage = Stage::new(true);
    let gate = HeldGate {
        rt: &rt,
        stage: &stage,
    };
    let scene = Scene {
        lines: LINES,
        after: &[],
        entries: 2,
    };
    let device = disk(&rt, rt.alloc(), NEVER);
    let clock = SystemClock::new(&rt);
    serves_scene(&rt, rt.alloc(), device, scene, &stage, clock, &gate);
}

/// Ends the test where `serve` over a new store in memory answers anything else in a scene by the stage's clock, or not
/// all its lines are said.
pub(crate) fn serves_on_stage<R: Net + Wait + Threads + time::Clock + Log + Sync + Abort>(
    rt: &R,
    alloc: Global,
    scene: Scene<'_>,
    held: bool,
)
where
    R::Stream: Send + Sync,
    R::Listener: Send + Sync,
{
    let stage = Stage::new(held);
    let clock = StageClock { rt, stage: &stage };
    let device = disk(rt, alloc, NEVER);
    serves_scene(rt, alloc, device, scene, &stage, clock, &NoGate);
}

#[test]
fn a_silent_station_goes(rt: HostRuntime) {
    // Two moments are those of the frames; with the fourth the worker of ticks has its first one.
    const SCENE: Scene<'static> = Scene {
        lines: &[
            Line::Sends(0, RADIO, Datagram::Hex(AUTHENTICATION)),
            Line::Gets(0, RADIO, Datagram::Hex(AUTHENTICATED)),
            Line::Sends(0, RADIO, Datagram::Hex(ASSOCIATION)),
            Line::Gets(0, RADIO, Datagram::Hex(ASSOCIATED)),
            Line::Asked(4),
            Line::Jumps(400_000),
            Line::Gets(0, RADIO, Datagram::Hex(DISASSOCIATED)),
        ],
        after: &[],
        entries: 3,
    };
    serves_on_stage(&rt, rt.alloc(), SCENE, false);
}

#[test]
fn a_station_that_was_heard_stays(rt: HostRuntime) {
    // Once the other station is answered, what came before it was heard, at 200 s.
    const SCENE: Scene<'static> = Scene {
        lines: &[
            Line::Sends(0, RADIO, Datagram::Hex(AUTHENTICATION)),
            Line::Gets(0, RADIO, Datagram::Hex(AUTHENTICATED)),
            Line::Sends(0, RADIO, Datagram::Hex(ASSOCIATION)),
            Line::Gets(0, RADIO, Datagram::Hex(ASSOCIATED)),
            Line::Jumps(200_000),
            Line::Sends(0, RADIO, Datagram::Hex(DATA)),
            Line::Sends(0, RADIO, Datagram::Hex(OTHER_AUTHENTICATION)),
            Line::Gets(0, RADIO, Datagram::Hex(OTHER_AUTHENTICATED)),
            Line::Jumps(400_000),
            Line::GetsNothing(0),
            Line::Sends(1, CONTROL, Datagram::Text("STA-FIRST")),
            Line::Gets(1, CONTROL, Datagram::Text(HEARD)),
        ],
        after: &[],
        entries: 3,
    };
    serves_on_stage(&rt, rt.alloc(), SCENE, false);
}

#[test]
fn a_device_fault_is_told_once(rt: HostRuntime) {
    const LINES: &[Line] = &[
        Line::Sends(0, RADIO, Datagram::Hex(AUTHENTICATION)),
        Line::GetsNothing(0),
    ];
    let hearing = Hearing::new(rt, rt.alloc());
    serves_talk(&hearing, rt.alloc(), LINES, STARTED, 1);
    hearing.expect_heard(FAILED);
}

#[test]
fn after_a_device_fault_nothing_is_told_but_what_was_settled(rt: HostRuntime) {
    const LINES: &[Line] = &[
        Line::Sends(0, RADIO, Datagram::Hex(AUTHENTICATION)),
        Line::GetsNothing(0),
        Line::Sends(
            1,
            CONTROL,
            Datagram::Text("DENY_ACL ADD_MAC 02:00:00:00:00:ab"),
        ),
        Line::Gets(1, CONTROL, Datagram::Text("FAIL\n")),
        Line::Sends(0, RADIO, Datagram::Hex(AUTHENTICATION)),
        Line::GetsNothing(0),
        Line::Sends(1, CONTROL, Datagram::Text("STA-FIRST")),
        Line::Gets(1, CONTROL, Datagram::Text("")),
    ];
    serves_talk(&rt, rt.alloc(), LINES, STARTED, 1);
}

#[test]
fn faults_have_these_texts(rt: HostRuntime) {
    let alloc = rt.alloc();
    for (fault, text) in [
        (ServeFault::Thread, "no thread"),
        (ServeFault::Store(StoreFault::Worn), "store is worn out"),
        (ServeFault::NoMemory, "out of memory"),
    ] {
        let told = format!(in alloc; "{fault}").expect(&rt, "memory");
        expect(&rt, told.as_str(), text);
    }
}
