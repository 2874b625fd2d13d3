//! What is told of a driver that fails, and how a fault of the device ends a run.
use crate::ending_tests::associate_to_the_end;
use crate::expect::expect;
use crate::faulty_radio::Faulty;
use crate::hearing::Hearing;
use crate::serving_tests::{FAILED, NEVER, STARTED, disk, radio, world};
use crate::stage::Stage;
use crate::talk::{ASSOCIATED, AUTHENTICATION, Datagram, Line, RADIO, free_ports, sender};
use apd_control_port::ControlPort;
use apd_desk::NoGate;
use apd_disk::{MemDisk, OnceDisk};
use apd_radio::{Radio, UdpSim};
use apd_serve::{ServeFault, SystemClock, serve_and_ring};
use apd_site::{Alarm, TellingRadio, UntilFault};
use apd_world::World;
use log::Log;
use std::io::{self, ErrorKind, Read};
use std::net::{Ipv4Addr, Net, UdpSocket};
use std::os::fd::AsRawFd;
use std::process::Abort;
use std::sync::Wait;
use std::thread::Threads;
use std::time;

const FAULT: &str =
    "[ERROR apd] wlan0: driver fault as 02:00:00:00:00:aa was to be installed\n[WARN  apd] wlan0: the driver is given its stations anew: try 1 of 3\n";

const MORE_TRIES: &str =
    "[WARN  apd] wlan0: the driver is given its stations anew: try 2 of 3\n[WARN  apd] wlan0: the driver is given its stations anew: try 3 of 3\n";

const UP: &str = "[INFO  apd] wlan0: the driver is up again; stations installed: 1\n";

const DOWN: &str =
    "[ERROR apd] wlan0: the driver stays down: nothing is sent, installed or removed there until a restart\n";

/// A world with the radio behind this port, which tells of its driver, and whose driver fails at so many installations.
fn telling_world<'a, L: Log>(
    rt: &(impl Net + AllocGlobal + Abort),
    log: &'a L,
    port: u16,
    faults: u32,
) -> World<OnceDisk<MemDisk>, TellingRadio<'a, L, Faulty<UdpSim>>> {
    let alloc = rt.alloc();
    let name = String::from_str(alloc, "wlan0").expect(rt, "memory");
    let faulty = Faulty::new(radio(rt, alloc, port), faults);
    let radio = TellingRadio::new(log, name, faulty, None);
    world(rt, alloc, disk(rt, alloc, NEVER), radio)
}

/// Ends the test where anything else is told while the driver fails at so many installations.
fn tells_of_driver<
    R: Net + Wait + Threads + time::Clock + AllocGlobal + Sync + Abort + Copy + Drop,
>(rt: R, faults: u32, after: Line, wanted: &str)
where
    R::Stream: Send + Sync,
    R::Listener: Send + Sync,
{
    let hearing = Hearing::new(rt, rt.alloc());
    let stage = Stage::new(true);
    let port = free_ports(&rt, 1);
    let world = telling_world(&rt, &hearing, port, faults);
    let said = associate_to_the_end(&hearing, port, world, &stage, after);
    expect(&rt, said, 3);
    hearing.expect_heard(wanted);
}

#[test]
fn a_driver_that_fails_is_told_and_that_it_is_up_again(rt: HostRuntime) {
    let wanted = format!(in rt.alloc(); "{FAULT}{UP}").expect(&rt, "memory");
    let after = Line::Gets(0, RADIO, Datagram::Hex(ASSOCIATED));
    tells_of_driver(rt, 1, after, wanted.as_str());
    drop(wanted);
}

#[test]
fn a_driver_that_stays_down_is_told(rt: HostRuntime) {
    let wanted = format!(in rt.alloc(); "{FAULT}{MORE_TRIES}{DOWN}").expect(&rt, "memory");
    tells_of_driver(rt, 4, Line::GetsNothing(0), wanted.as_str());
    drop(wanted);
}

/// An input that never ends.
#[derive(Drop)]
struct Endless;

impl Read for Endless {
    fn read(&mut self, _buf: &mut [u8]) -> io::Result<usize> {
        Err(ErrorKind::WouldBlock.into())
    }
}

/// Sends an authentication to a radio.
fn send_authentication(rt: &(impl Net + AllocGlobal + Abort), to: u16) -> UdpSocket {
    let frame = hex::decode(rt.alloc(), AUTHENTICATION).expect(rt, "a frame");
    let socket = sender(rt).expect(rt, "a socket");
    let sent = socket.send_to(frame.as_slice(), (Ipv4Addr::LOCALHOST, to));
    drop(frame);
    sent.expect(rt, "a datagram");
    socket
}

/// An input that can be read whenever a socket can, and ends where the alarm rings.
fn until_fault<'a>(
    rt: &(impl Net + AllocGlobal + Abort),
    socket: &UdpSocket,
    alarm: &'a Alarm,
) -> UntilFault<'a, Endless> {
    let input = UntilFault::new(rt, rt.alloc(), Endless, socket.as_raw_fd(), alarm);
    input.expect(rt, "an input")
}

/// What `serve_and_ring` answers of a world, whose commands come to this port, once the input ends.
fn serve_and_ring_at<
    R: Net + Wait + Threads + time::Clock + AllocGlobal + Log + Sync + Abort,
    S: Radio + Send,
    B: Read + Drop,
>(
    rt: &R,
    port: u16,
    world: World<OnceDisk<MemDisk>, S>,
    alarm: &Alarm,
    input: B,
) -> Result<u64, ServeFault>
where
    R::Stream: Send + Sync,
    R::Listener: Send + Sync,
{
    let control = ControlPort::open(rt, rt.alloc(), port).expect(rt, "a port of commands");
    let clock = SystemClock::new(rt);
    serve_and_ring(rt, rt.alloc(), world, control, clock, &NoGate, alarm, input)
}

#[test]
fn a_device_fault_ends_the_input(rt: HostRuntime) {
    let alloc = rt.alloc();
    let hearing = Hearing::new(rt, alloc);
    let port = free_ports(&rt, 1);
    let radio = radio(&rt, alloc, port);
    // Nothing is sent to this socket but what answers the frame, which is none.
    let socket = send_authentication(&rt, port.wrapping_add(RADIO));
    let alarm = Alarm::new();
    let input = until_fault(&rt, &socket, &alarm);
    let world = world(&rt, alloc, disk(&rt, alloc, STARTED), radio);
    let answer = serve_and_ring_at(&hearing, port, world, &alarm, input);
    drop(socket);
    let wanted: Result<u64, ServeFault> = Ok(1);
    expect(&rt, (answer, alarm.has_rung()), (wanted, true));
    hearing.expect_heard(FAILED);
}
