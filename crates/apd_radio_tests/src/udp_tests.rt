use crate::expect::expect;
use crate::radio_calls::{Asked, ask, receives, succeeds};
use crate::sockets::{bytes, expect_datagram, expect_silence, free_port, send, station};
use apd_base::{Addr, Bssid};
use apd_radio::{Failing, Radio, RadioFault, Recording, Sim, SocketFault, UdpSim};
use apd_slot::Slot;
use libc::net::{SO_RCVBUF, SOL_SOCKET, getsockopt};
use std::alloc::Global;
use std::net::{Net, UdpSocket};
use std::os::fd::RawFd;
use std::process::Abort;

/// The room for datagrams that wait where the system gives what is asked for: it counts twice as much, for what it
/// keeps beside their bytes.
const GRANTED: i32 = 8_388_608;

/// How many frames come at once.
const BURST: u32 = 2_000;

/// A radio on such a port, and the port.
fn radio(rt: &(impl Abort + Net), alloc: Global) -> (UdpSim, u16) {
    let port = free_port(rt);
    let radio = UdpSim::new(rt, alloc, port);
    (radio.expect(rt, "a radio"), port)
}

/// A radio in a box.
fn boxed(rt: &impl Abort, alloc: Global, one: UdpSim) -> Box<dyn Radio + Send> {
    Box::new(alloc, one).ok().expect(rt, "memory")
}

/// Sends a radio a frame of this length, which it gives once, and has the radio send it back.
fn send_and_answer<R: Radio>(
    rt: &impl Abort,
    radio: &mut R,
    (other, port): (&UdpSocket, u16),
    room: &mut [u8],
    frame: &[u8],
) {
    send(rt, other, port, frame);
    receives(rt, radio, Some(frame));
    receives(rt, radio, None);
    succeeds(rt, radio, &[Asked::Transmit(frame)]);
    let _from = expect_datagram(rt, other, room, frame);
}

/// Has a radio send a frame that is too long, and then one that is not.
fn send_too_much<R: Radio>(rt: &impl Abort, radio: &mut R, long: &[u8]) {
    let answer = ask(radio, Asked::Transmit(long));
    expect(rt, (answer, radio.failures()), (Err(RadioFault::Device), 1));
    let answer = ask(radio, Asked::Transmit(b"short"));
    expect(rt, (answer, radio.failures()), (Ok(()), 1));
}

/// Lengths of frames, up to the greatest.
const LENGTHS: &[usize] = &[0, 1, 2_304, 2_305, 65_507];

/// Sends frames of every length to and fro, and then all bytes, which are one too many.
fn exchange<R: Radio>(
    rt: &impl Abort,
    radio: &mut R,
    (other, port): (&UdpSocket, u16),
    room: &mut [u8],
    frames: &[u8],
) {
    succeeds(rt, radio, &[Asked::Transmit(b"nobody was heard")]);
    receives(rt, radio, None);
    for length in LENGTHS {
        let frame = frames.get(..*length).expect(rt, "so many bytes");
        send_and_answer(rt, radio, (other, port), room, frame);
    }
    expect_silence(rt, other, room);
    send_too_much(rt, radio, frames);
}

#[test]
fn datagrams_of_every_length(rt: HostRuntime) {
    let alloc = rt.alloc();
    let frames = bytes(&rt, alloc, 0xb0, 65_508);
    let mut room = bytes(&rt, alloc, 0, 65_536);
    let other = station(&rt);
    let (one, port) = radio(&rt, alloc);
    let mut one = boxed(&rt, alloc, one);
    exchange(&rt, &mut one, (&other, port), &mut room, &frames);
}

/// What is received from the first of two is answered to the last of them.
fn answer_the_last<R: Radio>(
    rt: &impl Abort,
    radio: &mut R,
    port: u16,
    [first, last]: [&UdpSocket; 2],
) {
    let mut room = [0u8; 16];
    send(rt, first, port, b"first");
    send(rt, last, port, b"last");
    receives(rt, radio, Some(b"first"));
    receives(rt, radio, Some(b"last"));
    succeeds(rt, radio, &[Asked::Transmit(b"answer")]);
    let from = expect_datagram(rt, last, &mut room, b"answer");
    expect(rt, from, port);
    expect_silence(rt, first, &mut room);
}

#[test]
fn an_answer_goes_to_the_peer_last_heard(rt: HostRuntime) {
    let (first, last) = (station(&rt), station(&rt));
    let (mut one, port) = radio(&rt, rt.alloc());
    answer_the_last(&rt, &mut one, port, [&first, &last]);
}

/// Why there is no radio on a port.
fn refusal(rt: &(impl Net + AllocGlobal), port: u16) -> Option<SocketFault> {
    UdpSim::new(rt, rt.alloc(), port).err()
}

#[test]
fn a_port_is_had_by_one_and_free_after_the_drop(rt: HostRuntime) {
    let (one, port) = radio(&rt, rt.alloc());
    expect(&rt, refusal(&rt, port), Some(SocketFault::NoSocket));
    drop(one);
    expect(&rt, refusal(&rt, port), None);
}

/// The room that the system has for datagrams that wait at a socket.
fn room_of(descriptor: RawFd) -> i32 {
    let mut value = [0u8; 16];
    let mut len = 4;
    let _status = unsafe { getsockopt(descriptor, SOL_SOCKET, SO_RCVBUF, &mut value, &mut len) };
    let [a, b, c, d, ..] = value;
    i32::from_ne_bytes([a, b, c, d])
}

/// Whether the system gives a radio the room that it asks for.
fn has_room<R: Radio>(radio: &R) -> bool {
    match radio.descriptor() {
        Some(socket) => room_of(socket) >= GRANTED,
        None => false,
    }
}

/// Sends so many frames at once, and receives them.
fn burst<R: Radio>(rt: &impl Abort, radio: &mut R, (other, port): (&UdpSocket, u16), count: u32) {
    for number in 0..count {
        send(rt, other, port, &number.to_be_bytes());
    }
    for number in 0..count {
        receives(rt, radio, Some(&number.to_be_bytes()));
    }
    receives(rt, radio, None);
}

// Where the system gives less room nothing is sent.
#[test]
fn a_burst_of_2000_frames_loses_none(rt: HostRuntime) {
    let other = station(&rt);
    let (mut one, port) = radio(&rt, rt.alloc());
    let count = if has_room(&one) { BURST } else { 0 };
    burst(&rt, &mut one, (&other, port), count);
}

const BSSID: Bssid = Bssid(Addr([2, 0, 0, 0, 0, 1]));

/// The descriptor of a slot with this radio.
fn descriptor_of<R: Radio>(alloc: Global, radio: R) -> Option<RawFd>
where
    R: Drop,
{
    Slot::new(alloc, radio, BSSID).descriptor()
}

/// The descriptors of a radio, and of a recording of it that may fail.
fn recorded_descriptors(alloc: Global, one: UdpSim) -> [Option<RawFd>; 2] {
    let own = one.descriptor();
    let one = Recording::new(alloc, Failing::new(one, 1), Vec::<u8>::new(alloc));
    [own, one.descriptor()]
}

/// The descriptors of a radio in a box, and of a slot with it.
fn boxed_descriptors(alloc: Global, one: Box<dyn Radio + Send>) -> [Option<RawFd>; 2] {
    let boxed = one.descriptor();
    [boxed, descriptor_of(alloc, one)]
}

#[test]
fn each_wrapper_has_the_descriptor_of_the_radio_inside(rt: HostRuntime) {
    let alloc = rt.alloc();
    let (one, _) = radio(&rt, alloc);
    let [own, recorded] = recorded_descriptors(alloc, one);
    expect(&rt, (own.is_some(), recorded), (true, own));
    let (other, _) = radio(&rt, alloc);
    let own = other.descriptor();
    let outer = boxed_descriptors(alloc, boxed(&rt, alloc, other));
    expect(&rt, (own.is_some(), outer), (true, [own, own]));
    expect(&rt, descriptor_of(alloc, Sim::new(alloc)), None);
}
