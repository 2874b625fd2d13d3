use crate::expect::expect;
use crate::radio_calls::receives;
use crate::slot_calls::{apply, gives, resync};
use crate::slot_samples::{FIRST, SECOND, WLAN0, install};
use crate::sockets::{bytes, expect_datagram, expect_silence, send, station, two_free_ports};
use apd_base::Addr;
use apd_mlme::Out;
use apd_radio::{DriverRadio, Radio, RadioFault, SocketFault, Strangers};
use apd_slot::{Slot, SlotFault};
use std::alloc::{AllocError, Global};
use std::net::{Ipv4Addr, Net, UdpSocket};
use std::process::Abort;

/// As many stations as a BSSID may have.
const MOST: u16 = 2_007;

/// The ports of a radio and of its driver.
#[derive(Clone, Copy)]
struct Ports {
    radio: u16,
    driver: u16,
}

/// A driver's socket at a port.
fn driver_at(rt: &(impl Abort + Net), port: u16) -> UdpSocket {
    let socket = UdpSocket::bind(rt, (Ipv4Addr::LOCALHOST, port)).expect(rt, "the driver's port");
    socket.set_nonblocking(true).expect(rt, "no waiting");
    socket
}

/// Ports that were free a moment ago.
fn free_ports(rt: &(impl Abort + Net)) -> Ports {
    let (radio, driver) = two_free_ports(rt);
    Ports { radio, driver }
}

fn radio_at(rt: &(impl Abort + Net), alloc: Global, ports: Ports) -> DriverRadio {
    let radio = DriverRadio::new(rt, alloc, ports.radio, ports.driver);
    radio.expect(rt, "a radio")
}

/// A radio with a driver that listens, and their ports.
fn pair(rt: &(impl Abort + Net), alloc: Global) -> (DriverRadio, UdpSocket, Ports) {
    let ports = free_ports(rt);
    let driver = driver_at(rt, ports.driver);
    (radio_at(rt, alloc, ports), driver, ports)
}

/// Expects these datagrams at a driver, of its radio, and none behind them.
fn told(rt: &impl Abort, driver: &UdpSocket, ports: Ports, datagrams: &[&[u8]]) {
    let mut room = [0u8; 128];
    for datagram in datagrams {
        let from = expect_datagram(rt, driver, &mut room, datagram);
        expect(rt, from, ports.radio);
    }
    expect_silence(rt, driver, &mut room);
}

fn installs<R: Radio>(rt: &impl Abort, radio: &mut R, addr: Addr, aid: u16) {
    expect(rt, radio.install(addr, aid), Ok(()));
}

fn removes<R: Radio>(rt: &impl Abort, radio: &mut R, addr: Addr) {
    expect(rt, radio.remove(addr), Ok(()));
}

fn transmits<R: Radio>(rt: &impl Abort, radio: &mut R, frame: &[u8]) {
    expect(rt, radio.transmit(frame), Ok(()));
}

/// A driver says something, and the radio polls no frame.
fn says<R: Radio>(rt: &impl Abort, driver: &UdpSocket, ports: Ports, radio: &mut R, word: &[u8]) {
    send(rt, driver, ports.radio, word);
    receives(rt, radio, None);
}

/// The calls leave in one stream with the frames.
fn leave_in_order<R: Radio>(rt: &impl Abort, radio: &mut R, driver: &UdpSocket, ports: Ports) {
    receives(rt, radio, None);
    installs(rt, radio, FIRST, 1);
    transmits(rt, radio, b"\x10 a response");
    installs(rt, radio, SECOND, 2007);
    removes(rt, radio, FIRST);
    transmits(rt, radio, b"\xc0 an end");
    receives(rt, radio, None);
    let stream: &[&[u8]] = &[
        b"map 1 down",
        b"install 2 02:00:00:00:00:aa 1",
        b"\x10 a response",
        b"install 3 02:00:00:00:00:bb 2007",
        b"remove 4 02:00:00:00:00:aa",
        b"\xc0 an end",
    ];
    told(rt, driver, ports, stream);
}

#[test]
fn driver_calls_leave_in_one_stream_with_the_frames(rt: HostRuntime) {
    let (mut radio, driver, ports) = pair(&rt, rt.alloc());
    leave_in_order(&rt, &mut radio, &driver, ports);
}

/// The stations that are installed behind `take_down` are told as a map, before the next frame, or by the next poll.
fn begin_with_the_map<R: Radio>(rt: &impl Abort, radio: &mut R, driver: &UdpSocket, ports: Ports) {
    installs(rt, radio, SECOND, 2);
    installs(rt, radio, FIRST, 1);
    told(rt, driver, ports, &[]);
    transmits(rt, radio, b"\xb0");
    let stream: &[&[u8]] = &[
        b"map 1 down\n02:00:00:00:00:aa 1\n02:00:00:00:00:bb 2",
        b"\xb0",
    ];
    told(rt, driver, ports, stream);
    radio.take_down();
    installs(rt, radio, FIRST, 3);
    removes(rt, radio, SECOND);
    told(rt, driver, ports, &[]);
    receives(rt, radio, None);
    told(rt, driver, ports, &[b"map 2 down\n02:00:00:00:00:aa 3"]);
}

#[test]
fn a_map_is_told_before_anything_else(rt: HostRuntime) {
    let (mut radio, driver, ports) = pair(&rt, rt.alloc());
    begin_with_the_map(&rt, &mut radio, &driver, ports);
}

/// The driver fails at a call, and the radio answers so at the next one, once.
fn fail_at<R: Radio>(rt: &impl Abort, radio: &mut R, word: &[u8], ends: (&UdpSocket, Ports)) {
    let (driver, ports) = ends;
    let before = radio.failures();
    says(rt, driver, ports, radio, word);
    expect(rt, radio.failures(), before);
    let held = radio.installed(SECOND);
    expect(rt, radio.install(SECOND, 9), Err(RadioFault::Device));
    expect(rt, radio.installed(SECOND), held);
    expect(rt, radio.failures(), before.saturating_add(1));
    told(rt, driver, ports, &[]);
}

/// The driver fails at each kind of call in turn; each time it is given the whole map.
fn fail_at_each<R: Radio>(rt: &impl Abort, radio: &mut R, driver: &UdpSocket, ports: Ports) {
    receives(rt, radio, None);
    told(rt, driver, ports, &[b"map 1 down"]);
    fail_at(rt, radio, b"fault 1", (driver, ports));
    installs(rt, radio, FIRST, 1);
    told(rt, driver, ports, &[b"install 2 02:00:00:00:00:aa 1"]);
    fail_at(rt, radio, b"fault 2", (driver, ports));
    removes(rt, radio, FIRST);
    told(rt, driver, ports, &[b"remove 3 02:00:00:00:00:aa"]);
    fail_at(rt, radio, b"fault 3", (driver, ports));
    says(rt, driver, ports, radio, b"fault 18446744073709551615");
    expect(rt, radio.remove(SECOND), Err(RadioFault::Device));
    expect(rt, radio.failures(), 4);
    removes(rt, radio, SECOND);
    told(rt, driver, ports, &[b"remove 4 02:00:00:00:00:bb"]);
}

#[test]
fn a_driver_that_fails_at_each_call(rt: HostRuntime) {
    let (mut radio, driver, ports) = pair(&rt, rt.alloc());
    fail_at_each(&rt, &mut radio, &driver, ports);
}

/// A slot whose driver fails goes down, and its next try tells the whole map.
fn go_down_and_be_mended<R: Radio>(
    rt: &impl Abort,
    slot: &mut Slot<R>,
    driver: &UdpSocket,
    ports: Ports,
) {
    gives(rt, slot, None);
    expect(rt, apply(slot, &install(rt, FIRST, 1)), Ok(()));
    send(rt, driver, ports.radio, b"fault 2");
    gives(rt, slot, None);
    let answer = apply(slot, &install(rt, SECOND, 2));
    expect(rt, answer, Err(SlotFault::WentDown));
    expect(rt, resync(slot), Ok(()));
    gives(rt, slot, None);
    let stream: &[&[u8]] = &[
        b"map 1 down",
        b"install 2 02:00:00:00:00:aa 1",
        b"map 3 down\n02:00:00:00:00:aa 1\n02:00:00:00:00:bb 2",
    ];
    told(rt, driver, ports, stream);
    expect(rt, apply(slot, &Out::Remove(FIRST)), Ok(()));
    told(rt, driver, ports, &[b"remove 4 02:00:00:00:00:aa"]);
}

#[test]
fn a_slot_whose_driver_fails_is_mended_by_a_map(rt: HostRuntime) {
    let alloc = rt.alloc();
    let (radio, driver, ports) = pair(&rt, alloc);
    let mut slot = Slot::new(alloc, radio, WLAN0);
    go_down_and_be_mended(&rt, &mut slot, &driver, ports);
}

/// A driver that loses a word sees so by the number of the next one, says that it is up, and is told the map.
fn lose_a_word<R: Radio>(rt: &impl Abort, radio: &mut R, driver: &UdpSocket, ports: Ports) {
    receives(rt, radio, None);
    installs(rt, radio, FIRST, 1);
    let mut room = [0u8; 64];
    let lost: &[&[u8]] = &[b"map 1 down", b"install 2 02:00:00:00:00:aa 1"];
    for datagram in lost {
        let _from = expect_datagram(rt, driver, &mut room, datagram);
    }
    installs(rt, radio, SECOND, 2);
    told(rt, driver, ports, &[b"install 3 02:00:00:00:00:bb 2"]);
    says(rt, driver, ports, radio, b"up");
    let map: &[u8] = b"map 4 down\n02:00:00:00:00:aa 1\n02:00:00:00:00:bb 2";
    told(rt, driver, ports, &[map]);
    receives(rt, radio, None);
    told(rt, driver, ports, &[]);
}

#[test]
fn a_driver_that_lost_a_word_asks_for_the_map(rt: HostRuntime) {
    let (mut radio, driver, ports) = pair(&rt, rt.alloc());
    lose_a_word(&rt, &mut radio, &driver, ports);
}

/// Calls without a driver at the port: they succeed, and no fault is counted.
fn go_on_alone<R: Radio>(rt: &impl Abort, radio: &mut R) {
    receives(rt, radio, None);
    installs(rt, radio, FIRST, 1);
    transmits(rt, radio, b"\xb0");
    installs(rt, radio, SECOND, 2);
    removes(rt, radio, SECOND);
    receives(rt, radio, None);
    expect(rt, (radio.installed(FIRST), radio.failures()), (Some(1), 0));
}

/// A driver begins, and gets the map for its word.
fn begin_at<R: Radio>(rt: &(impl Abort + Net), radio: &mut R, ports: Ports, map: &[u8]) {
    let driver = driver_at(rt, ports.driver);
    says(rt, &driver, ports, radio, b"up");
    told(rt, &driver, ports, &[map]);
}

#[test]
fn a_driver_that_is_not_there_yet(rt: HostRuntime) {
    let ports = free_ports(&rt);
    let mut radio = radio_at(&rt, rt.alloc(), ports);
    go_on_alone(&rt, &mut radio);
    begin_at(&rt, &mut radio, ports, b"map 5 down\n02:00:00:00:00:aa 1");
}

#[test]
fn a_driver_that_begins_anew(rt: HostRuntime) {
    let (mut radio, driver, ports) = pair(&rt, rt.alloc());
    receives(&rt, &mut radio, None);
    told(&rt, &driver, ports, &[b"map 1 down"]);
    drop(driver);
    go_on_alone(&rt, &mut radio);
    begin_at(&rt, &mut radio, ports, b"map 5 down\n02:00:00:00:00:aa 1");
    begin_at(&rt, &mut radio, ports, b"map 6 down\n02:00:00:00:00:aa 1");
}

/// Datagrams of somebody else, an empty one and words too, are not polled, and nothing is sent to them.
fn pass_over<R: Radio>(
    rt: &impl Abort,
    radio: &mut R,
    (driver, other): (&UdpSocket, &UdpSocket),
    ports: Ports,
) {
    for datagram in [b"".as_slice(), b"\xb0 a frame", b"up", b"fault 1"] {
        send(rt, other, ports.radio, datagram);
    }
    send(rt, driver, ports.radio, b"\x40 a frame");
    receives(rt, radio, Some(b"\x40 a frame"));
    receives(rt, radio, None);
    installs(rt, radio, FIRST, 1);
    transmits(rt, radio, b"\x50 an answer");
    let stream: &[&[u8]] = &[
        b"map 1 down",
        b"install 2 02:00:00:00:00:aa 1",
        b"\x50 an answer",
    ];
    told(rt, driver, ports, stream);
    expect_silence(rt, other, &mut [0u8; 16]);
}

/// How many datagrams a count says were passed over, by another handle of it.
fn passed_over(rt: &impl Abort, strangers: &Strangers) -> u64 {
    strangers.clone().expect(rt, "a handle").count()
}

#[test]
fn what_comes_from_elsewhere_is_passed_over_and_counted(rt: HostRuntime) {
    let (mut radio, driver, ports) = pair(&rt, rt.alloc());
    let strangers = radio.strangers().clone().expect(&rt, "a handle");
    expect(&rt, strangers.count(), 0);
    pass_over(&rt, &mut radio, (&driver, &station(&rt)), ports);
    expect(&rt, passed_over(&rt, &strangers), 4);
}

/// A poll passes over 64 datagrams at most, and then tells that there is no frame.
fn pass_over_many<R: Radio>(
    rt: &impl Abort,
    radio: &mut R,
    (driver, other): (&UdpSocket, &UdpSocket),
    ports: Ports,
) {
    for _ in 0..100 {
        send(rt, other, ports.radio, b"\xb0");
    }
    send(rt, driver, ports.radio, b"\x40");
    receives(rt, radio, None);
    receives(rt, radio, Some(b"\x40"));
}

#[test]
fn a_poll_ends_where_many_came_from_elsewhere(rt: HostRuntime) {
    let (mut radio, driver, ports) = pair(&rt, rt.alloc());
    pass_over_many(&rt, &mut radio, (&driver, &station(&rt)), ports);
    expect(&rt, radio.strangers().count(), 100);
}

const RUBBISH: &[&[u8]] = &[
    b"u",
    b"upp",
    b"up\n",
    b"up 1",
    b"fault",
    b"fault ",
    b"fault x",
    b"fault 1 ",
    b"fault  1",
    b"fault -1",
    b"fault 18446744073709551616",
    b"fault 000000000000000000001",
    b"map 1 down",
    b"install 1 02:00:00:00:00:bb 9",
    b"z",
];

/// Words that say nothing known change nothing.
fn pass_over_rubbish<R: Radio>(rt: &impl Abort, radio: &mut R, driver: &UdpSocket, ports: Ports) {
    receives(rt, radio, None);
    for word in RUBBISH {
        says(rt, driver, ports, radio, word);
    }
    installs(rt, radio, FIRST, 1);
    let stream: &[&[u8]] = &[b"map 1 down", b"install 2 02:00:00:00:00:aa 1"];
    told(rt, driver, ports, stream);
    expect(rt, (radio.installed(SECOND), radio.failures()), (None, 0));
    for frame in [b"".as_slice(), b"`", b"{", b"UP"] {
        send(rt, driver, ports.radio, frame);
        receives(rt, radio, Some(frame));
    }
}

#[test]
fn words_that_say_nothing_known_are_passed_over(rt: HostRuntime) {
    let (mut radio, driver, ports) = pair(&rt, rt.alloc());
    pass_over_rubbish(&rt, &mut radio, &driver, ports);
}

/// The station of each number, in the order of their addresses.
fn station_of(number: u16) -> Addr {
    let [high, low] = number.to_be_bytes();
    Addr([2, 0, 0, 0, high, low])
}

/// The map of that many stations, each under its own number.
fn whole_map(alloc: Global, count: u16) -> Result<String, AllocError> {
    let mut map = format!(in alloc; "map 1 down")?;
    for number in 1..=count {
        let [high, low] = number.to_be_bytes();
        let line = format!(in alloc; "\n02:00:00:00:{high:02x}:{low:02x} {number}")?;
        map.push_str(&line)?;
    }
    Ok(map)
}

/// So many stations come in, the last of them first, and are told in one datagram.
fn tell_many<R: Radio>(rt: &impl Abort, alloc: Global, radio: &mut R, driver: &UdpSocket) {
    for number in (1..=MOST).rev() {
        installs(rt, radio, station_of(number), number);
    }
    receives(rt, radio, None);
    let map = whole_map(alloc, MOST).expect(rt, "memory");
    expect(rt, map.len(), 45_064);
    let mut room = bytes(rt, alloc, 0, 65_536);
    let _from = expect_datagram(rt, driver, &mut room, map.as_bytes());
    expect_silence(rt, driver, &mut room);
}

#[test]
fn as_many_stations_as_may_be_are_one_map(rt: HostRuntime) {
    let alloc = rt.alloc();
    let (mut radio, driver, _ports) = pair(&rt, alloc);
    tell_many(&rt, alloc, &mut radio, &driver);
}

/// More stations than fit a datagram, under identifiers of five digits.
const TOO_MANY: u16 = 3_000;

/// Where the map fits no datagram, no frame is sent before it, and it stays due.
fn hold_frames_back<R: Radio>(rt: &impl Abort, radio: &mut R, driver: &UdpSocket, ports: Ports) {
    for number in 1..=TOO_MANY {
        installs(rt, radio, station_of(number), 65_535);
    }
    expect(rt, radio.transmit(b"\xb0"), Err(RadioFault::Device));
    receives(rt, radio, None);
    expect(rt, radio.transmit(b"\xb0"), Err(RadioFault::Device));
    expect(rt, radio.failures(), 2);
    told(rt, driver, ports, &[]);
    radio.take_down();
    transmits(rt, radio, b"\xb0");
    told(rt, driver, ports, &[b"map 4 down", b"\xb0"]);
}

#[test]
fn no_frame_is_sent_before_a_map_that_is_due(rt: HostRuntime) {
    let (mut radio, driver, ports) = pair(&rt, rt.alloc());
    hold_frames_back(&rt, &mut radio, &driver, ports);
}

/// Why there is no radio on a port.
fn refusal(rt: &(impl Net + AllocGlobal), ports: Ports) -> Option<SocketFault> {
    DriverRadio::new(rt, rt.alloc(), ports.radio, ports.driver).err()
}

#[test]
fn a_port_that_another_has_is_refused(rt: HostRuntime) {
    let (radio, _driver, ports) = pair(&rt, rt.alloc());
    expect(&rt, refusal(&rt, ports), Some(SocketFault::NoSocket));
    drop(radio);
    expect(&rt, refusal(&rt, ports), None);
}

/// A radio in a box answers as it does outside.
#[test]
fn a_radio_with_a_driver_goes_into_a_box(rt: HostRuntime) {
    let alloc = rt.alloc();
    let (radio, driver, ports) = pair(&rt, alloc);
    let mut radio: Box<dyn Radio + Send> = Box::new(alloc, radio).ok().expect(&rt, "memory");
    leave_in_order(&rt, &mut radio, &driver, ports);
    expect(&rt, radio.descriptor().is_some(), true);
}
