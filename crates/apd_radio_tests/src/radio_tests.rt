use crate::expect::{expect, expect_text};
use crate::radio_calls::{Asked, Row, goes_through, receives, succeeds};
use crate::slot_samples::replaying;
use crate::slot_tests::{boxed_recording, boxed_replaying, boxed_sim};
use apd_base::limits::MAX_FRAME;
use apd_radio::{
    Failing, Radio, RadioFault, Recording, ReplayFault, Replaying, Sim, SocketFault, UdpSim,
};
use std::alloc::Global;
use std::io::{self, Write};
use std::process::Abort;

/// Makes each kind of call of a radio in a box.
fn serves(rt: &impl Abort, radio: Box<dyn Radio + Send>) {
    let mut radio = radio;
    goes_through(rt, &mut radio, SERVED);
}

const SERVED: &[Row] = &[
    (Asked::Install(7), Ok(()), Some(7), 0),
    (Asked::Install(65535), Ok(()), Some(65535), 0),
    (Asked::Remove, Ok(()), None, 0),
    (Asked::Transmit(b"abc"), Ok(()), None, 0),
    (Asked::Poll, Ok(()), None, 0),
    (Asked::TakeDown, Ok(()), None, 0),
];

#[test]
fn each_kind_in_a_box(rt: HostRuntime) {
    let alloc = rt.alloc();
    serves(&rt, boxed_sim(&rt, alloc));
    serves(&rt, boxed_recording(&rt, alloc));
    serves(&rt, boxed_replaying(&rt, alloc, b"rx 00"));
    let failing = Box::new(alloc, Failing::new(Sim::new(alloc), 4)).ok();
    serves(&rt, failing.expect(&rt, "memory"));
    let udp = UdpSim::new(&rt, alloc, 0).expect(&rt, "a port");
    serves(&rt, Box::new(alloc, udp).ok().expect(&rt, "memory"));
}

/// Makes each kind of call of a recording, one of them with the longest frame.
fn record_calls(rt: &impl Abort, alloc: Global, written: &mut Vec<u8>) {
    let longest = vec![in alloc; 0xb0u8; MAX_FRAME].expect(rt, "memory");
    let inner = replaying(rt, alloc, b"rx B000aa\nrx\n");
    let mut radio = Recording::new(alloc, inner, written);
    succeeds(rt, &mut radio, RECORDED);
    succeeds(rt, &mut radio, &[Asked::Transmit(&longest), Asked::Remove]);
}

const RECORDED: &[Asked] = &[
    Asked::TakeDown,
    Asked::Poll,
    Asked::Poll,
    Asked::Poll,
    Asked::Transmit(b"\xb0\x00"),
    Asked::Install(2007),
    Asked::Transmit(b""),
];

fn expect_lines(rt: &impl Abort, alloc: Global, written: &[u8]) {
    let digits = "b0".repeat(alloc, 2_304).expect(rt, "memory");
    let lines = format!(in alloc;
        "down\nrx b000aa\nrx \ntx b000\ninstall 02:00:00:00:00:aa 2007\ntx \ntx {digits}\nremove 02:00:00:00:00:aa\ndown\n"
    );
    let lines = lines.expect(rt, "memory");
    expect(rt, written, lines.as_bytes());
}

fn receive_again(rt: &impl Abort, alloc: Global, written: &[u8]) {
    let mut radio = replaying(rt, alloc, written);
    receives(rt, &mut radio, Some(b"\xb0\x00\xaa"));
    receives(rt, &mut radio, Some(b""));
    receives(rt, &mut radio, None);
}

#[test]
fn a_recording_has_a_line_for_each_call(rt: HostRuntime) {
    let alloc = rt.alloc();
    let mut written: Vec<u8> = Vec::new(alloc);
    record_calls(&rt, alloc, &mut written);
    expect_lines(&rt, alloc, &written);
    receive_again(&rt, alloc, &written);
}

/// A writer that takes whole lines, one a call, and refuses anything else.
#[derive(Drop)]
struct WholeLines {
    taken: Vec<u8>,
}

impl Write for WholeLines {
    fn write(&mut self, buf: &[u8]) -> io::Result<usize> {
        if buf.iter().position(|byte| *byte == b'\n') != buf.len().checked_sub(1) {
            return Err(io::Error::from(io::ErrorKind::BrokenPipe));
        }
        self.taken.extend_from_slice(buf)?;
        Ok(buf.len())
    }

    fn flush(&mut self) -> io::Result<()> {
        Ok(())
    }
}

const WHOLE: &[Asked] = &[
    Asked::Poll,
    Asked::Transmit(b"\xb0\x00"),
    Asked::Install(65535),
    Asked::Remove,
    Asked::TakeDown,
];

fn record_in_whole_lines(rt: &impl Abort, alloc: Global, writer: &mut WholeLines) {
    let inner = replaying(rt, alloc, b"rx b0\n");
    let mut radio = Recording::new(alloc, inner, writer);
    succeeds(rt, &mut radio, WHOLE);
}

#[test]
fn a_line_is_one_write(rt: HostRuntime) {
    let alloc = rt.alloc();
    let mut writer = WholeLines {
        taken: Vec::new(alloc),
    };
    record_in_whole_lines(&rt, alloc, &mut writer);
    let lines =
        b"rx b0\ntx b000\ninstall 02:00:00:00:00:aa 65535\nremove 02:00:00:00:00:aa\ndown\ndown\n";
    expect(&rt, writer.taken.as_slice(), lines.as_slice());
}

/// One transmission through two recordings.
fn record_twice(rt: &impl Abort, alloc: Global, inside: &mut Vec<u8>, outside: &mut Vec<u8>) {
    let inner = Recording::new(alloc, Sim::new(alloc), inside);
    let mut radio = Recording::new(alloc, inner, outside);
    succeeds(rt, &mut radio, &[Asked::Transmit(b"\x01")]);
}

#[test]
fn a_recording_passes_calls_on(rt: HostRuntime) {
    let alloc = rt.alloc();
    let mut inside: Vec<u8> = Vec::new(alloc);
    let mut outside: Vec<u8> = Vec::new(alloc);
    record_twice(&rt, alloc, &mut inside, &mut outside);
    expect(&rt, outside.as_slice(), b"tx 01\ndown\n".as_slice());
    expect(&rt, inside.as_slice(), b"tx 01\ndown\ndown\n".as_slice());
}

/// A writer that has room for some bytes, then refuses one call, and takes every later one.
#[derive(Drop)]
struct Refusing {
    taken: Vec<u8>,
    room: usize,
}

impl Write for Refusing {
    fn write(&mut self, buf: &[u8]) -> io::Result<usize> {
        if self.room == 0 {
            self.room = usize::MAX;
            return Err(io::Error::from(io::ErrorKind::BrokenPipe));
        }
        let count = buf.len().min(self.room);
        self.taken.extend_from_slice(&buf[..count])?;
        self.room -= count;
        Ok(count)
    }

    fn flush(&mut self) -> io::Result<()> {
        Ok(())
    }
}

fn record_to_refusing(rt: &impl Abort, alloc: Global, writer: &mut Refusing) {
    let mut radio = Recording::new(alloc, Sim::new(alloc), writer);
    let rows = [
        (Asked::Transmit(b"\x01"), Ok(()), None, 0),
        (Asked::Install(1), Ok(()), Some(1), 0),
        (Asked::TakeDown, Ok(()), None, 0),
    ];
    goes_through(rt, &mut radio, &rows);
}

#[test]
fn a_write_that_fails_ends_the_recording(rt: HostRuntime) {
    let alloc = rt.alloc();
    let mut writer = Refusing {
        taken: Vec::new(alloc),
        room: 20,
    };
    record_to_refusing(&rt, alloc, &mut writer);
    let lines = b"tx 01\ninstall 02:00:";
    expect(&rt, writer.taken.as_slice(), lines.as_slice());
}

/// Why a recording is refused.
fn refusal(alloc: Global, recording: &[u8]) -> Option<ReplayFault> {
    Replaying::new(alloc, recording).err()
}

/// The same where this is its second line of three.
fn refusal_of_line(rt: &impl Abort, alloc: Global, line: &str) -> Option<ReplayFault> {
    let text = format!(in alloc; "rx 00\n{line}\nrx 0\n").expect(rt, "memory");
    refusal(alloc, text.as_bytes())
}

const BAD: &[&str] = &[
    "rx 0",
    "rx 0g",
    "rx0a",
    "rx  00",
    "RX 00",
    "tx 123",
    "txt",
    "install 02:00:00:00:00:aa",
    "install 02:00:00:00:00:aa ",
    "install 02:00:00:00:00:aa 65536",
    "install 02:00:00:00:00:aa 000001",
    "install 02:00:00:00:00:aa +1",
    "install 2:00:00:00:00:aa 1",
    "remove 02:00:00:00:00:aa 1",
    "remove",
    "down ",
    "down\r",
    "",
];

#[test]
fn the_first_bad_line_is_told(rt: HostRuntime) {
    let alloc = rt.alloc();
    let second = Some(ReplayFault::BadLine(2));
    let good =
        "rx\nrx \nrx 0aF0\ntx\ntx \ntx ff\ninstall 02:00:00:00:00:AA 0\ninstall 02:00:00:00:00:aa 65535\ninstall 02:00:00:00:00:aa 00001\nremove 02:00:00:00:00:aa\ndown";
    expect(&rt, refusal(alloc, good.as_bytes()), None);
    for bad in BAD {
        let found = refusal_of_line(&rt, alloc, bad);
        expect(&rt, (*bad, found), (*bad, second));
    }
    expect(&rt, refusal(alloc, b"rx 00\nrx 0"), second);
}

#[test]
fn faults_have_texts(rt: HostRuntime) {
    let alloc = rt.alloc();
    expect_text(&rt, alloc, &RadioFault::Device, "device fault");
    expect_text(&rt, alloc, &RadioFault::NoMemory, "out of memory");
    expect_text(&rt, alloc, &ReplayFault::BadLine(2), "bad line 2");
    expect_text(&rt, alloc, &ReplayFault::NoMemory, "out of memory");
    expect_text(&rt, alloc, &SocketFault::NoSocket, "no socket");
    expect_text(&rt, alloc, &SocketFault::NoMemory, "out of memory");
}
