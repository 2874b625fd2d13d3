//! A storm: more frames at once than a socket of the usual room holds.
use crate::expect::expect;
use crate::serving_tests::{NEVER, disk, serve_device};
use crate::talk::{AUTHENTICATED, AUTHENTICATION, RADIO, free_ports};
use apd_desk::NoGate;
use apd_radio::Datagrams;
use apd_serve::SystemClock;
use libc::net::{SO_RCVBUF, SOL_SOCKET, getsockopt};
use log::Log;
use std::alloc::Global;
use std::io::{self, ErrorKind, Read};
use std::net::{Ipv4Addr, Net, SocketAddr, SocketAddrV4};
use std::process::Abort;
use std::sync::Wait;
use std::thread::{Threads, yield_now};
use std::time;

/// The room for datagrams that wait where the system gives what is asked for.
const GRANTED: i32 = 8_388_608;

/// How many frames come at once.
const BURST: usize = 2_000;

/// How often an answer is looked for in a row, each time with a yield.
const LOOKS: u64 = 1_000_000;

/// Someone who sends so many frames at once, and then takes the answers, where the input is read, which then ends.
#[derive(Drop)]
struct Storm {
    datagrams: Datagrams,
    radio: SocketAddr,
    frame: Vec<u8>,
    answer: Vec<u8>,
    frames: usize,
    answers: usize,
}

impl Storm {
    // Whether the next answer came.
    fn receives_answer(&mut self) -> bool {
        for _look in 0..LOOKS {
            if let Ok(Some((_, bytes))) = self.datagrams.receive() {
                return bytes == self.answer;
            }
            yield_now();
        }
        false
    }
}

impl Read for Storm {
    fn read(&mut self, _buf: &mut [u8]) -> io::Result<usize> {
        for _frame in 0..self.frames {
            if self.datagrams.send(self.radio, &self.frame).is_err() {
                return Err(ErrorKind::InvalidInput.into());
            }
        }
        for _frame in 0..self.frames {
            if !self.receives_answer() {
                return Ok(0);
            }
            self.answers = self.answers.saturating_add(1);
        }
        Ok(0)
    }
}

/// Whether the system gives the room that is asked for.
fn is_granted(datagrams: &Datagrams) -> bool {
    let mut value = [0u8; 16];
    let mut len = 4;
    let _status = unsafe {
        getsockopt(
            datagrams.descriptor(),
            SOL_SOCKET,
            SO_RCVBUF,
            &mut value,
            &mut len,
        )
    };
    let [a, b, c, d, ..] = value;
    i32::from_ne_bytes([a, b, c, d]) >= GRANTED
}

/// A storm on the radio behind this port; of no frame where the system gives less room.
fn storm_on(rt: &(impl Net + Abort), alloc: Global, port: u16) -> Storm {
    let datagrams = Datagrams::bind(rt, alloc, 0).expect(rt, "a socket");
    let frames = if is_granted(&datagrams) { BURST } else { 0 };
    let radio = SocketAddrV4::new(Ipv4Addr::LOCALHOST, port.wrapping_add(RADIO));
    let frame = hex::decode(alloc, AUTHENTICATION).expect(rt, "a frame");
    let answer = hex::decode(alloc, AUTHENTICATED).expect(rt, "a frame");
    Storm {
        datagrams,
        radio: SocketAddr::V4(radio),
        frame,
        answer,
        frames,
        answers: 0,
    }
}

/// Ends the test where `serve` answers anything else in a storm than an entry for each of its frames, or not each of
/// them is answered.
fn serves_storm<R: Net + Wait + Threads + time::Clock + Log + Sync + Abort>(rt: &R, alloc: Global)
where
    R::Stream: Send + Sync,
    R::Listener: Send + Sync,
{
    let port = free_ports(rt, 1);
    let mut storm = storm_on(rt, alloc, port);
    let device = disk(rt, alloc, NEVER);
    let clock = SystemClock::new(rt);
    let answer = serve_device(rt, alloc, port, device, clock, &NoGate, &mut storm);
    let frames = storm.frames;
    let answers = storm.answers;
    drop(storm);
    expect(rt, answers, frames);
    expect(rt, answer, Ok(frames as u64));
}

#[test]
fn a_burst_of_2000_frames_is_answered(rt: HostRuntime) {
    serves_storm(&rt, rt.alloc());
}
