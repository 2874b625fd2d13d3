//! The other end of a radio's and of a control port's socket.
use apd_desk::{Port, PortFault};
use apd_radio::{Datagrams, RadioFault};
use std::net::{Ipv4Addr, Net, SocketAddr, UdpSocket};
use std::os::fd::RawFd;
use std::thread::sleep;
use std::time::{Clock, Duration};

/// How long workers are let wait before something is asked, in milliseconds.
const REST: u64 = 60;

/// How long an answer is waited for, in milliseconds.
const PATIENCE: u64 = 10_000;

/// A port that was free a moment ago.
pub(crate) fn free_port(rt: &impl Net) -> Option<u16> {
    let socket = UdpSocket::bind(rt, (Ipv4Addr::LOCALHOST, 0)).ok()?;
    Some(socket.local_addr().ok()?.port())
}

/// Lets workers wait.
pub(crate) fn rest(clock: &impl Clock) {
    sleep(clock, Duration::from_millis(REST));
}

/// What is sent to a port, so many times at once, and how each is answered.
#[derive(Clone, Copy)]
pub(crate) struct Question<'a> {
    port: u16,
    asked: &'a [u8],
    answer: &'a [u8],
    times: u64,
}

impl<'a> Question<'a> {
    pub(crate) fn new(port: u16, asked: &'a [u8], answer: &'a [u8], times: u64) -> Question<'a> {
        Question {
            port,
            asked,
            answer,
            times,
        }
    }
}

/// Who asks.
#[derive(Drop)]
pub(crate) struct Asker {
    socket: UdpSocket,
}

impl Asker {
    pub(crate) fn new(rt: &impl Net) -> Option<Asker> {
        let socket = UdpSocket::bind(rt, (Ipv4Addr::LOCALHOST, 0)).ok()?;
        let patience = Duration::from_millis(PATIENCE);
        socket.set_read_timeout(Some(patience)).ok()?;
        Some(Asker { socket })
    }

    fn receives(&self, answer: &[u8]) -> bool {
        let mut room = [0u8; 64];
        match self.socket.recv_from(&mut room) {
            Ok((count, _from)) => room.get(..count) == Some(answer),
            Err(_) => false,
        }
    }

    /// Whether a question is answered, which is asked while workers wait.
    pub(crate) fn gets_answer(&self, clock: &impl Clock, question: &Question<'_>) -> bool {
        rest(clock);
        self.sends(question) && self.receives_each(question)
    }

    /// Whether each question is answered so, one after another.
    pub(crate) fn gets_answers(&self, clock: &impl Clock, questions: &[Question<'_>]) -> bool {
        for question in questions {
            if !self.gets_answer(clock, question) {
                return false;
            }
        }
        true
    }

    fn sends(&self, question: &Question<'_>) -> bool {
        let to = (Ipv4Addr::LOCALHOST, question.port);
        for _time in 0..question.times {
            if self.socket.send_to(question.asked, to).is_err() {
                return false;
            }
        }
        true
    }

    fn receives_each(&self, question: &Question<'_>) -> bool {
        for _time in 0..question.times {
            if !self.receives(question.answer) {
                return false;
            }
        }
        true
    }
}

/// A control port whose commands are datagrams of one sender.
#[derive(Drop)]
pub(crate) struct Commands {
    datagrams: Datagrams,
    sender: Option<SocketAddr>,
}

impl Commands {
    pub(crate) fn new(datagrams: Datagrams) -> Commands {
        Commands {
            datagrams,
            sender: None,
        }
    }
}

impl Port for Commands {
    fn poll(&mut self) -> Result<Option<(u64, Vec<u8>)>, PortFault> {
        match self.datagrams.receive() {
            Ok(Some((sender, bytes))) => {
                self.sender = Some(sender);
                Ok(Some((0, bytes)))
            }
            Ok(None) => Ok(None),
            Err(RadioFault::Device) => Err(PortFault::Device),
            Err(RadioFault::NoMemory) => Err(PortFault::NoMemory),
        }
    }

    fn descriptor(&self) -> Option<RawFd> {
        Some(self.datagrams.descriptor())
    }

    fn reply(&mut self, _tag: u64, text: &[u8]) -> Result<(), PortFault> {
        match self.sender {
            Some(sender) => match self.datagrams.send(sender, text) {
                Ok(()) => Ok(()),
                Err(_) => Err(PortFault::Device),
            },
            None => Ok(()),
        }
    }
}
