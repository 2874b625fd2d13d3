//! The other end of the ports: someone who speaks while an access point serves.
use crate::stage::Stage;
use std::alloc::Global;
use std::io::{self, ErrorKind, Read};
use std::net::{Ipv4Addr, Net, UdpSocket};
use std::process::Abort;
use std::thread::yield_now;
use std::time::Duration;

/// The port of commands is 0 above the first, and that of the radio at place i is i + 1 above it.
pub(crate) const CONTROL: u16 = 0;

pub(crate) const RADIO: u16 = 1;

pub(crate) const SECOND_RADIO: u16 = 2;

/// A station asks to be authenticated, and is; asks to be associated, and is, under the identifier 1.
pub(crate) const AUTHENTICATION: &str =
    "b00000000200000000010200000000aa0200000000011000000001000000";

pub(crate) const AUTHENTICATED: &str =
    "b00000000200000000aa0200000000010200000000010000000002000000";

pub(crate) const ASSOCIATION: &str =
    "000000000200000000010200000000aa020000000001200031040a0000036e6574010482848b96";

pub(crate) const ASSOCIATED: &str =
    "100000000200000000aa02000000000102000000000100000100000001c0010482848b96";

/// It is silent for too long, and is disassociated for that reason.
pub(crate) const DISASSOCIATED: &str = "a00000000200000000aa02000000000102000000000100000400";

/// A data frame of the first station, which has no answer.
pub(crate) const DATA: &str = "080100000200000000010200000000aa0200000000020000";

/// Another station asks to be authenticated, and is.
pub(crate) const OTHER_AUTHENTICATION: &str =
    "b00000000200000000010200000000ab0200000000011000000001000000";

pub(crate) const OTHER_AUTHENTICATED: &str =
    "b00000000200000000ab0200000000010200000000010000000002000000";

/// A station asks the second radio to be authenticated, and is.
pub(crate) const SECOND_AUTHENTICATION: &str =
    "b00000000200000000020200000000aa0200000000021000000001000000";

pub(crate) const SECOND_AUTHENTICATED: &str =
    "b00000000200000000aa0200000000020200000000020000000002000000";

/// How long an answer is waited for, in milliseconds, and how long none is.
const PATIENCE: u64 = 20_000;

const SILENCE: u64 = 200;

/// How often the stage's clock is looked at, each time with a yield, until enough asked it.
const LOOKS: u64 = 10_000_000;

/// What a datagram holds.
#[derive(Clone, Copy)]
pub(crate) enum Datagram {
    Text(&'static str),
    Hex(&'static str),
    Bytes(u8, usize),
}

impl Datagram {
    fn bytes(&self, alloc: Global) -> io::Result<Vec<u8>> {
        match self {
            Datagram::Text(text) => Ok(Vec::from_slice(alloc, text.as_bytes())?),
            Datagram::Hex(digits) => {
                hex::decode(alloc, *digits).map_err(|_| ErrorKind::InvalidInput.into())
            }
            Datagram::Bytes(byte, count) => Ok(vec![in alloc; *byte; *count]?),
        }
    }

    // Whether it holds these bytes.
    fn is(&self, alloc: Global, bytes: &[u8]) -> bool {
        match self.bytes(alloc) {
            Ok(held) => held.as_slice() == bytes,
            Err(_) => false,
        }
    }
}

/// What one of two senders does.
#[derive(Clone, Copy)]
pub(crate) enum Line {
    /// It sends this to a port.
    Sends(usize, u16, Datagram),
    /// It gets this from a port, and nothing else before.
    Gets(usize, u16, Datagram),
    /// It gets nothing for a while.
    GetsNothing(usize),
    /// What is held is let go.
    LetsGo,
    /// The clock jumps to this moment, in milliseconds.
    Jumps(u64),
    /// The clock was asked so often.
    Asked(u64),
}

/// Two senders and what they say, to the ports from this one on. It is said where the input is read, which then ends.
#[derive(Drop)]
pub(crate) struct Talk<'a> {
    alloc: Global,
    senders: (UdpSocket, UdpSocket),
    port: u16,
    lines: &'a [Line],
    stage: &'a Stage,
    said: usize,
    // Whether it was asked for what is said, and had nothing yet.
    asked: bool,
}

/// The socket of a sender.
pub(crate) fn sender(rt: &impl Net) -> io::Result<UdpSocket> {
    UdpSocket::bind(rt, (Ipv4Addr::LOCALHOST, 0))
}

// A port that was free a moment ago.
fn free_port(rt: &(impl Net + Abort)) -> u16 {
    let socket = sender(rt).expect(rt, "a socket");
    let addr = socket.local_addr();
    drop(socket);
    addr.expect(rt, "the address of a socket").port()
}

// Takes so many ports from this one on, each for a moment. Whether all are free.
fn try_ports(rt: &impl Net, first: u16, count: u16) -> bool {
    for i in 0..count {
        if UdpSocket::bind(rt, (Ipv4Addr::LOCALHOST, first.wrapping_add(i))).is_err() {
            return false;
        }
    }
    true
}

/// A port such that it and so many above it were free a moment ago.
pub(crate) fn free_ports(rt: &(impl Net + Abort), above: u16) -> u16 {
    for _ in 0..100 {
        let port = free_port(rt);
        if port < 65_000 && try_ports(rt, port.wrapping_add(1), above) {
            return port;
        }
    }
    rt.panic("no ports in a row are free")
}

impl<'a> Talk<'a> {
    pub(crate) fn new(
        rt: &(impl Net + Abort),
        alloc: Global,
        port: u16,
        lines: &'a [Line],
        stage: &'a Stage,
    ) -> Talk<'a> {
        let first = sender(rt).expect(rt, "a socket");
        let second = sender(rt).expect(rt, "a socket");
        Talk {
            alloc,
            senders: (first, second),
            port,
            lines,
            stage,
            said: 0,
            asked: false,
        }
    }

    // The socket of the sender of this place, if there is one.
    fn socket(&self, sender: usize) -> Option<&UdpSocket> {
        match sender {
            0 => Some(&self.senders.0),
            1 => Some(&self.senders.1),
            _ => None,
        }
    }

    /// The port of a sender.
    pub(crate) fn port_of(&self, rt: &impl Abort, sender: usize) -> u16 {
        let socket = self.socket(sender).expect(rt, "a sender");
        socket
            .local_addr()
            .expect(rt, "the address of a socket")
            .port()
    }

    /// How many lines were said as they are written; the talk ends at the first that isn't.
    pub(crate) fn said_count(&self) -> usize {
        self.said
    }

    /// How many lines it has.
    pub(crate) fn line_count(&self) -> usize {
        self.lines.len()
    }

    // What a sender gets in this time, in milliseconds, from a port of the access point.
    fn receive(&self, sender: usize, time: u64) -> io::Result<Option<(u16, Vec<u8>)>> {
        let Some(socket) = self.socket(sender) else {
            return Err(ErrorKind::InvalidInput.into());
        };
        socket.set_read_timeout(Some(Duration::from_millis(time)))?;
        let mut room = vec![in self.alloc; 0u8; 65_536]?;
        let Ok((count, from)) = socket.recv_from(room.as_mut_slice()) else {
            return Ok(None);
        };
        room.truncate(count);
        Ok(Some((from.port().wrapping_sub(self.port), room)))
    }

    // Whether a sender sent this to a port.
    fn sends(&self, sender: usize, port: u16, datagram: &Datagram) -> io::Result<bool> {
        let Some(socket) = self.socket(sender) else {
            return Ok(false);
        };
        let port = self.port.wrapping_add(port);
        let bytes = datagram.bytes(self.alloc)?;
        let sent = socket.send_to(&bytes, (Ipv4Addr::LOCALHOST, port));
        drop(bytes);
        Ok(sent.is_ok())
    }

    // Whether what a sender gets next is this, from a port.
    fn gets(&self, sender: usize, port: u16, datagram: &Datagram) -> io::Result<bool> {
        match self.receive(sender, PATIENCE)? {
            Some((from, bytes)) => {
                let is_wanted = datagram.is(self.alloc, &bytes);
                drop(bytes);
                Ok(from == port && is_wanted)
            }
            None => Ok(false),
        }
    }

    // Whether a line is said as it is written.
    fn says(&self, line: &Line) -> io::Result<bool> {
        match line {
            Line::Sends(sender, port, datagram) => self.sends(*sender, *port, datagram),
            Line::Gets(sender, port, datagram) => self.gets(*sender, *port, datagram),
            Line::GetsNothing(sender) => Ok(self.receive(*sender, SILENCE)?.is_none()),
            Line::LetsGo => {
                self.stage.let_go();
                Ok(true)
            }
            Line::Jumps(moment) => {
                self.stage.jump(*moment);
                Ok(true)
            }
            Line::Asked(count) => Ok(self.was_asked(*count)),
        }
    }

    // Whether the clock was asked so often, now or soon.
    fn was_asked(&self, count: u64) -> bool {
        for _look in 0..LOOKS {
            if self.stage.ask_count() >= count {
                return true;
            }
            yield_now();
        }
        false
    }

    /// Says these lines, up to the first that isn't said as it is written.
    pub(crate) fn say(&mut self, lines: &[Line]) {
        for line in lines {
            match self.says(line) {
                Ok(true) => self.said = self.said.saturating_add(1),
                _ => break,
            }
        }
    }
}

impl Read for Talk<'_> {
    // It has nothing at first, as an input that doesn't wait.
    fn read(&mut self, _buf: &mut [u8]) -> io::Result<usize> {
        if !self.asked {
            self.asked = true;
            return Err(ErrorKind::WouldBlock.into());
        }
        self.say(self.lines);
        // Nothing is held behind the end.
        self.stage.let_go();
        Ok(0)
    }
}
