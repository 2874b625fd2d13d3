//! Datagrams of one port of this host.
ghost use Rattle.std.specs.Prelude.{◌≡◌, ◌≢◌, IfOk, IfErr, OnOk, OnErr, IsSome};
ghost use Rattle.std.specs.IoError.{error_kind};
ghost use Rattle.std.specs.Option.{option_map};

use crate::radio::RadioFault;
use libc::net::{SO_RCVBUF, SOL_SOCKET, setsockopt};
use std::alloc::{AllocError, Global};
use std::io::{self, ErrorKind};
use std::marker::Model;
use std::net::{Ipv4Addr, Net, SocketAddr, UdpSocket};
use std::os::fd::{AsRawFd, RawFd};
use thiserror::Error;

/// Bytes that a datagram may have, and more: what was received is never cut.
const MAX_DATAGRAM: usize = 65_536;

/// The room that the system is asked to keep for datagrams that wait, in bytes (own).
const ROOM: i32 = 4_194_304;

/// Why a port isn't open.
#[derive(Clone, Copy, PartialEq, Eq, Debug, Error)]
pub enum SocketFault {
    /// The port can't be had.
    #[error("no socket")]
    NoSocket = 1,
    /// Memory ran out.
    #[error("out of memory")]
    NoMemory,
}

impl From<AllocError> for SocketFault {
    ghost use Rattle.apd_radio.specs.declared.datagrams.SocketFault.TheVariants.{NoMemory};

    ghost from_gives = { λ _ fault. fault ≡ NoMemory };

    fn from(_error: AllocError) -> SocketFault {
        SocketFault::NoMemory
    }
}

// Asks the system for room for datagrams that wait. Where it gives less, it stays at that.
fn ask_for_room(socket: &UdpSocket) {
    let mut room = [0u8; 16];
    room[..4].copy_from_slice(&ROOM.to_ne_bytes());
    let _status = unsafe { setsockopt(socket.as_raw_fd(), SOL_SOCKET, SO_RCVBUF, &room, 4) };
}

// A call that a signal interrupted is made again.
fn retry<T: Drop, F: FnMut() -> io::Result<T>>(mut call: F) -> io::Result<T>
    requires { F.IsAlwaysCallable call }
{
    for _ in 0..u64::MAX {
        match call() {
            Err(error) if error.kind() == ErrorKind::Interrupted => {}
            answer => return answer,
        }
    }
    Err(ErrorKind::Interrupted.into())
}

// What a receiving call found: a datagram, by its length and its sender; none, where it would have to wait.
fn datagram_in(
    answer: io::Result<(usize, SocketAddr)>,
) -> Result<Option<(usize, SocketAddr)>, RadioFault>
    ensures some { IfOk answer (λ datagram. result ≡ Ok (Some datagram)) }
    ensures none { IfErr answer (λ error. error_kind error ≡ ErrorKind.WouldBlock → result ≡ Ok None) }
    ensures fault { IfErr answer (λ error. error_kind error ≢ ErrorKind.WouldBlock → result ≡ Err RadioFault.Device) }
{
    match answer {
        Ok(datagram) => Ok(Some(datagram)),
        Err(error) if error.kind() == ErrorKind::WouldBlock => Ok(None),
        Err(_) => Err(RadioFault::Device),
    }
}

/// A port of 127.0.0.1, which gives datagrams whole, one after the other, and sends them. It is closed where
/// it is dropped.
///
/// It is seen as the datagram that was received and not given out yet, for want of memory: its sender and its
/// bytes.
#[derive(Drop)]
pub struct Datagrams {
    socket: UdpSocket,
    buffer: Vec<u8>,
    // The sender of the datagram at the front of the buffer that waits, and its length.
    waiting: Option<(SocketAddr, usize)>,
    alloc: Global,
}

impl Model for Datagrams {
    ghost use Rattle.std.specs.Prelude.{ℕ, List, Option, take, vec_len, ◌≤◌};
    ghost use Rattle.std.specs.Option.{ForSome, option_map};
    ghost use Rattle.std.specs.declared.net.socket_addr.SocketAddr.{SocketAddr};

    ghost Value = { Option (SocketAddr × List ℕ) };

    ghost view = { λ a. option_map (λ w. (w.0, take w.1 a.buffer.items)) a.waiting };

    ghost invariant = { λ a. ForSome a.waiting (λ w. w.1 ≤ vec_len a.buffer) };
}

impl Datagrams {
    /// Opens the port, with room for 4 MiB of datagrams that wait, or as much as the system gives. Port 0 is for
    /// tests: the system chooses one that is free.
    ///
    /// Errors: `NoSocket` where the port can't be had, `NoMemory` where memory runs out.
    pub fn bind<R: Net>(rt: &R, alloc: Global, port: u16) -> Result<Datagrams, SocketFault>
        ensures { IfOk result (λ datagrams. datagrams ≡ None) }
    {
        let buffer = vec![in alloc; 0u8; MAX_DATAGRAM]?;
        let Ok(socket) = UdpSocket::bind(rt, (Ipv4Addr::LOCALHOST, port)) else {
            return Err(SocketFault::NoSocket);
        };
        if socket.set_nonblocking(true).is_err() {
            return Err(SocketFault::NoSocket);
        }
        ask_for_room(&socket);
        Ok(Datagrams {
            socket,
            buffer,
            waiting: None,
            alloc,
        })
    }

    /// The socket's descriptor, which can be read whenever a datagram waits in the system.
    pub fn descriptor(&self) -> RawFd {
        self.socket.as_raw_fd()
    }

    // Receives a datagram into the buffer, unless one waits there.
    fn fill(&mut self) -> Result<(), RadioFault>
        ensures kept { IsSome self.old → self.new ≡ self.old }
        ensures filled { IsSome self.old → result ≡ Ok tt }
        ensures fault { OnErr result ((result ≡ Err RadioFault.Device) × (self.new ≡ self.old)) }
    {
        if self.waiting.is_some() {
            return Ok(());
        }
        let answer = retry(|| self.socket.recv_from(self.buffer.as_mut_slice()));
        if let Some((len, sender)) = datagram_in(answer)? {
            // The system tells no more than there is room for.
            self.waiting = Some((sender, len.min(self.buffer.len())));
        }
        Ok(())
    }

    /// Gives the next datagram that was received, by its sender and its bytes, if one waits. It doesn't wait
    /// for one.
    ///
    /// Errors: `Device`, and none was received; `NoMemory`, and the datagram stays: the next call that has
    /// memory gives it.
    pub fn receive(&mut self) -> Result<Option<(SocketAddr, Vec<u8>)>, RadioFault>
        ensures first { IsSome self.old
            → IfOk result (λ got. option_map (λ datagram. (datagram.0, datagram.1.items)) got ≡ self.old) }
        ensures given { OnOk result (self.new ≡ None) }
        ensures kept { IsSome self.old → OnErr result ((result ≡ Err RadioFault.NoMemory) × (self.new ≡ self.old)) }
        ensures memory { result ≡ Err RadioFault.NoMemory → IsSome self.new }
        ensures device { result ≡ Err RadioFault.Device → (self.old ≡ None) × (self.new ≡ None) }
    {
        self.fill()?;
        let Some((sender, len)) = self.waiting else {
            return Ok(None);
        };
        let bytes = Vec::from_slice(self.alloc, &self.buffer[..len])?;
        self.waiting = None;
        Ok(Some((sender, bytes)))
    }

    /// Sends a datagram to a peer.
    ///
    /// Errors: `Device`, and nothing was sent. More than 65,507 bytes fit no datagram, now or later. Fewer are
    /// refused where the socket's buffer is full for now, or where the system has another reason: a later call
    /// may send them.
    pub fn send(&self, peer: SocketAddr, bytes: &[u8]) -> Result<(), RadioFault>
        ensures { OnErr result (result ≡ Err RadioFault.Device) }
    {
        if retry(|| self.socket.send_to(bytes, peer)).is_err() {
            return Err(RadioFault::Device);
        }
        Ok(())
    }
}
