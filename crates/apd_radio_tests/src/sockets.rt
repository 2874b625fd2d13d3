//! Sockets at the other end of radios.
use crate::expect::expect;
use std::alloc::Global;
use std::io::ErrorKind;
use std::net::{Ipv4Addr, Net, UdpSocket};
use std::process::Abort;

/// The socket of someone at the other end.
pub(crate) fn station(rt: &(impl Abort + Net)) -> UdpSocket {
    let socket = UdpSocket::bind(rt, (Ipv4Addr::LOCALHOST, 0)).expect(rt, "a socket");
    socket.set_nonblocking(true).expect(rt, "no waiting");
    socket
}

/// The port of a socket.
fn port_of(rt: &impl Abort, socket: &UdpSocket) -> u16 {
    let address = socket.local_addr();
    address.expect(rt, "an address").port()
}

/// A port that was free a moment ago.
pub(crate) fn free_port(rt: &(impl Abort + Net)) -> u16 {
    port_of(rt, &station(rt))
}

/// Two ports that were free a moment ago.
pub(crate) fn two_free_ports(rt: &(impl Abort + Net)) -> (u16, u16) {
    let (one, other) = (station(rt), station(rt));
    (port_of(rt, &one), port_of(rt, &other))
}

/// Expects that no datagram waits at a socket.
pub(crate) fn expect_silence(rt: &impl Abort, socket: &UdpSocket, room: &mut [u8]) {
    let fault = socket.recv_from(room).err().expect(rt, "silence");
    expect(rt, fault.kind(), ErrorKind::WouldBlock);
}

/// Expects this datagram at a socket; who sent it.
pub(crate) fn expect_datagram(
    rt: &impl Abort,
    socket: &UdpSocket,
    room: &mut [u8],
    bytes: &[u8],
) -> u16 {
    let (got, from) = socket.recv_from(room).expect(rt, "a datagram");
    expect(rt, room.get(..got), Some(bytes));
    from.port()
}

/// Sends a datagram to a port.
pub(crate) fn send(rt: &impl Abort, socket: &UdpSocket, port: u16, bytes: &[u8]) {
    let sent = socket.send_to(bytes, (Ipv4Addr::LOCALHOST, port));
    sent.expect(rt, "a datagram that is sent");
}

/// So many bytes of one value.
pub(crate) fn bytes(rt: &impl Abort, alloc: Global, byte: u8, count: usize) -> Vec<u8> {
    vec![in alloc; byte; count].expect(rt, "memory")
}
