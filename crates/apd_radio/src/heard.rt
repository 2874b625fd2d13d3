//! What is heard of one peer.
ghost use Rattle.std.specs.Prelude.{◌∷◌, []};

use std::net::SocketAddr;

/// What is heard of one peer at a port.
#[derive(Drop)]
pub(crate) enum Heard {
    /// No datagram waits.
    Nothing,
    /// The next datagram came from elsewhere, and was dropped.
    Stranger,
    /// The next datagram is the peer's: its bytes.
    Datagram(Vec<u8>),
}

impl Heard {
    ghost use Rattle.apd_radio.specs.Drivers.{IsHeard};

    /// What is heard of the peer where this datagram came in, by its sender and its bytes.
    pub(crate) fn of(peer: SocketAddr, sender: SocketAddr, bytes: Vec<u8>) -> Heard
        ensures { IsHeard peer ((sender, bytes.items) ∷ []) result }
    {
        if sender != peer {
            return Heard::Stranger;
        }
        Heard::Datagram(bytes)
    }
}
