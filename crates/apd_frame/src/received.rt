//! Frames that come from stations.
ghost use Rattle.std.specs.Prelude.{◌≡◌};

use crate::codes::Reason;
use apd_base::Addr;

/// An authentication frame (IEEE Std 802.11-2016, 9.3.3.12).
#[derive(Clone, Copy, Debug, PartialEq, Eq)]
pub struct Authentication {
    /// Address 2: the station that sent it.
    pub sender: Addr,
    /// The authentication algorithm number (9.4.1.1).
    pub algorithm: u16,
    /// The authentication transaction sequence number (9.4.1.2).
    pub transaction: u16,
    /// The status code (9.4.1.9).
    pub status: u16,
}

/// An association request (IEEE Std 802.11-2016, 9.3.3.6).
#[derive(Clone, Copy, Debug, PartialEq, Eq)]
pub struct Association<'a> {
    /// Address 2: the station that sent it.
    pub sender: Addr,
    /// The Capability Information (9.4.1.4), as the bits of its field.
    pub capability: u16,
    /// The listen interval (9.4.1.6), in beacon intervals.
    pub listen_interval: u16,
    /// The bytes behind the fixed fields: its elements, where they are well formed.
    pub elements: &'a [u8],
}

/// A reassociation request (IEEE Std 802.11-2016, 9.3.3.8).
#[derive(Clone, Copy, Debug, PartialEq, Eq)]
pub struct Reassociation<'a> {
    /// Address 2: the station that sent it.
    pub sender: Addr,
    /// The Capability Information (9.4.1.4), as the bits of its field.
    pub capability: u16,
    /// The listen interval (9.4.1.6), in beacon intervals.
    pub listen_interval: u16,
    /// The Current AP Address (9.4.1.5): the access point that the station says it is associated with.
    pub current_ap: Addr,
    /// The bytes behind the fixed fields: its elements, where they are well formed.
    pub elements: &'a [u8],
}

/// A probe request (IEEE Std 802.11-2016, 9.3.3.10).
#[derive(Clone, Copy, Debug, PartialEq, Eq)]
pub struct Probe<'a> {
    /// Address 2: the station that sent it.
    pub sender: Addr,
    /// The bytes of its body: its elements, where they are well formed.
    pub elements: &'a [u8],
}

/// A frame that is not ignored. Its elements are a slice of the bytes that it was decoded from.
#[derive(Clone, Copy, Debug, PartialEq, Eq)]
pub enum Frame<'a> {
    /// Authentication.
    Auth(Authentication),
    /// Association request.
    Assoc(Association<'a>),
    /// Reassociation request.
    Reassoc(Reassociation<'a>),
    /// Probe request.
    Probe(Probe<'a>),
    /// Disassociation (IEEE Std 802.11-2016, 9.3.3.5).
    Disassoc {
        /// Address 2: the station that sent it.
        sender: Addr,
        /// The reason code (9.4.1.7).
        reason: Reason,
    },
    /// Deauthentication (9.3.3.13).
    Deauth {
        /// Address 2: the station that sent it.
        sender: Addr,
        /// The reason code (9.4.1.7).
        reason: Reason,
    },
    /// Data for the access point: To DS is 1 and From DS is 0 (9.2.4.1.4), whatever the subtype.
    Uplink {
        /// Address 2: the station that sent it.
        sender: Addr,
    },
}

impl Frame<'_> {
    ghost use Rattle.apd_frame.specs.Contents.{contents, sender_of};

    /// The station that sent it: Address 2.
    pub fn sender(&self) -> Addr
        ensures { result ≡ sender_of (contents self.now) }
    {
        match *self {
            Frame::Auth(Authentication { sender, .. })
            | Frame::Assoc(Association { sender, .. })
            | Frame::Reassoc(Reassociation { sender, .. })
            | Frame::Probe(Probe { sender, .. })
            | Frame::Disassoc { sender, .. }
            | Frame::Deauth { sender, .. }
            | Frame::Uplink { sender } => sender,
        }
    }
}
