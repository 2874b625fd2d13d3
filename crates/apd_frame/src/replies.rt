//! Frames that the access point sends.
ghost use Rattle.std.specs.Prelude.{◌≡◌, ◌≤◌, ◌↔◌, length, IfSome, IsSome};
ghost use Rattle.apd_frame.specs.Rates.{rate_octets};

use crate::codes::{Reason, Status};
use apd_base::{Addr, Aid, Bssid};
use std::marker::Model;

/// The rates that a radio offers, all of them basic: which of them depends on its physical layer
/// (own).
#[derive(Clone, Copy, Debug, PartialEq, Eq)]
pub enum Rates {
    /// 1, 2, 5.5 and 11 Mb/s (IEEE Std 802.11-2016, clause 16).
    HrDsss,
    /// 6, 12 and 24 Mb/s (clause 17).
    Ofdm,
}

impl Rates {
    /// The body of its Supported Rates element (IEEE Std 802.11-2016, 9.4.2.3): a rate is a byte in
    /// units of 500 kb/s, whose top bit marks a basic one.
    pub fn octets(self) -> &'static [u8]
        ensures { result.now ≡ rate_octets self }
    {
        match self {
            Rates::HrDsss => &[0x82, 0x84, 0x8b, 0x96],
            Rates::Ofdm => &[0x8c, 0x98, 0xb0],
        }
    }
}

/// The body of an SSID element (IEEE Std 802.11-2016, 9.4.2.2): 0 to 32 bytes. Contracts see them.
#[derive(Debug, Drop)]
pub struct SsidField {
    bytes: Vec<u8>,
}

impl Model for SsidField {
    ghost use Rattle.std.specs.Prelude.{List, ℕ, ◌≤◌, length};

    ghost Value = { List ℕ };

    ghost view = { λ a. a.bytes.items };

    ghost invariant = { λ a. length a.bytes.items ≤ 32 };
}

impl SsidField {
    /// The field of these bytes, exactly where they are at most 32. It takes no memory.
    pub fn from_vec(bytes: Vec<u8>) -> Option<SsidField>
        ensures some { IsSome result ↔ (length bytes.items ≤ 32) }
        ensures bytes { IfSome result (λ field. field ≡ bytes.items) }
    {
        if bytes.len() > 32 {
            return None;
        }
        Some(SsidField { bytes })
    }

    /// Its bytes.
    pub fn as_bytes(&self) -> &[u8]
        ensures bytes { result.now ≡ self.now }
        ensures short { length self.now ≤ 32 }
    {
        self.bytes.as_slice()
    }
}

/// What a response to an association or a reassociation request says (IEEE Std 802.11-2016, 9.3.3.7,
/// 9.3.3.9).
#[derive(Clone, Copy, Debug, PartialEq, Eq)]
pub struct AssociationResponse {
    /// The status code (9.4.1.9).
    pub status: Status,
    /// The association identifier (9.4.1.8); a refused station has none.
    pub aid: Option<Aid>,
    /// The rates of the radio.
    pub rates: Rates,
}

/// What a reply says.
#[derive(Debug, Drop)]
pub enum ReplyBody {
    /// Authentication (IEEE Std 802.11-2016, 9.3.3.12).
    Auth {
        /// The authentication algorithm number (9.4.1.1).
        algorithm: u16,
        /// The authentication transaction sequence number (9.4.1.2).
        transaction: u16,
        /// The status code (9.4.1.9).
        status: Status,
    },
    /// Association response (9.3.3.7).
    Assoc(AssociationResponse),
    /// Reassociation response (9.3.3.9).
    Reassoc(AssociationResponse),
    /// Probe response (9.3.3.11).
    Probe {
        /// The beacon interval (9.4.1.3), in time units of 1024 microseconds.
        beacon_interval: u16,
        /// The network's name.
        ssid: SsidField,
        /// The rates of the radio.
        rates: Rates,
        /// The channel, where a DSSS Parameter Set (9.4.2.4) tells it.
        channel: Option<u8>,
    },
    /// Disassociation (9.3.3.5).
    Disassoc {
        /// The reason code (9.4.1.7).
        reason: Reason,
    },
    /// Deauthentication (9.3.3.13).
    Deauth {
        /// The reason code (9.4.1.7).
        reason: Reason,
    },
}

/// A management frame that the access point sends.
#[derive(Debug, Drop)]
pub struct Reply {
    /// Address 1: the receiver.
    pub to: Addr,
    /// Addresses 2 and 3: the radio that sends it.
    pub bssid: Bssid,
    /// What it says.
    pub body: ReplyBody,
}
