//! What a table holds of a station and of a BSSID.
ghost use Rattle.std.specs.Prelude.{◌≡◌, ◌≤◌, ◌↔◌, ℕ, IsTrue, IsSome, IfSome};
ghost use Rattle.apd_base.specs.Mode.{mode_number};
ghost use Rattle.apd_base.specs.declared.limits.TheConstants.{MAX_STATIONS};

use crate::limits::MAX_STATIONS;

/// The state of a station in the table of a BSSID (IEEE Std 802.11-2016, 11.3.1: a station in no row
/// is in state 1, the others are in states 2 and 4).
#[derive(Clone, Copy, Debug, PartialEq, Eq)]
pub enum Station {
    /// State 2: it may associate.
    Authenticated,
    /// State 4.
    Associated(Association),
}

/// The fields of an association: its identifier, and the Capability Information and Listen Interval
/// that the station asked with (IEEE Std 802.11-2016, 9.4.1.4 and 9.4.1.6).
#[derive(Clone, Copy, Debug, PartialEq, Eq)]
pub struct Association {
    pub aid: Aid,
    /// As the bits of its field.
    pub capability: u16,
    /// In beacon intervals.
    pub listen_interval: u16,
}

/// An association identifier, from 1 to 2007 (IEEE Std 802.11-2016, 9.4.1.8).
#[derive(Clone, Copy, Debug, PartialEq, Eq)]
pub struct Aid {
    pub number: u16,
    pub ghost low: { 1 ≤ number },
    pub ghost high: { number ≤ MAX_STATIONS },
}

impl Aid {
    /// The identifier of a number, exactly where it is from 1 to 2007.
    pub fn new(number: u16) -> Option<Aid>
        ensures some { IsSome result ↔ ((1 ≤ number) × (number ≤ MAX_STATIONS)) }
        ensures number { IfSome result (λ aid. aid.number ≡ number) }
    {
        if 1 <= number && number as usize <= MAX_STATIONS {
            Some(Aid { number })
        } else {
            None
        }
    }
}

/// One of a BSSID's two lists of addresses.
#[derive(Clone, Copy, Debug, PartialEq, Eq, PartialOrd, Ord)]
pub enum Which {
    /// Stations that are allowed in each mode.
    Accept,
    /// Stations that are denied, unless they are on the accept list too.
    Deny,
}

/// What becomes of a station that is on neither list of its BSSID: the values of `macaddr_acl`.
#[derive(Clone, Copy, Debug, PartialEq, Eq)]
pub enum AclMode {
    /// 0: it is allowed. Only stations on the deny list, and not on the accept list, are denied.
    AcceptUnlessDenied,
    /// 1: it is denied. Only stations on the accept list are allowed.
    DenyUnlessAccepted,
}

impl AclMode {
    /// Its number, as files and records have it.
    pub fn number(self) -> u8
        ensures { result ≡ mode_number self }
    {
        match self {
            AclMode::AcceptUnlessDenied => 0,
            AclMode::DenyUnlessAccepted => 1,
        }
    }
}

/// A number from 0 to 2007, as an identifier or the count of a BSSID's stations is: how many stations a
/// policy admits, and the identifier that a BSSID gave last (0: none yet).
#[derive(Clone, Copy, Debug, PartialEq, Eq)]
pub struct StationNumber {
    pub number: u16,
    pub ghost in_range: { number ≤ MAX_STATIONS },
}

impl StationNumber {
    /// The same number, exactly where it is at most 2007.
    pub fn new(number: u16) -> Option<StationNumber>
        ensures some { IsSome result ↔ (number ≤ MAX_STATIONS) }
        ensures number { IfSome result (λ found. found.number ≡ number) }
    {
        if number as usize <= MAX_STATIONS {
            Some(StationNumber { number })
        } else {
            None
        }
    }
}

/// A BSSID's policy: which stations it allows, and how many.
#[derive(Clone, Copy, Debug, PartialEq, Eq)]
pub struct Policy {
    pub mode: AclMode,
    /// From how many rows on a new station is refused. There may be more rows than that, where it was
    /// lowered.
    pub max: StationNumber,
}
