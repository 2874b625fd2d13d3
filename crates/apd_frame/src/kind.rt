//! The kinds of frames that the access point takes.
ghost use Rattle.std.specs.Prelude.{◌≡◌, ◌≤◌, length};
ghost use Rattle.apd_frame.specs.Kinds.{fixed_octets, kind_of};

use crate::header::{is_data, is_management, subtype};

/// The kinds of frames that the access point takes (IEEE Std 802.11-2016, 9.2.4.1.3, Table 9-1).
#[derive(Clone, Copy)]
pub(crate) enum Kind {
    /// Data of any subtype.
    Uplink,
    /// Management, subtype 0.
    AssociationRequest,
    /// Management, subtype 2.
    ReassociationRequest,
    /// Management, subtype 4.
    ProbeRequest,
    /// Management, subtype 10.
    Disassociation,
    /// Management, subtype 11.
    Authentication,
    /// Management, subtype 12.
    Deauthentication,
}

impl Kind {
    /// The kind of a frame, if it is one of these.
    pub(crate) fn of(bytes: &[u8]) -> Option<Kind>
        requires { 24 ≤ length bytes.now }
        ensures { result ≡ kind_of bytes.now }
    {
        if is_data(bytes) {
            return Some(Kind::Uplink);
        }
        if !is_management(bytes) {
            return None;
        }
        match subtype(bytes) {
            0 => Some(Kind::AssociationRequest),
            2 => Some(Kind::ReassociationRequest),
            4 => Some(Kind::ProbeRequest),
            10 => Some(Kind::Disassociation),
            11 => Some(Kind::Authentication),
            12 => Some(Kind::Deauthentication),
            _ => None,
        }
    }

    /// The bytes of the fixed fields in front of its body.
    pub(crate) fn fixed_length(self) -> usize
        ensures { result ≡ fixed_octets self }
    {
        match self {
            Kind::Uplink | Kind::ProbeRequest => 0,
            Kind::AssociationRequest => 4,
            Kind::ReassociationRequest => 10,
            Kind::Disassociation | Kind::Deauthentication => 2,
            Kind::Authentication => 6,
        }
    }
}
