//! The frames that stations send (IEEE Std 802.11-2016, 9.3.2 and 9.3.3).
use crate::generator::Generator;
use apd_base::Station;
use std::alloc::{AllocError, Global};

/// The last byte of the first BSSID; those behind it follow.
pub(crate) const FIRST_BSSID: u8 = 1;

/// The last byte of the first station's address; those behind it follow.
pub(crate) const FIRST_STATION: u8 = 0x10;

/// How many stations there are.
pub(crate) const STATIONS: u8 = 16;

/// What a station sends, with its own place at 15, and the BSSID's at 9 and 21.
const AUTHENTICATION: [u8; 30] = [
    0xb0, 0, 0, 0, 2, 0, 0, 0, 0, 1, 2, 0, 0, 0, 0, 0xaa, 2, 0, 0, 0, 0, 1, 0x10, 0, 0, 0, 1, 0, 0,
    0,
];

const ASSOCIATION: [u8; 39] = [
    0, 0, 0, 0, 2, 0, 0, 0, 0, 1, 2, 0, 0, 0, 0, 0xaa, 2, 0, 0, 0, 0, 1, 0x20, 0, 0x31, 4, 0x0a, 0,
    0, 3, 0x6e, 0x65, 0x74, 1, 4, 0x82, 0x84, 0x8b, 0x96,
];

const REASSOCIATION: [u8; 45] = [
    0x20, 0, 0, 0, 2, 0, 0, 0, 0, 1, 2, 0, 0, 0, 0, 0xaa, 2, 0, 0, 0, 0, 1, 0x20, 0, 0x31, 4, 0x0a,
    0, 2, 0, 0, 0, 0, 2, 0, 3, 0x6e, 0x65, 0x74, 1, 4, 0x82, 0x84, 0x8b, 0x96,
];

const DEAUTHENTICATION: [u8; 26] = [
    0xc0, 0, 0, 0, 2, 0, 0, 0, 0, 1, 2, 0, 0, 0, 0, 0xaa, 2, 0, 0, 0, 0, 1, 0x30, 0, 3, 0,
];

const DISASSOCIATION: [u8; 26] = [
    0xa0, 0, 0, 0, 2, 0, 0, 0, 0, 1, 2, 0, 0, 0, 0, 0xaa, 2, 0, 0, 0, 0, 1, 0x30, 0, 8, 0,
];

const DATA: [u8; 24] = [
    8, 1, 0, 0, 2, 0, 0, 0, 0, 1, 2, 0, 0, 0, 0, 0xaa, 2, 0, 0, 0, 0, 1, 0, 0,
];

const PROBE: [u8; 29] = [
    0x40, 0, 0, 0, 2, 0, 0, 0, 0, 1, 2, 0, 0, 0, 0, 0xaa, 2, 0, 0, 0, 0, 1, 0, 0, 0, 3, 0x6e, 0x65,
    0x74,
];

/// What a frame is.
#[derive(Clone, Copy)]
pub(crate) enum Kind {
    Authentication,
    Association,
    Reassociation,
    Deauthentication,
    Disassociation,
    Data,
    Probe,
    Rubbish,
}

impl Kind {
    /// Whether such a frame always becomes an entry, unless the core has failed: it is answered.
    pub(crate) fn is_answered(self) -> bool {
        matches!(
            self,
            Kind::Authentication | Kind::Association | Kind::Reassociation
        )
    }

    /// Whether such a frame of a station of this row is no entry.
    pub(crate) fn is_quiet_of(self, row: Option<Station>) -> bool {
        match self {
            Kind::Authentication | Kind::Association | Kind::Reassociation => false,
            Kind::Deauthentication => row.is_none(),
            Kind::Disassociation => matches!(row, Some(Station::Authenticated)),
            Kind::Data => matches!(row, Some(Station::Associated(_))),
            Kind::Probe | Kind::Rubbish => true,
        }
    }

    fn template(self) -> &'static [u8] {
        match self {
            Kind::Authentication => &AUTHENTICATION,
            Kind::Association => &ASSOCIATION,
            Kind::Reassociation => &REASSOCIATION,
            Kind::Deauthentication => &DEAUTHENTICATION,
            Kind::Disassociation => &DISASSOCIATION,
            Kind::Data => &DATA,
            Kind::Probe => &PROBE,
            Kind::Rubbish => &[],
        }
    }
}

/// A frame that a radio receives.
#[derive(Drop)]
pub(crate) struct Frame {
    pub(crate) kind: Kind,
    /// The last byte of its station's address.
    pub(crate) station: u8,
    pub(crate) bytes: Vec<u8>,
}

// The addresses are those of the BSSID and of the station that end by these bytes.
fn address(bytes: &mut [u8], bssid: u8, station: u8) {
    for (at, byte) in [(9, bssid), (15, station), (21, bssid)] {
        if let Some(place) = bytes.get_mut(at) {
            *place = byte;
        }
    }
}

fn rubbish(alloc: Global, draws: &mut Generator) -> Result<Vec<u8>, AllocError> {
    let mut bytes = Vec::new(alloc);
    for _ in 0..draws.below(60) {
        bytes.push(draws.byte())?;
    }
    Ok(bytes)
}

/// A frame of a kind, from the station to the radio that end by these bytes.
pub(crate) fn make_frame(
    alloc: Global,
    kind: Kind,
    bssid: u8,
    station: u8,
    draws: &mut Generator,
) -> Result<Frame, AllocError> {
    let mut bytes = match kind {
        Kind::Rubbish => rubbish(alloc, draws)?,
        _ => Vec::from_slice(alloc, kind.template())?,
    };
    address(&mut bytes, bssid, station);
    Ok(Frame {
        kind,
        station,
        bytes,
    })
}
