//! What is told of stations, by what their radio receives and sends.
use crate::driver_notes::Installation;
use crate::notices::{tell_associated, tell_left, tell_let_go};
use apd_base::{Addr, Bssid};
use apd_frame::{Frame, Reason, decode};
use log::Log;
use std::alloc::Global;

/// The first octets of the frames that end an association: of a disassociation and of a deauthentication (IEEE Std
/// 802.11-2016, 9.2.4.1.3).
const DISASSOCIATION: u8 = 0xa0;

const DEAUTHENTICATION: u8 = 0xc0;

/// Whom such a frame is for, and where its reason code stands (9.3.3.1, 9.3.3.5).
const ADDRESS_1: usize = 4;

const REASON: usize = 24;

/// The address of all stations.
const ALL: Addr = Addr([0xff; 6]);

/// The stations of a BSSID that are about to leave by a frame of their own, and the one that was removed last without one.
#[derive(Drop)]
pub struct StationNotes {
    bssid: Bssid,
    leaving: Vec<Addr>,
    removed: Option<Addr>,
}

fn is_farewell(frame: &[u8]) -> bool {
    match frame.first() {
        Some(first) => *first == DISASSOCIATION || *first == DEAUTHENTICATION,
        None => false,
    }
}

// The station that ends its association by a frame.
fn leaver(bssid: Bssid, frame: &[u8]) -> Option<Addr> {
    if !is_farewell(frame) {
        return None;
    }
    match decode(frame, bssid) {
        Ok(Frame::Disassoc { sender, .. } | Frame::Deauth { sender, .. }) => Some(sender),
        _ => None,
    }
}

// Whom a frame that is sent lets go, and for which reason.
fn farewell(frame: &[u8]) -> Option<(Addr, Reason)> {
    if !is_farewell(frame) {
        return None;
    }
    let to = frame.get(ADDRESS_1..)?.first_chunk::<6>()?;
    let reason = frame.get(REASON..)?.first_chunk::<2>()?;
    Some((Addr(*to), Reason(u16::from_le_bytes(*reason))))
}

// Whether a reason is one by which who isn't associated is refused.
fn refuses(reason: Reason) -> bool {
    reason == Reason::INVALID_CLASS2_FRAME || reason == Reason::INVALID_CLASS3_FRAME
}

impl StationNotes {
    /// The stations of a BSSID.
    pub fn new(alloc: Global, bssid: Bssid) -> StationNotes {
        StationNotes {
            bssid,
            leaving: Vec::new(alloc),
            removed: None,
        }
    }

    // Whether a station is about to leave.
    fn is_leaving(&self, addr: Addr) -> bool {
        self.leaving.iter().any(|other| *other == addr)
    }

    // Takes a station from those that are about to leave. Tells whether it was one.
    fn take_leaver(&mut self, addr: Addr) -> bool {
        match self.leaving.iter().position(|other| *other == addr) {
            Some(place) => {
                self.leaving.swap_remove(place);
                true
            }
            None => false,
        }
    }

    /// The station that ends its association by a frame that was received.
    pub(crate) fn leaver(&self, frame: &[u8]) -> Option<Addr> {
        leaver(self.bssid, frame)
    }

    /// An installed station is about to leave. Where memory lacks, it is not told that it did.
    pub(crate) fn expect_leave(&mut self, addr: Addr) {
        if !self.is_leaving(addr) {
            let _ = self.leaving.push(addr);
        }
    }

    /// A station was associated, if one was.
    pub(crate) fn note_associated<L: Log>(
        &mut self,
        log: &L,
        interface: &str,
        associated: Option<Installation>,
    ) {
        if let Some((addr, aid)) = associated {
            tell_associated(log, interface, addr, aid);
        }
    }

    /// A station was removed.
    pub(crate) fn note_removed<L: Log>(&mut self, log: &L, interface: &str, addr: Addr) {
        if self.take_leaver(addr) {
            tell_left(log, interface, addr);
        } else {
            self.removed = Some(addr);
        }
    }

    // Whether who was removed last is who gets a frame.
    fn has_removed(&self, to: Addr) -> bool {
        match self.removed {
            Some(addr) => addr == to || to == ALL,
            None => false,
        }
    }

    /// A frame was sent.
    pub(crate) fn note_sent<L: Log>(&mut self, log: &L, interface: &str, frame: &[u8]) {
        if let Some((to, reason)) = farewell(frame) {
            if self.has_removed(to) || !refuses(reason) {
                tell_let_go(log, interface, to, reason);
            }
            self.removed = None;
        }
    }
}
