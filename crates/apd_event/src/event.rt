//! What the station management entity is asked to decide.
ghost use Rattle.std.specs.Prelude.{◌≡◌};

use apd_base::{Addr, Bssid, Which};
use apd_frame::{Frame, Reason};

/// What a control command does to a list.
#[derive(Clone, Copy, Debug, PartialEq, Eq)]
pub enum Edit {
    /// An address is put into it.
    Add(Addr),
    /// An address is taken out of it.
    Remove(Addr),
    /// All are.
    Clear,
}

/// An event at one of the BSSIDs.
#[derive(Clone, Copy, Debug, PartialEq, Eq)]
pub enum Event<'a> {
    /// A frame was received by the radio of the BSSID.
    Heard(Bssid, Frame<'a>),
    /// A control command sends a station away; all of the BSSID's, where the address is the broadcast
    /// address. `deauth` says which of the two frames they are told by, and the tag is that of the
    /// answer.
    Kick {
        bssid: Bssid,
        to: Addr,
        reason: Reason,
        deauth: bool,
        tag: u64,
    },
    /// A control command edits one of the BSSID's lists.
    ListEdit {
        bssid: Bssid,
        which: Which,
        edit: Edit,
        tag: u64,
    },
    /// Nothing was heard from a station for too long.
    Expire {
        bssid: Bssid,
        addr: Addr,
    },
    /// The BSSID starts with its configuration. The lists are those of its list files, rising, without
    /// doubles and of at most 1024 addresses; they count where it has no policy row yet.
    Configure {
        bssid: Bssid,
        accept: &'a [Addr],
        deny: &'a [Addr],
    },
}

impl Event<'_> {
    ghost use Rattle.apd_event.specs.Happening.{happening, bssid_of};

    /// The BSSID at which it happens.
    pub fn bssid(&self) -> Bssid
        ensures { result ≡ bssid_of (happening self.now) }
    {
        match *self {
            Event::Heard(bssid, _) => bssid,
            Event::Kick { bssid, .. } => bssid,
            Event::ListEdit { bssid, .. } => bssid,
            Event::Expire { bssid, .. } => bssid,
            Event::Configure { bssid, .. } => bssid,
        }
    }
}
