//! What the station management entity decides.
ghost use Rattle.std.specs.Prelude.{◌≡◌, ◌==◌, ◌&&◌, length, IfOk};
ghost use Rattle.apd_mlme.specs.Outs.{reply_out};

use apd_base::{Addr, Aid, Bssid, Sequence};
use apd_frame::{Reply, encode};
use apd_record::Change;
use std::alloc::{AllocError, Global};

/// The most bytes that the records of one event's changes have: those of a first start with two full
/// lists, one policy and 2,048 addresses.
pub const MAX_RECORD_BYTES: usize = 28_682;

/// Who an out is for.
#[derive(Clone, Copy, Debug, PartialEq, Eq)]
pub enum Recipient {
    /// The radio of the BSSID.
    Radio(Bssid),
    /// Whoever gave the control command.
    Control,
}

/// Something that leaves: a call of a radio's driver, a frame for it to send, or the answer to a control
/// command.
#[derive(Debug, Drop)]
pub enum Out {
    /// The driver takes the station in, under its association identifier.
    Install(Addr, Aid),
    /// The driver lets the station go.
    Remove(Addr),
    /// The frame is sent, without its frame check sequence.
    Frame(Sequence<u8>),
    /// The command of this tag is answered by this text.
    Text(u64, Sequence<u8>),
}

/// What an event brings about: changes of the table, in order, and what leaves because of them.
#[derive(Debug, Drop)]
pub struct Decision {
    /// In an order in which each of them leaves a sound table.
    pub changes: Sequence<Change>,
    /// In the order in which each recipient gets its own.
    pub outs: Sequence<(Recipient, Out)>,
}

impl Decision {
    /// Whether nothing changes and nothing leaves.
    pub fn is_nothing(&self) -> bool
        ensures { result ≡ ((length self.now.changes == 0) && (length self.now.outs == 0)) }
    {
        self.changes.is_empty() && self.outs.is_empty()
    }
}

/// The frame of a reply, for the radio of its BSSID to send.
pub(crate) fn reply_out(alloc: Global, reply: &Reply) -> Result<(Recipient, Out), AllocError>
    ensures { IfOk result (λ out. out ≡ reply_out reply.now) }
{
    let frame = Sequence::from_vec(encode(alloc, reply)?);
    Ok((Recipient::Radio(reply.bssid), Out::Frame(frame)))
}

impl Recipient {
    ghost use Rattle.apd_mlme.specs.Outs.{is_same};

    /// Whether they are one, by the order of their BSSIDs, as definitions compare them.
    pub fn is_same(self, other: Recipient) -> bool
        ensures { result ≡ is_same self other }
    {
        match (self, other) {
            (Recipient::Radio(own), Recipient::Radio(bssid)) => own.cmp(&bssid).is_eq(),
            (Recipient::Control, Recipient::Control) => true,
            (Recipient::Radio(_), Recipient::Control) => false,
            (Recipient::Control, Recipient::Radio(_)) => false,
        }
    }
}
