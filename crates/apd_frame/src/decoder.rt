//! From bytes to a frame, or to the reason why they are ignored.
ghost use Rattle.std.specs.Prelude.{◌≡◌, ◌≢◌, ◌+◌, ◌≤◌, ◌↔◌, ℕ, false, List, Option, None, Some, Result, Ok, IfOk, MatchResult, length};
ghost use Rattle.std.specs.List.{find};
ghost use Rattle.apd_base.specs.declared.address.Bssid.{Bssid as Own};
ghost use Rattle.apd_frame.specs.declared.ignored.Ignored.{Ignored as WhyIgnored};
ghost use Rattle.apd_frame.specs.Contents.{Contents, contents, outcome_contents, sender_of};
ghost use Rattle.apd_frame.specs.Kinds.{fixed_octets, kind_of};
ghost use Rattle.apd_base.specs.declared.address.TheConstants.{BROADCAST};
ghost use Rattle.apd_frame.specs.Octets.{is_group_address};
ghost use Rattle.apd_frame.specs.Outcome.{contents_at, holds, outcome, reasons, IsOutcome};

use crate::codes::Reason;
use crate::header::{
    HEADER, address_at, is_flagged, is_for, is_fragment, is_group_or_own, is_management,
    is_other_class, is_other_direction, protocol_version, rest_from,
};
use crate::ignored::Ignored;
use crate::kind::Kind;
use crate::received::{Association, Authentication, Frame, Probe, Reassociation};
use apd_base::Bssid;
use apd_base::limits::MAX_FRAME;
use apd_base::number::u16_at;

/// The kind of a frame, or the first reason for which it is ignored.
fn kind_or_reason(bytes: &[u8], own: Bssid) -> Result<Kind, Ignored>
    ensures first { MatchResult result
        (λ kind. (find (holds bytes.now own) reasons ≡ None) × (kind_of bytes.now ≡ Some kind))
        (λ reason. find (holds bytes.now own) reasons ≡ Some reason) }
    ensures whole { IfOk result (λ kind. 24 + fixed_octets kind ≤ length bytes.now) }
{
    if bytes.len() > MAX_FRAME {
        return Err(Ignored::TooLong);
    }
    if bytes.len() < HEADER {
        return Err(Ignored::Short);
    }
    if protocol_version(bytes) != 0 {
        return Err(Ignored::Version);
    }
    if is_other_class(bytes) {
        return Err(Ignored::Class);
    }
    if is_fragment(bytes) {
        return Err(Ignored::Fragment);
    }
    if is_flagged(bytes) {
        return Err(Ignored::Flags);
    }
    if is_other_direction(bytes) {
        return Err(Ignored::Direction);
    }
    if is_group_or_own(address_at(bytes, 10), own) {
        return Err(Ignored::Sender);
    }
    if !is_for(bytes, own, address_at(bytes, 4)) {
        return Err(Ignored::Receiver);
    }
    if is_management(bytes) && !is_for(bytes, own, address_at(bytes, 16)) {
        return Err(Ignored::OtherBss);
    }
    let Some(kind) = Kind::of(bytes) else {
        return Err(Ignored::Subtype);
    };
    if bytes.len() < HEADER + kind.fixed_length() {
        return Err(Ignored::Body);
    }
    Ok(kind)
}

/// The frame of a kind whose fields are these bytes.
fn frame_of(bytes: &[u8], kind: Kind) -> Frame<'_>
    requires { 24 + fixed_octets kind ≤ length bytes.now }
    ensures { contents result ≡ contents_at kind bytes.now }
{
    let sender = address_at(bytes, 10);
    match kind {
        Kind::Uplink => Frame::Uplink { sender },
        Kind::AssociationRequest => Frame::Assoc(Association {
            sender,
            capability: u16_at(bytes, 24),
            listen_interval: u16_at(bytes, 26),
            elements: rest_from(bytes, 28),
        }),
        Kind::ReassociationRequest => Frame::Reassoc(Reassociation {
            sender,
            capability: u16_at(bytes, 24),
            listen_interval: u16_at(bytes, 26),
            current_ap: address_at(bytes, 28),
            elements: rest_from(bytes, 34),
        }),
        Kind::ProbeRequest => Frame::Probe(Probe {
            sender,
            elements: rest_from(bytes, HEADER),
        }),
        Kind::Disassociation => Frame::Disassoc {
            sender,
            reason: Reason(u16_at(bytes, 24)),
        },
        Kind::Authentication => Frame::Auth(Authentication {
            sender,
            algorithm: u16_at(bytes, 24),
            transaction: u16_at(bytes, 26),
            status: u16_at(bytes, 28),
        }),
        Kind::Deauthentication => Frame::Deauth {
            sender,
            reason: Reason(u16_at(bytes, 24)),
        },
    }
}

/// What bytes are to the radio of a BSSID: the first reason of [`Ignored`] that holds, or the frame.
/// Nothing is copied: its elements are a slice of the bytes. It takes no memory.
pub fn decode(bytes: &[u8], own: Bssid) -> Result<Frame<'_>, Ignored>
    ensures { outcome_contents result ≡ outcome bytes.now own }
{
    let kind = kind_or_reason(bytes, own)?;
    Ok(frame_of(bytes, kind))
}

/// Of any bytes exactly one outcome holds, and it is what [`decode`] answers: a reason that holds
/// while none before it does, or, where no reason holds, what the frame says, each field in its
/// place.
pub fn exactly_one_outcome()
    ensures { (f : List ℕ) (own : Own) (x : Result Contents WhyIgnored) →
        IsOutcome f own x ↔ (x ≡ outcome f own) }
{}

/// The sender of a frame that is not ignored is a single station: its address is no group's, so it is
/// not the broadcast address.
pub fn a_sender_is_one_station()
    ensures individual { (f : List ℕ) (own : Own) (c : Contents) → outcome f own ≡ Ok c
        → is_group_address (sender_of c) ≡ false }
    ensures not_broadcast { (f : List ℕ) (own : Own) (c : Contents) → outcome f own ≡ Ok c → sender_of c ≢ BROADCAST }
{}
