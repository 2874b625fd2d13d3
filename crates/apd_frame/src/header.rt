//! The fields of a frame's header (IEEE Std 802.11-2016, 9.2.4), and what is asked of them.
ghost use Rattle.std.specs.Prelude.{◌≡◌, ◌+◌, ◌<◌, ◌≤◌, ◌&&◌, ◌||◌, ◌==◌, not, drop, length};
ghost use Rattle.apd_frame.specs.declared.kind.Kind.TheVariants.{ProbeRequest};
ghost use Rattle.apd_frame.specs.Kinds.{is_data, is_management, is_of};
ghost use Rattle.apd_frame.specs.Octets.{address_at, bit, fragment_number, frame_type, from_ds, is_group_address, is_same_address, more_fragments, order, protected_frame, protocol_version, subtype, to_ds};
ghost use Rattle.apd_frame.specs.Outcome.{is_for};

use apd_base::{Addr, BROADCAST, Bssid};

/// The bytes of a header.
pub(crate) const HEADER: usize = 24;

fn bit(bytes: &[u8], place: usize, number: u32) -> bool
    requires place { place < length bytes.now }
    requires number { number < 8 }
    ensures { result ≡ bit bytes.now place number }
{
    (bytes[place] >> number) % 2 == 1
}

pub(crate) fn protocol_version(bytes: &[u8]) -> u8
    requires { 24 ≤ length bytes.now }
    ensures { result ≡ protocol_version bytes.now }
{
    bytes[0] % 4
}

fn frame_type(bytes: &[u8]) -> u8
    requires { 24 ≤ length bytes.now }
    ensures { result ≡ frame_type bytes.now }
{
    bytes[0] / 4 % 4
}

pub(crate) fn subtype(bytes: &[u8]) -> u8
    requires { 24 ≤ length bytes.now }
    ensures { result ≡ subtype bytes.now }
{
    bytes[0] / 16
}

pub(crate) fn address_at(bytes: &[u8], place: usize) -> Addr
    requires { place + 6 ≤ length bytes.now }
    ensures { result ≡ address_at bytes.now place }
{
    Addr([
        bytes[place],
        bytes[place + 1],
        bytes[place + 2],
        bytes[place + 3],
        bytes[place + 4],
        bytes[place + 5],
    ])
}

/// The bytes from a place on.
pub(crate) fn rest_from(bytes: &[u8], place: usize) -> &[u8]
    requires { place ≤ length bytes.now }
    ensures { result.now ≡ drop place bytes.now }
{
    &bytes[place..]
}

pub(crate) fn is_management(bytes: &[u8]) -> bool
    requires { 24 ≤ length bytes.now }
    ensures { result ≡ is_management bytes.now }
{
    frame_type(bytes) == 0
}

pub(crate) fn is_data(bytes: &[u8]) -> bool
    requires { 24 ≤ length bytes.now }
    ensures { result ≡ is_data bytes.now }
{
    frame_type(bytes) == 2
}

fn is_probe_request(bytes: &[u8]) -> bool
    requires { 24 ≤ length bytes.now }
    ensures { result ≡ is_of bytes.now ProbeRequest }
{
    is_management(bytes) && subtype(bytes) == 4
}

pub(crate) fn is_other_class(bytes: &[u8]) -> bool
    requires { 24 ≤ length bytes.now }
    ensures { result ≡ (frame_type bytes.now == 1 || frame_type bytes.now == 3) }
{
    let class = frame_type(bytes);
    class == 1 || class == 3
}

pub(crate) fn is_fragment(bytes: &[u8]) -> bool
    requires { 24 ≤ length bytes.now }
    ensures { result ≡ (more_fragments bytes.now || not (fragment_number bytes.now == 0)) }
{
    bit(bytes, 1, 2) || bytes[22] % 16 != 0
}

pub(crate) fn is_flagged(bytes: &[u8]) -> bool
    requires { 24 ≤ length bytes.now }
    ensures { result ≡ (is_management bytes.now && (protected_frame bytes.now || order bytes.now)) }
{
    is_management(bytes) && (bit(bytes, 1, 6) || bit(bytes, 1, 7))
}

pub(crate) fn is_other_direction(bytes: &[u8]) -> bool
    requires { 24 ≤ length bytes.now }
    ensures { result ≡ (is_data bytes.now && not (to_ds bytes.now && not (from_ds bytes.now))) }
{
    is_data(bytes) && !(bit(bytes, 1, 0) && !bit(bytes, 1, 1))
}

fn is_same(a: Addr, b: Addr) -> bool
    ensures { result ≡ is_same_address a b }
{
    a == b
}

pub(crate) fn is_group_or_own(address: Addr, own: Bssid) -> bool
    ensures { result ≡ (is_group_address address || is_same_address address own.0) }
{
    address.is_group() || is_same(address, own.0)
}

pub(crate) fn is_for(bytes: &[u8], own: Bssid, address: Addr) -> bool
    requires { 24 ≤ length bytes.now }
    ensures { result ≡ is_for bytes.now own address }
{
    is_same(address, own.0) || (is_probe_request(bytes) && is_same(address, BROADCAST))
}
