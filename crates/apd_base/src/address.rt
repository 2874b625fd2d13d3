//! Addresses of stations and of access points.
ghost use Rattle.std.specs.Prelude.{◌≡◌, ℕ, [], ◌∷◌, ◌%◌, ◌<◌, ◌↔◌, ◌++◌, IsTrue, IfSome, OnOk, OnErr, Some, slice_index};
ghost use Rattle.std.specs.Cmp.Lexicographic.{slice_cmp};
ghost use Rattle.std.specs.Int.{from_be_bytes, w64};
ghost use Rattle.std.specs.List.{AllByRecursion};
ghost use Rattle.std.specs.Ordering.{nat_cmp, on, as_partial_cmp};
ghost use Rattle.std.specs.Cmp.{partial_order_from_own_ties};
ghost use Rattle.std.specs.Cmp.Rules.{comparing};
ghost use Rattle.std.proofs.Common.{rules};
ghost use Rattle.std.specs.declared.cmp.Ordering.TheVariants.{Less};
ghost use Rattle.apd_base.specs.Addr.{IsAddr, address_of, text_of, digit_value_of, byte_value};
ghost use Rattle.apd_base.specs.declared.address.Addr.{Addr as Address};
ghost use Rattle.apd_base.specs.declared.address.Bssid.{Bssid as BssAddress};
ghost use Rattle.apd_base.specs.declared.station.Which.TheVariants.{Accept, Deny};

use crate::station::Which;
use crate::text::hex_digit;
use std::alloc::AllocError;
use std::cmp::Ordering;
use std::fmt;

/// A MAC address: its six bytes as they are sent. Addresses are ordered by them, the first byte
/// first (IEEE Std 802.11-2016, 9.2.4.3.2).
#[derive(Clone, Copy, Debug, PartialEq, Eq)]
pub struct Addr(pub [u8; 6]);

impl PartialOrd for Addr {
    ghost partial_cmp = { as_partial_cmp (on (λ a. a.0) (slice_cmp nat_cmp)) };

    ghost laws = { partial_order_from_own_ties (Prim.search (comparing, rules)) (Prim.search (comparing, rules)) };

    fn partial_cmp(&self, other: &Addr) -> Option<Ordering> {
        Some(self.cmp(other))
    }
}

impl Ord for Addr {
    ghost cmp = { on (λ a. a.0) (slice_cmp nat_cmp) };

    ghost total = { Prim.search (comparing, rules) };

    ghost matches_partial_cmp = { Prim.search (comparing, rules) };

    ghost matches_eq = { Prim.search (comparing, rules) };

    // The numbers that the bytes are compare as the bytes do, and faster.
    fn cmp(&self, other: &Addr) -> Ordering {
        self.number().cmp(&other.number())
    }
}

/// The address of all stations (IEEE Std 802.11-2016, 9.2.4.3.3).
pub const BROADCAST: Addr = Addr([0xff, 0xff, 0xff, 0xff, 0xff, 0xff]);

/// The bytes of an address in writing.
pub const TEXT_LENGTH: usize = 17;

/// The address of one of the access point's radios.
#[derive(Clone, Copy, Debug, PartialEq, Eq, PartialOrd, Ord)]
pub struct Bssid(pub Addr);

fn value_of(digit: u8) -> Option<u8>
    ensures value { result ≡ digit_value_of digit }
    ensures small { IfSome result (λ v. v < 16) }
{
    match digit {
        b'0'..=b'9' => Some(digit - b'0'),
        b'a'..=b'f' => Some(digit - b'a' + 10),
        b'A'..=b'F' => Some(digit - b'A' + 10),
        _ => None,
    }
}

fn byte_of(high: u8, low: u8) -> Option<u8>
    ensures { result ≡ byte_value high low }
{
    let high = value_of(high)?;
    let low = value_of(low)?;
    Some(high * 16 + low)
}

// Tells a caller's proof that they are bytes. It does nothing.
#[tactic(auto, using(crate::proofs::AddrNumbers::all_bytes))]
fn known_bytes(bytes: &[u8])
    ensures { AllByRecursion (λ b. b < 256) bytes.now }
{}

impl Addr {
    // The number that its bytes are, the first byte highest.
    fn number(&self) -> u64
        ensures number { result ≡ from_be_bytes w64 (0 ∷ 0 ∷ self.now.0) }
        ensures address { IsAddr self.now }
    {
        known_bytes(&self.0);
        let [a, b, c, d, e, f] = self.0;
        u64::from_be_bytes([0, 0, a, b, c, d, e, f])
    }

    /// Reads exactly six pairs of hexadecimal digits, of either case, joined by `:`. It takes no memory.
    pub fn parse(text: &[u8]) -> Option<Addr>
        ensures { result ≡ address_of text.now }
    {
        if text.len() != TEXT_LENGTH {
            return None;
        }
        let mut bytes = [0; 6];
        for i in 0..6 {
            if i < 5 && text[3 * i + 2] != b':' {
                return None;
            }
            let Some(byte) = byte_of(text[3 * i], text[3 * i + 1]) else {
                return None;
            };
            bytes[i] = byte;
        }
        Some(Addr(bytes))
    }

    /// Its text: six pairs of lower case digits joined by `:`.
    pub fn text(&self) -> [u8; TEXT_LENGTH]
        ensures { result ≡ text_of self.now }
    {
        let [a, b, c, d, e, f] = self.0;
        [
            hex_digit(a / 16),
            hex_digit(a % 16),
            b':',
            hex_digit(b / 16),
            hex_digit(b % 16),
            b':',
            hex_digit(c / 16),
            hex_digit(c % 16),
            b':',
            hex_digit(d / 16),
            hex_digit(d % 16),
            b':',
            hex_digit(e / 16),
            hex_digit(e % 16),
            b':',
            hex_digit(f / 16),
            hex_digit(f % 16),
        ]
    }

    /// Writes its text at the end, or leaves all as it was.
    pub fn write_text(&self, out: &mut Vec<u8>) -> Result<(), AllocError>
        ensures ok { OnOk result (out.new.items ≡ out.old.items ++ text_of self.now) }
        ensures err { OnErr result (out.new.items ≡ out.old.items) }
    {
        out.extend_from_slice(&self.text())
    }

    /// Whether it is a group's address, as the broadcast address is: the Individual/Group bit, which
    /// is bit 0 of the first byte (IEEE Std 802.11-2016, 9.2.4.3.3).
    pub fn is_group(&self) -> bool
        ensures { IsTrue result ↔ (slice_index self.now.0 0 % 2 ≡ 1) }
    {
        self.0[0] % 2 == 1
    }
}

impl fmt::Display for Addr {
    ghost output = { λ a. Some (text_of a) };

    fn fmt<W: fmt::Write>(&self, f: &mut fmt::Formatter<W>) -> fmt::Result {
        let [a, b, c, d, e, g] = self.0;
        write!(f, "{a:02x}:{b:02x}:{c:02x}:{d:02x}:{e:02x}:{g:02x}")
    }
}

/// What `text` writes, `parse` reads again.
pub fn text_law()
    ensures { (a : Address) → IsAddr a → address_of (text_of a) ≡ Some a }
{}

/// Addresses and BSSIDs are ordered by their bytes, the first byte first; of a BSSID's two lists the
/// accept list comes first.
pub fn orders_law()
    ensures addresses { (a b : Address) → ⟦<Addr as Ord>⟧.cmp a b ≡ slice_cmp nat_cmp a.0 b.0 }
    ensures bssids { (b c : BssAddress) → ⟦<Bssid as Ord>⟧.cmp b c ≡ slice_cmp nat_cmp b.0.0 c.0.0 }
    ensures lists { ⟦<Which as Ord>⟧.cmp Accept Deny ≡ Less }
{}

/// The broadcast address is that of all stations: each of its bits is 1 (IEEE Std 802.11-2016,
/// 9.2.4.3.3).
pub fn broadcast_law()
    ensures { BROADCAST.0 ≡ 255 ∷ 255 ∷ 255 ∷ 255 ∷ 255 ∷ 255 ∷ [] }
{}
