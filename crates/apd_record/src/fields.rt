//! The fields of records: each is taken from the front of bytes, and what is behind it is left.
ghost use Rattle.std.specs.Prelude.{◌≡◌, ◌≢◌, ◌<◌, ℕ, List, ◌∷◌, ◌++◌, length, IfSome, IfNone};
ghost use Rattle.std.specs.Int.{to_le_bytes, w16};
ghost use Rattle.apd_base.specs.Addr.{IsAddr};
ghost use Rattle.apd_base.specs.Mode.{mode_number};
ghost use Rattle.apd_base.specs.State.{which_number};
ghost use Rattle.apd_base.specs.declared.station.Aid.{Aid as Identifier};
ghost use Rattle.apd_base.specs.declared.station.Association.{Association as Fields};
ghost use Rattle.apd_base.specs.declared.station.Station.TheVariants.{Associated};
ghost use Rattle.apd_base.specs.declared.station.AclMode.{AclMode as Mode};
ghost use Rattle.apd_base.specs.declared.station.Policy.{Policy as BssPolicy};
ghost use Rattle.apd_base.specs.declared.station.Station.{Station as Row};
ghost use Rattle.apd_base.specs.declared.station.StationNumber.{StationNumber as Number};
ghost use Rattle.apd_base.specs.declared.station.Which.{Which as WhichList};
ghost use Rattle.apd_record.specs.Ranges.{IsBssid, IsStation};
ghost use Rattle.apd_record.specs.Record.{station_bytes};

use apd_base::{AclMode, Addr, Aid, Association, Bssid, Policy, Station, StationNumber, Which};

/// An address: six bytes.
pub fn split_addr(bytes: &[u8]) -> Option<(Addr, &[u8])>
    ensures some { IfSome result (λ found. bytes.now ≡ found.0.0 ++ found.1.now) }
    ensures range { IfSome result (λ found. IsAddr found.0) }
    ensures none { IfNone result (length bytes.now < 6) }
{
    let (front, rest) = bytes.split_first_chunk::<6>()?;
    Some((Addr(*front), rest))
}

/// The address of a radio: six bytes.
pub fn split_bssid(bytes: &[u8]) -> Option<(Bssid, &[u8])>
    ensures some { IfSome result (λ found. bytes.now ≡ found.0.0.0 ++ found.1.now) }
    ensures range { IfSome result (λ found. IsBssid found.0) }
    ensures none { IfNone result (length bytes.now < 6) }
{
    let (addr, rest) = split_addr(bytes)?;
    Some((Bssid(addr), rest))
}

/// A number: two bytes, the lower one first.
fn split_number(bytes: &[u8]) -> Option<(u16, &[u8])>
    ensures some { IfSome result (λ found. bytes.now ≡ to_le_bytes w16 found.0 ++ found.1.now) }
    ensures none { IfNone result (length bytes.now < 2) }
{
    let (front, rest) = bytes.split_first_chunk::<2>()?;
    Some((u16::from_le_bytes(*front), rest))
}

/// One of the two lists: 0 accept, 1 deny.
pub fn split_which(bytes: &[u8]) -> Option<(Which, &[u8])>
    ensures some { IfSome result (λ found. bytes.now ≡ which_number found.0 ∷ found.1.now) }
    ensures none { IfNone result ((which : WhichList) (rest : List ℕ) → bytes.now ≢ which_number which ∷ rest) }
{
    match bytes {
        [0, rest @ ..] => Some((Which::Accept, rest)),
        [1, rest @ ..] => Some((Which::Deny, rest)),
        _ => None,
    }
}

/// A mode: 0 or 1.
fn split_mode(bytes: &[u8]) -> Option<(AclMode, &[u8])>
    ensures some { IfSome result (λ found. bytes.now ≡ mode_number found.0 ∷ found.1.now) }
    ensures none { IfNone result ((mode : Mode) (rest : List ℕ) → bytes.now ≢ mode_number mode ∷ rest) }
{
    match bytes {
        [0, rest @ ..] => Some((AclMode::AcceptUnlessDenied, rest)),
        [1, rest @ ..] => Some((AclMode::DenyUnlessAccepted, rest)),
        _ => None,
    }
}

/// A number of at most 2007.
pub fn split_station_number(bytes: &[u8]) -> Option<(StationNumber, &[u8])>
    ensures some { IfSome result (λ found. bytes.now ≡ to_le_bytes w16 found.0.number ++ found.1.now) }
    ensures none { IfNone result ((x : Number) (rest : List ℕ) → bytes.now ≢ to_le_bytes w16 x.number ++ rest) }
{
    let (number, rest) = split_number(bytes)?;
    Some((StationNumber::new(number)?, rest))
}

/// A policy: its mode and its limit.
pub fn split_policy(bytes: &[u8]) -> Option<(Policy, &[u8])>
    ensures some { IfSome result
        (λ found. bytes.now ≡ mode_number found.0.mode ∷ to_le_bytes w16 found.0.max.number ++ found.1.now) }
    ensures none { IfNone result ((policy : BssPolicy) (rest : List ℕ)
        → bytes.now ≢ mode_number policy.mode ∷ to_le_bytes w16 policy.max.number ++ rest) }
{
    let (mode, rest) = split_mode(bytes)?;
    let (max, rest) = split_station_number(rest)?;
    Some((Policy { mode, max }, rest))
}

/// An identifier: a number from 1 to 2007.
fn split_aid(bytes: &[u8]) -> Option<(Aid, &[u8])>
    ensures some { IfSome result (λ found. bytes.now ≡ to_le_bytes w16 found.0.number ++ found.1.now) }
    ensures none { IfNone result ((aid : Identifier) (rest : List ℕ) → bytes.now ≢ to_le_bytes w16 aid.number ++ rest) }
{
    let (number, rest) = split_number(bytes)?;
    Some((Aid::new(number)?, rest))
}

/// An association: its identifier, its capability and its listen interval.
fn split_association(bytes: &[u8]) -> Option<(Association, &[u8])>
    ensures some { IfSome result (λ found. 2 ∷ bytes.now ≡ station_bytes (Associated found.0) ++ found.1.now) }
    ensures range { IfSome result (λ found. IsStation (Associated found.0)) }
    ensures none { IfNone result ((association : Fields) (rest : List ℕ) → IsStation (Associated association)
        → 2 ∷ bytes.now ≢ station_bytes (Associated association) ++ rest) }
{
    let (aid, rest) = split_aid(bytes)?;
    let (capability, rest) = split_number(rest)?;
    let (listen_interval, rest) = split_number(rest)?;
    let association = Association {
        aid,
        capability,
        listen_interval,
    };
    Some((association, rest))
}

/// A station: kind 1 with nothing but zeros, or kind 2 with an association.
pub fn split_station(bytes: &[u8]) -> Option<(Station, &[u8])>
    ensures some { IfSome result (λ found. bytes.now ≡ station_bytes found.0 ++ found.1.now) }
    ensures range { IfSome result (λ found. IsStation found.0) }
    ensures none { IfNone result ((station : Row) (rest : List ℕ) → IsStation station
        → bytes.now ≢ station_bytes station ++ rest) }
{
    match bytes {
        [1, 0, 0, 0, 0, 0, 0, rest @ ..] => Some((Station::Authenticated, rest)),
        [2, rest @ ..] => {
            let (association, rest) = split_association(rest)?;
            Some((Station::Associated(association), rest))
        }
        _ => None,
    }
}
