//! From records to their changes.
ghost use Rattle.std.specs.Prelude.{◌≡◌, ◌≢◌, ◌<◌, ℕ, List, ◌∷◌, ◌++◌, length, IfOk, IfSome, IfNone};
ghost use Rattle.apd_record.specs.Ranges.{IsBssid, IsChange, AreChanges};
ghost use Rattle.apd_record.specs.Record.{record_of, records_of};
ghost use Rattle.apd_record.specs.declared.change.Change.{Change as AnyChange};

use crate::change::Change;
use crate::fields::{
    split_addr, split_bssid, split_policy, split_station, split_station_number, split_which,
};
use apd_base::Bssid;
use std::alloc::{AllocError, Global};

/// The change of a tag and of a BSSID, by the fields that are behind them.
fn split_fields(tag: u8, bssid: Bssid, bytes: &[u8]) -> Option<(Change, &[u8])>
    ensures some { IfSome result (λ found. tag ∷ bssid.0.0 ++ bytes.now ≡ record_of found.0 ++ found.1.now) }
    ensures range { IfSome result (λ found. IsBssid bssid → IsChange found.0) }
    ensures none { IfNone result ((change : AnyChange) (rest : List ℕ) → IsChange change
        → tag ∷ bssid.0.0 ++ bytes.now ≢ record_of change ++ rest) }
{
    match tag {
        1 => {
            let (addr, rest) = split_addr(bytes)?;
            let (station, rest) = split_station(rest)?;
            Some((
                Change::Put {
                    bssid,
                    addr,
                    station,
                },
                rest,
            ))
        }
        2 => {
            let (addr, rest) = split_addr(bytes)?;
            Some((Change::Drop { bssid, addr }, rest))
        }
        3 => {
            let (which, rest) = split_which(bytes)?;
            let (addr, rest) = split_addr(rest)?;
            Some((Change::ListAdd { bssid, which, addr }, rest))
        }
        4 => {
            let (which, rest) = split_which(bytes)?;
            let (addr, rest) = split_addr(rest)?;
            Some((Change::ListDel { bssid, which, addr }, rest))
        }
        5 => {
            let (which, rest) = split_which(bytes)?;
            Some((Change::ListClear { bssid, which }, rest))
        }
        6 => {
            let (policy, rest) = split_policy(bytes)?;
            Some((Change::Policy { bssid, policy }, rest))
        }
        7 => {
            let (last, rest) = split_station_number(bytes)?;
            Some((Change::Cursor { bssid, last }, rest))
        }
        _ => None,
    }
}

/// The change whose record bytes begin with, and what is behind it.
fn split_record(bytes: &[u8]) -> Option<(Change, &[u8])>
    ensures some { IfSome result (λ found. bytes.now ≡ record_of found.0 ++ found.1.now) }
    ensures range { IfSome result (λ found. IsChange found.0) }
    ensures none { IfNone result ((change : AnyChange) (rest : List ℕ) → IsChange change
        → bytes.now ≢ record_of change ++ rest) }
{
    let (tag, rest) = bytes.split_first()?;
    let (bssid, rest) = split_bssid(rest)?;
    split_fields(*tag, bssid, rest)
}

/// The changes that bytes are the records of, or `None` exactly where they are the records of none, or
/// want of memory.
pub fn read_all(alloc: Global, bytes: &[u8]) -> Result<Option<Vec<Change>>, AllocError>
    ensures some { IfOk result (λ found. IfSome found (λ changes. records_of changes.items ≡ bytes.now)) }
    ensures range { IfOk result (λ found. IfSome found (λ changes. AreChanges changes.items)) }
    ensures none { IfOk result
        (λ found. IfNone found ((changes : List AnyChange) → AreChanges changes → records_of changes ≢ bytes.now)) }
{
    let mut changes = Vec::new(alloc);
    let mut rest = bytes;
    while !rest.is_empty() {
        let Some((change, after)) = split_record(rest) else {
            return Ok(None);
        };
        changes.push(change)?;
        rest = after;
    }
    Ok(Some(changes))
}
