//! From changes to their records.
ghost use Rattle.std.specs.Prelude.{◌≡◌, ◌≤◌, ◌-◌, ◌^◌, ◌∷◌, ◌++◌, length, min, IfOk, OnOk};
ghost use Rattle.apd_base.specs.State.{which_number};
ghost use Rattle.apd_record.specs.Ranges.{AreChanges};
ghost use Rattle.apd_record.specs.Record.{station_bytes, record_of, records_of};

use crate::change::Change;
use apd_base::{Addr, Bssid, Station, Which};
use std::alloc::{AllocError, Global};

/// The number of bytes of an address.
fn address_length(addr: Addr) -> usize
    ensures length { result ≡ length addr.0 }
    ensures six { result ≡ 6 }
{
    addr.0.len()
}

impl Change {
    /// The number of bytes of its record, from 8 to 20.
    #[tactic(auto, using(crate::proofs::Lengths::station_length))]
    pub fn record_length(&self) -> usize
        ensures length { result ≡ length (record_of self.now) }
        ensures small { result ≤ 20 }
    {
        match self {
            Change::Put { bssid, addr, .. } => {
                1 + address_length(bssid.0) + address_length(*addr) + 7
            }
            Change::Drop { bssid, addr } => 1 + address_length(bssid.0) + address_length(*addr),
            Change::ListAdd { bssid, addr, .. } | Change::ListDel { bssid, addr, .. } => {
                1 + address_length(bssid.0) + 1 + address_length(*addr)
            }
            Change::ListClear { bssid, .. } => 1 + address_length(bssid.0) + 1,
            Change::Policy { bssid, .. } => 1 + address_length(bssid.0) + 1 + 2,
            Change::Cursor { bssid, .. } => 1 + address_length(bssid.0) + 2,
        }
    }
}

/// The number of bytes of the records of changes, or the greatest number where there are more. It looks at
/// each change, so its caller also learns what is known of changes by their type.
pub fn total_length(changes: &[Change]) -> usize
    ensures total { result ≡ min (length (records_of changes.now)) (2 ^ 64 - 1) }
    ensures known { AreChanges changes.now }
{
    let mut total: usize = 0;
    for change in changes {
        change.range_law();
        total = total.saturating_add(change.record_length());
    }
    total
}

fn number_of(which: Which) -> u8
    ensures { result ≡ which_number which }
{
    match which {
        Which::Accept => 0,
        Which::Deny => 1,
    }
}

fn write_station(bytes: &mut Vec<u8>, station: &Station) -> Result<(), AllocError>
    ensures { OnOk result (bytes.new.items ≡ bytes.old.items ++ station_bytes station.now) }
{
    match station {
        Station::Authenticated => bytes.extend_from_slice(&[1, 0, 0, 0, 0, 0, 0]),
        Station::Associated(association) => {
            bytes.push(2)?;
            bytes.extend_from_slice(&association.aid.number.to_le_bytes())?;
            bytes.extend_from_slice(&association.capability.to_le_bytes())?;
            bytes.extend_from_slice(&association.listen_interval.to_le_bytes())
        }
    }
}

/// What each record begins with: its tag and its BSSID.
fn write_front(bytes: &mut Vec<u8>, tag: u8, bssid: Bssid) -> Result<(), AllocError>
    ensures { OnOk result (bytes.new.items ≡ bytes.old.items ++ tag ∷ bssid.0.0) }
{
    bytes.push(tag)?;
    bytes.extend_from_slice(&bssid.0.0)
}

/// The record of a row of a list: added with tag 3, taken away with tag 4.
fn write_list_row(
    bytes: &mut Vec<u8>,
    tag: u8,
    bssid: Bssid,
    which: Which,
    addr: Addr,
) -> Result<(), AllocError>
    ensures { OnOk result (bytes.new.items ≡ bytes.old.items ++ tag ∷ bssid.0.0 ++ which_number which ∷ addr.0) }
{
    write_front(bytes, tag, bssid)?;
    bytes.push(number_of(which))?;
    bytes.extend_from_slice(&addr.0)
}

fn write_record(bytes: &mut Vec<u8>, change: &Change) -> Result<(), AllocError>
    ensures { OnOk result (bytes.new.items ≡ bytes.old.items ++ record_of change.now) }
{
    match change {
        Change::Put {
            bssid,
            addr,
            station,
        } => {
            write_front(bytes, 1, *bssid)?;
            bytes.extend_from_slice(&addr.0)?;
            write_station(bytes, station)
        }
        Change::Drop { bssid, addr } => {
            write_front(bytes, 2, *bssid)?;
            bytes.extend_from_slice(&addr.0)
        }
        Change::ListAdd { bssid, which, addr } => write_list_row(bytes, 3, *bssid, *which, *addr),
        Change::ListDel { bssid, which, addr } => write_list_row(bytes, 4, *bssid, *which, *addr),
        Change::ListClear { bssid, which } => {
            write_front(bytes, 5, *bssid)?;
            Ok(bytes.push(number_of(*which))?)
        }
        Change::Policy { bssid, policy } => {
            write_front(bytes, 6, *bssid)?;
            bytes.push(policy.mode.number())?;
            bytes.extend_from_slice(&policy.max.number.to_le_bytes())
        }
        Change::Cursor { bssid, last } => {
            write_front(bytes, 7, *bssid)?;
            bytes.extend_from_slice(&last.number.to_le_bytes())
        }
    }
}

/// The records of changes, one behind another, or want of memory. It takes memory once, before the
/// first record. Its caller also learns what is known of changes by their type.
pub fn write(alloc: Global, changes: &[Change]) -> Result<Vec<u8>, AllocError>
    ensures records { IfOk result (λ bytes. bytes.items ≡ records_of changes.now) }
    ensures known { AreChanges changes.now }
{
    let mut bytes = Vec::with_capacity(alloc, total_length(changes))?;
    for change in changes {
        write_record(&mut bytes, change)?;
    }
    Ok(bytes)
}
