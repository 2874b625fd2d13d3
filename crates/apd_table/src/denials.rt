//! Which rows of a BSSID a mode denies by the lists that a change leaves.
ghost use Rattle.std.specs.Prelude.{◌≡◌, [], ◌∷◌, IfOk, cond, filter, map as list_map};
ghost use Rattle.std.specs.FinMap as map;
ghost use Rattle.std.specs.List.{list_any};
ghost use Rattle.std.specs.Ordering.{eq_by_cmp};
ghost use Rattle.apd_base.specs.State.{which_cmp};
ghost use Rattle.apd_table.specs.Addresses.{has_after, listed_address, policy_after, is_denied_after, is_address_denied_after};
ghost use Rattle.apd_table.specs.Rows.{is_station_row_of};

use crate::stations::Stations;
use apd_acl::{Lists, policy};
use apd_base::{AclMode, Addr, Bssid, Policy, Which};
use apd_record::Change;
use std::alloc::{AllocError, Global};

/// The addresses of all rows of the BSSID.
pub fn addresses(alloc: Global, stations: &Stations, bssid: Bssid) -> Result<Vec<Addr>, AllocError>
    ensures { IfOk result
        (λ v. v.items ≡ list_map (λ row. row.0.1) (filter (is_station_row_of bssid) (map.entries stations.now))) }
{
    stations.of(bssid).map(|row| row.0.1).collect(alloc)
}

fn is_same_list(one: Which, other: Which) -> bool
    ensures { result ≡ eq_by_cmp which_cmp one other }
{
    one.cmp(&other).is_eq()
}

// Whether the lists of the BSSID have an address once a change is made.
fn is_listed_after(lists: &Lists, bssid: Bssid, change: &Change, which: Which, addr: Addr) -> bool
    ensures { result ≡ has_after lists.now bssid change.now which addr }
{
    let is_listed = lists.has(which, addr);
    match *change {
        Change::ListAdd {
            bssid: at,
            which: list,
            addr: added,
        } => {
            let is_added = bssid.cmp(&at).is_eq()
                && is_same_list(which, list)
                && addr.cmp(&added).is_eq();
            is_added || is_listed
        }
        Change::ListDel {
            bssid: at,
            which: list,
            addr: taken,
        } => {
            let is_taken = bssid.cmp(&at).is_eq()
                && is_same_list(which, list)
                && addr.cmp(&taken).is_eq();
            !is_taken && is_listed
        }
        Change::ListClear {
            bssid: at,
            which: list,
        } => {
            let is_cleared = at.cmp(&bssid).is_eq() && is_same_list(list, which);
            !is_cleared && is_listed
        }
        Change::Put { .. } | Change::Drop { .. } | Change::Policy { .. } | Change::Cursor { .. } =>
            is_listed,
    }
}

/// Whether a mode denies an address of the BSSID once a change is made.
pub fn is_denied_after(
    addr: Addr,
    bssid: Bssid,
    lists: &Lists,
    mode: AclMode,
    change: &Change,
) -> bool
    ensures { result ≡ is_address_denied_after lists.now mode bssid change.now addr }
{
    let is_accepted = is_listed_after(lists, bssid, change, Which::Accept, addr);
    let is_denied = is_listed_after(lists, bssid, change, Which::Deny, addr);
    !policy::is_allowed(mode, is_accepted, is_denied)
}

/// The policy of the BSSID once a change is made.
pub fn policy_after(bssid: Bssid, policy: Policy, change: &Change) -> Policy
    ensures { result ≡ policy_after policy bssid change.now }
{
    match *change {
        Change::Policy {
            bssid: at,
            policy: new,
        } => { if bssid.cmp(&at).is_eq() { new } else { policy } }
        Change::Put { .. }
        | Change::Drop { .. }
        | Change::ListAdd { .. }
        | Change::ListDel { .. }
        | Change::ListClear { .. }
        | Change::Cursor { .. } => policy,
    }
}

/// Whether a row of the BSSID is denied once a change is made.
pub fn denies_any_after(
    stations: &Stations,
    bssid: Bssid,
    lists: &Lists,
    mode: AclMode,
    change: &Change,
) -> bool
    ensures { result ≡ list_any (is_denied_after lists.now mode bssid change.now) (map.entries stations.now) }
{
    let mut rows = stations.of(bssid);
    rows.any(|row| is_denied_after(row.0.1, bssid, lists, mode, change))
}

/// The addresses of the rows of the BSSID that are denied once a change is made.
pub fn denials_after(
    alloc: Global,
    stations: &Stations,
    bssid: Bssid,
    lists: &Lists,
    mode: AclMode,
    change: &Change,
) -> Result<Vec<Addr>, AllocError>
    ensures { IfOk result
        (λ v. v.items
        ≡ list_map (λ row. row.0.1) (filter (is_denied_after lists.now mode bssid change.now)
        (map.entries stations.now))) }
{
    let rows = stations.of(bssid);
    rows.filter(|row| is_denied_after(row.0.1, bssid, lists, mode, change))
        .map(|row| row.0.1)
        .collect(alloc)
}

/// The address that a change adds to a list or takes out of one.
pub fn listed_address(change: &Change) -> Option<Addr>
    ensures { result ≡ listed_address change.now }
{
    match *change {
        Change::ListAdd { addr, .. } | Change::ListDel { addr, .. } => Some(addr),
        Change::Put { .. }
        | Change::Drop { .. }
        | Change::ListClear { .. }
        | Change::Policy { .. }
        | Change::Cursor { .. } => None,
    }
}

/// The address alone, if it is denied.
pub fn alone(alloc: Global, addr: Addr, is_denied: bool) -> Result<Vec<Addr>, AllocError>
    ensures { IfOk result (λ v. v.items ≡ cond is_denied (addr ∷ []) []) }
{
    let mut addresses = Vec::new(alloc);
    if is_denied {
        addresses.push(addr)?;
    }
    Ok(addresses)
}
