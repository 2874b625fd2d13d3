//! Writes into the row of a BSSID.
ghost use Rattle.std.specs.Prelude.{◌≡◌, ◌<◌, ◌≤◌, OnOk, OnErr, IsOk, IsTrue, vec_len, slice_index_or, slice_set};
ghost use Rattle.apd_acl.specs.Lists.{has};
ghost use Rattle.apd_base.specs.declared.address.Bssid.{Bssid};
ghost use Rattle.apd_base.specs.declared.limits.TheConstants.{MAX_STATIONS};
ghost use Rattle.apd_table.specs.for_proofs.BssRows.{at_row, with_policy, with_cursor, with_added, with_removed, with_cleared, with_row};
ghost use Rattle.apd_table.specs.declared.bss_rows.Bss.{Bss};

use crate::bss_rows::Bss;
use apd_base::{Addr, Bssid, Policy, Station, StationNumber, Which};
use std::alloc::AllocError;

/// Sets the policy of the row at a place.
pub fn set_policy_at(rows: &mut Vec<(Bssid, Bss)>, at: usize, policy: Policy)
    requires { at < vec_len rows.old }
    ensures { (d : Bssid × Bss)
        → rows.new.items
        ≡ slice_set rows.old.items at (at_row (with_policy policy) (slice_index_or rows.old.items at d)) }
{
    let row = &mut rows[at];
    row.1.policy = policy;
}

/// Sets the identifier that was given last at the row at a place.
pub fn set_cursor_at(rows: &mut Vec<(Bssid, Bss)>, at: usize, last: StationNumber)
    requires { at < vec_len rows.old }
    ensures { (d : Bssid × Bss)
        → rows.new.items
        ≡ slice_set rows.old.items at (at_row (with_cursor last) (slice_index_or rows.old.items at d)) }
{
    let row = &mut rows[at];
    row.1.cursor = last;
}

/// Puts an address into a list of the row at a place.
pub fn add_at(
    rows: &mut Vec<(Bssid, Bss)>,
    at: usize,
    which: Which,
    addr: Addr,
) -> Result<(), AllocError>
    requires { at < vec_len rows.old }
    ensures ok { OnOk result
        ((d : Bssid × Bss)
        → rows.new.items
        ≡ slice_set rows.old.items at (at_row (with_added which addr) (slice_index_or rows.old.items at d))) }
    ensures err { OnErr result (rows.new.items ≡ rows.old.items) }
    ensures over { (d : Bssid × Bss) → IsTrue (has (slice_index_or rows.old.items at d).1.lists which addr)
        → IsOk result }
{
    let row = &mut rows[at];
    row.1.lists.add(which, addr)
}

/// Takes an address out of a list of the row at a place.
pub fn remove_at(rows: &mut Vec<(Bssid, Bss)>, at: usize, which: Which, addr: Addr)
    requires { at < vec_len rows.old }
    ensures { (d : Bssid × Bss)
        → rows.new.items
        ≡ slice_set rows.old.items at (at_row (with_removed which addr) (slice_index_or rows.old.items at d)) }
{
    let row = &mut rows[at];
    row.1.lists.remove(which, addr);
}

/// Takes each address out of a list of the row at a place.
pub fn clear_at(rows: &mut Vec<(Bssid, Bss)>, at: usize, which: Which)
    requires { at < vec_len rows.old }
    ensures { (d : Bssid × Bss)
        → rows.new.items
        ≡ slice_set rows.old.items at (at_row (with_cleared which) (slice_index_or rows.old.items at d)) }
{
    let row = &mut rows[at];
    row.1.lists.clear(which);
}

/// Goes along with a change of a station's row, in what the row at a place keeps of its stations.
pub fn change_row_at(
    rows: &mut Vec<(Bssid, Bss)>,
    at: usize,
    old: Option<Station>,
    new: Option<Station>,
)
    requires bound { at < vec_len rows.old }
    requires few { (d : Bssid × Bss) → (slice_index_or rows.old.items at d).1.members.count ≤ MAX_STATIONS }
    ensures { (d : Bssid × Bss)
        → rows.new.items
        ≡ slice_set rows.old.items at (at_row (with_row old new) (slice_index_or rows.old.items at d)) }
{
    let row = &mut rows[at];
    row.1.members.change_row(old, new);
}
