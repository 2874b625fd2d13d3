//! The rows of a table as changes.
ghost use Rattle.std.specs.Prelude.{◌≡◌, ◌++◌, map as list_map, OnOk};
ghost use Rattle.apd_acl.specs.Lists.{list_of};
ghost use Rattle.apd_record.specs.declared.change.Change.TheVariants.{ListAdd};
ghost use Rattle.apd_table.specs.Snapshot.{changes_of_list, lists_of_rows, policies_of_rows, cursors_of_rows, station_change};

use crate::bss_rows::Bss;
use apd_acl::Lists;
use apd_base::{Addr, Bssid, Station, Which};
use apd_record::{Change, Changes};
use std::alloc::{AllocError, Global};
use std::collections::{BTreeMap, BTreeSet};

/// The most bytes that the records of a snapshot have (own): 8 policies of 10 bytes, 8 identifiers given
/// last of 9, 16,384 addresses of 14 in lists, and 16,056 stations of 20.
pub const MAX_SNAPSHOT: usize = 550_648;

/// Adds the policies of rows.
pub(crate) fn add_policies(changes: &mut Changes, rows: &[(Bssid, Bss)]) -> Result<(), AllocError>
    ensures { OnOk result (changes.new ≡ changes.old ++ policies_of_rows rows.now) }
{
    for row in rows {
        changes.push(Change::Policy {
            bssid: row.0,
            policy: row.1.policy,
        })?;
    }
    Ok(())
}

/// Adds the identifiers that were given last at rows, but where none was.
pub(crate) fn add_cursors(changes: &mut Changes, rows: &[(Bssid, Bss)]) -> Result<(), AllocError>
    ensures { OnOk result (changes.new ≡ changes.old ++ cursors_of_rows rows.now) }
{
    for row in rows {
        if row.1.cursor.number != 0 {
            changes.push(Change::Cursor {
                bssid: row.0,
                last: row.1.cursor,
            })?;
        }
    }
    Ok(())
}

// Adds addresses to a list, in order.
fn add_keys(
    changes: &mut Changes,
    bssid: Bssid,
    which: Which,
    keys: &BTreeSet<Addr>,
) -> Result<(), AllocError>
    ensures { OnOk result (changes.new ≡ changes.old ++ list_map (λ a. ListAdd bssid which a) keys.now.keys) }
{
    for addr in keys {
        changes.push(Change::ListAdd {
            bssid,
            which,
            addr: *addr,
        })?;
    }
    Ok(())
}

// Adds the addresses of one list, rising.
fn add_list(
    changes: &mut Changes,
    bssid: Bssid,
    which: Which,
    lists: &Lists,
) -> Result<(), AllocError>
    ensures { OnOk result (changes.new ≡ changes.old ++ changes_of_list bssid which (list_of lists.now which)) }
{
    add_keys(changes, bssid, which, lists.keys(which))
}

/// Adds the lists of rows, the accept list of each first.
pub(crate) fn add_lists(changes: &mut Changes, rows: &[(Bssid, Bss)]) -> Result<(), AllocError>
    ensures { OnOk result (changes.new ≡ changes.old ++ lists_of_rows rows.now) }
{
    for row in rows {
        add_list(changes, row.0, Which::Accept, &row.1.lists)?;
        add_list(changes, row.0, Which::Deny, &row.1.lists)?;
    }
    Ok(())
}

/// Adds station rows, in order.
pub(crate) fn add_stations(
    changes: &mut Changes,
    rows: &BTreeMap<(Bssid, Addr), Station>,
) -> Result<(), AllocError>
    ensures { OnOk result (changes.new ≡ changes.old ++ list_map station_change rows.now.entries) }
{
    for (key, station) in rows {
        changes.push(Change::Put {
            bssid: key.0,
            addr: key.1,
            station: *station,
        })?;
    }
    Ok(())
}
