//! The rows of BSSIDs: each has a policy, two lists, and what is kept of its stations.
ghost use Rattle.std.specs.Prelude.{◌≡◌, ◌<◌, ◌≤◌, ◌++◌, OnOk, OnErr, IsOk, IfOk, IfSome, IsSome, IsTrue, T, not, map as list_map};
ghost use Rattle.std.specs.List.{slice_get};
ghost use Rattle.std.specs.Option.{option_copied, option_map};
ghost use Rattle.std.specs.FinMap as map;
ghost use Rattle.apd_base.specs.Addr.{bssid_cmp};
ghost use Rattle.apd_base.specs.Sets.{contains};
ghost use Rattle.apd_base.specs.State.{is_list_row_of};
ghost use Rattle.apd_base.specs.declared.address.Addr.{Addr};
ghost use Rattle.apd_base.specs.declared.limits.TheConstants.{MAX_STATIONS};
ghost use Rattle.apd_base.specs.declared.station.Which.{Which};
ghost use Rattle.apd_table.specs.for_proofs.BssRows.{no_bss, parts_of, policy_of, cursor_of, members_of, with_bss, is_listed_in};
ghost use Rattle.apd_table.specs.for_proofs.Members.{after_row};
ghost use Rattle.apd_table.specs.Snapshot.{cursor_changes, list_changes, policy_changes};
ghost use Rattle.apd_table.specs.declared.bss_rows.Bss.{Bss};

use crate::members::Members;
use crate::snapshot::{add_cursors, add_lists, add_policies};
use crate::writes::{add_at, change_row_at, clear_at, remove_at, set_cursor_at, set_policy_at};
use apd_acl::Lists;
use apd_base::{Addr, Bssid, Policy, Station, StationNumber, Which, rows};
use apd_record::Changes;
use std::alloc::{AllocError, Global};
use std::marker::Model;

/// What a BSSID has besides its station rows.
#[derive(Drop)]
pub struct Bss {
    pub policy: Policy,
    // The identifier that was given last, 0 where none was yet.
    pub cursor: StationNumber,
    pub lists: Lists,
    pub members: Members,
}

/// The rows in the order of BSSIDs, seen as the list rows and the policy rows of a state, the identifier that
/// each gave last, and what is kept of the stations of each.
#[derive(Drop)]
pub struct BssRows {
    rows: Vec<(Bssid, Bss)>,
}

impl Model for BssRows {
    ghost use Rattle.std.specs.Prelude.{T};
    ghost use Rattle.std.specs.FinMap as map;
    ghost use Rattle.apd_base.specs.Addr.{bssid_cmp};
    ghost use Rattle.apd_table.specs.for_proofs.BssState.{BssState, coded_bss_state};

    ghost Value = { BssState };

    ghost coded = { coded_bss_state };

    ghost use Rattle.apd_table.specs.for_proofs.BssRows.{state_of_rows};

    ghost view = { λ a. state_of_rows a.rows.items };

    ghost invariant = { λ a. T (map.is_sorted bssid_cmp a.rows.items) };
}

impl BssRows {
    /// No row. It takes no memory.
    pub fn new(alloc: Global) -> BssRows
        ensures { result ≡ no_bss }
    {
        BssRows {
            rows: Vec::new(alloc),
        }
    }

    /// The same rows once more.
    pub fn copy(&self, alloc: Global) -> Result<BssRows, AllocError>
        ensures { IfOk result (λ t. t ≡ self.now) }
    {
        Ok(BssRows {
            rows: copy_of(alloc, &self.rows)?,
        })
    }

    /// The row of a BSSID.
    pub fn get(&self, bssid: Bssid) -> Option<&Bss>
        ensures policy { option_map policy_of (option_copied result) ≡ map.get self.now.policies bssid }
        ensures lists { (w : Which) (a : Addr)
            → is_listed_in (option_copied result) w a ≡ contains self.now.lists (bssid, w, a) }
        ensures members { option_map members_of (option_copied result) ≡ map.get self.now.members bssid }
        ensures cursor { option_map cursor_of (option_copied result) ≡ map.get self.now.cursors bssid }
    {
        rows::value(&self.rows, &bssid)
    }

    /// The rows, in the order of their BSSIDs.
    pub fn rows(&self) -> &[(Bssid, Bss)]
        ensures keys { list_map (λ row. row.0) result.now ≡ map.keys self.now.policies }
        ensures members { parts_of members_of result.now ≡ map.entries self.now.members }
    {
        &self.rows
    }

    /// How many rows there are.
    pub fn len(&self) -> usize
        ensures { result ≡ map.len self.now.policies }
    {
        self.rows.len()
    }

    /// The BSSID of the row at a place.
    pub fn at(&self, place: usize) -> Option<Bssid>
        ensures { result ≡ slice_get (map.keys self.now.policies) place }
    {
        bssid_at(&self.rows, place)
    }

    /// Adds the changes that make the rows: all policies, then the identifiers given last but where none
    /// was, and then all lists.
    pub fn add_changes(&self, changes: &mut Changes) -> Result<(), AllocError>
        ensures { OnOk result
            (changes.new
            ≡ changes.old
            ++ (policy_changes self.now.policies ++ (cursor_changes self.now.cursors ++ list_changes self.now.lists))) }
    {
        add_policies(changes, &self.rows)?;
        add_cursors(changes, &self.rows)?;
        add_lists(changes, &self.rows)?;
        Ok(())
    }

    /// Sets a BSSID's policy, or leaves all as it was. It lacks memory only for a BSSID without a row, whose
    /// lists are then empty, and which has no station and gave no identifier yet.
    pub fn set(&mut self, bssid: Bssid, policy: Policy) -> Result<(), AllocError>
        ensures ok { OnOk result (self.new ≡ with_bss self.old bssid policy) }
        ensures err { OnErr result (self.new ≡ self.old) }
        ensures over { IsSome (map.get self.old.policies bssid) → IsOk result }
    {
        match rows::place(&self.rows, &bssid) {
            Ok(at) => {
                set_policy_at(&mut self.rows, at, policy);
                Ok(())
            }
            Err(at) => {
                let lists = Lists::new(*self.rows.allocator());
                let members = Members::none();
                let bss = Bss {
                    policy,
                    cursor: StationNumber { number: 0 },
                    lists,
                    members,
                };
                Ok(self.rows.insert(at, (bssid, bss))?)
            }
        }
    }

    /// Sets the identifier that was given last at a BSSID with a row.
    pub fn set_cursor(&mut self, bssid: Bssid, last: StationNumber)
        requires { IsSome (map.get self.old.policies bssid) }
        ensures { self.new ≡ record self.old { cursors = map.insert self.old.cursors bssid last } }
    {
        if let Ok(at) = rows::place(&self.rows, &bssid) {
            set_cursor_at(&mut self.rows, at, last);
        }
    }

    /// Puts an address into a list of a BSSID with a row, or leaves all as it was. It lacks memory only
    /// for an address that is not there.
    pub fn add(&mut self, bssid: Bssid, which: Which, addr: Addr) -> Result<(), AllocError>
        requires { IsSome (map.get self.old.policies bssid) }
        ensures ok { OnOk result
            (self.new ≡ record self.old { lists = map.insert self.old.lists (bssid, which, addr) tt }) }
        ensures err { OnErr result (self.new ≡ self.old) }
        ensures over { IsTrue (contains self.old.lists (bssid, which, addr)) → IsOk result }
    {
        match rows::place(&self.rows, &bssid) {
            Ok(at) => add_at(&mut self.rows, at, which, addr),
            Err(_) => Ok(()),
        }
    }

    /// Takes an address out of a list, if it is there.
    pub fn remove(&mut self, bssid: Bssid, which: Which, addr: Addr)
        ensures { self.new ≡ record self.old { lists = map.remove self.old.lists (bssid, which, addr) } }
    {
        if let Ok(at) = rows::place(&self.rows, &bssid) {
            remove_at(&mut self.rows, at, which, addr);
        }
    }

    /// Takes each address out of a list.
    pub fn clear(&mut self, bssid: Bssid, which: Which)
        ensures { self.new
            ≡ record self.old { lists = map.retain_keys self.old.lists (λ row. not (is_list_row_of bssid which row)) } }
    {
        if let Ok(at) = rows::place(&self.rows, &bssid) {
            clear_at(&mut self.rows, at, which);
        }
    }

    /// Goes along with a change of a station's row at the BSSID, from what it was to what it is.
    pub fn change_row(&mut self, bssid: Bssid, old: Option<Station>, new: Option<Station>)
        requires { IfSome (map.get self.old.members bssid) (λ x. x.count ≤ MAX_STATIONS) }
        ensures { self.new ≡ record self.old { members = after_row old new bssid self.old.members } }
    {
        if let Ok(at) = rows::place(&self.rows, &bssid) {
            change_row_at(&mut self.rows, at, old, new);
        }
    }
}

// The BSSID of the row at a place.
fn bssid_at(rows: &[(Bssid, Bss)], place: usize) -> Option<Bssid>
    ensures { result ≡ option_map (λ row. row.0) (slice_get rows.now place) }
{
    if place < rows.len() {
        Some(rows[place].0)
    } else {
        None
    }
}

fn copy_of(alloc: Global, rows: &[(Bssid, Bss)]) -> Result<Vec<(Bssid, Bss)>, AllocError>
    ensures { IfOk result (λ v. v.items ≡ rows.now) }
{
    let mut copy = Vec::new(alloc);
    for row in rows {
        copy.push((row.0, copy_of_bss(alloc, &row.1)?))?;
    }
    Ok(copy)
}

fn copy_of_bss(alloc: Global, bss: &Bss) -> Result<Bss, AllocError>
    ensures { IfOk result (λ copy. copy ≡ bss.now) }
{
    Ok(Bss {
        policy: bss.policy,
        cursor: bss.cursor,
        lists: bss.lists.copy(alloc)?,
        members: bss.members,
    })
}
