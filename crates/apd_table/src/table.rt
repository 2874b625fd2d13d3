//! A table, seen as the state of an access point.
ghost use Rattle.std.specs.Prelude.{◌≡◌, ◌≢◌, ℕ, ◌<◌, ◌≤◌, ◌⊎◌, ◌↔◌, ◌&&◌, filter, length, map as list_map, OnOk, OnErr, IsOk, IfOk, IsSome, IfSome, IfNone, IsTrue, Some, None, Err};
ghost use Rattle.std.specs.List.{list_any, slice_get};
ghost use Rattle.std.specs.Option.{is_some, option_copied, option_map};
ghost use Rattle.std.specs.declared.cmp.Ordering.TheVariants.{Less};
ghost use Rattle.std.specs.FinMap as map;
ghost use Rattle.apd_base.specs.Addr.{addr_cmp};
ghost use Rattle.apd_base.specs.Sets.{contains};
ghost use Rattle.apd_base.specs.declared.address.Addr.{Addr};
ghost use Rattle.apd_base.specs.declared.address.Bssid.{Bssid};
ghost use Rattle.apd_base.specs.declared.limits.TheConstants.{MAX_BSS, MAX_STATIONS, MAX_LISTED};
ghost use Rattle.apd_base.specs.declared.station.Which.{Which};
ghost use Rattle.apd_base.specs.State.{aid_of, station_at, policy_at, count, list_count, IsListed, empty_state};
ghost use Rattle.apd_acl.specs.Least.{IsLeast, IsLeastAbove};
ghost use Rattle.apd_acl.specs.Lists.{has, list_of};
ghost use Rattle.apd_record.specs.Meaning.{meaning, meaning_of, put_station, drop_station, add_to_list, take_from_list, clear_list, set_policy, set_cursor};
ghost use Rattle.apd_record.specs.Record.{records_of};
ghost use Rattle.apd_record.specs.declared.change.Change.TheVariants.{Drop, ListAdd, Policy as SetPolicy};
ghost use Rattle.apd_table.specs.Addresses.{addresses_at, denials_after, is_denied_after, is_address_denied_after};
ghost use Rattle.apd_table.specs.Allowed.{allowed, denials_by, mode_and_max};
ghost use Rattle.apd_table.specs.Can.{CanPut, CanSet, CanAdd, IsAlone, MayHave, NoneDeniedAfter};
ghost use Rattle.apd_table.specs.LeastFree.{AreTakenAbove, IsLeastFree, IsNextFree};
ghost use Rattle.apd_table.specs.NewRow.{IsNewRow, IsOldRow};
ghost use Rattle.apd_table.specs.Rows.{AreMarkedAbove, IsLeastUnmarked, is_associated_apart};
ghost use Rattle.apd_table.specs.for_proofs.BssRows.{is_listed_in, policy_of};
ghost use Rattle.apd_table.specs.for_proofs.Members.{IsMembers, is_set};
ghost use Rattle.apd_table.specs.Snapshot.{canonical};
ghost use Rattle.apd_table.specs.Sound.{Sound, StaySound};
ghost use Rattle.apd_table.specs.Words.{AreWords};
ghost use Rattle.apd_table.specs.declared.snapshot.TheConstants.{MAX_SNAPSHOT};
ghost use Rattle.apd_table.specs.declared.table.TableFault.{TableFault};
ghost use Rattle.apd_table.specs.declared.table.TableFault.TheVariants.{NoMemory};

use crate::bss_rows::{Bss, BssRows};
use crate::denials;
use crate::members::Members;
use crate::stations::Stations;
use apd_acl::Lists;
use apd_base::limits::{MAX_BSS, MAX_LISTED, MAX_STATIONS};
use apd_base::{AclMode, Addr, Bssid, Policy, Station, StationNumber, Which};
use apd_record::{Change, Changes};
use std::alloc::{AllocError, Global};
use std::marker::Model;
use thiserror::Error;

/// Why a table refuses a change. It is then as it was.
#[derive(Clone, Copy, Debug, PartialEq, Eq, Error)]
pub enum TableFault {
    /// The state after it would not be sound.
    #[error("invalid change")]
    Invalid = 1,
    /// There is no memory for a new row.
    #[error("out of memory")]
    NoMemory,
}

impl From<AllocError> for TableFault {
    ghost from_gives = { λ _ e. e ≡ NoMemory };

    fn from(_: AllocError) -> Self {
        TableFault::NoMemory
    }
}

/// The stations, the lists and the policies of an access point, and the identifier that each BSSID gave
/// last, in a sound state.
#[derive(Drop)]
pub struct Table {
    stations: Stations,
    bss: BssRows,
}

impl Model for Table {
    ghost use Rattle.apd_base.specs.State.{State};
    ghost use Rattle.apd_base.specs.for_proofs.Codes.{coded_state};

    ghost Value = { State };

    ghost coded = { coded_state };

    ghost use Rattle.apd_table.specs.for_proofs.Table.{state_of, IsTable};

    ghost view = { state_of };

    ghost invariant = { IsTable };
}

fn is_associated(station: Option<Station>) -> bool
    ensures { result ≡ is_some (aid_of station) }
{
    match station {
        Some(Station::Associated(_)) => true,
        Some(Station::Authenticated) | None => false,
    }
}

// Whether the identifier is marked by no row, or by this one.
fn is_free(members: &Members, old: Option<Station>, aid: u16) -> bool
    requires { aid ≤ MAX_STATIONS }
    ensures { IsTrue result ↔ (IsTrue (is_set members.now.words aid) → aid_of old ≡ Some aid) }
{
    !members.has(aid) || has_aid(old, aid)
}

// Whether a row has the identifier.
fn has_aid(station: Option<Station>, aid: u16) -> bool
    ensures { IsTrue result ↔ (aid_of station ≡ Some aid) }
{
    match station {
        Some(Station::Associated(association)) => association.aid.number == aid,
        Some(Station::Authenticated) | None => false,
    }
}

// The least identifier above the one given last that is not marked, or the least of all.
fn next_free(members: &Members, last: StationNumber) -> Option<u16>
    ensures some { IfSome result (λ i. IsLeastUnmarked (is_set members.now.words) last.number i
        ⊎ (AreMarkedAbove (is_set members.now.words) last.number × IsLeastUnmarked (is_set members.now.words) 0 i)) }
    ensures none { IfNone result (AreMarkedAbove (is_set members.now.words) 0) }
{
    match members.free_above(last.number) {
        Some(aid) => Some(aid),
        None => members.free_above(0),
    }
}

impl Table {
    /// A table without rows. It takes no memory.
    pub fn new(alloc: Global) -> Table
        ensures { result ≡ empty_state }
    {
        Table {
            stations: Stations::new(alloc),
            bss: BssRows::new(alloc),
        }
    }

    /// Tells a caller's proof that the state is sound. It does nothing.
    pub fn sound(&self)
        ensures { Sound self.now }
    {
        let _ = &self.bss;
    }

    /// The row of a station at a BSSID. It takes no memory, as none of the
    /// readers does but `denials_by`, `denials_after`, `addresses` and `copy`.
    pub fn get(&self, bssid: Bssid, addr: Addr) -> Option<Station>
        ensures { result ≡ station_at self.now bssid addr }
    {
        self.stations.get(bssid, addr)
    }

    /// The number of the mode of a BSSID's policy, and from how many stations on a new one is refused;
    /// `None` exactly where it has no policy row.
    pub fn policy(&self, bssid: Bssid) -> Option<(u8, u16)>
        ensures { result ≡ option_map mode_and_max (policy_at self.now bssid) }
    {
        let policy = self.bss.get(bssid)?.policy;
        Some((policy.mode.number(), policy.max.number))
    }

    /// The lists of a BSSID; `None` exactly where it has no policy row, and then it has no list row
    /// either.
    pub fn lists(&self, bssid: Bssid) -> Option<&Lists>
        ensures policy { IsSome result ↔ IsSome (policy_at self.now bssid) }
        ensures rows { IfSome result
            (λ lists. (w : Which) (a : Addr) → has lists.now w a ≡ contains self.now.lists (bssid, w, a)) }
        ensures counts { IfSome result
            (λ lists. (w : Which) → map.len (list_of lists.now w) ≡ list_count self.now bssid w) }
    {
        Some(&self.bss.get(bssid)?.lists)
    }

    /// The row of the least address of a BSSID: the address and the station; `None` exactly where it
    /// has no station row.
    pub fn first(&self, bssid: Bssid) -> Option<(Addr, Station)>
        ensures least { IfSome result (λ x. IsLeast (λ a. IsSome (station_at self.now bssid a)) x.0) }
        ensures row { IfSome result (λ x. station_at self.now bssid x.0 ≡ Some x.1) }
        ensures none { IfNone result ((a : Addr) → station_at self.now bssid a ≡ None) }
    {
        self.stations.first(bssid)
    }

    /// The row of the least address of a BSSID above this one, which need not have a row; `None`
    /// exactly where there is none above it.
    pub fn next(&self, bssid: Bssid, addr: Addr) -> Option<(Addr, Station)>
        ensures least { IfSome result (λ x. IsLeastAbove addr (λ a. IsSome (station_at self.now bssid a)) x.0) }
        ensures row { IfSome result (λ x. station_at self.now bssid x.0 ≡ Some x.1) }
        ensures none { IfNone result ((a : Addr) → IsSome (station_at self.now bssid a) → addr_cmp addr a ≢ Less) }
    {
        self.stations.next(bssid, addr)
    }

    /// The least association identifier that no station of a BSSID has; `None` exactly where each from
    /// 1 to 2007 is some station's.
    pub fn least_free(&self, bssid: Bssid) -> Option<u16>
        ensures some { IfSome result (IsLeastFree self.now bssid) }
        ensures none { IfNone result (AreTakenAbove self.now bssid 0) }
    {
        match self.bss.get(bssid) {
            Some(bss) => bss.members.free_above(0),
            None => Some(1),
        }
    }

    /// The association identifier that a BSSID gives next, so that they go round: the least above the one
    /// that it gave last that no station of it has; where there is none, the least of all. Without a policy
    /// row it gave none. `None` exactly where `least_free` is.
    pub fn next_free(&self, bssid: Bssid) -> Option<u16>
        ensures some { IfSome result (IsNextFree self.now bssid) }
        ensures none { IfNone result (AreTakenAbove self.now bssid 0) }
    {
        match self.bss.get(bssid) {
            Some(bss) => next_free(&bss.members, bss.cursor),
            None => Some(1),
        }
    }

    /// The association identifiers that the stations of a BSSID have, as bits: bit i of word w is that of
    /// 64 w + i. So bit 0 of word 0 is never set, nor is one from 2008 on. `None` exactly where the BSSID
    /// has no policy row.
    pub fn words(&self, bssid: Bssid) -> Option<&[u64; 32]>
        ensures policy { IsSome result ↔ IsSome (policy_at self.now bssid) }
        ensures words { IfSome result (λ words. AreWords self.now bssid words.now) }
    {
        Some(&self.bss.get(bssid)?.members.words)
    }

    /// The BSSID at a place, counted from 0, among those with a policy, which rise; `None` exactly
    /// where there are no more than that many.
    pub fn bss(&self, place: usize) -> Option<Bssid>
        ensures { result ≡ slice_get (map.keys self.now.policies) place }
    {
        self.bss.at(place)
    }

    /// How many station rows there are, of all BSSIDs.
    pub fn rows(&self) -> usize
        ensures { result ≡ map.len self.now.stations }
    {
        self.stations.len()
    }

    /// How many stations have a row at a BSSID.
    pub fn count(&self, bssid: Bssid) -> usize
        ensures { result ≡ count self.now bssid }
    {
        match self.bss.get(bssid) {
            Some(bss) => bss.members.count,
            None => 0,
        }
    }

    /// How many BSSIDs have a policy.
    pub fn bss_count(&self) -> usize
        ensures { result ≡ map.len self.now.policies }
    {
        self.bss.len()
    }

    /// Whether the policy of a BSSID allows a station.
    pub fn allowed(&self, bssid: Bssid, addr: Addr) -> bool
        ensures { result ≡ allowed self.now bssid addr }
    {
        match self.bss.get(bssid) {
            Some(bss) => bss.lists.allowed(addr, bss.policy.mode),
            None => false,
        }
    }

    /// The addresses, rising, of the stations with a row at a BSSID that a mode would deny.
    pub fn denials_by(
        &self,
        alloc: Global,
        bssid: Bssid,
        mode: AclMode,
    ) -> Result<Vec<Addr>, AllocError>
        ensures { IfOk result (λ v. v.items ≡ denials_by self.now bssid mode) }
    {
        match self.bss.get(bssid) {
            Some(bss) => {
                let max = bss.policy.max;
                let policy = Policy { mode, max };
                let change = Change::Policy { bssid, policy };
                denials::denials_after(alloc, &self.stations, bssid, &bss.lists, mode, &change)
            }
            None => Ok(Vec::new(alloc)),
        }
    }

    /// The addresses, rising, of all stations with a row at a BSSID.
    pub fn addresses(&self, alloc: Global, bssid: Bssid) -> Result<Vec<Addr>, AllocError>
        ensures { IfOk result (λ v. v.items ≡ addresses_at self.now bssid) }
    {
        denials::addresses(alloc, &self.stations, bssid)
    }

    /// The addresses, rising, of the stations with a row at a BSSID that its policy would deny by the
    /// lists that a change leaves.
    pub fn denials_after(
        &self,
        alloc: Global,
        bssid: Bssid,
        change: &Change,
    ) -> Result<Vec<Addr>, AllocError>
        ensures { IfOk result (λ v. v.items ≡ denials_after self.now bssid change.now) }
    {
        match self.bss.get(bssid) {
            Some(bss) => self.denials_at(alloc, bssid, bss, change),
            None => Ok(Vec::new(alloc)),
        }
    }

    // The same, by the row of the BSSID. No station is denied as it is, so where one address is added
    // to a list or taken out of one it is the only one to look at.
    fn denials_at(
        &self,
        alloc: Global,
        bssid: Bssid,
        bss: &Bss,
        change: &Change,
    ) -> Result<Vec<Addr>, AllocError>
        requires policy { Some bss.now.policy ≡ policy_at self.now bssid }
        requires lists { (w : Which) (a : Addr) → has bss.now.lists w a ≡ contains self.now.lists (bssid, w, a) }
        ensures { IfOk result
            (λ v. v.items
            ≡ list_map (λ row. row.0.1) (filter (is_denied_after bss.now.lists bss.now.policy.mode bssid change.now)
            (map.entries self.now.stations))) }
    {
        self.sound();
        match denials::listed_address(change) {
            Some(addr) => {
                let is_denied = self.is_denied_after(bssid, addr, bss, change);
                denials::alone(alloc, addr, is_denied)
            }
            None => {
                let (stations, lists) = (&self.stations, &bss.lists);
                denials::denials_after(alloc, stations, bssid, lists, bss.policy.mode, change)
            }
        }
    }

    // Whether the station has a row at the BSSID that is denied once a change is made.
    fn is_denied_after(&self, bssid: Bssid, addr: Addr, bss: &Bss, change: &Change) -> bool
        ensures { result
            ≡ (is_some (station_at self.now bssid addr)
            && is_address_denied_after bss.now.lists bss.now.policy.mode bssid change.now addr) }
    {
        self.get(bssid, addr).is_some()
            && denials::is_denied_after(addr, bssid, &bss.lists, bss.policy.mode, change)
    }

    /// A second table of the same state.
    pub fn copy(&self, alloc: Global) -> Result<Table, AllocError>
        ensures { IfOk result (λ t. t ≡ self.now) }
    {
        Ok(Table {
            stations: self.stations.copy(alloc)?,
            bss: self.bss.copy(alloc)?,
        })
    }

    /// The changes that lead from the empty table to this one: each policy by BSSID, then each identifier
    /// given last by BSSID where one was given, then each address of a list by BSSID, list and address, then
    /// each station by BSSID and address. Made one after another from the empty table on, each of them leaves
    /// a sound one. It takes memory for the changes alone, and answers want of it.
    pub fn snapshot(&self, alloc: Global) -> Result<Vec<Change>, AllocError>
        ensures canonical { IfOk result (λ changes. changes.items ≡ canonical self.now) }
        ensures sound { IfOk result (λ changes. StaySound changes.items empty_state) }
        ensures leads { IfOk result (λ changes. meaning_of changes.items empty_state ≡ self.now) }
        ensures size { IfOk result (λ changes. length (records_of changes.items) ≤ MAX_SNAPSHOT) }
    {
        self.sound();
        let mut changes = Changes::new(alloc);
        self.bss.add_changes(&mut changes)?;
        self.stations.add_changes(&mut changes)?;
        Ok(changes.into_vec())
    }

    /// Makes a change, exactly where the state after it is sound; else the answer is `Invalid`, and
    /// nothing changed. `NoMemory` comes only where that state is sound and a row must be added, and
    /// changes nothing either: so `Drop`, `ListDel`, `ListClear` and `Cursor` never lack memory.
    pub fn apply(&mut self, change: &Change) -> Result<(), TableFault>
        ensures ok { OnOk result (self.new ≡ meaning change.now self.old) }
        ensures sound { OnOk result (Sound (meaning change.now self.old)) }
        ensures invalid { result ≡ Err TableFault.Invalid → ¬ (Sound (meaning change.now self.old)) }
        ensures memory { result ≡ Err TableFault.NoMemory → IsNewRow change.now self.old }
        ensures wanted { result ≡ Err TableFault.NoMemory → Sound (meaning change.now self.old) }
        ensures drop { (b : Bssid) (a : Addr) → change.now ≡ Drop b a → IsOk result }
        ensures err { OnErr result (self.new ≡ self.old) }
    {
        let old = self.old_row(change);
        if !self.can_make(change, old) {
            return Err(TableFault::Invalid);
        }
        match *change {
            Change::Put {
                bssid,
                addr,
                station,
            } => self.put(bssid, addr, old, station)?,
            Change::Drop { bssid, addr } => self.drop_station(bssid, addr, old),
            Change::ListAdd { bssid, which, addr } => self.add(bssid, which, addr)?,
            Change::ListDel { bssid, which, addr } => self.take(bssid, which, addr),
            Change::ListClear { bssid, which } => self.clear(bssid, which),
            Change::Policy { bssid, policy } => self.set(bssid, policy)?,
            Change::Cursor { bssid, last } => self.set_cursor(bssid, last),
        }
        Ok(())
    }

    // The row that a change writes over or takes out.
    fn old_row(&self, change: &Change) -> Option<Station>
        ensures { IsOldRow change.now result self.now }
    {
        match *change {
            Change::Put { bssid, addr, .. } | Change::Drop { bssid, addr } => self.get(bssid, addr),
            Change::ListAdd { .. }
            | Change::ListDel { .. }
            | Change::ListClear { .. }
            | Change::Policy { .. }
            | Change::Cursor { .. } => None,
        }
    }

    // Whether the state after a change is sound. One after a drop is.
    fn can_make(&self, change: &Change, old: Option<Station>) -> bool
        requires { IsOldRow change.now old self.now }
        ensures sound { IsTrue result ↔ Sound (meaning change.now self.now) }
        ensures drop { (b : Bssid) (a : Addr) → change.now ≡ Drop b a → IsTrue result }
    {
        self.sound();
        match *change {
            Change::Put {
                bssid,
                addr,
                station,
            } => self.can_put(bssid, addr, old, station),
            Change::Drop { .. } => true,
            Change::ListAdd { bssid, which, addr } => self.can_add(bssid, which, addr, change),
            Change::ListDel { bssid, .. } => self.denies_none_after(bssid, change),
            Change::ListClear { bssid, .. } => self.denies_none_after(bssid, change),
            Change::Policy { bssid, policy } => self.can_set(bssid, policy, change),
            Change::Cursor { bssid, .. } => self.has_policy(bssid),
        }
    }

    // The row of a BSSID, and what is kept in it of its stations.
    fn row(&self, bssid: Bssid) -> Option<&Bss>
        ensures policy { option_map policy_of (option_copied result) ≡ policy_at self.now bssid }
        ensures lists { (w : Which) (a : Addr)
            → is_listed_in (option_copied result) w a ≡ contains self.now.lists (bssid, w, a) }
        ensures members { IfSome result (λ bss. IsMembers self.now bssid bss.now.members) }
    {
        self.bss.get(bssid)
    }

    // Whether a station's row may be put over its old one, of which there may be none.
    fn can_put(&self, bssid: Bssid, addr: Addr, old: Option<Station>, station: Station) -> bool
        requires { old ≡ station_at self.now bssid addr }
        ensures { IsTrue result ↔ CanPut self.now bssid addr station }
    {
        let Some(bss) = self.row(bssid) else {
            return false;
        };
        let identified = match station {
            Station::Authenticated => true,
            Station::Associated(association) => {
                self.may_have(bssid, addr, old, association.aid.number, &bss.members)
            }
        };
        identified
            && bss.lists.allowed(addr, bss.policy.mode)
            && (old.is_some() || bss.members.count < MAX_STATIONS)
    }

    // Whether the identifier is free at the BSSID, and the station's only one.
    fn may_have(
        &self,
        bssid: Bssid,
        addr: Addr,
        old: Option<Station>,
        aid: u16,
        members: &Members,
    ) -> bool
        requires range { aid ≤ MAX_STATIONS }
        requires old { old ≡ station_at self.now bssid addr }
        requires members { IsMembers self.now bssid members.now }
        ensures { IsTrue result ↔ MayHave self.now bssid addr aid }
    {
        self.sound();
        is_free(members, old, aid) && self.is_alone(bssid, addr, old)
    }

    // Whether the station is associated at no other BSSID: in a sound state one that is associated here is
    // associated nowhere else.
    fn is_alone(&self, bssid: Bssid, addr: Addr, old: Option<Station>) -> bool
        requires { old ≡ station_at self.now bssid addr }
        ensures { IsTrue result ↔ IsAlone self.now bssid addr }
    {
        self.sound();
        is_associated(old) || !self.is_elsewhere(bssid, addr)
    }

    // Whether the station is associated at another BSSID: one that has stations has a policy. Those without
    // stations are passed over.
    fn is_elsewhere(&self, bssid: Bssid, addr: Addr) -> bool
        ensures { result
            ≡ list_any (λ other. is_associated_apart bssid other
            (station_at self.now other addr)) (map.keys self.now.policies) }
    {
        let rows = self.bss.rows();
        rows.iter().any(|row| {
            row.1.members.count != 0 && self.is_associated_apart(row.0, bssid, addr)
        })
    }

    fn is_associated_apart(&self, other: Bssid, bssid: Bssid, addr: Addr) -> bool
        ensures { result ≡ is_associated_apart bssid other (station_at self.now other addr) }
    {
        !bssid.cmp(&other).is_eq() && is_associated(self.get(other, addr))
    }

    pub(crate) fn has_policy(&self, bssid: Bssid) -> bool
        ensures { IsTrue result ↔ IsSome (policy_at self.now bssid) }
    {
        self.bss.get(bssid).is_some()
    }

    // Whether each station with a row at the BSSID is allowed there once a change is made. Each was before,
    // so where one address is added to a list or taken out of one it is the only one to look at.
    fn denies_none_after(&self, bssid: Bssid, change: &Change) -> bool
        ensures { IsTrue result ↔ NoneDeniedAfter self.now bssid change.now }
    {
        self.sound();
        let Some(bss) = self.bss.get(bssid) else {
            return true;
        };
        match denials::listed_address(change) {
            Some(addr) => !self.is_denied_after(bssid, addr, bss, change),
            None => {
                let (stations, lists) = (&self.stations, &bss.lists);
                let policy = denials::policy_after(bssid, bss.policy, change);
                !denials::denies_any_after(stations, bssid, lists, policy.mode, change)
            }
        }
    }

    // Whether the BSSID has a policy, or there is room for one more.
    fn has_place(&self, bssid: Bssid) -> bool
        ensures { IsTrue result ↔ (IsSome (policy_at self.now bssid) ⊎ (map.len self.now.policies < MAX_BSS)) }
    {
        self.has_policy(bssid) || self.bss.len() < MAX_BSS
    }

    fn can_set(&self, bssid: Bssid, policy: Policy, change: &Change) -> bool
        requires { change.now ≡ SetPolicy bssid policy }
        ensures { IsTrue result ↔ CanSet self.now bssid policy }
    {
        self.has_place(bssid) && self.denies_none_after(bssid, change)
    }

    // Whether a list of the BSSID has the address, or room for one more.
    fn has_list_room(&self, bssid: Bssid, which: Which, addr: Addr) -> bool
        ensures { IsTrue result
            ↔ (IsListed self.now bssid which addr ⊎ (list_count self.now bssid which < MAX_LISTED)) }
    {
        match self.bss.get(bssid) {
            Some(bss) => bss.lists.has(which, addr) || bss.lists.len(which) < MAX_LISTED,
            None => true,
        }
    }

    fn can_add(&self, bssid: Bssid, which: Which, addr: Addr, change: &Change) -> bool
        requires { change.now ≡ ListAdd bssid which addr }
        ensures { IsTrue result ↔ CanAdd self.now bssid which addr }
    {
        self.has_policy(bssid)
            && self.has_list_room(bssid, which, addr)
            && self.denies_none_after(bssid, change)
    }

    fn drop_station(&mut self, bssid: Bssid, addr: Addr, old: Option<Station>)
        requires { old ≡ station_at self.old bssid addr }
        ensures { self.new ≡ drop_station bssid addr self.old }
    {
        self.stations.remove(bssid, addr);
        self.bss.change_row(bssid, old, None);
    }

    // This change and those below are made where the state after them is sound. A row that is there is not put
    // again.
    fn put(
        &mut self,
        bssid: Bssid,
        addr: Addr,
        old: Option<Station>,
        station: Station,
    ) -> Result<(), AllocError>
        requires sound { Sound (put_station bssid addr station self.old) }
        requires old { old ≡ station_at self.old bssid addr }
        ensures ok { OnOk result (self.new ≡ put_station bssid addr station self.old) }
        ensures memory { OnErr result (station_at self.old bssid addr ≡ None) }
        ensures err { OnErr result (self.new ≡ self.old) }
    {
        if old == Some(station) {
            return Ok(());
        }
        self.stations.put(bssid, addr, station)?;
        self.bss.change_row(bssid, old, Some(station));
        Ok(())
    }

    fn set(&mut self, bssid: Bssid, policy: Policy) -> Result<(), AllocError>
        requires { Sound (set_policy bssid policy self.old) }
        ensures ok { OnOk result (self.new ≡ set_policy bssid policy self.old) }
        ensures memory { OnErr result (policy_at self.old bssid ≡ None) }
        ensures err { OnErr result (self.new ≡ self.old) }
    {
        self.bss.set(bssid, policy)?;
        Ok(())
    }

    pub(crate) fn set_cursor(&mut self, bssid: Bssid, last: StationNumber)
        requires { Sound (set_cursor bssid last self.old) }
        ensures { self.new ≡ set_cursor bssid last self.old }
    {
        self.bss.set_cursor(bssid, last);
    }

    fn add(&mut self, bssid: Bssid, which: Which, addr: Addr) -> Result<(), AllocError>
        requires { Sound (add_to_list bssid which addr self.old) }
        ensures ok { OnOk result (self.new ≡ add_to_list bssid which addr self.old) }
        ensures memory { OnErr result (¬ (IsListed self.old bssid which addr)) }
        ensures err { OnErr result (self.new ≡ self.old) }
    {
        self.bss.add(bssid, which, addr)?;
        Ok(())
    }

    fn take(&mut self, bssid: Bssid, which: Which, addr: Addr)
        requires { Sound (take_from_list bssid which addr self.old) }
        ensures { self.new ≡ take_from_list bssid which addr self.old }
    {
        self.bss.remove(bssid, which, addr);
    }

    fn clear(&mut self, bssid: Bssid, which: Which)
        requires { Sound (clear_list bssid which self.old) }
        ensures { self.new ≡ clear_list bssid which self.old }
    {
        self.bss.clear(bssid, which);
    }
}
