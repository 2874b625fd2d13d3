//! A table of plain vectors, in no order, which looks through all of them: the other side of the tests of
//! `apd_table`.
use apd_base::{AclMode, Addr, Bssid, Policy, Station, StationNumber, Which};
use apd_record::Change;
use std::alloc::Global;
use std::process::Abort;

/// Rows by (BSSID, address), addresses of lists, policies, and the identifiers that were given last.
#[derive(Drop)]
pub struct PlainTable {
    pub stations: Vec<(Bssid, Addr, Station)>,
    pub lists: Vec<(Bssid, Which, Addr)>,
    pub policies: Vec<(Bssid, Policy)>,
    pub cursors: Vec<(Bssid, StationNumber)>,
}

/// The identifier of a station, where it is associated.
pub fn aid_of(station: Station) -> Option<u16> {
    match station {
        Station::Associated(association) => Some(association.aid.number),
        Station::Authenticated => None,
    }
}

// Whether two rows can't stand side by side: one identifier at one BSSID, or one station associated at two.
fn clash(one: &(Bssid, Addr, Station), other: &(Bssid, Addr, Station)) -> bool {
    match (aid_of(one.2), aid_of(other.2)) {
        (Some(aid), Some(other_aid)) => {
            let is_same_bss = one.0 == other.0;
            let is_same_station = one.1 == other.1;
            (is_same_bss && !is_same_station && aid == other_aid)
                || (!is_same_bss && is_same_station)
        }
        _ => false,
    }
}

// Where a change stands among those of a snapshot: its kind, its BSSID, its list and its address.
fn place_key(change: &Change) -> (u8, Bssid, u8, Addr) {
    let none = Addr([0; 6]);
    match *change {
        Change::Policy { bssid, .. } => (1, bssid, 0, none),
        Change::Cursor { bssid, .. } => (2, bssid, 0, none),
        Change::ListAdd {
            bssid,
            which: Which::Accept,
            addr,
        } => (3, bssid, 0, addr),
        Change::ListAdd {
            bssid,
            which: Which::Deny,
            addr,
        } => (3, bssid, 1, addr),
        Change::Put { bssid, addr, .. } => (4, bssid, 0, addr),
        Change::Drop { bssid, .. }
        | Change::ListDel { bssid, .. }
        | Change::ListClear { bssid, .. } => (0, bssid, 0, none),
    }
}

fn insert_in_order(rt: &impl Abort, changes: &mut Vec<Change>, change: Change) {
    let key = place_key(&change);
    let behind = changes.iter().position(|other| key < place_key(other));
    let place = behind.unwrap_or(changes.len());
    changes.insert(place, change).expect(rt, "memory");
}

// A copy of rows.
fn copy_of<T: Copy>(rt: &impl Abort, alloc: Global, rows: &[T]) -> Vec<T> {
    Vec::from_slice(alloc, rows).expect(rt, "memory")
}

impl PlainTable {
    pub fn new(alloc: Global) -> PlainTable {
        PlainTable {
            stations: Vec::new(alloc),
            lists: Vec::new(alloc),
            policies: Vec::new(alloc),
            cursors: Vec::new(alloc),
        }
    }

    pub fn copy(&self, rt: &impl Abort, alloc: Global) -> PlainTable {
        PlainTable {
            stations: copy_of(rt, alloc, &self.stations),
            lists: copy_of(rt, alloc, &self.lists),
            policies: copy_of(rt, alloc, &self.policies),
            cursors: copy_of(rt, alloc, &self.cursors),
        }
    }

    fn remove_station(&mut self, bssid: Bssid, addr: Addr) {
        self.stations.retain(|row| row.0 != bssid || row.1 != addr);
    }

    fn put_station(&mut self, rt: &impl Abort, row: (Bssid, Addr, Station)) {
        self.remove_station(row.0, row.1);
        self.stations.push(row).expect(rt, "memory");
    }

    fn remove_listed(&mut self, bssid: Bssid, which: Which, addr: Addr) {
        self.lists
            .retain(|row| row.0 != bssid || row.1 != which || row.2 != addr);
    }

    fn put_listed(&mut self, rt: &impl Abort, row: (Bssid, Which, Addr)) {
        self.remove_listed(row.0, row.1, row.2);
        self.lists.push(row).expect(rt, "memory");
    }

    fn clear_list(&mut self, bssid: Bssid, which: Which) {
        self.lists.retain(|row| row.0 != bssid || row.1 != which);
    }

    // Sets a policy. The first of a BSSID comes with no identifier given.
    fn set_policy(&mut self, rt: &impl Abort, bssid: Bssid, policy: Policy) {
        if self.mode(bssid).is_none() {
            self.set_cursor(rt, bssid, StationNumber { number: 0 });
        }
        self.policies.retain(|row| row.0 != bssid);
        self.policies.push((bssid, policy)).expect(rt, "memory");
    }

    fn set_cursor(&mut self, rt: &impl Abort, bssid: Bssid, last: StationNumber) {
        self.cursors.retain(|row| row.0 != bssid);
        self.cursors.push((bssid, last)).expect(rt, "memory");
    }

    /// Makes a change, whatever state it leaves.
    pub fn make(&mut self, rt: &impl Abort, change: &Change) {
        match *change {
            Change::Put {
                bssid,
                addr,
                station,
            } => self.put_station(rt, (bssid, addr, station)),
            Change::Drop { bssid, addr } => self.remove_station(bssid, addr),
            Change::ListAdd { bssid, which, addr } => self.put_listed(rt, (bssid, which, addr)),
            Change::ListDel { bssid, which, addr } => self.remove_listed(bssid, which, addr),
            Change::ListClear { bssid, which } => self.clear_list(bssid, which),
            Change::Policy { bssid, policy } => self.set_policy(rt, bssid, policy),
            Change::Cursor { bssid, last } => self.set_cursor(rt, bssid, last),
        }
    }

    pub fn mode(&self, bssid: Bssid) -> Option<AclMode> {
        for row in &self.policies {
            if row.0 == bssid {
                return Some(row.1.mode);
            }
        }
        None
    }

    /// The identifier that a BSSID gave last, 0 where it gave none yet.
    pub fn last_given(&self, bssid: Bssid) -> Option<u16> {
        for row in &self.cursors {
            if row.0 == bssid {
                return Some(row.1.number);
            }
        }
        None
    }

    pub fn is_listed(&self, bssid: Bssid, which: Which, addr: Addr) -> bool {
        self.lists
            .iter()
            .any(|row| row.0 == bssid && row.1 == which && row.2 == addr)
    }

    fn is_allowed(&self, bssid: Bssid, addr: Addr) -> bool {
        let is_accepted = self.is_listed(bssid, Which::Accept, addr);
        match self.mode(bssid) {
            Some(AclMode::AcceptUnlessDenied) => {
                is_accepted || !self.is_listed(bssid, Which::Deny, addr)
            }
            Some(AclMode::DenyUnlessAccepted) => is_accepted,
            None => false,
        }
    }

    fn is_row_sound(&self, row: &(Bssid, Addr, Station)) -> bool {
        self.is_allowed(row.0, row.1) && !self.stations.iter().any(|other| clash(row, other))
    }

    /// Whether the state may be, but for the number of rows, where it could be before a change at the BSSID.
    pub fn is_sound_at(&self, bssid: Bssid) -> bool {
        let is_open = self.mode(bssid).is_some();
        self.policies.len() <= 8
            && (is_open || !self.lists.iter().any(|row| row.0 == bssid))
            && is_open == self.last_given(bssid).is_some()
            && self
                .stations
                .iter()
                .all(|row| row.0 != bssid || self.is_row_sound(row))
    }

    pub fn get(&self, bssid: Bssid, addr: Addr) -> Option<Station> {
        for row in &self.stations {
            if row.0 == bssid && row.1 == addr {
                return Some(row.2);
            }
        }
        None
    }

    /// The row of the least address of a BSSID, above another if one is given.
    pub fn next(&self, bssid: Bssid, above: Option<Addr>) -> Option<(Addr, Station)> {
        let mut least: Option<(Addr, Station)> = None;
        for row in &self.stations {
            let is_above = above.is_none_or(|addr| addr < row.1);
            let is_less = least.is_none_or(|(addr, _)| row.1 < addr);
            if row.0 == bssid && is_above && is_less {
                least = Some((row.1, row.2));
            }
        }
        least
    }

    pub fn count(&self, bssid: Bssid) -> usize {
        self.stations.iter().filter(|row| row.0 == bssid).count()
    }

    pub fn has_aid(&self, bssid: Bssid, aid: u16) -> bool {
        self.stations
            .iter()
            .any(|row| row.0 == bssid && aid_of(row.2) == Some(aid))
    }

    // The least identifier of a BSSID above a number that no row has.
    fn free_above(&self, bssid: Bssid, last: u16) -> Option<u16> {
        for aid in 1..=2007 {
            if last < aid && !self.has_aid(bssid, aid) {
                return Some(aid);
            }
        }
        None
    }

    /// The least of all.
    pub fn least_free(&self, bssid: Bssid) -> Option<u16> {
        self.free_above(bssid, 0)
    }

    /// The least above the one given last, or else the least of all.
    pub fn next_free(&self, bssid: Bssid) -> Option<u16> {
        let last = self.last_given(bssid).unwrap_or(0);
        match self.free_above(bssid, last) {
            Some(aid) => Some(aid),
            None => self.least_free(bssid),
        }
    }

    fn add_stations(&self, rt: &impl Abort, changes: &mut Vec<Change>) {
        for row in &self.stations {
            let (bssid, addr, station) = *row;
            let put = Change::Put {
                bssid,
                addr,
                station,
            };
            insert_in_order(rt, changes, put);
        }
    }

    fn add_lists(&self, rt: &impl Abort, changes: &mut Vec<Change>) {
        for row in &self.lists {
            let (bssid, which, addr) = *row;
            insert_in_order(rt, changes, Change::ListAdd { bssid, which, addr });
        }
    }

    fn add_cursors(&self, rt: &impl Abort, changes: &mut Vec<Change>) {
        for row in &self.cursors {
            let (bssid, last) = *row;
            if last.number != 0 {
                insert_in_order(rt, changes, Change::Cursor { bssid, last });
            }
        }
    }

    fn add_policies(&self, rt: &impl Abort, changes: &mut Vec<Change>) {
        for row in &self.policies {
            let (bssid, policy) = *row;
            insert_in_order(rt, changes, Change::Policy { bssid, policy });
        }
    }

    /// The changes that make the rows: policies, cursors other than 0, lists and stations, each by its key.
    pub fn snapshot(&self, rt: &impl Abort, alloc: Global) -> Vec<Change> {
        let mut changes = Vec::new(alloc);
        self.add_stations(rt, &mut changes);
        self.add_lists(rt, &mut changes);
        self.add_cursors(rt, &mut changes);
        self.add_policies(rt, &mut changes);
        changes
    }
}
