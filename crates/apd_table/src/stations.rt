//! The station rows, in the order of (BSSID, address).
ghost use Rattle.std.specs.Prelude.{◌≡◌, ◌≢◌, ◌<◌, ◌^◌, ◌++◌, Some, None, OnOk, OnErr, IsOk, IsSome, IfOk, IfSome, IfNone, filter, length};
ghost use Rattle.std.specs.Map.Iter.{deref_pair};
ghost use Rattle.std.specs.Option.{option_map};
ghost use Rattle.std.specs.declared.cmp.Ordering.TheVariants.{Less};
ghost use Rattle.std.specs.FinMap as map;
ghost use Rattle.apd_acl.specs.Least.{IsLeast, IsLeastAbove};
ghost use Rattle.apd_base.specs.Addr.{IsAddr, addr_cmp, station_cmp};
ghost use Rattle.apd_base.specs.declared.address.Addr.{Addr};
ghost use Rattle.apd_table.specs.Rows.{is_station_row_of, if_row_of, address_and_station};
ghost use Rattle.apd_table.specs.Snapshot.{station_changes};

use crate::snapshot::add_stations;
use apd_base::{Addr, BROADCAST, Bssid, Station};
use apd_record::{Change, Changes};
use std::alloc::{AllocError, Global};
use std::collections::BTreeMap;
use std::collections::btree_map::Range;
use std::marker::Model;
use std::ops::Bound;

// No address is below this one.
const LEAST: Addr = Addr([0, 0, 0, 0, 0, 0]);

/// The station rows, seen as a finite map from (BSSID, address).
#[derive(Drop)]
pub struct Stations {
    rows: BTreeMap<(Bssid, Addr), Station>,
}

impl Model for Stations {
    ghost use Rattle.std.specs.FinMap as map;
    ghost use Rattle.std.specs.Coded.{coded×};
    ghost use Rattle.apd_base.specs.Addr.{station_cmp, coded_addr, coded_bssid};
    ghost use Rattle.apd_base.specs.for_proofs.Codes.{coded_station};
    ghost use Rattle.apd_base.specs.declared.station.Station.{Station};
    ghost use Rattle.apd_table.specs.Rows.{AreRows};

    ghost Value = { map.FinMap station_cmp Station };

    ghost coded = { map.code (coded× coded_bssid coded_addr) coded_station };

    ghost view = { λ a. map.from_sorted a.rows.entries };

    ghost invariant = { λ a. AreRows a.rows.entries };
}

// Tells a proof that an address has six bytes. It changes nothing.
fn key_law(bssid: Bssid, addr: Addr)
    ensures { IsAddr addr }
{
    Change::Drop { bssid, addr }.range_law();
}

// The address and the station of a row.
fn address_and_station(row: Option<(&(Bssid, Addr), &Station)>) -> Option<(Addr, Station)>
    ensures { result ≡ option_map address_and_station (option_map deref_pair row.entry) }
{
    let (key, station) = row?;
    Some((key.1, *station))
}

// The same, if the row is one of the BSSID.
fn if_row_of(row: Option<(&(Bssid, Addr), &Station)>, bssid: Bssid) -> Option<(Addr, Station)>
    ensures { result ≡ if_row_of bssid (option_map deref_pair row.entry) }
{
    let (key, station) = row?;
    if bssid.cmp(&key.0).is_eq() {
        Some((key.1, *station))
    } else {
        None
    }
}

impl Stations {
    /// No row. It takes no memory.
    pub fn new(alloc: Global) -> Self
        ensures { result ≡ map.empty }
    {
        Stations {
            rows: BTreeMap::new(alloc),
        }
    }

    /// The same rows once more.
    pub fn copy(&self, alloc: Global) -> Result<Stations, AllocError>
        ensures { IfOk result (λ t. t ≡ self.now) }
    {
        let rows = self.rows.iter().map(|(key, station)| (*key, *station));
        Ok(Stations {
            rows: rows.collect(alloc)?,
        })
    }

    /// The row of a station.
    pub fn get(&self, bssid: Bssid, addr: Addr) -> Option<Station>
        ensures { result ≡ map.get self.now (bssid, addr) }
    {
        self.rows.get(&(bssid, addr)).copied()
    }

    /// Writes a row, over the old one of its station, or leaves all as it was. It lacks memory only
    /// for a station without a row.
    pub fn put(&mut self, bssid: Bssid, addr: Addr, station: Station) -> Result<(), AllocError>
        ensures ok { OnOk result (self.new ≡ map.insert self.old (bssid, addr) station) }
        ensures err { OnErr result (self.new ≡ self.old) }
        ensures over { IsSome (map.get self.old (bssid, addr)) → IsOk result }
    {
        key_law(bssid, addr);
        self.rows.insert((bssid, addr), station)?;
        Ok(())
    }

    /// Takes a station's row out, if there is one.
    pub fn remove(&mut self, bssid: Bssid, addr: Addr)
        ensures { self.new ≡ map.remove self.old (bssid, addr) }
    {
        self.rows.remove(&(bssid, addr));
    }

    /// The rows of a BSSID, in order.
    pub fn of(&self, bssid: Bssid) -> Range<'_, (Bssid, Addr), Station>
        ensures rows { result ≡ filter (is_station_row_of bssid) (map.entries self.now) }
        ensures fits { length result < 2 ^ 63 }
    {
        let first = Bound::Included((bssid, LEAST));
        let last = Bound::Included((bssid, BROADCAST));
        self.rows.range((first, last))
    }

    /// Adds the changes that make the rows, in order.
    pub fn add_changes(&self, changes: &mut Changes) -> Result<(), AllocError>
        ensures { OnOk result (changes.new ≡ changes.old ++ station_changes self.now) }
    {
        add_stations(changes, &self.rows)
    }

    /// How many rows there are.
    pub fn len(&self) -> usize
        ensures { result ≡ map.len self.now }
    {
        self.rows.len()
    }

    /// The row of the least address of a BSSID.
    pub fn first(&self, bssid: Bssid) -> Option<(Addr, Station)>
        ensures least { IfSome result (λ x. IsLeast (λ a. IsSome (map.get self.now (bssid, a))) x.0) }
        ensures row { IfSome result (λ x. map.get self.now (bssid, x.0) ≡ Some x.1) }
        ensures none { IfNone result ((a : Addr) → map.get self.now (bssid, a) ≡ None) }
    {
        address_and_station(self.of(bssid).next())
    }

    /// The row of the least address of a BSSID above another.
    pub fn next(&self, bssid: Bssid, addr: Addr) -> Option<(Addr, Station)>
        ensures least { IfSome result (λ x. IsLeastAbove addr (λ a. IsSome (map.get self.now (bssid, a))) x.0) }
        ensures row { IfSome result (λ x. map.get self.now (bssid, x.0) ≡ Some x.1) }
        ensures none { IfNone result ((a : Addr) → IsSome (map.get self.now (bssid, a)) → addr_cmp addr a ≢ Less) }
    {
        let above = (Bound::Excluded((bssid, addr)), Bound::Unbounded);
        if_row_of(self.rows.range(above).next(), bssid)
    }
}
