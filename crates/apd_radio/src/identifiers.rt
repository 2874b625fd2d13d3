//! Stations by address, with their association identifiers.
ghost use Rattle.std.specs.Prelude.{◌≡◌, OnOk, OnErr, IsOk, IsSome, ℕ, T};
ghost use Rattle.std.specs.FinMap as map;
ghost use Rattle.std.specs.Coded.{coded_ℕ};
ghost use Rattle.apd_base.specs.Addr.{addr_cmp, coded_addr};

use apd_base::{Addr, rows};
use std::alloc::{AllocError, Global};
use std::marker::Model;

/// Association identifiers by address, seen as a finite map. They stand in the order of addresses.
#[derive(Drop)]
pub struct Identifiers {
    rows: Vec<(Addr, u16)>,
}

impl Model for Identifiers {
    ghost Value = { map.FinMap addr_cmp ℕ };

    ghost coded = { map.code coded_addr coded_ℕ };

    ghost view = { λ a. map.from_sorted a.rows.items };

    ghost invariant = { λ a. T (map.is_sorted addr_cmp a.rows.items) };
}

impl Identifiers {
    /// No station. It takes no memory.
    pub fn new(alloc: Global) -> Identifiers
        ensures { result ≡ map.empty }
    {
        Identifiers {
            rows: Vec::new(alloc),
        }
    }

    /// The identifier of an address.
    pub fn get(&self, addr: Addr) -> Option<u16>
        ensures { result ≡ map.get self.now addr }
    {
        rows::value(&self.rows, &addr).copied()
    }

    /// The addresses with their identifiers, in order.
    pub fn rows(&self) -> &[(Addr, u16)]
        ensures { result.now ≡ map.entries self.now }
    {
        &self.rows
    }

    /// Writes an identifier, over the old one of its address, or leaves all as it was. It lacks memory
    /// only for an address without one.
    pub fn insert(&mut self, addr: Addr, aid: u16) -> Result<(), AllocError>
        ensures ok { OnOk result (self.new ≡ map.insert self.old addr aid) }
        ensures err { OnErr result (self.new ≡ self.old) }
        ensures over { IsSome (map.get self.old addr) → IsOk result }
    {
        rows::put(&mut self.rows, addr, aid)
    }

    /// Takes an address out, if it is there. It takes no memory.
    pub fn remove(&mut self, addr: Addr)
        ensures { self.new ≡ map.remove self.old addr }
    {
        rows::remove(&mut self.rows, &addr);
    }

    /// Takes all addresses out. It takes no memory.
    pub fn clear(&mut self)
        ensures { self.new ≡ map.empty }
    {
        self.rows.clear();
    }
}
