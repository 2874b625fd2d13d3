//! A set of addresses.
ghost use Rattle.std.specs.Prelude.{◌≡◌, ◌≢◌, OnOk, OnErr, IsOk, IfOk, IfSome, IfNone, IsTrue};
ghost use Rattle.std.specs.declared.cmp.Ordering.TheVariants.{Less};
ghost use Rattle.std.specs.FinMap as map;
ghost use Rattle.apd_base.specs.Sets.{contains};
ghost use Rattle.apd_base.specs.Addr.{addr_cmp};
ghost use Rattle.apd_base.specs.declared.address.Addr.{Addr};
ghost use Rattle.apd_acl.specs.Least.{IsLeast, IsLeastAbove};

use apd_base::Addr;
use std::alloc::{AllocError, Global};
use std::collections::BTreeSet;
use std::marker::Model;
use std::ops::Bound;

/// A set of addresses.
#[derive(Drop)]
pub struct AddressSet {
    keys: BTreeSet<Addr>,
}

impl Model for AddressSet {
    ghost use Rattle.std.specs.Prelude.{T};
    ghost use Rattle.std.specs.FinMap as map;
    ghost use Rattle.apd_base.specs.Sets.{SetOf, coded_set};
    ghost use Rattle.apd_base.specs.Addr.{addr_cmp, coded_addr};
    ghost use Rattle.apd_acl.specs.Keys.{rows_of, set_of};

    ghost Value = { SetOf addr_cmp };

    ghost coded = { coded_set coded_addr };

    ghost view = { λ a. set_of a.keys.keys };

    ghost invariant = { λ a. T (map.is_sorted addr_cmp (rows_of a.keys.keys)) };
}

impl AddressSet {
    /// No address. It takes no memory.
    pub fn new(alloc: Global) -> AddressSet
        ensures { result ≡ map.empty }
    {
        AddressSet {
            keys: BTreeSet::new(alloc),
        }
    }

    /// The same addresses once more.
    pub fn copy(&self, alloc: Global) -> Result<AddressSet, AllocError>
        ensures { IfOk result (λ t. t ≡ self.now) }
    {
        Ok(AddressSet {
            keys: self.keys.iter().copied().collect(alloc)?,
        })
    }

    /// Whether it has an address.
    pub fn contains(&self, addr: Addr) -> bool
        ensures { result ≡ contains self.now addr }
    {
        self.keys.contains(&addr)
    }

    /// How many addresses it has.
    pub fn len(&self) -> usize
        ensures { result ≡ map.len self.now }
    {
        self.keys.len()
    }

    /// The addresses, rising.
    pub fn keys(&self) -> &BTreeSet<Addr>
        ensures { result.now.keys ≡ map.keys self.now }
    {
        &self.keys
    }

    /// The least address.
    pub fn least(&self) -> Option<Addr>
        ensures some { IfSome result (IsLeast (λ a. IsTrue (contains self.now a))) }
        ensures none { IfNone result ((a : Addr) → ¬ (IsTrue (contains self.now a))) }
    {
        self.keys.first().copied()
    }

    /// The least address above another.
    pub fn after(&self, addr: Addr) -> Option<Addr>
        ensures some { IfSome result (IsLeastAbove addr (λ a. IsTrue (contains self.now a))) }
        ensures none { IfNone result ((a : Addr) → IsTrue (contains self.now a) → addr_cmp addr a ≢ Less) }
    {
        let above = (Bound::Excluded(addr), Bound::Unbounded);
        self.keys.range(above).next().copied()
    }

    /// Puts an address in, or leaves all as it was. It lacks memory only for one that is not there.
    pub fn add(&mut self, addr: Addr) -> Result<(), AllocError>
        ensures ok { OnOk result (self.new ≡ map.insert self.old addr tt) }
        ensures err { OnErr result (self.new ≡ self.old) }
        ensures over { IsTrue (contains self.old addr) → IsOk result }
    {
        self.keys.insert(addr)?;
        Ok(())
    }

    /// Takes an address out, if it is there.
    pub fn remove(&mut self, addr: Addr)
        ensures { self.new ≡ map.remove self.old addr }
    {
        self.keys.remove(&addr);
    }

    /// Takes each address out.
    pub fn clear(&mut self)
        ensures { self.new ≡ map.empty }
    {
        self.keys.clear();
    }
}
