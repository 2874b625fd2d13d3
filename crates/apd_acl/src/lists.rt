//! A BSSID's accept list and its deny list.
ghost use Rattle.std.specs.Prelude.{◌≡◌, ◌≢◌, OnOk, OnErr, IsOk, IfOk, IfSome, IfNone, IsTrue};
ghost use Rattle.std.specs.declared.cmp.Ordering.TheVariants.{Less};
ghost use Rattle.std.specs.FinMap as map;
ghost use Rattle.apd_base.specs.Addr.{addr_cmp};
ghost use Rattle.apd_base.specs.declared.address.Addr.{Addr};
ghost use Rattle.apd_acl.specs.Least.{IsLeast, IsLeastAbove};
ghost use Rattle.apd_acl.specs.Lists.{list_of, has, allowed, with_address, without_address, without_addresses, no_lists};

use crate::address_set::AddressSet;
use crate::policy::is_allowed;
use apd_base::{AclMode, Addr, Which};
use std::alloc::{AllocError, Global};
use std::collections::BTreeSet;

/// The two lists of a BSSID. The readers take no memory.
#[derive(Drop)]
pub struct Lists {
    accept: AddressSet,
    deny: AddressSet,
}

impl Lists {
    /// Two lists without an address. It takes no memory.
    pub fn new(alloc: Global) -> Lists
        ensures { result ≡ no_lists }
    {
        Lists {
            accept: AddressSet::new(alloc),
            deny: AddressSet::new(alloc),
        }
    }

    /// The same lists once more.
    pub fn copy(&self, alloc: Global) -> Result<Lists, AllocError>
        ensures { IfOk result (λ lists. lists ≡ self.now) }
    {
        Ok(Lists {
            accept: self.accept.copy(alloc)?,
            deny: self.deny.copy(alloc)?,
        })
    }

    fn list(&self, which: Which) -> &AddressSet
        ensures { result.now ≡ list_of self.now which }
    {
        match which {
            Which::Accept => &self.accept,
            Which::Deny => &self.deny,
        }
    }

    /// Whether a list has an address.
    pub fn has(&self, which: Which, addr: Addr) -> bool
        ensures { result ≡ has self.now which addr }
    {
        self.list(which).contains(addr)
    }

    /// How many addresses a list has.
    pub fn len(&self, which: Which) -> usize
        ensures { result ≡ map.len (list_of self.now which) }
    {
        self.list(which).len()
    }

    /// The addresses of a list, rising.
    pub fn keys(&self, which: Which) -> &BTreeSet<Addr>
        ensures { result.now.keys ≡ map.keys (list_of self.now which) }
    {
        self.list(which).keys()
    }

    /// The least address of a list; `None` exactly where it has none.
    pub fn least(&self, which: Which) -> Option<Addr>
        ensures some { IfSome result (IsLeast (λ a. IsTrue (has self.now which a))) }
        ensures none { IfNone result ((a : Addr) → ¬ (IsTrue (has self.now which a))) }
    {
        self.list(which).least()
    }

    /// The least address of a list above this one, which need not be in it; `None` exactly where there
    /// is none above it.
    pub fn after(&self, which: Which, addr: Addr) -> Option<Addr>
        ensures some { IfSome result (IsLeastAbove addr (λ a. IsTrue (has self.now which a))) }
        ensures none { IfNone result ((a : Addr) → IsTrue (has self.now which a) → addr_cmp addr a ≢ Less) }
    {
        self.list(which).after(addr)
    }

    /// Whether a station is allowed in a mode.
    pub fn allowed(&self, addr: Addr, mode: AclMode) -> bool
        ensures { result ≡ allowed self.now addr mode }
    {
        is_allowed(mode, self.accept.contains(addr), self.deny.contains(addr))
    }

    /// Puts an address into a list, or leaves both as they were. It lacks memory only for an address
    /// that the list has not.
    pub fn add(&mut self, which: Which, addr: Addr) -> Result<(), AllocError>
        ensures ok { OnOk result (self.new ≡ with_address self.old which addr) }
        ensures err { OnErr result (self.new ≡ self.old) }
        ensures over { IsTrue (has self.old which addr) → IsOk result }
    {
        match which {
            Which::Accept => self.accept.add(addr),
            Which::Deny => self.deny.add(addr),
        }
    }

    /// Takes an address out of a list, if it is there. It takes no memory.
    pub fn remove(&mut self, which: Which, addr: Addr)
        ensures { self.new ≡ without_address self.old which addr }
    {
        match which {
            Which::Accept => self.accept.remove(addr),
            Which::Deny => self.deny.remove(addr),
        }
    }

    /// Takes each address out of a list. It takes no memory.
    pub fn clear(&mut self, which: Which)
        ensures { self.new ≡ without_addresses self.old which }
    {
        match which {
            Which::Accept => self.accept.clear(),
            Which::Deny => self.deny.clear(),
        }
    }
}
