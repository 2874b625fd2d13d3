//! How many outs of each kept entry are held.
ghost use Rattle.std.specs.Prelude.{◌≡◌, OnOk, OnErr, IsSome, IsOk, ℕ};
ghost use Rattle.std.specs.Coded.{coded_ℕ};
ghost use Rattle.std.specs.FinMap as map;
ghost use Rattle.std.specs.Ordering.{nat_cmp};
ghost use Rattle.apd_core.specs.Held.{less_one, left_after_settled};

use std::alloc::{AllocError, Global};
use std::collections::BTreeMap;
use std::marker::Model;

/// Counts by the numbers of entries, seen as a finite map.
#[derive(Drop)]
pub(crate) struct Remaining {
    table: BTreeMap<u64, usize>,
}

impl Model for Remaining {
    ghost Value = { map.FinMap nat_cmp ℕ };

    ghost coded = { map.code coded_ℕ coded_ℕ };

    ghost view = { λ a. map.from_entries a.table.entries };
}

impl Remaining {
    /// No entry. It takes no memory.
    pub(crate) fn new(alloc: Global) -> Remaining
        ensures { result ≡ map.empty }
    {
        Remaining {
            table: BTreeMap::new(alloc),
        }
    }

    /// The count of an entry.
    pub(crate) fn get(&self, number: u64) -> Option<usize>
        ensures { result ≡ map.get self.now number }
    {
        self.table.get(&number).copied()
    }

    /// The number of entries.
    pub(crate) fn len(&self) -> usize
        ensures { result ≡ map.len self.now }
    {
        self.table.len()
    }

    /// Writes a count, over the old one of its entry, or leaves all as it was. It lacks memory only for
    /// an entry without one.
    pub(crate) fn insert(&mut self, number: u64, count: usize) -> Result<(), AllocError>
        ensures ok { OnOk result (self.new ≡ map.insert self.old number count) }
        ensures err { OnErr result (self.new ≡ self.old) }
        ensures over { IsSome (map.get self.old number) → IsOk result }
    {
        self.table.insert(number, count)?;
        Ok(())
    }

    /// Takes an entry out, if it is there. It takes no memory.
    pub(crate) fn remove(&mut self, number: u64)
        ensures { self.new ≡ map.remove self.old number }
    {
        let _ = self.table.remove(&number);
    }

    /// Lowers the count of an entry by one: with the last the entry goes. It takes no memory.
    pub(crate) fn lower(&mut self, number: u64)
        ensures { self.new ≡ less_one self.old number (map.get self.old number) }
    {
        if let Some(count) = self.get(number) {
            if count <= 1 {
                self.remove(number);
            } else {
                let _ = self.insert(number, count - 1);
            }
        }
    }

    /// Takes an entry out, if its count is 0. It takes no memory.
    pub(crate) fn settle(&mut self, number: u64)
        ensures { self.new ≡ left_after_settled self.old number (map.get self.old number) }
    {
        if let Some(count) = self.get(number) {
            if count == 0 {
                self.remove(number);
            }
        }
    }
}
