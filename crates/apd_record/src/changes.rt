//! Changes that are collected one by one.
use crate::change::Change;
use std::alloc::{AllocError, Global};
use std::marker::Model;

/// Changes in order. Each is known by its type to be in its ranges when it comes, and so all of them are, with
/// no second look at them.
#[derive(Drop)]
pub struct Changes {
    items: Vec<Change>,
}

impl Model for Changes {
    ghost use Rattle.std.specs.Prelude.{List};
    ghost use Rattle.apd_record.specs.Ranges.{AreChanges};
    ghost use Rattle.apd_record.specs.declared.change.Change.{Change};

    ghost Value = { List Change };

    ghost view = { λ a. a.items.items };

    ghost invariant = { λ a. AreChanges a.items.items };
}

impl Changes {
    ghost use Rattle.std.specs.Prelude.{◌≡◌, [], ◌∷◌, ◌++◌, OnOk, OnErr};
    ghost use Rattle.apd_record.specs.Ranges.{AreChanges};

    /// No change. It takes no memory.
    pub fn new(alloc: Global) -> Changes
        ensures { result ≡ [] }
    {
        Changes {
            items: Vec::new(alloc),
        }
    }

    /// Adds a change at the end, or leaves all as it was.
    pub fn push(&mut self, change: Change) -> Result<(), AllocError>
        ensures ok { OnOk result (self.new ≡ self.old ++ change ∷ []) }
        ensures err { OnErr result (self.new ≡ self.old) }
    {
        change.range_law();
        self.items.push(change)?;
        Ok(())
    }

    /// The changes as a vector. It takes no memory, and looks at none of them.
    pub fn into_vec(self) -> Vec<Change>
        ensures items { result.items ≡ self }
        ensures known { AreChanges self }
    {
        let Self { items } = self;
        items
    }
}
