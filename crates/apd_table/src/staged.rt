//! A table, and beside it the same table with changes more.
ghost use Rattle.std.specs.Prelude.{◌≡◌, ◌≢◌, OnOk, OnErr, IfOk, IfErr, Err};
ghost use Rattle.apd_record.specs.Meaning.{meaning_of};
ghost use Rattle.apd_table.specs.Sound.{Sound, StaySound};
ghost use Rattle.apd_table.specs.Staged.{alone};
ghost use Rattle.apd_table.specs.for_proofs.Standing.{Stand};
ghost use Rattle.apd_table.specs.declared.table.TableFault.{TableFault};

use crate::table::{Table, TableFault};
use apd_record::Change;
use std::alloc::{AllocError, Global};
use std::marker::Model;
use std::mem;

/// A table, and beside it the same table with a list of changes more, which a commit makes the table
/// without memory. It holds two tables; the list before brings the second one up to the first, so that
/// no list of changes copies a table: it is copied where this is made, and at the first stage after a
/// refusal, or after a stage that no commit followed.
#[derive(Drop)]
pub struct Staged {
    table: Table,
    other: Table,
    list: Vec<Change>,
    standing: Standing,
}

/// How the other table stands to the table.
#[derive(Clone, Copy)]
enum Standing {
    /// It lacks the list.
    Behind,
    /// It has the list more.
    Ahead,
    /// It is any table.
    Unknown,
}

impl Model for Staged {
    ghost use Rattle.apd_table.specs.Staged.{StagedTables, coded_staged_tables};

    ghost Value = { StagedTables };

    ghost coded = { coded_staged_tables };

    ghost use Rattle.apd_table.specs.for_proofs.Standing.{tables_of, IsStaged};

    ghost view = { tables_of };

    ghost invariant = { IsStaged };
}

// Brings another table up to the table, or lacks memory.
fn bring_up(
    alloc: Global,
    table: &Table,
    other: &mut Table,
    list: &[Change],
    standing: Standing,
) -> Result<(), TableFault>
    requires { Stand standing list.now table.now other.old }
    ensures ok { OnOk result (other.new ≡ table.now) }
    ensures err { result ≢ Err TableFault.Invalid }
{
    match standing {
        Standing::Behind => other.apply_in_turn(list),
        Standing::Ahead | Standing::Unknown => {
            *other = table.copy(alloc)?;
            Ok(())
        }
    }
}

impl Staged {
    /// Of a table, with nothing staged; where there is no memory, the very table comes back.
    pub fn new(alloc: Global, table: Table) -> Result<Staged, (Table, AllocError)>
        ensures ok { IfOk result (λ staged. staged ≡ alone table) }
        ensures err { IfErr result (λ back. back.0 ≡ table) }
    {
        table.sound();
        let other = match table.copy(alloc) {
            Ok(other) => other,
            Err(error) => return Err((table, error)),
        };
        Ok(Staged {
            table,
            other,
            list: Vec::new(alloc),
            standing: Standing::Behind,
        })
    }

    /// The table, without what is staged. It takes no memory, as `sound`, `commit` and `into_table` do
    /// not.
    pub fn table(&self) -> &Table
        ensures { result.now ≡ self.now.table }
    {
        &self.table
    }

    /// Tells a caller's proof that both states are sound. It does nothing.
    pub fn sound(&self)
        ensures table { Sound self.now.table }
        ensures staged { Sound self.now.staged }
    {
        self.table.sound();
        self.other.sound();
    }

    /// Stages changes on the table, in the place of any that are staged, exactly where the state is
    /// sound before them and after each of them; else the answer is `Invalid`. The table stays as it
    /// was. After a refusal nothing is staged.
    pub fn stage(&mut self, alloc: Global, changes: &[Change]) -> Result<(), TableFault>
        ensures table { self.new.table ≡ self.old.table }
        ensures ok { OnOk result (self.new.staged ≡ meaning_of changes.now self.old.table) }
        ensures sound { OnOk result (StaySound changes.now self.old.table) }
        ensures invalid { result ≡ Err TableFault.Invalid → ¬ (StaySound changes.now self.old.table) }
        ensures err { OnErr result (self.new.staged ≡ self.old.table) }
    {
        self.unstage();
        let list = changes.to_vec(alloc)?;
        let standing = mem::replace(&mut self.standing, Standing::Unknown);
        bring_up(
            alloc,
            &self.table,
            &mut self.other,
            self.list.as_slice(),
            standing,
        )?;
        self.other.apply_in_turn(changes)?;
        self.list = list;
        self.standing = Standing::Ahead;
        Ok(())
    }

    /// Makes what is staged the table. Where nothing is staged it does nothing.
    pub fn commit(&mut self)
        ensures { self.new ≡ alone self.old.staged }
    {
        match self.standing {
            Standing::Ahead => {
                mem::swap(&mut self.table, &mut self.other);
                self.standing = Standing::Behind;
            }
            Standing::Behind | Standing::Unknown => {}
        }
    }

    /// The table, without what is staged.
    pub fn into_table(self) -> Table
        ensures { result ≡ self.table }
    {
        let Self { table, .. } = self;
        table
    }

    // Forgets what is staged.
    fn unstage(&mut self)
        ensures { self.new ≡ alone self.old.table }
    {
        if let Standing::Ahead = self.standing {
            self.standing = Standing::Unknown;
        }
    }
}
