//! Which shared core a type is of.
ghost use Rattle.std.specs.Prelude.{◌≡◌};

use std::marker::{Brand, Model, PhantomData};
use std::sync::ledger::Ledger;

/// Which shared core it is, by what nothing else is named. Each call of a program picks it.
pub trait Naming {
    ghost use Rattle.std.specs.Prelude.{ℕ};
    ghost use Rattle.atomic_table.specs.Seated.{TableId};
    ghost use Rattle.apd_core.specs.Core.{CoreState};

    /// The name of the ledger of who asks it.
    ghost seats: { ℕ };

    /// The pages of its history.
    ghost table: { TableId };

    /// The core before all calls.
    ghost first: { CoreState };

    /// The name of the ledger of its commits.
    ghost commits: { ℕ };
}

impl Naming for Brand {
    ghost use Rattle.apd_history.specs.Views.{no_table};
    ghost use Rattle.apd_history.specs.Names.{empty_core};

    ghost seats = { 0 };

    ghost table = { no_table };

    ghost first = { empty_core };

    ghost commits = { 0 };
}

/// The ledger of who asks a shared core. It has a part for each that may.
pub struct Seats<L: Naming> {
    of: PhantomData<L>,
}

impl<L: Naming> Ledger for Seats<L> {
    ghost name = { L.seats };

    ghost parts = { 65536 };
}

/// The ledger of the commits of a shared core. It has one part, which is whose who commits.
pub struct Commits<L: Naming> {
    of: PhantomData<L>,
}

impl<L: Naming> Ledger for Commits<L> {
    ghost name = { L.commits };

    ghost parts = { 1 };
}

/// The core with which a history begins, which costs no bytes. Contracts see that core.
#[derive(Drop)]
pub struct First<L: Naming> {
    of: PhantomData<L>,
}

impl<L: Naming> Model for First<L> {
    ghost use Rattle.std.specs.Coded.{codes};
    ghost use Rattle.apd_base.specs.for_proofs.Codes.{coded_state};
    ghost use Rattle.apd_conf.specs.for_proofs.Codes.{coded_confs};
    ghost use Rattle.apd_core.specs.for_proofs.CoreCodes.{coded_last_heard};
    ghost use Rattle.apd_core.specs.for_proofs.HeldCodes.{coded_held};
    ghost use Rattle.apd_core.specs.Core.{CoreState};

    ghost Value = { CoreState };

    ghost coded = { Prim.hlevel (codes, coded_state, coded_confs, coded_held, coded_last_heard) };

    ghost view = { λ f. L.first };
}

impl<L: Naming> First<L> {
    /// That core.
    pub fn new() -> First<L>
        ensures { result ≡ L.first }
    {
        First { of: PhantomData }
    }

    /// It is that core.
    pub fn known(&self)
        ensures { self.now ≡ L.first }
    {
        let _ = &self.of;
    }
}
