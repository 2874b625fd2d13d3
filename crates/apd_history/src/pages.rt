//! The pages on which the log stands that proofs alone keep: who knows how much of it.
use atomic_table::{Join, Play, Seat, Split, Table, TableRule};
use std::alloc::Global;
use std::collections::LinkedList;

/// What a pass knows: the keeper's the whole log, and any other a beginning of it. No value of it is made.
pub struct View<E> {
    pub keeps: bool,
    pub all: LinkedList<E>,
    pub seen: LinkedList<E>,
}

/// The rule over all passes: one has the whole log, and what any of them has seen is a beginning of that.
pub struct Law;

impl<E> TableRule<E, View<E>, ()> for Law {
    ghost use Rattle.std.specs.Prelude.{true, []};
    ghost use Rattle.apd_history.specs.Views.{Kept, view};

    ghost holds = { λ _ s. Kept s };

    ghost first = { λ _. view true [] [] };
}

/// The step by which the keeper puts an entry behind all others.
pub struct Append;

impl<E> Play<E, View<E>> for Append {
    ghost use Rattle.apd_history.specs.Views.{Appends};

    ghost then = { Appends };
}

/// The step by which the keeper learns that what its pass has seen begins the log.
pub struct Check;

impl<E> Play<E, View<E>> for Check {
    ghost use Rattle.apd_history.specs.Views.{Checks};

    ghost then = { Checks };
}

/// A new pass that has seen the whole log.
pub struct Certify;

impl<E> Split<View<E>> for Certify {
    ghost use Rattle.std.specs.Prelude.{false, []};
    ghost use Rattle.apd_history.specs.Views.{view};

    ghost left = { λ v. v };

    ghost right = { λ v. view false [] v.all };
}

/// A new pass that has seen the same.
pub struct Duplicate;

impl<E> Split<View<E>> for Duplicate {
    ghost use Rattle.std.specs.Prelude.{false, []};
    ghost use Rattle.apd_history.specs.Views.{view};

    ghost left = { λ v. v };

    ghost right = { λ v. view false [] v.seen };
}

/// A new pass that has seen nothing.
pub struct Begin;

impl<E> Split<View<E>> for Begin {
    ghost use Rattle.std.specs.Prelude.{false, []};
    ghost use Rattle.apd_history.specs.Views.{view};

    ghost left = { λ v. v };

    ghost right = { λ v. view false [] [] };
}

/// A pass is given up to another, which then has seen the same.
pub struct Show;

impl<E> Join<View<E>> for Show {
    ghost use Rattle.std.specs.Prelude.{false, []};
    ghost use Rattle.apd_history.specs.Views.{view};

    ghost both = { λ v w. view v.keeps v.all w.seen };

    ghost spent = { view false [] [] };
}

pub(crate) type Leaves<E> = Table<E, View<E>, (), Law, Global>;

pub(crate) type Pass<E> = Seat<E, View<E>>;
