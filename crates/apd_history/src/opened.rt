//! A history that has no name yet.
ghost use Rattle.std.specs.Prelude.{◌≡◌, [], true};
ghost use Rattle.apd_history.specs.Views.{view};

use crate::pages::{Leaves, Pass};
use std::alloc::{AllocError, Global};
use std::sync::ledger::Blank;

/// A new history, which has no name yet: its pages, and the ledger of its commits.
pub struct Opened<E> {
    pub(crate) leaves: Leaves<E>,
    pub(crate) pass: Pass<E>,
    pub(crate) commits: Blank,
    pub ghost same: { pass.table_id ≡ leaves.shared.table_id },
    pub ghost word: { leaves.shared.table_id.words ≡ 1 },
    pub ghost empty: { pass.me ≡ (view true [] [], []) },
    pub ghost one: { commits.parts ≡ 1 },
}

impl<E> Opened<E> {
    /// A new history, which is empty.
    ///
    /// Errors: memory ran out.
    pub fn new(alloc: Global) -> Result<Opened<E>, AllocError> {
        let (leaves, pass) = Leaves::<E>::of_words(alloc, &[0], &())?;
        let commits = Blank::new(1);
        Ok(Opened {
            leaves,
            pass,
            commits,
        })
    }
}
