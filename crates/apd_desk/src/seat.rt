//! The right to ask a shared core.
ghost use Rattle.std.specs.Prelude.{◌≡◌};

use std::sync::ledger::{Ledger, Share};
use thiserror::Error;

/// How many seats there are at most (own).
pub const SEATS: u32 = 65_536;

/// The right to ask the one shared core whose ledger it is of: it counts the requests by which it made entries,
/// and the greatest number of a settled entry that it saw.
#[derive(Drop)]
pub struct Seat<L: Ledger> {
    pub(crate) count: u64,
    pub(crate) seen: u64,
    pub(crate) share: Share<L>,
    ghost one_part: { share.parts ≡ 1 },
    ghost counted: { share.amount ≡ count },
}

impl<L: Ledger> Seat<L> {
    /// How many of its requests became entries.
    pub fn count(&self) -> u64
        ensures { result ≡ self.now.count }
    {
        self.count
    }

    /// The greatest number of a settled entry that it saw.
    pub fn seen_number(&self) -> u64
        ensures { result ≡ self.now.seen }
    {
        self.seen
    }
}

/// Why a query of a seat is not answered.
#[derive(Clone, Copy, Debug, PartialEq, Eq, Error)]
pub enum AskFault {
    /// The last settled entry is this one, and the seat saw a later one.
    #[error("behind, at entry {0}")]
    Behind(u64),
    /// Memory ran out.
    #[error("out of memory")]
    NoMemory,
}
