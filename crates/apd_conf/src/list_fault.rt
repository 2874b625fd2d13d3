//! Why a list file is refused.
ghost use Rattle.std.specs.Prelude.{◌≡◌};
ghost use Rattle.apd_conf.specs.declared.list_fault.ListFault.TheVariants.{NoMemory};

use std::alloc::AllocError;
use thiserror::Error;

/// Why a list file is refused. Lines are counted from 1, and the first faulty one is told.
#[derive(Clone, Copy, Debug, PartialEq, Eq, Error)]
pub enum ListFault {
    /// The line is none of a list file.
    #[error("line {0}: bad address")]
    BadAddress(usize),
    /// The line would make more than 1024 addresses.
    #[error("too many addresses")]
    TooMany,
    /// A growth was refused.
    #[error("out of memory")]
    NoMemory,
}

impl From<AllocError> for ListFault {
    ghost from_gives = { λ _ e. e ≡ NoMemory };

    fn from(_: AllocError) -> Self {
        ListFault::NoMemory
    }
}
