//! Why there are no numbers.

use std::alloc::{AllocError, AllocFailed};

/// Why a case was not done.
#[derive(Clone, Copy)]
pub enum BenchFault {
    /// A file can't be made, as where one of its name is there, or not be written or read.
    File,
    /// Nothing can be printed.
    Output,
    /// The access point didn't take a request, or didn't commit.
    Refused,
    /// Memory ran out.
    NoMemory,
}

impl BenchFault {
    /// What is printed of it.
    pub fn text(self) -> &'static str {
        match self {
            BenchFault::File => "the file can't be used",
            BenchFault::Output => "nothing can be printed",
            BenchFault::Refused => "a request was refused",
            BenchFault::NoMemory => "out of memory",
        }
    }
}

impl From<AllocError> for BenchFault {
    fn from(_: AllocError) -> BenchFault {
        BenchFault::NoMemory
    }
}

impl<T: Drop> From<AllocFailed<T>> for BenchFault {
    fn from(_: AllocFailed<T>) -> BenchFault {
        BenchFault::NoMemory
    }
}
