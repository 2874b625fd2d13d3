//! What ends the program with status 1.
ghost use Rattle.std.specs.Prelude.{◌≡◌};
ghost use Rattle.apd_program.specs.declared.fault.ProgramFault.TheVariants.{NoMemory};

use crate::running::RunningFault;
use apd_site::OpenFault;
use apd_subcommands::CommandFault;
use std::alloc::AllocError;
use thiserror::Error;

/// What ends the program with status 1. It is printed in the words of the fault inside.
#[derive(Debug, Drop, Error)]
pub enum ProgramFault {
    /// A standard stream that is closed can't be held.
    #[error("{0}")]
    Stream(OpenFault),
    /// A subcommand that serves nobody didn't do what it was asked for.
    #[error("{0}")]
    Command(CommandFault),
    /// `run` didn't serve to its end.
    #[error("{0}")]
    Running(RunningFault),
    /// Memory ran out.
    #[error("out of memory")]
    NoMemory,
}

impl From<AllocError> for ProgramFault {
    ghost from_gives = { λ _ fault. fault ≡ NoMemory };

    fn from(_: AllocError) -> ProgramFault {
        ProgramFault::NoMemory
    }
}
