//! Why a subcommand that serves nobody didn't do what it was asked for.
ghost use Rattle.std.specs.Prelude.{◌≡◌};
ghost use Rattle.apd_subcommands.specs.declared.fault.CommandFault.TheVariants.{NoMemory};

use apd_conf::ConfigurationFault;
use apd_maintenance::{CheckFault, FormatFault, UpgradeFault};
use apd_script::ScriptFault;
use apd_site::OpenFault;
use std::alloc::AllocError;
use thiserror::Error;

/// Why a subcommand that serves nobody didn't do what it was asked for. It is shown in the words of the fault inside.
#[derive(Debug, Drop, Error)]
pub enum CommandFault {
    /// A configuration that `script` is given is refused.
    #[error("{0}")]
    Configuration(ConfigurationFault),
    /// A script didn't run to its end.
    #[error("{0}")]
    Script(ScriptFault),
    /// A file can't be opened as a store.
    #[error("{0}")]
    Open(OpenFault),
    /// A store can't be told of.
    #[error("{0}")]
    Check(CheckFault),
    /// A file isn't made a store.
    #[error("{0}")]
    Format(FormatFault),
    /// A store of version 1 isn't copied.
    #[error("{0}")]
    Upgrade(UpgradeFault),
    /// Memory ran out.
    #[error("out of memory")]
    NoMemory,
}

impl From<AllocError> for CommandFault {
    ghost from_gives = { λ _ fault. fault ≡ NoMemory };

    fn from(_: AllocError) -> CommandFault {
        CommandFault::NoMemory
    }
}
