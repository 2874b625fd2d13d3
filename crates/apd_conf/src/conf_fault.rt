//! Why a configuration file is refused.
ghost use Rattle.std.specs.Prelude.{◌≡◌};
ghost use Rattle.apd_conf.specs.declared.conf_fault.ConfFault.TheVariants.{NoMemory};

use std::alloc::AllocError;
use std::fmt;
use thiserror::Error;

/// A name that a configuration file must give a value, in the order in which they are looked for.
#[derive(Clone, Copy, Debug, PartialEq, Eq)]
pub enum Required {
    Interface,
    Bssid,
    Ssid,
}

impl fmt::Display for Required {
    ghost use Rattle.std.specs.Prelude.{Some};
    ghost use Rattle.apd_conf.specs.Faults.{required_word};

    ghost output = { λ name. Some (required_word name) };

    fn fmt<W: fmt::Write>(&self, f: &mut fmt::Formatter<W>) -> fmt::Result {
        f.write_str(match self {
            Required::Interface => "interface",
            Required::Bssid => "bssid",
            Required::Ssid => "ssid",
        })
    }
}

/// Why a configuration file is refused. Lines are counted from 1. The first faulty line is told, and where
/// none is the first name that is missing.
#[derive(Clone, Copy, Debug, PartialEq, Eq, Error)]
pub enum ConfFault {
    /// The line has no `=`.
    #[error("line {0}: no '='")]
    NoEquals(usize),
    /// The line's name is not known.
    #[error("line {0}: unknown name")]
    Unknown(usize),
    /// The line's name does not take its value.
    #[error("line {0}: bad value")]
    BadValue(usize),
    /// The line asks for security, which there is none of.
    #[error("line {0}: security is not supported")]
    Security(usize),
    /// No line gives the name a value.
    #[error("missing {0}")]
    Missing(Required),
    /// A growth was refused.
    #[error("out of memory")]
    NoMemory,
}

impl From<AllocError> for ConfFault {
    ghost from_gives = { λ _ e. e ≡ NoMemory };

    fn from(_: AllocError) -> Self {
        ConfFault::NoMemory
    }
}
