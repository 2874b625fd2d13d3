//! What an access point is given of the system that it runs on.
ghost use Rattle.std.specs.Prelude.{◌≡◌};
ghost use Rattle.apd_site.specs.declared.site.SiteFault.TheVariants.{NoMemory, Open};

use crate::opening::OpenFault;
use apd_radio::SocketFault;
use std::alloc::AllocError;
use std::os::fd::RawFd;
use thiserror::Error;

/// Where an access point runs.
#[derive(Clone, Copy, Debug)]
pub struct Site<'a> {
    /// The name of the store's file.
    pub store: &'a str,
    /// The port of control commands. The radio at place i has the port i + 1 above it.
    pub port: u16,
    /// Where the radios' drivers are other processes: the port of that at place 0. That at place i has the port i above.
    pub drivers: Option<u16>,
    /// What the names of the recordings begin with, where the radios are recorded: that of the radio at place i ends
    /// in `.` and i in decimal.
    pub recordings: Option<&'a str>,
    /// The names of the files that the configurations were read from: none of them, nor of the list files that they
    /// name, becomes a recording.
    pub configurations: &'a [&'a str],
    /// Where a fault of the store's device ends it: the descriptor that can be read whenever the input can.
    pub ends_at_fault: Option<RawFd>,
    /// Whether it is logged which stations associate, leave and are let go, and which list edits are carried out.
    pub logs_stations: bool,
}

/// Why what a site names was not had.
#[derive(Debug, Drop, Error)]
pub enum SiteFault {
    /// A file was not had.
    #[error("{0}")]
    Open(OpenFault),
    /// A port can't be had.
    #[error("{0}")]
    Socket(SocketFault),
    /// Memory ran out.
    #[error("out of memory")]
    NoMemory,
}

impl From<AllocError> for SiteFault {
    ghost from_gives = { λ _ fault. fault ≡ NoMemory };

    fn from(_: AllocError) -> SiteFault {
        SiteFault::NoMemory
    }
}

impl From<OpenFault> for SiteFault {
    ghost from_gives = { λ inner fault. fault ≡ Open inner };

    fn from(fault: OpenFault) -> SiteFault {
        SiteFault::Open(fault)
    }
}
