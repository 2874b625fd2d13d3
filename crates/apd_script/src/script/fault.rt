//! What ends a script before its last line.
ghost use Rattle.std.specs.IoError.{error_kind};
ghost use Rattle.std.specs.Prelude.{◌≡◌, ◌≢◌};
ghost use Rattle.apd_script.specs.declared.script.fault.ScriptFault.TheVariants.{NoMemory, Reader, World, Writer};
ghost use Rattle.apd_script.specs.Faults.{IsUnread, IsUnwritten};

use apd_world::WorldFault;
use std::alloc::AllocError;
use std::io::{self, ErrorKind};
use thiserror::Error;

/// What ends a script before its last line. The lines in front of one that is bad or can't be read were
/// run, and what they told was printed.
#[derive(Clone, Copy, Debug, PartialEq, Eq, Error)]
pub enum ScriptFault {
    /// The line of this number, counted from 1, is no line of a script, names an interface that is not
    /// configured, or is a `stop` for which too few radios are left.
    #[error("bad line {0}")]
    BadLine(u64),
    /// The script can't be read, or has more than 16,777,216 bytes.
    #[error("reader fault")]
    Reader,
    #[error("writer fault")]
    Writer,
    /// The store refused, or a radio did not resume.
    #[error("{0}")]
    World(WorldFault),
    #[error("out of memory")]
    NoMemory,
}

impl From<AllocError> for ScriptFault {
    ghost from_gives = { λ _ fault. fault ≡ NoMemory };

    fn from(_: AllocError) -> ScriptFault {
        ScriptFault::NoMemory
    }
}

impl From<WorldFault> for ScriptFault {
    ghost from_gives = { λ why fault. fault ≡ World why };

    fn from(fault: WorldFault) -> ScriptFault {
        ScriptFault::World(fault)
    }
}

/// What a failed read means.
pub fn reader_fault(error: io::Error) -> ScriptFault
    ensures memory { error_kind error ≡ ErrorKind.OutOfMemory → result ≡ NoMemory }
    ensures other { error_kind error ≢ ErrorKind.OutOfMemory → result ≡ Reader }
    ensures one { IsUnread result }
{
    match error.kind() {
        ErrorKind::OutOfMemory => ScriptFault::NoMemory,
        _ => ScriptFault::Reader,
    }
}

/// What a failed write means.
pub fn writer_fault(error: io::Error) -> ScriptFault
    ensures memory { error_kind error ≡ ErrorKind.OutOfMemory → result ≡ NoMemory }
    ensures other { error_kind error ≢ ErrorKind.OutOfMemory → result ≡ Writer }
    ensures one { IsUnwritten result }
{
    match error.kind() {
        ErrorKind::OutOfMemory => ScriptFault::NoMemory,
        _ => ScriptFault::Writer,
    }
}
