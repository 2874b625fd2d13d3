//! Where control commands come from.
ghost use Rattle.std.specs.Prelude.{◌≡◌, List, [], ◌∷◌, None, Option, OnErr, OnOk};
ghost use Rattle.apd_control_port.specs.Replied.{Reply, and_replies};

use std::alloc::AllocError;
use std::os::fd::RawFd;
use thiserror::Error;

/// Why a port did not do what it was asked for.
#[derive(Clone, Copy, Debug, PartialEq, Eq, Error)]
pub enum PortFault {
    /// The device failed.
    #[error("device fault")]
    Device = 1,
    /// Memory ran out.
    #[error("out of memory")]
    NoMemory,
}

impl From<AllocError> for PortFault {
    ghost use Rattle.apd_control_port.specs.declared.port.PortFault.TheVariants.{NoMemory};

    ghost from_gives = { λ _ fault. fault ≡ NoMemory };

    fn from(_error: AllocError) -> PortFault {
        PortFault::NoMemory
    }
}

/// Gives commands and takes replies. A tag tells which command a reply is to; nothing is promised of it.
pub trait Port {
    /// The replies that it was handed and took, in order, where they are known.
    ghost replied: { Self → Option (List Reply) } = { λ _. None };

    /// The next command, by its tag and its bytes, if one waits. It doesn't wait for one.
    ///
    /// Errors: `Device`, `NoMemory`. A command that meets want of memory may be given by a later call.
    fn poll(&mut self) -> Result<Option<(u64, Vec<u8>)>, PortFault>
        ensures replied { replied self.new ≡ replied self.old };

    /// A descriptor that can be read whenever a command waits in the system, if there is one: who waits for a command
    /// waits for it. Nothing is promised of it.
    fn descriptor(&self) -> Option<RawFd> {
        None
    }

    /// Sends the reply to the command of this tag. No other call adds to the replies that it took.
    ///
    /// Errors: `Device`, `NoMemory`, and the reply is lost: it did not take it.
    fn reply(&mut self, tag: u64, text: &[u8]) -> Result<(), PortFault>
        ensures replied { OnOk result (replied self.new ≡ and_replies (replied self.old) ((tag, text.now) ∷ [])) }
        ensures lost { OnErr result (replied self.new ≡ replied self.old) };
}
