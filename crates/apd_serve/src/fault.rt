//! Why serving ended without a number.
ghost use Rattle.std.specs.Prelude.{◌≡◌};
ghost use Rattle.apd_serve.specs.declared.fault.ServeFault.TheVariants.{NoMemory};

use apd_store::StoreFault;
use apd_world::WorldFault;
use std::alloc::AllocError;
use thiserror::Error;

/// Why an access point didn't serve to the end of its input.
#[derive(Clone, Copy, Debug, PartialEq, Eq, Error)]
pub enum ServeFault {
    /// A thread can't be made, or was lost with what it owned; or there are more radios than seats.
    #[error("no thread")]
    Thread,
    /// The store refuses the start.
    #[error("{0}")]
    Store(StoreFault),
    /// Memory ran out.
    #[error("out of memory")]
    NoMemory,
}

impl From<AllocError> for ServeFault {
    ghost from_gives = { λ _ fault. fault ≡ NoMemory };

    fn from(_: AllocError) -> ServeFault {
        ServeFault::NoMemory
    }
}

/// Why a start that the world refused was refused. A start resumes no slot and replaces no radio, so `Slot` and
/// `NoSlot` are never told of one.
pub(crate) fn of_start(fault: WorldFault) -> ServeFault
    ensures { (inner : StoreFault) → fault ≡ WorldFault.Store inner → result ≡ ServeFault.Store inner }
{
    match fault {
        WorldFault::Store(fault) => ServeFault::Store(fault),
        WorldFault::Slot(..) | WorldFault::NoSlot | WorldFault::NoMemory => ServeFault::NoMemory,
    }
}
