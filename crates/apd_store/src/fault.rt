//! Why a store refuses.
ghost use Rattle.std.specs.Prelude.{◌≡◌};
ghost use Rattle.apd_store.specs.declared.fault.StoreFault.TheVariants.{Device, NoMemory};

use apd_disk::DiskFault;
use std::alloc::AllocError;
use thiserror::Error;

/// Why a call of a store is refused. From `NotAStore` to `NewVersion` they have the numbers 1 to 10, but
/// for 5, which stays unused.
#[derive(Clone, Copy, Debug, PartialEq, Eq, Error)]
pub enum StoreFault {
    /// The device has another length than a store's, or begins with the magic of no version.
    #[error("not a store")]
    NotAStore = 1,
    /// It is a store that shows no state.
    #[error("damaged store")]
    Damaged,
    /// The device failed in this call.
    #[error("device fault")]
    Device,
    /// The device failed in an earlier call, or the store does not lie inside it: the store has to be recovered anew.
    #[error("store has failed")]
    Failed,
    /// A switch to the other half is needed, and the epoch is the greatest.
    #[error("store is worn out")]
    Worn = 6,
    /// A batch is begun and its receipt not taken.
    #[error("a batch is in flight")]
    NotIdle,
    /// The batch's records are too long, or a change leaves an unsound table.
    #[error("batch does not fit")]
    BadBatch,
    /// It is a store of version 1, which `upgrade` alone reads.
    #[error("store of version 1")]
    OldVersion,
    /// It is a store of version 2, where one of version 1 is wanted.
    #[error("store of version 2")]
    NewVersion,
    /// Memory is refused.
    #[error("out of memory")]
    NoMemory,
}

impl From<AllocError> for StoreFault {
    ghost from_gives = { λ _ e. e ≡ NoMemory };

    fn from(_: AllocError) -> Self {
        StoreFault::NoMemory
    }
}

impl From<DiskFault> for StoreFault {
    ghost from_gives = { λ _ e. e ≡ Device };

    fn from(_: DiskFault) -> Self {
        StoreFault::Device
    }
}
