//! Why a world can't be begun anew, or not started, or a radio of it not replaced.

use apd_base::Bssid;
use apd_slot::SlotFault;
use apd_store::StoreFault;
use thiserror::Error;

/// Why a world is not begun anew, or not started, or a radio of it not replaced.
#[derive(Clone, Copy, Debug, PartialEq, Eq, Error)]
pub enum WorldFault {
    /// The store refuses.
    #[error("{0}")]
    Store(StoreFault),
    /// The slot of this BSSID does not resume, or does not take another radio.
    #[error("{1}")]
    Slot(Bssid, SlotFault),
    /// No slot has the BSSID.
    #[error("no such radio")]
    NoSlot,
    /// Memory ran out.
    #[error("out of memory")]
    NoMemory,
}
