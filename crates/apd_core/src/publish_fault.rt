//! Why a receipt is refused.
ghost use Rattle.std.specs.Prelude.{◌≡◌};

use thiserror::Error;

/// Why a core refuses a receipt. It is then as it was.
#[derive(Clone, Copy, Debug, PartialEq, Eq, Error)]
pub enum PublishFault {
    /// The receipt's batch is not the one in flight, by its numbers and its changes.
    #[error("foreign receipt")]
    Foreign = 1,
    /// Memory ran out.
    #[error("out of memory")]
    NoMemory,
}
