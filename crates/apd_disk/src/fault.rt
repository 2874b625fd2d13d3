//! The one fault of a device.
ghost use Rattle.std.specs.Prelude.{IsErr};
ghost use Rattle.apd_disk.specs.Disk.{Counts};

use thiserror::Error;

/// The device failed in this call. Its count of failures rose, or stands at 2^64 - 1.
#[derive(Clone, Copy, Debug, PartialEq, Eq, Error)]
#[error("device fault")]
pub struct DiskFault;

// Tells a fault that is counted. A count at 2^64 - 1 stays there.
pub(crate) fn fail(failures: &mut u64) -> Result<(), DiskFault>
    ensures failed { IsErr result }
    ensures count { Counts failures.old failures.new result }
{
    *failures = failures.saturating_add(1);
    Err(DiskFault)
}
