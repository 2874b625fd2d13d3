//! How a radio counts the faults of its device.
ghost use Rattle.std.specs.Prelude.{◌≡◌};
ghost use Rattle.apd_radio.specs.Faults.{Counts};

use crate::radio::RadioFault;

// Counts a fault of the device, and answers the same. A count at 2^64 - 1 stays there.
pub(crate) fn count_fault<T>(
    failures: &mut u64,
    answer: Result<T, RadioFault>,
) -> Result<T, RadioFault>
    ensures same { result ≡ answer }
    ensures count { Counts failures.old failures.new result }
{
    if let Err(RadioFault::Device) = answer {
        *failures = failures.saturating_add(1);
    }
    answer
}
