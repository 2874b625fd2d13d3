//! Stores that are made, looked into and copied, with nothing started, and what is printed of that.
#![tactic(auto)]

mod checking;
mod formatting;
mod listing;
mod missing;
mod upgrading;

pub use checking::{CheckFault, Detail, run_check, run_check_with};
pub use formatting::{FormatFault, run_format};
pub use missing::run_format_missing;
pub use upgrading::{UpgradeFault, run_upgrade};
