//! The subcommands of `apd` that serve nobody: what each does. The program goes by `work_on_files`; what else is public is
//! what that is made of, for tests, or what `run` needs too.
#![tactic(auto)]

mod checking;
mod dispatch;
mod fault;
mod formatting;
mod naming;
mod scripting;
mod streams;
mod upgrading;
mod warnings;

pub use checking::{check_and_print, check_file, run_check_command};
pub use dispatch::work_on_files;
pub use fault::CommandFault;
pub use formatting::{format_file, keep_or_format, run_format_command};
pub use scripting::{names_of, run_script_of_input};
pub use streams::hold_closed_streams;
pub use upgrading::{upgrade_and_print, upgrade_files};
pub use warnings::warn_of_ssids;
