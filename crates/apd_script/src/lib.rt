//! Scripts for the daemon: requests as text, carried out on a world, and the configuration files that it
//! is given.
#![tactic(auto)]

mod configuration_files;
pub mod laws;
mod on_file;
mod on_store;
mod script;

pub use apd_core::QuietReason;
pub use configuration_files::read_configurations;
pub use on_file::run_on_file;
pub use on_store::{STOPS, new_store, run_on_store};
pub use script::{
    ScriptFault, exactly_one_line, run_script, write_applied, write_out, write_reception,
};
