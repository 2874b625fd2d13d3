//! The command line of `apd`: its subcommands, their words, and their help.
#![tactic(auto)]

mod argument;
mod check;
mod command_line;
mod format;
mod run;
mod script;
mod upgrade;

pub use command_line::{command, no_text, words};
pub use run::refuse_ports;
