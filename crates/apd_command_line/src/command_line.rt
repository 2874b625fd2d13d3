//! The command line.
use crate::check::check_command;
use crate::format::format_command;
use crate::run::run_command;
use crate::script::script_command;
use crate::upgrade::upgrade_command;
use clap::Command;
use clap::error::ErrorKind;
use std::alloc::{AllocError, Global};
use std::io;
use std::rt::Env;

/// What the program's help says beside its subcommands.
const HELP: &str = "'apd script --help' has the lines of a script and of a configuration file.";

/// The command line.
pub fn command<'a>(alloc: Global) -> Result<Command<'a>, AllocError> {
    Command::new(alloc, "apd")
        .bin_name("apd")?
        .version("0.1.0")
        .about("An access point daemon whose promises are proved")
        .after_help(HELP)
        .subcommand_required(true)
        .subcommand(check_command(alloc)?)?
        .subcommand(format_command(alloc)?)?
        .subcommand(run_command(alloc)?)?
        .subcommand(script_command(alloc)?)?
        .subcommand(upgrade_command(alloc)?)
}

/// The words of the command line, and none where one of them is no text.
pub fn words(rt: &(impl Env + AllocGlobal)) -> Result<Option<Vec<String>>, AllocError> {
    match std::env::args(rt) {
        Ok(words) => Ok(Some(words.collect(rt.alloc())?)),
        Err(error) if error.kind() == io::ErrorKind::OutOfMemory => Err(AllocError),
        Err(_) => Ok(None),
    }
}

/// What `clap` says of a command line that is no text.
pub fn no_text(alloc: Global) -> Result<clap::Error, AllocError> {
    command(alloc)?.error(
        ErrorKind::ValueValidation,
        "invalid UTF-8 was detected in one or more arguments",
    )
}
