//! The subcommand that copies a store of version 1 into a new one.
use crate::argument::file;
use clap::Command;
use std::alloc::{AllocError, Global};

/// What the help for `upgrade` says beside its arguments.
const UPGRADE_HELP: &str =
    "Warning: the whole content of NEW, a store's too, is overwritten, without a question asked.
NEW gets the table of OLD, and 'copied' is printed. OLD is only read, so the earlier version
can go on with it. Where OLD is refused, or NEW has another length than 2097216 bytes, nothing
is written, and a NEW that was made is removed.
docs/RUN.md has each step, and the way back.";

const OLD: &str = "The file of a store of version 1, which is only read";

const NEW: &str = "The new store's file, which is made where there is none";

/// The subcommand.
pub(crate) fn upgrade_command<'a>(alloc: Global) -> Result<Command<'a>, AllocError> {
    Command::new(alloc, "upgrade")
        .about("Copies a store of version 1 into a new one; all that the new one held is lost")
        .after_help(UPGRADE_HELP)
        .arg(file(alloc, "OLD", OLD))?
        .arg(file(alloc, "NEW", NEW))
}
