//! The subcommand that makes a store.
use crate::argument::{file, flag};
use clap::Command;
use std::alloc::{AllocError, Global};

/// What the help for `format` says beside its arguments.
const FORMAT_HELP: &str =
    "Warning: without --missing the whole content of an existing store is emptied, without a
question asked. Any file of a store's length, 2097216 bytes, is made a store, whatever it held;
a file of another length is left as it was.

With --missing it prints 'kept' where a store is there, of whatever version and also a damaged
one, and changes nothing. A file of a store's length with zeros alone is made a store. Any other
file is left as it was.";

const MISSING: &str = "Makes a store only where there is none, and keeps one that is there";

const STORE: &str = "The store's file, which is made where there is none";

/// The subcommand.
pub(crate) fn format_command<'a>(alloc: Global) -> Result<Command<'a>, AllocError> {
    Command::new(alloc, "format")
        .about("Makes a file a store of the empty table; all that a store held is lost")
        .after_help(FORMAT_HELP)
        .arg(flag(alloc, "missing", MISSING))?
        .arg(file(alloc, "STORE", STORE))
}
