//! The subcommand that looks into a store.
use crate::argument::{file, flag};
use clap::Command;
use std::alloc::{AllocError, Global};

/// What the help for `check` says beside its argument.
const CHECK_HELP: &str =
    "It reads the store as a start would, and prints a line for each BSSID that was configured on it:
  bss <bssid> mode <m> max <n> stations <k> accept <a> deny <d>
With --stations lines of each station and of each address of a list follow it:
  station <address> associated <identifier>
  station <address> authenticated
  accept <address>
  deny <address>
A new store prints nothing. It makes no file and writes nothing, so the store may be a copy that
nobody may write; one that stays in use can't be read. docs/RUN.md has the faults, and what to do
after 'damaged store'.";

const STATIONS: &str = "Prints each station and each address of a list besides";

/// The subcommand.
pub(crate) fn check_command<'a>(alloc: Global) -> Result<Command<'a>, AllocError> {
    Command::new(alloc, "check")
        .about("Says what a store has, or what is wrong with it, and changes nothing")
        .after_help(CHECK_HELP)
        .arg(flag(alloc, "stations", STATIONS))?
        .arg(file(alloc, "STORE", "The store's file, which is only read"))
}
