//! Arguments of a subcommand. Each is made by a function of its own, and added before the next one is made: a way out
//! that drops arguments has a proof as long as these are many.
use clap::{Arg, ArgAction};
use std::alloc::Global;

/// `--<name> <value>`.
pub(crate) fn option<'a>(alloc: Global, name: &'a str, value: &'a str, help: &'a str) -> Arg<'a> {
    Arg::new(alloc, name)
        .long(name)
        .value_name(value)
        .help(help)
}

/// `--<name>`.
pub(crate) fn flag<'a>(alloc: Global, name: &'a str, help: &'a str) -> Arg<'a> {
    Arg::new(alloc, name)
        .long(name)
        .action(ArgAction::SetTrue)
        .help(help)
}

/// A file, which has to be named.
pub(crate) fn file<'a>(alloc: Global, name: &'a str, help: &'a str) -> Arg<'a> {
    Arg::new(alloc, name).required(true).help(help)
}
