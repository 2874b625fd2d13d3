//! The subcommand that runs a script.
use crate::fault::CommandFault;
use crate::warnings::warn_of_ssids;
use apd_conf::Confs;
use apd_disk::FileRecord;
use apd_script::{new_store, read_configurations, run_on_file, run_on_store};
use apd_site::{Access, open_disk};
use clap::ArgMatches;
use log::Log;
use std::fs::File;
use std::io::{self, BufRead, BufReader};
use std::rt::Files;
use std::time::Clock;

/// The files of configurations that a subcommand is given.
pub fn names_of<'a>(words: &'a ArgMatches<'_>) -> &'a [&'a str] {
    words.get_strs("CONF").unwrap_or(&[])
}

// Runs a script on the store of the file of this name, and prints what it tells.
fn run_script_on_file(
    rt: &(impl Print + Files<File = File> + Clock + AllocGlobal),
    name: &str,
    confs: Confs,
    reader: impl BufRead + Drop,
) -> Result<(), CommandFault> {
    let file = match open_disk(rt, name, Access::Write) {
        Ok(file) => file,
        Err(fault) => return Err(CommandFault::Open(fault)),
    };
    let known = FileRecord::new();
    let ended = run_on_file(rt.alloc(), file, known, confs, reader, &mut io::writer(rt)).err();
    match ended {
        None => Ok(()),
        Some(fault) => Err(CommandFault::Script(fault)),
    }
}

// On a new store in memory.
fn run_script_in_memory(
    rt: &(impl Print + AllocGlobal),
    confs: Confs,
    reader: impl BufRead + Drop,
) -> Result<(), CommandFault> {
    let disk = new_store(rt.alloc()).map_err(CommandFault::Script)?;
    let ended = run_on_store(rt.alloc(), disk, confs, reader, &mut io::writer(rt)).err();
    match ended {
        None => Ok(()),
        Some(fault) => Err(CommandFault::Script(fault)),
    }
}

fn run_script(
    rt: &(impl Print + Files<File = File> + Clock + AllocGlobal),
    store: Option<&str>,
    confs: Confs,
    reader: impl BufRead + Drop,
) -> Result<(), CommandFault> {
    match store {
        Some(name) => run_script_on_file(rt, name, confs, reader),
        None => run_script_in_memory(rt, confs, reader),
    }
}

// Runs the script on standard input with these configurations.
fn run_script_with(
    rt: &(impl Input + Print + Files<File = File> + Clock + AllocGlobal),
    store: Option<&str>,
    confs: Confs,
) -> Result<(), CommandFault> {
    match BufReader::new(rt.alloc(), rt.reader()) {
        Ok(reader) => run_script(rt, store, confs, reader),
        Err(_) => Err(CommandFault::NoMemory),
    }
}

/// Runs the script on standard input, with the configurations of these files, on the store of the file of
/// this name, or on a new one in memory.
pub fn run_script_of_input(
    rt: &(impl Input + Print + Files<File = File> + Clock + AllocGlobal),
    store: Option<&str>,
    names: &[&str],
) -> Result<(), CommandFault> {
    let confs = read_configurations(rt, names).map_err(CommandFault::Configuration)?;
    run_script_with(rt, store, confs)
}

/// Does what the subcommand's words say. What is odd about the configurations is logged.
pub(crate) fn run_script_command(
    rt: &(impl Input + Print + Files<File = File> + Clock + AllocGlobal + Log),
    matches: &ArgMatches<'_>,
) -> Result<(), CommandFault> {
    let names = names_of(matches);
    let confs = read_configurations(rt, names).map_err(CommandFault::Configuration)?;
    warn_of_ssids(rt, &confs);
    run_script_with(rt, matches.get_str("store"), confs)
}
