//! What is told behind a fault's line: why a file, a port or a thread was not had, why a file is no store, and what is wrong
//! with configurations.
use crate::fault::ProgramFault;
use crate::running::RunningFault;
use apd_diagnosis::{More, PortUse, tell_configurations, tell_no_store, tell_ports};
use apd_maintenance::{CheckFault, FormatFault, UpgradeFault};
use apd_script::{ScriptFault, read_configurations};
use apd_serve::{RunFault, ServeFault};
use apd_store::StoreFault;
use apd_subcommands::{CommandFault, names_of};
use apd_world::WorldFault;
use clap::ArgMatches;
use std::alloc::AllocError;
use std::fs::File;
use std::net::Net;
use std::rt::Files;

/// What may keep a thread from being made.
const NO_THREAD: &str =
    "as many as this user may have (ulimit -u) or its group of processes (pids.max), or no memory for one more";

/// Which words of subcommands are names of stores, in the order in which these are read.
const STORES: [&str; 4] = ["store", "STORE", "OLD", "NEW"];

// The fault of a store that was met, if it is one.
fn store_fault_of(fault: &ProgramFault) -> Option<StoreFault> {
    match fault {
        ProgramFault::Running(RunningFault::Run(RunFault::World(WorldFault::Store(fault))))
        | ProgramFault::Command(CommandFault::Script(ScriptFault::World(WorldFault::Store(fault))))
        | ProgramFault::Command(CommandFault::Check(CheckFault::Store(fault)))
        | ProgramFault::Command(CommandFault::Format(FormatFault::Store(fault)))
        | ProgramFault::Command(CommandFault::Upgrade(UpgradeFault::Store(fault))) => Some(*fault),
        _ => None,
    }
}

// Tells which file of a subcommand is no store, and why.
fn tell_no_store_of(
    rt: &(impl Files<File = File> + AllocGlobal),
    more: &mut More,
    words: &ArgMatches<'_>,
) -> Result<(), AllocError> {
    let mut names = Vec::new(rt.alloc());
    for word in STORES {
        if let Some(name) = words.get_str(word) {
            names.push(name)?;
        }
    }
    tell_no_store(rt, more, &names)?;
    drop(names);
    Ok(())
}

// Tells which port of a run was not had.
fn tell_run_ports(
    rt: &(impl Files<File = File> + Net + AllocGlobal),
    more: &mut More,
    run: &ArgMatches<'_>,
) -> Result<(), AllocError> {
    let Ok(confs) = read_configurations(rt, names_of(run)) else {
        return Ok(());
    };
    let mut uses = Vec::new(rt.alloc());
    uses.push(PortUse::Control)?;
    for conf in confs.list() {
        uses.push(PortUse::Radio(conf.interface.as_str()))?;
    }
    let port = run.get_one("port").unwrap_or(0);
    tell_ports(rt, more, port, &uses)?;
    drop(uses);
    Ok(())
}

/// Tells more of a fault that the subcommand of these words met: why a file, a port or a thread was not had, why a file is
/// no store, and each faulty line of the files of configurations. Of other faults nothing.
pub fn tell_more(
    rt: &(impl Files<File = File> + Net + AllocGlobal),
    more: &mut More,
    words: &ArgMatches<'_>,
    fault: &ProgramFault,
) -> Result<(), AllocError> {
    let Some((_, words)) = words.subcommand() else {
        return Ok(());
    };
    match fault {
        ProgramFault::Command(CommandFault::Open(fault))
        | ProgramFault::Running(RunningFault::Run(RunFault::Open(fault))) => {
            more.tell_unopened(fault)
        }
        ProgramFault::Command(CommandFault::Configuration(fault))
        | ProgramFault::Running(RunningFault::Configuration(fault)) => {
            tell_configurations(rt, more, fault, names_of(words))
        }
        ProgramFault::Running(RunningFault::Run(RunFault::Socket(_))) => {
            tell_run_ports(rt, more, words)
        }
        ProgramFault::Running(RunningFault::Run(RunFault::Serve(ServeFault::Thread))) => {
            more.tell("threads", NO_THREAD)
        }
        _ if store_fault_of(fault) == Some(StoreFault::NotAStore) => {
            tell_no_store_of(rt, more, words)
        }
        _ => Ok(()),
    }
}
