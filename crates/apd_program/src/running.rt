//! The subcommand that serves.
ghost use Rattle.std.specs.Prelude.{◌≡◌};
ghost use Rattle.apd_program.specs.declared.running.RunningFault.TheVariants.{NoMemory};

use crate::host::Host;
use crate::timed::Timed;
use apd_conf::ConfigurationFault;
use apd_disk::FileRecord;
use apd_script::read_configurations;
use apd_serve::{RunFault, run};
use apd_site::Site;
use apd_subcommands::warn_of_ssids;
use clap::ArgMatches;
use log::Log;
use std::alloc::AllocError;
use std::fs::File;
use std::io::Read;
use std::net::Net;
use std::os::fd::RawFd;
use std::rt::Files;
use std::sync::Wait;
use std::thread::Threads;
use std::time::Clock;
use thiserror::Error;

/// The descriptor of standard input.
const STANDARD_INPUT: RawFd = 0;

/// Why it didn't run to its end.
#[derive(Debug, Drop, Error)]
pub enum RunningFault {
    /// A configuration is refused.
    #[error("{0}")]
    Configuration(ConfigurationFault),
    /// It didn't run, or ended before its input.
    #[error("{0}")]
    Run(RunFault),
    /// Memory ran out.
    #[error("out of memory")]
    NoMemory,
}

impl From<AllocError> for RunningFault {
    ghost from_gives = { λ _ fault. fault ≡ NoMemory };

    fn from(_: AllocError) -> RunningFault {
        RunningFault::NoMemory
    }
}

// What the words say of options.
#[derive(Clone, Copy, Debug)]
struct Options {
    port: u16,
    drivers: Option<u16>,
    ends_at_fault: Option<RawFd>,
    logs_stations: bool,
}

fn options_of(matches: &ArgMatches<'_>) -> Options {
    Options {
        port: matches.get_one("port").unwrap_or(0),
        drivers: matches.get_one("drivers"),
        ends_at_fault: if matches.get_flag("end-at-fault") {
            Some(STANDARD_INPUT)
        } else {
            None
        },
        logs_stations: matches.get_flag("log-stations"),
    }
}

// A site of which all lives as long as what lives shortest of it.
fn site_of<'a>(
    store: &'a str,
    recordings: Option<&'a str>,
    configurations: &'a [&'a str],
    options: Options,
) -> Site<'a> {
    Site {
        store,
        port: options.port,
        drivers: options.drivers,
        recordings,
        configurations,
        ends_at_fault: options.ends_at_fault,
        logs_stations: options.logs_stations,
    }
}

/// Whether the words ask for the time in front of each line of the log.
pub(crate) fn shows_time(matches: &ArgMatches<'_>) -> bool {
    matches.get_flag("log-time")
}

// Does what the subcommand's words say, with this standard input.
fn run_with<
    W: Files<File = File> + Net + Wait + Threads + Clock + AllocGlobal + Log + Sync,
    B: Read + Drop,
>(rt: &W, matches: &ArgMatches<'_>, reader: B) -> Result<(), RunningFault>
where
    W::Dir: Send + Sync,
    W::Stream: Send + Sync,
    W::Listener: Send + Sync,
{
    // (As `names_of`, whose answer would stand at another lifetime than the store's name.)
    let names = matches.get_strs("CONF").unwrap_or(&[]);
    let store = matches.get_str("store").unwrap_or("");
    let recordings = matches.get_str("record");
    let site = site_of(store, recordings, names, options_of(matches));
    let confs = read_configurations(rt, names).map_err(RunningFault::Configuration)?;
    warn_of_ssids(rt, &confs);
    match run(rt, confs, &site, FileRecord::new(), reader).err() {
        None => Ok(()),
        Some(fault) => Err(RunningFault::Run(fault)),
    }
}

/// Does what the subcommand's words say. The log goes to this standard error.
pub fn run_and_log<R: Host, E: Eprint + Sync>(
    rt: &R,
    to: &E,
    matches: &ArgMatches<'_>,
) -> Result<(), RunningFault> {
    let timed = Timed::new(rt, to, shows_time(matches));
    run_with(&timed, matches, rt.reader())
}
