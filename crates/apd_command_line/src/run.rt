//! The subcommand that serves.
use crate::argument::{file, flag, option};
use apd_base::limits::MAX_BSS;
use clap::error::ErrorKind;
use clap::{Arg, ArgAction, ArgMatches, Command, value_parser};
use std::alloc::{AllocError, Global};

/// What the help for `run` says beside its arguments.
const RUN_HELP: &str =
    "Commands come as datagrams to port N of 127.0.0.1, one a datagram, and the reply goes to the
sender. The radio of the first CONF has port N + 1, the next one N + 2, and so on: each
datagram is a frame, and what the radio sends goes to whom it heard last. It ends when its
standard input does, and then says how many requests were accepted. docs/RUN.md has more.

Example, after 'apd format --missing my.store':
  apd run --store my.store --port 7000 wlan0.conf
  printf STATUS | nc -u -w1 127.0.0.1 7000";

const STORE: &str = "The store's file, which 'apd format' made";

const PORT: &str = "The port of control commands; the radios have those above it";

const RECORD: &str = "Records what each radio does in the files PREFIX.0, PREFIX.1, ..";

const DRIVERS: &str = "The radios' drivers have the ports from BASE on, and nobody else is heard";

const FAULT: &str = "Ends with status 1 once the store's device failed";

const STATIONS: &str = "Logs who associated, left or was let go, and each edit of a list";

const TIME: &str = "Puts the time in front of each line of the log, in UTC";

/// The least port and the greatest one that commands may come to: an ordinary user may have it, and ports above it are left
/// for the radios (own).
const LEAST_PORT: i64 = 1024;

const GREATEST_PORT: i64 = 65_000;

/// How many ports the drivers of radios may have, and the daemon: a radio of each BSSID, and the latter that of commands
/// too.
const DRIVER_PORTS: u16 = MAX_BSS as u16;

const OWN_PORTS: u16 = DRIVER_PORTS + 1;

/// The greatest port that may be the first of drivers: each of theirs is a port.
const GREATEST_BASE: i64 = (u16::MAX - (DRIVER_PORTS - 1)) as i64;

fn port<'a>(alloc: Global) -> Arg<'a> {
    option(alloc, "port", "N", PORT)
        .required(true)
        .value_parser(value_parser!(u16).range(LEAST_PORT..=GREATEST_PORT))
}

fn drivers<'a>(alloc: Global) -> Arg<'a> {
    option(alloc, "drivers", "BASE", DRIVERS).value_parser(value_parser!(u16).range(
        1..=GREATEST_BASE,
    ))
}

fn configurations<'a>(alloc: Global) -> Arg<'a> {
    file(alloc, "CONF", "Configuration files, one for each interface")
        .num_args(1..)
        .action(ArgAction::Append)
}

/// The subcommand.
pub(crate) fn run_command<'a>(alloc: Global) -> Result<Command<'a>, AllocError> {
    Command::new(alloc, "run")
        .about("Serves over a store and datagrams until standard input ends")
        .after_help(RUN_HELP)
        .arg(option(alloc, "store", "STORE", STORE).required(true))?
        .arg(port(alloc))?
        .arg(option(alloc, "record", "PREFIX", RECORD))?
        .arg(drivers(alloc))?
        .arg(flag(alloc, "end-at-fault", FAULT))?
        .arg(flag(alloc, "log-stations", STATIONS))?
        .arg(flag(alloc, "log-time", TIME))?
        .arg(configurations(alloc))
}

// Whether so many ports from one on meet so many from another one on.
fn meets(first: u16, count: u16, other: u16, other_count: u16) -> bool {
    first < other.saturating_add(other_count) && other < first.saturating_add(count)
}

/// What is wrong with the words of the subcommand that each is right alone: ports of drivers that are the daemon's.
pub fn refuse_ports(
    alloc: Global,
    matches: &ArgMatches<'_>,
) -> Result<Option<clap::Error>, AllocError> {
    let port: u16 = matches.get_one("port").unwrap_or(0);
    let Some(base): Option<u16> = matches.get_one("drivers") else {
        return Ok(None);
    };
    if !meets(base, DRIVER_PORTS, port, OWN_PORTS) {
        return Ok(None);
    }
    let last = base.saturating_add(DRIVER_PORTS - 1);
    let own_last = port.saturating_add(OWN_PORTS - 1);
    let text = format!(in alloc;
        "invalid value '{base}' for '--drivers <BASE>': the ports {base} to {last} meet {port} to {own_last}, those of '--port {port}'"
    )?;
    let error = run_command(alloc)?.error(ErrorKind::ValueValidation, text.as_str())?;
    Ok(Some(error))
}
