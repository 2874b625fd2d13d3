//! What the program does, from the words of its command line to its exit status.
use crate::fault::ProgramFault;
use crate::host::Host;
use crate::relay::{Relay, Relayed, start_relay};
use crate::running::{RunningFault, run_and_log, shows_time};
use crate::telling::tell;
use crate::telling_more::tell_more;
use apd_command_line::{command, no_text, refuse_ports, words};
use apd_diagnosis::More;
use apd_subcommands::{hold_closed_streams, work_on_files};
use clap::ArgMatches;
use std::io;
use std::process::ExitCode;
use std::rt::Env;
use std::sync::{Arc, Wait};
use std::time::Clock;

// Serves, with a log that nobody waits for. The relay is kept for what is told at the end.
fn serve<R: Host + Copy + Send + 'static>(
    rt: &R,
    run: &ArgMatches<'_>,
    kept: &mut Option<Arc<Relay>>,
) -> Result<(), RunningFault> {
    let relay = start_relay(rt, shows_time(run))?;
    let served = run_and_log(rt, &Relayed::new(rt, &relay), run);
    relay.widen(rt);
    *kept = Some(relay);
    served
}

// Does what a subcommand says.
fn carry_out<R: Host + Copy + Send + 'static>(
    rt: &R,
    matches: &ArgMatches<'_>,
    kept: &mut Option<Arc<Relay>>,
) -> Result<(), ProgramFault> {
    match matches.subcommand_matches("run") {
        Some(run) => serve(rt, run, kept).map_err(ProgramFault::Running),
        None => work_on_files(rt, matches).map_err(ProgramFault::Command),
    }
}

// Does what parsed words say, or gives the text for ports that are refused. More of a fault is told besides, as far as
// memory reaches.
fn carry_out_or_tell<R: Host + Copy + Send + 'static>(
    rt: &R,
    matches: &ArgMatches<'_>,
    more: &mut More,
    kept: &mut Option<Arc<Relay>>,
) -> Result<Option<clap::Error>, ProgramFault> {
    if let Some(run) = matches.subcommand_matches("run")
        && let Some(error) = refuse_ports(rt.alloc(), run)?
    {
        return Ok(Some(error));
    }
    if let Err(fault) = carry_out(rt, matches, kept) {
        let _ = tell_more(rt, more, matches, &fault);
        return Err(fault);
    }
    Ok(None)
}

// Does what the words of a command line say, or gives the text that `clap` has for one that is wrong, or that asks
// for help or for the version. More of a fault is told besides.
fn run_words<R: Host + Copy + Send + 'static>(
    rt: &R,
    words: &[String],
    more: &mut More,
    kept: &mut Option<Arc<Relay>>,
) -> Result<Option<clap::Error>, ProgramFault> {
    match command(rt.alloc())?.try_get_matches_from(words) {
        Ok(matches) => carry_out_or_tell(rt, &matches, more, kept),
        Err(error) => Ok(Some(error)),
    }
}

// As `run_words`, of the program's own command line.
fn run<R: Env + Host + Copy + Send + 'static>(
    rt: &R,
    more: &mut More,
    kept: &mut Option<Arc<Relay>>,
) -> Result<Option<clap::Error>, ProgramFault> {
    match words(rt)? {
        Some(words) => run_words(rt, words.as_slice(), more, kept),
        None => Ok(Some(no_text(rt.alloc())?)),
    }
}

// As `tell`, and prints behind it what more is known.
fn tell_all(
    rt: &(impl Print + Eprint),
    done: Result<Option<clap::Error>, ProgramFault>,
    more: &More,
) -> io::Result<ExitCode> {
    let status = tell(rt, done)?;
    // Where this can't be printed, the fault was.
    let _ = rt.eprint(more.as_str());
    Ok(status)
}

// As `tell_all`: where it served, behind the log, for a second at most.
fn tell_and_end<R: Print + Eprint + Wait + Clock>(
    rt: &R,
    done: Result<Option<clap::Error>, ProgramFault>,
    more: &More,
    kept: Option<Arc<Relay>>,
) -> io::Result<ExitCode> {
    let Some(relay) = kept else {
        return tell_all(rt, done, more);
    };
    let ended = tell_all(&Relayed::new(rt, &relay), done, more);
    relay.close(rt);
    ended
}

/// Does what the program's command line says, prints what that came to, and gives the exit status, as `tell` does. Behind
/// a fault's line it prints what more is known of it. No standard stream is left closed meanwhile.
pub fn run_program<R: Env + Host + Copy + Send + 'static>(rt: &R) -> io::Result<ExitCode> {
    let mut more = More::new(rt.alloc());
    let streams = match hold_closed_streams(rt) {
        Ok(streams) => streams,
        Err(fault) => {
            let _ = more.tell_unopened(&fault);
            return tell_all(rt, Err(ProgramFault::Stream(fault)), &more);
        }
    };
    let mut kept = None;
    let done = run(rt, &mut more, &mut kept);
    let ended = tell_and_end(rt, done, &more, kept);
    drop(streams);
    ended
}
