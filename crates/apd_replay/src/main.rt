//! `apd_replay`: runs of an access point's threads, each replayed by one thread and compared with that. It is no part of
//! the daemon.
#![tactic(auto)]

mod beside;
mod calls;
mod commands;
mod crew;
mod device;
mod digest;
mod ending;
mod fault;
mod frames;
mod gate;
mod generator;
mod history;
mod notes;
mod plan;
mod port;
mod radio;
mod replaying;
mod running;
mod stage;
mod telling;
mod trying;
mod turns;
mod working;

use std::io;
use std::process::ExitCode;
use std::rt::Env;
use trying::try_runs;

/// What is printed where the command line is another.
const USAGE: &str = "usage: apd_replay COUNT SEED [tell]
Makes COUNT runs, the first by SEED and each further one by the next number, and replays each. With `tell` it tells what
they came to.";

// How many runs, the first one's beginning, and whether what they came to is told.
fn read_words(words: &[String]) -> Option<(u64, u64, bool)> {
    let (count, seed, tell) = match words {
        [_, count, seed] => (count, seed, false),
        [_, count, seed, word] if word.as_str() == "tell" => (count, seed, true),
        _ => return None,
    };
    Some((
        count.as_str().parse().ok()?,
        seed.as_str().parse().ok()?,
        tell,
    ))
}

/// The exit status is 0 where each run is a list of steps, 1 where one isn't, 2 for another command line.
fn main(rt: HostRuntime) -> io::Result<ExitCode> {
    let words: Vec<String> = std::env::args(&rt)?.collect(rt.alloc())?;
    let Some((count, seed, tell)) = read_words(words.as_slice()) else {
        eprintln!(rt; "{USAGE}")?;
        return Ok(ExitCode::from(2));
    };
    let all = try_runs(&rt, rt.alloc(), count, seed, tell)?;
    Ok(if all {
        ExitCode::SUCCESS
    } else {
        ExitCode::FAILURE
    })
}
