//! `apd_sessions`: sessions of an access point in memory, with all that is told in them, and cases: scripts, and what
//! each has to print. In a session each call that lacked memory is made once more, and this is printed too, in a line
//! that begins with `again: `. It is no part of the daemon.
#![tactic(auto)]

mod beginning;
mod case;
mod cases;
mod ending;
mod filed;
mod images;
mod requests;
mod saying;
mod sessions;
mod sum;
mod upgrading;
mod world;

use cases::run_cases;
use sessions::run_session;
use std::fs::File;
use std::io;
use std::process::ExitCode;
use std::rt::{Env, Files};

/// Runs the session of this name, or the cases of this file in `cases/`. Tells whether each case printed what it should.
fn run<R: Print + Files<File = File> + AllocGlobal>(rt: &R, name: &str) -> io::Result<bool> {
    if name.starts_with("cases/") {
        return run_cases(rt, name);
    }
    run_session(rt, name)?;
    Ok(true)
}

/// Runs each of these but the first, which is the program's own name.
fn run_all<R: Print + Files<File = File> + AllocGlobal>(
    rt: &R,
    words: &[String],
) -> io::Result<bool> {
    let mut all = true;
    for name in words.iter().skip(1) {
        all &= run(rt, name.as_str())?;
    }
    Ok(all)
}

/// Runs the sessions that are named, each alone, and tells what is seen; of a file in `cases/` it runs the cases. The exit
/// status is 0 where each of these printed what it should.
fn main(rt: HostRuntime) -> io::Result<ExitCode> {
    let words: Vec<String> = std::env::args(&rt)?.collect(rt.alloc())?;
    let all = run_all(&rt, words.as_slice());
    drop(words);
    Ok(if all? {
        ExitCode::SUCCESS
    } else {
        ExitCode::FAILURE
    })
}
