//! `apd_bench`: what the promises of `apd` cost. It is no part of the daemon.
#![tactic(auto)]

mod access_point;
mod bare;
mod case;
mod counting;
mod fault;
mod frames;
mod measuring;
mod printing;
mod rate;
mod round;
mod world;

use printing::{print_counts, print_rates};
use std::io;
use std::process::ExitCode;
use std::rt::Env;

/// What is printed where the command line is another.
const USAGE: &str = "usage: apd_bench [--counts] STORE
Measures in a file STORE, which it makes and removes, and in STORE.bare.";

// What the words after the program's name say: the file's name, and whether only counts are printed.
fn read_words<'a>(words: &'a [String]) -> Option<(&'a str, bool)> {
    match words {
        [_, name] if name.as_str() != "--counts" => Some((name.as_str(), false)),
        [_, word, name] if word.as_str() == "--counts" => Some((name.as_str(), true)),
        _ => None,
    }
}

/// The exit status is 0 where all was measured, 1 for a fault, 2 for another command line.
fn main(rt: HostRuntime) -> io::Result<ExitCode> {
    let words: Vec<String> = std::env::args(&rt)?.collect(rt.alloc())?;
    let Some((name, counts_alone)) = read_words(words.as_slice()) else {
        eprintln!(rt; "{USAGE}")?;
        return Ok(ExitCode::from(2));
    };
    let done = if counts_alone {
        print_counts(&rt, name)
    } else {
        print_rates(&rt, name)
    };
    match done {
        Ok(()) => Ok(ExitCode::SUCCESS),
        Err(fault) => {
            eprintln!(rt; "apd_bench: {}", fault.text())?;
            Ok(ExitCode::FAILURE)
        }
    }
}
