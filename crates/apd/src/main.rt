//! `apd`: an access point daemon. It serves over a store and datagrams, runs scripts on a store, makes stores, looks
//! into them, and copies those of version 1.
#![tactic(auto)]

use apd_program::run_program;
use std::io;
use std::process::ExitCode;

fn main(rt: HostRuntime) -> io::Result<ExitCode> {
    run_program(&rt)
}
