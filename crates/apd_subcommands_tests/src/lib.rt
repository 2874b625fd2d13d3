//! Tests of the command line: what each subcommand prints, its faults, and the files that it leaves.
#![tactic(auto)]

#[cfg(test)]
mod checking_tests;
#[cfg(test)]
mod expect;
#[cfg(test)]
mod formatting_tests;
#[cfg(test)]
mod missing_tests;
#[cfg(test)]
mod running_tests;
#[cfg(test)]
mod scripting_tests;
#[cfg(test)]
mod streams_tests;
#[cfg(test)]
mod upgrading_tests;
#[cfg(test)]
mod words;
