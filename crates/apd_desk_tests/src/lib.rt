//! Tests of the desk by its public calls alone, a module a kind: what no clause says of a core that threads share.
#![tactic(auto)]

#[cfg(test)]
mod accepting_tests;
#[cfg(test)]
mod asking;
#[cfg(test)]
mod collecting_tests;
#[cfg(test)]
mod committer_tests;
#[cfg(test)]
mod common;
#[cfg(test)]
mod control_tests;
#[cfg(test)]
mod expect;
#[cfg(test)]
mod fault_tests;
#[cfg(test)]
mod fed;
#[cfg(test)]
mod flaky;
#[cfg(test)]
mod habit;
#[cfg(test)]
mod health_tests;
#[cfg(test)]
mod hold;
#[cfg(test)]
mod memory_tests;
#[cfg(test)]
mod operator;
#[cfg(test)]
mod radio_tests;
#[cfg(test)]
mod resting_tests;
#[cfg(test)]
mod seat_tests;
#[cfg(test)]
mod spare_tests;
#[cfg(test)]
mod staged;
#[cfg(test)]
mod tick_tests;
#[cfg(test)]
mod waking_tests;
