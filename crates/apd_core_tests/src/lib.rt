//! Tests of the core, and of a store below it that goes on in its other half, by public calls alone: here they are
//! proved once, and no other crate is proved twice for them.
#![tactic(auto)]

#[cfg(test)]
mod common;
#[cfg(test)]
mod crowd;
#[cfg(test)]
mod entry_tests;
#[cfg(test)]
mod expect;
#[cfg(test)]
mod fault_tests;
#[cfg(test)]
mod halves;
#[cfg(test)]
mod plain_tests;
#[cfg(test)]
mod silence_tests;
#[cfg(test)]
mod snapshot_tests;
#[cfg(test)]
mod steps;
#[cfg(test)]
mod stopped_switch_tests;
#[cfg(test)]
mod store_switch_tests;
