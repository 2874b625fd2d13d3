//! Tests of an access point that serves, both ends in one process, over the loopback: here they are proved once, and
//! no other crate is proved twice for them.
#![tactic(auto)]

#[cfg(test)]
mod burst_tests;
#[cfg(test)]
mod clock_tests;
#[cfg(test)]
mod configurations;
#[cfg(test)]
mod driver_tests;
#[cfg(test)]
mod ending_tests;
#[cfg(test)]
mod expect;
#[cfg(test)]
mod fault_tests;
#[cfg(test)]
mod faulty_radio;
#[cfg(test)]
mod file_tests;
#[cfg(test)]
mod files;
#[cfg(test)]
mod hearing;
#[cfg(test)]
mod recording_tests;
#[cfg(test)]
mod running_tests;
#[cfg(test)]
mod serving_tests;
#[cfg(test)]
mod short_radio;
#[cfg(test)]
mod stage;
#[cfg(test)]
mod station_tests;
#[cfg(test)]
mod talk;
#[cfg(test)]
mod telling_tests;
#[cfg(test)]
mod worn_tests;
