//! Tests of the world by its public calls alone, over a device of memory: what no clause says of a run by an example.
//! A test is a list of steps (`steps` reads it from words), what is left of the device, and what is found by who comes
//! next. In `faults` each device call of whole sessions is stopped, and fails.
#![tactic(auto)]

#[cfg(test)]
mod answer_tests;
#[cfg(test)]
mod calls;
#[cfg(test)]
mod driver_tests;
#[cfg(test)]
mod expect;
#[cfg(test)]
mod failing_radio_tests;
#[cfg(test)]
mod faults;
#[cfg(test)]
mod flush_tests;
#[cfg(test)]
mod kinds_tests;
#[cfg(test)]
mod memory_tests;
#[cfg(test)]
mod parts_tests;
#[cfg(test)]
mod refusal_tests;
#[cfg(test)]
mod replacing_tests;
#[cfg(test)]
mod said;
#[cfg(test)]
mod seen;
#[cfg(test)]
mod start_tests;
#[cfg(test)]
mod steps;
#[cfg(test)]
mod stop_tests;
#[cfg(test)]
mod worlds;
