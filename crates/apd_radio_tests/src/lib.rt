//! Tests of the radios and of their slots by public calls alone, a module a kind. Here they are proved once, and no
//! other crate is proved twice for them.
#![tactic(auto)]

#[cfg(test)]
mod driver_tests;
#[cfg(test)]
mod expect;
#[cfg(test)]
mod failing_radio_tests;
#[cfg(test)]
mod queue_tests;
#[cfg(test)]
mod radio_calls;
#[cfg(test)]
mod radio_tests;
#[cfg(test)]
mod slot_calls;
#[cfg(test)]
mod slot_fault_tests;
#[cfg(test)]
mod slot_memory_tests;
#[cfg(test)]
mod slot_samples;
#[cfg(test)]
mod slot_tests;
#[cfg(test)]
mod sockets;
#[cfg(test)]
mod udp_tests;
