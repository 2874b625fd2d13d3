//! Tests of `apd_script` and `apd_maintenance`, by their public calls alone, a module a subject: here they are proved
//! once, and no other crate is proved twice for them.
#![tactic(auto)]

#[cfg(test)]
mod calls;
#[cfg(test)]
mod check_tests;
#[cfg(test)]
mod command_tests;
#[cfg(test)]
mod configuration_tests;
#[cfg(test)]
mod driver_fault_tests;
#[cfg(test)]
mod expect;
#[cfg(test)]
mod file_tests;
#[cfg(test)]
mod identifier_tests;
#[cfg(test)]
mod script_tests;
#[cfg(test)]
mod scripts;
#[cfg(test)]
mod stop_tests;
#[cfg(test)]
mod worlds;
#[cfg(test)]
mod worn_tests;
