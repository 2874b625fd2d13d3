//! Tests of the devices, and of the journal, the store and the flusher, which stand on them. They use public calls
//! alone, a module a kind. Here they are proved once, and no other crate is proved twice for them.
#![tactic(auto)]

#[cfg(test)]
mod committer_tests;
#[cfg(test)]
mod common;
#[cfg(test)]
mod disk_tests;
#[cfg(test)]
mod expect;
#[cfg(test)]
mod file_tests;
#[cfg(test)]
mod flusher_tests;
#[cfg(test)]
mod journal_tests;
#[cfg(test)]
mod old_images;
#[cfg(test)]
mod store_none_tests;
#[cfg(test)]
mod store_tests;
#[cfg(test)]
mod upgrade_tests;
#[cfg(test)]
mod version_tests;
