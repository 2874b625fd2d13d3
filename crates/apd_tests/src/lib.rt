//! Tests of the other crates by their public calls alone, a module a subject, and with bytes that mean harm: here they
//! are proved once, and no other crate is proved twice for them.
#![tactic(auto)]

#[cfg(test)]
mod base_tests;
#[cfg(test)]
mod calls;
#[cfg(test)]
mod conf_file_tests;
#[cfg(test)]
mod conf_tests;
#[cfg(test)]
mod control_tests;
#[cfg(test)]
mod cursor_tests;
#[cfg(test)]
mod cut_frame_tests;
#[cfg(test)]
mod decision_tests;
#[cfg(test)]
mod drawn_tests;
#[cfg(test)]
mod expect;
#[cfg(test)]
mod frame_tests;
#[cfg(test)]
mod generator;
#[cfg(test)]
mod good;
#[cfg(test)]
mod indexed_tests;
#[cfg(test)]
mod limit_tests;
#[cfg(test)]
mod list_file_tests;
#[cfg(test)]
mod list_tests;
#[cfg(test)]
mod plain_table;
#[cfg(test)]
mod record_tests;
#[cfg(test)]
mod table_steps;
#[cfg(test)]
mod table_tests;
#[cfg(test)]
mod verdict_tests;
