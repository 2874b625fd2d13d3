//! A file in memory, which stands in the place of one of the system. Only tests use it.
#![tactic(auto)]

mod memory_file;

pub use memory_file::{Asked, Fault, MemoryFile};
