//! Datagrams of a port of this host, and what is known of them.
#![tactic(auto)]

mod ghost_list;

pub use ghost_list::{GhostList, Shows};
