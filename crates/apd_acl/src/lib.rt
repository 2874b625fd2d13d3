//! The lists of addresses of a BSSID, and the stations that they allow.
#![tactic(auto)]

mod address_set;
mod lists;
pub mod policy;

pub use lists::Lists;
