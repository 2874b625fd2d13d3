//! What can happen at a BSSID: frames and silence of stations, control commands, and a start.
#![tactic(auto)]

mod event;

pub use event::{Edit, Event};
