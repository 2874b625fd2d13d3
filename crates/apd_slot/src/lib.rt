//! Slots: a radio, the stations that it should have, and what mends it.
#![tactic(auto)]

pub mod laws;
mod mending;
mod resuming;
mod slot;

pub use mending::Mending;
pub use slot::{Slot, SlotFault};
