//! A core, a flusher and slots in one value, one step at a time: what a stop leaves, and what was said.
#![tactic(auto)]

mod committing;
mod core_restarting;
mod driving;
mod durable_core;
mod failing;
mod fault;
mod flushing;
mod handing_out;
pub mod laws;
mod mending;
mod replacing;
mod restarting;
mod slots;
mod starting;
mod step;
mod stepping;
mod world;
mod world_stepping;

pub use driving::drive;
pub use durable_core::DurableCore;
pub use fault::WorldFault;
pub use restarting::{begin_anew, restart};
pub use slots::slots_for;
pub use step::{Commit, Reception, Step, Told};
pub use world::World;
