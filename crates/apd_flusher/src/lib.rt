//! A store with its table: one device call a turn, and a receipt means that the batch is durable.
#![tactic(auto)]

mod committer;
mod flusher;
mod phase;

pub use committer::Committer;
pub use flusher::Flusher;
pub use phase::Phase;
