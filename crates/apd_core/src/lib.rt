//! The core: requests become entries, and what leaves because of them is held until they are settled.
#![tactic(auto)]

mod entry;
mod held;
mod input;
mod last_heard;
pub mod laws;
mod publish_fault;
mod query_answer;
mod queue;
mod remaining;
mod request_core;
mod ticket;

pub use input::{Input, QuietReason, event_said, expiry, unfitness};
pub use publish_fault::PublishFault;
pub use query_answer::Answer;
pub use request_core::Core;
pub use ticket::{Accepted, Ticket};
