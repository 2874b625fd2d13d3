//! The steps of a core with its committer, and with a slot, each written once: for a core that one thread has, and for
//! one that others call in between.
#![tactic(auto)]

mod asks;
mod committing;
mod handing;
mod settles;

pub use asks::Asks;
pub use committing::{call, fail, publish, take};
pub use handing::hand_to;
pub use settles::Settles;
