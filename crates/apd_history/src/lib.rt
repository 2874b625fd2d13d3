//! One history of the calls of a core that threads share, which proofs alone keep.
#![tactic(auto)]

mod entry;
mod keeper;
mod naming;
mod opened;
mod pages;

pub use entry::{Change, Entry, Kind};
pub use keeper::{CommitRight, Front, Keeper};
pub use naming::{Commits, First, Naming, Seats};
pub use opened::Opened;
