//! One half of a store's device: a snapshot of a table, and groups of changes behind it.
#![tactic(auto)]

mod batch;
mod block;
pub mod laws;
mod reader;
mod writer;

pub use batch::{Batch, Plan};
pub use laws::{a_half_is_read_in_one_way, an_opened_group_is_read, an_opened_half_is_read};
pub use reader::{Groups, read_groups, split_epoch};
pub use writer::{HALF_LENGTH, fits, plan, plan_half};
