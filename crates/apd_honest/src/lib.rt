//! What the calls promise on a disk that is always honest, as one in memory: outright, with no premise on what a read
//! gave. Each law is the contract of a function that does nothing, and stands on the contracts of the calls alone.
#![tactic(auto)]

mod maintenance;
mod stores;
mod worlds;

pub use maintenance::{
    a_check_of_an_honest_disk_is_right, a_copy_of_an_honest_disk_is_told_rightly,
    a_format_of_an_honest_disk_is_told_rightly, what_is_there_of_an_honest_disk_is_kept,
};
pub use stores::{
    a_copy_of_an_honest_disk_is_right, a_format_of_an_honest_disk_is_right,
    a_recovery_of_an_honest_disk_is_right,
};
pub use worlds::{
    a_script_on_an_honest_disk_leaves_its_world_proper, a_world_begins_proper_on_an_honest_disk,
    a_world_is_begun_anew_from_an_honest_disk, steps_on_an_honest_disk_lose_nothing_told,
};
