//! What threads did to a core that they share comes to one list of a world's steps. Each law is the contract of a
//! function that does nothing.
#![tactic(auto)]

mod beginnings;
mod moments;

pub use beginnings::{threads_begin_with_no_call, threads_take_over_from_a_world};
pub use moments::{what_a_thread_has_seen_is_a_history, what_threads_did_is_one_list_of_steps};
