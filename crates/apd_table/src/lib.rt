//! The table of an access point: its stations, its lists, its policies and the identifiers that it gave
//! last, in a sound state, and the changes that it takes.
#![tactic(auto)]

mod bss_rows;
mod changes;
mod denials;
pub mod laws;
mod members;
mod snapshot;
mod staged;
mod stations;
mod table;
mod writes;

pub use laws::{
    one_is_next_where_one_is_free, only_one_is_next, the_last_given_waits_for_all_others,
    the_next_is_free,
};
pub use snapshot::MAX_SNAPSHOT;
pub use staged::Staged;
pub use table::{Table, TableFault};
