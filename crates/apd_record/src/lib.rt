//! The changes of a table, and the records that keep them in a journal.
#![tactic(auto)]

mod change;
mod changes;
mod fields;
pub mod laws;
mod ranges;
mod reader;
mod writer;

pub use change::Change;
pub use changes::Changes;
pub use laws::{no_record_begins_another, records_are_read_in_one_way};
pub use reader::read_all;
pub use writer::{total_length, write};
