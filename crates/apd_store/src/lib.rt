//! The journalled store of an access point's table: a stop at any moment leaves the table before a batch
//! or the table after it.
#![tactic(auto)]

mod beginning;
mod calling;
mod fault;
mod formatting;
mod half;
pub mod laws;
mod phase;
mod reading;
mod recovery;
mod store;
mod switching;
mod upgrading;

pub use fault::StoreFault;
pub use formatting::format;
pub use half::Half;
pub use laws::{an_image_shows_by_one_version, an_image_shows_one_state};
pub use phase::Phase;
pub use reading::{MAGIC, OLD_MAGIC};
pub use recovery::recover;
pub use store::{Receipt, Store};
pub use upgrading::upgrade;
