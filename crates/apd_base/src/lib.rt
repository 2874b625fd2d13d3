//! What every part of the daemon speaks of: addresses, stations, moments, limits, numbers as they are
//! sent, and text.
#![tactic(auto)]

mod address;
pub mod limits;
mod moment;
pub mod number;
pub mod rows;
mod sequence;
mod station;
pub mod text;

pub use address::{Addr, BROADCAST, Bssid, TEXT_LENGTH, broadcast_law, orders_law, text_law};
pub use moment::Moment;
pub use sequence::Sequence;
pub use station::{AclMode, Aid, Association, Policy, Station, StationNumber, Which};
