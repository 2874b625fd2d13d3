//! A core that threads share: one lock, a seat for each that asks, and the workers round it.
#![tactic(auto)]

mod asked;
mod board;
mod clock;
mod committing;
mod controlling;
mod ending;
mod flushing;
mod gate;
mod idle;
pub mod laws;
mod locked;
mod news;
mod notes;
mod receiving;
mod seat;
mod shared;
mod submitting;
mod tending;
mod ticking;
mod waking;

pub use apd_control_port::{Port, PortFault};
pub use clock::Clock;
pub use committing::commit_all;
pub use controlling::control_worker;
pub use ending::Ending;
pub use flushing::flush_worker;
pub use gate::{Gate, NoGate, Place};
pub use idle::Progress;
pub use receiving::radio_worker;
pub use seat::{AskFault, SEATS, Seat};
pub use shared::Shared;
pub use tending::{mend_first, tend};
pub use ticking::tick_worker;
