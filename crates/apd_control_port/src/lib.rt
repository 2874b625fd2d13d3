//! The port of control commands: what a port does, and one whose commands are datagrams.
#![tactic(auto)]

mod control_port;
mod port;
mod senders;

pub use control_port::ControlPort;
pub use port::{Port, PortFault};
pub use senders::Senders;
