//! Radios: a driver is a map of installed stations to their identifiers, from which frames come and
//! to which frames go.
#![tactic(auto)]

mod boxed;
mod call;
mod counting;
mod datagrams;
mod driver;
mod driver_radio;
mod driver_words;
mod failing;
mod heard;
mod identifiers;
pub mod laws;
mod log;
mod radio;
mod recording;
mod replaying;
mod sim;
mod strangers;
mod udp_sim;

pub use call::Call;
pub use datagrams::{Datagrams, SocketFault};
pub use driver_radio::DriverRadio;
pub use failing::Failing;
pub use identifiers::Identifiers;
pub use radio::{Radio, RadioFault};
pub use recording::Recording;
pub use replaying::{ReplayFault, Replaying};
pub use sim::Sim;
pub use strangers::Strangers;
pub use udp_sim::UdpSim;
