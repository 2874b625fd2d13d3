//! An access point that serves: the clock of the system, the threads round a world that was started, and all of it
//! over a site.
#![tactic(auto)]

mod beginning;
mod clock;
mod crew;
mod environment;
mod fault;
mod handing_out;
mod host;
mod input;
pub mod laws;
mod opening;
mod running;
mod serving;
mod started;
mod telling_port;
mod threads;
mod worker;

pub use beginning::{OpenStore, begin_world, open_store};
pub use clock::SystemClock;
pub use fault::ServeFault;
pub use host::Host;
pub use running::{RunFault, run};
pub use serving::{serve, serve_and_ring};
