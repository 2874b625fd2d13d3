//! What the program does, from the words of its command line to its exit status, and the subcommand that serves. The
//! program is `run_program`; what else is public is what it is made of, for tests.
#![tactic(auto)]

mod fault;
mod host;
mod lines;
mod program;
mod relay;
mod running;
mod stamped;
mod telling;
mod telling_more;
mod timed;

pub use fault::ProgramFault;
pub use host::Host;
pub use program::run_program;
pub use running::{RunningFault, run_and_log};
pub use telling::tell;
pub use telling_more::tell_more;
pub use timed::Timed;
