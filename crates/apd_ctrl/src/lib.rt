//! Control commands: what an operator may ask of the daemon, by words known from hostapd, and the
//! texts of the replies. Values, ranges and texts are this daemon's own.
#![tactic(auto)]

mod command;
mod escapes;
mod parser;
mod placing;
mod replies;
mod word;

pub use command::{Command, Placed, Query};
pub use escapes::escape;
pub use parser::{FAIL, Parsed, Refusal, UNKNOWN_COMMAND, exactly_one_outcome, parse_command};
pub use placing::{Interfaces, place};
pub use replies::{addresses_law, reply};
