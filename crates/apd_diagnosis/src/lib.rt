//! What is told of a fault beyond its one line: why a file or a port was not had, or a file is no store, and each faulty
//! line of configuration files and list files.
#![tactic(auto)]

mod blanks;
mod conf_lines;
mod configurations;
mod faulty_line;
mod more;
mod no_store;
mod ports;
mod repeats;
mod shown;
mod ssid_warning;

pub use configurations::tell_configurations;
pub use more::More;
pub use no_store::tell_no_store;
pub use ports::{PortUse, tell_ports};
pub use ssid_warning::{SsidWarning, warning_of};
