//! The lines behind a fault's own.
use apd_site::OpenFault;
use std::alloc::{AllocError, Global};
use std::fmt::Display;

/// The lines that are told behind a fault's own, in one text: each ends in a newline.
#[derive(Debug, Drop)]
pub struct More {
    text: String,
}

impl More {
    /// None.
    pub fn new(alloc: Global) -> More {
        More {
            text: String::new(alloc),
        }
    }

    /// Tells one more line of a file or another thing of this name. It begins as a fault's line does.
    pub fn tell(&mut self, name: &str, what: impl Display + Drop) -> Result<(), AllocError> {
        writeln!(self.text, "apd: {name}: {what}")
    }

    /// Tells why a file was not had.
    pub fn tell_unopened(&mut self, fault: &OpenFault) -> Result<(), AllocError> {
        match fault {
            OpenFault::CannotRead(name, reason) => self.tell(name.as_str(), reason),
            OpenFault::NoMemory => Ok(()),
        }
    }

    /// The lines.
    pub fn as_str(&self) -> &str {
        self.text.as_str()
    }

    /// Whether there is none.
    pub fn is_empty(&self) -> bool {
        self.text.is_empty()
    }
}
