//! Why a file is no store.
use crate::more::More;
use apd_base::limits::DEVICE_LENGTH;
use apd_site::{FileReason, begins_as_a_store};
use std::alloc::AllocError;
use std::fmt::{self, Display, Formatter};
use std::fs::{self, File};
use std::io;
use std::rt::Files;

/// What keeps a file from being a store.
#[derive(Debug, Drop)]
enum Misfit {
    /// It has so many bytes.
    Length(u64),
    /// It begins otherwise.
    Beginning,
    /// It can't be told.
    Unread(FileReason),
}

impl From<io::Error> for Misfit {
    fn from(error: io::Error) -> Misfit {
        Misfit::Unread(error.into())
    }
}

impl Display for Misfit {
    fn fmt<W: fmt::Write>(&self, f: &mut Formatter<W>) -> fmt::Result {
        match self {
            Misfit::Length(bytes) => {
                write!(f, "it has {bytes} bytes, and a store {DEVICE_LENGTH}")
            }
            Misfit::Beginning => f.write_str("it does not begin as a store does"),
            Misfit::Unread(reason) => write!(f, "{reason}"),
        }
    }
}

// Looks at what each store has: its length, and its first bytes.
fn look(files: &impl Files<File = File>, name: &str) -> Result<(), Misfit> {
    let length = fs::metadata(files, name)?.len();
    if length != DEVICE_LENGTH {
        return Err(Misfit::Length(length));
    }
    if begins_as_a_store(&File::open(files, name)?)? {
        Ok(())
    } else {
        Err(Misfit::Beginning)
    }
}

/// Tells of the first of these files that is no store why it is none: by its length, or its first bytes.
pub fn tell_no_store(
    rt: &impl Files<File = File>,
    more: &mut More,
    names: &[&str],
) -> Result<(), AllocError> {
    for name in names {
        if let Err(misfit) = look(rt, name) {
            return more.tell(name, misfit);
        }
    }
    Ok(())
}
