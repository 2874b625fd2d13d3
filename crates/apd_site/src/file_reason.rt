//! Why a file was not had.
use crate::locks::Holder;
use apd_conf::MAX_FILE;
use std::fmt::{self, Display, Formatter};
use std::fs::{self, File, Metadata};
use std::io::{self, ErrorKind};
use std::rt::Files;

/// The system's numbers for too many open files: of the process, and of the whole system.
const TOO_MANY_OF_PROCESS: i32 = 24;

const TOO_MANY_OF_SYSTEM: i32 = 23;

/// Why a file was not had.
#[derive(Debug, Drop)]
pub enum FileReason {
    /// What the system says.
    System(io::Error),
    /// It is a folder.
    Folder,
    /// It is a device, a FIFO or a socket.
    NoRegularFile,
    /// The folder that it would be made in is not there.
    NoFolder,
    /// Its name is a link to what is not there.
    LeadsNowhere,
    /// It has more bytes than a configuration or a list may have.
    TooLong,
    /// Its lock is another process's: this one's, where that has it still and the system tells.
    InUse(Option<Holder>),
    /// It begins as a store does, so that no recording is made over it.
    IsStore,
    /// It is the run's store, a configuration or a list of it.
    IsKept,
    /// It is the file that it would be a copy of.
    IsItsOrigin,
}

impl FileReason {
    /// What keeps such a file from being read or written: that it is no regular one.
    pub fn of_kind(found: &Metadata) -> Option<FileReason> {
        if found.is_dir() {
            Some(FileReason::Folder)
        } else if found.is_file() {
            None
        } else {
            Some(FileReason::NoRegularFile)
        }
    }

    /// Why no file of this name is made where there was none, which the system told by this error.
    pub fn of_making(files: &impl Files<File = File>, name: &str, error: io::Error) -> FileReason {
        match error.kind() {
            ErrorKind::NotFound => FileReason::NoFolder,
            ErrorKind::AlreadyExists if is_link(files, name) => FileReason::LeadsNowhere,
            _ => FileReason::System(error),
        }
    }
}

fn is_link(files: &impl Files<File = File>, name: &str) -> bool {
    match fs::symlink_metadata(files, name) {
        Ok(found) => found.is_symlink(),
        Err(_) => false,
    }
}

impl From<io::Error> for FileReason {
    fn from(error: io::Error) -> FileReason {
        FileReason::System(error)
    }
}

/// What the system says, in a few words.
#[derive(Clone, Copy)]
pub struct Words<'a>(pub &'a io::Error);

// The words for a kind of error, where there are some of our own.
fn words_of(kind: ErrorKind) -> Option<&'static str> {
    match kind {
        ErrorKind::NotFound => Some("not there"),
        ErrorKind::PermissionDenied => Some("no permission"),
        ErrorKind::NotADirectory => Some("not there: a part of its path is no folder"),
        ErrorKind::IsADirectory => Some("a folder"),
        ErrorKind::AlreadyExists => Some("made by another process meanwhile"),
        ErrorKind::StorageFull => Some("no room on the disk"),
        ErrorKind::QuotaExceeded => Some("no room left to this user (quota)"),
        ErrorKind::FileTooLarge => Some("larger than a file may be (ulimit -f)"),
        ErrorKind::ReadOnlyFilesystem => Some("on a read-only file system"),
        _ => None,
    }
}

impl Display for Words<'_> {
    fn fmt<W: fmt::Write>(&self, f: &mut Formatter<W>) -> fmt::Result {
        match self.0.raw_os_error() {
            Some(TOO_MANY_OF_PROCESS) => return f.write_str("too many open files (ulimit -n)"),
            Some(TOO_MANY_OF_SYSTEM) => return f.write_str("too many open files of the system"),
            _ => {}
        }
        match words_of(self.0.kind()) {
            Some(words) => f.write_str(words),
            None => write!(f, "{}", self.0),
        }
    }
}

fn write_holder<W: fmt::Write>(f: &mut Formatter<W>, holder: &Holder) -> fmt::Result {
    write!(f, "in use by process {}", holder.process)?;
    match &holder.name {
        Some(name) => write!(f, " ({name})"),
        None => Ok(()),
    }
}

impl Display for FileReason {
    fn fmt<W: fmt::Write>(&self, f: &mut Formatter<W>) -> fmt::Result {
        match self {
            FileReason::System(error) => write!(f, "{}", Words(error)),
            FileReason::Folder => f.write_str("a folder"),
            FileReason::NoRegularFile => f.write_str("no regular file"),
            FileReason::NoFolder => f.write_str("its folder is not there"),
            FileReason::LeadsNowhere => f.write_str("a link to what is not there"),
            FileReason::TooLong => write!(f, "more than {MAX_FILE} bytes"),
            FileReason::InUse(None) => f.write_str("in use by another process a moment ago"),
            FileReason::InUse(Some(holder)) => write_holder(f, holder),
            FileReason::IsStore => {
                f.write_str("it begins as a store does, so nothing is recorded over it")
            }
            FileReason::IsKept => f.write_str(
                "the store, a configuration or a list, so nothing is recorded over it",
            ),
            FileReason::IsItsOrigin => f.write_str("OLD and NEW are one file"),
        }
    }
}
