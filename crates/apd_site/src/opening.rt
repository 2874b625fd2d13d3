//! Opening files, a store's among them.
ghost use Rattle.std.specs.Prelude.{◌≡◌, [], IfOk, Ok};
ghost use Rattle.apd_site.specs.declared.opening.OpenFault.TheVariants.{NoMemory};

use crate::file_reason::FileReason;
use crate::locks::{Holder, holder_of};
use apd_disk::FileDisk;
use std::alloc::AllocError;
use std::fs::{self, File};
use std::io::{self, ErrorKind};
use std::rt::Files;
use std::thread::sleep;
use std::time::{Clock, Duration};
use thiserror::Error;

/// How often a store's file that another process holds is tried again before it is refused.
const TRIES: u32 = 40;

/// How long it is from one try to the next, in milliseconds.
const PAUSE: u64 = 50;

/// Why a file was not had.
#[derive(Debug, Drop, Error)]
pub enum OpenFault {
    /// The file of this name can't be opened, nor made where that is asked for, or another process holds it, or it is
    /// none that may become a recording: for this reason, which is not in the fault's own words.
    #[error("cannot read {0}")]
    CannotRead(String, FileReason),
    /// Memory ran out.
    #[error("out of memory")]
    NoMemory,
}

impl OpenFault {
    /// Whether it is that there is no file of the name.
    pub fn is_not_there(&self) -> bool {
        match self {
            OpenFault::CannotRead(_, FileReason::System(error)) => {
                error.kind() == ErrorKind::NotFound
            }
            _ => false,
        }
    }
}

impl From<AllocError> for OpenFault {
    ghost from_gives = { λ _ fault. fault ≡ NoMemory };

    fn from(_: AllocError) -> OpenFault {
        OpenFault::NoMemory
    }
}

/// What was had of the file of this name, or why it wasn't.
pub fn file_or_fault<T: Drop>(
    rt: &impl AllocGlobal,
    name: &str,
    file: Result<T, FileReason>,
) -> Result<T, OpenFault>
    ensures { IfOk result (λ had. file ≡ Ok had) }
{
    match file {
        Ok(file) => Ok(file),
        Err(FileReason::System(error)) if error.kind() == ErrorKind::OutOfMemory => {
            Err(OpenFault::NoMemory)
        }
        Err(reason) => Err(OpenFault::CannotRead(String::from_str(rt.alloc(), name)?, reason)),
    }
}

/// What a store's file is opened for.
#[derive(Clone, Copy, Debug, PartialEq, Eq)]
pub enum Access {
    /// To be read alone. It is there.
    Read,
    /// To be read and written. It is there.
    Write,
    /// The same; it is made, with the length of a store, where there is none.
    Make,
}

// The file of this name, which is made where there is none.
fn open_or_create(rt: &(impl Files<File = File> + AllocGlobal), name: &str) -> io::Result<FileDisk>
    ensures { IfOk result (λ disk. disk.known.calls ≡ []) }
{
    match FileDisk::open(rt, name) {
        Err(error) if error.kind() == ErrorKind::NotFound => FileDisk::create(rt, name),
        opened => opened,
    }
}

// The file of a store as a disk, where nobody else holds it.
fn open_once(
    rt: &(impl Files<File = File> + AllocGlobal),
    name: &str,
    access: Access,
) -> io::Result<FileDisk>
    ensures { IfOk result (λ disk. disk.known.calls ≡ []) }
{
    match access {
        Access::Read => FileDisk::open_to_read(rt, name),
        Access::Write => FileDisk::open(rt, name),
        Access::Make => open_or_create(rt, name),
    }
}

// The same. A file that another process holds is had once that one lets go of it, within two seconds.
fn open_in_time(
    rt: &(impl Files<File = File> + Clock + AllocGlobal),
    name: &str,
    access: Access,
) -> io::Result<FileDisk>
    ensures { IfOk result (λ disk. disk.known.calls ≡ []) }
{
    for _ in 0..TRIES {
        match open_once(rt, name, access) {
            Err(error) if error.kind() == ErrorKind::WouldBlock => {
                sleep(rt, Duration::from_millis(PAUSE));
            }
            opened => return opened,
        }
    }
    open_once(rt, name, access)
}

// The process that keeps a store's file from who wants this, where it does still and the system tells.
fn holder_at(
    rt: &(impl Files<File = File> + AllocGlobal),
    name: &str,
    access: Access,
) -> Option<Holder> {
    let found = fs::metadata(rt, name).ok()?;
    holder_of(rt, &found, access)
}

// Of what kind a file is that is no regular one.
fn irregular(files: &impl Files<File = File>, name: &str) -> FileReason {
    match fs::metadata(files, name) {
        Ok(found) if found.is_dir() => FileReason::Folder,
        _ => FileReason::NoRegularFile,
    }
}

// Why the file of a store was not had, which the system, or the disk, told by this error.
fn reason_of(
    rt: &(impl Files<File = File> + AllocGlobal),
    name: &str,
    access: Access,
    error: io::Error,
) -> FileReason {
    match error.kind() {
        ErrorKind::WouldBlock => FileReason::InUse(holder_at(rt, name, access)),
        ErrorKind::InvalidInput => irregular(rt, name),
        _ if access == Access::Make => FileReason::of_making(rt, name, error),
        _ => FileReason::System(error),
    }
}

/// The file of a store as a disk, which holds its lock. What it holds stays. Where another process has the lock, it is
/// waited for, two seconds at most: one that looks into the store, say, soon lets go of it.
pub fn open_disk(
    rt: &(impl Files<File = File> + Clock + AllocGlobal),
    name: &str,
    access: Access,
) -> Result<FileDisk, OpenFault>
    ensures { IfOk result (λ disk. disk.known.calls ≡ []) }
{
    match open_in_time(rt, name, access) {
        Ok(disk) => Ok(disk),
        Err(error) => file_or_fault(rt, name, Err(reason_of(rt, name, access, error))),
    }
}

/// A new file as the disk of a store, of zeros alone, of a name that no file had.
pub fn make_disk(
    rt: &(impl Files<File = File> + AllocGlobal),
    name: &str,
) -> Result<FileDisk, OpenFault>
    ensures { IfOk result (λ disk. disk.known.calls ≡ []) }
{
    match FileDisk::create(rt, name) {
        Ok(disk) => Ok(disk),
        Err(error) => file_or_fault(rt, name, Err(FileReason::of_making(rt, name, error))),
    }
}
