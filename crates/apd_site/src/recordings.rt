//! The files of recordings.
use crate::file_reason::FileReason;
use crate::identity::Identity;
use crate::locks::holder_of;
use crate::opening::{Access, OpenFault, file_or_fault};
use apd_store::{MAGIC, OLD_MAGIC};
use std::alloc::AllocError;
use std::fs::{File, TryLockError};
use std::io::{self, ErrorKind};
use std::os::unix::fs::{FileExt, OpenOptionsExt};
use std::rt::Files;

/// Who may read and write a recording that is made: its owner alone.
const MODE: u32 = 0o600;

/// A file that a recording is going to be written into, and its name. It holds an advisory lock on it (flock(2)).
#[derive(Drop)]
pub struct RecordingFile {
    pub(crate) name: String,
    pub(crate) file: File,
}

/// Whether a file begins as a store of either version does. No such file becomes a recording.
pub fn begins_as_a_store(file: &File) -> io::Result<bool> {
    let mut head = [0u8; MAGIC.len()];
    match file.read_exact_at(&mut head, 0) {
        Ok(()) => Ok(head == MAGIC || head == OLD_MAGIC),
        Err(error) if error.kind() == ErrorKind::UnexpectedEof => Ok(false),
        Err(error) => Err(error),
    }
}

// Whether a file can be emptied: it is given the length that it has. Its bytes stay.
fn try_to_cut(file: &File) -> io::Result<()> {
    file.set_len(file.metadata()?.len())
}

// Locks a file that is going to be emptied.
fn lock(rt: &(impl Files<File = File> + AllocGlobal), file: &File) -> Result<(), FileReason> {
    match file.try_lock() {
        Ok(()) => Ok(()),
        Err(TryLockError::WouldBlock) => {
            let holder = holder_of(rt, &file.metadata()?, Access::Write);
            Err(FileReason::InUse(holder))
        }
        Err(TryLockError::Error(error)) => Err(error.into()),
    }
}

// Locks a file that may be emptied, and can be: a regular one that isn't taken, nor begins as a store does.
fn claim(
    rt: &(impl Files<File = File> + AllocGlobal),
    file: &File,
    taken: &[Identity],
) -> Result<(), FileReason> {
    let metadata = file.metadata()?;
    if let Some(reason) = FileReason::of_kind(&metadata) {
        return Err(reason);
    }
    let own = Identity::of(&metadata);
    if taken.iter().any(|other| own.is_same(*other)) {
        return Err(FileReason::IsKept);
    }
    lock(rt, file)?;
    if begins_as_a_store(file)? {
        return Err(FileReason::IsStore);
    }
    try_to_cut(file)?;
    Ok(())
}

// The file of a name, which is made where there is none, and claimed. What it holds stays.
fn open(
    rt: &(impl Files<File = File> + AllocGlobal),
    name: &str,
    taken: &[Identity],
) -> Result<File, FileReason> {
    let opened = File::options()
        .read(true)
        .write(true)
        .create(true)
        .mode(MODE)
        .open(rt, name);
    match opened {
        Ok(file) => {
            claim(rt, &file, taken)?;
            Ok(file)
        }
        Err(error) => Err(FileReason::of_making(rt, name, error)),
    }
}

/// Opens the files of so many recordings, none of which is one of those that are taken. What they hold stays.
///
/// Errors: `CannotRead` where one can't be opened or made, is taken, is locked, begins as a store does, is no regular
/// file or can't be cut. Files that were made before it stay, with nothing in them.
pub(crate) fn open_recordings(
    rt: &(impl Files<File = File> + AllocGlobal),
    prefix: &str,
    count: usize,
    taken: &[Identity],
) -> Result<Vec<RecordingFile>, OpenFault> {
    let mut recordings = Vec::with_capacity(rt.alloc(), count)?;
    for place in 0..count {
        let name = format!(in rt.alloc(); "{prefix}.{place}")?;
        let file = file_or_fault(rt, name.as_str(), open(rt, name.as_str(), taken))?;
        recordings
            .push(RecordingFile { name, file })
            .map_err(AllocError::from)?;
    }
    Ok(recordings)
}

/// Empties the files.
///
/// Errors: `CannotRead` where one can't be emptied.
pub(crate) fn empty_files(
    rt: &impl AllocGlobal,
    recordings: &[RecordingFile],
) -> Result<(), OpenFault> {
    for recording in recordings {
        let emptied = recording.file.set_len(0).map_err(FileReason::from);
        file_or_fault(rt, recording.name.as_str(), emptied)?;
    }
    Ok(())
}
