//! Which process holds the lock of a file (flock(2)), as `/proc/locks` tells.
use crate::opening::Access;
use std::fs::{self, File, Metadata};
use std::os::unix::fs::MetadataExt;
use std::rt::Files;

/// Where Linux tells the locks of files.
const LOCKS: &str = "/proc/locks";

/// A process that holds a file's lock.
#[derive(Debug, Drop)]
pub struct Holder {
    /// Its number.
    pub process: u32,
    /// The name of its program, where the system tells.
    pub name: Option<String>,
}

// The name of a file in `/proc/locks`: the two numbers of its device in hexadecimal digits, and its own number.
fn place_of<R: AllocGlobal>(rt: &R, metadata: &Metadata) -> Option<String> {
    let device = metadata.dev();
    let major = ((device >> 8) & 0xfff) | ((device >> 32) & 0xffff_f000);
    let minor = (device & 0xff) | ((device >> 12) & 0xffff_ff00);
    let node = metadata.ino();
    format!(in rt.alloc(); "{major:02x}:{minor:02x}:{node}").ok()
}

// Whether a lock of this kind, as a line names it, keeps out who wants this: who only reads shares a file with others that
// do.
fn keeps_out(kind: &str, access: Access) -> bool {
    kind == "WRITE" || access != Access::Read
}

// The process of a line, where that is a lock of this file, and keeps out who wants this. A line is a number, the kind of
// lock, whether it is advisory, READ or WRITE, the process, the file, and how far it reaches.
fn process_in(line: &str, place: &str, access: Access) -> Option<u32> {
    let mut words = line.split_ascii_whitespace();
    let _number = words.next()?;
    if words.next()? != "FLOCK" {
        return None;
    }
    let _advisory = words.next()?;
    let kind = words.next()?;
    let process = words.next()?.parse::<u32>().ok()?;
    if words.next()? == place && keeps_out(kind, access) {
        Some(process)
    } else {
        None
    }
}

// The name of a process, where the system tells.
fn name_of<R: Files + AllocGlobal>(rt: &R, process: u32) -> Option<String> {
    let file = format!(in rt.alloc(); "/proc/{process}/comm").ok()?;
    let text = fs::read_to_string(rt, file.as_str()).ok()?;
    String::from_str(rt.alloc(), text.trim_end()).ok()
}

/// The process that holds the lock of a file, which keeps out who wants this; none where there is no such lock any more, or
/// the system doesn't tell.
pub(crate) fn holder_of<R: Files<File = File> + AllocGlobal>(
    rt: &R,
    file: &Metadata,
    access: Access,
) -> Option<Holder> {
    let place = place_of(rt, file)?;
    let locks = fs::read_to_string(rt, LOCKS).ok()?;
    for line in locks.lines() {
        if let Some(process) = process_in(line, place.as_str(), access) {
            return Some(Holder {
                process,
                name: name_of(rt, process),
            });
        }
    }
    None
}
