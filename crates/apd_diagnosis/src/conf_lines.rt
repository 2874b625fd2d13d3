//! Each faulty line of a configuration file and of the list files that it names.
use crate::faulty_line::{
    FaultyAddress, FaultyLine, allowed_at, conf_fault_at, is_bad_address, setting_of,
};
use crate::more::More;
use apd_base::limits::MAX_LISTED;
use apd_conf::{ConfFault, ListFault, MAX_FILE, Required, read_list};
use apd_site::FileReason;
use bstr::ByteSlice;
use std::alloc::{AllocError, Global};
use std::fs::{self, File};
use std::io::{ErrorKind, Read};
use std::rt::Files;

/// How many faulty lines are told of one file.
const MOST_LINES: usize = 1_000;

// The bytes of a regular file; another one may give them only once.
fn bytes_of(
    rt: &(impl Files<File = File> + AllocGlobal),
    name: &str,
) -> Result<Vec<u8>, FileReason> {
    if let Some(reason) = FileReason::of_kind(&fs::metadata(rt, name)?) {
        return Err(reason);
    }
    let mut bytes = Vec::new(rt.alloc());
    let mut file = File::open(rt, name)?.take(MAX_FILE as u64 + 1);
    file.read_to_end(&mut bytes)?;
    if bytes.len() > MAX_FILE {
        return Err(FileReason::TooLong);
    }
    Ok(bytes)
}

/// The bytes of a file. Where it gives none, why is told.
pub(crate) fn read_or_tell(
    rt: &(impl Files<File = File> + AllocGlobal),
    more: &mut More,
    name: &str,
) -> Result<Option<Vec<u8>>, AllocError> {
    match bytes_of(rt, name) {
        Ok(bytes) => Ok(Some(bytes)),
        Err(FileReason::System(error)) if error.kind() == ErrorKind::OutOfMemory => Err(AllocError),
        Err(reason) => {
            more.tell(name, reason)?;
            Ok(None)
        }
    }
}

// The value that the last line of a name gives it.
fn value_of<'a>(file: &'a [u8], name: &[u8]) -> Option<&'a [u8]> {
    let mut last = None;
    for line in file.lines() {
        if let Some((found, value)) = setting_of(line)
            && found == name
        {
            last = Some(value);
        }
    }
    last
}

fn tell_lines(alloc: Global, more: &mut More, name: &str, file: &[u8]) -> Result<(), AllocError> {
    let mut number = 0usize;
    let mut left = MOST_LINES;
    for line in file.lines() {
        number = number.saturating_add(1);
        if let Some(fault) = conf_fault_at(alloc, line, number)? {
            more.tell(name, FaultyLine { fault, line })?;
            left = left.saturating_sub(1);
        }
        if left == 0 {
            return Ok(());
        }
    }
    Ok(())
}

// Tells each name that no line gives a value.
fn tell_missing(alloc: Global, more: &mut More, name: &str, file: &[u8]) -> Result<(), AllocError> {
    for required in [Required::Interface, Required::Bssid, Required::Ssid] {
        let word = format!(in alloc; "{required}")?;
        if value_of(file, word.as_bytes()).is_none() {
            let fault = ConfFault::Missing(required);
            more.tell(name, format_args!("{fault}: {}", allowed_at(required)))?;
        }
    }
    Ok(())
}

fn tell_addresses(
    alloc: Global,
    more: &mut More,
    name: &str,
    file: &[u8],
) -> Result<(), AllocError> {
    let mut number = 0usize;
    let mut left = MOST_LINES;
    for line in file.lines() {
        number = number.saturating_add(1);
        if is_bad_address(alloc, line)? {
            more.tell(name, FaultyAddress { number, line })?;
            left = left.saturating_sub(1);
        }
        if left == 0 {
            return Ok(());
        }
    }
    Ok(())
}

fn tell_list_file(
    rt: &(impl Files<File = File> + AllocGlobal),
    more: &mut More,
    name: &str,
) -> Result<(), AllocError> {
    let Some(bytes) = read_or_tell(rt, more, name)? else {
        return Ok(());
    };
    if let Err(ListFault::TooMany) = read_list(rt.alloc(), bytes.as_slice()) {
        let fault = ListFault::TooMany;
        more.tell(name, format_args!("{fault}: {MAX_LISTED} at most"))?;
    }
    tell_addresses(rt.alloc(), more, name, bytes.as_slice())
}

/// Tells of a configuration file and of the list files that it names: of each that can't be read why, of each faulty line
/// of theirs what would be right, at most 1,000 of a file, and what a configuration file lacks. The first that is told is
/// the fault by which the file is refused, where it is.
pub(crate) fn tell_conf_file(
    rt: &(impl Files<File = File> + AllocGlobal),
    more: &mut More,
    name: &str,
) -> Result<(), AllocError> {
    let Some(bytes) = read_or_tell(rt, more, name)? else {
        return Ok(());
    };
    let file = bytes.as_slice();
    tell_lines(rt.alloc(), more, name, file)?;
    tell_missing(rt.alloc(), more, name, file)?;
    for list in [b"accept_mac_file".as_slice(), b"deny_mac_file".as_slice()] {
        if let Some(value) = value_of(file, list)
            && let Ok(list) = str::from_utf8(value)
            && !list.is_empty()
        {
            tell_list_file(rt, more, list)?;
        }
    }
    Ok(())
}
