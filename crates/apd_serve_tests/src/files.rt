//! The files of a test.
use crate::expect::expect;
use apd_disk::{Disk, FileDisk};
use apd_store::format;
use std::alloc::Global;
use std::fs::{self, File};
use std::process::Abort;
use std::rt::Files;

/// The device of a new store.
pub(crate) fn formatted<D: Disk + Drop>(rt: &impl Abort, alloc: Global, disk: D) -> D {
    let store = format(alloc, disk).ok();
    store.expect(rt, "a new store").into_device()
}

/// Makes the file of a name a new store.
pub(crate) fn new_store(rt: &(impl Files<File = File> + AllocGlobal + Abort), name: &str) {
    let _ = fs::remove_file(rt, name);
    let disk = FileDisk::create(rt, name).expect(rt, "a new file");
    drop(formatted(rt, rt.alloc(), disk));
}

/// What the file of a name holds.
pub(crate) fn read(rt: &(impl Files<File = File> + AllocGlobal + Abort), name: &str) -> Vec<u8> {
    fs::read(rt, name).expect(rt, "a file to read")
}

/// Ends the test where the file of a name holds anything else.
pub(crate) fn expect_file(
    rt: &(impl Files<File = File> + AllocGlobal + Abort),
    name: &str,
    wanted: &[u8],
) {
    let found = read(rt, name);
    expect(rt, found.as_slice(), wanted);
}

/// Ends the test where the file of a name doesn't hold these bytes any more, which may be too many to print.
pub(crate) fn expect_kept(
    rt: &(impl Files<File = File> + AllocGlobal + Abort),
    name: &str,
    before: &[u8],
) {
    let found = read(rt, name);
    assert!(rt; found.as_slice() == before);
}

/// Makes a file of this name that holds these bytes.
pub(crate) fn write(rt: &(impl Files<File = File> + Abort), name: &str, bytes: &[u8]) {
    fs::write(rt, name, bytes).expect(rt, "a file to write");
}

/// Removes the files of these names.
pub(crate) fn remove_all(rt: &(impl Files<File = File> + Abort), names: &[&str]) {
    for name in names {
        fs::remove_file(rt, *name).expect(rt, "a file to remove");
    }
}
