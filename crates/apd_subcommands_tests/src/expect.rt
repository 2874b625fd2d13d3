//! Expectations, and what tests do with files, in functions of their own: a test that calls them compares and prints
//! nothing itself, and goes on in one way alone.
use apd_disk::FileDisk;
use apd_site::{Access, open_disk};
use std::fmt::Debug;
use std::fs::{self, File};
use std::process::Abort;
use std::rt::Files;
use std::time::Clock;

/// Ends the test where what was found isn't what was wanted, and prints both.
pub fn expect<T: PartialEq + Debug + Drop>(rt: &impl Abort, found: T, wanted: T) {
    assert_eq!(rt; found, wanted);
}

/// Ends the test where a claim is false.
pub fn hold(rt: &impl Abort, claim: bool) {
    assert!(rt; claim);
}

/// The bytes of the file of a name.
pub fn read(rt: &(impl Abort + Files<File = File> + AllocGlobal), name: &str) -> Vec<u8> {
    fs::read(rt, name).expect(rt, "a file that can be read")
}

/// Makes these the bytes of the file of a name.
pub fn write(rt: &(impl Abort + Files<File = File>), name: &str, bytes: &[u8]) {
    fs::write(rt, name, bytes).expect(rt, "a file that can be written");
}

/// Removes the file of a name.
pub fn remove(rt: &(impl Abort + Files<File = File>), name: &str) {
    fs::remove_file(rt, name).expect(rt, "a file that can be removed");
}

/// Removes the file of a name, if there is one.
pub fn remove_any(rt: &impl Files<File = File>, name: &str) {
    let _ = fs::remove_file(rt, name);
}

/// The file of a name as a disk.
pub fn open(
    rt: &(impl Abort + Files<File = File> + Clock + AllocGlobal),
    name: &str,
    access: Access,
) -> FileDisk {
    open_disk(rt, name, access).expect(rt, "a file that can be opened")
}

/// Lets nobody write the file of a name.
pub fn protect(rt: &(impl Abort + Files<File = File>), name: &str) {
    let found = fs::metadata(rt, name).expect(rt, "a file that is there");
    let mut mode = found.permissions();
    mode.set_readonly(true);
    fs::set_permissions(rt, name, mode).expect(rt, "a file that can be protected");
}

/// Ends the test where the file of a name hasn't these bytes, which may be too many to print.
pub fn expect_file(
    rt: &(impl Abort + Files<File = File> + AllocGlobal),
    name: &str,
    wanted: &[u8],
) {
    let found = read(rt, name);
    hold(rt, found.as_slice() == wanted);
}
