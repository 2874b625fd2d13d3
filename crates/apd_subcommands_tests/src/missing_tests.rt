use crate::checking_tests::expect_check;
use crate::expect::{expect, expect_file, hold, open, read, remove, remove_any, write};
use crate::formatting_tests::expect_text;
use crate::scripting_tests::{
    Closed, JOINED, JOINS, add_fault, expect_script, make_old_store, make_store, put, put_over,
};
use crate::words::matches_of;
use apd_site::Access;
use apd_subcommands::{CommandFault, run_format_command};
use std::fs::{self, File};
use std::io::Write;
use std::os::unix::fs::symlink;
use std::process::Abort;
use std::rt::Files;
use std::time::Clock;

/// Why `apd format --missing` of the file of a name fails, if it does.
fn fault_of(
    rt: &(impl Abort + Files<File = File> + Clock + AllocGlobal),
    name: &str,
    writer: &mut impl Write,
) -> Option<CommandFault> {
    let words = ["apd", "format", "--missing", name];
    let matches = matches_of(rt, &words);
    let format = matches.subcommand_matches("format");
    let made = run_format_command(rt, format.expect(rt, "the words of a format"), writer);
    drop(matches);
    made.err()
}

/// Expects that it prints this, with its fault as the program prints it.
fn expect_missing(
    rt: &(impl Abort + Files<File = File> + Clock + AllocGlobal),
    name: &str,
    wanted: &[u8],
) {
    let mut out = Vec::new(rt.alloc());
    if let Some(fault) = fault_of(rt, name, &mut out) {
        add_fault(rt, &fault, &mut out);
    }
    expect(rt, out.as_slice(), wanted);
}

/// Expects that there is nothing of a name.
pub fn expect_nothing(rt: &(impl Abort + Files<File = File>), name: &str) {
    hold(rt, fs::symlink_metadata(rt, name).is_err());
}

const FORMATTED: &[u8] = b"formatted\n";

const KEPT: &[u8] = b"kept\n";

const NOT_A_STORE: &[u8] = b"apd: not a store\n";

/// Expects that the file of a name is kept, byte for byte.
fn expect_kept(rt: &(impl Abort + Files<File = File> + Clock + AllocGlobal), name: &str) {
    let bytes = read(rt, name);
    expect_missing(rt, name, KEPT);
    expect_file(rt, name, bytes.as_slice());
}

#[test]
fn a_store_is_made_once_and_then_kept(rt: HostRuntime) {
    let name = "store_of_a_missing_test";
    remove_any(&rt, name);
    expect_missing(&rt, name, FORMATTED);
    expect_check(&rt, name, b"");
    expect_nothing(&rt, "store_of_a_missing_test.new0");
    // With a station of its own it stays.
    expect_script(&rt, name, JOINS, JOINED);
    expect_kept(&rt, name);
    remove(&rt, name);
}

// Of version 1, and damaged: what is wrong with them is for `check` and `run` to say.
#[test]
fn a_store_that_is_not_served_is_kept(rt: HostRuntime) {
    let name = "kept_store_of_a_missing_test";
    make_old_store(&rt, name);
    expect_kept(&rt, name);
    put_over(&rt, name, 7, b"2");
    put_over(&rt, name, 64, b"x");
    expect_kept(&rt, name);
    remove(&rt, name);
}

/// As many zeros as a store has bytes, and this many more or less, of which the one at a place is another one.
fn zeros_but(rt: &(impl Abort + AllocGlobal), length: usize, place: usize, byte: &[u8]) -> Vec<u8> {
    let mut bytes = vec![in rt.alloc(); 0u8; length].expect(rt, "memory");
    put(&mut bytes, place, byte);
    bytes
}

// As a kill in the midst of making one may leave it.
#[test]
fn zeros_are_made_a_store(rt: HostRuntime) {
    let name = "zeros_of_a_missing_test";
    let zeros = zeros_but(&rt, 2_097_216, 0, b"");
    write(&rt, name, zeros.as_slice());
    expect_missing(&rt, name, FORMATTED);
    expect_check(&rt, name, b"");
    remove(&rt, name);
}

/// Lengths, and a place at which a byte is none of zeros.
const OTHERS: &[(usize, usize, &[u8])] = &[
    (0, 0, b""),
    (1, 0, b""),
    (8, 0, b"RAPSTOR2"),
    (2_097_215, 0, b"RAPSTOR2"),
    (2_097_217, 0, b""),
    (2_097_216, 0, b"x"),
    (2_097_216, 2_097_215, b"\x01"),
    (2_097_216, 0, b"RAPSTOR3"),
];

#[test]
fn any_other_file_is_left_as_it_was(rt: HostRuntime) {
    let name = "other_file_of_a_missing_test";
    for (length, place, bytes) in OTHERS {
        let other = zeros_but(&rt, *length, *place, bytes);
        write(&rt, name, other.as_slice());
        expect_missing(&rt, name, NOT_A_STORE);
        expect_file(&rt, name, other.as_slice());
    }
    remove(&rt, name);
}

#[test]
fn what_is_no_file_is_left_as_it_was(rt: HostRuntime) {
    expect_missing(&rt, "/dev/null", b"apd: cannot read /dev/null\n");
    let wanted = b"apd: cannot read no_folder_of_a_missing_test/store\n";
    expect_missing(&rt, "no_folder_of_a_missing_test/store", wanted);
    let name = "folder_of_a_missing_test";
    let wanted = b"apd: cannot read folder_of_a_missing_test\n";
    fs::create_dir(&rt, name).expect(&rt, "a folder");
    expect_missing(&rt, name, wanted);
    hold(&rt, fs::metadata(&rt, name).is_ok());
    fs::remove_dir_all(&rt, name).expect(&rt, "a folder");
    // A name that leads to none: nothing is made there, nor where it leads.
    symlink(&rt, "no_file_of_a_missing_test", name).expect(&rt, "a link");
    expect_missing(&rt, name, wanted);
    expect_nothing(&rt, "no_file_of_a_missing_test");
    expect_nothing(&rt, "folder_of_a_missing_test.new0");
    remove(&rt, name);
}

// A store that another one has open, to serve it or to look into it, is not touched.
#[test]
fn a_store_in_use_is_left_alone(rt: HostRuntime) {
    let name = "used_store_of_a_missing_test";
    let wanted = b"apd: cannot read used_store_of_a_missing_test\n";
    make_store(&rt, name);
    for access in [Access::Write, Access::Read] {
        let used = open(&rt, name, access);
        expect_missing(&rt, name, wanted);
        drop(used);
    }
    expect_missing(&rt, name, KEPT);
    remove(&rt, name);
}

// A kill may leave a file of the name that a new store has at first.
#[test]
fn what_a_kill_left_stays(rt: HostRuntime) {
    let name = "next_store_of_a_missing_test";
    let left = "next_store_of_a_missing_test.new0";
    remove_any(&rt, name);
    write(&rt, left, b"left");
    expect_missing(&rt, name, FORMATTED);
    expect_check(&rt, name, b"");
    expect_file(&rt, left, b"left");
    expect_nothing(&rt, "next_store_of_a_missing_test.new1");
    remove(&rt, left);
    remove(&rt, name);
}

// The store is there, though nobody could be told.
#[test]
fn what_can_not_be_told_is_done(rt: HostRuntime) {
    let name = "untold_store_of_a_missing_test";
    remove_any(&rt, name);
    for _ in 0..2 {
        let told = fault_of(&rt, name, &mut Closed).expect(&rt, "a fault");
        expect_text(&rt, &told, "writer fault");
        expect_check(&rt, name, b"");
    }
    remove(&rt, name);
}
