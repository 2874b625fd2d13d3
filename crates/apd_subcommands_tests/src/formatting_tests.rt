use crate::expect::{expect, open, read, remove, remove_any, write};
use crate::scripting_tests::{format_fault_of, make_old_store};
use apd_disk::FileDisk;
use apd_maintenance::FormatFault;
use apd_site::{Access, open_disk};
use apd_store::{StoreFault, recover};
use apd_subcommands::CommandFault;
use std::fs::File;
use std::process::Abort;
use std::rt::Files;
use std::time::Clock;

/// What a store begins with.
const MAGIC: &[u8] = b"RAPSTOR2";

/// What the first half of a new store begins with: open, epoch 1, no snapshot, and a closed gate.
const HEAD: &[u8] = &[1, 1, 0, 0, 0, 0, 0, 0, 0, 0, 0, 0, 0, 0];

/// The number of station rows in the store of a file.
fn rows_of(rt: &(impl Abort + Files<File = File> + Clock + AllocGlobal), name: &str) -> usize {
    let disk = FileDisk::open(rt, name).expect(rt, "a store that can be opened");
    let recovered = recover(rt.alloc(), disk).ok();
    let (store, table) = recovered.expect(rt, "a store");
    let rows = table.rows();
    drop(table);
    drop(store);
    rows
}

/// Expects this, and these words, where the file of a name is made a store.
fn expect_format(
    rt: &(impl Abort + Files<File = File> + Clock + AllocGlobal),
    name: &str,
    fault: Option<FormatFault>,
    printed: &[u8],
) {
    let disk = open(rt, name, Access::Make);
    let mut out = Vec::new(rt.alloc());
    expect(rt, format_fault_of(rt.alloc(), disk, &mut out), fault);
    expect(rt, out.as_slice(), printed);
}

/// Expects that the file of a name begins as an empty store does.
fn expect_front(rt: &(impl Abort + Files<File = File> + Clock + AllocGlobal), name: &str) {
    let bytes = read(rt, name);
    expect(rt, bytes.len(), 2_097_216);
    expect(rt, bytes.get(..8), Some(MAGIC));
    expect(rt, bytes.get(64..78), Some(HEAD));
}

#[test]
fn a_file_becomes_an_empty_store(rt: HostRuntime) {
    let name = "store_of_a_test";
    remove_any(&rt, name);
    // Where there is none, and over what is there.
    for _ in 0..2 {
        expect_format(&rt, name, None, b"formatted\n");
        expect_front(&rt, name);
        expect(&rt, rows_of(&rt, name), 0);
    }
    remove(&rt, name);
}

#[test]
fn a_store_of_version_1_becomes_an_empty_store(rt: HostRuntime) {
    let name = "old_store_of_a_test";
    make_old_store(&rt, name);
    expect_format(&rt, name, None, b"formatted\n");
    expect_front(&rt, name);
    expect(&rt, rows_of(&rt, name), 0);
    remove(&rt, name);
}

/// Expects that a fault is printed in these words.
pub fn expect_text(rt: &(impl Abort + AllocGlobal), told: &CommandFault, wanted: &str) {
    let text = format!(in rt.alloc(); "{told}").expect(rt, "memory");
    expect(rt, text.as_str(), wanted);
}

/// Expects the fault of a store in a folder that isn't there.
fn expect_no_folder(rt: &(impl Abort + Files<File = File> + Clock + AllocGlobal)) {
    let opened = open_disk(rt, "no_folder_of_a_test/store", Access::Make).err();
    let told = CommandFault::Open(opened.expect(rt, "a fault"));
    expect_text(rt, &told, "cannot read no_folder_of_a_test/store");
}

const TEXTS: &[(FormatFault, &str)] = &[
    (FormatFault::Store(StoreFault::NotAStore), "not a store"),
    (FormatFault::Store(StoreFault::Device), "device fault"),
    (FormatFault::Writer, "writer fault"),
];

#[test]
fn faults_of_a_store_s_file_are_printed_in_these_words(rt: HostRuntime) {
    let name = "no_store_of_a_test";
    write(&rt, name, b"RAPSTOR1");
    let fault = FormatFault::Store(StoreFault::NotAStore);
    expect_format(&rt, name, Some(fault), b"");
    expect(&rt, read(&rt, name).len(), 8);
    remove(&rt, name);
    for (fault, text) in TEXTS {
        expect_text(&rt, &CommandFault::Format(*fault), text);
    }
    expect_no_folder(&rt);
}
