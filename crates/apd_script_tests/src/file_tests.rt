//! Scripts on the store of a file in memory: what the file is asked for, and what is found in it once power was lost.
use crate::calls::one_radio;
use crate::expect::expect;
use crate::scripts::JOINS;
use crate::worlds::{expect_run_on, run_on};
use apd_disk::{Disk, FileDisk, Torn};
use apd_double::{Fault, MemoryFile};
use apd_store::format;
use std::alloc::Global;
use std::process::Abort;

const LENGTH: usize = 2_097_216;

/// A disk over a file.
fn over(rt: &impl Abort, file: MemoryFile) -> FileDisk<MemoryFile> {
    FileDisk::over(file).expect(rt, "a file with a length")
}

/// The device of a new store.
fn formatted<D: Disk + Drop>(rt: &impl Abort, alloc: Global, disk: D) -> D {
    let store = format(alloc, disk).ok();
    store.expect(rt, "a new store").into_device()
}

/// A file with a new store, asked for nothing yet.
fn new_file(rt: &impl Abort, alloc: Global) -> MemoryFile {
    let blank = over(rt, MemoryFile::new(alloc, LENGTH));
    formatted(rt, alloc, blank).into_file().cut(Torn::Old)
}

/// The file after a script in which a station joins.
fn joined(rt: &impl Abort, alloc: Global, file: MemoryFile) -> MemoryFile {
    let mut out = Vec::new(alloc);
    let confs = one_radio(rt, alloc);
    let ended = run_on(alloc, over(rt, file), confs, JOINS.as_bytes(), &mut out).ok();
    ended.expect(rt, "a script that ends").into_file()
}

/// The letters of what a file was asked for.
fn letters(rt: &impl Abort, alloc: Global, file: &MemoryFile) -> Vec<u8> {
    file.letters(alloc).expect(rt, "memory")
}

/// Expects what a query for the station is answered, of a store on this file.
fn expect_station(rt: &impl Abort, alloc: Global, file: MemoryFile, reply: &[u8]) {
    let query = b"cmd STA 02:00:00:00:00:aa\n";
    expect_run_on(rt, alloc, over(rt, file), query, (None, reply));
}

const ASSOCIATED: &[u8] =
    b"ctrl 1 02:00:00:00:00:aa\\nflags=[AUTH][ASSOC][AUTHORIZED]\\naid=1\\ncapability=0x431\\nlisten_interval=10\\n\n";

const NOBODY: &[u8] = b"ctrl 1 FAIL\\n\n";

// A recovery syncs, for the first time, and reads all; each of three groups is written and synced, and then its gate:
// the start's, which flushes, and that of each of the script's flushes.
#[test]
fn a_file_is_asked_for_each_call_of_a_script(rt: HostRuntime) {
    let alloc = rt.alloc();
    let file = joined(&rt, alloc, new_file(&rt, alloc));
    let asked = letters(&rt, alloc, &file);
    expect(&rt, asked.as_slice(), b"SDRWSWSWSWSWSWS".as_slice());
}

#[test]
fn a_station_that_was_told_is_found_after_a_loss_of_power(rt: HostRuntime) {
    let alloc = rt.alloc();
    let file = joined(&rt, alloc, new_file(&rt, alloc));
    expect_station(&rt, alloc, file.cut(Torn::Old), ASSOCIATED);
}

#[test]
fn a_station_is_lost_where_syncs_lie(rt: HostRuntime) {
    let alloc = rt.alloc();
    let lying = new_file(&rt, alloc).with(Fault::LiesInSyncs);
    let file = joined(&rt, alloc, lying);
    expect_station(&rt, alloc, file.cut(Torn::Old), NOBODY);
}
