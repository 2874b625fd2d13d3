//! The threads of serving over a file in memory, which loses what was not synced.
ghost use Rattle.std.specs.Prelude.{⊤};

use crate::expect::expect;
use crate::files::formatted;
use crate::serving_tests::serves_over;
use crate::talk::{
    ASSOCIATED, ASSOCIATION, AUTHENTICATED, AUTHENTICATION, CONTROL, Datagram, Line, RADIO,
};
use apd_disk::{DeviceFile, FileDisk, Torn};
use apd_double::{Fault, MemoryFile};
use log::Log;
use std::alloc::Global;
use std::net::Net;
use std::process::Abort;
use std::sync::{Mutex, Wait};
use std::thread::Threads;
use std::{io, time};

const LENGTH: usize = 2_097_216;

/// A file that is lent to a disk, and looked at when that is gone.
#[derive(Drop)]
struct Lent<'a, W> {
    rt: &'a W,
    file: &'a Mutex<MemoryFile>,
}

impl<W: Wait> DeviceFile for Lent<'_, W> {
    ghost answers = { λ _ _ _. ⊤ };

    ghost drops = { λ _ _. ⊤ };

    fn read_exact_at(&mut self, buf: &mut [u8], at: u64) -> io::Result<()> {
        self.file.lock(self.rt).read_exact_at(buf, at)
    }

    fn write_all_at(&mut self, bytes: &[u8], at: u64) -> io::Result<()> {
        self.file.lock(self.rt).write_all_at(bytes, at)
    }

    fn sync_data(&mut self) -> io::Result<()> {
        self.file.lock(self.rt).sync_data()
    }

    fn drop_pages(&mut self) {
        self.file.lock(self.rt).drop_pages();
    }

    fn length(&self) -> io::Result<usize> {
        self.file.lock(self.rt).length()
    }
}

/// A file with a new store, asked for nothing yet.
fn new_file(rt: &impl Abort, alloc: Global) -> MemoryFile {
    let blank = FileDisk::over(MemoryFile::new(alloc, LENGTH)).expect(rt, "a file with a length");
    formatted(rt, alloc, blank).into_file().cut(Torn::Old)
}

/// Serves over a file while these lines are said, and gives it back. Ends the test where so many entries aren't what it
/// answers, or not all of them are said.
fn file_after<R: Net + Wait + Threads + time::Clock + Log + Sync + Abort>(
    rt: &R,
    alloc: Global,
    file: MemoryFile,
    lines: &[Line],
    entries: u64,
) -> MemoryFile
where
    R::Stream: Send + Sync,
    R::Listener: Send + Sync,
{
    let file = Mutex::new(file);
    let lent = FileDisk::over(Lent { rt, file: &file }).expect(rt, "a file with a length");
    serves_over(rt, alloc, lent, lines, entries);
    file.into_inner()
}

/// A station joins.
const JOINS: &[Line] = &[
    Line::Sends(0, RADIO, Datagram::Hex(AUTHENTICATION)),
    Line::Gets(0, RADIO, Datagram::Hex(AUTHENTICATED)),
    Line::Sends(0, RADIO, Datagram::Hex(ASSOCIATION)),
    Line::Gets(0, RADIO, Datagram::Hex(ASSOCIATED)),
];

const IS_THERE: &[Line] = &[
    Line::Sends(1, CONTROL, Datagram::Text("STA 02:00:00:00:00:aa")),
    Line::Gets(
        1,
        CONTROL,
        Datagram::Text(
            "02:00:00:00:00:aa\nflags=[AUTH][ASSOC][AUTHORIZED]\naid=1\ncapability=0x431\nlisten_interval=10\n",
        ),
    ),
];

const IS_GONE: &[Line] = &[
    Line::Sends(1, CONTROL, Datagram::Text("STA 02:00:00:00:00:aa")),
    Line::Gets(1, CONTROL, Datagram::Text("FAIL\n")),
];

/// The letters of what a file was asked for.
fn letters(rt: &impl Abort, alloc: Global, file: &MemoryFile) -> Vec<u8> {
    file.letters(alloc).expect(rt, "memory")
}

/// A recovery syncs, for the first time, and reads all; each of three groups is written and synced, and then its gate:
/// those of the start, and of what the station asked for, one behind the answer to the other.
#[test]
fn the_threads_ask_the_file_for_each_call(rt: HostRuntime) {
    let alloc = rt.alloc();
    let file = file_after(&rt, alloc, new_file(&rt, alloc), JOINS, 2);
    let asked = letters(&rt, alloc, &file);
    expect(&rt, asked.as_slice(), b"SDRWSWSWSWSWSWS".as_slice());
}

#[test]
fn a_station_that_was_told_is_there_after_a_loss_of_power(rt: HostRuntime) {
    let alloc = rt.alloc();
    let file = file_after(&rt, alloc, new_file(&rt, alloc), JOINS, 2);
    let left = file.cut(Torn::Old);
    drop(file_after(&rt, alloc, left, IS_THERE, 0));
}

#[test]
fn a_station_is_gone_where_syncs_lie(rt: HostRuntime) {
    let alloc = rt.alloc();
    let lying = new_file(&rt, alloc).with(Fault::LiesInSyncs);
    let left = file_after(&rt, alloc, lying, JOINS, 2).cut(Torn::Old);
    drop(file_after(&rt, alloc, left, IS_GONE, 0));
}
