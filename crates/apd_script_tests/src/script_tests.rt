use crate::expect::expect;
use crate::scripts::add;
use crate::worlds::{expect_run, fault_on, fresh_store};
use apd_base::limits::MAX_SCRIPT;
use apd_base::{Addr, Aid};
use apd_conf::InterfaceName;
use apd_mlme::Out;
use apd_script::{QuietReason, ScriptFault, write_out, write_reception};
use apd_world::Reception;
use std::alloc::Global;
use std::io::{self, BufRead, BufReader, Read, Write};
use std::process::Abort;

#[test]
fn lines_end_at_a_newline_alone_and_the_last_needs_none(rt: HostRuntime) {
    for (script, want) in [
        (
            b"rx wlan0 b000 0000 020000000001 0200000000AA 020000000001 1000 0000 0100 00 0 0\nflush".as_slice(),
            b"entry 2\nwlan0 tx b00000000200000000aa0200000000010200000000010000000002000000\n".as_slice(),
        ),
        (b"cmd PING\r\n", b"ctrl 1 UNKNOWN COMMAND\\n\n"),
    ] {
        expect_run(&rt, rt.alloc(), script, None, want);
    }
}

/// Scripts, and the first bad line of each.
const BAD_SCRIPTS: [(&[u8], u64); 19] = [
    (b"\nrx wlan0 b0\nflish\nflush", 3),
    (b"rx wlan0 b", 1),
    (b"rx wlan0 b0\tb0", 1),
    (b"rx wlan1 b0", 1),
    (b"rx", 1),
    (b"rx ", 1),
    (b"rx  wlan0 b0", 1),
    (b"flush ", 1),
    (b"flush\r\n", 1),
    (b"take 1", 1),
    (b"stop ", 1),
    (b"cmdPING", 1),
    (b"tick", 1),
    (b"tick ", 1),
    (b"tick +5", 1),
    (b"tick 5 ", 1),
    (b"tick 18446744073709551616", 1),
    (b"tick 000000000000000000005", 1),
    (
        b"tick 00000000000000000005\ntick 18446744073709551615\ntick 0\nx",
        4,
    ),
];

fn bad_scripts() -> &'static [(&'static [u8], u64)] {
    &BAD_SCRIPTS
}

/// How a script ends on one radio and a new store, whatever it prints.
fn end_of(rt: &impl Abort, alloc: Global, script: &[u8]) -> Option<ScriptFault> {
    let mut out = Vec::new(alloc);
    fault_on(rt, alloc, fresh_store(rt, alloc), script, &mut out)
}

#[test]
fn the_first_bad_line_ends_a_script(rt: HostRuntime) {
    let alloc = rt.alloc();
    for (script, line) in bad_scripts() {
        let fault = Some(ScriptFault::BadLine(*line));
        expect(&rt, end_of(&rt, alloc, script), fault);
    }
    let fault = Some(ScriptFault::BadLine(2));
    expect_run(&rt, alloc, b"rx wlan0\nx\n", fault, b"quiet short\n");
}

/// A frame of so many bytes is received.
fn receive_long(rt: &impl Abort, alloc: Global, bytes: usize) -> Vec<u8> {
    let mut script = Vec::new(alloc);
    let head = b"rx wlan0 d00000000200000000010200000000aa0200000000011000";
    add(rt, &mut script, head);
    for _ in 24..bytes {
        add(rt, &mut script, b"00");
    }
    script
}

#[test]
fn frames_of_2305_bytes_are_too_long(rt: HostRuntime) {
    let alloc = rt.alloc();
    for (bytes, want) in [
        (2304, b"quiet subtype\n".as_slice()),
        (2305, b"quiet long\n"),
    ] {
        let script = receive_long(&rt, alloc, bytes);
        expect_run(&rt, alloc, &script, None, want);
    }
}

/// A writer that takes a number of lines, and then fails in this way.
#[derive(Drop)]
struct Narrow {
    left: usize,
    kind: io::ErrorKind,
}

impl Write for Narrow {
    fn write(&mut self, buf: &[u8]) -> io::Result<usize> {
        if self.left == 0 {
            return Err(io::Error::from(self.kind));
        }
        self.left -= 1;
        Ok(buf.len())
    }

    fn flush(&mut self) -> io::Result<()> {
        Ok(())
    }
}

/// A writer that takes nothing.
fn dead_writer() -> Narrow {
    Narrow {
        left: 0,
        kind: io::ErrorKind::BrokenPipe,
    }
}

/// A reader that gives a number of empty lines, and then fails in this way.
#[derive(Drop)]
struct Broken {
    left: usize,
    kind: io::ErrorKind,
}

impl Read for Broken {
    fn read(&mut self, buf: &mut [u8]) -> io::Result<usize> {
        if self.left == 0 {
            return Err(io::Error::from(self.kind));
        }
        self.left -= 1;
        match buf.first_mut() {
            Some(byte) => {
                *byte = b'\n';
                Ok(1)
            }
            None => Ok(0),
        }
    }
}

/// How a script ends on one radio and a new store.
fn fault_of<R: BufRead + Drop>(
    rt: &impl Abort,
    alloc: Global,
    reader: R,
    mut writer: Narrow,
) -> Option<ScriptFault> {
    fault_on(rt, alloc, fresh_store(rt, alloc), reader, &mut writer)
}

/// How a script ends behind an empty line, where the reader fails in this way.
fn reader_fault(rt: &impl Abort, alloc: Global, kind: io::ErrorKind) -> Option<ScriptFault> {
    let reader = BufReader::new(alloc, Broken { left: 1, kind });
    let writer = Narrow { left: 0, kind };
    fault_of(rt, alloc, reader.expect(rt, "memory"), writer)
}

/// How a script ends that prints two lines, where the writer fails in this way at the second.
fn writer_fault(rt: &impl Abort, alloc: Global, kind: io::ErrorKind) -> Option<ScriptFault> {
    let script = b"rx wlan0\nrx wlan0\nflush\n".as_slice();
    fault_of(rt, alloc, script, Narrow { left: 1, kind })
}

#[test]
fn faults_of_the_reader_and_the_writer_end_a_script(rt: HostRuntime) {
    let alloc = rt.alloc();
    for (kind, reader, writer) in [
        (
            io::ErrorKind::BrokenPipe,
            ScriptFault::Reader,
            ScriptFault::Writer,
        ),
        (
            io::ErrorKind::OutOfMemory,
            ScriptFault::NoMemory,
            ScriptFault::NoMemory,
        ),
    ] {
        expect(&rt, reader_fault(&rt, alloc, kind), Some(reader));
        expect(&rt, writer_fault(&rt, alloc, kind), Some(writer));
    }
}

/// How a script of one line of so many bytes ends.
fn fault_of_long_line(rt: &impl Abort, alloc: Global, bytes: u64) -> Option<ScriptFault> {
    let reader = BufReader::new(alloc, io::repeat(b'x').take(bytes));
    fault_of(rt, alloc, reader.expect(rt, "memory"), dead_writer())
}

#[test]
fn a_script_has_at_most_16_mib(rt: HostRuntime) {
    let most = MAX_SCRIPT as u64;
    for (bytes, fault) in [
        (most, ScriptFault::BadLine(1)),
        (most + 1, ScriptFault::Reader),
    ] {
        let found = fault_of_long_line(&rt, rt.alloc(), bytes);
        expect(&rt, found, Some(fault));
    }
}

/// How a script ends where want of memory is told once more than 16,777,217 bytes are asked for.
fn fault_behind_all(rt: &impl Abort, alloc: Global) -> Option<ScriptFault> {
    let asked_for_more = Broken {
        left: 0,
        kind: io::ErrorKind::OutOfMemory,
    };
    let script = io::repeat(b'x').take(16_777_217).chain(asked_for_more);
    let reader = BufReader::new(alloc, script).expect(rt, "memory");
    fault_of(rt, alloc, reader, dead_writer())
}

#[test]
fn of_a_script_16_777_217_bytes_are_read_at_most(rt: HostRuntime) {
    let fault = fault_behind_all(&rt, rt.alloc());
    expect(&rt, fault, Some(ScriptFault::Reader));
}

/// Expects what is printed of an out at wlan0.
fn expect_out(rt: &impl Abort, alloc: Global, out: &Out, want: &[u8]) {
    let name = InterfaceName::new("wlan0", alloc).expect(rt, "memory");
    let mut text = Vec::new(alloc);
    let written = write_out(alloc, &mut text, &name, out);
    written.expect(rt, "memory");
    expect(rt, text.as_slice(), want);
}

#[test]
fn driver_calls_are_printed_in_these_words(rt: HostRuntime) {
    let alloc = rt.alloc();
    let station = Addr([2, 0, 0, 0, 0, 0xaa]);
    let aid = Aid::new(7).expect(&rt, "an identifier");
    let installed = b"wlan0 install 02:00:00:00:00:aa 7\n";
    expect_out(&rt, alloc, &Out::Install(station, aid), installed);
    let removed = b"wlan0 remove 02:00:00:00:00:aa\n";
    expect_out(&rt, alloc, &Out::Remove(station), removed);
}

/// Expects how a fault is printed.
fn expect_fault(rt: &impl Abort, alloc: Global, fault: ScriptFault, want: &str) {
    let text = format!(in alloc; "{fault}").expect(rt, "memory");
    expect(rt, text.as_str(), want);
}

#[test]
fn faults_have_these_texts(rt: HostRuntime) {
    for (fault, want) in [
        (ScriptFault::BadLine(12), "bad line 12"),
        (ScriptFault::Reader, "reader fault"),
        (ScriptFault::Writer, "writer fault"),
        (ScriptFault::NoMemory, "out of memory"),
    ] {
        expect_fault(&rt, rt.alloc(), fault, want);
    }
}

/// Expects what is printed of an answer.
fn expect_answer(rt: &impl Abort, alloc: Global, answer: Reception, want: &[u8]) {
    let mut out = Vec::new(alloc);
    let written = write_reception(alloc, &mut out, answer);
    written.expect(rt, "memory");
    expect(rt, out.as_slice(), want);
}

#[test]
fn answers_are_printed_in_these_words(rt: HostRuntime) {
    for (answer, want) in [
        (Reception::Stopped, b"stopped\n".as_slice()),
        (Reception::Busy, b"busy\n"),
        (Reception::Entry(12), b"entry 12\n"),
        (
            Reception::Quiet(QuietReason::NoInterface),
            b"quiet nointerface\n",
        ),
        (Reception::Quiet(QuietReason::NoPolicy), b"quiet nopolicy\n"),
        (
            Reception::Quiet(QuietReason::TooManyBss),
            b"quiet toomanybss\n",
        ),
        (Reception::Quiet(QuietReason::Nothing), b"quiet nothing\n"),
    ] {
        expect_answer(&rt, rt.alloc(), answer, want);
    }
}
