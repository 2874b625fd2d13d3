use crate::expect::{expect, expect_file, hold, open, read, remove, remove_any, write};
use apd_conf::{Conf, Confs};
use apd_disk::{Disk, FileDisk, FuseDisk};
use apd_maintenance::{FormatFault, run_format};
use apd_script::{ScriptFault, run_on_store};
use apd_site::{Access, open_disk};
use apd_subcommands::{CommandFault, run_script_of_input};
use std::alloc::Global;
use std::fs::{self, File};
use std::io::{self, BufRead, BufReader, Read, Write};
use std::process::Abort;
use std::rt::Files;
use std::time::Clock;

fn new_confs(rt: &impl Abort, alloc: Global) -> Confs {
    let conf = Conf::built_in(alloc).expect(rt, "memory");
    let list = vec![in alloc; conf].expect(rt, "memory");
    Confs::new(list).expect(rt, "the built-in configuration")
}

/// Why a file isn't made a store, if it isn't.
pub fn format_fault_of(alloc: Global, disk: FileDisk, out: &mut Vec<u8>) -> Option<FormatFault> {
    match run_format(alloc, disk, out) {
        Ok(made) => {
            drop(made);
            None
        }
        Err((disk, fault)) => {
            drop(disk);
            Some(fault)
        }
    }
}

/// Makes the file of a name a new store.
pub fn make_store(rt: &(impl Abort + Files<File = File> + Clock + AllocGlobal), name: &str) {
    remove_any(rt, name);
    let disk = open(rt, name, Access::Make);
    let mut out = Vec::new(rt.alloc());
    expect(rt, format_fault_of(rt.alloc(), disk, &mut out), None);
}

/// Makes the file of a name a store of version 1, and gives its bytes.
pub fn make_old_store(
    rt: &(impl Abort + Files<File = File> + Clock + AllocGlobal),
    name: &str,
) -> Vec<u8> {
    make_store(rt, name);
    put_over(rt, name, 7, b"1");
    read(rt, name)
}

/// Puts these bytes over others, from a place on.
pub fn put(bytes: &mut [u8], place: usize, others: &[u8]) {
    for (there, other) in bytes.iter_mut().skip(place).zip(others.iter()) {
        *there = *other;
    }
}

/// Puts these bytes over others of the file of a name, from a place on.
pub fn put_over(
    rt: &(impl Abort + Files<File = File> + Clock + AllocGlobal),
    name: &str,
    place: usize,
    others: &[u8],
) {
    let mut bytes = read(rt, name);
    put(&mut bytes, place, others);
    write(rt, name, bytes.as_slice());
}

/// What ends a script on the store of a device, if anything does.
pub fn script_fault_of<D: Disk + Drop, I: BufRead + Drop, W: Write>(
    alloc: Global,
    disk: D,
    confs: Confs,
    script: I,
    writer: &mut W,
) -> Option<ScriptFault> {
    match run_on_store(alloc, disk, confs, script, writer) {
        Ok(world) => {
            drop(world);
            None
        }
        Err(fault) => Some(fault),
    }
}

/// What ends a script on the store of a file, if anything does.
fn fault_of(
    rt: &(impl Abort + Files<File = File> + Clock + AllocGlobal),
    name: &str,
    script: &[u8],
    out: &mut Vec<u8>,
) -> Option<CommandFault> {
    match open_disk(rt, name, Access::Write) {
        Ok(disk) => {
            let confs = new_confs(rt, rt.alloc());
            let fault = script_fault_of(rt.alloc(), disk, confs, script, out)?;
            Some(CommandFault::Script(fault))
        }
        Err(fault) => Some(CommandFault::Open(fault)),
    }
}

/// Adds a fault as the program prints it.
pub fn add_fault(rt: &(impl Abort + AllocGlobal), fault: &CommandFault, out: &mut Vec<u8>) {
    let text = format!(in rt.alloc(); "apd: {fault}\n").expect(rt, "memory");
    out.extend_from_slice(text.as_bytes()).expect(rt, "memory");
}

/// What a script on the store of a file prints, and then its fault as the program prints it.
fn script_output(
    rt: &(impl Abort + Files<File = File> + Clock + AllocGlobal),
    name: &str,
    script: &[u8],
) -> Vec<u8> {
    let mut out = Vec::new(rt.alloc());
    if let Some(fault) = fault_of(rt, name, script, &mut out) {
        add_fault(rt, &fault, &mut out);
    }
    out
}

/// Expects that a script on the store of a file prints this.
pub fn expect_script(
    rt: &(impl Abort + Files<File = File> + Clock + AllocGlobal),
    name: &str,
    script: &[u8],
    wanted: &[u8],
) {
    let out = script_output(rt, name, script);
    expect(rt, out.as_slice(), wanted);
}

pub const JOINS: &[u8] =
    b"rx wlan0 b00000000200000000010200000000aa0200000000011000000001000000\nflush\nrx wlan0 000000000200000000010200000000aa020000000001200031040a0000036e6574010482848b96\nflush\n";

pub const JOINED: &[u8] =
    b"entry 2\nwlan0 tx b00000000200000000aa0200000000010200000000010000000002000000\nentry 3\nwlan0 install 02:00:00:00:00:aa 1\nwlan0 tx 100000000200000000aa02000000000102000000000100000100000001c0010482848b96\n";

const SHOWN: &[u8] =
    b"ctrl 1 02:00:00:00:00:aa\\nflags=[AUTH][ASSOC][AUTHORIZED]\\naid=1\\ncapability=0x431\\nlisten_interval=10\\n\n";

/// After eight stops there is no radio for a ninth.
const STOPPED: &[u8] =
    b"recovered 1\nrecovered 1\nrecovered 1\nrecovered 1\nrecovered 1\nrecovered 1\nrecovered 1\nrecovered 1\napd: bad line 9\n";

/// Scripts on one store, and what they print.
const RUNS: &[(&[u8], &[u8])] = &[
    (JOINS, JOINED),
    (b"cmd STA 02:00:00:00:00:aa\n", SHOWN),
    (
        b"stop\nstop\nstop\nstop\nstop\nstop\nstop\nstop\nstop\n",
        STOPPED,
    ),
    (b"cmd STA 02:00:00:00:00:aa\n", SHOWN),
];

#[test]
fn a_store_keeps_the_station_for_the_next_run(rt: HostRuntime) {
    let name = "store_of_a_script_test";
    make_store(&rt, name);
    for (script, want) in RUNS {
        expect_script(&rt, name, script, want);
    }
    remove(&rt, name);
}

/// What neither gives nor takes a byte.
#[derive(Drop)]
pub struct Closed;

impl Read for Closed {
    fn read(&mut self, _buf: &mut [u8]) -> io::Result<usize> {
        Err(io::Error::from(io::ErrorKind::BrokenPipe))
    }
}

impl Write for Closed {
    fn write(&mut self, _buf: &[u8]) -> io::Result<usize> {
        Err(io::Error::from(io::ErrorKind::BrokenPipe))
    }

    fn flush(&mut self) -> io::Result<()> {
        Ok(())
    }
}

/// Why a script on the store of a file is given up, where the device fails behind so many calls.
fn give_up<I: BufRead + Drop, W: Write>(
    rt: &(impl Abort + Files<File = File> + Clock + AllocGlobal),
    name: &str,
    calls: u64,
    reader: I,
    writer: &mut W,
) -> ScriptFault {
    let confs = new_confs(rt, rt.alloc());
    let disk = FuseDisk::new(open(rt, name, Access::Write), calls);
    let fault = script_fault_of(rt.alloc(), disk, confs, reader, writer);
    fault.expect(rt, "a fault")
}

/// Expects that the store of a file still has the station.
fn expect_the_station(rt: &(impl Abort + Files<File = File> + Clock + AllocGlobal), name: &str) {
    expect_script(rt, name, b"cmd STA 02:00:00:00:00:aa\n", SHOWN);
}

/// More calls than any of these scripts makes.
const ENOUGH: u64 = 1_000;

/// Another station authenticates.
const ANOTHER: &[u8] =
    b"rx wlan0 b00000000200000000010200000000ab0200000000011000000001000000\nflush\n";

// The writer fails, and then the reader, behind the script.
fn give_up_streams(rt: &(impl Abort + Files<File = File> + Clock + AllocGlobal), name: &str) {
    let fault = give_up(rt, name, ENOUGH, ANOTHER, &mut Closed);
    expect(rt, fault, ScriptFault::Writer);
    expect_the_station(rt, name);
    let reader = BufReader::new(rt.alloc(), ANOTHER.chain(Closed)).expect(rt, "memory");
    let fault = give_up(rt, name, ENOUGH, reader, &mut Vec::new(rt.alloc()));
    expect(rt, fault, ScriptFault::Reader);
    expect_the_station(rt, name);
}

// The device fails behind so many calls.
fn give_up_device(
    rt: &(impl Abort + Files<File = File> + Clock + AllocGlobal),
    name: &str,
    calls: u64,
) {
    let fault = give_up(rt, name, calls, ANOTHER, &mut Vec::new(rt.alloc()));
    hold(rt, matches!(fault, ScriptFault::World(_)));
    expect_the_station(rt, name);
}

#[test]
fn a_script_that_is_given_up_leaves_the_station(rt: HostRuntime) {
    let name = "store_given_up_of_a_script_test";
    make_store_behind(&rt, name, JOINS);
    give_up_streams(&rt, name);
    // Two calls of the recovery, none of the start, which has nothing to store, and the first two of a commit; and the
    // first of the recovery.
    give_up_device(&rt, name, 4);
    give_up_device(&rt, name, 0);
    remove(&rt, name);
}

// Expects this of a store whose byte at a place is another one.
fn expect_broken(
    rt: &(impl Abort + Files<File = File> + Clock + AllocGlobal),
    name: &str,
    place: usize,
    wanted: &[u8],
) {
    make_store(rt, name);
    put_over(rt, name, place, b"x");
    expect_script(rt, name, b"", wanted);
}

const NOT_READ: &[u8] = b"apd: cannot read no_store_of_a_script_test\n";

const NOT_A_STORE: &[u8] = b"apd: not a store\n";

#[test]
fn faults_of_a_script_s_store_are_printed_in_these_words(rt: HostRuntime) {
    let name = "no_store_of_a_script_test";
    // One that is missing, a folder, and a short one.
    remove_any(&rt, name);
    expect_script(&rt, name, b"", NOT_READ);
    fs::create_dir(&rt, name).expect(&rt, "a folder");
    expect_script(&rt, name, b"", NOT_READ);
    fs::remove_dir_all(&rt, name).expect(&rt, "a folder");
    write(&rt, name, b"RAPSTOR1");
    expect_script(&rt, name, b"", NOT_A_STORE);
    // The magic, and the gate of the first half.
    expect_broken(&rt, name, 0, NOT_A_STORE);
    expect_broken(&rt, name, 64, b"apd: damaged store\n");
    remove(&rt, name);
}

/// 10,000 bytes without an order, the first of which is no newline.
fn noise(rt: &impl Abort, alloc: Global) -> Vec<u8> {
    let mut bytes = Vec::new(alloc);
    let mut state = 1u32;
    for _ in 0..10_000 {
        state = state.wrapping_mul(1_664_525).wrapping_add(1_013_904_223);
        bytes.push((state >> 24) as u8).expect(rt, "memory");
    }
    bytes
}

/// Makes the file of a name a new store, and runs a script on it.
pub fn make_store_behind(
    rt: &(impl Abort + Files<File = File> + Clock + AllocGlobal),
    name: &str,
    script: &[u8],
) {
    make_store(rt, name);
    let _ = script_output(rt, name, script);
}

// Expects that noise is a bad line for a new store, and leaves these bytes.
fn expect_noise_refused(
    rt: &(impl Abort + Files<File = File> + Clock + AllocGlobal),
    name: &str,
    started: &[u8],
) {
    let noise = noise(rt, rt.alloc());
    make_store(rt, name);
    expect_script(rt, name, noise.as_slice(), b"apd: bad line 1\n");
    expect_file(rt, name, started);
}

#[test]
fn noise_is_a_bad_line_and_leaves_the_store_as_the_start_did(rt: HostRuntime) {
    let name = "noisy_store_of_a_script_test";
    make_store(&rt, name);
    expect_script(&rt, name, b"", b"");
    let started = read(&rt, name);
    expect_noise_refused(&rt, name, started.as_slice());
    remove(&rt, name);
}

/// Expects that the program's own script over a store, with these configuration files, ends with a fault of this text.
fn expect_fault(
    rt: &(impl Abort + Input + Print + Files<File = File> + Clock + AllocGlobal),
    store: &str,
    names: &[&str],
    wanted: &str,
) {
    let fault = run_script_of_input(rt, Some(store), names).expect_err(rt, "a fault");
    let text = format!(in rt.alloc(); "{fault}").expect(rt, "memory");
    expect(rt, text.as_str(), wanted);
}

/// Expects that, and that the store stays as it was.
fn expect_untouched(
    rt: &(impl Abort + Input + Print + Files<File = File> + Clock + AllocGlobal),
    store: &str,
    names: &[&str],
    wanted: &str,
) {
    let made = read(rt, store);
    expect_fault(rt, store, names, wanted);
    expect_file(rt, store, made.as_slice());
}

const SOUND: &[u8] = b"interface=wlan0\nbssid=02:00:00:00:00:01\nssid=net\n";

const NO_CONFIGURATION: &str = "cannot read faulty_configuration_of_a_script_test";

#[test]
fn a_faulty_configuration_leaves_the_store_untouched(rt: HostRuntime) {
    let name = "untouched_store_of_a_script_test";
    let conf = "faulty_configuration_of_a_script_test";
    make_store(&rt, name);
    write(&rt, conf, SOUND);
    expect_untouched(&rt, name, &[conf, conf], "interface given twice");
    write(&rt, conf, b"interface=wlan0\nfoo\n");
    expect_untouched(&rt, name, &[conf], "line 2: no '='");
    // It is told in front of a store that can't be read.
    remove(&rt, name);
    expect_fault(&rt, name, &[conf], "line 2: no '='");
    remove(&rt, conf);
    expect_fault(&rt, name, &[conf], NO_CONFIGURATION);
}
