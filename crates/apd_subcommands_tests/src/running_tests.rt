use crate::expect::{expect, expect_file, hold, read, remove, write};
use crate::scripting_tests::make_old_store;
use crate::words::{matches_of, parse};
use apd_command_line::{no_text, refuse_ports};
use apd_disk::FileDisk;
use apd_program::{Host, ProgramFault, RunningFault, run_and_log, tell};
use apd_store::format;
use std::alloc::{AllocError, Global};
use std::cell::Cell;
use std::fmt::Display;
use std::fs::File;
use std::io;
use std::net::{Ipv4Addr, UdpSocket};
use std::process::{Abort, ExitCode};
use std::rt::Files;
use std::time::Clock;

const CONF: &str = "interface=wlan0\nbssid=02:00:00:00:00:01\nssid=net\n";

/// Command lines, the status that they end with, and how what is printed begins.
const WORDS: &[(&[&str], u8, &str)] = &[
    (
        &["apd", "run", "--store", "s", "--port", "1023", "c"],
        2,
        "2error: invalid value '1023' for '--port <N>': 1023 is not in 1024..=65000\n",
    ),
    (
        &["apd", "run", "--store", "s", "--port", "65001", "c"],
        2,
        "2error: invalid value '65001' for '--port <N>': 65001 is not in 1024..=65000\n",
    ),
    (
        &[
            "apd",
            "run",
            "--end-at-fault=no",
            "--store",
            "s",
            "--port",
            "1024",
            "c",
        ],
        2,
        "2error: unexpected value 'no' for '--end-at-fault' found; no more were expected\n",
    ),
    (
        &[
            "apd",
            "run",
            "--drivers",
            "0",
            "--store",
            "s",
            "--port",
            "1024",
            "c",
        ],
        2,
        "2error: invalid value '0' for '--drivers <BASE>': 0 is not in 1..=65528\n",
    ),
    (
        &["apd", "run", "--port", "1024", "c"],
        2,
        "2error: the following required arguments were not provided:\n  --store <STORE>\n",
    ),
    (
        &["apd", "run", "--store", "s", "c"],
        2,
        "2error: the following required arguments were not provided:\n  --port <N>\n",
    ),
    (
        &["apd", "run", "--store", "s", "--port", "65000"],
        2,
        "2error: the following required arguments were not provided:\n  <CONF>...\n",
    ),
    (
        &["apd", "run", "--help"],
        2,
        "2Serves over a store and datagrams until standard input ends\n",
    ),
    (
        &["apd", "check"],
        2,
        "2error: the following required arguments were not provided:\n  <STORE>\n",
    ),
    (
        &["apd", "check", "--help"],
        2,
        "2Says what a store has, or what is wrong with it, and changes nothing\n",
    ),
    (&["apd", "--version"], 0, "1apd 0.1.0\n"),
];

/// What is printed, and where: `1` in front of what goes to standard output, `2` in front of the rest.
#[derive(Drop)]
struct Page {
    alloc: Global,
    text: Cell<Option<String>>,
}

impl Page {
    // Adds a text that was made.
    fn add(&self, text: Result<String, AllocError>) -> io::Result<()> {
        self.text.set(Some(text?));
        Ok(())
    }
}

impl Print for Page {
    fn print<D: Display + Drop>(&self, value: D) -> io::Result<()> {
        self.add(format!(in self.alloc; "1{value}"))
    }

    fn println<D: Display + Drop>(&self, value: D) -> io::Result<()> {
        self.add(format!(in self.alloc; "1{value}\n"))
    }

    fn write_all(&self, _bytes: &[u8]) -> io::Result<()> {
        Err(io::ErrorKind::Unsupported.into())
    }
}

impl Eprint for Page {
    fn eprint<D: Display + Drop>(&self, value: D) -> io::Result<()> {
        self.add(format!(in self.alloc; "2{value}"))
    }

    fn eprintln<D: Display + Drop>(&self, value: D) -> io::Result<()> {
        self.add(format!(in self.alloc; "2{value}\n"))
    }
}

/// What a run that came to this prints, where it ends with this status.
fn page_of(
    rt: &(impl Abort + AllocGlobal),
    done: Result<Option<clap::Error>, ProgramFault>,
    status: u8,
) -> String {
    let page = Page {
        alloc: rt.alloc(),
        text: Cell::new(None),
    };
    let ended = tell(&page, done).expect(rt, "a page");
    hold(rt, ended == ExitCode::from(status));
    page.text.take().unwrap_or(String::new(rt.alloc()))
}

/// Expects that it prints this.
fn expect_page(
    rt: &(impl Abort + AllocGlobal),
    done: Result<Option<clap::Error>, ProgramFault>,
    status: u8,
    wanted: &str,
) {
    let page = page_of(rt, done, status);
    expect(rt, page.as_str(), wanted);
}

/// Ends the test where a text doesn't begin so, and prints it.
fn expect_start(rt: &impl Abort, text: &str, start: &str) {
    assert!(rt; text.starts_with(start), "{text}");
}

/// Expects that what is wrong with a command line is printed with this status, and begins so.
fn expect_error(
    rt: &(impl Abort + AllocGlobal),
    error: Option<clap::Error>,
    status: u8,
    start: &str,
) {
    let page = page_of(rt, Ok(error), status);
    expect_start(rt, page.as_str(), start);
}

/// What is wrong with these words.
fn error_of(rt: &(impl Abort + AllocGlobal), words: &[&str]) -> Option<clap::Error> {
    parse(rt, words).err()
}

#[test]
fn wrong_words_are_told(rt: HostRuntime) {
    for (words, status, start) in WORDS {
        expect_error(&rt, error_of(&rt, words), *status, start);
    }
}

/// What is wrong with a run at a port, whose radios' drivers have the ports from this one on.
fn refusal_of(rt: &(impl AllocGlobal + Abort), port: &str, drivers: &str) -> Option<clap::Error> {
    let words = [
        "apd",
        "run",
        "--store",
        "s",
        "--port",
        port,
        "--drivers",
        drivers,
        "c",
    ];
    let matches = matches_of(rt, &words);
    let run = matches.subcommand_matches("run");
    let error = refuse_ports(rt.alloc(), run.expect(rt, "the words of a run"));
    drop(matches);
    error.expect(rt, "memory")
}

#[test]
fn ports_of_drivers_are_no_ports_of_the_daemon(rt: HostRuntime) {
    let alloc = rt.alloc();
    for (drivers, last) in [("6993", "7000"), ("7000", "7007"), ("7008", "7015")] {
        let text = format!(in alloc;
            "2error: invalid value '{drivers}' for '--drivers <BASE>': the ports {drivers} to {last} meet 7000 to 7008, those of '--port 7000'\n"
        );
        let text = text.expect(&rt, "memory");
        expect_error(&rt, refusal_of(&rt, "7000", drivers), 2, text.as_str());
        drop(text);
    }
    for drivers in ["1", "6992", "7009", "65528"] {
        hold(&rt, refusal_of(&rt, "7000", drivers).is_none());
    }
}

#[test]
fn words_that_are_no_text_are_wrong(rt: HostRuntime) {
    let error = no_text(rt.alloc()).expect(&rt, "memory");
    let start = "2error: invalid UTF-8 was detected in one or more arguments\n";
    expect_error(&rt, Some(error), 2, start);
}

#[test]
fn a_fault_is_told(rt: HostRuntime) {
    expect_page(&rt, Err(ProgramFault::NoMemory), 1, "2apd: out of memory\n");
    expect_page(&rt, Ok(None), 0, "");
}

/// Why a run with the arguments of these words doesn't serve.
fn fault_of<R: Abort + Host>(rt: &R, words: &[&str]) -> RunningFault {
    let matches = matches_of(rt, words);
    let run = matches.subcommand_matches("run");
    let served = run_and_log(rt, rt, run.expect(rt, "the words of a run"));
    drop(matches);
    served.expect_err(rt, "a fault")
}

/// Expects that `apd run` over a store, with this configuration, at this port, prints this where it doesn't serve, and
/// ends with 1.
fn expect_fault<R: Abort + Host>(rt: &R, (store, port, conf): (&str, &str, &str), wanted: &str) {
    let words = [
        "apd", "run", "--store", store, "--port", port, "--record", "run_test", conf,
    ];
    let fault = fault_of(rt, &words);
    expect_page(rt, Err(ProgramFault::Running(fault)), 1, wanted);
}

/// Makes the file of a name a new store.
fn make_store(rt: &(impl Abort + Files<File = File> + Clock + AllocGlobal), name: &str) {
    let disk = FileDisk::create(rt, name).expect(rt, "a file that can be made");
    let is_made = format(rt.alloc(), disk).is_ok();
    hold(rt, is_made);
}

/// Expects the faults of a run at a port that is taken, in their order.
fn expect_faults<R: Abort + Host>(rt: &R, port: &str) {
    let store = "run_test_store";
    let conf = "run_test_conf";
    let words = (store, port, conf);
    expect_fault(rt, words, "2apd: cannot read run_test_conf\n");
    write(rt, conf, CONF.as_bytes());
    expect_fault(rt, words, "2apd: cannot read run_test_store\n");
    make_store(rt, store);
    expect_fault(rt, words, "2apd: no socket\n");
    // By then the recording stood.
    remove(rt, "run_test.0");
    remove(rt, store);
    remove(rt, conf);
}

#[test]
fn faults_of_a_run_are_told_in_their_order(rt: HostRuntime) {
    let taken = UdpSocket::bind(&rt, (Ipv4Addr::LOCALHOST, 0)).expect(&rt, "a port");
    let place = taken.local_addr().expect(&rt, "a port");
    let port = format!(in rt.alloc(); "{}", place.port()).expect(&rt, "memory");
    expect_faults(&rt, port.as_str());
    drop(port);
    drop(taken);
}

#[test]
fn a_run_with_options_has_the_same_faults(rt: HostRuntime) {
    let conf = "run_test_conf_with_options";
    write(&rt, conf, CONF.as_bytes());
    let words = [
        "apd",
        "run",
        "--end-at-fault",
        "--log-stations",
        "--log-time",
        "--store",
        "run_test_no_store",
        "--port",
        "1024",
        conf,
    ];
    let fault = fault_of(&rt, &words);
    let wanted = "2apd: cannot read run_test_no_store\n";
    expect_page(&rt, Err(ProgramFault::Running(fault)), 1, wanted);
    remove(&rt, conf);
}

#[test]
fn a_store_of_version_1_is_refused_and_left_as_it_was(rt: HostRuntime) {
    let store = "run_test_old_store";
    let conf = "run_test_old_conf";
    let old = make_old_store(&rt, store);
    write(&rt, conf, CONF.as_bytes());
    expect_fault(&rt, (store, "1024", conf), "2apd: store of version 1\n");
    expect_file(&rt, store, old.as_slice());
    remove(&rt, store);
    remove(&rt, conf);
}

#[test]
fn a_missing_configuration_leaves_the_store_as_it_was(rt: HostRuntime) {
    let store = "run_test_untouched_store";
    let conf = "run_test_no_conf";
    make_store(&rt, store);
    let before = read(&rt, store);
    expect_fault(
        &rt,
        (store, "1024", conf),
        "2apd: cannot read run_test_no_conf\n",
    );
    expect_file(&rt, store, before.as_slice());
    remove(&rt, store);
}
