use crate::expect::expect;
use apd_base::Addr;
use apd_conf::{Conf, ConfFault, ConfigurationFault, Confs, ConfsFault, ListFault};
use apd_script::read_configurations;
use std::alloc::Global;
use std::fs;
use std::process::Abort;
use std::rt::Files;

/// Where the tests' files stand.
const FOLDER: &str = "configuration_files_of_a_test";

/// Expects how a fault is printed.
fn expect_text(rt: &impl Abort, alloc: Global, fault: ConfigurationFault, wanted: &str) {
    let text = format!(in alloc; "{fault}").expect(rt, "memory");
    expect(rt, text.as_str(), wanted);
}

/// Expects why files are no configurations, as it is printed, or no text where they are.
fn expect_reading<R: Abort + Files + AllocGlobal>(rt: &R, names: &[&str], wanted: &str) {
    match read_configurations(rt, names).err() {
        Some(fault) => expect_text(rt, rt.alloc(), fault, wanted),
        None => expect(rt, "", wanted),
    }
}

/// The tests' files, by name and text.
const FILES: [(&str, &str); 8] = [
    (
        "good",
        "interface=wlan0\nbssid=02:00:00:00:00:01\nssid=net\naccept_mac_file=configuration_files_of_a_test/list\n",
    ),
    (
        "other",
        "interface=wlan1\nbssid=02:00:00:00:00:02\nssid=net\naccept_mac_file=configuration_files_of_a_test/list\ndeny_mac_file=configuration_files_of_a_test/other_list\n",
    ),
    ("list", "02:00:00:00:00:aa\n"),
    ("other_list", "02:00:00:00:00:bb\n02:00:00:00:00:cc\n"),
    ("faulty_list", "02:00:00:00:00:aa\nx\n"),
    (
        "faulty",
        "interface=wlan0\nfoo\naccept_mac_file=configuration_files_of_a_test/none\n",
    ),
    (
        "bad_accept",
        "interface=wlan2\nbssid=02:00:00:00:00:03\nssid=net\naccept_mac_file=configuration_files_of_a_test/faulty_list\ndeny_mac_file=configuration_files_of_a_test/none\n",
    ),
    (
        "no_deny",
        "interface=wlan2\nbssid=02:00:00:00:00:03\nssid=net\ndeny_mac_file=configuration_files_of_a_test/none\n",
    ),
];

/// The files, each by its name and text.
fn files() -> &'static [(&'static str, &'static str)] {
    &FILES
}

/// Makes a file of the folder.
fn make_file<R: Abort + Files + AllocGlobal>(rt: &R, name: &str, text: &str) {
    let path = format!(in rt.alloc(); "{FOLDER}/{name}").expect(rt, "memory");
    fs::write(rt, path.as_str(), text).expect(rt, "a file");
}

/// Makes the folder of the tests' files anew.
fn make_files<R: Abort + Files + AllocGlobal>(rt: &R) {
    let _ = fs::remove_dir_all(rt, FOLDER);
    fs::create_dir(rt, FOLDER).expect(rt, "a folder");
    for (name, text) in files() {
        make_file(rt, name, text);
    }
}

const GOOD: &str = "configuration_files_of_a_test/good";

const OTHER: &str = "configuration_files_of_a_test/other";

const FAULTY: &str = "configuration_files_of_a_test/faulty";

const BAD_ACCEPT: &str = "configuration_files_of_a_test/bad_accept";

const NO_DENY: &str = "configuration_files_of_a_test/no_deny";

/// The names of files that are read in turn, and the fault that is told.
const READINGS: [(&[&str], &str); 8] = [
    (&[GOOD, OTHER], ""),
    (&[GOOD, "none", FAULTY], "cannot read none"),
    (&[GOOD, FAULTY, "none"], "line 2: no '='"),
    (&[GOOD, BAD_ACCEPT, "none"], "line 2: bad address"),
    (
        &[NO_DENY, FAULTY],
        "cannot read configuration_files_of_a_test/none",
    ),
    (&[GOOD, OTHER, GOOD], "interface given twice"),
    (&[FOLDER], "cannot read configuration_files_of_a_test"),
    // More than 16 MiB.
    (&["/dev/zero", FAULTY], "cannot read /dev/zero"),
];

/// The readings, each with its fault.
fn readings() -> &'static [(&'static [&'static str], &'static str)] {
    &READINGS
}

/// The addresses that the good files name, as let in and as kept out.
const ACCEPTED: [Addr; 1] = [Addr([2, 0, 0, 0, 0, 0xaa])];

const DENIED: [Addr; 2] = [Addr([2, 0, 0, 0, 0, 0xbb]), Addr([2, 0, 0, 0, 0, 0xcc])];

/// Whether a configuration has these lists.
fn has_lists(conf: &Conf, accepted: &[Addr], denied: &[Addr]) -> bool {
    conf.accept.as_slice() == accepted && conf.deny.as_slice() == denied
}

/// Whether the first of two configurations has both lists, and the second has the accept list alone.
fn have_lists(confs: &Confs) -> Option<[bool; 2]> {
    match confs.list() {
        [first, second] => Some([
            has_lists(first, &ACCEPTED, &DENIED),
            has_lists(second, &ACCEPTED, &[]),
        ]),
        _ => None,
    }
}

/// Expects the lists of the good files.
fn expect_lists<R: Abort + Files + AllocGlobal>(rt: &R) {
    let confs = read_configurations(rt, &[OTHER, GOOD]).ok();
    let confs = confs.expect(rt, "good files");
    expect(rt, have_lists(&confs), Some([true, true]));
}

#[test]
fn files_are_read_in_turn_and_the_first_fault_is_told(rt: HostRuntime) {
    make_files(&rt);
    for (names, wanted) in readings() {
        expect_reading(&rt, names, wanted);
    }
    expect_lists(&rt);
    fs::remove_dir_all(&rt, FOLDER).expect(&rt, "the folder");
}

#[test]
fn faults_of_configurations_are_printed_in_these_words(rt: HostRuntime) {
    let alloc = rt.alloc();
    for (fault, wanted) in [
        (
            ConfigurationFault::Conf(ConfFault::Security(2)),
            "line 2: security is not supported",
        ),
        (
            ConfigurationFault::List(ListFault::TooMany),
            "too many addresses",
        ),
        (
            ConfigurationFault::Confs(ConfsFault::SameBssid(1)),
            "bssid given twice",
        ),
        (ConfigurationFault::NoMemory, "out of memory"),
    ] {
        expect_text(&rt, alloc, fault, wanted);
    }
}
