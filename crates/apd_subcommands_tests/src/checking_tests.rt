use crate::expect::{expect, expect_file, hold, open, protect, read, remove, remove_any, write};
use crate::scripting_tests::{
    JOINS, add_fault, expect_script, make_old_store, make_store, make_store_behind, put_over,
    script_fault_of,
};
use crate::words::matches_of;
use apd_conf::Confs;
use apd_script::read_configurations;
use apd_site::{Access, open_disk};
use apd_subcommands::{CommandFault, check_and_print, run_check_command};
use std::fs::{self, File};
use std::os::unix::fs::FileExt;
use std::process::Abort;
use std::rt::Files;
use std::time::Clock;

/// What `apd check` prints, and then its fault as the program prints it.
pub fn check_output(
    rt: &(impl Abort + Files<File = File> + Clock + AllocGlobal),
    name: &str,
) -> Vec<u8> {
    let mut out = Vec::new(rt.alloc());
    if let Err(fault) = check_and_print(rt, name, &mut out) {
        add_fault(rt, &fault, &mut out);
    }
    out
}

/// Expects that it prints this.
pub fn expect_check(
    rt: &(impl Abort + Files<File = File> + Clock + AllocGlobal),
    name: &str,
    wanted: &[u8],
) {
    let out = check_output(rt, name);
    expect(rt, out.as_slice(), wanted);
}

const ONE_STATION: &[u8] = b"bss 02:00:00:00:00:01 mode 0 max 2007 stations 1 accept 0 deny 0\n";

const NO_STATION: &[u8] = b"bss 02:00:00:00:00:01 mode 0 max 2007 stations 0 accept 0 deny 0\n";

#[test]
fn a_store_is_told_of_and_left_as_it_was(rt: HostRuntime) {
    let name = "store_of_a_check_test";
    make_store(&rt, name);
    expect_check(&rt, name, b"");
    make_store_behind(&rt, name, JOINS);
    let made = read(&rt, name);
    expect_check(&rt, name, ONE_STATION);
    expect_file(&rt, name, made.as_slice());
    // One that nobody may write.
    protect(&rt, name);
    expect_check(&rt, name, ONE_STATION);
    remove(&rt, name);
}

/// Two interfaces, at 02:00:00:00:00:01 and 02:00:00:00:00:02, the greater one first.
fn two_interfaces(rt: &(impl Abort + Files<File = File> + Clock + AllocGlobal)) -> Confs {
    let names = ["wlan1.check_test", "wlan0.check_test"];
    write(
        rt,
        names[0],
        b"interface=wlan1\nbssid=02:00:00:00:00:02\nssid=net\n",
    );
    write(
        rt,
        names[1],
        b"interface=wlan0\nbssid=02:00:00:00:00:01\nssid=net\n",
    );
    let confs = read_configurations(rt, &names).expect(rt, "configurations");
    remove(rt, names[0]);
    remove(rt, names[1]);
    confs
}

/// A station of the second interface authenticates, and each interface has lists.
const LISTS: &[u8] =
    b"rx wlan1 b00000000200000000020200000000bb0200000000021000000001000000\nflush\ncmd IFNAME=wlan0 ACCEPT_ACL ADD_MAC 02:00:00:00:00:cc\ncmd IFNAME=wlan0 DENY_ACL ADD_MAC 02:00:00:00:00:dd\ncmd IFNAME=wlan0 DENY_ACL ADD_MAC 02:00:00:00:00:ee\ncmd IFNAME=wlan1 DENY_ACL ADD_MAC 02:00:00:00:00:dd\nflush\n";

const TWO_LINES: &[u8] =
    b"bss 02:00:00:00:00:01 mode 0 max 2007 stations 0 accept 1 deny 2\nbss 02:00:00:00:00:02 mode 0 max 2007 stations 1 accept 0 deny 1\n";

/// Makes the file of a name a store with these.
fn make_store_of_two(rt: &(impl Abort + Files<File = File> + Clock + AllocGlobal), name: &str) {
    let alloc = rt.alloc();
    make_store(rt, name);
    let confs = two_interfaces(rt);
    let disk = open(rt, name, Access::Write);
    let fault = script_fault_of(alloc, disk, confs, LISTS, &mut Vec::new(alloc));
    hold(rt, fault.is_none());
}

#[test]
fn each_interface_has_a_line_in_order(rt: HostRuntime) {
    let name = "store_of_two_of_a_check_test";
    make_store_of_two(&rt, name);
    expect_check(&rt, name, TWO_LINES);
    remove(&rt, name);
}

/// Why `apd check --stations` of the file of a name fails, if it does.
fn stations_fault_of(
    rt: &(impl Abort + Files<File = File> + Clock + AllocGlobal),
    name: &str,
    out: &mut Vec<u8>,
) -> Option<CommandFault> {
    let words = ["apd", "check", "--stations", name];
    let matches = matches_of(rt, &words);
    let check = matches.subcommand_matches("check");
    let told = run_check_command(rt, check.expect(rt, "the words of a check"), out);
    drop(matches);
    told.err()
}

/// Expects that it prints this, with its fault as the program prints it.
fn expect_stations(
    rt: &(impl Abort + Files<File = File> + Clock + AllocGlobal),
    name: &str,
    wanted: &[u8],
) {
    let mut out = Vec::new(rt.alloc());
    if let Some(fault) = stations_fault_of(rt, name, &mut out) {
        add_fault(rt, &fault, &mut out);
    }
    expect(rt, out.as_slice(), wanted);
}

const ONE_ASSOCIATED: &[u8] =
    b"bss 02:00:00:00:00:01 mode 0 max 2007 stations 1 accept 0 deny 0\nstation 02:00:00:00:00:aa associated 1\n";

const TWO_WITH_ROWS: &[u8] =
    b"bss 02:00:00:00:00:01 mode 0 max 2007 stations 0 accept 1 deny 2\naccept 02:00:00:00:00:cc\ndeny 02:00:00:00:00:dd\ndeny 02:00:00:00:00:ee\nbss 02:00:00:00:00:02 mode 0 max 2007 stations 1 accept 0 deny 1\nstation 02:00:00:00:00:bb authenticated\ndeny 02:00:00:00:00:dd\n";

#[test]
fn stations_and_addresses_of_lists_are_told_besides(rt: HostRuntime) {
    let name = "store_of_a_stations_test";
    make_store(&rt, name);
    expect_stations(&rt, name, b"");
    make_store_behind(&rt, name, JOINS);
    let made = read(&rt, name);
    expect_stations(&rt, name, ONE_ASSOCIATED);
    expect_file(&rt, name, made.as_slice());
    make_store_of_two(&rt, name);
    expect_stations(&rt, name, TWO_WITH_ROWS);
    remove(&rt, name);
}

#[test]
fn no_station_of_what_is_refused_is_told(rt: HostRuntime) {
    let name = "refused_store_of_a_stations_test";
    let refused: &[u8] = b"apd: cannot read refused_store_of_a_stations_test\n";
    remove_any(&rt, name);
    expect_stations(&rt, name, refused);
    write(&rt, name, b"");
    expect_stations(&rt, name, NOT_A_STORE);
    make_store_behind(&rt, name, JOINS);
    put_over(&rt, name, 64, &[0]);
    expect_stations(&rt, name, DAMAGED);
    let serving = open(&rt, name, Access::Write);
    expect_stations(&rt, name, refused);
    drop(serving);
    remove(&rt, name);
}

/// Expects that this is told of a store with these bytes from a place on in the place of its own, which it has again
/// afterwards.
fn expect_check_with(
    rt: &(impl Abort + Files<File = File> + Clock + AllocGlobal),
    name: &str,
    (place, others, wanted): (usize, &[u8], &[u8]),
) {
    let opened = File::options().read(true).write(true).open(rt, name);
    let file = opened.expect(rt, "a store that can be opened");
    let mut own = others.to_vec(rt.alloc()).expect(rt, "memory");
    file.read_exact_at(&mut own, place as u64)
        .expect(rt, "the store's own bytes");
    file.write_all_at(others, place as u64)
        .expect(rt, "other bytes");
    expect_check(rt, name, wanted);
    file.write_all_at(own.as_slice(), place as u64)
        .expect(rt, "the store's own bytes");
}

const NOT_A_STORE: &[u8] = b"apd: not a store\n";

const DAMAGED: &[u8] = b"apd: damaged store\n";

const OLD: &[u8] = b"apd: store of version 1\n";

/// Bytes from a place on of a store on which a station associated, and what is told of it with them: the version, all that
/// nobody looks at, the gate of the first half, the gates of the groups, the state of the station, the identifier that was
/// given last, and behind them a group of no records, and one that is too long.
const CHANGES: &[(usize, &[u8], &[u8])] = &[
    (7, b"1", OLD),
    (8, &[b'x'; 56], ONE_STATION),
    (64, &[0], DAMAGED),
    (77, &[0], b""),
    (92, &[2], NO_STATION),
    (117, &[0], ONE_STATION),
    (110, &[3], DAMAGED),
    (142, &[8], DAMAGED),
    (149, &[7], ONE_STATION),
    (151, &[1], ONE_STATION),
    (151, &[1, 1, 0, 1, 0], DAMAGED),
    (151, &[2, 1, 0, 1, 0], ONE_STATION),
];

#[test]
fn bytes_that_are_changed_are_told_of(rt: HostRuntime) {
    let name = "changed_store_of_a_check_test";
    make_store_behind(&rt, name, JOINS);
    for place in 0..8 {
        expect_check_with(&rt, name, (place, b"x", NOT_A_STORE));
    }
    for change in CHANGES {
        expect_check_with(&rt, name, *change);
    }
    expect_check(&rt, name, ONE_STATION);
    remove(&rt, name);
}

#[test]
fn a_store_of_version_1_is_told_of_and_left_as_it_was(rt: HostRuntime) {
    let name = "old_store_of_a_check_test";
    let old = make_old_store(&rt, name);
    expect_check(&rt, name, OLD);
    expect_script(&rt, name, JOINS, OLD);
    expect_file(&rt, name, old.as_slice());
    remove(&rt, name);
}

// Makes a file of so many zeros.
fn write_zeros(
    rt: &(impl Abort + Files<File = File> + Clock + AllocGlobal),
    name: &str,
    length: usize,
) {
    let zeros = vec![in rt.alloc(); 0u8; length].expect(rt, "memory");
    write(rt, name, zeros.as_slice());
}

#[test]
fn what_is_no_store_is_told_of(rt: HostRuntime) {
    let name = "no_store_of_a_check_test";
    let missing: &[u8] = b"apd: cannot read no_store_of_a_check_test\n";
    remove_any(&rt, name);
    expect_check(&rt, name, missing);
    hold(&rt, fs::metadata(&rt, name).is_err());
    fs::create_dir(&rt, name).expect(&rt, "a folder");
    expect_check(&rt, name, missing);
    fs::remove_dir_all(&rt, name).expect(&rt, "a folder");
    write_zeros(&rt, name, 2_097_215);
    expect_check(&rt, name, NOT_A_STORE);
    remove(&rt, name);
}

// A check goes beside one that has the store open, and a start doesn't.
fn check_beside_a_check(rt: &(impl Abort + Files<File = File> + Clock + AllocGlobal), name: &str) {
    let looking = open(rt, name, Access::Read);
    expect_check(rt, name, b"");
    hold(rt, open_disk(rt, name, Access::Write).is_err());
    drop(looking);
}

// A check doesn't go beside a start that has the store open.
fn check_beside_a_start(
    rt: &(impl Abort + Files<File = File> + Clock + AllocGlobal),
    name: &str,
    refused: &[u8],
) {
    let serving = open(rt, name, Access::Write);
    expect_check(rt, name, refused);
    drop(serving);
}

#[test]
fn two_checks_go_together_and_neither_with_a_start(rt: HostRuntime) {
    let name = "shared_store_of_a_check_test";
    let refused: &[u8] = b"apd: cannot read shared_store_of_a_check_test\n";
    make_store(&rt, name);
    check_beside_a_check(&rt, name);
    check_beside_a_start(&rt, name, refused);
    remove(&rt, name);
}
