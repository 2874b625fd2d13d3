use crate::checking_tests::check_output;
use crate::expect::{expect, expect_file, hold, protect, read, remove, remove_any, write};
use crate::formatting_tests::expect_text;
use crate::missing_tests::expect_nothing;
use crate::scripting_tests::{add_fault, expect_script, make_old_store, put_over};
use apd_maintenance::UpgradeFault;
use apd_store::StoreFault;
use apd_subcommands::{CommandFault, upgrade_and_print};
use std::fs::{self, File};
use std::process::Abort;
use std::rt::Files;
use std::time::Clock;

/// Expects that `apd upgrade` prints this, with its fault as the program prints it.
fn expect_upgrade(
    rt: &(impl Abort + Files<File = File> + Clock + AllocGlobal),
    old: &str,
    new: &str,
    wanted: &[u8],
) {
    let mut out = Vec::new(rt.alloc());
    if let Err(fault) = upgrade_and_print(rt, old, new, &mut out) {
        add_fault(rt, &fault, &mut out);
    }
    expect(rt, out.as_slice(), wanted);
}

const COPIED: &[u8] = b"copied\n";

/// Expects that a check finds no fault in the store of a file.
fn expect_sound(rt: &(impl Abort + Files<File = File> + Clock + AllocGlobal), name: &str) {
    let told = check_output(rt, name);
    hold(rt, !told.as_slice().starts_with(b"apd: "));
}

// NEW is made where there is none, and what is there is overwritten; OLD stays, and may be one that nobody may write.
#[test]
fn a_store_of_version_1_is_copied(rt: HostRuntime) {
    let old = "old_store_of_an_upgrade_test";
    let new = "new_store_of_an_upgrade_test";
    remove_any(&rt, new);
    let bytes = make_old_store(&rt, old);
    protect(&rt, old);
    for _ in 0..2 {
        expect_upgrade(&rt, old, new, COPIED);
        expect_file(&rt, old, bytes.as_slice());
        expect_sound(&rt, new);
    }
    remove(&rt, old);
    remove(&rt, new);
}

/// Half A of a store of version 1: a policy, and a station that is associated and has the identifier 5.
const HALF: &[u8] = &[
    1, 1, 0, 0, 0, 0, 0, 0, 0, 30, 0, 0, 0, // the gate, the epoch, and the length of the snapshot
    6, 2, 0, 0, 0, 0, 1, 0, 0xd7, 7, // the policy
    1, 2, 0, 0, 0, 0, 1, 2, 0, 0, 0, 0, 0xaa, 2, 5, 0, 0x31, 4, 10, 0, // the station
];

/// Asks for that station, and lets another come in.
const GOES_ON: &[u8] =
    b"cmd STA 02:00:00:00:00:aa\nrx wlan0 b00000000200000000010200000000bb0200000000011000000001000000\nflush\nrx wlan0 000000000200000000010200000000bb020000000001200031040a0000036e6574010482848b96\nflush\n";

const GONE_ON: &[u8] =
    b"ctrl 1 02:00:00:00:00:aa\\nflags=[AUTH][ASSOC][AUTHORIZED]\\naid=5\\ncapability=0x431\\nlisten_interval=10\\n\nentry 2\nwlan0 tx b00000000200000000bb0200000000010200000000010000000002000000\nentry 3\nwlan0 install 02:00:00:00:00:bb 1\nwlan0 tx 100000000200000000bb02000000000102000000000100000100000001c0010482848b96\n";

// The copied station has the identifier that it had, and the next new one gets the least above 0 that is free.
#[test]
fn a_copy_goes_on_with_its_station(rt: HostRuntime) {
    let old = "joined_store_of_an_upgrade_test";
    let new = "copied_store_of_an_upgrade_test";
    remove_any(&rt, new);
    make_old_store(&rt, old);
    put_over(&rt, old, 64, HALF);
    expect_upgrade(&rt, old, new, COPIED);
    expect_script(&rt, new, GOES_ON, GONE_ON);
    remove(&rt, old);
    remove(&rt, new);
}

// OLD and NEW may not be names of one file.
#[test]
fn one_file_by_two_names(rt: HostRuntime) {
    let old = "one_store_of_an_upgrade_test";
    let new = "./one_store_of_an_upgrade_test";
    let want = b"apd: cannot read ./one_store_of_an_upgrade_test\n";
    let bytes = make_old_store(&rt, old);
    expect_upgrade(&rt, old, new, want);
    expect_file(&rt, old, bytes.as_slice());
    remove(&rt, old);
}

const NOT_A_STORE: &[u8] = b"apd: not a store\n";

#[test]
fn refusals_of_an_upgrade(rt: HostRuntime) {
    let none = "no_store_of_an_upgrade_test";
    let old = "refused_store_of_an_upgrade_test";
    let new = "new_file_of_an_upgrade_test";
    remove_any(&rt, new);
    // A missing OLD makes no NEW.
    let want = b"apd: cannot read no_store_of_an_upgrade_test\n";
    expect_upgrade(&rt, none, new, want);
    expect_nothing(&rt, new);
    // A short OLD is no store, of whatever version; the NEW that was made is removed.
    write(&rt, old, b"RAPSTOR2");
    expect_upgrade(&rt, old, new, NOT_A_STORE);
    expect_nothing(&rt, new);
    // A NEW of another length is left as it was.
    make_old_store(&rt, old);
    write(&rt, new, b"short");
    expect_upgrade(&rt, old, new, NOT_A_STORE);
    expect_file(&rt, new, b"short");
    // A store of this version needs no copy.
    remove(&rt, new);
    expect_upgrade(&rt, old, new, COPIED);
    expect_upgrade(&rt, new, old, b"apd: store of version 2\n");
    remove(&rt, old);
    remove(&rt, new);
}

const TEXTS: &[(UpgradeFault, &str)] = &[
    (UpgradeFault::Store(StoreFault::NotAStore), "not a store"),
    (
        UpgradeFault::Store(StoreFault::NewVersion),
        "store of version 2",
    ),
    (UpgradeFault::Store(StoreFault::Damaged), "damaged store"),
    (UpgradeFault::Store(StoreFault::Device), "device fault"),
    (UpgradeFault::Writer, "writer fault"),
];

#[test]
fn faults_of_an_upgrade_are_printed_in_these_words(rt: HostRuntime) {
    for (fault, wanted) in TEXTS {
        expect_text(&rt, &CommandFault::Upgrade(*fault), wanted);
    }
}
