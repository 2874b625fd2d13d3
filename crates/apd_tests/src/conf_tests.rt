use crate::calls::{addresses_of, built_in_conf, copied_radios, radios};
use crate::expect::{expect, expect_printed};
use apd_base::{AclMode, Addr, Bssid};
use apd_conf::{AddressList, Conf, ConfFault, Confs, ConfsFault, FileName, ListFault, Required};
use std::alloc::Global;
use std::process::Abort;

#[test]
fn the_built_in_policy_allows_all(rt: HostRuntime) {
    let conf = built_in_conf(&rt, rt.alloc());
    let policy = conf.policy();
    expect(&rt, conf.auth_algs.allows_open(), true);
    expect(&rt, policy.max.number, 2007);
    expect(&rt, policy.mode, AclMode::AcceptUnlessDenied);
}

// A copy, in place of the configuration.
fn copy_of(rt: &impl Abort, alloc: Global, conf: Conf) -> Conf {
    conf.copy(alloc).expect(rt, "a copy")
}

// The name of a list file.
fn file_name(rt: &impl Abort, alloc: Global, name: &str) -> Option<FileName> {
    assert!(rt; FileName::is_name(name));
    Some(FileName::new(name, alloc).expect(rt, "memory"))
}

// The name that is given, in each of its forms.
fn expect_named(rt: &impl Abort, alloc: Global, name: &Option<FileName>, wanted: &str) {
    let name = name.as_ref().expect(rt, "a name");
    expect(rt, name.as_str(), wanted);
    expect(rt, name.as_bytes(), wanted.as_bytes());
    let printed = format!(in alloc; "{name}").expect(rt, "memory");
    expect(rt, printed.as_str(), wanted);
}

// A configuration that names both list files.
fn named_conf(rt: &impl Abort, alloc: Global) -> Conf {
    let mut conf = built_in_conf(rt, alloc);
    conf.accept_mac_file = file_name(rt, alloc, "a/accept");
    conf.deny_mac_file = file_name(rt, alloc, "deny");
    conf
}

#[test]
fn a_copy_has_the_names_of_both_list_files(rt: HostRuntime) {
    let alloc = rt.alloc();
    let copy = copy_of(&rt, alloc, named_conf(&rt, alloc));
    expect_named(&rt, alloc, &copy.accept_mac_file, "a/accept");
    expect_named(&rt, alloc, &copy.deny_mac_file, "deny");
    expect(&rt, FileName::is_name(""), false);
}

// A configuration with an address on each list.
fn listed_conf(rt: &impl Abort, alloc: Global) -> Conf {
    let accept = addresses_of(rt, alloc, b"02:00:00:00:00:aa");
    let deny = addresses_of(rt, alloc, b"02:00:00:00:00:bb");
    let mut conf = built_in_conf(rt, alloc);
    conf.set_lists(accept, deny);
    conf
}

// A list has the address of this last byte alone.
fn expect_one(rt: &impl Abort, list: &AddressList, last: u8) {
    let wanted = [Addr([2, 0, 0, 0, 0, last])];
    expect(rt, list.as_slice(), wanted.as_slice());
}

#[test]
fn a_copy_has_both_lists(rt: HostRuntime) {
    let alloc = rt.alloc();
    let copy = copy_of(&rt, alloc, listed_conf(&rt, alloc));
    expect_one(&rt, &copy.accept, 0xaa);
    expect_one(&rt, &copy.deny, 0xbb);
}

/// Why a list is refused.
fn fault_of(list: Vec<Conf>) -> Option<ConfsFault> {
    Confs::new(list).err()
}

#[test]
fn a_list_of_configurations_is_refused_for_the_first_reason(rt: HostRuntime) {
    let nine = [("a", 1); 9];
    for (of, want) in [
        ([].as_slice(), ConfsFault::Empty),
        (nine.as_slice(), ConfsFault::TooMany),
        (
            [("a", 1), ("b", 1), ("a", 2), ("b", 3)].as_slice(),
            ConfsFault::SameInterface(2),
        ),
        (
            [("a", 1), ("b", 2), ("c", 2), ("d", 1)].as_slice(),
            ConfsFault::SameBssid(2),
        ),
    ] {
        let fault = fault_of(radios(&rt, rt.alloc(), of));
        expect(&rt, fault, Some(want));
    }
}

const EIGHT: [(&str, u8); 8] = [
    ("a", 1),
    ("b", 2),
    ("c", 3),
    ("d", 4),
    ("e", 5),
    ("f", 6),
    ("g", 7),
    ("h", 8),
];

#[test]
fn eight_configurations_are_taken(rt: HostRuntime) {
    let confs = copied_radios(&rt, rt.alloc(), &EIGHT);
    expect(&rt, confs.list().len(), 8);
    let third = confs.with_bssid(Bssid(Addr([2, 0, 0, 0, 0, 3])));
    expect(&rt, third.map(|conf| conf.interface.as_str()), Some("c"));
    let last = confs.with_interface(b"h");
    expect(&rt, last.map(|conf| conf.bssid.0.0[5]), Some(8));
}

const CONF_FAULTS: [(ConfFault, &str); 8] = [
    (ConfFault::NoEquals(3), "line 3: no '='"),
    (ConfFault::Unknown(1), "line 1: unknown name"),
    (ConfFault::BadValue(12), "line 12: bad value"),
    (ConfFault::Security(2), "line 2: security is not supported"),
    (ConfFault::Missing(Required::Interface), "missing interface"),
    (ConfFault::Missing(Required::Bssid), "missing bssid"),
    (ConfFault::Missing(Required::Ssid), "missing ssid"),
    (ConfFault::NoMemory, "out of memory"),
];

#[test]
fn a_fault_of_a_configuration_file_is_printed_in_these_words(rt: HostRuntime) {
    expect_printed(&rt, rt.alloc(), &CONF_FAULTS);
}

const LIST_FAULTS: [(ListFault, &str); 3] = [
    (ListFault::BadAddress(3), "line 3: bad address"),
    (ListFault::TooMany, "too many addresses"),
    (ListFault::NoMemory, "out of memory"),
];

#[test]
fn a_fault_of_a_list_file_is_printed_in_these_words(rt: HostRuntime) {
    expect_printed(&rt, rt.alloc(), &LIST_FAULTS);
}

const CONFS_FAULTS: [(ConfsFault, &str); 4] = [
    (ConfsFault::Empty, "no configuration"),
    (ConfsFault::TooMany, "too many interfaces"),
    (ConfsFault::SameInterface(1), "interface given twice"),
    (ConfsFault::SameBssid(1), "bssid given twice"),
];

#[test]
fn a_fault_of_a_list_of_configurations_is_printed_in_these_words(rt: HostRuntime) {
    expect_printed(&rt, rt.alloc(), &CONFS_FAULTS);
}
