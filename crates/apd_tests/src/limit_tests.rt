//! Calls at the limits, with ample memory: a contract can't say that memory is left, so it lets a body through
//! that lacks it there.
use crate::calls::{address, addresses_of, copied_radios, lines_of_addresses};
use crate::expect::expect;
use apd_acl::Lists;
use apd_base::{Addr, Bssid, Station, Which};
use apd_conf::{ConfFault, Confs, ListFault, Required, read_conf, read_list};
use apd_frame::{Rates, Reply, ReplyBody, SsidField, encode};
use apd_record::{Change, read_all, write};
use std::alloc::Global;
use std::process::Abort;

const OWN: Bssid = Bssid(Addr([2, 0, 0, 0, 0, 1]));

// The frame of a probe response.
fn probe_response(
    rt: &impl Abort,
    alloc: Global,
    name: Vec<u8>,
    rates: Rates,
    channel: Option<u8>,
) -> Vec<u8> {
    let ssid = SsidField::from_vec(name).expect(rt, "32 bytes are an SSID");
    let body = ReplyBody::Probe {
        beacon_interval: 65535,
        ssid,
        rates,
        channel,
    };
    let reply = Reply {
        to: address(0, 0xaa),
        bssid: OWN,
        body,
    };
    encode(alloc, &reply).expect(rt, "memory")
}

// An SSID of 32 bytes.
fn longest_name(rt: &impl Abort, alloc: Global) -> Vec<u8> {
    vec![in alloc; 0xff; 32].expect(rt, "memory")
}

// The element of that SSID, and these elements behind it.
fn elements(rt: &impl Abort, alloc: Global, behind: &[u8]) -> Vec<u8> {
    let name = longest_name(rt, alloc);
    let mut bytes = Vec::from_slice(alloc, &[0, 32]).expect(rt, "memory");
    for part in [name.as_slice(), behind] {
        bytes.extend_from_slice(part).expect(rt, "memory");
    }
    bytes
}

// The response has the SSID of 32 bytes, and these elements behind it.
fn check_probe_response(
    rt: &impl Abort,
    alloc: Global,
    rates: Rates,
    channel: Option<u8>,
    behind: &[u8],
) {
    let wanted = elements(rt, alloc, behind);
    let name = longest_name(rt, alloc);
    let frame = probe_response(rt, alloc, name, rates, channel);
    expect(rt, frame.get(36..), Some(wanted.as_slice()));
}

// Bands a, b and g: Supported Rates, and behind them a DSSS Parameter Set in the last two.
#[test]
fn a_probe_response_with_the_longest_ssid(rt: HostRuntime) {
    let ofdm = [1, 3, 0x8c, 0x98, 0xb0];
    check_probe_response(&rt, rt.alloc(), Rates::Ofdm, None, &ofdm);
    let last = [1, 4, 0x82, 0x84, 0x8b, 0x96, 3, 1, 14];
    check_probe_response(&rt, rt.alloc(), Rates::HrDsss, Some(14), &last);
    let sixth = [1, 4, 0x82, 0x84, 0x8b, 0x96, 3, 1, 6];
    check_probe_response(&rt, rt.alloc(), Rates::HrDsss, Some(6), &sixth);
}

// So many rows, each of 20 bytes.
fn rows(rt: &impl Abort, alloc: Global, count: u16) -> Vec<Change> {
    let mut changes = Vec::new(alloc);
    for number in 0..count {
        let put = Change::Put {
            bssid: OWN,
            addr: address(0, number),
            station: Station::Authenticated,
        };
        changes.push(put).expect(rt, "memory");
    }
    changes
}

// What the records of these bytes are.
fn read(rt: &impl Abort, alloc: Global, bytes: &[u8]) -> Vec<Change> {
    let records = read_all(alloc, bytes).expect(rt, "memory");
    records.expect(rt, "records")
}

#[test]
fn records_of_more_than_65536_bytes(rt: HostRuntime) {
    let changes = rows(&rt, rt.alloc(), 3277);
    let bytes = write(rt.alloc(), &changes).expect(&rt, "memory");
    expect(&rt, bytes.len(), 65_540);
    let found = read(&rt, rt.alloc(), &bytes);
    expect(&rt, found.len(), 3277);
    expect(&rt, found.as_slice(), changes.as_slice());
}

// Adds addresses to a list, from the last number down.
fn fill(rt: &impl Abort, lists: &mut Lists, which: Which, count: u16) {
    for number in 0..count {
        let addr = address(0, count - 1 - number);
        lists.add(which, addr).expect(rt, "memory");
    }
}

#[test]
fn lists_of_1024_addresses_and_one_more(rt: HostRuntime) {
    let mut lists = Lists::new(rt.alloc());
    fill(&rt, &mut lists, Which::Accept, 1024);
    fill(&rt, &mut lists, Which::Deny, 1024);
    expect(&rt, lists.len(Which::Accept), 1024);
    expect(&rt, lists.len(Which::Deny), 1024);
    // The limit is the table's: a list itself takes one more.
    let added = lists.add(Which::Deny, address(0, 1024));
    added.expect(&rt, "memory");
    expect(&rt, lists.len(Which::Accept), 1024);
    expect(&rt, lists.len(Which::Deny), 1025);
    let last = lists.after(Which::Deny, address(0, 1023));
    expect(&rt, last, Some(address(0, 1024)));
}

const RADIOS: [(&str, u8); 8] = [
    ("s", 1),
    ("t", 2),
    ("u", 3),
    ("v", 4),
    ("w", 5),
    ("x", 6),
    ("y", 7),
    ("z", 8),
];

// Expects each radio to be found by the name of its interface.
fn expect_found(rt: &impl Abort, confs: &Confs, radios: &[(&str, u8)]) {
    for (name, _) in radios {
        let found = confs.with_interface(name.as_bytes());
        let conf = found.expect(rt, "a configuration");
        expect(rt, conf.interface.as_str(), *name);
    }
}

#[test]
fn eight_configurations_are_copied(rt: HostRuntime) {
    let copy = copied_radios(&rt, rt.alloc(), &RADIOS);
    expect(&rt, copy.list().len(), 8);
    expect_found(&rt, &copy, &RADIOS);
}

// 199 lines without a fault, and then this.
fn behind_199_lines(rt: &impl Abort, alloc: Global, line: &[u8]) -> Vec<u8> {
    let mut file = Vec::new(alloc);
    for number in 0..200 {
        let next = if number < 199 {
            b"max_num_sta=2007\n".as_slice()
        } else {
            line
        };
        file.extend_from_slice(next).expect(rt, "memory");
    }
    file
}

// A line is faulty behind those.
fn expect_fault(rt: &impl Abort, alloc: Global, line: &[u8], wanted: ConfFault) {
    let file = behind_199_lines(rt, alloc, line);
    let answer = read_conf(alloc, &file);
    expect(rt, answer.err(), Some(wanted));
}

#[test]
fn a_fault_in_line_200_of_a_configuration(rt: HostRuntime) {
    for (line, fault) in [
        (b"ssid".as_slice(), ConfFault::NoEquals(200)),
        (b"name=net", ConfFault::Unknown(200)),
        (b"max_num_sta=2008", ConfFault::BadValue(200)),
        (b"wpa=2", ConfFault::Security(200)),
        (b"interface=wlan0", ConfFault::Missing(Required::Bssid)),
    ] {
        expect_fault(&rt, rt.alloc(), line, fault);
    }
}

// 1024 addresses, of which one is taken away, so that one more has room.
fn full_list_file(rt: &impl Abort, alloc: Global) -> Vec<u8> {
    let mut file = lines_of_addresses(rt, alloc, 0, 1024);
    let last = b"-02:00:00:00:00:07\n02:00:00:00:ff:ff\n";
    file.extend_from_slice(last).expect(rt, "memory");
    file
}

// It is taken with all of them.
fn expect_full(rt: &impl Abort, alloc: Global, file: &[u8]) {
    let list = addresses_of(rt, alloc, file);
    let addresses = list.as_slice();
    expect(rt, addresses.len(), 1024);
    expect(rt, addresses.last(), Some(&address(0, 0xffff)));
}

#[test]
fn a_list_file_with_1025_addresses(rt: HostRuntime) {
    let mut file = full_list_file(&rt, rt.alloc());
    expect_full(&rt, rt.alloc(), &file);
    let more = b"02:00:00:00:00:07\nx";
    file.extend_from_slice(more).expect(&rt, "memory");
    let answer = read_list(rt.alloc(), &file);
    expect(&rt, answer.err(), Some(ListFault::TooMany));
}
