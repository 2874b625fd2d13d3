//! The largest events, each once: a contract can't say that memory and time are left for them.
use crate::calls::{
    RADIO, address, associated, closed_start, confs_in_mode, frame_of, lines_of_addresses,
    policy_of, start, table_of, takes,
};
use crate::expect::expect;
use apd_base::{AclMode, Addr, Station, Which};
use apd_mlme::{Decision, Out};
use apd_record::{Change, write};
use apd_table::Table;
use std::alloc::Global;
use std::process::Abort;

// How many addresses both lists of the radio have.
fn list_lengths(table: &Table) -> Option<[usize; 2]> {
    let lists = table.lists(RADIO)?;
    Some([lists.len(Which::Accept), lists.len(Which::Deny)])
}

// What a first start with two full lists brings about.
fn full_start(rt: &impl Abort, alloc: Global, table: &Table) -> Decision {
    let confs = confs_in_mode(rt, alloc, AclMode::AcceptUnlessDenied);
    let accept = lines_of_addresses(rt, alloc, 1, 1024);
    let deny = lines_of_addresses(rt, alloc, 2, 1024);
    start(
        rt,
        alloc,
        table,
        &confs,
        [accept.as_slice(), deny.as_slice()],
    )
}

// How many bytes the records of changes have.
fn record_bytes(rt: &impl Abort, alloc: Global, changes: &[Change]) -> usize {
    write(alloc, changes).expect(rt, "memory").len()
}

// One policy of 10 bytes and 2,048 addresses of 14.
fn expect_full_lists(rt: &impl Abort, alloc: Global, decision: &Decision) {
    let changes = decision.changes.as_slice();
    expect(rt, (changes.len(), decision.outs.len()), (2_049, 0));
    expect(rt, record_bytes(rt, alloc, changes), 28_682);
}

#[test]
fn a_first_start_with_two_full_lists(rt: HostRuntime) {
    let mut table = Table::new(rt.alloc());
    let decision = full_start(&rt, rt.alloc(), &table);
    expect_full_lists(&rt, rt.alloc(), &decision);
    takes(&rt, &mut table, decision.changes.as_slice());
    expect(&rt, list_lengths(&table), Some([1024, 1024]));
}

// A table in which the radio is full: of its 2,007 stations the last one is associated.
fn full_table(rt: &impl Abort, alloc: Global) -> Table {
    let mut table = table_of(rt, alloc, &[policy_of(RADIO, AclMode::AcceptUnlessDenied)]);
    for number in 0..2007 {
        let station = if number < 2006 {
            Station::Authenticated
        } else {
            associated(rt, 1, 1, 10)
        };
        let put = Change::Put {
            bssid: RADIO,
            addr: address(1, number),
            station,
        };
        takes(rt, &mut table, &[put]);
    }
    table
}

// A deauthentication by the radio, with reason 1.
fn deauthentication(station: Addr) -> [u8; 26] {
    let [a, b, c, d, e, f] = station.0;
    [
        0xc0, 0, 0, 0, a, b, c, d, e, f, 2, 0, 0, 0, 0, 1, 2, 0, 0, 0, 0, 1, 0, 0, 1, 0,
    ]
}

// Whether an out deauthenticates a station.
fn is_deauthentication(out: &Out, station: Addr) -> bool {
    frame_of(out) == Some(&deauthentication(station))
}

// How many of the outs deauthenticate the stations in their order, each once.
fn count_deauthentications(decision: &Decision) -> u16 {
    let mut next = 0;
    for (_, out) in decision.outs.as_slice() {
        if next < 2007 && is_deauthentication(out, address(1, next)) {
            next += 1;
        }
    }
    next
}

// A change and an out for each station, and one of each for the radio.
fn drops_all(rt: &impl Abort, table: &mut Table, decision: &Decision) {
    let changes = decision.changes.as_slice();
    expect(rt, (changes.len(), decision.outs.len()), (2_008, 2_008));
    expect(rt, count_deauthentications(decision), 2007);
    takes(rt, table, changes);
}

#[test]
fn a_start_that_drops_2007_stations(rt: HostRuntime) {
    let mut table = full_table(&rt, rt.alloc());
    expect(&rt, table.count(RADIO), 2007);
    let decision = closed_start(&rt, rt.alloc(), &table);
    drops_all(&rt, &mut table, &decision);
    expect(&rt, table.count(RADIO), 0);
    expect(&rt, table.policy(RADIO), Some((1, 2007)));
}
