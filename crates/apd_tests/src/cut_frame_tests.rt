//! An association request that is cut short at each of its bytes.
use crate::calls::{RADIO, confs_in_mode, frame_of, hear, policy_of, table_of};
use crate::expect::expect;
use apd_base::{AclMode, Addr, Station};
use apd_conf::Confs;
use apd_frame::{Ignored, decode};
use apd_mlme::{Decision, Out};
use apd_record::Change;
use apd_table::Table;
use std::alloc::Global;
use std::process::Abort;

const STATION: Addr = Addr([2, 0, 0, 0, 0, 0xaa]);

/// The request of the station, to the network `net`, with the rates 1, 2, 5.5 and 11 Mb/s: 39 bytes.
const REQUEST: &[u8] =
    b"\0\0\0\0\x02\0\0\0\0\x01\x02\0\0\0\0\xaa\x02\0\0\0\0\x01\x20\0\x31\x04\x0a\0\0\x03net\x01\x04\x82\x84\x8b\x96";

const _: () = prove!(REQUEST.len() == 39);

// A table with the radio's policy, and the station authenticated.
fn table(rt: &impl Abort, alloc: Global) -> Table {
    let put = Change::Put {
        bssid: RADIO,
        addr: STATION,
        station: Station::Authenticated,
    };
    let open = policy_of(RADIO, AclMode::AcceptUnlessDenied);
    table_of(rt, alloc, &[open, put])
}

// The status code of an association response (IEEE Std 802.11-2016, 9.3.3.7), which stands behind the capability.
fn status(out: &Out) -> Option<u8> {
    let frame = frame_of(out)?;
    if frame.first() == Some(&0x10) {
        frame.get(26).copied()
    } else {
        None
    }
}

// The first status code that is told.
fn first_status(decision: &Decision) -> Option<u8> {
    for (_, out) in decision.outs.as_slice() {
        let code = status(out);
        if code.is_some() {
            return code;
        }
    }
    None
}

// Why bytes are ignored, or the status code that answers them.
fn outcome(
    rt: &impl Abort,
    alloc: Global,
    table: &Table,
    confs: &Confs,
    bytes: &[u8],
) -> (Option<Ignored>, Option<u8>) {
    match decode(bytes, RADIO) {
        Ok(frame) => {
            let decision = hear(rt, alloc, table, confs, frame);
            (None, first_status(&decision))
        }
        Err(ignored) => (Some(ignored), None),
    }
}

// The outcome of so many bytes of the request.
fn wanted_outcome(length: usize) -> (Option<Ignored>, Option<u8>) {
    match length {
        0..=23 => (Some(Ignored::Short), None),
        24..=27 => (Some(Ignored::Body), None),
        28..=38 => (None, Some(1)),
        _ => (None, Some(0)),
    }
}

// The outcome of the front of the request that has this length.
fn check_cut(rt: &impl Abort, alloc: Global, table: &Table, confs: &Confs, length: usize) {
    let bytes = REQUEST.get(..length).unwrap_or(&[]);
    let found = outcome(rt, alloc, table, confs, bytes);
    expect(rt, (length, found), (length, wanted_outcome(length)));
}

#[test]
fn a_cut_request_is_ignored_or_refused(rt: HostRuntime) {
    let confs = confs_in_mode(&rt, rt.alloc(), AclMode::AcceptUnlessDenied);
    let table = table(&rt, rt.alloc());
    for length in 0..=REQUEST.len() {
        check_cut(&rt, rt.alloc(), &table, &confs, length);
    }
}
