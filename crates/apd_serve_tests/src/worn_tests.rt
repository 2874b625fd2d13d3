//! A store that is worn out.
use crate::hearing::Hearing;
use crate::serving_tests::{LENGTH, NEVER, serves_over};
use crate::talk::{AUTHENTICATION, CONTROL, Datagram, Line, RADIO};
use apd_disk::{MemDisk, OnceDisk};
use std::alloc::Global;
use std::process::Abort;

/// The record of the built-in policy of the one BSSID.
const POLICY: &[u8] = &[6, 2, 0, 0, 0, 0, 1, 0, 0xd7, 7];

/// So many of it fill a half but for the groups of a start.
const POLICIES: u32 = 104_853;

/// What is told of it.
const WORN: &str =
    "[ERROR apd] the store is worn out: nothing more is made durable, and what would change the table is refused; end it, and start it on a new store\n";

fn add(rt: &impl Abort, bytes: &mut Vec<u8>, more: &[u8]) {
    bytes.extend_from_slice(more).expect(rt, "memory");
}

fn pad(rt: &impl Abort, bytes: &mut Vec<u8>, length: usize) {
    bytes.resize(length, 0).expect(rt, "memory");
}

/// The bytes of a store whose half A is nearly full, and of the greatest epoch.
fn worn_bytes(rt: &impl Abort, alloc: Global) -> Vec<u8> {
    let mut bytes = Vec::new(alloc);
    add(rt, &mut bytes, b"RAPSTOR2");
    pad(rt, &mut bytes, 64);
    add(rt, &mut bytes, &[1]);
    add(rt, &mut bytes, &u64::MAX.to_le_bytes());
    add(rt, &mut bytes, &1_048_530_u32.to_le_bytes());
    for _record in 0..POLICIES {
        add(rt, &mut bytes, POLICY);
    }
    pad(rt, &mut bytes, LENGTH);
    bytes
}

fn worn_disk(rt: &impl Abort, alloc: Global) -> OnceDisk<MemDisk> {
    let disk = MemDisk::new(alloc, worn_bytes(rt, alloc)).expect(rt, "memory");
    OnceDisk::new(disk, NEVER)
}

// The second order is refused at once; a query is answered.
#[test]
fn a_worn_out_store_is_told_once(rt: HostRuntime) {
    const LINES: &[Line] = &[
        Line::Sends(0, RADIO, Datagram::Hex(AUTHENTICATION)),
        Line::GetsNothing(0),
        Line::Sends(
            1,
            CONTROL,
            Datagram::Text("DENY_ACL ADD_MAC 02:00:00:00:00:ab"),
        ),
        Line::Gets(1, CONTROL, Datagram::Text("FAIL\n")),
        Line::Sends(1, CONTROL, Datagram::Text("PING")),
        Line::Gets(1, CONTROL, Datagram::Text("PONG\n")),
    ];
    let hearing = Hearing::new(rt, rt.alloc());
    let device = worn_disk(&rt, rt.alloc());
    serves_over(&hearing, rt.alloc(), device, LINES, 1);
    hearing.expect_heard(WORN);
}
