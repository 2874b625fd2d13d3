//! What tests of slots are made of.
use crate::slot_calls::{change, replace};
use apd_base::{AclMode, Addr, Aid, Association, Bssid, Policy, Sequence, Station, StationNumber};
use apd_mlme::Out;
use apd_radio::{Radio, Replaying};
use apd_record::Change;
use apd_slot::Slot;
use apd_table::Table;
use std::alloc::Global;
use std::process::Abort;

pub(crate) const WLAN0: Bssid = Bssid(Addr([2, 0, 0, 0, 0, 1]));

pub(crate) const WLAN1: Bssid = Bssid(Addr([2, 0, 0, 0, 0, 2]));

pub(crate) const FIRST: Addr = Addr([2, 0, 0, 0, 0, 0xaa]);

pub(crate) const SECOND: Addr = Addr([2, 0, 0, 0, 0, 0xbb]);

/// The response to its association, under the identifier 1.
pub(crate) const ASSOCIATED: [u8; 36] = [
    0x10, 0, 0, 0, 2, 0, 0, 0, 0, 0xaa, 2, 0, 0, 0, 0, 1, 2, 0, 0, 0, 0, 1, 0, 0, 1, 0, 0, 0, 1,
    0xc0, 1, 4, 0x82, 0x84, 0x8b, 0x96,
];

pub(crate) fn replace_radio<R: Radio>(rt: &impl Abort, slot: &mut Slot<R>, radio: R) -> R
where
    R: Drop,
{
    replace(slot, radio)
        .ok()
        .expect(rt, "a radio that is replaced")
}

/// A radio that replays these lines.
pub(crate) fn replaying(rt: &impl Abort, alloc: Global, lines: &[u8]) -> Replaying {
    Replaying::new(alloc, lines).expect(rt, "a recording")
}

pub(crate) fn frame(rt: &impl Abort, alloc: Global, bytes: &[u8]) -> Out {
    let bytes = Vec::from_slice(alloc, bytes).expect(rt, "memory");
    Out::Frame(Sequence::from_vec(bytes))
}

fn identifier(rt: &impl Abort, number: u16) -> Aid {
    Aid::new(number).expect(rt, "an identifier")
}

/// What installs a station under this identifier.
pub(crate) fn install(rt: &impl Abort, addr: Addr, number: u16) -> Out {
    Out::Install(addr, identifier(rt, number))
}

fn make(rt: &impl Abort, table: &mut Table, to: &Change) {
    change(table, to).expect(rt, "a change that is made");
}

fn put(rt: &impl Abort, table: &mut Table, bssid: Bssid, addr: Addr, station: Station) {
    let row = Change::Put {
        bssid,
        addr,
        station,
    };
    make(rt, table, &row);
}

/// Gives a table the policy of a BSSID.
fn open(rt: &impl Abort, table: &mut Table, bssid: Bssid) {
    let mode = AclMode::AcceptUnlessDenied;
    let max = StationNumber::new(2007).expect(rt, "a limit");
    let policy = Policy { mode, max };
    make(rt, table, &Change::Policy { bssid, policy });
}

/// What a station is that is associated under this identifier.
fn associated(rt: &impl Abort, number: u16) -> Station {
    Station::Associated(Association {
        aid: identifier(rt, number),
        capability: 1,
        listen_interval: 5,
    })
}

/// Makes the first station authenticated at wlan0, and both associated at wlan1.
fn fill(rt: &impl Abort, table: &mut Table) {
    open(rt, table, WLAN0);
    open(rt, table, WLAN1);
    put(rt, table, WLAN0, FIRST, Station::Authenticated);
    put(rt, table, WLAN1, SECOND, associated(rt, 2));
    put(rt, table, WLAN1, FIRST, associated(rt, 1));
}

/// A table in which they are.
pub(crate) fn table(rt: &impl Abort, alloc: Global) -> Table {
    let mut table = Table::new(alloc);
    fill(rt, &mut table);
    table
}
