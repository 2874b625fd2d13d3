//! Calls whose contracts are long, and what several modules do alike, each by a function of its own. What a test
//! builds on has to be made: where it isn't, the test ends there.
use crate::expect::expect;
use apd_base::{AclMode, Addr, Aid, Association, Bssid, Policy, Station, StationNumber};
use apd_conf::{AddressList, Conf, Confs, InterfaceName, read_list};
use apd_frame::Frame;
use apd_mlme::{Decision, Event, Out, decide};
use apd_record::Change;
use apd_table::{Table, TableFault};
use std::alloc::Global;
use std::process::Abort;

/// The radio of the decisions.
pub const RADIO: Bssid = Bssid(Addr([2, 0, 0, 0, 0, 1]));

/// The built-in configuration.
pub fn built_in_conf(rt: &impl Abort, alloc: Global) -> Conf {
    Conf::built_in(alloc).expect(rt, "the built-in configuration")
}

/// A configuration alone.
pub fn confs_of(rt: &impl Abort, alloc: Global, conf: Conf) -> Confs {
    let list = vec![in alloc; conf].expect(rt, "memory");
    Confs::new(list).expect(rt, "a list of one configuration")
}

/// The built-in configuration, in another mode.
pub fn confs_in_mode(rt: &impl Abort, alloc: Global, mode: AclMode) -> Confs {
    let mut conf = built_in_conf(rt, alloc);
    conf.macaddr_acl = mode;
    confs_of(rt, alloc, conf)
}

// The built-in radio with this interface, and this last byte of its BSSID.
fn radio(rt: &impl Abort, alloc: Global, name: &str, last: u8) -> Conf {
    assert!(rt; InterfaceName::is_name(name.as_bytes()));
    let mut conf = built_in_conf(rt, alloc);
    conf.interface = InterfaceName::new(name, alloc).expect(rt, "memory");
    conf.bssid = Bssid(Addr([2, 0, 0, 0, 0, last]));
    conf
}

/// Radios with these interfaces, and with these last bytes of their BSSIDs.
pub fn radios(rt: &impl Abort, alloc: Global, of: &[(&str, u8)]) -> Vec<Conf> {
    let mut list = Vec::new(alloc);
    for (name, last) in of {
        let pushed = list.push(radio(rt, alloc, name, *last));
        pushed.ok().expect(rt, "memory");
    }
    list
}

/// A copy of a list of radios that is taken.
pub fn copied_radios(rt: &impl Abort, alloc: Global, of: &[(&str, u8)]) -> Confs {
    let confs = Confs::new(radios(rt, alloc, of));
    let confs = confs.expect(rt, "a list of configurations");
    confs.copy(alloc).expect(rt, "a copy")
}

/// An address of its own for each number, in a range of its own.
pub fn address(range: u8, number: u16) -> Addr {
    let [high, low] = number.to_be_bytes();
    Addr([2, 0, 0, range, high, low])
}

/// So many lines, each with an address of its own.
pub fn lines_of_addresses(rt: &impl Abort, alloc: Global, range: u8, count: u16) -> Vec<u8> {
    let mut file = Vec::new(alloc);
    for number in 0..count {
        let written = address(range, number).write_text(&mut file);
        written.expect(rt, "memory");
        file.push(b'\n').expect(rt, "memory");
    }
    file
}

/// The addresses of a list file that is taken.
pub fn addresses_of(rt: &impl Abort, alloc: Global, file: &[u8]) -> AddressList {
    read_list(alloc, file).expect(rt, "a list file")
}

/// The policy of a BSSID in a mode, for 2,007 stations.
pub fn policy_of(bssid: Bssid, mode: AclMode) -> Change {
    let max = StationNumber { number: 2007 };
    let policy = Policy { mode, max };
    Change::Policy { bssid, policy }
}

/// The identifier that a BSSID gave last.
pub fn cursor_of(rt: &impl Abort, bssid: Bssid, number: u16) -> Change {
    let last = StationNumber::new(number).expect(rt, "a number of stations");
    Change::Cursor { bssid, last }
}

/// A station that is associated under a number, with this capability and listen interval.
pub fn associated(rt: &impl Abort, number: u16, capability: u16, listen_interval: u16) -> Station {
    let aid = Aid::new(number).expect(rt, "an identifier");
    Station::Associated(Association {
        aid,
        capability,
        listen_interval,
    })
}

/// What a change is answered.
pub fn apply(table: &mut Table, change: &Change) -> Result<(), TableFault> {
    table.apply(change)
}

/// What several changes at once are answered.
pub fn apply_all(alloc: Global, table: &mut Table, changes: &[Change]) -> Result<(), TableFault> {
    table.apply_all(alloc, changes)
}

/// The identifier that a BSSID gives next.
pub fn next_free(table: &Table, bssid: Bssid) -> Option<u16> {
    table.next_free(bssid)
}

/// Makes changes one after another, each of which has to be taken.
pub fn takes(rt: &impl Abort, table: &mut Table, changes: &[Change]) {
    for change in changes {
        expect(rt, apply(table, change), Ok(()));
    }
}

/// Asks for changes, each of which has to be refused.
pub fn refuses(rt: &impl Abort, table: &mut Table, changes: &[Change]) {
    for change in changes {
        expect(rt, apply(table, change), Err(TableFault::Invalid));
    }
}

/// The table that changes lead to.
pub fn table_of(rt: &impl Abort, alloc: Global, changes: &[Change]) -> Table {
    let mut table = Table::new(alloc);
    takes(rt, &mut table, changes);
    table
}

/// What the start of the radio with these list files brings about.
pub fn start(
    rt: &impl Abort,
    alloc: Global,
    table: &Table,
    confs: &Confs,
    [accept_file, deny_file]: [&[u8]; 2],
) -> Decision {
    let accept = addresses_of(rt, alloc, accept_file);
    let deny = addresses_of(rt, alloc, deny_file);
    assert!(rt; confs.with_bssid(RADIO).is_some());
    assert!(rt; table.bss_count() < 8);
    let event = Event::Configure {
        bssid: RADIO,
        accept: accept.as_slice(),
        deny: deny.as_slice(),
    };
    decide(alloc, table, confs, event).expect(rt, "memory")
}

/// What it brings about with two empty lists, where the radio denies whom it doesn't accept.
pub fn closed_start(rt: &impl Abort, alloc: Global, table: &Table) -> Decision {
    let confs = confs_in_mode(rt, alloc, AclMode::DenyUnlessAccepted);
    start(rt, alloc, table, &confs, [b"", b""])
}

/// What a frame that the radio heard brings about.
pub fn hear(
    rt: &impl Abort,
    alloc: Global,
    table: &Table,
    confs: &Confs,
    frame: Frame<'_>,
) -> Decision {
    assert!(rt; confs.with_bssid(RADIO).is_some());
    assert!(rt; table.policy(RADIO).is_some());
    let decision = decide(alloc, table, confs, Event::Heard(RADIO, frame));
    decision.expect(rt, "memory")
}

/// The frame of an out, if it is one.
pub fn frame_of(out: &Out) -> Option<&[u8]> {
    match out {
        Out::Frame(frame) => Some(frame.as_slice()),
        Out::Install(..) | Out::Remove(_) | Out::Text(..) => None,
    }
}
