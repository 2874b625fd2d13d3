//! What is decided, and what becomes of the table: who is let in, which identifier is given, what silence ends.
use crate::calls::{
    RADIO, address, associated, closed_start, confs_in_mode, cursor_of, frame_of, hear, start,
    table_of, takes,
};
use crate::expect::expect;
use apd_base::{AclMode, Addr, Sequence, Station, Which};
use apd_conf::Confs;
use apd_frame::{Authentication, Frame};
use apd_mlme::{Decision, Event, MAX_RECORD_BYTES, Out, decide};
use apd_record::Change;
use apd_table::Table;
use std::alloc::Global;
use std::process::Abort;

const STATION: Addr = Addr([2, 0, 0, 0, 0, 0xaa]);

/// A deauthentication of the station, with reason 1.
const DEAUTHENTICATION: [u8; 26] = [
    0xc0, 0, 0, 0, 2, 0, 0, 0, 0, 0xaa, 2, 0, 0, 0, 0, 1, 2, 0, 0, 0, 0, 1, 0, 0, 1, 0,
];

/// Decides the start of the radio with these list files, and makes its changes.
fn make_start(
    rt: &impl Abort,
    alloc: Global,
    table: &mut Table,
    confs: &Confs,
    files: [&[u8]; 2],
) -> Decision {
    let decision = start(rt, alloc, table, confs, files);
    takes(rt, table, decision.changes.as_slice());
    decision
}

/// The same without list files, of a configuration in mode 1.
fn starts_closed(rt: &impl Abort, alloc: Global, table: &mut Table) -> Decision {
    let decision = closed_start(rt, alloc, table);
    takes(rt, table, decision.changes.as_slice());
    decision
}

/// A configuration in mode 0.
fn open_confs(rt: &impl Abort, alloc: Global) -> Confs {
    confs_in_mode(rt, alloc, AclMode::AcceptUnlessDenied)
}

/// The table of a radio that was started without list files.
fn started(rt: &impl Abort, alloc: Global, open: &Confs) -> Table {
    let decision = start(rt, alloc, &Table::new(alloc), open, [b"", b""]);
    table_of(rt, alloc, decision.changes.as_slice())
}

/// Decides a frame of the station, and makes its changes.
fn make_heard(
    rt: &impl Abort,
    alloc: Global,
    table: &mut Table,
    confs: &Confs,
    frame: Frame<'_>,
) -> Decision {
    let decision = hear(rt, alloc, table, confs, frame);
    takes(rt, table, decision.changes.as_slice());
    decision
}

/// Decides an authentication request of the station, and makes its changes.
fn authenticate(rt: &impl Abort, alloc: Global, table: &mut Table, confs: &Confs) -> Decision {
    let request = Authentication {
        sender: STATION,
        algorithm: 0,
        transaction: 1,
        status: 0,
    };
    make_heard(rt, alloc, table, confs, Frame::Auth(request))
}

/// Decides an association request of the station, and makes its changes.
fn associate(rt: &impl Abort, alloc: Global, table: &mut Table, confs: &Confs) -> Decision {
    let request = apd_frame::Association {
        sender: STATION,
        capability: 0x431,
        listen_interval: 10,
        elements: b"\x00\x03net\x01\x04\x82\x84\x8b\x96",
    };
    make_heard(rt, alloc, table, confs, Frame::Assoc(request))
}

/// The frame of a decision that says no more than one.
fn only_frame(decision: &Decision) -> Option<&[u8]> {
    match decision.outs.as_slice() {
        [(_to, Out::Frame(frame))] => Some(frame.as_slice()),
        _ => None,
    }
}

/// What is expected of the station's row.
fn expect_station(rt: &impl Abort, table: &Table, station: Option<Station>) {
    expect(rt, table.get(RADIO, STATION), station);
}

/// The station is let in where it asks for authentication, or else is not there.
fn ask(rt: &impl Abort, alloc: Global, table: &mut Table, open: &Confs, station: Option<Station>) {
    drop(authenticate(rt, alloc, table, open));
    expect_station(rt, table, station);
}

/// What a start in mode 1 decides, where it ends the station.
fn expect_ending(rt: &impl Abort, decision: &Decision) {
    let drop = Change::Drop {
        bssid: RADIO,
        addr: STATION,
    };
    let changes = &decision.changes;
    expect(rt, (changes.len(), first(changes)), (2, Some(drop)));
    expect(rt, only_frame(decision), Some(&DEAUTHENTICATION));
}

/// A start in mode 1 ends the station.
fn close(rt: &impl Abort, alloc: Global, table: &mut Table) {
    let decision = starts_closed(rt, alloc, table);
    expect_ending(rt, &decision);
    expect_station(rt, table, None);
}

#[test]
fn a_start_in_mode_1_ends_a_station_that_mode_0_let_in(rt: HostRuntime) {
    let alloc = rt.alloc();
    let open = open_confs(&rt, alloc);
    let mut table = started(&rt, alloc, &open);
    ask(&rt, alloc, &mut table, &open, Some(Station::Authenticated));
    close(&rt, alloc, &mut table);
}

/// The station on the deny list, and on the accept list.
const DENY: Change = Change::ListAdd {
    bssid: RADIO,
    which: Which::Deny,
    addr: STATION,
};

const ACCEPT: Change = Change::ListAdd {
    bssid: RADIO,
    which: Which::Accept,
    addr: STATION,
};

/// A deny list keeps the station out, and an accept list lets it in, in both modes.
#[test]
fn lists_say_who_is_let_in(rt: HostRuntime) {
    let alloc = rt.alloc();
    let open = open_confs(&rt, alloc);
    let mut table = started(&rt, alloc, &open);
    takes(&rt, &mut table, &[DENY]);
    ask(&rt, alloc, &mut table, &open, None);
    takes(&rt, &mut table, &[ACCEPT]);
    ask(&rt, alloc, &mut table, &open, Some(Station::Authenticated));
    drop(starts_closed(&rt, alloc, &mut table));
    expect_station(&rt, &table, Some(Station::Authenticated));
}

fn first(changes: &Sequence<Change>) -> Option<Change> {
    changes.as_slice().first().copied()
}

/// What a first start takes over behind its policy.
const TAKEN_OVER: [Change; 3] = [
    ACCEPT,
    Change::ListAdd {
        bssid: RADIO,
        which: Which::Accept,
        addr: Addr([2, 0, 0, 0, 0, 0xbb]),
    },
    Change::ListAdd {
        bssid: RADIO,
        which: Which::Deny,
        addr: Addr([2, 0, 0, 0, 0, 0xcc]),
    },
];

/// A start in mode 0 with these list files takes them over, and gives its first change, the policy.
fn expect_taken_over(
    rt: &impl Abort,
    alloc: Global,
    table: &mut Table,
    open: &Confs,
    files: [&[u8]; 2],
) -> Option<Change> {
    let began = make_start(rt, alloc, table, open, files);
    expect(rt, began.changes.as_slice().get(1..), Some(&TAKEN_OVER));
    first(&began.changes)
}

/// A later start with these list files makes this change alone.
fn expect_one_change(
    rt: &impl Abort,
    alloc: Global,
    table: &mut Table,
    open: &Confs,
    (files, change): ([&[u8]; 2], Option<Change>),
) {
    let later = make_start(rt, alloc, table, open, files);
    let changes = &later.changes;
    expect(rt, (changes.len(), first(changes)), (1, change));
}

/// Two starts in mode 0, the second with the list files the other way round.
#[test]
fn lists_come_with_the_first_start_alone(rt: HostRuntime) {
    let alloc = rt.alloc();
    let accept = b"02:00:00:00:00:bb\n02:00:00:00:00:aa\n".as_slice();
    let deny = b"02:00:00:00:00:cc\n".as_slice();
    let open = open_confs(&rt, alloc);
    let mut table = Table::new(alloc);
    let policy = expect_taken_over(&rt, alloc, &mut table, &open, [accept, deny]);
    expect_one_change(&rt, alloc, &mut table, &open, ([deny, accept], policy));
}

/// An authentication response to the station: Open System, transaction number 2, status 17.
const NO_MORE_STATIONS: [u8; 30] = [
    0xb0, 0, 0, 0, 2, 0, 0, 0, 0, 0xaa, 2, 0, 0, 0, 0, 1, 2, 0, 0, 0, 0, 1, 0, 0, 0, 0, 2, 0, 17, 0,
];

/// A station of its own for each identifier.
fn member(rt: &impl Abort, number: u16) -> Change {
    Change::Put {
        bssid: RADIO,
        addr: address(1, number),
        station: associated(rt, number, 0x431, 10),
    }
}

/// A first start with two full lists: a policy of 10 bytes, and 2,048 addresses of 14.
#[test]
fn the_most_records_of_an_event(rt: HostRuntime) {
    expect(&rt, MAX_RECORD_BYTES, 28_682);
}

/// Others get all identifiers but this one.
fn others_come(rt: &impl Abort, table: &mut Table, but: u16) {
    for number in 1..=2007 {
        if number != but {
            takes(rt, table, &[member(rt, number)]);
        }
    }
}

/// What is expected of the number of stations, and of the least identifier that is free.
fn expect_room(rt: &impl Abort, table: &Table, count: usize, free: Option<u16>) {
    expect(
        rt,
        (table.count(RADIO), table.least_free(RADIO)),
        (count, free),
    );
}

/// The station is refused, and nothing changes.
fn expect_no_room(rt: &impl Abort, alloc: Global, table: &mut Table, open: &Confs) {
    let decision = authenticate(rt, alloc, table, open);
    expect(rt, decision.changes.len(), 0);
    expect(rt, only_frame(&decision), Some(&NO_MORE_STATIONS));
}

/// 2,007 others come, and then the station.
#[test]
fn the_2008th_station_finds_no_room(rt: HostRuntime) {
    let alloc = rt.alloc();
    let open = open_confs(&rt, alloc);
    let mut table = started(&rt, alloc, &open);
    others_come(&rt, &mut table, 2007);
    expect_room(&rt, &table, 2006, Some(2007));
    takes(&rt, &mut table, &[member(&rt, 2007)]);
    expect_room(&rt, &table, 2007, None);
    expect_no_room(&rt, alloc, &mut table, &open);
    expect_room(&rt, &table, 2007, None);
}

/// The station is associated under an identifier.
fn put_station(rt: &impl Abort, number: u16) -> Change {
    Change::Put {
        bssid: RADIO,
        addr: STATION,
        station: associated(rt, number, 0x431, 10),
    }
}

/// The station is authenticated alone.
const BACK: Change = Change::Put {
    bssid: RADIO,
    addr: STATION,
    station: Station::Authenticated,
};

/// The station associates, by these changes.
fn associates(rt: &impl Abort, alloc: Global, table: &mut Table, open: &Confs, changes: &[Change]) {
    let decision = associate(rt, alloc, table, open);
    expect(rt, decision.changes.as_slice(), changes);
}

/// The station, which was authenticated alone, gets an identifier, and keeps it.
fn gets_and_keeps(rt: &impl Abort, alloc: Global, table: &mut Table, open: &Confs, number: u16) {
    takes(rt, table, &[BACK]);
    let changes = [put_station(rt, number), cursor_of(rt, RADIO, number)];
    associates(rt, alloc, table, open, &changes);
    associates(rt, alloc, table, open, &[put_station(rt, number)]);
}

/// The station gets the identifiers behind 2006 in turn, and each is kept once.
#[test]
fn an_identifier_comes_with_a_cursor_and_is_kept_without(rt: HostRuntime) {
    let alloc = rt.alloc();
    let open = open_confs(&rt, alloc);
    let mut table = started(&rt, alloc, &open);
    takes(&rt, &mut table, &[cursor_of(&rt, RADIO, 2006)]);
    // Behind 2007 comes 1.
    for number in [2007, 1, 2] {
        gets_and_keeps(&rt, alloc, &mut table, &open, number);
    }
}

/// Others get all identifiers but this one, which was given last, and the station is authenticated.
fn give_all_but(rt: &impl Abort, table: &mut Table, number: u16) {
    others_come(rt, table, number);
    takes(rt, table, &[cursor_of(rt, RADIO, number), BACK]);
}

/// The station gets the last identifier again.
#[test]
fn where_no_other_is_free_the_last_one_is_given_again(rt: HostRuntime) {
    let alloc = rt.alloc();
    let open = open_confs(&rt, alloc);
    let mut table = started(&rt, alloc, &open);
    give_all_but(&rt, &mut table, 7);
    let changes = [put_station(&rt, 7), cursor_of(&rt, RADIO, 7)];
    associates(&rt, alloc, &mut table, &open, &changes);
    expect(&rt, table.next_free(RADIO), None);
}

/// The frame of a decision that lets the station go before it, and says no more.
fn frame_behind_removal(decision: &Decision) -> Option<&[u8]> {
    let outs = decision.outs.as_slice();
    let (_to, first) = outs.get(0)?;
    let (_other, second) = outs.get(1)?;
    match first {
        Out::Remove(addr) if *addr == STATION && outs.len() == 2 => frame_of(second),
        _ => None,
    }
}

/// Decides the silence of the station, and makes its changes.
fn expire(rt: &impl Abort, alloc: Global, table: &mut Table, confs: &Confs) -> Decision {
    assert!(rt; confs.with_bssid(RADIO).is_some());
    assert!(rt; table.policy(RADIO).is_some());
    let event = Event::Expire {
        bssid: RADIO,
        addr: STATION,
    };
    let decision = decide(alloc, table, confs, event).expect(rt, "memory");
    takes(rt, table, decision.changes.as_slice());
    decision
}

/// A disassociation of the station with reason 4, and a deauthentication with reason 2.
const INACTIVE: [u8; 26] = [
    0xa0, 0, 0, 0, 2, 0, 0, 0, 0, 0xaa, 2, 0, 0, 0, 0, 1, 2, 0, 0, 0, 0, 1, 0, 0, 4, 0,
];

const NO_LONGER_AUTHENTICATED: [u8; 26] = [
    0xc0, 0, 0, 0, 2, 0, 0, 0, 0, 0xaa, 2, 0, 0, 0, 0, 1, 2, 0, 0, 0, 0, 1, 0, 0, 2, 0,
];

/// The station, which is associated, is silent.
fn ends_association(rt: &impl Abort, alloc: Global, table: &mut Table, open: &Confs) {
    let decision = expire(rt, alloc, table, open);
    expect(rt, frame_behind_removal(&decision), Some(&INACTIVE));
    expect_station(rt, table, Some(Station::Authenticated));
}

/// It is silent once more.
fn ends_authentication(rt: &impl Abort, alloc: Global, table: &mut Table, open: &Confs) {
    let decision = expire(rt, alloc, table, open);
    expect(rt, only_frame(&decision), Some(&NO_LONGER_AUTHENTICATED));
    expect_station(rt, table, None);
}

/// It is gone: nothing is decided.
fn ends_nothing(rt: &impl Abort, alloc: Global, table: &mut Table, open: &Confs) {
    let decision = expire(rt, alloc, table, open);
    expect(rt, decision.is_nothing(), true);
}

/// The station is silent three times.
#[test]
fn silence_ends_an_association_and_then_an_authentication(rt: HostRuntime) {
    let alloc = rt.alloc();
    let open = open_confs(&rt, alloc);
    let mut table = started(&rt, alloc, &open);
    takes(&rt, &mut table, &[put_station(&rt, 1)]);
    ends_association(&rt, alloc, &mut table, &open);
    ends_authentication(&rt, alloc, &mut table, &open);
    ends_nothing(&rt, alloc, &mut table, &open);
}
