use crate::calls::{associated, built_in_conf, confs_of, policy_of, table_of};
use crate::expect::expect;
use apd_base::{AclMode, Addr, Bssid, Station, Which};
use apd_conf::{Confs, Ssid};
use apd_ctrl::{
    Command, FAIL, Interfaces, Parsed, Placed, Query, Refusal, UNKNOWN_COMMAND, escape,
    parse_command, place, reply,
};
use apd_frame::Reason;
use apd_mlme::{Edit, Event};
use apd_record::Change;
use apd_table::Table;
use std::alloc::Global;
use std::process::Abort;

const ADDRESS: Addr = Addr([2, 0, 0, 0, 0, 1]);

const BSSID: Bssid = Bssid(ADDRESS);

const OTHER: Bssid = Bssid(Addr([2, 0, 0, 0, 0, 2]));

const A: Addr = Addr([2, 0, 0, 0, 0, 0xaa]);

const B: Addr = Addr([2, 0, 0, 0, 0, 0xab]);

/// What a text is as a command.
fn parse(text: &[u8]) -> Parsed<'_> {
    parse_command(text)
}

/// Each text is this command, with no interface named.
fn expect_commands(rt: &impl Abort, rows: &[(&[u8], Command)]) {
    let interface = None;
    for (text, command) in rows {
        let command = *command;
        expect(rt, parse(text), Parsed::Command { interface, command });
    }
}

const QUERIES: [(&[u8], Command); 8] = [
    (b"PING", Command::Ping),
    (b"PING\n", Command::Ping),
    (b"STATUS", Command::Status),
    (b"STA 02:00:00:00:00:AA", Command::Sta(A)),
    (b"STA-FIRST", Command::StaFirst),
    (b"STA-NEXT 02:00:00:00:00:aa\n", Command::StaNext(A)),
    (b"ACCEPT_ACL SHOW", Command::Show(Which::Accept)),
    (b"DENY_ACL SHOW", Command::Show(Which::Deny)),
];

#[test]
fn queries_are_read(rt: HostRuntime) {
    expect_commands(&rt, &QUERIES);
}

const DISMISSALS: [(&[u8], Command); 5] = [
    (
        b"DISASSOCIATE 02:00:00:00:00:aa",
        Command::Disassociate {
            to: A,
            reason: Reason(2),
        },
    ),
    (
        b"DISASSOCIATE 02:00:00:00:00:aa reason=0",
        Command::Disassociate {
            to: A,
            reason: Reason(0),
        },
    ),
    (
        b"DISASSOCIATE 02:00:00:00:00:aa reason=00001",
        Command::Disassociate {
            to: A,
            reason: Reason(1),
        },
    ),
    (
        b"DISASSOCIATE 02:00:00:00:00:aa reason=65535",
        Command::Disassociate {
            to: A,
            reason: Reason(65535),
        },
    ),
    (
        b"DEAUTHENTICATE 02:00:00:00:00:aa",
        Command::Deauthenticate {
            to: A,
            reason: Reason(2),
        },
    ),
];

#[test]
fn dismissals_are_read(rt: HostRuntime) {
    expect_commands(&rt, &DISMISSALS);
}

const LIST_EDITS: [(&[u8], Command); 3] = [
    (
        b"ACCEPT_ACL ADD_MAC 02:00:00:00:00:aA",
        Command::ListEdit {
            which: Which::Accept,
            edit: Edit::Add(A),
        },
    ),
    (
        b"DENY_ACL DEL_MAC 02:00:00:00:00:ab",
        Command::ListEdit {
            which: Which::Deny,
            edit: Edit::Remove(B),
        },
    ),
    (
        b"DENY_ACL CLEAR",
        Command::ListEdit {
            which: Which::Deny,
            edit: Edit::Clear,
        },
    ),
];

#[test]
fn list_edits_are_read(rt: HostRuntime) {
    expect_commands(&rt, &LIST_EDITS);
}

#[test]
fn an_interface_is_named(rt: HostRuntime) {
    let command = Command::Ping;
    for (text, name) in [
        (b"IFNAME=wlan0 PING\n".as_slice(), b"wlan0".as_slice()),
        (b"IFNAME= PING", b""),
        (b"IFNAME=a=b PING", b"a=b"),
    ] {
        let interface = Some(name);
        expect(&rt, parse(text), Parsed::Command { interface, command });
    }
}

#[test]
fn words_are_unknown(rt: HostRuntime) {
    for text in [
        b"".as_slice(),
        b"\n",
        b"STA-LAST",
        b"ping",
        b" PING",
        b"PING\tx",
        b"PING\n\n",
        b"\xff\xfe",
        b"IFNAME=wlan0",
        b"IFNAME=wlan0 ",
        b"IFNAME=x FOO",
        b"IFNAME=a IFNAME=b PING",
        b"ifname=a PING",
    ] {
        expect(&rt, (text, parse(text)), (text, Parsed::Unknown));
    }
    expect(&rt, parse(b"FOO").refusal(), Some(UNKNOWN_COMMAND));
    expect(&rt, UNKNOWN_COMMAND, b"UNKNOWN COMMAND\n".as_slice());
}

// A text is a command with wrong arguments.
fn fails(rt: &impl Abort, text: &[u8]) {
    expect(rt, (text, parse(text)), (text, Parsed::Fail));
}

// Each of the texts is one.
fn all_fail(rt: &impl Abort, texts: &[&[u8]]) {
    for text in texts {
        fails(rt, text);
    }
}

const WRONG_ARGUMENTS: [&[u8]; 10] = [
    b"STA",
    b"STA-FIRST x",
    b"PING ",
    b"STA  02:00:00:00:00:aa",
    b"STA 02:00:00:00:00:aa ",
    b"DENY_ACL",
    b"DENY_ACL SHOW x",
    b"DENY_ACL show",
    b"ACCEPT_ACL ADD_MAC",
    b"IFNAME=x STA",
];

#[test]
fn arguments_fail(rt: HostRuntime) {
    all_fail(&rt, &WRONG_ARGUMENTS);
    expect(&rt, parse(b"STA").refusal(), Some(FAIL));
    expect(&rt, parse(b"PING").refusal(), None);
    expect(&rt, FAIL, b"FAIL\n".as_slice());
}

const WRONG_REASONS: [&[u8]; 8] = [
    b"DEAUTHENTICATE 02:00:00:00:00:aa reason=65536",
    b"DEAUTHENTICATE 02:00:00:00:00:aa reason=000001",
    b"DEAUTHENTICATE 02:00:00:00:00:aa reason=",
    b"DEAUTHENTICATE 02:00:00:00:00:aa reason=+1",
    b"DEAUTHENTICATE 02:00:00:00:00:aa  reason=1",
    b"DEAUTHENTICATE 02:00:00:00:00:aa reason=1 ",
    b"DEAUTHENTICATE  02:00:00:00:00:aa",
    b"DEAUTHENTICATE reason=1",
];

#[test]
fn reasons_fail(rt: HostRuntime) {
    all_fail(&rt, &WRONG_REASONS);
}

// So many bytes behind a front.
fn extended(rt: &impl Abort, alloc: Global, front: &[u8], count: usize) -> Vec<u8> {
    let mut text = Vec::from_slice(alloc, front).expect(rt, "memory");
    for _ in 0..count {
        text.push(b'x').expect(rt, "memory");
    }
    text
}

// A prefix whose name has this many bytes, and then `PING`.
fn long(rt: &impl Abort, alloc: Global, bytes: usize) -> Vec<u8> {
    let mut text = extended(rt, alloc, b"IFNAME=", bytes);
    text.extend_from_slice(b" PING").expect(rt, "memory");
    text
}

// Whether a text is a command.
fn is_read(text: &[u8]) -> bool {
    matches!(parse(text), Parsed::Command { .. })
}

#[test]
fn the_newline_is_not_counted(rt: HostRuntime) {
    let mut text = long(&rt, rt.alloc(), 4084);
    expect(&rt, (text.len(), is_read(&text)), (4096, true));
    text.push(b'\n').expect(&rt, "memory");
    expect(&rt, is_read(&text), true);
    text.push(b'\n').expect(&rt, "memory");
    fails(&rt, &text);
    let text = long(&rt, rt.alloc(), 4085);
    fails(&rt, &text);
}

// A word of this many bytes that is not known is refused by this text.
fn refuses(rt: &impl Abort, alloc: Global, bytes: usize, wanted: &[u8]) {
    let text = extended(rt, alloc, b"", bytes);
    expect(rt, parse(&text).refusal(), Some(wanted));
}

#[test]
fn the_length_is_looked_at_before_the_word(rt: HostRuntime) {
    refuses(&rt, rt.alloc(), 4096, UNKNOWN_COMMAND);
    refuses(&rt, rt.alloc(), 4097, FAIL);
}

#[test]
fn commands_are_placed(rt: HostRuntime) {
    let bssid = BSSID;
    let to = A;
    let reason = Reason(7);
    let tag = 9;
    for (command, deauth) in [
        (Command::Deauthenticate { to, reason }, true),
        (Command::Disassociate { to, reason }, false),
    ] {
        let kick = Event::Kick {
            bssid,
            to,
            reason,
            deauth,
            tag,
        };
        expect(&rt, command.at(BSSID, true, tag), Placed::Do(kick));
    }
    let status = Placed::Ask(Query::Status(BSSID, false));
    expect(&rt, Command::Status.at(BSSID, false, tag), status);
    expect(&rt, Query::Next(BSSID, A).bssid(), Some(BSSID));
    expect(&rt, Query::Ping.bssid(), None);
}

/// Two interfaces: the radio of the first one, `wlan0`, is up, that of `wlan1` is down.
struct TwoInterfaces;

impl Interfaces for TwoInterfaces {
    ghost finds = { λ _ _ _. Unit {0} };

    fn interface(&self, name: Option<&[u8]>) -> Option<(Bssid, bool)> {
        match name.unwrap_or(b"wlan0".as_slice()) {
            b"wlan0" => Some((BSSID, true)),
            b"wlan1" => Some((OTHER, false)),
            _ => None,
        }
    }
}

// What becomes of a text, with the tag 9.
fn becomes(rt: &impl Abort, text: &[u8], wanted: Result<Placed, Refusal>) {
    expect(rt, (text, place(&TwoInterfaces, 9, text)), (text, wanted));
}

#[test]
fn texts_are_placed_at_the_interface_that_they_mean(rt: HostRuntime) {
    let kick = Event::Kick {
        bssid: OTHER,
        to: A,
        reason: Reason(7),
        deauth: true,
        tag: 9,
    };
    let first = Query::Status(BSSID, true);
    let second = Query::Status(OTHER, false);
    becomes(&rt, b"PING", Ok(Placed::Ask(Query::Ping)));
    becomes(&rt, b"STATUS\n", Ok(Placed::Ask(first)));
    becomes(&rt, b"IFNAME=wlan0 STATUS", Ok(Placed::Ask(first)));
    becomes(&rt, b"IFNAME=wlan1 STATUS", Ok(Placed::Ask(second)));
    becomes(
        &rt,
        b"IFNAME=wlan1 DEAUTHENTICATE 02:00:00:00:00:aa reason=7",
        Ok(Placed::Do(kick)),
    );
    becomes(&rt, b"IFNAME=wlan2 STATUS", Err(Refusal::Fail));
    becomes(&rt, b"IFNAME=wlan1 STATUS now", Err(Refusal::Fail));
    becomes(&rt, b"IFNAME=wlan2 FOO", Err(Refusal::Unknown));
    becomes(&rt, b"IFNAME=wlan1", Err(Refusal::Unknown));
    expect(&rt, Refusal::Unknown.text(), UNKNOWN_COMMAND);
    expect(&rt, Refusal::Fail.text(), FAIL);
}

// The built-in configuration alone, with another name of the network.
fn confs(rt: &impl Abort, alloc: Global, ssid: &[u8]) -> Confs {
    assert!(rt; Ssid::is_name(ssid));
    let mut conf = built_in_conf(rt, alloc);
    conf.ssid = Ssid::new(ssid, alloc).expect(rt, "memory");
    confs_of(rt, alloc, conf)
}

fn put(addr: Addr, station: Station) -> Change {
    Change::Put {
        bssid: BSSID,
        addr,
        station,
    }
}

fn accept(addr: Addr) -> Change {
    Change::ListAdd {
        bssid: BSSID,
        which: Which::Accept,
        addr,
    }
}

// One station, associated with identifier 1, capability 0x431 and listen interval 10, and one more that is
// authenticated; both on the accept list.
fn table(rt: &impl Abort, alloc: Global) -> Table {
    let open = policy_of(BSSID, AclMode::AcceptUnlessDenied);
    let first = put(A, associated(rt, 1, 0x431, 10));
    let second = put(B, Station::Authenticated);
    let changes = [open, first, second, accept(B), accept(A)];
    table_of(rt, alloc, &changes)
}

const ASSOCIATED: &[u8] =
    b"02:00:00:00:00:aa\nflags=[AUTH][ASSOC][AUTHORIZED]\naid=1\ncapability=0x431\nlisten_interval=10\n";

const AUTHENTICATED: &[u8] =
    b"02:00:00:00:00:ab\nflags=[AUTH]\naid=0\ncapability=0x0\nlisten_interval=0\n";

// The replies to queries at a table, where the network's name is `net`.
fn tells(rt: &impl Abort, alloc: Global, table: &Table, rows: &[(Query, &[u8])]) {
    let confs = confs(rt, alloc, b"net");
    for (query, wanted) in rows {
        replies(rt, alloc, table, &confs, *query, wanted);
    }
}

// The reply to a query.
fn replies(
    rt: &impl Abort,
    alloc: Global,
    table: &Table,
    confs: &Confs,
    query: Query,
    wanted: &[u8],
) {
    let text = reply(alloc, table, confs, query).expect(rt, "memory");
    expect(rt, text.as_slice(), wanted);
}

// The replies at the table of two stations.
fn tells_stations(rt: &impl Abort, alloc: Global, rows: &[(Query, &[u8])]) {
    let table = table(rt, alloc);
    tells(rt, alloc, &table, rows);
}

const STATIONS: [(Query, &[u8]); 8] = [
    (Query::First(BSSID), ASSOCIATED),
    (Query::Sta(BSSID, B), AUTHENTICATED),
    (Query::Sta(BSSID, ADDRESS), b"FAIL\n"),
    (Query::Next(BSSID, A), AUTHENTICATED),
    (Query::Next(BSSID, B), b""),
    (Query::Next(BSSID, ADDRESS), b"FAIL\n"),
    (Query::First(OTHER), b"FAIL\n"),
    (Query::Ping, b"PONG\n"),
];

#[test]
fn stations_are_told(rt: HostRuntime) {
    tells_stations(&rt, rt.alloc(), &STATIONS);
}

const EMPTY_TABLE: [(Query, &[u8]); 5] = [
    (Query::First(BSSID), b""),
    (Query::Next(BSSID, A), b"FAIL\n"),
    (Query::Sta(BSSID, A), b"FAIL\n"),
    (Query::Show(BSSID, Which::Deny), b""),
    (Query::Show(OTHER, Which::Deny), b"FAIL\n"),
];

#[test]
fn an_empty_table_tells_nothing(rt: HostRuntime) {
    let table = Table::new(rt.alloc());
    tells(&rt, rt.alloc(), &table, &EMPTY_TABLE);
}

const LISTED: [(Query, &[u8]); 2] = [
    (
        Query::Show(BSSID, Which::Accept),
        b"02:00:00:00:00:aa VLAN_ID=0\n02:00:00:00:00:ab VLAN_ID=0\n",
    ),
    (Query::Show(BSSID, Which::Deny), b""),
];

#[test]
fn lists_are_told_in_order(rt: HostRuntime) {
    tells_stations(&rt, rt.alloc(), &LISTED);
}

// The status of the built-in network with another name, while the radio is up or down.
fn tells_status(rt: &impl Abort, alloc: Global, ssid: &[u8], is_up: bool, wanted: &[u8]) {
    let table = table(rt, alloc);
    let confs = confs(rt, alloc, ssid);
    let query = Query::Status(BSSID, is_up);
    replies(rt, alloc, &table, &confs, query, wanted);
}

#[test]
fn the_status_is_told(rt: HostRuntime) {
    for (ssid, is_up, wanted) in [
        (
            b"net".as_slice(),
            true,
            b"state=ENABLED\nchannel=6\nbeacon_int=100\nbss[0]=wlan0\nbssid[0]=02:00:00:00:00:01\nssid[0]=net\nnum_sta[0]=2\n".as_slice(),
        ),
        (
            b"\"\\\n\r\t\x1b ~\x7f\x00\xff",
            false,
            b"state=DISABLED\nchannel=6\nbeacon_int=100\nbss[0]=wlan0\nbssid[0]=02:00:00:00:00:01\nssid[0]=\\\"\\\\\\n\\r\\t\\e ~\\x7f\\x00\\xff\nnum_sta[0]=2\n",
        ),
    ] {
        tells_status(&rt, rt.alloc(), ssid, is_up, wanted);
    }
    let printed = escape(rt.alloc(), b"ssid[0]=\\xff\n").expect(&rt, "memory");
    expect(&rt, printed.as_slice(), b"ssid[0]=\\\\xff\\n".as_slice());
}
