//! What is told of stations and of lists.
use crate::files::{new_store, remove_all};
use crate::hearing::Hearing;
use crate::running_tests::{confs, runs_talk, telling_site};
use crate::stage::Stage;
use crate::talk::{
    ASSOCIATED, ASSOCIATION, AUTHENTICATED, AUTHENTICATION, CONTROL, Datagram, Line,
    OTHER_AUTHENTICATED, OTHER_AUTHENTICATION, RADIO, Talk, free_ports,
};
use std::fs::File;
use std::net::Net;
use std::process::Abort;
use std::rt::Files;
use std::sync::Wait;
use std::thread::Threads;
use std::time::Clock;

/// The first station ends its association.
const LEAVE: &str = "a00000000200000000010200000000aa02000000000100000800";

/// It is deauthenticated, for the reasons 2 and 7.
const KICKED: &str = "c00000000200000000aa02000000000102000000000100000200";

const REFUSED: &str = "c00000000200000000aa02000000000102000000000100000700";

/// A data frame of a station that is not there, and its answer.
const STRANGER: &str = "080100000200000000010200000000ac0200000000020000";

const STRANGER_REFUSED: &str = "c00000000200000000ac02000000000102000000000100000700";

/// Ends the test where anything else is told while this is said, between what is served and the number of entries.
fn tells<
    R: Files<File = File> + Net + Wait + Threads + Clock + AllocGlobal + Sync + Abort + Copy + Drop,
>(rt: R, name: &str, lines: &[Line], entries: &str, wanted: &str)
where
    R::Dir: Send + Sync,
    R::Stream: Send + Sync,
    R::Listener: Send + Sync,
{
    let alloc = rt.alloc();
    new_store(&rt, name);
    let hearing = Hearing::new(rt, alloc);
    let stage = Stage::new(false);
    let port = free_ports(&rt, 2);
    let site = telling_site(name, port);
    let talk = Talk::new(&rt, alloc, port, lines, &stage);
    runs_talk(&hearing, confs(&rt, 2), &site, talk, entries);
    let wanted = format!(in alloc;
        "[INFO  apd] serves commands on port {port}, wlan0 on port {}, wlan1 on port {}; stations recovered: 0\n{wanted}[INFO  apd] entries {entries}\n",
        port.wrapping_add(1),
        port.wrapping_add(2)
    );
    hearing.expect_heard_to_the_end(wanted.expect(&rt, "memory").as_str());
    remove_all(&rt, &[name]);
}

#[test]
fn who_associates_and_who_leaves_is_told(rt: HostRuntime) {
    const LINES: &[Line] = &[
        Line::Sends(0, RADIO, Datagram::Hex(AUTHENTICATION)),
        Line::Gets(0, RADIO, Datagram::Hex(AUTHENTICATED)),
        Line::Sends(0, RADIO, Datagram::Hex(ASSOCIATION)),
        Line::Gets(0, RADIO, Datagram::Hex(ASSOCIATED)),
        Line::Sends(0, RADIO, Datagram::Hex(LEAVE)),
        Line::Sends(0, RADIO, Datagram::Hex(OTHER_AUTHENTICATION)),
        Line::Gets(0, RADIO, Datagram::Hex(OTHER_AUTHENTICATED)),
    ];
    let wanted =
        "[INFO  apd] wlan0: 02:00:00:00:00:aa associated, identifier 1\n[INFO  apd] wlan0: 02:00:00:00:00:aa left\n";
    tells(rt, "leaving_store", LINES, "4", wanted);
}

#[test]
fn who_is_let_go_is_told_and_no_stranger(rt: HostRuntime) {
    const LINES: &[Line] = &[
        Line::Sends(0, RADIO, Datagram::Hex(AUTHENTICATION)),
        Line::Gets(0, RADIO, Datagram::Hex(AUTHENTICATED)),
        Line::Sends(0, RADIO, Datagram::Hex(ASSOCIATION)),
        Line::Gets(0, RADIO, Datagram::Hex(ASSOCIATED)),
        Line::Sends(
            1,
            CONTROL,
            Datagram::Text("DEAUTHENTICATE 02:00:00:00:00:aa reason=7"),
        ),
        Line::Gets(0, RADIO, Datagram::Hex(REFUSED)),
        Line::Gets(1, CONTROL, Datagram::Text("OK\n")),
        Line::Sends(0, RADIO, Datagram::Hex(STRANGER)),
        Line::Gets(0, RADIO, Datagram::Hex(STRANGER_REFUSED)),
        Line::Sends(0, RADIO, Datagram::Hex(AUTHENTICATION)),
        Line::Gets(0, RADIO, Datagram::Hex(AUTHENTICATED)),
        Line::Sends(
            1,
            CONTROL,
            Datagram::Text("DEAUTHENTICATE 02:00:00:00:00:aa"),
        ),
        Line::Gets(0, RADIO, Datagram::Hex(KICKED)),
        Line::Gets(1, CONTROL, Datagram::Text("OK\n")),
    ];
    let wanted =
        "[INFO  apd] wlan0: 02:00:00:00:00:aa associated, identifier 1\n[INFO  apd] wlan0: 02:00:00:00:00:aa was let go, reason 7\n[INFO  apd] wlan0: 02:00:00:00:00:aa was let go, reason 2\n";
    tells(rt, "letting_store", LINES, "6", wanted);
}

#[test]
fn edits_of_lists_are_told_and_no_refused_one(rt: HostRuntime) {
    const LINES: &[Line] = &[
        Line::Sends(
            0,
            CONTROL,
            Datagram::Text("DENY_ACL ADD_MAC 02:00:00:00:00:ab"),
        ),
        Line::Gets(0, CONTROL, Datagram::Text("OK\n")),
        Line::Sends(
            0,
            CONTROL,
            Datagram::Text("IFNAME=wlan9 DENY_ACL ADD_MAC 02:00:00:00:00:ab"),
        ),
        Line::Gets(0, CONTROL, Datagram::Text("FAIL\n")),
        Line::Sends(
            0,
            CONTROL,
            Datagram::Text("IFNAME=wlan1 ACCEPT_ACL ADD_MAC 02:00:00:00:00:ac"),
        ),
        Line::Gets(0, CONTROL, Datagram::Text("OK\n")),
        Line::Sends(
            0,
            CONTROL,
            Datagram::Text("IFNAME=wlan0 DENY_ACL DEL_MAC 02:00:00:00:00:ab"),
        ),
        Line::Gets(0, CONTROL, Datagram::Text("OK\n")),
        Line::Sends(0, CONTROL, Datagram::Text("IFNAME=wlan1 ACCEPT_ACL CLEAR")),
        Line::Gets(0, CONTROL, Datagram::Text("OK\n")),
    ];
    let wanted =
        "[INFO  apd] wlan0: DENY_ACL ADD_MAC 02:00:00:00:00:ab\n[INFO  apd] wlan1: ACCEPT_ACL ADD_MAC 02:00:00:00:00:ac\n[INFO  apd] wlan0: DENY_ACL DEL_MAC 02:00:00:00:00:ab\n[INFO  apd] wlan1: ACCEPT_ACL CLEAR\n";
    tells(rt, "editing_store", LINES, "4", wanted);
}
