//! A radio whose driver has a port of its own.
use crate::files::{new_store, remove_all};
use crate::hearing::Hearing;
use crate::running_tests::{confs, driven_site, runs_talk};
use crate::stage::Stage;
use crate::talk::{
    ASSOCIATED, ASSOCIATION, AUTHENTICATED, AUTHENTICATION, Datagram, Line, OTHER_AUTHENTICATION,
    RADIO, Talk, free_ports,
};

/// What the driver is told first, and as the station is associated.
const MAP: &str = "map 1 down";

const INSTALL: &str = "install 2 02:00:00:00:00:aa 1";

#[test]
fn only_its_driver_is_heard_and_told(rt: HostRuntime) {
    // The other sender asks to be authenticated twice; then a while is waited.
    const LINES: &[Line] = &[
        Line::Gets(0, RADIO, Datagram::Text(MAP)),
        Line::Sends(1, RADIO, Datagram::Hex(OTHER_AUTHENTICATION)),
        Line::Sends(1, RADIO, Datagram::Hex(OTHER_AUTHENTICATION)),
        Line::Sends(0, RADIO, Datagram::Hex(AUTHENTICATION)),
        Line::Gets(0, RADIO, Datagram::Hex(AUTHENTICATED)),
        Line::Sends(0, RADIO, Datagram::Hex(ASSOCIATION)),
        Line::Gets(0, RADIO, Datagram::Text(INSTALL)),
        Line::Gets(0, RADIO, Datagram::Hex(ASSOCIATED)),
        Line::GetsNothing(1),
        Line::GetsNothing(1),
        Line::GetsNothing(1),
        Line::GetsNothing(1),
        Line::GetsNothing(1),
        Line::GetsNothing(1),
        Line::GetsNothing(0),
        Line::GetsNothing(0),
    ];
    let name = "driven_store";
    let alloc = rt.alloc();
    new_store(&rt, name);
    let hearing = Hearing::new(rt, alloc);
    let stage = Stage::new(false);
    let port = free_ports(&rt, 1);
    let talk = Talk::new(&rt, alloc, port, LINES, &stage);
    let drivers = talk.port_of(&rt, 0);
    let site = driven_site(name, port, drivers);
    runs_talk(&hearing, confs(&rt, 1), &site, talk, "2");
    let line = "[WARN  apd] wlan0: datagrams from elsewhere than its driver, passed over: 2\n";
    hearing.expect_heard_once(line);
    remove_all(&rt, &[name]);
}
