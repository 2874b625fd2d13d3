use crate::configurations::{built_in, conf_of, confs_of};
use crate::expect::expect;
use crate::files::{expect_file, expect_kept, new_store, read, remove_all, write};
use crate::stage::Stage;
use crate::talk::{
    ASSOCIATED, ASSOCIATION, AUTHENTICATED, AUTHENTICATION, CONTROL, Datagram, Line, RADIO,
    SECOND_AUTHENTICATED, SECOND_AUTHENTICATION, SECOND_RADIO, Talk, free_ports,
};
use apd_conf::Confs;
use apd_disk::{FileDisk, FileRecord};
use apd_serve::{RunFault, run};
use apd_site::Site;
use apd_store::recover;
use log::Log;
use std::fs::File;
use std::io::{self, Read};
use std::net::{Ipv4Addr, Net, UdpSocket};
use std::process::Abort;
use std::rt::Files;
use std::sync::Wait;
use std::thread::Threads;
use std::time::Clock;

/// The name of a configuration's file that is not there.
pub(crate) const CONF: &str = "no_conf_of_a_test";

/// The second interface's state.
const SECOND_STATUS: &str =
    "state=ENABLED\nchannel=6\nbeacon_int=100\nbss[0]=wlan1\nbssid[0]=02:00:00:00:00:02\nssid[0]=net\nnum_sta[0]=0\n";

/// The station of the first run, in the second.
const STATION: &str =
    "02:00:00:00:00:aa\nflags=[AUTH][ASSOC][AUTHORIZED]\naid=1\ncapability=0x431\nlisten_interval=10\n";

/// What the radio does in the second run, and at its end.
const RECORDING: &str = "down\ndown\ninstall 02:00:00:00:00:aa 1\ndown\n";

/// What the first of two radios does, which receives a frame that is for the second, and at its end.
const FIRST_RECORDING: &str =
    "down\ndown\nrx b00000000200000000020200000000aa0200000000021000000001000000\ndown\n";

/// What the second of two radios does, with one station, and at its end.
const SECOND_RECORDING: &str =
    "down\ndown\nrx b00000000200000000020200000000aa0200000000021000000001000000\ntx b00000000200000000aa0200000000020200000000020000000002000000\ndown\n";

/// The built-in configuration, and the second one where there are to be more radios than one.
pub(crate) fn confs(rt: &(impl AllocGlobal + Abort), radios: u16) -> Confs {
    let first = built_in(rt, rt.alloc());
    let mut list = vec![in rt.alloc(); first].expect(rt, "memory");
    if radios > 1 {
        let second = conf_of(rt, rt.alloc(), "wlan1", 2);
        list.push(second).expect(rt, "memory");
    }
    confs_of(rt, list)
}

/// A site in which no device fault ends a run.
fn site<'a>(
    store: &'a str,
    port: u16,
    drivers: Option<u16>,
    recordings: Option<&'a str>,
    configurations: &'a [&'a str],
    logs_stations: bool,
) -> Site<'a> {
    Site {
        store,
        port,
        drivers,
        recordings,
        configurations,
        ends_at_fault: None,
        logs_stations,
    }
}

/// A site where it is logged what becomes of stations and lists, and nothing is recorded.
pub(crate) fn telling_site<'a>(name: &'a str, port: u16) -> Site<'a> {
    site(name, port, None, None, &[], true)
}

/// A site where the radios' drivers have the ports from this one on, and nothing is logged beside.
pub(crate) fn driven_site<'a>(name: &'a str, port: u16, drivers: u16) -> Site<'a> {
    site(name, port, Some(drivers), None, &[], false)
}

/// What `run` of a store at this port answers, where the configurations are of files of these names.
pub(crate) fn run_at<
    R: Files<File = File> + Net + Wait + Threads + Clock + AllocGlobal + Log + Sync,
    B: Read + Drop,
>(
    rt: &R,
    store: &str,
    recordings: Option<&str>,
    confs: Confs,
    port: u16,
    configurations: &[&str],
    reader: B,
) -> Result<u64, RunFault>
where
    R::Dir: Send + Sync,
    R::Stream: Send + Sync,
    R::Listener: Send + Sync,
{
    let site = site(store, port, None, recordings, configurations, false);
    run(rt, confs, &site, FileRecord::new(), reader)
}

/// Ends the test where `run` answers anything else: the number of entries, or the fault, as text.
pub(crate) fn expect_answer(
    rt: &(impl AllocGlobal + Abort),
    answer: Result<u64, RunFault>,
    wanted: &str,
) {
    let text = match answer {
        Ok(entries) => format!(in rt.alloc(); "{entries}"),
        Err(fault) => format!(in rt.alloc(); "{fault}"),
    };
    let text = text.expect(rt, "memory");
    expect(rt, text.as_str(), wanted);
}

/// Ends the test where `run` of a site answers anything else of a talk, or not all of its lines are said.
pub(crate) fn runs_talk<
    R: Files<File = File> + Net + Wait + Threads + Clock + AllocGlobal + Log + Sync + Abort,
>(rt: &R, confs: Confs, site: &Site<'_>, talk: Talk<'_>, wanted: &str)
where
    R::Dir: Send + Sync,
    R::Stream: Send + Sync,
    R::Listener: Send + Sync,
{
    let mut talk = talk;
    let answer = run(rt, confs, site, FileRecord::new(), &mut talk);
    let said = talk.said_count();
    let lines = talk.line_count();
    drop(talk);
    expect_answer(rt, answer, wanted);
    expect(rt, said, lines);
}

/// Ends the test where `run` of these configurations answers anything else of a talk, or not all of its lines are said.
/// Tells at which port it ran.
pub(crate) fn runs_with<
    R: Files<File = File> + Net + Wait + Threads + Clock + AllocGlobal + Log + Sync + Abort,
>(rt: &R, store: &str, confs: Confs, recordings: Option<&str>, lines: &[Line], wanted: &str) -> u16
where
    R::Dir: Send + Sync,
    R::Stream: Send + Sync,
    R::Listener: Send + Sync,
{
    let stage = Stage::new(false);
    let port = free_ports(rt, 8);
    let site = site(store, port, None, recordings, &[], false);
    let talk = Talk::new(rt, rt.alloc(), port, lines, &stage);
    runs_talk(rt, confs, &site, talk, wanted);
    port
}

/// The same with so many radios.
fn runs<R: Files<File = File> + Net + Wait + Threads + Clock + AllocGlobal + Log + Sync + Abort>(
    rt: &R,
    store: &str,
    radios: u16,
    recordings: Option<&str>,
    lines: &[Line],
    wanted: &str,
)
where
    R::Dir: Send + Sync,
    R::Stream: Send + Sync,
    R::Listener: Send + Sync,
{
    let _port = runs_with(rt, store, confs(rt, radios), recordings, lines, wanted);
}

#[test]
fn a_second_run_goes_on_where_the_first_ended(rt: HostRuntime) {
    const FIRST: &[Line] = &[
        Line::Sends(0, RADIO, Datagram::Hex(AUTHENTICATION)),
        Line::Gets(0, RADIO, Datagram::Hex(AUTHENTICATED)),
        Line::Sends(0, RADIO, Datagram::Hex(ASSOCIATION)),
        Line::Gets(0, RADIO, Datagram::Hex(ASSOCIATED)),
    ];
    const SECOND: &[Line] = &[
        Line::Sends(0, CONTROL, Datagram::Text("STA 02:00:00:00:00:aa")),
        Line::Gets(0, CONTROL, Datagram::Text(STATION)),
    ];
    let name = "second_run_store";
    new_store(&rt, name);
    runs(&rt, name, 1, None, FIRST, "2");
    runs(&rt, name, 1, Some("second_run"), SECOND, "0");
    expect_file(&rt, "second_run.0", RECORDING.as_bytes());
    remove_all(&rt, &["second_run.0", name]);
}

#[test]
fn each_radio_has_its_port_and_its_recording(rt: HostRuntime) {
    const LINES: &[Line] = &[
        Line::Sends(1, SECOND_RADIO, Datagram::Hex(SECOND_AUTHENTICATION)),
        Line::Gets(1, SECOND_RADIO, Datagram::Hex(SECOND_AUTHENTICATED)),
        Line::Sends(0, RADIO, Datagram::Hex(SECOND_AUTHENTICATION)),
        Line::GetsNothing(0),
    ];
    let name = "two_radios_store";
    new_store(&rt, name);
    // What is there is emptied first.
    write(&rt, "two_radios.0", &[b'x'; 4_096]);
    runs(&rt, name, 2, Some("two_radios"), LINES, "1");
    expect_file(&rt, "two_radios.0", FIRST_RECORDING.as_bytes());
    expect_file(&rt, "two_radios.1", SECOND_RECORDING.as_bytes());
    remove_all(&rt, &["two_radios.0", "two_radios.1", name]);
}

#[test]
fn a_command_is_of_the_interface_that_it_names(rt: HostRuntime) {
    const LINES: &[Line] = &[
        Line::Sends(0, CONTROL, Datagram::Text("IFNAME=wlan1 STATUS")),
        Line::Gets(0, CONTROL, Datagram::Text(SECOND_STATUS)),
    ];
    let name = "named_interface_store";
    new_store(&rt, name);
    runs(&rt, name, 2, None, LINES, "0");
    remove_all(&rt, &[name]);
}

/// How many BSSIDs have a policy in the store of a file.
fn bss_of(rt: &(impl Files<File = File> + AllocGlobal + Abort), name: &str) -> usize {
    let disk = FileDisk::open(rt, name).expect(rt, "a file");
    let found = recover(rt.alloc(), disk).ok();
    let (store, table) = found.expect(rt, "a store");
    drop(store);
    let count = table.bss_count();
    drop(table);
    count
}

#[test]
fn the_start_is_committed_and_not_counted(rt: HostRuntime) {
    let name = "started_store";
    new_store(&rt, name);
    runs(&rt, name, 1, None, &[], "0");
    expect(&rt, bss_of(&rt, name), 1);
    remove_all(&rt, &[name]);
}

/// Ends the test where `run` of a store at this port answers anything else. The configuration is of the file of this
/// name.
pub(crate) fn refuses<
    R: Files<File = File> + Net + Wait + Threads + Clock + AllocGlobal + Log + Sync + Abort,
>(rt: &R, store: &str, recordings: Option<&str>, port: u16, configuration: &str, wanted: &str)
where
    R::Dir: Send + Sync,
    R::Stream: Send + Sync,
    R::Listener: Send + Sync,
{
    let files = [configuration];
    let answer = run_at(
        rt,
        store,
        recordings,
        confs(rt, 1),
        port,
        &files,
        io::empty(),
    );
    expect_answer(rt, answer, wanted);
}

#[test]
fn a_refusal_leaves_the_store_as_it_was(rt: HostRuntime) {
    let name = "refused_store";
    new_store(&rt, name);
    let before = read(&rt, name);
    let port = free_ports(&rt, 1);
    for taken in [port, port.wrapping_add(RADIO)] {
        let socket = UdpSocket::bind(&rt, (Ipv4Addr::LOCALHOST, taken)).expect(&rt, "a socket");
        refuses(&rt, name, None, port, CONF, "no socket");
        drop(socket);
    }
    let folder = Some("no_folder_of_a_test/r");
    refuses(
        &rt,
        name,
        folder,
        port,
        CONF,
        "cannot read no_folder_of_a_test/r.0",
    );
    expect_kept(&rt, name, before.as_slice());
    remove_all(&rt, &[name]);
}

#[test]
fn a_file_that_is_no_store_is_left_as_it_was(rt: HostRuntime) {
    let name = "short_store";
    write(&rt, name, b"RAPSTOR1");
    let folder = Some("no_folder_of_a_test/r");
    refuses(&rt, name, folder, free_ports(&rt, 1), CONF, "not a store");
    expect_file(&rt, name, b"RAPSTOR1");
    remove_all(&rt, &[name]);
    refuses(
        &rt,
        name,
        None,
        free_ports(&rt, 1),
        CONF,
        "cannot read short_store",
    );
}
