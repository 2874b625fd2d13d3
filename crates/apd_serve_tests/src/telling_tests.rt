use crate::configurations::{alone, built_in, conf_of, confs_of, file_of};
use crate::expect::expect;
use crate::files::{new_store, read, remove_all};
use crate::hearing::{ENDED, Hearing};
use crate::running_tests::{confs, expect_answer, run_at, runs_with};
use crate::stage::Stage;
use crate::talk::{AUTHENTICATION, CONTROL, Datagram, Line, RADIO, Talk, free_ports};
use apd_conf::Confs;
use log::Log;
use std::alloc::Global;
use std::fs::{self, File};
use std::io::{self, Read};
use std::net::Net;
use std::process::Abort;
use std::rt::Files;
use std::sync::Wait;
use std::thread::{Threads, sleep};
use std::time::{Clock, Duration};

/// How long the store's name is watched in a test, in milliseconds.
const WATCHED: u64 = 2_500;

#[test]
fn the_start_and_the_entries_are_told(rt: HostRuntime) {
    const LINES: &[Line] = &[
        Line::Sends(
            0,
            CONTROL,
            Datagram::Text("DENY_ACL ADD_MAC 02:00:00:00:00:ab"),
        ),
        Line::Gets(0, CONTROL, Datagram::Text("OK\n")),
    ];
    let name = "told_store";
    new_store(&rt, name);
    let hearing = Hearing::new(rt, rt.alloc());
    let port = runs_with(&hearing, name, confs(&rt, 2), None, LINES, "1");
    let wanted = format!(in rt.alloc();
        "[INFO  apd] serves commands on port {port}, wlan0 on port {}, wlan1 on port {}; stations recovered: 0\n{ENDED}[INFO  apd] entries 1\n",
        port.wrapping_add(1),
        port.wrapping_add(2)
    );
    hearing.expect_heard(wanted.expect(&rt, "memory").as_str());
    remove_all(&rt, &[name]);
}

/// The configurations of these interfaces, whose BSSIDs end in their places from this number on.
fn numbered_confs(rt: &impl Abort, alloc: Global, interfaces: &[&str], first: u8) -> Confs {
    let mut list = Vec::new(alloc);
    let mut number = first;
    for interface in interfaces {
        let conf = conf_of(rt, alloc, interface, number);
        list.push(conf).expect(rt, "memory");
        number = number.wrapping_add(1);
    }
    confs_of(rt, list)
}

#[test]
fn a_ninth_bssid_of_a_store_is_told(rt: HostRuntime) {
    let alloc = rt.alloc();
    let name = "full_store";
    new_store(&rt, name);
    let eight = numbered_confs(&rt, alloc, &["a", "b", "c", "d", "e", "f", "g", "h"], 1);
    let _port = runs_with(&rt, name, eight, None, &[], "0");
    let ninth = numbered_confs(&rt, alloc, &["i"], 9);
    let hearing = Hearing::new(rt, alloc);
    let port = runs_with(&hearing, name, ninth, None, &[], "0");
    let wanted = format!(in alloc;
        "[WARN  apd] i is not served: the store has as many other BSSIDs as it can have\n[INFO  apd] serves commands on port {port}; stations recovered: 0\n{ENDED}[INFO  apd] entries 0\n"
    );
    hearing.expect_heard(wanted.expect(&rt, "memory").as_str());
    remove_all(&rt, &[name]);
}

/// The built-in configuration with the list file of this name.
fn confs_with_list(rt: &impl Abort, alloc: Global, name: &str) -> Confs {
    let file = file_of(rt, alloc, name);
    let mut conf = built_in(rt, alloc);
    conf.accept_mac_file = Some(file);
    alone(rt, alloc, conf)
}

/// Ends the test where anything else is told of the list file of a configuration, over the store of a file: this, and
/// then what is served.
fn tells_of_lists<
    R: Files<File = File> + Net + Wait + Threads + Clock + AllocGlobal + Sync + Abort + Copy + Drop,
>(rt: R, name: &str, wanted: &str)
where
    R::Dir: Send + Sync,
    R::Stream: Send + Sync,
    R::Listener: Send + Sync,
{
    let alloc = rt.alloc();
    let hearing = Hearing::new(rt, alloc);
    let confs = confs_with_list(&rt, alloc, "list_of_a_telling_test");
    let port = runs_with(&hearing, name, confs, None, &[], "0");
    let wanted = format!(in alloc;
        "{wanted}[INFO  apd] serves commands on port {port}, wlan0 on port {}; stations recovered: 0\n{ENDED}[INFO  apd] entries 0\n",
        port.wrapping_add(1)
    );
    hearing.expect_heard(wanted.expect(&rt, "memory").as_str());
}

#[test]
fn a_list_file_that_does_not_count_is_told(rt: HostRuntime) {
    let line =
        "[WARN  apd] wlan0: list_of_a_telling_test does not count, since the store has the lists of its BSSID: commands change them\n";
    let name = "listing_store";
    new_store(&rt, name);
    tells_of_lists(rt, name, "");
    tells_of_lists(rt, name, line);
    remove_all(&rt, &[name]);
}

/// An input during which a store's file gets another length, and goes on for a while.
#[derive(Drop)]
struct Resizing<R> {
    rt: R,
    name: &'static str,
    length: u64,
}

impl<R: Files<File = File> + Clock> Read for Resizing<R> {
    fn read(&mut self, _buf: &mut [u8]) -> io::Result<usize> {
        let file = File::options().write(true).open(&self.rt, self.name)?;
        file.set_len(self.length)?;
        drop(file);
        sleep(&self.rt, Duration::from_millis(WATCHED));
        Ok(0)
    }
}

/// Ends the test where it isn't told so, once, that the store of a file has another length.
fn tells_of_length<
    R: Files<File = File> + Net + Wait + Threads + Clock + AllocGlobal + Sync + Abort + Copy + Drop,
>(rt: R, name: &'static str, length: u64, line: &str)
where
    R::Dir: Send + Sync,
    R::Stream: Send + Sync,
    R::Listener: Send + Sync,
{
    new_store(&rt, name);
    let hearing = Hearing::new(rt, rt.alloc());
    runs_renaming(&hearing, name, Resizing { rt, name, length });
    hearing.expect_heard_once(line);
    remove_all(&rt, &[name]);
}

#[test]
fn a_store_that_is_cut_is_told(rt: HostRuntime) {
    let line =
        "[ERROR apd] cut_store was cut to 4096 bytes, of 2097216: what the store holds may be lost when this ends, and its device fails from now on\n";
    tells_of_length(rt, "cut_store", 4_096, line);
}

#[test]
fn a_store_that_grows_is_told(rt: HostRuntime) {
    let line =
        "[ERROR apd] grown_store grew to 2097217 bytes, from 2097216: a start from it is refused until it is cut to these\n";
    tells_of_length(rt, "grown_store", 2_097_217, line);
}

/// An input during which a store's file loses its name, and goes on for a while.
#[derive(Drop)]
struct Renaming<R> {
    rt: R,
    name: &'static str,
    gone: Option<&'static str>,
}

impl<R: Files<File = File> + Clock> Read for Renaming<R> {
    fn read(&mut self, _buf: &mut [u8]) -> io::Result<usize> {
        match self.gone {
            Some(other) => fs::rename(&self.rt, self.name, other)?,
            None => fs::remove_file(&self.rt, self.name)?,
        }
        sleep(&self.rt, Duration::from_millis(WATCHED));
        Ok(0)
    }
}

impl<R> Renaming<R> {
    fn new(rt: R, name: &'static str, gone: Option<&'static str>) -> Renaming<R> {
        Renaming { rt, name, gone }
    }
}

/// Ends the test where `run` of a store doesn't end well while this input is read.
fn runs_renaming<
    R: Files<File = File> + Net + Wait + Threads + Clock + AllocGlobal + Log + Sync + Abort,
    B: Read + Drop,
>(rt: &R, store: &str, reader: B)
where
    R::Dir: Send + Sync,
    R::Stream: Send + Sync,
    R::Listener: Send + Sync,
{
    let port = free_ports(rt, 1);
    let answer = run_at(rt, store, None, confs(rt, 1), port, &[], reader);
    let is_well = answer.is_ok();
    drop(answer);
    expect(rt, is_well, true);
}

#[test]
fn a_store_that_is_removed_is_told(rt: HostRuntime) {
    let line =
        "[ERROR apd] removed_store was removed: what the store holds is lost when this ends, and its device fails from now on\n";
    let name = "removed_store";
    new_store(&rt, name);
    let hearing = Hearing::new(rt, rt.alloc());
    runs_renaming(&hearing, name, Renaming::new(rt, name, None));
    hearing.expect_heard_once(line);
}

#[test]
fn a_store_that_gets_another_name_is_told(rt: HostRuntime) {
    let line =
        "[ERROR apd] moved_store is not the store that is served any more: a start from moved_store begins elsewhere, and the store's device fails from now on\n";
    let name = "moved_store";
    new_store(&rt, name);
    let hearing = Hearing::new(rt, rt.alloc());
    runs_renaming(
        &hearing,
        name,
        Renaming::new(rt, name, Some("store_elsewhere")),
    );
    hearing.expect_heard_once(line);
    remove_all(&rt, &["store_elsewhere"]);
}

/// A talk behind an input that changes the store's file.
#[derive(Drop)]
struct Behind<'a, B> {
    change: Option<B>,
    talk: Talk<'a>,
}

impl<B: Read + Drop> Read for Behind<'_, B> {
    fn read(&mut self, buf: &mut [u8]) -> io::Result<usize> {
        if let Some(mut change) = self.change.take() {
            let changed = change.read(buf);
            drop(change);
            changed?;
        }
        self.talk.read(buf)
    }
}

/// Ends the test where a store is told anything but a device fault behind this change of its file: no frame is answered,
/// no edit is taken, and `run` ends by that fault.
fn fails_behind<
    R: Files<File = File> + Net + Wait + Threads + Clock + AllocGlobal + Log + Sync + Abort,
    B: Read + Drop,
>(rt: &R, store: &str, change: B)
where
    R::Dir: Send + Sync,
    R::Stream: Send + Sync,
    R::Listener: Send + Sync,
{
    const LINES: &[Line] = &[
        Line::Sends(0, RADIO, Datagram::Hex(AUTHENTICATION)),
        Line::GetsNothing(0),
        Line::Sends(
            1,
            CONTROL,
            Datagram::Text("DENY_ACL ADD_MAC 02:00:00:00:00:ab"),
        ),
        Line::Gets(1, CONTROL, Datagram::Text("FAIL\n")),
    ];
    let stage = Stage::new(false);
    let port = free_ports(rt, 1);
    let mut reader = Behind {
        change: Some(change),
        talk: Talk::new(rt, rt.alloc(), port, LINES, &stage),
    };
    let answer = run_at(rt, store, None, confs(rt, 1), port, &[], &mut reader);
    let said = reader.talk.said_count();
    drop(reader);
    expect_answer(rt, answer, "device fault");
    expect(rt, said, LINES.len());
}

#[test]
fn a_store_that_is_removed_takes_nothing_more(rt: HostRuntime) {
    let name = "failing_removed_store";
    new_store(&rt, name);
    fails_behind(&rt, name, Renaming::new(rt, name, None));
}

#[test]
fn a_store_that_gets_another_name_takes_nothing_more(rt: HostRuntime) {
    let (name, other) = ("failing_moved_store", "failing_store_elsewhere");
    new_store(&rt, name);
    fails_behind(&rt, name, Renaming::new(rt, name, Some(other)));
    remove_all(&rt, &[other]);
}

#[test]
fn a_store_that_is_cut_takes_nothing_more(rt: HostRuntime) {
    let name = "failing_cut_store";
    new_store(&rt, name);
    let length = 4_096;
    fails_behind(&rt, name, Resizing { rt, name, length });
    expect(&rt, read(&rt, name).len(), 4_096);
    remove_all(&rt, &[name]);
}
