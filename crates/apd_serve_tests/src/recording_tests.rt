use crate::configurations::{alone, built_in, file_of};
use crate::expect::expect;
use crate::files::{expect_file, expect_kept, new_store, read, remove_all, write};
use crate::running_tests::{CONF, refuses, runs_with};
use crate::talk::free_ports;
use apd_conf::Confs;
use apd_disk::FileDisk;
use log::Log;
use std::fs::{self, File};
use std::net::{Ipv4Addr, Net, UdpSocket};
use std::os::unix::fs::{PermissionsExt, symlink};
use std::process::Abort;
use std::rt::Files;
use std::sync::Wait;
use std::thread::Threads;
use std::time::Clock;

/// Ends the test where `run` over a new store of this name doesn't refuse a recording of this prefix, or changes the
/// file of its first recording. The configuration is of the file of this name.
fn refuses_recording<
    R: Files<File = File> + Net + Wait + Threads + Clock + AllocGlobal + Log + Sync + Abort,
>(rt: &R, store: &str, prefix: &str, configuration: &str)
where
    R::Dir: Send + Sync,
    R::Stream: Send + Sync,
    R::Listener: Send + Sync,
{
    new_store(rt, store);
    let recording = format!(in rt.alloc(); "{prefix}.0").expect(rt, "memory");
    let wanted = format!(in rt.alloc(); "cannot read {prefix}.0").expect(rt, "memory");
    let before = read(rt, recording.as_str());
    let port = free_ports(rt, 1);
    refuses(
        rt,
        store,
        Some(prefix),
        port,
        configuration,
        wanted.as_str(),
    );
    expect_kept(rt, recording.as_str(), before.as_slice());
    remove_all(rt, &[store]);
}

#[test]
fn no_recording_is_made_over_the_store(rt: HostRuntime) {
    refuses_recording(&rt, "own_store.0", "own_store", CONF);
}

#[test]
fn no_recording_is_made_over_another_store(rt: HostRuntime) {
    new_store(&rt, "idle_store.0");
    refuses_recording(&rt, "idle_store.served", "idle_store", CONF);
    remove_all(&rt, &["idle_store.0"]);
}

#[test]
fn no_recording_is_made_over_a_store_of_version_1(rt: HostRuntime) {
    write(&rt, "old_store.0", b"RAPSTOR1 and halves");
    refuses_recording(&rt, "old_store.served", "old_store", CONF);
    remove_all(&rt, &["old_store.0"]);
}

#[test]
fn no_recording_is_made_over_a_file_that_is_locked(rt: HostRuntime) {
    write(&rt, "held.0", b"no store, and yet held");
    let disk = FileDisk::open(&rt, "held.0").expect(&rt, "a file");
    refuses_recording(&rt, "held.served", "held", CONF);
    drop(disk);
    remove_all(&rt, &["held.0"]);
}

#[test]
fn no_recording_is_made_over_a_configuration(rt: HostRuntime) {
    let name = "conf_of_a_recording_test";
    write(&rt, name, b"ssid=net\n");
    fs::hard_link(&rt, name, "linked.0").expect(&rt, "a link");
    refuses_recording(&rt, "linked.served", "linked", name);
    remove_all(&rt, &["linked.0", name]);
}

/// The built-in configuration with the list file of this name.
fn confs_with_list(rt: &(impl AllocGlobal + Abort), name: &str) -> Confs {
    let file = file_of(rt, rt.alloc(), name);
    let mut conf = built_in(rt, rt.alloc());
    conf.deny_mac_file = Some(file);
    alone(rt, rt.alloc(), conf)
}

#[test]
fn no_recording_is_made_over_a_list_file(rt: HostRuntime) {
    let name = "list_of_a_recording_test";
    write(&rt, name, b"02:00:00:00:00:ac\n");
    fs::hard_link(&rt, name, "listed.0").expect(&rt, "a link");
    new_store(&rt, "listed_store");
    let confs = confs_with_list(&rt, name);
    let listed = Some("listed");
    let _port = runs_with(
        &rt,
        "listed_store",
        confs,
        listed,
        &[],
        "cannot read listed.0",
    );
    expect_file(&rt, "listed.0", b"02:00:00:00:00:ac\n");
    remove_all(&rt, &["listed.0", name, "listed_store"]);
}

#[test]
fn a_recording_is_a_regular_file(rt: HostRuntime) {
    symlink(&rt, "/dev/null", "null.0").expect(&rt, "a link");
    refuses_recording(&rt, "null.served", "null", CONF);
    remove_all(&rt, &["null.0"]);
}

#[test]
fn without_its_ports_it_empties_nothing(rt: HostRuntime) {
    let name = "store_without_ports";
    write(&rt, "old_recording.0", b"down\n");
    new_store(&rt, name);
    let port = free_ports(&rt, 1);
    let taken = (Ipv4Addr::LOCALHOST, port.wrapping_add(1));
    let socket = UdpSocket::bind(&rt, taken).expect(&rt, "a socket");
    refuses(&rt, name, Some("old_recording"), port, CONF, "no socket");
    drop(socket);
    expect_file(&rt, "old_recording.0", b"down\n");
    remove_all(&rt, &["old_recording.0", name]);
}

#[test]
fn a_recording_is_its_owner_s(rt: HostRuntime) {
    let name = "store_with_a_recording";
    new_store(&rt, name);
    let port = free_ports(&rt, 1);
    refuses(&rt, name, Some("own_recording"), port, CONF, "0");
    let metadata = fs::metadata(&rt, "own_recording.0").expect(&rt, "a recording");
    expect(&rt, metadata.permissions().mode() % 0o1000, 0o600);
    remove_all(&rt, &["own_recording.0", name]);
}
