//! The sessions, by name.
use crate::beginning::{begin, device, new_confs, new_store};
use crate::ending::end;
use crate::filed::{check, files, read};
use crate::images::Image;
use crate::requests::{
    ANOTHER_ASSOCIATES, ANOTHER_AUTHENTICATES, ASSOCIATES, ASSOCIATES_ELSEWHERE, AUTHENTICATES,
    AUTHENTICATES_ELSEWHERE, THIRD_AUTHENTICATES, command, start_of,
};
use crate::saying::{say, say_table};
use crate::upgrading::upgrade;
use crate::world::{Calls, Memory, serve, start};
use apd_conf::Confs;
use apd_disk::MemDisk;
use apd_world::Step;
use std::alloc::Global;
use std::fs::File;
use std::io;
use std::rt::Files;

const NONE: Calls = Calls { failed: false };

/// The requests of a session.
#[derive(Clone, Copy, PartialEq, Eq)]
enum Session {
    Stations,
    Commands,
    Radios,
}

/// A station authenticates and associates.
const STATIONS: [Step<'static>; 2] = [AUTHENTICATES, ASSOCIATES];

/// So do two stations; a third one authenticates.
const BEFORE_COMMANDS: [Step<'static>; 5] = [
    AUTHENTICATES,
    ASSOCIATES,
    ANOTHER_AUTHENTICATES,
    ANOTHER_ASSOCIATES,
    THIRD_AUTHENTICATES,
];

/// A station comes to the first radio, and then to the second.
const RADIOS: [Step<'static>; 4] = [
    AUTHENTICATES,
    ASSOCIATES,
    AUTHENTICATES_ELSEWHERE,
    ASSOCIATES_ELSEWHERE,
];

/// The first station is denied, the lists are shown, and the two that are left are sent away.
const COMMANDS: &[&[u8]] = &[
    b"STA-FIRST",
    b"DENY_ACL ADD_MAC 02:00:00:00:00:aa",
    b"STA-FIRST",
    b"DENY_ACL SHOW",
    b"DEAUTHENTICATE ff:ff:ff:ff:ff:ff",
    b"STATUS",
];

fn command_all(rt: &impl Print, world: &mut Memory, calls: &mut Calls) -> io::Result<()> {
    for bytes in COMMANDS {
        if let Some(step) = command(bytes) {
            serve(rt, world, &[step], calls)?;
        }
    }
    Ok(())
}

/// The requests behind the start.
fn serve_all(
    rt: &impl Print,
    world: &mut Memory,
    session: Session,
    calls: &mut Calls,
) -> io::Result<()> {
    match session {
        Session::Stations => serve(rt, world, &STATIONS, calls),
        Session::Commands => {
            serve(rt, world, &BEFORE_COMMANDS, calls)?;
            command_all(rt, world, calls)
        }
        Session::Radios => serve(rt, world, &RADIOS, calls),
    }
}

/// Each radio starts, and then comes what the session asks for.
fn serve_session(
    rt: &impl Print,
    world: &mut Memory,
    confs: &Confs,
    session: Session,
) -> io::Result<Calls> {
    let mut calls = NONE;
    say_table(rt, world.table())?;
    for conf in confs.list() {
        serve(rt, world, &[start_of(conf)], &mut calls)?;
    }
    serve_all(rt, world, session, &mut calls)?;
    Ok(calls)
}

/// Ends a session behind its calls, if these could be told of.
fn end_behind(
    rt: &impl Print,
    alloc: Global,
    world: Memory,
    served: io::Result<Calls>,
) -> io::Result<()> {
    match served {
        Ok(calls) => end(rt, alloc, world, calls),
        Err(error) => {
            drop(world);
            Err(error)
        }
    }
}

/// A session of a world that has begun.
fn of_world(
    rt: &impl Print,
    alloc: Global,
    world: Memory,
    confs: &Confs,
    session: Session,
) -> io::Result<()> {
    let mut world = world;
    let served = serve_session(rt, &mut world, confs, session);
    end_behind(rt, alloc, world, served)
}

/// A session on the store that a device holds.
fn on_store(
    rt: &impl Print,
    alloc: Global,
    disk: MemDisk,
    confs: &Confs,
    session: Session,
) -> io::Result<()> {
    match begin(rt, alloc, disk, confs)? {
        Some(world) => of_world(rt, alloc, world, confs, session),
        None => Ok(()),
    }
}

/// A session on a new store.
fn on_a_new_store(
    rt: &impl Print,
    alloc: Global,
    confs: &Confs,
    session: Session,
) -> io::Result<()> {
    match new_store(rt, alloc)? {
        Some(disk) => on_store(rt, alloc, disk, confs, session),
        None => Ok(()),
    }
}

/// A session of the built-in configuration.
fn of_one_radio(rt: &impl Print, alloc: Global, session: Session) -> io::Result<()> {
    match new_confs(rt, alloc)? {
        Some(confs) => on_a_new_store(rt, alloc, &confs, session),
        None => Ok(()),
    }
}

/// A session of two radios with lists.
fn of_two_radios<R: Print + Files<File = File> + AllocGlobal>(rt: &R) -> io::Result<()> {
    match read(rt)? {
        Some(confs) => on_a_new_store(rt, rt.alloc(), &confs, Session::Radios),
        None => Ok(()),
    }
}

/// Each interface is started by one call.
fn start_all(rt: &impl Print, world: &mut Memory) -> io::Result<Calls> {
    let mut calls = NONE;
    say_table(rt, world.table())?;
    start(rt, world, &mut calls)?;
    Ok(calls)
}

/// Starts each interface of a world that has begun by one call, and ends the session.
fn start_and_end(rt: &impl Print, alloc: Global, world: Memory) -> io::Result<()> {
    let mut world = world;
    let started = start_all(rt, &mut world);
    end_behind(rt, alloc, world, started)
}

/// The world of the store that a device holds is started by one call.
fn start_on(rt: &impl Print, alloc: Global, disk: MemDisk, confs: &Confs) -> io::Result<()> {
    match begin(rt, alloc, disk, confs)? {
        Some(world) => start_and_end(rt, alloc, world),
        None => Ok(()),
    }
}

/// Two radios with lists start on a new store.
fn start_new<R: Print + Files<File = File> + AllocGlobal>(rt: &R) -> io::Result<()> {
    let Some(confs) = read(rt)? else {
        return Ok(());
    };
    match new_store(rt, rt.alloc())? {
        Some(disk) => start_on(rt, rt.alloc(), disk, &confs),
        None => Ok(()),
    }
}

/// They start on a store with stations of both.
fn restart<R: Print + Files<File = File> + AllocGlobal>(rt: &R) -> io::Result<()> {
    let Some(confs) = read(rt)? else {
        return Ok(());
    };
    let disk = device(rt, rt.alloc(), Image::Stations)?;
    start_on(rt, rt.alloc(), disk, &confs)
}

/// Runs the session of this name.
pub fn run_session<R: Print + Files<File = File> + AllocGlobal>(
    rt: &R,
    name: &str,
) -> io::Result<()> {
    println!(rt; "= {name}")?;
    match name {
        "stations" => of_one_radio(rt, rt.alloc(), Session::Stations),
        "commands" => of_one_radio(rt, rt.alloc(), Session::Commands),
        "radios" => of_two_radios(rt),
        "start" => start_new(rt),
        "restart" => restart(rt),
        "files" => files(rt),
        "check" => check(rt, rt.alloc()),
        "upgrade" => upgrade(rt, rt.alloc()),
        _ => say(rt, "no such session"),
    }
}
