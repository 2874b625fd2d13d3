//! An access point over a file, datagrams and recordings.
ghost use Rattle.std.specs.Prelude.{◌≡◌};
ghost use Rattle.apd_serve.specs.declared.running.RunFault.TheVariants.{NoMemory, Open};

use crate::beginning::{OpenStore, begin_world};
use crate::clock::SystemClock;
use crate::environment::Environment;
use crate::fault::ServeFault;
use crate::host::Host;
use crate::input::Input;
use crate::opening::{OpenSite, RadioParts, Watched, open_site};
use crate::serving::serve_started;
use crate::started::{StartedWorld, start};
use crate::threads::run_beside;
use apd_conf::Confs;
use apd_desk::NoGate;
use apd_disk::FileRecord;
use apd_radio::{Radio, SocketFault};
use apd_site::{
    Alarm, Ending, OpenFault, Site, SiteFault, StoreDisk, site_radios, tell_entries, tell_lists,
    tell_unserved, watch, words_of_served,
};
use apd_store::StoreFault;
use apd_world::WorldFault;
use log::Log;
use std::alloc::AllocError;
use std::fs::File;
use std::io::Read;
use std::net::Net;
use std::rt::Files;
use thiserror::Error;

/// Why an access point didn't run to the end of its input.
#[derive(Debug, Drop, Error)]
pub enum RunFault {
    /// A file was not had.
    #[error("{0}")]
    Open(OpenFault),
    /// The store refuses, or a slot doesn't resume.
    #[error("{0}")]
    World(WorldFault),
    /// A port can't be had.
    #[error("{0}")]
    Socket(SocketFault),
    /// The system can't wait for the input and for a fault at once, as where too many files are open.
    #[error("cannot wait for standard input")]
    Input,
    /// It didn't serve to the end.
    #[error("{0}")]
    Serve(ServeFault),
    /// Memory ran out.
    #[error("out of memory")]
    NoMemory,
}

impl From<AllocError> for RunFault {
    ghost from_gives = { λ _ fault. fault ≡ NoMemory };

    fn from(_: AllocError) -> RunFault {
        RunFault::NoMemory
    }
}

impl From<OpenFault> for RunFault {
    ghost from_gives = { λ inner fault. fault ≡ Open inner };

    fn from(fault: OpenFault) -> RunFault {
        RunFault::Open(fault)
    }
}

impl From<SiteFault> for RunFault {
    ghost use Rattle.apd_serve.specs.Faults.{of_site};

    ghost from_gives = { λ inner fault. fault ≡ of_site inner };

    fn from(fault: SiteFault) -> RunFault {
        match fault {
            SiteFault::Open(fault) => RunFault::Open(fault),
            SiteFault::Socket(fault) => RunFault::Socket(fault),
            SiteFault::NoMemory => RunFault::NoMemory,
        }
    }
}

// The world of a store that was opened, started, with any radios, and what is served, in words. What doesn't count is told
// before, and what isn't served behind it.
fn start_world<W: AllocGlobal + Log, R: Radio>(
    rt: &W,
    store: OpenStore,
    confs: Confs,
    port: u16,
    radios: Vec<R>,
) -> Result<(StartedWorld<StoreDisk, R>, String), RunFault> {
    tell_lists(rt, &confs, store.table());
    let recovered = store.table().rows();
    let world = begin_world(rt.alloc(), store, confs, radios)?;
    match start(world) {
        Ok(started) => {
            let world = started.world();
            let (confs, table) = (world.confs(), world.table());
            tell_unserved(rt, confs, table);
            match words_of_served(rt.alloc(), port, confs, table, recovered) {
                Ok(served) => Ok((started, served)),
                Err(error) => {
                    drop(started);
                    Err(error.into())
                }
            }
        }
        Err(fault) => Err(RunFault::Serve(fault)),
    }
}

// Starts a world over the store and the radios of a site, tells what is served, and serves it until the input ends. It
// watches the store's file, and who else sends to the radios, meanwhile.
fn serve_site<
    'a,
    W: Host
        + Files<File = File, Dir: Send + Sync>
        + Net<Stream: Send + Sync, Listener: Send + Sync>
        + AllocGlobal,
    R: Radio + Send,
    B: Read,
>(
    rt: &'a W,
    confs: Confs,
    port: u16,
    opened: OpenSite<'_, '_, W>,
    radios: Vec<R>,
    alarm: &'a Alarm,
    reader: &mut B,
) -> Result<u64, RunFault> {
    let OpenSite {
        store,
        commands,
        watched,
    } = opened;
    let (world, served) = match start_world(rt, store, confs, port, radios) {
        Ok(started) => started,
        Err(fault) => {
            drop(watched);
            drop(commands);
            return Err(fault);
        }
    };
    let clock = SystemClock::new(rt);
    let words = Some(served.as_str());
    let environment = Environment {
        rt,
        alloc: rt.alloc(),
        clock: &clock,
        gate: &NoGate,
        alarm,
        served: words,
    };
    let ending = Ending::new();
    let Watched {
        mut store,
        mut elsewhere,
    } = watched;
    let answer = run_beside(
        rt,
        || watch(rt, &mut store, &mut elsewhere, &ending),
        || {
            let answer = serve_started(&environment, world, commands, reader);
            ending.end(rt);
            answer
        },
    );
    answer
        .unwrap_or(Err(ServeFault::Thread))
        .map_err(RunFault::Serve)
}

/// Serves an access point of these configurations, over the store, the ports and the recordings of a site, until the
/// input ends, and answers how many requests became entries. That is logged too, and so is what is served, once each
/// thread is there, and that the input ended; at the level warn an interface that isn't served, and a list file that
/// doesn't count; and at the level error, when it comes, that the store's device or a driver failed, that a recording
/// ended, or that the store's file lost its name or its length.
///
/// Of the store's file this is known. The store is opened by `open_store`, with that, and the world begun by
/// `begin_world`.
///
/// Errors, looked for in this order: the system can't wait for the input, where a fault is to end it; the store's file
/// can't be opened, or the store is refused; a recording can't be made, or can't be emptied; a port can't be had; a slot
/// doesn't resume; `Serve`. Before `Serve` nothing is sent, and the store is as it was; with it the start
/// may have been committed and handed out. Before the ports are had no file is emptied: whether it can be is found by
/// giving it the length that it has. `NoMemory` comes at any place. That
/// the store's device failed while it served is told by `Serve`, once the count of entries was logged.
pub fn run<
    W: Host
        + Files<File = File, Dir: Send + Sync>
        + Net<Stream: Send + Sync, Listener: Send + Sync>
        + AllocGlobal,
    B: Read + Drop,
>(rt: &W, confs: Confs, site: &Site<'_>, known: FileRecord, reader: B) -> Result<u64, RunFault> {
    let alarm = Alarm::new();
    let mut reader = match Input::new(rt, reader, site.ends_at_fault, &alarm) {
        Ok(reader) => reader,
        Err(fault) => {
            drop(confs);
            return Err(fault);
        }
    };
    let (opened, RadioParts { ports, recordings }) = match open_site(rt, &confs, site, known) {
        Ok(opened) => opened,
        Err(fault) => {
            drop(reader);
            drop(confs);
            return Err(fault);
        }
    };
    let answer = match site_radios(rt, &confs, site, ports, recordings) {
        Ok(radios) => serve_site(rt, confs, site.port, opened, radios, &alarm, &mut reader),
        Err(fault) => {
            drop(opened);
            drop(confs);
            Err(fault.into())
        }
    };
    drop(reader);
    let entries = answer?;
    tell_entries(rt, entries);
    if alarm.has_rung() {
        return Err(RunFault::Serve(ServeFault::Store(StoreFault::Device)));
    }
    Ok(entries)
}
