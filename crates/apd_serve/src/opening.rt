//! The opening of a site: its files and its ports.
use crate::beginning::{OpenStore, open_store};
use crate::running::RunFault;
use crate::telling_port::TellingPort;
use apd_conf::Confs;
use apd_control_port::ControlPort;
use apd_disk::FileRecord;
use apd_site::{
    Driven, Edits, Elsewhere, RecordingFile, Site, StoreWatch, elsewhere_of, open_radios,
    open_recordings_of, open_watch,
};
use log::Log;
use std::fs::File;
use std::net::Net;
use std::rt::Files;
use std::time::Clock;

// The files of a site: its store, what watches that, and those of its recordings, where there are to be any.
#[derive(Drop)]
struct SiteFiles<'a> {
    store: OpenStore,
    watched: StoreWatch<'a>,
    recordings: Option<Vec<RecordingFile>>,
}

// What watches the file of a store that was opened.
fn open_watch_of<'a>(
    rt: &(impl Files<File = File> + AllocGlobal),
    store: &OpenStore,
    site: &Site<'a>,
) -> Result<StoreWatch<'a>, RunFault> {
    let state = store.state().clone()?;
    Ok(open_watch(rt, site.store, state)?)
}

fn open_files<'a>(
    rt: &(impl Files<File = File> + Clock + AllocGlobal),
    confs: &Confs,
    site: &Site<'a>,
    known: FileRecord,
) -> Result<SiteFiles<'a>, RunFault> {
    let store = open_store(rt, site.store, known)?;
    let watched = match open_watch_of(rt, &store, site) {
        Ok(watched) => watched,
        Err(fault) => {
            drop(store);
            return Err(fault);
        }
    };
    match open_recordings_of(rt, confs, site) {
        Ok(recordings) => Ok(SiteFiles {
            store,
            watched,
            recordings,
        }),
        Err(fault) => {
            drop(watched);
            drop(store);
            Err(fault.into())
        }
    }
}

// The ports of a site: that of commands, those of its radios, and what counts who else sends to these.
#[derive(Drop)]
struct SitePorts<'a, L: Log> {
    commands: TellingPort<'a, L, ControlPort>,
    radios: Vec<Driven>,
    elsewhere: Elsewhere,
}

// The port of commands, which tells of list edits where that is asked for.
fn open_commands<'a, W: Net + AllocGlobal + Log>(
    rt: &'a W,
    confs: &Confs,
    site: &Site<'_>,
) -> Result<TellingPort<'a, W, ControlPort>, RunFault> {
    let edits = if site.logs_stations {
        Some(Edits::new(rt.alloc(), confs)?)
    } else {
        None
    };
    match ControlPort::open(rt, rt.alloc(), site.port) {
        Ok(port) => Ok(TellingPort::new(rt, port, edits)),
        Err(fault) => Err(RunFault::Socket(fault)),
    }
}

fn open_ports<'a, W: Net + AllocGlobal + Log>(
    rt: &'a W,
    confs: &Confs,
    site: &Site<'_>,
) -> Result<SitePorts<'a, W>, RunFault> {
    let commands = open_commands(rt, confs, site)?;
    let radios = match open_radios(rt, site, confs.list().len()) {
        Ok(radios) => radios,
        Err(fault) => {
            drop(commands);
            return Err(fault.into());
        }
    };
    match elsewhere_of(rt.alloc(), confs, &radios) {
        Ok(elsewhere) => Ok(SitePorts {
            commands,
            radios,
            elsewhere,
        }),
        Err(error) => {
            drop(radios);
            drop(commands);
            Err(error.into())
        }
    }
}

/// What is watched while a site serves: its store's file, and who else sends to its radios.
#[derive(Drop)]
pub(crate) struct Watched<'a> {
    pub(crate) store: StoreWatch<'a>,
    pub(crate) elsewhere: Elsewhere,
}

/// A site that is open, but for its radios: its store, its port of commands, and what is watched while it serves.
#[derive(Drop)]
pub(crate) struct OpenSite<'a, 'b, L: Log> {
    pub(crate) store: OpenStore,
    pub(crate) commands: TellingPort<'a, L, ControlPort>,
    pub(crate) watched: Watched<'b>,
}

/// What the radios of a site are made of: their ports, and the files of their recordings, where there are to be any.
#[derive(Drop)]
pub(crate) struct RadioParts {
    pub(crate) ports: Vec<Driven>,
    pub(crate) recordings: Option<Vec<RecordingFile>>,
}

// A site of which the files and the ports were had.
fn join<'a, 'b, L: Log>(
    files: SiteFiles<'b>,
    ports: SitePorts<'a, L>,
) -> (OpenSite<'a, 'b, L>, RadioParts) {
    let SiteFiles {
        store,
        watched,
        recordings,
    } = files;
    let SitePorts {
        commands,
        radios,
        elsewhere,
    } = ports;
    let watched = Watched {
        store: watched,
        elsewhere,
    };
    let opened = OpenSite {
        store,
        commands,
        watched,
    };
    let parts = RadioParts {
        ports: radios,
        recordings,
    };
    (opened, parts)
}

/// Opens the files of a site, of whose store this is known, and then its ports. Nothing that is there is changed.
///
/// Errors: those of `run`, up to a port that can't be had, in their order.
pub(crate) fn open_site<'a, 'b, W: Files<File = File> + Net + Clock + AllocGlobal + Log>(
    rt: &'a W,
    confs: &Confs,
    site: &Site<'b>,
    known: FileRecord,
) -> Result<(OpenSite<'a, 'b, W>, RadioParts), RunFault> {
    let files = open_files(rt, confs, site, known)?;
    match open_ports(rt, confs, site) {
        Ok(ports) => Ok(join(files, ports)),
        Err(fault) => {
            drop(files);
            Err(fault)
        }
    }
}
