//! The radios of a site.
use crate::driven::{Driven, DrivenBy};
use crate::elsewhere::Elsewhere;
use crate::recordings::{RecordingFile, empty_files};
use crate::site::{Site, SiteFault};
use crate::station_notes::StationNotes;
use crate::telling_file::TellingFile;
use crate::telling_radio::TellingRadio;
use apd_conf::{Conf, Confs};
use apd_radio::{DriverRadio, Radio, Recording, SocketFault, UdpSim};
use log::Log;
use std::alloc::{AllocError, Global};
use std::fs::File;
use std::net::Net;

/// A radio that is recorded, or whose recording goes nowhere.
pub type Recorded<'a, L, R = Driven> = Recording<R, TellingFile<'a, L, File>>;

/// A radio of a site.
pub type SiteRadio<'a, L> = TellingRadio<'a, L, Recorded<'a, L>>;

// The port at a place above this one.
fn port_above(port: u16, place: usize) -> Result<u16, SiteFault> {
    let place = u16::try_from(place).ok();
    match place.and_then(|place| port.checked_add(place)) {
        Some(port) => Ok(port),
        None => Err(SiteFault::Socket(SocketFault::NoSocket)),
    }
}

// Opens the port of the radio at a place.
fn open_radio(
    rt: &(impl Net + AllocGlobal),
    site: &Site<'_>,
    place: usize,
) -> Result<Driven, SiteFault> {
    let own = port_above(port_above(site.port, 1)?, place)?;
    let opened = match site.drivers {
        None => UdpSim::new(rt, rt.alloc(), own).map(DrivenBy::Anyone),
        Some(drivers) => {
            let driver = port_above(drivers, place)?;
            DriverRadio::new(rt, rt.alloc(), own, driver).map(DrivenBy::Named)
        }
    };
    opened.map_err(SiteFault::Socket)
}

/// Opens the ports of so many radios of a site, one after the other above that of commands.
pub fn open_radios(
    rt: &(impl Net + AllocGlobal),
    site: &Site<'_>,
    count: usize,
) -> Result<Vec<Driven>, SiteFault> {
    let mut radios = Vec::with_capacity(rt.alloc(), count)?;
    for place in 0..count {
        let radio = open_radio(rt, site, place)?;
        radios.push(radio).map_err(AllocError::from)?;
    }
    Ok(radios)
}

/// What counts the datagrams that come to radios from elsewhere than their drivers: the radio at a place has the
/// interface of the configuration at that place.
pub fn elsewhere_of(
    alloc: Global,
    confs: &Confs,
    radios: &[Driven],
) -> Result<Elsewhere, AllocError> {
    let mut elsewhere = Elsewhere::new(alloc);
    for (radio, conf) in radios.iter().zip(confs.list()) {
        if let DrivenBy::Named(radio) = radio {
            let interface = String::from_str(alloc, conf.interface.as_str())?;
            elsewhere.add(interface, radio.strangers().clone()?)?;
        }
    }
    Ok(elsewhere)
}

// A radio that is recorded into this file, if there is one. Why the recording ends is logged.
fn record<'a, L: Log, R: Radio>(
    log: &'a L,
    alloc: Global,
    radio: R,
    recording: Option<RecordingFile>,
) -> Recorded<'a, L, R> {
    let (name, file) = match recording {
        Some(RecordingFile { name, file }) => (name, Some(file)),
        None => (String::new(alloc), None),
    };
    Recording::new(alloc, radio, TellingFile::new(log, name, file))
}

// Has each radio recorded, the one at a place into the file at that place, which is emptied; or none.
fn record_radios<'a, L: Log + AllocGlobal, R: Radio>(
    rt: &'a L,
    radios: Vec<R>,
    recordings: Option<Vec<RecordingFile>>,
) -> Result<Vec<Recorded<'a, L, R>>, SiteFault> {
    let mut recorded = Vec::with_capacity(rt.alloc(), radios.len())?;
    let recordings = recordings.unwrap_or(Vec::new(rt.alloc()));
    empty_files(rt, &recordings)?;
    let mut recordings = recordings.into_iter();
    for radio in radios {
        let radio = record(rt, rt.alloc(), radio, recordings.next());
        recorded.push(radio).map_err(AllocError::from)?;
    }
    Ok(recorded)
}

// What is noted of an interface's stations, where they are to be told of.
fn station_notes(alloc: Global, conf: &Conf, are_told: bool) -> Option<StationNotes> {
    if are_told {
        Some(StationNotes::new(alloc, conf.bssid))
    } else {
        None
    }
}

// Has each radio tell of its driver's faults, and of its stations where that is asked for: the one at a place has the
// interface of the configuration at that place.
fn tell_of_radios<'a, L: Log, R: Radio>(
    log: &'a L,
    alloc: Global,
    confs: &Confs,
    radios: Vec<R>,
    of_stations: bool,
) -> Result<Vec<TellingRadio<'a, L, R>>, AllocError> {
    let mut telling = Vec::with_capacity(alloc, radios.len())?;
    for (radio, conf) in radios.into_iter().zip(confs.list()) {
        let interface = String::from_str(alloc, conf.interface.as_str())?;
        let notes = station_notes(alloc, conf, of_stations);
        telling.push(TellingRadio::new(log, interface, radio, notes))?;
    }
    Ok(telling)
}

// As `site_radios`, for radios of any type: the proof is much smaller than one for the types of a site's radios.
fn radios_of<'a, L: Log + AllocGlobal, R: Radio>(
    rt: &'a L,
    confs: &Confs,
    site: &Site<'_>,
    radios: Vec<R>,
    recordings: Option<Vec<RecordingFile>>,
) -> Result<Vec<TellingRadio<'a, L, Recorded<'a, L, R>>>, SiteFault> {
    let recorded = record_radios(rt, radios, recordings)?;
    Ok(tell_of_radios(rt, rt.alloc(), confs, recorded, site.logs_stations)?)
}

/// The radios of a site, each recorded into a file, which is emptied, where there are recordings, and each telling of
/// its driver's faults, and of its stations where the site logs these.
pub fn site_radios<'a, L: Log + AllocGlobal>(
    rt: &'a L,
    confs: &Confs,
    site: &Site<'_>,
    radios: Vec<Driven>,
    recordings: Option<Vec<RecordingFile>>,
) -> Result<Vec<SiteRadio<'a, L>>, SiteFault> {
    radios_of(rt, confs, site, radios, recordings)
}
