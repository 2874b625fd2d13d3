//! Eight radios, their stations, and what these send.
use crate::common::core_of;
use apd_base::{AclMode, Addr, Bssid, Policy, Station, StationNumber};
use apd_conf::{Conf, InterfaceName};
use apd_core::Core;
use apd_record::Change;
use apd_table::Table;
use std::alloc::Global;

/// A station of a radio.
pub(crate) type Key = (Bssid, Addr);

/// The station of this number of one of eight radios.
pub(crate) fn key_of(radio: u8, station: u16) -> Key {
    let [high, low] = station.to_be_bytes();
    (
        Bssid(Addr([2, 0, 0, 0, 0, radio])),
        Addr([2, 1, 0, 0, high, low]),
    )
}

// The built-in configuration of a radio.
fn conf_of(alloc: Global, radio: u8) -> Option<Conf> {
    let mut conf = Conf::built_in(alloc).ok()?;
    conf.interface = name_of(alloc, [b'w', b'0' | radio])?;
    conf.bssid = key_of(radio, 0).0;
    Some(conf)
}

fn name_of(alloc: Global, name: [u8; 2]) -> Option<InterfaceName> {
    if InterfaceName::is_name(&name) {
        InterfaceName::from_bytes(&name, alloc).ok()
    } else {
        None
    }
}

fn eight(alloc: Global) -> Option<Vec<Conf>> {
    let mut list = Vec::new(alloc);
    for radio in 1..=8u8 {
        list.push(conf_of(alloc, radio)?).ok()?;
    }
    Some(list)
}

fn change(table: &mut Table, change: Change) -> Option<()> {
    table.apply(&change).ok()
}

// Adds a radio with as many authenticated stations.
fn add_radio(table: &mut Table, radio: u8, stations: u16) -> Option<()> {
    let (bssid, _) = key_of(radio, 0);
    let policy = Policy {
        mode: AclMode::AcceptUnlessDenied,
        max: StationNumber::new(2007)?,
    };
    change(table, Change::Policy { bssid, policy })?;
    for number in 0..stations {
        let (bssid, addr) = key_of(radio, number);
        let station = Station::Authenticated;
        change(
            table,
            Change::Put {
                bssid,
                addr,
                station,
            },
        )?;
    }
    Some(())
}

fn add_radios(table: &mut Table, stations: u16) -> Option<()> {
    for radio in 1..=8u8 {
        add_radio(table, radio, stations)?;
    }
    Some(())
}

fn table_of(alloc: Global, stations: u16) -> Option<Table> {
    let mut table = Table::new(alloc);
    add_radios(&mut table, stations).and(Some(table))
}

/// A core of eight radios with as many authenticated stations each, all heard at 0.
pub(crate) fn crowd(alloc: Global, stations: u16) -> Option<Core> {
    let (table, list) = table_of(alloc, stations).zip(eight(alloc))?;
    core_of(alloc, table, list)
}

/// A frame of a station to its radio: its first byte, and what stands behind the head.
pub(crate) fn frame(alloc: Global, kind: u8, key: Key, body: &[u8]) -> Option<Vec<u8>> {
    let mut frame = Vec::new(alloc);
    frame.extend_from_slice(&[kind, 0, 0, 0]).ok()?;
    frame.extend_from_slice(&key.0.0.0).ok()?;
    frame.extend_from_slice(&key.1.0).ok()?;
    frame.extend_from_slice(&key.0.0.0).ok()?;
    frame.extend_from_slice(&[0, 0]).ok()?;
    frame.extend_from_slice(body).ok()?;
    Some(frame)
}

/// A probe request for another network: a frame that is heard, and not answered.
pub(crate) fn probe(alloc: Global, key: Key) -> Option<Vec<u8>> {
    frame(alloc, 0x40, key, &[0, 1, b'x'])
}
