//! The stations of a table, and installing them.
ghost use Rattle.std.specs.Prelude.{◌≡◌, ◌⊎◌, OnOk, IfOk, IfErr};
ghost use Rattle.apd_base.specs.Failures.{HasRisen};
ghost use Rattle.apd_base.specs.State.{aid_at};
ghost use Rattle.apd_slot.specs.Rows.{installed_rows, with_station};

use crate::slot::SlotFault;
use apd_base::{Addr, Bssid, Station};
use apd_radio::{Identifiers, Radio, RadioFault};
use apd_table::Table;
use std::alloc::{AllocError, Global};

// The identifier of a station, if it is associated at the BSSID.
fn identifier_of(table: &Table, bssid: Bssid, addr: Addr) -> Option<u16>
    ensures { result ≡ aid_at table.now bssid addr }
{
    match table.get(bssid, addr) {
        Some(Station::Associated(association)) => Some(association.aid.number),
        Some(Station::Authenticated) | None => None,
    }
}

// Puts a station in under its identifier, if it has one.
fn put_station(stations: &mut Identifiers, addr: Addr, aid: Option<u16>) -> Result<(), AllocError>
    ensures { OnOk result (stations.new ≡ with_station addr aid stations.old) }
{
    match aid {
        Some(number) => stations.insert(addr, number),
        None => Ok(()),
    }
}

/// The associated stations of a BSSID. They are put in as they rise, each behind those before it: none is moved.
pub fn associated_stations(
    alloc: Global,
    table: &Table,
    bssid: Bssid,
) -> Result<Identifiers, AllocError>
    ensures { IfOk result (λ stations. stations ≡ installed_rows table.now bssid) }
{
    let mut stations = Identifiers::new(alloc);
    for addr in &table.addresses(alloc, bssid)? {
        put_station(&mut stations, *addr, identifier_of(table, bssid, *addr))?;
    }
    Ok(stations)
}

/// Takes a radio down, and installs these stations, one by one: it has these then, and no others.
///
/// Errors: `WentDown`, where its device failed; `NoMemory`.
pub fn install_all<R: Radio>(radio: &mut R, stations: &Identifiers) -> Result<(), SlotFault>
    ensures ok { OnOk result (R.model.stations radio.new ≡ stations.now) }
    ensures kept { R.frames radio.new ≡ R.frames radio.old }
    ensures sent { R.model.sent radio.new ≡ R.model.sent radio.old }
    ensures errors { IfErr result (λ fault. (fault ≡ SlotFault.WentDown) ⊎ (fault ≡ SlotFault.NoMemory)) }
    ensures stays { OnOk result (R.model.faults radio.new ≡ R.model.faults radio.old) }
    ensures memory { result ≡ Err SlotFault.NoMemory → R.model.faults radio.new ≡ R.model.faults radio.old }
    ensures device { result ≡ Err SlotFault.WentDown → HasRisen (R.model.faults radio.old) (R.model.faults radio.new) }
{
    radio.take_down();
    for (addr, aid) in stations.rows() {
        match radio.install(*addr, *aid) {
            Ok(()) => {}
            Err(RadioFault::Device) => return Err(SlotFault::WentDown),
            Err(RadioFault::NoMemory) => return Err(SlotFault::NoMemory),
        }
    }
    Ok(())
}
