//! Slots that are refused memory: each call is made once more, and has to come to the same. Where memory is ample
//! nothing is refused; by hand each allocation is refused in turn.
use crate::expect::expect;
use crate::slot_calls::{answer, apply, apply_next, change, make_room, queue, replace, resume};
use apd_base::{AclMode, Addr, Aid, Association, Bssid, Policy, Station, StationNumber};
use apd_mlme::Out;
use apd_radio::{Radio, Sim};
use apd_record::Change;
use apd_slot::{Slot, SlotFault};
use apd_table::Table;
use std::alloc::Global;
use std::process::Abort;

const WLAN0: Bssid = Bssid(Addr([2, 0, 0, 0, 0, 1]));

/// A station that is there before.
const EARLIER: Addr = Addr([2, 0, 0, 0, 0, 0xaa]);

/// So many stations come.
const STATIONS: u8 = 20;

fn station(number: u8) -> Addr {
    Addr([2, 0, 0, 0, 1, number])
}

/// The identifier of a station, where it is one of the first so many.
fn identifier(number: u8, count: u8) -> Option<u16> {
    if number < count {
        Some(number as u16 + 1)
    } else {
        None
    }
}

/// Whether a slot wants the first so many stations, and no other.
fn wants<R: Radio>(slot: &Slot<R>, count: u8) -> bool {
    let mut does = slot.wanted(EARLIER).is_none();
    for number in 0..STATIONS {
        does = does && slot.wanted(station(number)) == identifier(number, count);
    }
    does
}

/// Whether its radio has them, and no other.
fn has<R: Radio>(slot: &Slot<R>, count: u8) -> bool {
    let mut does = slot.installed(EARLIER).is_none();
    for number in 0..STATIONS {
        does = does && slot.installed(station(number)) == identifier(number, count);
    }
    does
}

fn is_up_with<R: Radio>(slot: &Slot<R>, count: u8) -> bool {
    slot.is_up() && wants(slot, count) && has(slot, count)
}

fn is_empty<R: Radio>(radio: &R) -> bool {
    let mut is_so = radio.installed(EARLIER).is_none();
    for number in 0..STATIONS {
        is_so = is_so && radio.installed(station(number)).is_none();
    }
    is_so
}

/// What installs a station.
fn install(rt: &impl Abort, number: u8) -> Out {
    Out::Install(station(number), aid(rt, number))
}

fn aid(rt: &impl Abort, number: u8) -> Aid {
    Aid::new(number as u16 + 1).expect(rt, "an identifier")
}

/// Installs the station behind the first so many. Where memory is refused nothing has changed.
fn installs_next<R: Radio>(rt: &impl Abort, slot: &mut Slot<R>, count: u8) {
    let out = install(rt, count);
    if let Err(fault) = apply(slot, &out) {
        let found = (fault, is_up_with(slot, count));
        expect(rt, found, (SlotFault::NoMemory, true));
        expect(rt, apply(slot, &out), Ok(()));
    }
}

/// Installs each station.
fn installs_all<R: Radio>(rt: &impl Abort, slot: &mut Slot<R>) {
    for count in 0..STATIONS {
        installs_next(rt, slot, count);
    }
}

#[test]
fn an_out_that_is_refused_memory_changes_nothing(rt: HostRuntime) {
    let alloc = rt.alloc();
    let mut slot = Slot::new(alloc, Sim::new(alloc), WLAN0);
    installs_all(&rt, &mut slot);
    expect(&rt, is_up_with(&slot, STATIONS), true);
}

/// Makes room for each station. What memory is refused for is asked once more.
fn reserve(rt: &impl Abort, outs: &mut Vec<Out>) {
    if outs.reserve(STATIONS as usize).is_err() {
        outs.reserve(STATIONS as usize).expect(rt, "memory");
    }
}

/// The outs that install the stations from one on, up to another.
fn installations(rt: &impl Abort, alloc: Global, from: u8, to: u8) -> Vec<Out> {
    let mut outs = Vec::new(alloc);
    reserve(rt, &mut outs);
    for number in from..to {
        outs.push(install(rt, number)).ok().expect(rt, "room");
    }
    outs
}

/// Puts outs behind so many that wait. Where memory is refused these wait still.
fn queues<R: Radio>(rt: &impl Abort, slot: &mut Slot<R>, outs: Vec<Out>, waiting: usize) {
    if make_room(slot, outs.len()).is_err() {
        expect(rt, slot.waiting_count(), waiting);
    }
    queue(rt, slot, outs);
}

/// The answer to the next out, behind so many stations. Where memory is refused nothing has changed, and it is still
/// the first.
fn next_answer<R: Radio>(rt: &impl Abort, slot: &mut Slot<R>, count: u8) -> Result<(), SlotFault> {
    let waiting = slot.waiting_count();
    match apply_next(slot).expect(rt, "an out that waits") {
        Ok((_out, answer)) => answer,
        Err(_) => {
            let found = (is_up_with(slot, count), slot.waiting_count());
            expect(rt, found, (true, waiting));
            answer(rt, slot)
        }
    }
}

/// Applies the next out, which installs the station behind the first so many, for each.
fn applies_each<R: Radio>(rt: &impl Abort, slot: &mut Slot<R>) {
    for count in 0..STATIONS {
        expect(rt, next_answer(rt, slot, count), Ok(()));
    }
}

/// Queues the installation of each station in two parts, and applies each.
fn applies_all<R: Radio>(rt: &impl Abort, alloc: Global, slot: &mut Slot<R>) {
    queues(rt, slot, installations(rt, alloc, 0, 7), 0);
    queues(rt, slot, installations(rt, alloc, 7, STATIONS), 7);
    applies_each(rt, slot);
    expect(rt, is_up_with(slot, STATIONS), true);
    expect(rt, slot.waiting_count(), 0);
}

#[test]
fn an_out_that_waits_stays_first_where_memory_is_refused(rt: HostRuntime) {
    let alloc = rt.alloc();
    applies_all(&rt, alloc, &mut Slot::new(alloc, Sim::new(alloc), WLAN0));
}

/// A change that memory is refused is made once more.
fn changes(rt: &impl Abort, table: &mut Table, to: &Change) {
    if change(table, to).is_err() {
        change(table, to).expect(rt, "a change that is made");
    }
}

fn policy(rt: &impl Abort) -> Change {
    let mode = AclMode::AcceptUnlessDenied;
    let max = StationNumber::new(2007).expect(rt, "a limit");
    let policy = Policy { mode, max };
    let bssid = WLAN0;
    Change::Policy { bssid, policy }
}

fn row(rt: &impl Abort, number: u8) -> Change {
    let association = Association {
        aid: aid(rt, number),
        capability: 1,
        listen_interval: 5,
    };
    Change::Put {
        bssid: WLAN0,
        addr: station(number),
        station: Station::Associated(association),
    }
}

/// A table in which each station is associated.
fn table(rt: &impl Abort, alloc: Global) -> Table {
    let mut table = Table::new(alloc);
    changes(rt, &mut table, &policy(rt));
    for number in 0..STATIONS {
        changes(rt, &mut table, &row(rt, number));
    }
    table
}

/// Installs at a slot a station which the table lacks.
fn installs_earlier<R: Radio>(rt: &impl Abort, slot: &mut Slot<R>) {
    let aid = Aid::new(2007).expect(rt, "an identifier");
    let out = Out::Install(EARLIER, aid);
    if apply(slot, &out).is_err() {
        expect(rt, apply(slot, &out), Ok(()));
    }
}

/// Resumes a slot. Where memory is refused it is down, and wants what it wanted.
fn resumes<R: Radio>(rt: &impl Abort, alloc: Global, slot: &mut Slot<R>, table: &Table) {
    if let Err(fault) = resume(slot, alloc, table) {
        let found = (fault, slot.is_up(), slot.wanted(EARLIER));
        expect(rt, found, (SlotFault::NoMemory, false, Some(2007)));
        expect(rt, resume(slot, alloc, table), Ok(()));
    }
    expect(rt, is_up_with(slot, STATIONS), true);
}

#[test]
fn a_slot_that_is_refused_memory_does_not_resume(rt: HostRuntime) {
    let alloc = rt.alloc();
    let table = table(&rt, alloc);
    let mut slot = Slot::new(alloc, Sim::new(alloc), WLAN0);
    installs_earlier(&rt, &mut slot);
    resumes(&rt, alloc, &mut slot, &table);
}

/// Gives a radio a station.
fn gives_earlier<R: Radio>(rt: &impl Abort, radio: &mut R) {
    if radio.install(EARLIER, 2007).is_err() {
        let again = radio.install(EARLIER, 2007);
        again.expect(rt, "a station that is installed");
    }
}

/// Replaces the radio of a slot that has each station. Where memory is refused the other one comes back with none,
/// and the slot is down with its own.
fn replaces<R: Radio>(rt: &impl Abort, slot: &mut Slot<R>, other: R) -> R
where
    R: Drop,
{
    match replace(slot, other) {
        Ok(old) => old,
        Err((back, fault)) => {
            expect(rt, (fault, slot.is_up()), (SlotFault::NoMemory, false));
            let stays = wants(slot, STATIONS) && has(slot, STATIONS);
            expect(rt, (stays, is_empty(&back)), (true, true));
            replace(slot, back)
                .ok()
                .expect(rt, "a radio that is replaced")
        }
    }
}

/// Gives a slot that has each station another radio, which has a station already.
fn replaces_by_another<R: Radio>(rt: &impl Abort, slot: &mut Slot<R>, other: R)
where
    R: Drop,
{
    let mut other = other;
    gives_earlier(rt, &mut other);
    let old = replaces(rt, slot, other);
    expect(rt, is_empty(&old), true);
    expect(rt, is_up_with(slot, STATIONS), true);
}

#[test]
fn a_radio_that_is_refused_memory_does_not_replace_another(rt: HostRuntime) {
    let alloc = rt.alloc();
    let mut slot = Slot::new(alloc, Sim::new(alloc), WLAN0);
    installs_all(&rt, &mut slot);
    replaces_by_another(&rt, &mut slot, Sim::new(alloc));
}
