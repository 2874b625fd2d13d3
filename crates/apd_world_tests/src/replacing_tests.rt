//! Radios whose driver fails, and others in their place.
use crate::calls::{begins_mending, join_parts, mends, parts_of, replace_radio, tell};
use crate::expect::expect;
use crate::steps::{ROAMS, STATION, WLAN0, WLAN1, steps_of};
use crate::worlds::{start_with, start_world};
use apd_base::{Addr, Bssid, Station};
use apd_disk::MemDisk;
use apd_radio::{Failing, Radio, Sim};
use apd_slot::{Mending, Slot, SlotFault};
use apd_table::Table;
use apd_world::{World, WorldFault};
use std::alloc::{AllocError, Global};

/// A radio in memory whose driver may fail.
type Failable = Failing<Sim>;

/// A radio that passes so many calls on, and fails then.
fn failing_radio(alloc: Global, calls: u64) -> Failable {
    Failing::new(Sim::new(alloc), calls)
}

/// A radio that never fails.
fn lasting_radio(alloc: Global) -> Failable {
    failing_radio(alloc, u64::MAX)
}

/// Slots for two BSSIDs.
fn slots(alloc: Global, radios: (Failable, Failable)) -> Option<Vec<Slot<Failable>>> {
    let mut slots = Vec::new(alloc);
    slots.push(Slot::new(alloc, radios.0, WLAN0)).ok()?;
    slots.push(Slot::new(alloc, radios.1, WLAN1)).ok()?;
    Some(slots)
}

/// A world whose station went from one radio to the other.
fn roam(alloc: Global, radios: (Failable, Failable)) -> Option<World<MemDisk, Failable>> {
    let steps = steps_of(alloc, ROAMS)?;
    let mut world = start_with(alloc, &[1, 2], slots(alloc, radios)?)?;
    tell(&mut world, &steps).and(Some(world))
}

/// The identifier of the station at a BSSID, by a table.
fn identifier(table: &Table, bssid: Bssid) -> Option<u16> {
    match table.get(bssid, STATION)? {
        Station::Associated(association) => Some(association.aid.number),
        Station::Authenticated => None,
    }
}

fn wants_row(table: &Table, slot: &Slot<Failable>) -> bool {
    slot.wanted(STATION) == identifier(table, slot.bssid())
}

fn wants_rows(table: &Table, slots: &[Slot<Failable>]) -> bool {
    slots.iter().all(|slot| wants_row(table, slot))
}

fn has_row(table: &Table, slot: &Slot<Failable>) -> bool {
    slot.is_up() && slot.installed(STATION) == identifier(table, slot.bssid())
}

fn has_rows(table: &Table, slots: &[Slot<Failable>]) -> bool {
    slots.iter().all(|slot| has_row(table, slot))
}

/// Puts another in the place of a BSSID's. Tells whether the one that comes back has no station.
fn replaces(world: &mut World<MemDisk, Failable>, bssid: Bssid, other: Failable) -> bool {
    match replace_radio(world, bssid, other) {
        Ok(back) => back.installed(STATION).is_none(),
        Err(_) => false,
    }
}

/// The same of both.
fn replaces_both(world: &mut World<MemDisk, Failable>, others: (Failable, Failable)) -> bool {
    let (first, second) = others;
    let replaced = replaces(world, WLAN0, first);
    replaces(world, WLAN1, second) && replaced
}

/// Whether the slots of a world that ends have the table's stations.
fn ends_with_rows(world: World<MemDisk, Failable>) -> bool {
    let (flusher, core, slots) = parts_of(world);
    drop(flusher);
    let has_rows = has_rows(core.table(), &slots);
    drop(slots);
    drop(core);
    has_rows
}

/// Whether the slots want the table's stations, whatever their radios pass on; and whether others that take their place
/// have them, where those that come back have none.
fn follows(
    alloc: Global,
    radios: (Failable, Failable),
    others: (Failable, Failable),
) -> Option<[bool; 3]> {
    let (flusher, core, slots) = parts_of(roam(alloc, radios)?);
    let wanted = wants_rows(core.table(), &slots);
    let mut world = join_parts(alloc, flusher, core, slots);
    let emptied = replaces_both(&mut world, others);
    Some([wanted, emptied, ends_with_rows(world)])
}

/// The same of a run in which the first radio passes so many calls on, and the second so many.
fn follows_behind(alloc: Global, first: u64, second: u64) -> Option<[bool; 3]> {
    let radios = (failing_radio(alloc, first), failing_radio(alloc, second));
    follows(alloc, radios, (lasting_radio(alloc), lasting_radio(alloc)))
}

/// The first radio has five calls of that run: two for the frames of the station's answers, one for its installation, one
/// for its removal, and one for the frame that says so. The second has three.
#[test]
fn other_radios_have_the_stations_of_the_table(rt: HostRuntime) {
    for count in 0..6 * 4 {
        let seen = follows_behind(rt.alloc(), count / 4, count % 4);
        expect(&rt, (count, seen), (count, Some([true, true, true])));
    }
}

/// A radio that has the station under 7.
fn with_station(alloc: Global) -> Option<Sim> {
    let mut radio = Sim::new(alloc);
    radio.install(STATION, 7).ok()?;
    Some(radio)
}

/// What comes back where a BSSID has no slot.
fn slot_refusal(alloc: Global) -> Option<(Option<u16>, WorldFault)> {
    let other = with_station(alloc)?;
    let mut world = start_world(alloc, &[1])?;
    let replaced = replace_radio(&mut world, WLAN1, other);
    drop(world);
    let (back, fault) = replaced.err()?;
    Some((back.installed(STATION), fault))
}

#[test]
fn a_bssid_without_a_slot_gets_no_radio(rt: HostRuntime) -> Result<(), AllocError> {
    expect(
        &rt,
        slot_refusal(rt.alloc()),
        Some((Some(7), WorldFault::NoSlot)),
    );
    let text = format!(in rt.alloc(); "{}", WorldFault::NoSlot)?;
    expect(&rt, text.as_str(), "no such radio");
    Ok(())
}

/// What is told where another radio fails, and whether the slots are up.
fn outcome(
    alloc: Global,
    radios: (Failable, Failable),
    other: Failable,
) -> Option<(WorldFault, [bool; 2])> {
    let mut world = roam(alloc, radios)?;
    let replaced = replace_radio(&mut world, WLAN1, other);
    let up = [world.is_up(WLAN0), world.is_up(WLAN1)];
    drop(world);
    let (_back, fault) = replaced.err()?;
    Some((fault, up))
}

/// The same where it fails at once, and the two before it do not.
fn outcome_at_once(alloc: Global) -> Option<(WorldFault, [bool; 2])> {
    let radios = (lasting_radio(alloc), lasting_radio(alloc));
    outcome(alloc, radios, failing_radio(alloc, 0))
}

#[test]
fn a_radio_that_fails_takes_its_slot_down_alone(rt: HostRuntime) {
    let fault = WorldFault::Slot(WLAN1, SlotFault::WentDown);
    expect(
        &rt,
        outcome_at_once(rt.alloc()),
        Some((fault, [true, false])),
    );
}

/// A world whose station went to a radio that fails as it is given it.
fn roam_to_failing(alloc: Global) -> Option<World<MemDisk, Failable>> {
    roam(alloc, (lasting_radio(alloc), failing_radio(alloc, 1)))
}

/// A spare that fails at once, and one that does not.
fn two_spares(alloc: Global) -> Option<Mending<Failable>> {
    let mut spares = Vec::new(alloc);
    spares.push(failing_radio(alloc, 0)).ok()?;
    spares.push(lasting_radio(alloc)).ok()?;
    Some(Mending::new(spares))
}

/// Whether the slot of that radio is up before it is mended by these, whether it has a try then, and whether the slots
/// have the table's stations.
fn mended_by(alloc: Global, mending: &mut Mending<Failable>) -> Option<[bool; 3]> {
    let mut world = roam_to_failing(alloc)?;
    let up = world.is_up(WLAN1);
    begins_mending(&mut world, WLAN1, mending);
    let tried = mends(&mut world, WLAN1, mending);
    Some([up, tried, ends_with_rows(world)])
}

/// The same by those spares.
fn mended(alloc: Global) -> Option<[bool; 3]> {
    let mut mending = two_spares(alloc)?;
    let mended = mended_by(alloc, &mut mending);
    drop(mending);
    mended
}

#[test]
fn a_slot_of_a_world_is_mended_by_a_spare(rt: HostRuntime) {
    expect(&rt, mended(rt.alloc()), Some([false, false, true]));
}

const NOBODY: Bssid = Bssid(Addr([2, 0, 0, 0, 0, 9]));

/// What is told of tries, of a BSSID without a slot and then of the one whose slot fails, by no spare.
fn tries(alloc: Global) -> Option<([bool; 5], bool)> {
    let mut world = roam_to_failing(alloc)?;
    let mut mending = Mending::new(Vec::new(alloc));
    begins_mending(&mut world, NOBODY, &mut mending);
    begins_mending(&mut world, WLAN1, &mut mending);
    let told = [
        mends(&mut world, NOBODY, &mut mending),
        mends(&mut world, WLAN1, &mut mending),
        mends(&mut world, WLAN1, &mut mending),
        mends(&mut world, WLAN1, &mut mending),
        mends(&mut world, WLAN1, &mut mending),
    ];
    let up = world.is_up(WLAN1);
    drop(mending);
    drop(world);
    Some((told, up))
}

#[test]
fn a_slot_of_a_world_has_three_tries(rt: HostRuntime) {
    let told = [false, true, true, true, false];
    expect(&rt, tries(rt.alloc()), Some((told, false)));
}
