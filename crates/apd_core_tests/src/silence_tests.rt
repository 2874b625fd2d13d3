//! When stations were heard, and which of them a tick ends.
use crate::common::{AUTHENTICATION, Told, ask, take_batch};
use crate::crowd::{Key, crowd, key_of, probe};
use crate::expect::expect;
use crate::steps::{Step, otherwise};
use apd_core::{Core, Input};
use apd_record::Change;
use std::alloc::Global;

// Hears as many stations of a radio at moment 1.
fn hear(alloc: Global, core: &mut Core, radio: u8, stations: u16) -> Option<()> {
    for number in 0..stations {
        let key = key_of(radio, number);
        let frame = probe(alloc, key)?;
        ask(core, Input::Received(key.0, &frame), 1)?;
    }
    Some(())
}

// Hears as many stations of each of eight radios, but for the last of the last radio.
fn hear_all_but_one(alloc: Global, core: &mut Core, stations: u16) -> Option<()> {
    for radio in 1..8u8 {
        hear(alloc, core, radio, stations)?;
    }
    hear(alloc, core, 8, stations.saturating_sub(1))
}

// The station of the only change, where it is dropped.
fn only_drop(changes: &[Change]) -> Option<Key> {
    match changes {
        [Change::Drop { bssid, addr }] => Some((*bssid, *addr)),
        _ => None,
    }
}

// The station of the only change that a core gives, where it is dropped.
fn take_drop(core: &mut Core) -> Option<Key> {
    only_drop(take_batch(core)?.changes.as_slice())
}

// What is told of three ticks.
fn ticks(core: &mut Core) -> Option<(Told, Told, Told)> {
    let first = ask(core, Input::Tick, 299_999)?;
    let second = ask(core, Input::Tick, 300_000)?;
    let third = ask(core, Input::Tick, 300_000)?;
    Some((first, second, third))
}

// The same once all but one were heard, and the station that goes.
fn ticks_and_drop(
    alloc: Global,
    core: &mut Core,
    stations: u16,
) -> Option<((Told, Told, Told), Key)> {
    hear_all_but_one(alloc, core, stations)?;
    Some((ticks(core)?, take_drop(core)?))
}

// The same of eight radios with as many stations each.
fn silent(alloc: Global, stations: u16) -> Option<((Told, Told, Told), Key)> {
    ticks_and_drop(alloc, &mut crowd(alloc, stations)?, stations)
}

#[test]
fn a_tick_names_the_only_silent_station(rt: HostRuntime) {
    let told = (("nothing", 0), ("entry", 1), ("nothing", 0));
    expect(&rt, silent(rt.alloc(), 2007), Some((told, key_of(8, 2006))));
}

// The station is heard at 0, at 10 and at 5: it is silent for 300 seconds at 300,005.
#[test]
fn moments_may_go_back(rt: HostRuntime) {
    let rows = [
        (1, Step::Start, ("entry", 1)),
        (1, Step::Frame(AUTHENTICATION, 0), ("entry", 2)),
        (1, Step::Tick(10), ("nothing", 0)),
        (1, Step::Frame(AUTHENTICATION, 10), ("entry", 3)),
        (1, Step::Tick(5), ("nothing", 0)),
        (1, Step::Frame(AUTHENTICATION, 5), ("entry", 4)),
        (1, Step::Tick(300_004), ("nothing", 0)),
        (1, Step::Tick(300_005), ("entry", 5)),
    ];
    expect(&rt, otherwise(rt.alloc(), &rows), None);
}
