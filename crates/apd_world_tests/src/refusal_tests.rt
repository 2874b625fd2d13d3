//! Restarts that a radio refuses: which slot is told, and what is left of it, of those before it and of those behind.
use crate::calls::{Refused, applies, queues, restart_world, slots_of};
use crate::expect::expect;
use crate::steps::{ASSOCIATIONS, OTHER, STATION, WLAN0, WLAN1, steps_of};
use crate::worlds::{confs, radio, recover_world, start_world, stop_after};
use apd_base::{Addr, Aid};
use apd_disk::MemDisk;
use apd_mlme::Out;
use apd_radio::{Failing, Sim};
use apd_slot::{Slot, SlotFault};
use apd_world::{World, WorldFault};
use std::alloc::Global;

type Used = Slot<Failing<Sim>>;

/// A station that each radio has before.
const EARLIER: Addr = Addr([2, 0, 0, 0, 0, 0xcc]);

/// One whose installation waits.
const LATER: Addr = Addr([2, 0, 0, 0, 0, 0xdd]);

/// Has a station installed, and queues the installation of another one.
fn uses(alloc: Global, slot: &mut Used) -> Option<()> {
    applies(slot, &Out::Install(EARLIER, Aid::new(7)?))?;
    let mut outs = Vec::new(alloc);
    outs.push(Out::Install(LATER, Aid::new(8)?)).ok()?;
    queues(slot, outs)
}

/// A slot that was used so, whose radio passes so many calls more.
fn use_slot(alloc: Global, last: u8, calls: u64) -> Option<Used> {
    let radio_of = Failing::new(Sim::new(alloc), calls.checked_add(1)?);
    let mut slot = Slot::new(alloc, radio_of, radio(last));
    uses(alloc, &mut slot)?;
    Some(slot)
}

fn add(alloc: Global, slots: &mut Vec<Used>, last: u8, calls: u64) -> Option<()> {
    slots.push(use_slot(alloc, last, calls)?).ok()
}

/// Three of them.
fn three(alloc: Global, calls: [u64; 3]) -> Option<Vec<Used>> {
    let [first, second, third] = calls;
    let mut slots = Vec::new(alloc);
    add(alloc, &mut slots, 1, first)?;
    add(alloc, &mut slots, 2, second)?;
    add(alloc, &mut slots, 3, third)?;
    Some(slots)
}

/// Whether a slot is up, how many outs wait, and the identifiers under which the earlier station and that of the table
/// are wanted, and installed.
type Seen = (bool, usize, [Option<u16>; 2], [Option<u16>; 2]);

fn look_at(slot: &Used, station: Addr) -> Seen {
    (
        slot.is_up(),
        slot.waiting_count(),
        [slot.wanted(EARLIER), slot.installed(EARLIER)],
        [slot.wanted(station), slot.installed(station)],
    )
}

/// A slot as it was, one that has resumed, also at a BSSID without stations, and one that has not.
const AS_BEFORE: Seen = (true, 1, [Some(7), Some(7)], [None, None]);

const RESUMED: Seen = (true, 0, [None, None], [Some(1), Some(1)]);

const EMPTY: Seen = (true, 0, [None, None], [None, None]);

const DOWN: Seen = (false, 1, [Some(7), None], [None, None]);

/// What is seen of the three slots.
fn look(slots: &[Used]) -> Option<[Seen; 3]> {
    Some([
        look_at(slots.first()?, STATION),
        look_at(slots.get(1)?, OTHER),
        look_at(slots.get(2)?, OTHER),
    ])
}

/// A device on which a station is associated at the first radio, another at the second, and none at the third.
fn device(alloc: Global) -> Option<MemDisk> {
    let steps = steps_of(alloc, ASSOCIATIONS)?;
    stop_after(start_world(alloc, &[1, 2, 3])?, &steps)
}

/// What a restart comes to there.
fn restart_there(
    alloc: Global,
    calls: [u64; 3],
) -> Option<Result<World<MemDisk, Failing<Sim>>, Refused<Failing<Sim>>>> {
    let confs = confs(alloc, &[1, 2, 3])?;
    let slots = three(alloc, calls)?;
    Some(restart_world(alloc, device(alloc)?, confs, slots))
}

/// How many rows another restart finds.
fn rows_of(alloc: Global, device: MemDisk) -> Option<usize> {
    let world = recover_world(alloc, device, &[1, 2, 3])?;
    let rows = world.table().rows();
    drop(world);
    Some(rows)
}

/// Why it is refused, what is seen of the slots, and how many rows another restart finds.
type Refusal = (WorldFault, Option<[Seen; 3]>, Option<usize>);

fn refusal_of(alloc: Global, calls: [u64; 3]) -> Option<Refusal> {
    let (device, slots, fault) = restart_there(alloc, calls)?.err()?;
    let seen = look(&slots);
    drop(slots);
    Some((fault, seen, rows_of(alloc, device)))
}

#[test]
fn a_radio_that_fails_is_told_and_leaves_those_behind(rt: HostRuntime) {
    for (calls, bssid, slots) in [
        ([0, 9, 9], WLAN0, [DOWN, AS_BEFORE, AS_BEFORE]),
        ([9, 0, 9], WLAN1, [RESUMED, DOWN, AS_BEFORE]),
        ([1, 0, 0], WLAN1, [RESUMED, DOWN, AS_BEFORE]),
    ] {
        let fault = WorldFault::Slot(bssid, SlotFault::WentDown);
        let refusal = Some((fault, Some(slots), Some(2)));
        expect(
            &rt,
            (calls, refusal_of(rt.alloc(), calls)),
            (calls, refusal),
        );
    }
}

/// What is seen of the slots behind a restart that is not refused.
fn begin(alloc: Global, calls: [u64; 3]) -> Option<[Seen; 3]> {
    let world = restart_there(alloc, calls)?.ok()?;
    look(&slots_of(world))
}

// It is asked for nothing but to be taken down.
#[test]
fn a_radio_without_stations_refuses_nothing(rt: HostRuntime) {
    let found = begin(rt.alloc(), [1, 1, 0]);
    expect(&rt, found, Some([RESUMED, RESUMED, EMPTY]));
}
