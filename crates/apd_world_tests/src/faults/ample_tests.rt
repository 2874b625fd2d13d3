//! Calls that take memory and that no other test makes, where memory is ample.
use crate::expect::expect;
use crate::faults::calls::{commit_world, confs, new_slots, recover_store, tell, world_of_store};
use crate::faults::devices::{new_device, place_of};
use crate::faults::sessions::{AUTHENTICATES, starts, world};
use apd_base::{Addr, Bssid};
use apd_conf::Confs;
use apd_disk::Disk;
use apd_journal::{Plan, plan_half};
use apd_radio::{Identifiers, Sim};
use apd_record::{Change, Changes};
use apd_slot::Slot;
use apd_world::{Commit, World};
use std::alloc::Global;
use std::process::Abort;

const WLAN1: Bssid = Bssid(Addr([2, 0, 0, 0, 0, 2]));

const STATION: Addr = Addr([2, 0, 0, 0, 0, 0xaa]);

/// The configurations, and a slot for each.
fn confs_and_slots(alloc: Global) -> Option<(Confs, Vec<Slot<Sim>>)> {
    let confs = confs(alloc)?;
    let slots = new_slots(alloc, &confs);
    Some(confs).zip(slots)
}

/// A store is recovered, and its world begun with a slot for its interface; how many slots there were, and its table.
fn recover_and_begin(alloc: Global) -> Option<(usize, Option<u64>)> {
    let recovered = recover_store(alloc, new_device(alloc)?).ok();
    let ((store, table), (confs, slots)) = recovered.zip(confs_and_slots(alloc))?;
    let count = slots.len();
    let world = world_of_store(alloc, store, table, confs, slots)?;
    let place = place_of(alloc, world.table());
    drop(world);
    Some((count, place))
}

#[test]
fn a_world_is_begun_anew(rt: HostRuntime) {
    expect(&rt, recover_and_begin(rt.alloc()), Some((1, Some(0))));
}

/// What two commits come to, of a world in which a radio starts and a station is to be authenticated, and its table.
fn commits<D: Disk>(
    alloc: Global,
    world: &mut World<D, Sim>,
) -> Option<([Commit; 2], Option<u64>)> {
    let _accepted = starts(alloc, world)?;
    let _accepted = tell(world, &[AUTHENTICATES])?;
    let commits = [commit_world(world), commit_world(world)];
    Some((commits, place_of(alloc, world.table())))
}

fn commits_of_two(alloc: Global) -> Option<([Commit; 2], Option<u64>)> {
    let mut world = world(alloc, new_device(alloc)?)?;
    let commits = commits(alloc, &mut world);
    drop(world);
    commits
}

#[test]
fn a_commit_settles_all_that_waits(rt: HostRuntime) {
    let wanted = ([Commit::Settled, Commit::Nothing], Some(2));
    expect(&rt, commits_of_two(rt.alloc()), Some(wanted));
}

/// Collects that the station is dropped of this BSSID.
fn collect(rt: &impl Abort, changes: &mut Changes, bssid: Bssid) {
    let change = Change::Drop {
        bssid,
        addr: STATION,
    };
    changes.push(change).expect(rt, "memory");
}

/// The plan of a half of the changes that are collected, in the order in which they came.
fn plan(rt: &impl Abort, alloc: Global) -> Plan {
    let mut changes = Changes::new(alloc);
    collect(rt, &mut changes, WLAN1);
    collect(rt, &mut changes, Bssid(STATION));
    plan_half(alloc, 258, changes.into_vec().as_slice()).expect(rt, "memory")
}

const PLANNED: &[u8] = &[
    2, 1, 0, 0, 0, 0, 0, 0, 26, 0, 0, 0, 2, 2, 0, 0, 0, 0, 2, 2, 0, 0, 0, 0, 0xaa, 2, 2, 0, 0, 0,
    0, 0xaa, 2, 0, 0, 0, 0, 0xaa, 0,
];

#[test]
fn a_half_is_planned_of_changes_that_are_collected(rt: HostRuntime) {
    let plan = plan(&rt, rt.alloc());
    expect(&rt, plan.place, 1);
    expect(&rt, plan.bytes.as_slice(), PLANNED);
}

/// Keeps an identifier.
fn insert(rt: &impl Abort, identifiers: &mut Identifiers, addr: Addr, aid: u16) {
    identifiers.insert(addr, aid).expect(rt, "memory");
}

#[test]
fn identifiers_are_kept_by_address(rt: HostRuntime) {
    let mut identifiers = Identifiers::new(rt.alloc());
    insert(&rt, &mut identifiers, STATION, 2);
    insert(&rt, &mut identifiers, WLAN1.0, 7);
    insert(&rt, &mut identifiers, STATION, 3);
    expect(
        &rt,
        identifiers.rows(),
        [(WLAN1.0, 7), (STATION, 3)].as_slice(),
    );
}
