//! Recoveries of which a call fails, and how many calls there are.
use crate::expect::expect;
use crate::faults::calls::{confs, flusher, restart_world};
use crate::faults::cases::{RECOVERY, image_of};
use crate::faults::devices::{device_of, device_with, full_image, place_of, recover_device};
use crate::faults::expected::{Made, RECOVERS, behind};
use crate::faults::sessions::{Session, run, slots};
use apd_disk::{FuseDisk, MemDisk, OnceDisk, Torn};
use apd_radio::Sim;
use apd_slot::Slot;
use apd_store::StoreFault;
use apd_world::{World, WorldFault};
use std::alloc::Global;

/// The device behind a session in which nothing fails.
fn device_behind(alloc: Global, session: Session) -> Option<MemDisk> {
    let device = device_with(alloc, image_of(alloc, session)?)?;
    let (_seen, _behind, device) = run(alloc, session, device)?;
    Some(device)
}

/// How many calls it has served.
fn calls_of(alloc: Global, session: Session) -> Option<usize> {
    Some(device_behind(alloc, session)?.calls().len())
}

// Two are of the recovery.
#[test]
fn the_calls_of_a_session(rt: HostRuntime) {
    expect(
        &rt,
        calls_of(rt.alloc(), Session::ThreeCommits),
        Some(2 + 12),
    );
    expect(&rt, calls_of(rt.alloc(), Session::OneSwitch), Some(2 + 10));
}

/// Recovers it from a device that fails for good behind so many calls. Whether that is not refused.
fn try_recovery(alloc: Global, session: Session, calls: u64) -> Option<bool> {
    let fuse = FuseDisk::new(device_behind(alloc, session)?, calls);
    Some(recover_device(alloc, fuse).is_ok())
}

/// The least number of calls behind which it is not refused.
fn least(alloc: Global, session: Session) -> Option<u64> {
    for calls in 0..9 {
        if try_recovery(alloc, session, calls)? {
            return Some(calls);
        }
    }
    None
}

#[test]
fn a_recovery_makes_two_calls(rt: HostRuntime) {
    for session in [Session::ThreeCommits, Session::OneSwitch] {
        let found = (session, least(rt.alloc(), session));
        expect(&rt, found, (session, Some(RECOVERY)));
    }
}

/// The calls of a recovery, and those of one whose read is not passed on, with another behind it.
const ONE: &[Made] = &RECOVERS;

const TWO_OF_ONE_READ: &[Made] = &[Made::Sync, Made::Sync, Made::Read(0, 2_097_216)];

/// Whether a device has served these calls behind so many.
fn has_served(device: &MemDisk, before: usize, made: &[Made]) -> bool {
    let calls = device.calls().get(before..).unwrap_or(&[]);
    behind(calls, made).is_some_and(|rest| rest.is_empty())
}

/// Why a recovery is refused, if it is; the table that it finds, or another one behind it of the very device that comes
/// back; and this device.
type Recovery = (Option<StoreFault>, Option<u64>, MemDisk);

fn recovery(alloc: Global, device: OnceDisk<MemDisk>) -> Option<Recovery> {
    match recover_device(alloc, device) {
        Ok((device, table)) => Some((None, table, device.into_inner())),
        Err((device, fault)) => recovery_behind(alloc, device, fault),
    }
}

/// One behind another that was refused for this.
fn recovery_behind(
    alloc: Global,
    device: OnceDisk<MemDisk>,
    fault: StoreFault,
) -> Option<Recovery> {
    let (device, table) = recover_device(alloc, device).ok()?;
    Some((Some(fault), table, device.into_inner()))
}

/// The same where the call behind so many others fails, and whether these calls and no others are passed on.
fn recovery_of(
    alloc: Global,
    session: Session,
    calls: u64,
    made: &[Made],
) -> Option<(Option<StoreFault>, Option<u64>, bool)> {
    let device = device_behind(alloc, session)?;
    let before = device.calls().len();
    let (fault, table, device) = recovery(alloc, OnceDisk::new(device, calls))?;
    Some((fault, table, has_served(&device, before, made)))
}

#[test]
fn once_each_call_of_a_recovery(rt: HostRuntime) {
    let fault = Some(StoreFault::Device);
    for session in [Session::ThreeCommits, Session::OneSwitch] {
        for (calls, refusal, made) in [
            (0, fault, ONE),
            (1, fault, TWO_OF_ONE_READ),
            (2, None, ONE),
        ] {
            let found = recovery_of(rt.alloc(), session, calls, made);
            let wanted = Some((refusal, Some(3), true));
            expect(&rt, (calls, session, found), (calls, session, wanted));
        }
    }
}

/// Why a restart is refused, if it is; how many slots come back; the table of the world, or of another one of what came
/// back; and the device.
type Restart = (Option<WorldFault>, usize, Option<u64>, MemDisk);

/// The table of a world that stops, and its device.
fn table_and_device(alloc: Global, world: World<OnceDisk<MemDisk>, Sim>) -> (Option<u64>, MemDisk) {
    let table = place_of(alloc, world.table());
    (table, flusher(world).into_device().into_inner())
}

/// The table and the device of a world with slots that came back.
fn restart_again(
    alloc: Global,
    device: OnceDisk<MemDisk>,
    slots: Vec<Slot<Sim>>,
) -> Option<(Option<u64>, MemDisk)> {
    let (confs, (device, slots)) = confs(alloc).zip(Some((device, slots)))?;
    let world = restart_world(alloc, device, confs, slots).ok()?;
    Some(table_and_device(alloc, world))
}

fn restart(alloc: Global, device: OnceDisk<MemDisk>) -> Option<Restart> {
    let ((confs, slots), device) = confs(alloc).zip(slots(alloc)).zip(Some(device))?;
    match restart_world(alloc, device, confs, slots) {
        Ok(world) => Some(restart_in_one(alloc, world)),
        Err((device, slots, fault)) => restart_behind(alloc, device, slots, fault),
    }
}

/// One that was not refused.
fn restart_in_one(alloc: Global, world: World<OnceDisk<MemDisk>, Sim>) -> Restart {
    let (table, device) = table_and_device(alloc, world);
    (None, 0, table, device)
}

/// One behind another that was refused for this.
fn restart_behind(
    alloc: Global,
    device: OnceDisk<MemDisk>,
    slots: Vec<Slot<Sim>>,
    fault: WorldFault,
) -> Option<Restart> {
    let count = slots.len();
    let (table, device) = restart_again(alloc, device, slots)?;
    Some((Some(fault), count, table, device))
}

/// The same where the call behind so many others fails, and whether these calls and no others are passed on.
fn restart_of(
    alloc: Global,
    calls: u64,
    made: &[Made],
) -> Option<(Option<WorldFault>, usize, Option<u64>, bool)> {
    let device = device_behind(alloc, Session::ThreeCommits)?;
    let before = device.calls().len();
    let (fault, slots, table, device) = restart(alloc, OnceDisk::new(device, calls))?;
    Some((fault, slots, table, has_served(&device, before, made)))
}

#[test]
fn once_each_call_of_a_restart(rt: HostRuntime) {
    let fault = Some(WorldFault::Store(StoreFault::Device));
    for (calls, refusal, slots, made) in [
        (0, fault, 1, ONE),
        (1, fault, 1, TWO_OF_ONE_READ),
        (2, None, 0, ONE),
    ] {
        let found = restart_of(rt.alloc(), calls, made);
        let wanted = Some((refusal, slots, Some(3), true));
        expect(&rt, (calls, found), (calls, wanted));
    }
}

/// The bytes of a store of version 1.
fn old_image(alloc: Global) -> Option<Vec<u8>> {
    let mut image = full_image(alloc, 2)?;
    *image.get_mut(7)? = b'1';
    Some(image)
}

/// Why a restart of it is refused, how many slots come back, and whether a stop leaves it as it was.
type OldRestart = (WorldFault, usize, bool);

/// The same where the call behind so many others fails for good, and a stop leaves such bytes.
fn old_restart(alloc: Global, calls: u64, torn: Torn) -> Option<OldRestart> {
    let image = old_image(alloc)?;
    let found = restart_on(alloc, image.as_slice(), calls, torn);
    drop(image);
    found
}

/// The same of the store of these bytes.
fn restart_on(alloc: Global, image: &[u8], calls: u64, torn: Torn) -> Option<OldRestart> {
    let (device, (confs, slots)) = device_of(alloc, image).zip(confs(alloc).zip(slots(alloc)))?;
    let fuse = FuseDisk::new(device, calls);
    let (fuse, slots, fault) = restart_world(alloc, fuse, confs, slots).err()?;
    let count = slots.len();
    drop(slots);
    let left = fuse.into_inner().crash(torn);
    Some((fault, count, left.bytes() == image))
}

#[test]
fn fuse_each_call_of_a_restart_of_a_store_of_version_1(rt: HostRuntime) {
    for (calls, fault) in [
        (0, StoreFault::Device),
        (1, StoreFault::Device),
        (2, StoreFault::OldVersion),
    ] {
        for torn in [Torn::Old, Torn::New, Torn::Byte(1), Torn::Byte(0x7f)] {
            let found = old_restart(rt.alloc(), calls, torn);
            let refused = (WorldFault::Store(fault), 1, true);
            expect(&rt, (torn, calls, found), (torn, calls, Some(refused)));
        }
    }
}
