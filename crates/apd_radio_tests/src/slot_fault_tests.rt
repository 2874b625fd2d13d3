//! Slots whose driver fails: the stations that are wanted go on to the same radio, or to another one.
use crate::expect::expect;
use crate::slot_calls::{apply, begin_mending, go_on_mending, replace, resync};
use crate::slot_samples::{FIRST, SECOND, WLAN0, install, replace_radio};
use apd_mlme::Out;
use apd_radio::{Failing, Radio, Sim};
use apd_slot::{Mending, Slot, SlotFault};
use std::alloc::Global;
use std::process::Abort;

const WENT_DOWN: Result<(), SlotFault> = Err(SlotFault::WentDown);

/// A radio that passes so many calls on to one in memory.
fn failing_radio(alloc: Global, calls: u64) -> Failing<Sim> {
    Failing::new(Sim::new(alloc), calls)
}

/// Installs two stations, and expects this answer at the second one.
fn install_both<R: Radio>(rt: &impl Abort, slot: &mut Slot<R>, answer: Result<(), SlotFault>) {
    let first = apply(slot, &install(rt, FIRST, 1));
    let second = apply(slot, &install(rt, SECOND, 2));
    expect(rt, [first, second], [Ok(()), answer]);
}

/// Expects that a slot is up with its two stations.
fn expect_both<R: Radio>(rt: &impl Abort, slot: &Slot<R>) {
    let wanted = [slot.wanted(FIRST), slot.wanted(SECOND)];
    let installed = [slot.installed(FIRST), slot.installed(SECOND)];
    let both = [Some(1), Some(2)];
    expect(rt, (slot.is_up(), wanted, installed), (true, both, both));
}

/// Expects that a slot is down, and wants its two stations.
fn expect_down<R: Radio>(rt: &impl Abort, slot: &Slot<R>) {
    let wanted = [slot.wanted(FIRST), slot.wanted(SECOND)];
    expect(rt, (slot.is_up(), wanted), (false, [Some(1), Some(2)]));
}

/// Installs a station at a slot, which gives it to its radio anew.
fn install_and_resync<R: Radio>(rt: &impl Abort, slot: &mut Slot<R>) {
    expect(rt, apply(slot, &install(rt, FIRST, 1)), Ok(()));
    expect(rt, resync(slot), Ok(()));
    expect(rt, (slot.is_up(), slot.installed(FIRST)), (true, Some(1)));
}

#[test]
fn a_slot_gives_its_radio_anew_what_is_wanted(rt: HostRuntime) {
    let alloc = rt.alloc();
    install_and_resync(&rt, &mut Slot::new(alloc, Sim::new(alloc), WLAN0));
}

/// A slot whose radio passes so many calls on.
fn failing_slot(alloc: Global, calls: u64) -> Slot<Failing<Sim>> {
    Slot::new(alloc, failing_radio(alloc, calls), WLAN0)
}

/// Has a slot's two stations installed, and then each given anew to its radio.
fn resync_both<R: Radio>(rt: &impl Abort, slot: &mut Slot<R>, answer: Result<(), SlotFault>) {
    install_both(rt, slot, Ok(()));
    expect(rt, resync(slot), answer);
}

/// Its two stations take a radio two calls, and so does a resync.
#[test]
fn a_resync_fails_at_its_second_station(rt: HostRuntime) {
    let mut slot = failing_slot(rt.alloc(), 2 + 1);
    resync_both(&rt, &mut slot, WENT_DOWN);
    expect_down(&rt, &slot);
    drop(slot);
    let mut slot = failing_slot(rt.alloc(), 2 + 2);
    resync_both(&rt, &mut slot, Ok(()));
    expect_both(&rt, &slot);
}

/// Offers a slot a radio that fails at its second station.
fn refuse_radio<R: Radio>(rt: &impl Abort, slot: &mut Slot<R>, radio: R)
where
    R: Drop,
{
    let refused = replace(slot, radio).err();
    let (back, fault) = refused.expect(rt, "a radio that is refused");
    let found = (fault, back.installed(FIRST));
    drop(back);
    expect(rt, found, (SlotFault::WentDown, None));
    expect_down(rt, slot);
}

/// Gives a slot a radio that doesn't fail.
fn take_radio<R: Radio>(rt: &impl Abort, slot: &mut Slot<R>, radio: R)
where
    R: Drop,
{
    let old = replace_radio(rt, slot, radio);
    expect(rt, old.installed(FIRST), None);
    expect_both(rt, slot);
}

#[test]
fn a_radio_that_fails_at_its_second_station_is_handed_back(rt: HostRuntime) {
    let alloc = rt.alloc();
    let mut slot = failing_slot(alloc, 1);
    install_both(&rt, &mut slot, WENT_DOWN);
    refuse_radio(&rt, &mut slot, failing_radio(alloc, 1));
    take_radio(&rt, &mut slot, failing_radio(alloc, 2));
}

/// Spares that pass so many calls on.
fn mending(rt: &impl Abort, alloc: Global, calls: &[u64]) -> Mending<Failing<Sim>> {
    let mut spares = Vec::new(alloc);
    for count in calls {
        spares
            .push(failing_radio(alloc, *count))
            .expect(rt, "memory");
    }
    Mending::new(spares)
}

/// Has a slot's second station go, at which its radio fails.
fn fail_at_removal<R: Radio>(rt: &impl Abort, slot: &mut Slot<R>) {
    expect(rt, apply(slot, &Out::Remove(SECOND)), WENT_DOWN);
    let station = (slot.is_up(), slot.wanted(FIRST), slot.wanted(SECOND));
    expect(rt, station, (false, Some(1), None));
}

/// At the first fault the second of three spares serves, for its two stations; it fails at its third call, and then the
/// third serves. No try is left to a radio that serves.
#[test]
fn each_fault_takes_the_next_spare(rt: HostRuntime) {
    let alloc = rt.alloc();
    let mut slot = failing_slot(alloc, 1);
    let mut mending = mending(&rt, alloc, &[0, 2, 1]);
    install_both(&rt, &mut slot, WENT_DOWN);
    begin_mending(&mut mending, &mut slot);
    expect_both(&rt, &slot);
    expect(&rt, go_on_mending(&mut mending, &mut slot), false);
    fail_at_removal(&rt, &mut slot);
    begin_mending(&mut mending, &mut slot);
    let station = (slot.is_up(), slot.installed(FIRST), slot.installed(SECOND));
    expect(&rt, station, (true, Some(1), None));
    expect(&rt, go_on_mending(&mut mending, &mut slot), false);
}

/// A radio that fails for good is given anew three times what is wanted.
#[test]
fn a_slot_without_a_spare_has_three_tries(rt: HostRuntime) {
    let alloc = rt.alloc();
    let mut slot = failing_slot(alloc, 1);
    let mut mending = mending(&rt, alloc, &[]);
    install_both(&rt, &mut slot, WENT_DOWN);
    begin_mending(&mut mending, &mut slot);
    for left in [true, true, true, false] {
        expect(&rt, go_on_mending(&mut mending, &mut slot), left);
        expect_down(&rt, &slot);
    }
}
