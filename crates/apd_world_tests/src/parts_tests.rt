//! Slots at which outs wait: what a world that is made of them does with these, and what it gives back.
use crate::calls::{Memory, blank_disk, makes, queues, slots_of, start_answers, tell};
use crate::expect::expect;
use crate::said::{Answer, Said, all_said, in_short};
use crate::steps::{OTHER, STATION, WLAN0, steps_of};
use crate::worlds::{configure_radio, new_world};
use apd_base::Aid;
use apd_mlme::{Out, Recipient};
use apd_radio::Sim;
use apd_slot::Slot;
use apd_world::{Step, Told};
use std::alloc::Global;

const RADIO: Recipient = Recipient::Radio(WLAN0);

/// Installs the other station under 9, and the first under 8.
fn installations(alloc: Global) -> Option<Vec<Out>> {
    let mut outs = Vec::new(alloc);
    outs.push(Out::Install(OTHER, Aid::new(9)?)).ok()?;
    outs.push(Out::Install(STATION, Aid::new(8)?)).ok()?;
    Some(outs)
}

/// A slot at which these wait.
fn slots(alloc: Global) -> Option<Vec<Slot<Sim>>> {
    let mut slot = Slot::new(alloc, Sim::new(alloc), WLAN0);
    queues(&mut slot, installations(alloc)?)?;
    let mut slots = Vec::new(alloc);
    slots.push(slot).ok()?;
    Some(slots)
}

/// A new world of it.
fn world(alloc: Global) -> Option<Memory> {
    new_world(alloc, blank_disk(alloc)?, &[1], slots(alloc)?)
}

/// A station authenticates, that is committed and handed out, and each out that waits is applied.
const STEPS: &str = "
    authenticates
    take call call call call publish
    hand-to-wlan0 apply-at-wlan0 apply-at-wlan0 apply-at-wlan0 apply-at-wlan0
";

/// What is told of the hand-out, and of each out that is applied behind it.
fn answers_of(tolds: &[Told]) -> Option<[Said; 5]> {
    match tolds {
        [_, _, _, _, _, _, _, queued, first, second, third, last] => Some([
            in_short(queued),
            in_short(first),
            in_short(second),
            in_short(third),
            in_short(last),
        ]),
        _ => None,
    }
}

/// Has the interface configured.
fn configures(alloc: Global, world: &mut Memory) -> bool {
    configure_radio(alloc, world, 1).is_some()
}

/// What is told of the hand-out, and of what is applied.
fn run_on(alloc: Global, world: &mut Memory) -> Option<[Said; 5]> {
    let steps = steps_of(alloc, STEPS)?;
    if configures(alloc, world) {
        answers_of(tell(world, &steps).as_deref()?)
    } else {
        None
    }
}

/// The same of that world.
fn run(alloc: Global) -> Option<[Said; 5]> {
    let mut world = world(alloc)?;
    let told = run_on(alloc, &mut world);
    drop(world);
    told
}

#[test]
fn what_waits_at_a_slot_is_applied_before_what_is_handed(rt: HostRuntime) {
    let all = [
        Said::Queued(1),
        Said::Installed(9),
        Said::Installed(8),
        Said::Sent,
        Said::Nothing,
    ];
    expect(&rt, run(rt.alloc()), Some(all));
}

/// What a start tells.
fn start(alloc: Global) -> Option<Vec<Answer>> {
    let mut world = world(alloc)?;
    let answers = start_answers(&mut world);
    drop(world);
    all_said(alloc, answers.as_deref().ok()?)
}

#[test]
fn a_start_applies_what_waits_at_a_slot(rt: HostRuntime) {
    let all = [
        (RADIO, Said::Queued(0)),
        (RADIO, Said::Installed(9)),
        (RADIO, Said::Installed(8)),
        (Recipient::Control, Said::Handed(0)),
    ];
    expect(&rt, start(rt.alloc()).as_deref(), Some(&all));
}

/// How many outs wait at a slot, and the identifiers under which both stations are installed.
type Seen = (usize, [Option<u16>; 2]);

fn look(slots: &[Slot<Sim>]) -> Option<Seen> {
    let slot = slots.first()?;
    let installed = [slot.installed(OTHER), slot.installed(STATION)];
    Some((slot.waiting_count(), installed))
}

/// Makes these steps. Whether that came about.
fn goes_on(alloc: Global, world: &mut Memory, steps: &[Step<'static>]) -> bool {
    configures(alloc, world) && makes(world, steps).is_some()
}

/// What is seen of the slot that a world gives back behind so many of the steps.
fn give_back(alloc: Global, count: usize) -> Option<Seen> {
    let steps = steps_of(alloc, STEPS)?;
    let made = steps.get(..count)?;
    let mut world = world(alloc)?;
    let goes_on = goes_on(alloc, &mut world, made);
    let slots = slots_of(world);
    if goes_on { look(&slots) } else { None }
}

#[test]
fn no_out_waits_at_a_slot_that_is_given_back(rt: HostRuntime) {
    for (count, installed) in [
        (0, [None, None]),
        (8, [None, None]),
        (9, [Some(9), None]),
        (10, [Some(9), Some(8)]),
        (12, [Some(9), Some(8)]),
    ] {
        let found = give_back(rt.alloc(), count);
        expect(&rt, (count, found), (count, Some((0, installed))));
    }
}
