//! Radios whose device fails in a run.
use crate::calls::{slots_of, tell};
use crate::expect::expect;
use crate::seen::{Seen, look};
use crate::steps::steps_of;
use crate::worlds::{failing_radio, start_with};
use apd_slot::SlotFault;
use apd_world::Told;
use std::alloc::Global;

/// A station associates, which is committed and handed out.
const ASSOCIATED: &str = "
    authenticates associates
    take call call call call publish
    hand-to-wlan0 apply-at-wlan0 apply-at-wlan0 apply-at-wlan0
";

/// Why an out was not given to the radio.
fn fault_of(told: Option<&Told>) -> Option<SlotFault> {
    match told {
        Some(Told::Applied(_, answer)) => answer.err(),
        _ => None,
    }
}

/// What the slot answers to both answers' frames, and to the installation between them.
fn answers(tolds: &[Told]) -> [Option<SlotFault>; 3] {
    [
        fault_of(tolds.get(9)),
        fault_of(tolds.get(10)),
        fault_of(tolds.get(11)),
    ]
}

/// What a radio's slot answers, and is seen of it then.
fn run(alloc: Global, calls: u64) -> Option<([Option<SlotFault>; 3], Option<Seen>)> {
    let steps = steps_of(alloc, ASSOCIATED)?;
    let mut world = start_with(alloc, &[1], failing_radio(alloc, calls)?)?;
    let tolds = tell(&mut world, &steps);
    let slots = slots_of(world);
    Some((answers(tolds.as_deref()?), look(&slots)))
}

#[test]
fn a_radio_that_fails_loses_a_frame_or_goes_down(rt: HostRuntime) {
    let (lost, down) = (Some(SlotFault::Lost), Some(SlotFault::WentDown));
    for (calls, answers, seen) in [
        (0, [lost, down, lost], (false, Some(1), None)),
        (1, [None, down, lost], (false, Some(1), None)),
        (2, [None, None, lost], (true, Some(1), Some(1))),
        (3, [None, None, None], (true, Some(1), Some(1))),
    ] {
        let found = run(rt.alloc(), calls);
        expect(&rt, (calls, found), (calls, Some((answers, Some(seen)))));
    }
}
