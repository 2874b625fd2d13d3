//! The outs that wait at a slot: their order, what drops them, and what leaves them.
use crate::expect::expect;
use crate::slot_calls::{answer, apply, apply_next, gives, make_room, queue, replace, resume};
use crate::slot_samples::{
    ASSOCIATED, FIRST, SECOND, WLAN0, WLAN1, frame, install, replace_radio, replaying, table,
};
use apd_base::{Addr, Sequence};
use apd_mlme::Out;
use apd_radio::{Failing, Radio, Recording, Sim};
use apd_slot::{Slot, SlotFault};
use apd_table::Table;
use std::alloc::Global;
use std::process::Abort;

const THIRD: Addr = Addr([2, 0, 0, 0, 0, 0xcc]);

type Answer = Result<(), SlotFault>;

/// How many outs wait, and the identifiers under which the three stations are installed.
type Seen = (usize, [Option<u16>; 3]);

fn look<R: Radio>(slot: &Slot<R>) -> Seen {
    let installed = [
        slot.installed(FIRST),
        slot.installed(SECOND),
        slot.installed(THIRD),
    ];
    (slot.waiting_count(), installed)
}

fn expect_seen<R: Radio>(rt: &impl Abort, slot: &Slot<R>, wanted: Seen) {
    expect(rt, look(slot), wanted);
}

/// Applies the outs that wait, and expects these answers, and how many wait behind each.
fn answers<R: Radio>(rt: &impl Abort, slot: &mut Slot<R>, wanted: &[(Answer, usize)]) {
    for row in wanted {
        let told = answer(rt, slot);
        expect(rt, (told, slot.waiting_count()), *row);
    }
}

/// Applies the first of the outs that wait, and expects to see this behind it.
fn applies<R: Radio>(rt: &impl Abort, slot: &mut Slot<R>, seen: Seen) {
    let told = answer(rt, slot);
    expect(rt, (told, look(slot)), (Ok(()), seen));
}

/// Puts two outs behind those that wait.
fn queue_two<R: Radio>(
    rt: &impl Abort,
    alloc: Global,
    slot: &mut Slot<R>,
    first: Out,
    second: Out,
) {
    let mut outs = Vec::new(alloc);
    outs.push(first).ok().expect(rt, "memory");
    outs.push(second).ok().expect(rt, "memory");
    queue(rt, slot, outs);
}

/// Puts an out behind those that wait.
fn queue_one<R: Radio>(rt: &impl Abort, alloc: Global, slot: &mut Slot<R>, out: Out) {
    let mut outs = Vec::new(alloc);
    outs.push(out).ok().expect(rt, "memory");
    queue(rt, slot, outs);
}

/// Queues what installs the first station, and the second.
fn queue_both<R: Radio>(rt: &impl Abort, alloc: Global, slot: &mut Slot<R>) {
    let second = install(rt, SECOND, 2);
    queue_two(rt, alloc, slot, install(rt, FIRST, 1), second);
}

/// Queues what installs the first station and answers it, applies the first of both, and queues behind the other
/// one a text and what takes the station out.
fn queue_twice<R: Radio>(rt: &impl Abort, alloc: Global, slot: &mut Slot<R>) {
    let associated = frame(rt, alloc, &ASSOCIATED);
    queue_two(rt, alloc, slot, install(rt, FIRST, 1), associated);
    let _done = answer(rt, slot);
    let text = Out::Text(1, Sequence::new(alloc));
    queue_two(rt, alloc, slot, text, Out::Remove(FIRST));
}

const OF_THREE: &[(Answer, usize)] = &[(Ok(()), 2), (Err(SlotFault::NotMine), 1), (Ok(()), 0)];

/// Has all that was queued twice applied.
fn apply_queue<R: Radio>(rt: &impl Abort, alloc: Global, slot: &mut Slot<R>) {
    queue_twice(rt, alloc, slot);
    answers(rt, slot, OF_THREE);
}

/// The same by a radio that records it.
fn record_queue(rt: &impl Abort, alloc: Global, written: &mut Vec<u8>) {
    let radio = Recording::new(alloc, Sim::new(alloc), written);
    apply_queue(rt, alloc, &mut Slot::new(alloc, radio, WLAN0));
}

#[test]
fn outs_are_applied_in_the_order_in_which_they_were_queued(rt: HostRuntime) {
    let alloc = rt.alloc();
    let mut written: Vec<u8> = Vec::new(alloc);
    record_queue(&rt, alloc, &mut written);
    let lines =
        "down\ninstall 02:00:00:00:00:aa 1\ntx 100000000200000000aa02000000000102000000000100000100000001c0010482848b96\nremove 02:00:00:00:00:aa\ndown\n";
    expect(&rt, written.as_slice(), lines.as_bytes());
}

/// A slot whose radio passes so many calls on.
fn failing_slot(alloc: Global, calls: u64) -> Slot<Failing<Sim>> {
    Slot::new(alloc, Failing::new(Sim::new(alloc), calls), WLAN0)
}

const BEHIND_FAULT: &[(Answer, usize)] = &[
    (Ok(()), 2),
    (Err(SlotFault::WentDown), 1),
    (Err(SlotFault::Lost), 0),
];

/// Queues three outs at a slot whose radio fails behind the first one, and applies them.
fn apply_behind_fault<R: Radio>(rt: &impl Abort, alloc: Global, slot: &mut Slot<R>) {
    queue_both(rt, alloc, slot);
    queue_one(rt, alloc, slot, frame(rt, alloc, &ASSOCIATED));
    answers(rt, slot, BEHIND_FAULT);
    expect(rt, (slot.is_up(), slot.wanted(SECOND)), (false, Some(2)));
}

#[test]
fn an_out_that_meets_a_fault_of_the_device_is_gone(rt: HostRuntime) {
    let alloc = rt.alloc();
    apply_behind_fault(&rt, alloc, &mut failing_slot(alloc, 1));
}

/// Queues an out at a slot, replaces its radio, and resumes the slot.
fn replace_and_resume<R: Radio>(
    rt: &impl Abort,
    alloc: Global,
    slot: &mut Slot<R>,
    other: R,
    table: &Table,
)
where
    R: Drop,
{
    queue_one(rt, alloc, slot, install(rt, THIRD, 3));
    let _old = replace_radio(rt, slot, other);
    expect(rt, slot.waiting_count(), 1);
    expect(rt, resume(slot, alloc, table), Ok(()));
    let found = (slot.waiting_count(), slot.installed(SECOND));
    expect(rt, found, (0, Some(2)));
}

#[test]
fn only_a_slot_that_resumes_drops_what_waits(rt: HostRuntime) {
    let alloc = rt.alloc();
    let table = table(&rt, alloc);
    let mut slot = Slot::new(alloc, Sim::new(alloc), WLAN1);
    replace_and_resume(&rt, alloc, &mut slot, Sim::new(alloc), &table);
}

/// Has the third station installed at once.
fn install_third<R: Radio>(rt: &impl Abort, slot: &mut Slot<R>) {
    expect(rt, apply(slot, &install(rt, THIRD, 3)), Ok(()));
}

/// Queues two outs, polls, drives the radio and replaces it by another one, and applies both.
fn stays_and_is_applied<R: Radio>(rt: &impl Abort, alloc: Global, slot: &mut Slot<R>, other: R)
where
    R: Drop,
{
    queue_both(rt, alloc, slot);
    gives(rt, slot, Some(b"\x00"));
    expect_seen(rt, slot, (2, [None, None, None]));
    install_third(rt, slot);
    expect_seen(rt, slot, (2, [None, None, Some(3)]));
    drop(replace_radio(rt, slot, other));
    expect_seen(rt, slot, (2, [None, None, Some(3)]));
    applies(rt, slot, (1, [Some(1), None, Some(3)]));
    applies(rt, slot, (0, [Some(1), Some(2), Some(3)]));
}

#[test]
fn what_waits_stays_though_a_radio_is_polled_driven_and_replaced(rt: HostRuntime) {
    let alloc = rt.alloc();
    let mut slot = Slot::new(alloc, replaying(&rt, alloc, b"rx 00"), WLAN0);
    let other = replaying(&rt, alloc, b"");
    stays_and_is_applied(&rt, alloc, &mut slot, other);
}

const OF_BOTH: &[(Answer, usize)] = &[(Ok(()), 1), (Ok(()), 0)];

/// Queues two outs at a slot, which doesn't resume. It is down: what it applies is wanted alone.
fn stays_though_down<R: Radio>(rt: &impl Abort, alloc: Global, slot: &mut Slot<R>, table: &Table) {
    queue_both(rt, alloc, slot);
    expect(rt, resume(slot, alloc, table), Err(SlotFault::WentDown));
    expect(rt, (slot.waiting_count(), slot.wanted(FIRST)), (2, None));
    answers(rt, slot, OF_BOTH);
    let wanted = [slot.wanted(FIRST), slot.wanted(SECOND)];
    expect(rt, (slot.is_up(), wanted), (false, [Some(1), Some(2)]));
}

#[test]
fn a_slot_that_does_not_resume_keeps_what_waits(rt: HostRuntime) {
    let alloc = rt.alloc();
    let table = table(&rt, alloc);
    let mut slot = Slot::new(alloc, Failing::new(Sim::new(alloc), 1), WLAN1);
    stays_though_down(&rt, alloc, &mut slot, &table);
}

/// Why a radio is refused.
fn refusal<R: Radio>(slot: &mut Slot<R>, radio: R) -> Option<SlotFault>
where
    R: Drop,
{
    match replace(slot, radio) {
        Ok(_old) => None,
        Err((_back, fault)) => Some(fault),
    }
}

/// Queues two outs at a slot, and offers it a radio that fails.
fn stays_though_refused<R: Radio>(rt: &impl Abort, alloc: Global, slot: &mut Slot<R>, other: R)
where
    R: Drop,
{
    install_third(rt, slot);
    queue_both(rt, alloc, slot);
    let found = (refusal(slot, other), slot.is_up());
    expect(rt, found, (Some(SlotFault::WentDown), false));
    expect_seen(rt, slot, (2, [None, None, Some(3)]));
}

#[test]
fn a_radio_that_is_refused_leaves_what_waits(rt: HostRuntime) {
    let alloc = rt.alloc();
    let other = Failing::new(Sim::new(alloc), 0);
    stays_though_refused(&rt, alloc, &mut failing_slot(alloc, 1), other);
}

/// Asks for room that no slot has, before and behind two outs.
fn refuse_room<R: Radio>(rt: &impl Abort, alloc: Global, slot: &mut Slot<R>) {
    // None waits: whatever comes brings its own.
    expect(rt, make_room(slot, usize::MAX).is_ok(), true);
    queue_both(rt, alloc, slot);
    expect(rt, make_room(slot, usize::MAX).is_ok(), false);
    expect_seen(rt, slot, (2, [None, None, None]));
    applies(rt, slot, (1, [Some(1), None, None]));
}

#[test]
fn room_that_is_refused_leaves_what_waits(rt: HostRuntime) {
    let alloc = rt.alloc();
    refuse_room(&rt, alloc, &mut Slot::new(alloc, Sim::new(alloc), WLAN0));
}

/// Queues two outs at a slot, has them dropped, and queues them again.
fn drop_and_queue<R: Radio>(rt: &impl Abort, alloc: Global, slot: &mut Slot<R>) {
    install_third(rt, slot);
    queue_both(rt, alloc, slot);
    slot.forget();
    expect_seen(rt, slot, (0, [None, None, Some(3)]));
    let found = (apply_next(slot).is_none(), slot.is_up());
    expect(rt, found, (true, true));
    queue_both(rt, alloc, slot);
    expect_seen(rt, slot, (2, [None, None, Some(3)]));
}

#[test]
fn what_waits_is_dropped_and_all_else_stays(rt: HostRuntime) {
    let alloc = rt.alloc();
    drop_and_queue(&rt, alloc, &mut Slot::new(alloc, Sim::new(alloc), WLAN0));
}
