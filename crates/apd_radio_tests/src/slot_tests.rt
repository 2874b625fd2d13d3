use crate::expect::{expect, expect_text};
use crate::slot_calls::{apply, gives, resume};
use crate::slot_samples::{
    ASSOCIATED, FIRST, SECOND, WLAN0, WLAN1, frame, install, replace_radio, replaying, table,
};
use apd_base::{Bssid, Sequence};
use apd_mlme::Out;
use apd_radio::{Radio, Recording, Replaying, Sim};
use apd_slot::{Slot, SlotFault};
use apd_table::Table;
use std::alloc::Global;
use std::process::Abort;

/// The response of wlan0 to an authentication of the first station.
const AUTHENTICATED: [u8; 30] = [
    0xb0, 0, 0, 0, 2, 0, 0, 0, 0, 0xaa, 2, 0, 0, 0, 0, 1, 2, 0, 0, 0, 0, 1, 0, 0, 0, 0, 2, 0, 0, 0,
];

/// Expects this answer to an out.
fn expect_answer<R: Radio>(
    rt: &impl Abort,
    slot: &mut Slot<R>,
    out: &Out,
    wanted: Result<(), SlotFault>,
) {
    expect(rt, apply(slot, out), wanted);
}

/// The outs of an association, and one that is not for a radio.
fn apply_each<R: Radio>(rt: &impl Abort, alloc: Global, slot: &mut Slot<R>) {
    expect_answer(rt, slot, &frame(rt, alloc, &AUTHENTICATED), Ok(()));
    expect_answer(rt, slot, &install(rt, FIRST, 1), Ok(()));
    expect_answer(rt, slot, &frame(rt, alloc, &ASSOCIATED), Ok(()));
    let text = Out::Text(1, Sequence::new(alloc));
    expect_answer(rt, slot, &text, Err(SlotFault::NotMine));
}

/// A slot that records in these bytes what its radio is asked.
fn recording_slot<'a>(
    alloc: Global,
    written: &'a mut Vec<u8>,
    bssid: Bssid,
) -> Slot<Recording<Sim, &'a mut Vec<u8>>> {
    let radio = Recording::new(alloc, Sim::new(alloc), written);
    Slot::new(alloc, radio, bssid)
}

#[test]
fn what_a_slot_applies_is_recorded(rt: HostRuntime) {
    let alloc = rt.alloc();
    let mut written: Vec<u8> = Vec::new(alloc);
    apply_each(&rt, alloc, &mut recording_slot(alloc, &mut written, WLAN0));
    let lines =
        "down\ntx b00000000200000000aa0200000000010200000000010000000002000000\ninstall 02:00:00:00:00:aa 1\ntx 100000000200000000aa02000000000102000000000100000100000001c0010482848b96\ndown\n";
    expect(&rt, written.as_slice(), lines.as_bytes());
}

#[test]
fn a_slot_gives_what_its_radio_received(rt: HostRuntime) {
    let alloc = rt.alloc();
    let mut slot = Slot::new(alloc, replaying(&rt, alloc, b"rx 00"), WLAN0);
    gives(&rt, &mut slot, Some(b"\x00"));
    gives(&rt, &mut slot, None);
}

/// A radio in a box takes the place of another one.
fn replaces(
    rt: &impl Abort,
    alloc: Global,
    radio: Box<dyn Radio + Send>,
    other: Box<dyn Radio + Send>,
) {
    let mut slot = Slot::new(alloc, radio, WLAN0);
    expect_answer(rt, &mut slot, &install(rt, SECOND, 7), Ok(()));
    let old = replace_radio(rt, &mut slot, other);
    expect(rt, old.installed(SECOND), None);
    expect(rt, (slot.is_up(), slot.installed(SECOND)), (true, Some(7)));
}

/// A radio that records nowhere, in a box.
pub(crate) fn boxed_recording(rt: &impl Abort, alloc: Global) -> Box<Recording<Sim, Vec<u8>>> {
    let radio = Recording::new(alloc, Sim::new(alloc), Vec::<u8>::new(alloc));
    Box::new(alloc, radio).ok().expect(rt, "memory")
}

/// A radio that replays these lines, in a box.
pub(crate) fn boxed_replaying(rt: &impl Abort, alloc: Global, lines: &[u8]) -> Box<Replaying> {
    let radio = replaying(rt, alloc, lines);
    Box::new(alloc, radio).ok().expect(rt, "memory")
}

/// A radio in memory, in a box.
pub(crate) fn boxed_sim(rt: &impl Abort, alloc: Global) -> Box<Sim> {
    let boxed = Box::new(alloc, Sim::new(alloc));
    boxed.ok().expect(rt, "memory")
}

#[test]
fn each_kind_is_replaced_by_another(rt: HostRuntime) {
    let alloc = rt.alloc();
    let sim = boxed_sim(&rt, alloc);
    replaces(&rt, alloc, sim, boxed_recording(&rt, alloc));
    let recording = boxed_recording(&rt, alloc);
    replaces(&rt, alloc, recording, boxed_replaying(&rt, alloc, b""));
    let replaying = boxed_replaying(&rt, alloc, b"rx 00");
    replaces(&rt, alloc, replaying, boxed_sim(&rt, alloc));
}

/// Resumes a slot from the table, by which it may want the first station.
fn resumes<R: Radio>(
    rt: &impl Abort,
    alloc: Global,
    slot: &mut Slot<R>,
    table: &Table,
    wants_first: bool,
) {
    expect(rt, resume(slot, alloc, table), Ok(()));
    expect(rt, slot.wanted(FIRST).is_some(), wants_first);
}

/// The same of both slots, one after the other.
fn record_both(rt: &impl Abort, alloc: Global, written: &mut Vec<u8>, table: &Table) {
    let mut slot = recording_slot(alloc, written, WLAN0);
    resumes(rt, alloc, &mut slot, table, false);
    drop(slot);
    let mut slot = recording_slot(alloc, written, WLAN1);
    resumes(rt, alloc, &mut slot, table, true);
}

#[test]
fn a_slot_resumes_its_own_rows_in_order(rt: HostRuntime) {
    let alloc = rt.alloc();
    let mut written: Vec<u8> = Vec::new(alloc);
    record_both(&rt, alloc, &mut written, &table(&rt, alloc));
    let lines =
        "down\ndown\ndown\ndown\ndown\ninstall 02:00:00:00:00:aa 1\ninstall 02:00:00:00:00:bb 2\ndown\n";
    expect(&rt, written.as_slice(), lines.as_bytes());
}

const TEXTS: &[(SlotFault, &str)] = &[
    (SlotFault::WentDown, "driver fault"),
    (SlotFault::Lost, "frame lost"),
    (SlotFault::NotMine, "not for a radio"),
    (SlotFault::NoMemory, "out of memory"),
];

#[test]
fn faults_of_slots_have_texts(rt: HostRuntime) {
    for (fault, text) in TEXTS {
        expect_text(&rt, rt.alloc(), fault, text);
    }
}
