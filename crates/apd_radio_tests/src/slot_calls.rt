//! Calls of slots and tables whose contracts are long, each by a function of its own, so that the proof of a test
//! needn't carry them.
use crate::expect::expect;
use apd_mlme::Out;
use apd_radio::Radio;
use apd_record::Change;
use apd_slot::{Mending, Slot, SlotFault};
use apd_table::{Table, TableFault};
use std::alloc::{AllocError, Global};
use std::process::Abort;

pub(crate) fn apply<R: Radio>(slot: &mut Slot<R>, out: &Out) -> Result<(), SlotFault> {
    slot.apply(out)
}

pub(crate) fn make_room<R: Radio>(slot: &mut Slot<R>, count: usize) -> Result<(), AllocError> {
    slot.make_room(count)
}

/// Polls, and expects this frame, or none.
pub(crate) fn gives<R: Radio>(rt: &impl Abort, slot: &mut Slot<R>, frame: Option<&[u8]>) {
    let received = slot.poll().expect(rt, "a poll");
    expect(rt, received.as_deref(), frame);
}

/// Makes room for outs, and puts them behind those that wait.
pub(crate) fn queue<R: Radio>(rt: &impl Abort, slot: &mut Slot<R>, outs: Vec<Out>) {
    slot.make_room(outs.len()).expect(rt, "memory");
    slot.queue(outs);
}

pub(crate) fn apply_next<R: Radio>(
    slot: &mut Slot<R>,
) -> Option<Result<(Out, Result<(), SlotFault>), AllocError>> {
    slot.apply_next()
}

/// The answer of a slot to the first of the outs that wait.
pub(crate) fn answer<R: Radio>(rt: &impl Abort, slot: &mut Slot<R>) -> Result<(), SlotFault> {
    let applied = apply_next(slot).expect(rt, "an out that waits");
    let (_out, answer) = applied.expect(rt, "memory");
    answer
}

pub(crate) fn resume<R: Radio>(
    slot: &mut Slot<R>,
    alloc: Global,
    table: &Table,
) -> Result<(), SlotFault> {
    slot.resume(alloc, table)
}

pub(crate) fn resync<R: Radio>(slot: &mut Slot<R>) -> Result<(), SlotFault> {
    slot.resync()
}

pub(crate) fn replace<R: Radio>(slot: &mut Slot<R>, radio: R) -> Result<R, (R, SlotFault)> {
    slot.replace(radio)
}

pub(crate) fn begin_mending<R: Radio>(mending: &mut Mending<R>, slot: &mut Slot<R>) {
    mending.begin(slot);
}

pub(crate) fn go_on_mending<R: Radio>(mending: &mut Mending<R>, slot: &mut Slot<R>) -> bool {
    mending.go_on(slot)
}

pub(crate) fn change(table: &mut Table, change: &Change) -> Result<(), TableFault> {
    table.apply(change)
}
