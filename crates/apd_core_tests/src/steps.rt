//! Steps of a core and of what commits its batches, in rows.
use crate::common::{RADIO, Told, ask, first, hand, new_core, start};
use apd_base::Sequence;
use apd_core::{Core, Input, PublishFault};
use apd_disk::{Disk, MemDisk};
use apd_flusher::Flusher;
use apd_journal::Batch;
use apd_mlme::Recipient;
use apd_record::Change;
use apd_store::{Receipt, format};
use apd_table::Table;
use std::alloc::Global;

/// How many bytes a device of a store has.
const LENGTH: usize = 2_097_216;

/// What is done. Where memory is refused nothing has changed.
#[derive(Clone, Copy)]
pub(crate) enum Step {
    /// The radio starts.
    Start,
    /// The radio receives a frame at a moment, in milliseconds.
    Frame(&'static [u8], u64),
    /// Time has come to a moment.
    Tick(u64),
    /// A batch is taken, and in flight from then on.
    Take,
    /// The receipt of the batch in flight is made, by another store each time.
    Commit,
    /// The receipt of that batch's first entry alone, whose only change is the first, is made.
    CommitFirst,
    /// The receipt that was made is published.
    Publish,
    /// A recipient is handed what is ready.
    Hand(Recipient),
    /// The radio's first station is asked for.
    First,
}

/// How often a step is done, the step, and what is told the last time.
pub(crate) type Row = (u64, Step, Told);

/// A core, the batch in flight, and the receipt that was made last.
#[derive(Drop)]
struct Desk {
    core: Core,
    flight: Option<Batch>,
    receipt: Option<Receipt>,
}

fn new_desk(alloc: Global) -> Option<Desk> {
    Some(Desk {
        core: new_core(alloc)?,
        flight: None,
        receipt: None,
    })
}

fn take(core: &mut Core, flight: &mut Option<Batch>) -> Option<Told> {
    match core.take().ok()? {
        Some(batch) => {
            let last = batch.last;
            *flight = Some(batch);
            Some(("batch", last))
        }
        None => Some(("no batch", 0)),
    }
}

// A batch of the changes, up to an entry.
fn batch_of(alloc: Global, first: u64, last: u64, changes: &[Change]) -> Option<Batch> {
    let changes = Vec::from_slice(alloc, changes).ok()?;
    Some(Batch {
        first,
        last,
        changes: Sequence::from_vec(changes),
    })
}

fn copy_of(alloc: Global, batch: &Batch) -> Option<Batch> {
    batch_of(alloc, batch.first, batch.last, batch.changes.as_slice())
}

fn first_of(alloc: Global, batch: &Batch) -> Option<Batch> {
    batch_of(
        alloc,
        batch.first,
        batch.first,
        batch.changes.as_slice().get(..1)?,
    )
}

// No clause says what the disk holds: a proof would go through two million bytes.
fn blank_disk(alloc: Global, size: usize) -> Option<MemDisk> {
    MemDisk::new(alloc, vec![in alloc; 0u8; size].ok()?).ok()
}

// A flusher of a new store, as if it had committed this table.
fn flusher<D: Disk>(alloc: Global, disk: D, table: &Table) -> Option<Flusher<D>>
where
    D: Drop,
{
    let (store, table) = format(alloc, disk).ok().zip(table.copy(alloc).ok())?;
    Flusher::new(alloc, store, table).ok()
}

fn receipt_of<D: Disk>(flusher: &mut Flusher<D>, batch: Batch) -> Option<Receipt> {
    flusher.commit(batch).ok()
}

// The receipt of a batch behind the core's settled table.
fn commit(alloc: Global, core: &Core, batch: Batch) -> Option<Receipt> {
    let disk = blank_disk(alloc, LENGTH)?;
    receipt_of(&mut flusher(alloc, disk, core.table())?, batch)
}

fn keep(receipt: &mut Option<Receipt>, made: Receipt) -> Option<Told> {
    let last = made.batch().last;
    *receipt = Some(made);
    Some(("receipt", last))
}

// Up to which entry all is settled; or which one the receipt is for that came back.
fn publish(core: &mut Core, receipt: &mut Option<Receipt>) -> Option<Told> {
    match core.publish(receipt.take()?) {
        Ok(()) => Some(("settled", core.number())),
        Err((back, PublishFault::Foreign)) => Some(("foreign", back.batch().last)),
        Err((back, PublishFault::NoMemory)) => {
            *receipt = Some(back);
            None
        }
    }
}

// One step; none where memory is refused, and all is then as it was.
fn act(alloc: Global, desk: &mut Desk, step: Step) -> Option<Told> {
    let Desk {
        core,
        flight,
        receipt,
    } = desk;
    match step {
        Step::Start => start(alloc, core),
        Step::Frame(frame, moment) => ask(core, Input::Received(RADIO, frame), moment),
        Step::Tick(moment) => ask(core, Input::Tick, moment),
        Step::Take => take(core, flight),
        Step::Commit => {
            let batch = copy_of(alloc, flight.as_ref()?)?;
            keep(receipt, commit(alloc, core, batch)?)
        }
        Step::CommitFirst => {
            let batch = first_of(alloc, flight.as_ref()?)?;
            keep(receipt, commit(alloc, core, batch)?)
        }
        Step::Publish => publish(core, receipt),
        Step::Hand(to) => hand(core, to),
        Step::First => first(core),
    }
}

// One step, once more where memory is refused.
fn act_again(alloc: Global, desk: &mut Desk, step: Step) -> Option<Told> {
    match act(alloc, desk, step) {
        Some(told) => Some(told),
        None => act(alloc, desk, step),
    }
}

// The same step as often; what is told the last time.
fn repeat(alloc: Global, desk: &mut Desk, times: u64, step: Step) -> Option<Told> {
    let mut told = None;
    for _time in 0..times {
        told = Some(act_again(alloc, desk, step)?);
    }
    told
}

// The first row of which something else is told, or nothing, and what.
fn first_otherwise(alloc: Global, desk: &mut Desk, rows: &[Row]) -> Option<(usize, Option<Told>)> {
    for (place, (times, step, told)) in rows.iter().enumerate() {
        let is = repeat(alloc, desk, *times, *step);
        if is != Some(*told) {
            return Some((place, is));
        }
    }
    None
}

/// The same of a core whose radio was not started.
pub(crate) fn otherwise(alloc: Global, rows: &[Row]) -> Option<(usize, Option<Told>)> {
    let Some(mut desk) = new_desk(alloc).or_else(|| new_desk(alloc)) else {
        return Some((0, None));
    };
    let found = first_otherwise(alloc, &mut desk, rows);
    drop(desk);
    found
}
