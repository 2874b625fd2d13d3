//! What is told of runs.
use crate::fault::Fault;
use crate::history::{History, Source};
use crate::notes::{Lane, Note};
use crate::running::{Record, Scene};
use std::alloc::Global;
use std::sync::Wait;
use std::{fmt, io};

/// What runs came to, in all.
#[derive(Clone, Copy)]
pub(crate) struct Sums {
    runs: u64,
    failed: u64,
    entries: u64,
    ticks: u64,
    orders: u64,
    quiet: u64,
    calls: u64,
    replies: u64,
    answers: u64,
    unsettled: u64,
    down: u64,
}

fn add(sum: &mut u64, count: usize) {
    *sum = sum.wrapping_add(count as u64);
}

impl Sums {
    /// No run.
    pub(crate) fn new() -> Sums {
        Sums {
            runs: 0,
            failed: 0,
            entries: 0,
            ticks: 0,
            orders: 0,
            quiet: 0,
            calls: 0,
            replies: 0,
            answers: 0,
            unsettled: 0,
            down: 0,
        }
    }

    /// Adds a run.
    pub(crate) fn add(&mut self, record: &Record, history: &History) {
        add(&mut self.runs, 1);
        add(&mut self.failed, usize::from(record.failed));
        add(&mut self.entries, history.entries.len());
        add(&mut self.quiet, history.quiet.len());
        add(&mut self.replies, history.replies.len());
        add(&mut self.answers, history.answers.len());
        for calls in history.calls.iter() {
            add(&mut self.calls, calls.all.len());
        }
        for slot in record.slots.iter() {
            add(&mut self.down, usize::from(!slot.mark.up));
        }
        for (number, entry) in history.entries.iter() {
            match entry.source {
                Source::Tick => add(&mut self.ticks, 1),
                Source::Order(_) => add(&mut self.orders, 1),
                Source::Frame(..) => {}
            }
            add(&mut self.unsettled, usize::from(*number > record.number));
        }
    }
}

impl fmt::Display for Sums {
    fn fmt<W: fmt::Write>(&self, f: &mut fmt::Formatter<W>) -> fmt::Result {
        let Sums {
            runs,
            failed,
            entries,
            ticks,
            orders,
            quiet,
            calls,
            replies,
            answers,
            unsettled,
            down,
        } = self;
        writeln!(f, "runs {runs}, of which the device failed in {failed}")?;
        writeln!(
            f,
            "entries {entries}, of which ticks {ticks}, orders {orders}, never settled {unsettled}"
        )?;
        writeln!(
            f,
            "frames that became none {quiet}, calls of drivers {calls}, slots down at the end {down}"
        )?;
        write!(f, "replies to orders {replies}, answers {answers}")
    }
}

fn tell_note(rt: &(impl Print), note: Note) -> io::Result<()> {
    println!(rt; "  {note:?}")
}

fn tell_lane<R: Print + Wait>(rt: &R, alloc: Global, place: usize, lane: &Lane) -> io::Result<()> {
    println!(rt; "log {place}:")?;
    let notes = lane.log.read(rt, alloc)?;
    for note in notes.iter() {
        tell_note(rt, *note)?;
    }
    Ok(())
}

/// Tells what a run did otherwise, its plan, and what was noted of it: its recorded steps.
pub(crate) fn tell_fault<R: Print + Wait>(
    rt: &R,
    alloc: Global,
    scene: Scene<'_>,
    fault: Fault,
) -> io::Result<()> {
    let plan = scene.plan;
    println!(rt; "by {}: {fault}", plan.seed)?;
    println!(rt;
        "ends {:?}, the device {:?}, {:?}",
        plan.end, plan.device, plan.torn
    )?;
    for (place, lane) in scene.lanes.iter().enumerate() {
        tell_lane(rt, alloc, place, lane)?;
    }
    Ok(())
}
