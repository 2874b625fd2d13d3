//! A slot of a replay: what is settled is handed to it, as it was to that of the run, with which it is compared.
use crate::calls::{begin_mending, go_on_mending, make_step};
use crate::ending::{SlotEnd, held_by};
use crate::fault::Fault;
use crate::history::Calls;
use crate::notes::{Call, Lane, Note};
use crate::plan::RadioPlan;
use crate::radio::NotedRadio;
use apd_base::Bssid;
use apd_disk::MemDisk;
use apd_mlme::Recipient;
use apd_slot::{Mending, Slot, SlotFault};
use apd_world::{Step, Told, World};
use std::alloc::Global;
use std::sync::Wait;

/// How often a slot is looked at behind one entry, at most.
const TURNS: u32 = 100_000;

/// The world of a replay.
pub(crate) type Replayed<'a, W> = World<MemDisk, NotedRadio<'a, W>>;

/// What a slot of the replay is compared with, and by what it is mended.
#[derive(Drop)]
pub(crate) struct Beside<'a, W: Wait> {
    pub(crate) place: usize,
    pub(crate) radio: &'a RadioPlan,
    pub(crate) lane: &'a Lane,
    pub(crate) calls: &'a Calls,
    pub(crate) end: &'a SlotEnd,
    pub(crate) mending: Mending<NotedRadio<'a, W>>,
    pub(crate) is_marked: bool,
}

// Applies the first out that waits at a slot. Gives back what the slot answered; none where no out waits, or memory ran
// out.
fn apply<W: Wait>(world: &mut Replayed<'_, W>, bssid: Bssid) -> Option<Result<(), SlotFault>> {
    let told = make_step(world, Step::Apply(bssid));
    match &told {
        Some(Told::Applied(_, answer)) => Some(*answer),
        _ => None,
    }
}

// Hands out to a slot. Tells how many outs.
fn hand<W: Wait>(world: &mut Replayed<'_, W>, to: Recipient) -> usize {
    let told = make_step(world, Step::Hand(to));
    match &told {
        Some(Told::Queued(count)) => *count,
        _ => 0,
    }
}

impl<'a, W: Wait> Beside<'a, W> {
    fn to(&self) -> Recipient {
        Recipient::Radio(self.radio.bssid)
    }

    // Applies an out, and begins to mend the slot where it went down. Tells how many were taken.
    fn apply_next(&mut self, world: &mut Replayed<'a, W>) -> usize {
        let bssid = self.radio.bssid;
        match apply(world, bssid) {
            Some(Err(SlotFault::WentDown)) => {
                begin_mending(world, bssid, &mut self.mending);
                1
            }
            Some(_) => 1,
            None => 0,
        }
    }

    // Goes on mending the slot, or applies an out. Tells how many were taken.
    fn tend(&mut self, world: &mut Replayed<'a, W>) -> usize {
        let bssid = self.radio.bssid;
        if go_on_mending(world, bssid, &mut self.mending) && !world.is_up(bssid) {
            return 0;
        }
        self.apply_next(world)
    }

    // Hands out to the slot, and applies all that.
    fn hand_out(&mut self, world: &mut Replayed<'a, W>) {
        let mut left = hand(world, self.to());
        for _turn in 0..TURNS {
            if left == 0 {
                return;
            }
            left = left.saturating_sub(self.tend(world));
        }
    }

    // Makes as many tries to mend the slot as its worker made behind its last out.
    fn catch_up(&mut self, rt: &W, world: &mut Replayed<'a, W>) {
        for _try in 0..TURNS {
            if self.lane.log.count(rt) >= self.calls.at_mark {
                return;
            }
            if !go_on_mending(world, self.radio.bssid, &mut self.mending) {
                return;
            }
        }
    }

    // The slot is where its worker ended: it makes as many tries to mend it as that made, and is compared with it. Then,
    // as at the end of a run, its own radio has its tries once more.
    fn mark(&mut self, rt: &W, alloc: Global, world: &mut Replayed<'a, W>) -> Result<(), Fault> {
        let bssid = self.radio.bssid;
        self.catch_up(rt, world);
        let up = world.is_up(bssid);
        if self.end.mark.up != up {
            return Err(Fault::Up(self.place, self.end.mark.up));
        }
        if self.end.mark.noted != up {
            return Err(Fault::Noted(self.place, self.end.mark.noted));
        }
        self.mending = Mending::new(Vec::new(alloc));
        if !up {
            begin_mending(world, bssid, &mut self.mending);
        }
        self.is_marked = true;
        Ok(())
    }

    /// What is settled up to this entry is handed out.
    pub(crate) fn serve(
        &mut self,
        rt: &W,
        alloc: Global,
        world: &mut Replayed<'a, W>,
        number: u64,
    ) -> Result<(), Fault> {
        self.hand_out(world);
        if self.is_marked || number < self.end.mark.seen {
            return Ok(());
        }
        self.mark(rt, alloc, world)
    }

    /// Whether the drivers were asked for the same, in the same order.
    pub(crate) fn check_calls(&self, rt: &W, alloc: Global) -> Result<(), Fault> {
        let notes = self.lane.log.read(rt, alloc)?;
        compare_calls(self.place, self.calls.all.as_slice(), notes.as_slice())
    }

    /// Whether the slot is as it was at the end of the run.
    pub(crate) fn check_slot(
        &self,
        alloc: Global,
        slot: &Slot<NotedRadio<'a, W>>,
    ) -> Result<(), Fault> {
        if slot.is_up() != self.end.up {
            return Err(Fault::Up(self.place, self.end.up));
        }
        if held_by(alloc, slot)? == self.end.stations {
            Ok(())
        } else {
            Err(Fault::Stations(self.place))
        }
    }
}

// Whether calls are those that were noted.
fn compare_calls(place: usize, calls: &[Call], notes: &[Note]) -> Result<(), Fault> {
    for (at, call) in calls.iter().enumerate() {
        match notes.get(at) {
            None => return Err(Fault::MoreCalls(place, notes.len())),
            Some(Note::Called(wanted)) if wanted == call => {}
            Some(_) => return Err(Fault::OtherCall(place, at)),
        }
    }
    if calls.len() < notes.len() {
        return Err(Fault::NoCall(place, calls.len()));
    }
    Ok(())
}
