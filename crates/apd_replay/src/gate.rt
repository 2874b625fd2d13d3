//! A gate and clocks that note what a worker comes to.
use crate::generator::Shaker;
use crate::notes::{Lane, Note};
use crate::stage::Stage;
use apd_base::Moment;
use apd_desk::{Clock, Gate, Place, Shared};
use std::sync::Wait;
use std::sync::atomic::{AtomicU64, Ordering};
use std::sync::ledger::Ledger;
use std::thread::yield_now;

/// How often a tick looks whether its turn has come, each time with a yield.
const LOOKS: u64 = 20_000;

/// Notes the numbers of entries, and tells all to stop at one of them.
#[derive(Drop)]
pub(crate) struct NotedGate<'a, L: Ledger, W: Wait> {
    pub(crate) rt: &'a W,
    pub(crate) shared: &'a Shared<L>,
    pub(crate) stage: &'a Stage,
    pub(crate) lane: &'a Lane,
    pub(crate) shaker: Shaker,
    pub(crate) stop_at: Option<u64>,
}

impl<L: Ledger, W: Wait> NotedGate<'_, L, W> {
    fn accept(&self, number: u64) {
        self.lane.log.note(self.rt, Note::Accepted(number));
        if self.stop_at == Some(self.stage.accept(number)) {
            self.shared.stop(self.rt);
        }
    }
}

impl<L: Ledger, W: Wait> Gate for NotedGate<'_, L, W> {
    fn pass(&self, at: Place) {
        match at {
            Place::Accepted(number) => self.accept(number),
            Place::BeforeCall => self.lane.log.note(self.rt, Note::BeforeTurn),
            Place::AfterCall => {
                let stamp = self.stage.stamp();
                self.lane.log.note(self.rt, Note::AfterTurn(stamp));
            }
        }
        self.shaker.shake();
    }
}

/// Tells the stage's moment, and now and then an earlier one, and notes it.
#[derive(Drop)]
pub(crate) struct NotedClock<'a, W: Wait> {
    pub(crate) rt: &'a W,
    pub(crate) stage: &'a Stage,
    pub(crate) lane: &'a Lane,
    pub(crate) shaker: Shaker,
}

impl<W: Wait> Clock for NotedClock<'_, W> {
    fn now(&self) -> Moment {
        self.shaker.shake();
        let now = self.stage.moment();
        let back = if self.shaker.hits(20) {
            self.shaker.below(50_000)
        } else {
            0
        };
        let moment = Moment(now.0.saturating_sub(back));
        self.lane.log.note(self.rt, Note::Moment(moment));
        moment
    }
}

/// The clock of the worker of ticks: so often, after some entries each, much time has passed when it is asked, and the
/// worker makes a turn.
#[derive(Drop)]
pub(crate) struct TickClock<'a, W: Wait> {
    pub(crate) rt: &'a W,
    pub(crate) stage: &'a Stage,
    pub(crate) lane: &'a Lane,
    pub(crate) shaker: Shaker,
    pub(crate) ticks: u64,
    pub(crate) radios: usize,
    pub(crate) asked: AtomicU64,
}

impl<W: Wait> TickClock<'_, W> {
    // Waits for some entries, or until all was received.
    fn wait_for_entries(&self) {
        let from = self.stage.accepted();
        let wanted = self.shaker.below(15);
        for _look in 0..LOOKS {
            let come = self.stage.accepted().wrapping_sub(from) >= wanted;
            if come || self.stage.done() >= self.radios {
                return;
            }
            yield_now();
        }
    }

    // Lets time pass, and notes that a turn comes.
    fn go_on(&self) {
        if !self.stage.begin_tick() {
            return;
        }
        self.stage
            .go_on(self.shaker.below(200_000).wrapping_add(1_000));
        let stamp = self.stage.stamp();
        self.lane.log.note(self.rt, Note::Given(stamp, 0));
        self.lane
            .log
            .note(self.rt, Note::Moment(self.stage.moment()));
    }
}

impl<W: Wait> Clock for TickClock<'_, W> {
    fn now(&self) -> Moment {
        self.stage.end_tick();
        let asked = self.asked.fetch_add(1, Ordering::SeqCst);
        if asked > 0 && asked <= self.ticks {
            self.wait_for_entries();
            self.go_on();
        }
        self.stage.moment()
    }
}
