//! A control port that notes what it gives and what it is told.
use crate::digest::digest;
use crate::frames::{FIRST_STATION, STATIONS};
use crate::generator::Shaker;
use crate::notes::{Lane, Note, Seen};
use crate::plan::{End, Plan, station};
use crate::stage::Stage;
use apd_ctrl::Query;
use apd_desk::{Port, PortFault, Seat, Shared};
use std::alloc::Global;
use std::sync::Wait;
use std::sync::ledger::Ledger;

/// How often the port is polled at most, and how often once all was given.
const POLLS: u64 = 40_000;

const LAST_POLLS: u64 = 300;

/// Gives the commands of a plan, and tells all to stop when that says so. Before a command and before a reply its own
/// seat asks what is settled.
#[derive(Drop)]
pub(crate) struct NotedPort<'a, L: Ledger, W: Wait> {
    pub(crate) rt: &'a W,
    pub(crate) alloc: Global,
    pub(crate) shared: &'a Shared<L>,
    pub(crate) seat: Seat<L>,
    pub(crate) stage: &'a Stage,
    pub(crate) lane: &'a Lane,
    /// The logs of the radios, and others.
    pub(crate) lanes: &'a [Lane],
    pub(crate) shaker: Shaker,
    pub(crate) plan: &'a Plan,
    pub(crate) polls: u64,
    pub(crate) last_polls: u64,
    // The number of the last note of what its seat was told.
    pub(crate) told: Option<u64>,
}

impl<L: Ledger, W: Wait> NotedPort<'_, L, W> {
    /// The port's seat.
    pub(crate) fn into_seat(self) -> Seat<L> {
        let NotedPort { seat, .. } = self;
        seat
    }

    // Whether all was received and asked.
    fn is_given(&self) -> bool {
        self.stage.done() >= self.plan.radios.len() && self.lane.next() >= self.plan.commands.len()
    }

    // Asks once more whether all entries were settled, and tells so, or that it took too long.
    fn ask_if_settled(&mut self) -> bool {
        self.last_polls = self.last_polls.wrapping_add(1);
        self.ask();
        self.seat.seen_number() >= self.stage.last() || self.last_polls > LAST_POLLS
    }

    // Counts a poll, and tells whether all are to stop.
    fn count_poll(&mut self) -> bool {
        self.polls = self.polls.wrapping_add(1);
        if self.polls >= POLLS {
            return true;
        }
        match self.plan.end {
            End::AllGiven | End::AtEntry(_) => self.is_given(),
            End::AllSettled => self.is_given() && self.ask_if_settled(),
            End::AtPoll(poll) => self.polls > poll,
        }
    }

    // What its own seat asks: about one of the radios.
    fn query(&self) -> Query {
        let count = self.plan.radios.len();
        let place = usize::try_from(self.shaker.below(count as u64)).unwrap_or(0);
        let last = u8::try_from(self.shaker.below(u64::from(STATIONS))).unwrap_or(0);
        let addr = station(FIRST_STATION.wrapping_add(last));
        match (self.plan.radios.get(place), self.shaker.below(4)) {
            (Some(radio), 0) => Query::Sta(radio.bssid, addr),
            (Some(radio), 1) => Query::Next(radio.bssid, addr),
            (Some(radio), _) => Query::First(radio.bssid),
            (None, _) => Query::Ping,
        }
    }

    // Its own seat asks, and notes what it is told; not always where that is of the same number as the last one.
    fn ask(&mut self) {
        let query = self.query();
        let Ok(answer) = self.shared.ask(self.rt, &mut self.seat, query) else {
            return;
        };
        let number = answer.number();
        if self.told == Some(number) && !self.shaker.hits(4) {
            return;
        }
        self.told = Some(number);
        let told = Note::Told(query, number, digest(answer.text()));
        self.lane.log.note(self.rt, told);
    }

    // What is seen of the radio that a command is about.
    fn seen(&self, command: &[u8]) -> Option<Seen> {
        let place = self.plan.meant(command)?;
        let radio = self.plan.radios.get(place)?;
        let lane = self.lanes.get(place)?;
        let before = lane.troubles();
        let up = self.shared.is_noted_up(self.rt, radio.bssid);
        Some(Seen {
            before,
            up,
            behind: lane.troubles(),
        })
    }

    // Notes it.
    fn look(&self, command: &[u8]) {
        if let Some(seen) = self.seen(command) {
            self.lane.log.note(self.rt, Note::Seen(seen));
        }
    }

    // Notes it of the command of a tag.
    fn look_at(&self, tag: u64) {
        if let Some(command) = self.plan.command(tag) {
            self.look(command);
        }
    }

    // The next command.
    fn next(&mut self) -> Result<Option<(u64, Vec<u8>)>, PortFault> {
        let place = self.lane.next();
        let Some(command) = self.plan.commands.get(place) else {
            return Ok(None);
        };
        let bytes = Vec::from_slice(self.alloc, command.as_slice())?;
        self.ask();
        self.look(command.as_slice());
        self.lane.go_on();
        let note = Note::Given(self.stage.stamp(), place);
        self.lane.log.note(self.rt, note);
        Ok(Some((place as u64, bytes)))
    }
}

impl<L: Ledger, W: Wait> Port for NotedPort<'_, L, W> {
    fn poll(&mut self) -> Result<Option<(u64, Vec<u8>)>, PortFault> {
        self.shaker.shake();
        if self.count_poll() {
            self.shared.stop(self.rt);
            return Ok(None);
        }
        if self.shaker.hits(3) {
            return Ok(None);
        }
        match self.shaker.below(120) {
            0 => Err(PortFault::Device),
            1 => Err(PortFault::NoMemory),
            _ => self.next(),
        }
    }

    fn reply(&mut self, tag: u64, text: &[u8]) -> Result<(), PortFault> {
        self.ask();
        self.look_at(tag);
        self.lane
            .log
            .note(self.rt, Note::Replied(tag, digest(text)));
        match self.shaker.below(80) {
            0 => Err(PortFault::Device),
            1 => Err(PortFault::NoMemory),
            _ => Ok(()),
        }
    }
}
