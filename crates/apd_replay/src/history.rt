//! What the notes of a run say: the requests by their numbers, what was told, and to whom.
use crate::fault::Fault;
use crate::notes::{Call, Lane, Note};
use crate::plan::{Plan, RadioPlan};
use crate::running::Record;
use crate::turns::read_turns;
use apd_base::Moment;
use apd_ctrl::Query;
use std::alloc::{AllocError, Global};
use std::collections::BTreeMap;
use std::sync::Wait;

/// What became an entry: the frame at a place of the radio at a place, the command at a place, or a tick.
#[derive(Clone, Copy)]
pub(crate) enum Source {
    Frame(usize, usize),
    Order(usize),
    Tick,
}

/// A request that became an entry.
#[derive(Clone, Copy)]
pub(crate) struct Entry {
    pub(crate) source: Source,
    pub(crate) stamp: u64,
    pub(crate) moment: Moment,
}

/// A frame that became none. It was submitted behind the entry of one number, at or before that of another: of the
/// entries of its own worker, and of ticks, it is known whether they came before.
#[derive(Clone, Copy)]
pub(crate) struct Quiet {
    pub(crate) radio: usize,
    pub(crate) place: usize,
    pub(crate) moment: Moment,
    pub(crate) from: u64,
    pub(crate) to: u64,
}

/// An answer of a sum, which is that to one of two queries as of an entry between two numbers. Where the port's own
/// seat was told, there is no command.
#[derive(Clone, Copy)]
pub(crate) struct Answered {
    pub(crate) command: Option<u64>,
    pub(crate) queries: [Query; 2],
    pub(crate) from: u64,
    pub(crate) to: u64,
    pub(crate) text: u64,
}

/// The calls of a slot's drivers, and how many there were when its worker ended.
#[derive(Drop)]
pub(crate) struct Calls {
    pub(crate) all: Vec<Call>,
    pub(crate) at_mark: usize,
}

/// What the notes of a run say.
#[derive(Drop)]
pub(crate) struct History {
    pub(crate) entries: BTreeMap<u64, Entry>,
    /// The frames that became no entry, by their stamps.
    pub(crate) quiet: BTreeMap<u64, Quiet>,
    pub(crate) calls: Vec<Calls>,
    pub(crate) answers: Vec<Answered>,
    /// The replies to orders that became entries: the commands' places and the sums.
    pub(crate) replies: Vec<(u64, u64)>,
}

// By whom a worker is given what becomes entries: by the radio at a place, by the port, or by the clock.
#[derive(Clone, Copy)]
enum Giver {
    Radio(usize),
    Port,
    Clock,
}

impl Giver {
    fn source(self, place: usize) -> Source {
        match self {
            Giver::Radio(radio) => Source::Frame(radio, place),
            Giver::Port => Source::Order(place),
            Giver::Clock => Source::Tick,
        }
    }
}

// What a worker was given last.
#[derive(Clone, Copy)]
struct Given {
    stamp: u64,
    place: usize,
    moment: Moment,
    number: Option<u64>,
}

// What the notes of one worker say.
#[derive(Drop)]
struct Reading {
    worker: usize,
    // Whether what was given is a turn of ticks, of which each may become an entry.
    is_turn: bool,
    last: Option<Given>,
    given: Vec<Given>,
    calls: Vec<Call>,
    at_mark: usize,
}

impl Reading {
    fn new(alloc: Global, worker: usize, is_turn: bool) -> Reading {
        Reading {
            worker,
            is_turn,
            last: None,
            given: Vec::new(alloc),
            calls: Vec::new(alloc),
            at_mark: 0,
        }
    }

    // Keeps what was given last.
    fn keep(&mut self) -> Result<(), AllocError> {
        if let Some(given) = self.last.take() {
            self.given.push(given)?;
        }
        Ok(())
    }

    fn give(&mut self, stamp: u64, place: usize) -> Result<(), AllocError> {
        self.keep()?;
        self.last = Some(Given {
            stamp,
            place,
            moment: Moment(0),
            number: None,
        });
        Ok(())
    }

    fn tell_moment(&mut self, moment: Moment) {
        if let Some(given) = &mut self.last {
            given.moment = moment;
        }
    }

    fn accept(&mut self, number: u64) -> Result<(), Fault> {
        let Some(given) = self.last else {
            return Err(Fault::NotGiven(self.worker));
        };
        if given.number.is_some() {
            if !self.is_turn {
                return Err(Fault::AcceptedTwice(self.worker));
            }
            self.keep()?;
        }
        self.last = Some(Given {
            number: Some(number),
            ..given
        });
        Ok(())
    }

    fn read(&mut self, note: Note) -> Result<(), Fault> {
        match note {
            Note::Given(stamp, place) => Ok(self.give(stamp, place)?),
            Note::Moment(moment) => {
                self.tell_moment(moment);
                Ok(())
            }
            Note::Accepted(number) => self.accept(number),
            Note::Called(call) => Ok(self.calls.push(call)?),
            _ => Ok(()),
        }
    }
}

// Reads the notes of a worker; of so many of them the calls are counted.
fn read(
    alloc: Global,
    worker: usize,
    is_turn: bool,
    notes: &[Note],
    mark: usize,
) -> Result<Reading, Fault> {
    let mut reading = Reading::new(alloc, worker, is_turn);
    for (place, note) in notes.iter().enumerate() {
        if place == mark {
            reading.at_mark = reading.calls.len();
        }
        reading.read(*note)?;
    }
    if mark >= notes.len() {
        reading.at_mark = reading.calls.len();
    }
    reading.keep()?;
    Ok(reading)
}

// Whether the frames were given in order, each once.
fn check_places(reading: &Reading) -> Result<(), Fault> {
    for (place, given) in reading.given.iter().enumerate() {
        if given.place != place {
            return Err(Fault::FrameOrder(reading.worker));
        }
    }
    Ok(())
}

// Whether the numbers of the worker's entries rise.
fn check_rise(reading: &Reading) -> Result<(), Fault> {
    let mut number = 0;
    for given in reading.given.iter() {
        if let Some(next) = given.number {
            if next <= number {
                return Err(Fault::NumberOrder(reading.worker));
            }
            number = next;
        }
    }
    Ok(())
}

// Whether the frame at a place always becomes an entry.
fn is_answered(radio: &RadioPlan, place: usize) -> bool {
    match radio.frames.get(place) {
        Some(frame) => frame.kind.is_answered(),
        None => false,
    }
}

impl History {
    fn new(alloc: Global) -> History {
        History {
            entries: BTreeMap::new(alloc),
            quiet: BTreeMap::new(alloc),
            calls: Vec::new(alloc),
            answers: Vec::new(alloc),
            replies: Vec::new(alloc),
        }
    }

    fn add_entry(&mut self, given: &Given, source: Source) -> Result<(), Fault> {
        let Some(number) = given.number else {
            return Ok(());
        };
        let entry = Entry {
            source,
            stamp: given.stamp,
            moment: given.moment,
        };
        match self.entries.insert(number, entry)? {
            Some(_) => Err(Fault::NumberTwice(number)),
            None => Ok(()),
        }
    }

    // Adds the entries of a worker.
    fn add_entries(&mut self, reading: &Reading, giver: Giver) -> Result<(), Fault> {
        for given in reading.given.iter() {
            self.add_entry(given, giver.source(given.place))?;
        }
        Ok(())
    }

    // The last tick that was submitted before a stamp, and the first one behind it.
    fn ticks_at(&self, stamp: u64) -> (u64, Option<u64>) {
        let mut behind = 0;
        for (number, entry) in self.entries.iter() {
            match entry.source {
                Source::Tick if entry.stamp > stamp => return (behind, Some(*number)),
                Source::Tick => behind = *number,
                Source::Frame(..) | Source::Order(_) => {}
            }
        }
        (behind, None)
    }

    // Adds a frame that became no entry, between two of its worker's entries. It is left out where the core may have
    // failed by then, since no tick became an entry later.
    fn add_quiet(
        &mut self,
        radio: usize,
        given: &Given,
        between: (u64, Option<u64>),
        record: &Record,
        last: u64,
    ) -> Result<(), Fault> {
        let (behind, tick) = self.ticks_at(given.stamp);
        if record.failed && tick.is_none() {
            return Ok(());
        }
        let own = between.1.unwrap_or(u64::MAX);
        let next = tick.unwrap_or(u64::MAX).min(own);
        let quiet = Quiet {
            radio,
            place: given.place,
            moment: given.moment,
            from: behind.max(between.0).max(record.begin),
            to: next.wrapping_sub(1).min(last),
        };
        self.quiet.insert(given.stamp, quiet)?;
        Ok(())
    }

    // Adds the frames of a radio that became no entries.
    fn add_all_quiet(
        &mut self,
        reading: &Reading,
        radio: &RadioPlan,
        record: &Record,
        last: u64,
    ) -> Result<(), Fault> {
        let mut behind = 0;
        for (at, given) in reading.given.iter().enumerate() {
            if let Some(number) = given.number {
                behind = number;
                continue;
            }
            if is_answered(radio, given.place) {
                refused(reading.worker, given.place, record)?;
                continue;
            }
            let between = (behind, next_number(&reading.given, at));
            self.add_quiet(reading.worker, given, between, record, last)?;
        }
        Ok(())
    }
}

// A frame that always becomes an entry became none: that may be where the core has failed alone.
fn refused(radio: usize, place: usize, record: &Record) -> Result<(), Fault> {
    if record.failed {
        Ok(())
    } else {
        Err(Fault::RefusedFrame(radio, place))
    }
}

// The number of the first entry behind a place.
fn next_number(given: &[Given], at: usize) -> Option<u64> {
    for given in given.iter().skip(at) {
        if given.number.is_some() {
            return given.number;
        }
    }
    None
}

// Whether the numbers of the entries are those behind the start, each once.
fn check_numbers(history: &History, record: &Record) -> Result<u64, Fault> {
    let mut last = record.begin;
    for number in history.entries.keys() {
        last = last.wrapping_add(1);
        if *number != last {
            return Err(Fault::NumberLacking(last));
        }
    }
    if last.wrapping_sub(record.begin) == record.entries {
        Ok(last)
    } else {
        Err(Fault::Count)
    }
}

// Whether what was given behind a fault of the device was accepted nowhere.
fn check_fault(history: &History, fault: Option<u64>) -> Result<(), Fault> {
    let Some(fault) = fault else {
        return Ok(());
    };
    for (number, entry) in history.entries.iter() {
        if entry.stamp > fault {
            return Err(Fault::Behind(*number));
        }
    }
    Ok(())
}

// The stamp of the end of the turn in which the device failed, if it did.
fn fault_in(rt: &impl Wait, alloc: Global, lane: Option<&Lane>) -> Result<Option<u64>, Fault> {
    let notes = notes_of(rt, alloc, lane)?;
    read_turns(notes.as_slice())
}

// The notes of a log.
fn notes_of(rt: &impl Wait, alloc: Global, lane: Option<&Lane>) -> Result<Vec<Note>, Fault> {
    match lane {
        Some(lane) => Ok(lane.log.read(rt, alloc)?),
        None => Err(Fault::NoThread),
    }
}

fn check_radio(reading: &Reading) -> Result<(), Fault> {
    check_places(reading)?;
    check_rise(reading)
}

// Adds a radio's reading, if its frames and numbers are in order.
fn add_checked(readings: &mut Vec<Reading>, reading: Reading) -> Result<(), Fault> {
    match check_radio(&reading) {
        Ok(()) => Ok(readings.push(reading)?),
        Err(fault) => {
            drop(reading);
            Err(fault)
        }
    }
}

// Reads the notes of a radio.
fn read_radio(
    rt: &impl Wait,
    alloc: Global,
    place: usize,
    lane: &Lane,
    mark: usize,
) -> Result<Reading, Fault> {
    let notes = lane.log.read(rt, alloc)?;
    read(alloc, place, false, notes.as_slice(), mark)
}

// Reads the notes of the radios.
fn read_radios(
    rt: &impl Wait,
    alloc: Global,
    lanes: &[Lane],
    record: &Record,
) -> Result<Vec<Reading>, Fault> {
    let mut readings = Vec::new(alloc);
    for (place, (lane, slot)) in lanes.iter().zip(record.slots.iter()).enumerate() {
        let reading = read_radio(rt, alloc, place, lane, slot.mark.notes)?;
        add_checked(&mut readings, reading)?;
    }
    Ok(readings)
}

impl History {
    // Adds the entries of a worker that isn't a radio's.
    fn add_other(
        &mut self,
        alloc: Global,
        plan: &Plan,
        giver: Giver,
        notes: &[Note],
    ) -> Result<(), Fault> {
        let is_turn = matches!(giver, Giver::Clock);
        let reading = read(alloc, plan.radios.len(), is_turn, notes, 0)?;
        check_rise(&reading)?;
        self.add_entries(&reading, giver)
    }

    // Adds what the port's log says.
    fn add_port_log(
        &mut self,
        rt: &impl Wait,
        alloc: Global,
        plan: &Plan,
        failed: bool,
        fault: Option<u64>,
        lane: Option<&Lane>,
    ) -> Result<(), Fault> {
        let notes = notes_of(rt, alloc, lane)?;
        self.add_other(alloc, plan, Giver::Port, notes.as_slice())?;
        self.add_port(alloc, plan, failed, fault, notes.as_slice())
    }

    fn add_tick_log(
        &mut self,
        rt: &impl Wait,
        alloc: Global,
        plan: &Plan,
        lane: Option<&Lane>,
    ) -> Result<(), Fault> {
        let notes = notes_of(rt, alloc, lane)?;
        self.add_other(alloc, plan, Giver::Clock, notes.as_slice())
    }

    // Adds what the port's notes say, and those of ticks, and looks at those of commits.
    fn add_others(
        &mut self,
        rt: &impl Wait,
        alloc: Global,
        plan: &Plan,
        lanes: &[Lane],
        failed: bool,
    ) -> Result<(), Fault> {
        let mut others = lanes.iter().skip(plan.radios.len());
        let (port, ticks) = (others.next(), others.next());
        let fault = fault_in(rt, alloc, others.next())?;
        self.add_port_log(rt, alloc, plan, failed, fault, port)?;
        self.add_tick_log(rt, alloc, plan, ticks)?;
        check_fault(self, fault)
    }

    // Adds the entries of all workers, what the port was told, and the frames that became no entries.
    fn add_all(
        &mut self,
        rt: &impl Wait,
        alloc: Global,
        plan: &Plan,
        lanes: &[Lane],
        record: &Record,
        readings: &[Reading],
    ) -> Result<(), Fault> {
        for reading in readings {
            self.add_entries(reading, Giver::Radio(reading.worker))?;
        }
        self.add_others(rt, alloc, plan, lanes, record.failed)?;
        let last = check_numbers(self, record)?;
        for (reading, radio) in readings.iter().zip(plan.radios.iter()) {
            self.add_all_quiet(reading, radio, record, last)?;
        }
        Ok(())
    }

    // Adds the calls of the drivers.
    fn add_calls(&mut self, readings: Vec<Reading>) -> Result<(), AllocError> {
        for reading in readings {
            let Reading { calls, at_mark, .. } = reading;
            self.calls.push(Calls {
                all: calls,
                at_mark,
            })?;
        }
        Ok(())
    }

    // Adds what the radios' notes and the others say, and then the drivers' calls.
    fn add_readings(
        &mut self,
        rt: &impl Wait,
        alloc: Global,
        plan: &Plan,
        lanes: &[Lane],
        record: &Record,
        readings: Vec<Reading>,
    ) -> Result<(), Fault> {
        match self.add_all(rt, alloc, plan, lanes, record, readings.as_slice()) {
            Ok(()) => Ok(self.add_calls(readings)?),
            Err(fault) => {
                drop(readings);
                Err(fault)
            }
        }
    }

    /// What the notes of a run say.
    pub(crate) fn read(
        rt: &impl Wait,
        alloc: Global,
        plan: &Plan,
        lanes: &[Lane],
        record: &Record,
    ) -> Result<History, Fault> {
        let readings = read_radios(rt, alloc, lanes, record)?;
        let mut history = History::new(alloc);
        match history.add_readings(rt, alloc, plan, lanes, record, readings) {
            Ok(()) => Ok(history),
            Err(fault) => {
                drop(history);
                Err(fault)
            }
        }
    }
}
