//! A run's requests, made once more in the order of their numbers on a world, by one thread, and what both did compared.
use crate::beside::{Beside, Replayed};
use crate::calls::{commit_batch, make_step, recover_table, take_apart};
use crate::digest::{digest, digest_of};
use crate::ending::SlotEnd;
use crate::fault::Fault;
use crate::generator::Generator;
use crate::history::{Answered, Entry, History, Quiet, Source};
use crate::notes::Lane;
use crate::plan::{Plan, RadioPlan, station};
use crate::radio::NotedRadio;
use crate::running::{Record, Scene, disk, radios, spares, world};
use crate::stage::Stage;
use apd_base::Moment;
use apd_core::Input;
use apd_ctrl::{Parsed, Placed, parse_command};
use apd_disk::MemDisk;
use apd_mlme::{Out, Recipient};
use apd_slot::{Mending, Slot};
use apd_world::{Commit, Reception, Step, Told};
use std::alloc::{AllocError, Global};
use std::sync::Wait;

/// How far a replay is.
#[derive(Drop)]
struct Replay<'a, W: Wait> {
    rt: &'a W,
    alloc: Global,
    plan: &'a Plan,
    history: &'a History,
    world: Replayed<'a, W>,
    slots: Vec<Beside<'a, W>>,
    // Which of the frames that became no entries were submitted.
    submitted: Vec<bool>,
    replied: usize,
    // Which answers were found.
    found: Vec<bool>,
    // The sums of the tables behind the start, and behind each entry.
    tables: Vec<u64>,
}

// What became an entry, as it was submitted; none where the plan hasn't it.
fn input_of(plan: &Plan, source: Source) -> Option<Input<'_>> {
    match source {
        Source::Frame(radio, place) => received(plan, radio, place),
        Source::Order(place) => order(plan, place),
        Source::Tick => Some(Input::Tick),
    }
}

fn received(plan: &Plan, radio: usize, place: usize) -> Option<Input<'_>> {
    let radio = plan.radios.get(radio)?;
    let frame = radio.frames.get(place)?;
    Some(Input::Received(radio.bssid, frame.bytes.as_slice()))
}

fn order(plan: &Plan, place: usize) -> Option<Input<'_>> {
    let bytes = plan.commands.get(place)?;
    let Parsed::Command { interface, command } = parse_command(bytes.as_slice()) else {
        return None;
    };
    let conf = plan.confs.for_command(interface)?;
    match command.at(conf.bssid, true, place as u64) {
        Placed::Do(event) => Some(Input::Order(event)),
        Placed::Ask(_) => None,
    }
}

// Whether an answer has a text of this sum.
fn is_answer(told: &Told, text: u64) -> bool {
    match told {
        Told::Answered(answer) => digest(answer.text()) == text,
        _ => false,
    }
}

// Makes one step of a list.
fn make<W: Wait>(world: &mut Replayed<'_, W>, step: Step<'_>) -> Result<Told, Fault> {
    make_step(world, step).ok_or(Fault::NoMemory)
}

// Submits what the run was given at a moment. Gives back how it was received; none where memory ran out.
fn accept<W: Wait>(
    world: &mut Replayed<'_, W>,
    input: Input<'_>,
    moment: Moment,
) -> Result<Option<Reception>, Fault> {
    let told = make(world, Step::Accept(input, moment))?;
    match &told {
        Told::Accepted(reception) => Ok(Some(*reception)),
        _ => Ok(None),
    }
}

impl<'a, W: Wait> Replay<'a, W> {
    // Submits a frame that became no entry in the run.
    fn submit_quiet(&mut self, quiet: Quiet) -> Result<(), Fault> {
        let lost = Fault::LostFrame(quiet.radio, quiet.place);
        let input = received(self.plan, quiet.radio, quiet.place).ok_or(lost)?;
        match accept(&mut self.world, input, quiet.moment)? {
            Some(Reception::Quiet(_)) => Ok(()),
            _ => Err(lost),
        }
    }

    // Whether a frame that became no entry in the run would become none now.
    fn is_quiet_now(&self, quiet: &Quiet) -> bool {
        let Some(radio) = self.plan.radios.get(quiet.radio) else {
            return false;
        };
        let Some(frame) = radio.frames.get(quiet.place) else {
            return false;
        };
        let row = self.world.table().get(radio.bssid, station(frame.station));
        frame.kind.is_quiet_of(row)
    }

    // Submits a frame that became no entry, if it may have come right behind this entry, and would become none here. Its
    // row changes only downwards until its worker's next entry, so where it would become none first, and where it was
    // submitted, the row is the same.
    fn try_quiet(&mut self, quiet: Quiet, number: u64) -> Result<bool, Fault> {
        if quiet.from > number {
            return Ok(false);
        }
        if self.is_quiet_now(&quiet) {
            self.submit_quiet(quiet)?;
            return Ok(true);
        }
        if quiet.to <= number {
            return Err(Fault::LostFrame(quiet.radio, quiet.place));
        }
        Ok(false)
    }

    // Submits the frames that became no entries and come right behind an entry.
    fn submit_all_quiet(&mut self, number: u64) -> Result<(), Fault> {
        let history = self.history;
        for (place, quiet) in history.quiet.values().enumerate() {
            if self.submitted.get(place).copied().unwrap_or(false) {
                continue;
            }
            let submitted = self.try_quiet(*quiet, number)?;
            if let Some(known) = self.submitted.get_mut(place) {
                *known = submitted;
            }
        }
        Ok(())
    }

    // Submits a request, which becomes the same entry.
    fn submit(&mut self, number: u64, entry: &Entry) -> Result<(), Fault> {
        let none = Fault::NoEntry(number);
        let input = input_of(self.plan, entry.source).ok_or(none)?;
        match accept(&mut self.world, input, entry.moment)? {
            Some(Reception::Entry(same)) if same == number => Ok(()),
            _ => Err(none),
        }
    }

    // Compares the replies that orders have by now.
    fn compare_reply(&mut self, out: &Out) -> Result<(), Fault> {
        let Out::Text(tag, text) = out else {
            return Ok(());
        };
        let wanted = (*tag, digest(text.as_slice()));
        match self.history.replies.get(self.replied) {
            None => Err(Fault::NoReply(*tag)),
            Some(reply) if *reply == wanted => {
                self.replied = self.replied.wrapping_add(1);
                Ok(())
            }
            Some(reply) => Err(Fault::OtherReply(reply.0)),
        }
    }

    fn compare_each_reply(&mut self, outs: &[Out]) -> Result<(), Fault> {
        for out in outs {
            self.compare_reply(out)?;
        }
        Ok(())
    }

    fn compare_replies(&mut self) -> Result<(), Fault> {
        let told = make(&mut self.world, Step::Hand(Recipient::Control))?;
        match &told {
            Told::Handed(outs) => self.compare_each_reply(outs.as_slice()),
            _ => Err(Fault::NoMemory),
        }
    }

    // Whether the table answers so now.
    fn answers(&mut self, answer: &Answered) -> Result<bool, Fault> {
        for query in answer.queries {
            let told = make(&mut self.world, Step::Ask(query))?;
            if is_answer(&told, answer.text) {
                return Ok(true);
            }
        }
        Ok(false)
    }

    // Looks for the answers that may be of this number.
    fn find_answers(&mut self, number: u64) -> Result<(), Fault> {
        let history = self.history;
        for (place, answer) in history.answers.iter().enumerate() {
            let known = self.found.get(place).copied().unwrap_or(false);
            if known || number < answer.from || number > answer.to {
                continue;
            }
            let found = self.answers(answer)?;
            if let Some(known) = self.found.get_mut(place) {
                *known = found;
            }
        }
        Ok(())
    }

    // Hands out what is settled up to this entry, and compares what was told of it.
    fn hand_out(&mut self, number: u64) -> Result<(), Fault> {
        let Replay {
            rt,
            alloc,
            world,
            slots,
            ..
        } = self;
        for slot in slots.iter_mut() {
            slot.serve(*rt, *alloc, world, number)?;
        }
        self.compare_replies()?;
        self.find_answers(number)
    }

    fn keep_table(&mut self) -> Result<(), Fault> {
        let sum = digest_of(self.alloc, self.world.table())?;
        Ok(self.tables.push(sum)?)
    }

    // Commits the one entry that is not settled.
    fn settle(&mut self, number: u64) -> Result<(), Fault> {
        match commit_batch(&mut self.world) {
            Commit::Settled => self.keep_table(),
            _ => Err(Fault::NotSettled(number)),
        }
    }

    // Nothing was submitted yet, and no answer found.
    fn set_up(&mut self) -> Result<(), AllocError> {
        self.submitted = vec![in self.alloc; false; self.history.quiet.len()]?;
        self.found = vec![in self.alloc; false; self.history.answers.len()]?;
        Ok(())
    }

    // Makes the requests that were settled in the run, and hands out; then makes the others.
    fn replay(&mut self, record: &Record) -> Result<(), Fault> {
        let history = self.history;
        self.set_up()?;
        self.keep_table()?;
        self.hand_out(record.begin)?;
        for (number, entry) in history.entries.iter() {
            self.submit_all_quiet(number.wrapping_sub(1))?;
            self.submit(*number, entry)?;
            self.settle(*number)?;
            if *number <= record.number {
                self.hand_out(*number)?;
            }
        }
        self.submit_all_quiet(record.begin.wrapping_add(record.entries))
    }

    // Compares what each was told.
    fn check(&self) -> Result<(), Fault> {
        for slot in self.slots.iter() {
            slot.check_calls(self.rt, self.alloc)?;
        }
        if let Some(reply) = self.history.replies.get(self.replied) {
            return Err(Fault::OtherReply(reply.0));
        }
        for (place, answer) in self.history.answers.iter().enumerate() {
            if !self.found.get(place).copied().unwrap_or(false) {
                return Err(not_found(answer));
            }
        }
        Ok(())
    }

    // The sum of the table behind an entry.
    fn table(&self, record: &Record, number: u64) -> Option<u64> {
        let place = usize::try_from(number.checked_sub(record.begin)?).ok()?;
        self.tables.get(place).copied()
    }

    // Whether the tables are the same, and the last number where the core has not failed.
    fn check_table(&self, record: &Record) -> Result<(), Fault> {
        if self.table(record, record.number) != Some(record.table) {
            return Err(Fault::Table(record.number));
        }
        let last = record.begin.wrapping_add(record.entries);
        if !record.failed && record.number != last {
            return Err(Fault::Last(record.number));
        }
        Ok(())
    }

    // Whether a table is that behind an entry of the replay, from this one on.
    fn has_table(&self, record: &Record, sum: u64) -> bool {
        let Some(settled) = record.number.checked_sub(record.begin) else {
            return false;
        };
        let from = usize::try_from(settled).unwrap_or(usize::MAX);
        for table in self.tables.iter().skip(from) {
            if *table == sum {
                return true;
            }
        }
        false
    }

    // The slots are compared at the end.
    fn check_slots(self, record: &Record) -> Result<(), Fault> {
        let Replay {
            rt: _,
            alloc,
            plan: _,
            history: _,
            world,
            slots,
            submitted,
            replied: _,
            found,
            tables,
        } = self;
        drop(submitted);
        drop(found);
        drop(tables);
        let others = slots_of(world);
        let compared = compare_slots(alloc, slots.as_slice(), others.as_slice(), record);
        drop(others);
        drop(slots);
        compared
    }
}

// The slots of a world.
fn slots_of<'a, W: Wait>(world: Replayed<'a, W>) -> Vec<Slot<NotedRadio<'a, W>>> {
    let (flusher, core, slots) = take_apart(world);
    drop(flusher);
    drop(core);
    slots
}

// Compares the slots with those of the run.
fn compare_slots<'a, W: Wait>(
    alloc: Global,
    slots: &[Beside<'a, W>],
    others: &[Slot<NotedRadio<'a, W>>],
    record: &Record,
) -> Result<(), Fault> {
    for (beside, slot) in slots.iter().zip(others.iter()) {
        beside.check_slot(alloc, slot)?;
    }
    compare_stations(slots, record)
}

// Compares their stations with those of the table.
fn compare_stations<W: Wait>(slots: &[Beside<'_, W>], record: &Record) -> Result<(), Fault> {
    for (beside, associated) in slots.iter().zip(record.associated.iter()) {
        check_stations(beside.place, beside.end, associated.as_slice())?;
    }
    Ok(())
}

// Whether a slot wants the stations that are associated, and its radio has them, if it is up.
fn check_stations(place: usize, end: &SlotEnd, associated: &[Option<u16>]) -> Result<(), Fault> {
    for (held, wanted) in end.stations.iter().zip(associated) {
        if held.0 != *wanted || (end.up && held.1 != *wanted) {
            return Err(Fault::Stations(place));
        }
    }
    Ok(())
}

fn not_found(answer: &Answered) -> Fault {
    match answer.command {
        Some(tag) => Fault::OtherAnswer(tag),
        None => Fault::OtherTold(answer.from),
    }
}

// Adds a slot of a replay.
fn add_slot<'a, W: Wait>(
    rt: &'a W,
    alloc: Global,
    stage: &'a Stage,
    history: &'a History,
    ends: &'a [SlotEnd],
    place: usize,
    radio: &'a RadioPlan,
    lane: &'a Lane,
    seeds: &mut Generator,
    slots: &mut Vec<Beside<'a, W>>,
) -> Result<(), Fault> {
    let (Some(calls), Some(end)) = (history.calls.get(place), ends.get(place)) else {
        return Err(Fault::NoThread);
    };
    let spares = spares(rt, alloc, stage, radio, lane, seeds, true)?;
    let slot = Beside {
        place,
        radio,
        lane,
        calls,
        end,
        mending: Mending::new(spares),
        is_marked: false,
    };
    Ok(slots.push(slot)?)
}

// The slots of a replay.
fn slots<'a, W: Wait>(
    rt: &'a W,
    alloc: Global,
    scene: Scene<'a>,
    history: &'a History,
    ends: &'a [SlotEnd],
    seeds: &mut Generator,
) -> Result<Vec<Beside<'a, W>>, Fault> {
    let mut slots = Vec::new(alloc);
    let lanes = scene.plan.radios.iter().zip(scene.lanes);
    for (place, (radio, lane)) in lanes.enumerate() {
        add_slot(
            rt,
            alloc,
            scene.stage,
            history,
            ends,
            place,
            radio,
            lane,
            seeds,
            &mut slots,
        )?;
    }
    Ok(slots)
}

// The world of a replay, started.
fn begin_world<'a, W: Wait>(
    rt: &'a W,
    alloc: Global,
    scene: Scene<'a>,
    image: &[u8],
    seeds: &mut Generator,
) -> Result<Replayed<'a, W>, Fault> {
    let radios = radios(rt, alloc, scene, seeds, true)?;
    match disk(alloc, image) {
        Ok(disk) => world(alloc, disk, scene.plan, radios),
        Err(error) => {
            drop(radios);
            Err(error.into())
        }
    }
}

// A replay of a history, at its beginning.
fn begin<'a, W: Wait>(
    rt: &'a W,
    alloc: Global,
    scene: Scene<'a>,
    image: &[u8],
    history: &'a History,
    ends: &'a [SlotEnd],
) -> Result<Replay<'a, W>, Fault> {
    let mut seeds = Generator::new(0);
    let world = begin_world(rt, alloc, scene, image, &mut seeds)?;
    match slots(rt, alloc, scene, history, ends, &mut seeds) {
        Ok(slots) => Ok(Replay {
            rt,
            alloc,
            plan: scene.plan,
            history,
            world,
            slots,
            submitted: Vec::new(alloc),
            replied: 0,
            found: Vec::new(alloc),
            tables: Vec::new(alloc),
        }),
        Err(fault) => {
            drop(world);
            Err(fault)
        }
    }
}

/// The sum of the table that a stop leaves on a device.
pub(crate) fn recovered(alloc: Global, disk: MemDisk, plan: &Plan) -> Result<u64, Fault> {
    match recover_table(alloc, disk.crash(plan.torn)) {
        Some(table) => Ok(digest_of(alloc, &table)?),
        None => Err(Fault::Refused),
    }
}

// Replays, and compares what was told, and the table that the device is left with.
fn replay_and_check<W: Wait>(
    replay: &mut Replay<'_, W>,
    record: &Record,
    left: Result<u64, Fault>,
) -> Result<(), Fault> {
    replay.replay(record)?;
    replay.check()?;
    replay.check_table(record)?;
    if replay.has_table(record, left?) {
        Ok(())
    } else {
        Err(Fault::Recovered(record.number))
    }
}

/// Replays a run, and tells what it did otherwise. `left` is the sum of the table that a stop leaves.
pub(crate) fn compare<W: Wait>(
    rt: &W,
    alloc: Global,
    scene: Scene<'_>,
    image: &[u8],
    history: &History,
    record: &Record,
    left: Result<u64, Fault>,
) -> Result<(), Fault> {
    let ends = record.slots.as_slice();
    let mut replay = begin(rt, alloc, scene, image, history, ends)?;
    match replay_and_check(&mut replay, record, left) {
        Ok(()) => replay.check_slots(record),
        Err(fault) => {
            drop(replay);
            Err(fault)
        }
    }
}
