//! What a start, a flush and a hand-out answer over a radio whose device fails: they end well, and tell it.
use crate::calls::{
    Answers, confs_of, flush_answers, hand_out_answers, makes, restart_world, slots_of,
    start_answers,
};
use crate::expect::expect;
use crate::said::{Answer, Said, all_said};
use crate::seen::{Seen, look};
use crate::steps::{ASSOCIATION, WLAN0, steps_of};
use crate::worlds::{conf, failing_radio, start_with, start_world, stop_after};
use apd_base::AclMode;
use apd_conf::Confs;
use apd_disk::MemDisk;
use apd_mlme::Recipient;
use apd_radio::{Failing, Sim};
use apd_slot::SlotFault;
use apd_world::{World, WorldFault};
use std::alloc::Global;

/// A world with a radio whose device fails.
type Failed = World<MemDisk, Failing<Sim>>;

/// What is told by a call that is not refused.
fn answers_if_ok(alloc: Global, answers: Result<Answers, WorldFault>) -> Option<Vec<Answer>> {
    match answers {
        Ok(answers) => all_said(alloc, &answers),
        Err(_) => None,
    }
}

const RADIO: Recipient = Recipient::Radio(WLAN0);

/// What is told of an out at which the slot went down, and of a frame that was not sent.
const DOWN: Said = Said::Refused(SlotFault::WentDown);

const LOST: Said = Said::Refused(SlotFault::Lost);

/// The answer that so many outs wait for the radio.
fn queued(count: usize) -> Answer {
    (RADIO, Said::Queued(count))
}

/// The last answer: that none was for control.
const NONE: Answer = (Recipient::Control, Said::Handed(0));

/// The answers to a hand-out where this is told of each out that the radio is given; control is given its own last.
fn answers_of_three(applied: [Said; 3]) -> [Answer; 5] {
    let [first, second, third] = applied;
    [
        queued(3),
        (RADIO, first),
        (RADIO, second),
        (RADIO, third),
        NONE,
    ]
}

fn answers_of_two(applied: [Said; 2]) -> [Answer; 4] {
    let [first, second] = applied;
    [queued(2), (RADIO, first), (RADIO, second), NONE]
}

fn answers_of_one(said: Said) -> [Answer; 3] {
    [queued(1), (RADIO, said), NONE]
}

fn answers_of_none() -> [Answer; 2] {
    [queued(0), NONE]
}

/// What a flush answers behind these steps.
fn flush_after(alloc: Global, world: &mut Failed, words: &str) -> Option<Vec<Answer>> {
    makes(world, &steps_of(alloc, words)?)?;
    answers_if_ok(alloc, flush_answers(world))
}

/// What a flush answers once a station has authenticated and associated, over a radio that passes so many calls.
fn flush(alloc: Global, calls: u64) -> Option<Vec<Answer>> {
    let mut world = start_with(alloc, &[1], failing_radio(alloc, calls)?)?;
    let answers = flush_after(alloc, &mut world, "authenticates associates");
    drop(world);
    answers
}

/// What a hand-out answers behind these steps.
fn hand_out_after(alloc: Global, world: &mut Failed, words: &str) -> Option<Vec<Answer>> {
    makes(world, &steps_of(alloc, words)?)?;
    answers_if_ok(alloc, hand_out_answers(world))
}

/// What a hand-out answers once that is committed.
fn hand_out(alloc: Global, calls: u64) -> Option<Vec<Answer>> {
    let mut world = start_with(alloc, &[1], failing_radio(alloc, calls)?)?;
    let answers = hand_out_after(alloc, &mut world, ASSOCIATION);
    drop(world);
    answers
}

/// How many calls a radio passes, and what is then told of both answers' frames, and of the installation between them.
type Row = (u64, [Said; 3]);

fn rows() -> [Row; 4] {
    [
        (0, [LOST, DOWN, LOST]),
        (1, [Said::Sent, DOWN, LOST]),
        (2, [Said::Sent, Said::Installed(1), LOST]),
        (3, [Said::Sent, Said::Installed(1), Said::Sent]),
    ]
}

#[test]
fn a_flush_tells_what_a_radio_was_not_given(rt: HostRuntime) {
    for (calls, applied) in rows() {
        let found = flush(rt.alloc(), calls);
        let answers = answers_of_three(applied);
        expect(&rt, (calls, found.as_deref()), (calls, Some(&answers)));
    }
}

#[test]
fn a_hand_out_tells_what_a_radio_was_not_given(rt: HostRuntime) {
    for (calls, applied) in rows() {
        let found = hand_out(rt.alloc(), calls);
        let answers = answers_of_three(applied);
        expect(&rt, (calls, found.as_deref()), (calls, Some(&answers)));
    }
}

/// Whether a flush behind a step tells this.
fn tells(alloc: Global, world: &mut Failed, word: &str, answers: &[Answer]) -> bool {
    flush_after(alloc, world, word).as_deref() == Some(answers)
}

/// Whether each tells what it should, where the station authenticates, associates and does so once more, at a radio
/// that passes one call.
fn all_tell(alloc: Global, world: &mut Failed) -> [bool; 4] {
    [
        tells(alloc, world, "authenticates", &answers_of_one(Said::Sent)),
        tells(alloc, world, "associates", &answers_of_two([DOWN, LOST])),
        tells(alloc, world, "associates", &answers_of_one(LOST)),
        tells(alloc, world, "take", &answers_of_none()),
    ]
}

fn flushes(alloc: Global) -> Option<[bool; 4]> {
    let mut world = start_with(alloc, &[1], failing_radio(alloc, 1)?)?;
    let told = all_tell(alloc, &mut world);
    drop(world);
    Some(told)
}

#[test]
fn a_slot_that_is_down_is_told_by_each_flush(rt: HostRuntime) {
    expect(&rt, flushes(rt.alloc()), Some([true, true, true, true]));
}

/// The device of a world in which the station is associated.
fn device(alloc: Global) -> Option<MemDisk> {
    let steps = steps_of(alloc, ASSOCIATION)?;
    stop_after(start_world(alloc, &[1])?, &steps)
}

/// The interface, at which no station is allowed.
fn strict_confs(alloc: Global) -> Option<Confs> {
    let mut conf = conf(alloc, 1)?;
    conf.macaddr_acl = AclMode::DenyUnlessAccepted;
    let mut list = Vec::new(alloc);
    list.push(conf).ok()?;
    confs_of(list)
}

/// A world begun anew there, with a radio that passes the installation of the station alone.
fn begin(alloc: Global) -> Option<Failed> {
    restart_world(
        alloc,
        device(alloc)?,
        strict_confs(alloc)?,
        failing_radio(alloc, 1)?,
    )
    .ok()
}

/// What a world's start answers.
fn start(alloc: Global, world: &mut Failed) -> Option<Vec<Answer>> {
    answers_if_ok(alloc, start_answers(world))
}

/// How many rows a world has, and what is seen of its slot.
fn contents(world: Failed) -> (usize, Option<Seen>) {
    let rows = world.table().rows();
    (rows, look(&slots_of(world)))
}

/// What the start of that world answers, and what is found then.
fn start_anew(alloc: Global) -> Option<(Option<Vec<Answer>>, (usize, Option<Seen>))> {
    let mut world = begin(alloc)?;
    let answers = start(alloc, &mut world);
    Some((answers, contents(world)))
}

// The station is dropped: its removal fails, and the frame that tells it so is lost.
#[test]
fn a_start_tells_what_a_radio_was_not_given(rt: HostRuntime) {
    let (answers, found) = start_anew(rt.alloc()).unwrap_or((None, (0, None)));
    expect(&rt, answers.as_deref(), Some(&answers_of_two([DOWN, LOST])));
    expect(&rt, found, (0, Some((false, None, Some(1)))));
}
