// Workers that wait are woken: by a frame, a command, an entry, what is settled, and a stop. Where one isn't, no answer
// comes in time; where a stop wakes nobody, the test has no end.
ghost use Rattle.std.specs.Prelude.{◌≡◌};

use crate::asking::{Asker, Commands, Question, free_port, rest};
use crate::common::{
    Host, Still, WLAN0, adds, asked_core, authentication, commit, memory_flusher, new_seat,
    serve_port, serve_radio, serve_ticks, share, started_core, stop,
};
use crate::expect::expect;
use crate::habit::{Habit, Habitual};
use crate::staged::{Resting, Short, Trail, Trailed};
use apd_core::Core;
use apd_desk::{Gate, NoGate, Place, Shared};
use apd_disk::MemDisk;
use apd_flusher::Flusher;
use apd_radio::{Datagrams, Failing, Radio, UdpSim};
use apd_slot::Slot;
use std::alloc::Global;
use std::marker::Brand;
use std::net::Net;
use std::sync::Wait;
use std::sync::ledger::{Blank, Ledger};
use std::thread::{join, sleep};
use std::time::{Clock, Duration};

/// How long a call of the device takes, in milliseconds: who waits for what is settled sleeps by then.
const CALL: u64 = 20;

/// How the stations that end by 0xaa and 0xbb are told that they are authenticated.
const AUTHENTICATED: [u8; 30] = [
    0xb0, 0, 0, 0, 2, 0, 0, 0, 0, 0xaa, 2, 0, 0, 0, 0, 1, 2, 0, 0, 0, 0, 1, 0, 0, 0, 0, 2, 0, 0, 0,
];

const OTHER_AUTHENTICATED: [u8; 30] = [
    0xb0, 0, 0, 0, 2, 0, 0, 0, 0, 0xbb, 2, 0, 0, 0, 0, 1, 2, 0, 0, 0, 0, 1, 0, 0, 0, 0, 2, 0, 0, 0,
];

/// A gate that makes each call of the device take a while.
#[derive(Drop)]
struct Slow<'a, W: Clock>(&'a W);

impl<W: Clock> Gate for Slow<'_, W> {
    fn pass(&self, at: Place) {
        if at == Place::BeforeCall {
            sleep(self.0, Duration::from_millis(CALL));
        }
    }
}

// What the workers have.
#[derive(Drop)]
struct Crew<R: Radio> {
    flusher: Flusher<MemDisk>,
    radio: R,
    spares: Vec<R>,
    port: Commands,
}

fn serve_slot<L: Ledger, W: Wait + Clock + Net, R: Radio>(
    rt: &W,
    alloc: Global,
    shared: &Shared<L>,
    radio: R,
    spares: Vec<R>,
) {
    if let Some((seat, (radio, spares))) = new_seat(rt, shared).zip(Some((radio, spares))) {
        let slot = Slot::new(alloc, radio, WLAN0);
        drop(serve_radio(rt, alloc, shared, seat, slot, &Still, spares, &NoGate));
    }
}

fn serve_commands<L: Ledger, W: Wait + Clock + Net>(
    rt: &W,
    alloc: Global,
    shared: &Shared<L>,
    port: Commands,
) {
    if let Some((seat, port)) = new_seat(rt, shared).zip(Some(port)) {
        drop(serve_port(rt, alloc, shared, seat, port, &NoGate));
    }
}

// Has a new asker ask each question, until one gets no answer. Whether each is answered.
fn ask_each(rt: &(impl Clock + Net), questions: &[Question<'_>]) -> bool {
    match Asker::new(rt) {
        Some(asker) => asker.gets_answers(rt, questions),
        None => false,
    }
}

// Asks each question while all workers wait, and tells them to stop while they wait. Whether each was answered.
fn ask<L: Ledger, W: Wait + Clock + Net>(
    rt: &W,
    shared: &Shared<L>,
    questions: &[Question<'_>],
) -> bool {
    let answered = ask_each(rt, questions);
    rest(rt);
    stop(rt, shared);
    answered
}

// Asks beside the worker of ticks.
fn tick_and_ask<L: Ledger + Send + Sync, W: Host>(
    rt: &W,
    shared: &Shared<L>,
    questions: &[Question<'_>],
) -> bool {
    join(
        rt,
        move || drop(serve_ticks(rt, shared)),
        move || ask(rt, shared, questions),
    )
    .1
}

// The same beside the worker of the control port.
fn serve_commands_and_ask<L: Ledger + Send + Sync, W: Host>(
    rt: &W,
    alloc: Global,
    shared: &Shared<L>,
    port: Commands,
    questions: &[Question<'_>],
) -> bool {
    join(
        rt,
        move || serve_commands(rt, alloc, shared, port),
        move || tick_and_ask(rt, shared, questions),
    )
    .1
}

// The same beside the worker that commits.
fn commit_and_ask<L: Ledger + Send + Sync, W: Host>(
    rt: &W,
    alloc: Global,
    shared: &Shared<L>,
    flusher: Flusher<MemDisk>,
    port: Commands,
    questions: &[Question<'_>],
) -> bool {
    join(
        rt,
        move || commit(rt, shared, flusher, &Slow(rt)),
        move || serve_commands_and_ask(rt, alloc, shared, port, questions),
    )
    .1
}

// Whether each question is answered by workers in threads of their own, which then end.
fn serve_and_ask<L: Ledger + Send + Sync, W: Host, R: Radio + Send>(
    rt: &W,
    alloc: Global,
    shared: &Shared<L>,
    crew: Crew<R>,
    questions: &[Question<'_>],
) -> bool {
    let Crew {
        flusher,
        radio,
        spares,
        port,
    } = crew;
    join(
        rt,
        move || serve_slot(rt, alloc, shared, radio, spares),
        move || commit_and_ask(rt, alloc, shared, flusher, port, questions),
    )
    .1
}

// A crew of these, where none is missing.
fn crew_of<R: Radio>(
    flusher: Option<Flusher<MemDisk>>,
    radio: Option<R>,
    spares: Option<Vec<R>>,
    port: Option<Commands>,
) -> Option<Crew<R>> {
    match flusher.zip(radio).zip(spares.zip(port)) {
        Some(((flusher, radio), (spares, port))) => Some(Crew {
            flusher,
            radio,
            spares,
            port,
        }),
        None => None,
    }
}

fn commands_at(rt: &impl Net, alloc: Global, port: u16) -> Option<Commands> {
    Some(Commands::new(Datagrams::bind(rt, alloc, port).ok()?))
}

// Shares this core, and whether each question is answered by workers round it. None is where core or crew is missing.
fn share_and_ask<L: Ledger + Send + Sync, W: Host, R: Radio + Send>(
    rt: &W,
    alloc: Global,
    blank: Blank,
    core: Option<Core>,
    crew: Option<Crew<R>>,
    questions: &[Question<'_>],
) -> bool
    requires name { blank.name ≡ L.name }
    requires parts { blank.parts ≡ L.parts }
    requires all { blank.parts ≡ 65536 }
{
    let shared: Option<Shared<L>> = share(core, blank);
    match shared.zip(crew) {
        Some((shared, crew)) => {
            let answered = serve_and_ask(rt, alloc, &shared, crew, questions);
            drop(shared);
            answered
        }
        None => false,
    }
}

fn crew_with<R: Radio>(
    rt: &impl Net,
    alloc: Global,
    radio: Option<R>,
    port: u16,
) -> Option<Crew<R>> {
    let port = commands_at(rt, alloc, port);
    crew_of(memory_flusher(alloc), radio, Some(Vec::new(alloc)), port)
}

// Two ports that were free a moment ago.
fn two_free_ports(rt: &impl Net) -> Option<(u16, u16)> {
    free_port(rt).zip(free_port(rt))
}

// How frames, and more of them than a turn takes, a command and an order are answered.
fn answers_of_each_kind<W: Host>(rt: &W, alloc: Global) -> Option<bool> {
    let (radio_port, port) = two_free_ports(rt)?;
    let frame = authentication(0xaa);
    let questions = [
        Question::new(radio_port, &frame, &AUTHENTICATED, 1),
        Question::new(port, b"PING", b"PONG\n", 1),
        Question::new(port, b"DENY_ACL ADD_MAC 02:00:00:00:00:ac", b"OK\n", 1),
        Question::new(radio_port, &frame, &AUTHENTICATED, 150),
        Question::new(port, b"PING", b"PONG\n", 150),
    ];
    let core = started_core(alloc);
    let crew = crew_with(rt, alloc, UdpSim::new(rt, alloc, radio_port).ok(), port);
    let blank = Blank::new(65_536);
    Some(share_and_ask::<Brand, _, _>(rt, alloc, blank, core, crew, &questions))
}

#[test]
fn workers_that_wait_are_woken(rt: HostRuntime) {
    expect(&rt, answers_of_each_kind(&rt, rt.alloc()), Some(true));
}

// A radio at this port, which passes so many calls on, and fails then.
fn failing_radio(rt: &impl Net, alloc: Global, port: u16, calls: u64) -> Option<Failing<UdpSim>> {
    Some(Failing::new(UdpSim::new(rt, alloc, port).ok()?, calls))
}

// One that passes a hundred on.
fn one_spare(rt: &impl Net, alloc: Global, port: u16) -> Option<Vec<Failing<UdpSim>>> {
    let mut spares = Vec::new(alloc);
    adds(&mut spares, failing_radio(rt, alloc, port, 100)).then_some(spares)
}

// A radio that fails as a station is installed, and another one that takes its place.
fn crew_with_spare(rt: &impl Net, alloc: Global, ports: [u16; 3]) -> Option<Crew<Failing<UdpSim>>> {
    let [first, last, port] = ports;
    crew_of(
        memory_flusher(alloc),
        failing_radio(rt, alloc, first, 0),
        one_spare(rt, alloc, last),
        commands_at(rt, alloc, port),
    )
}

// How frames at another radio are answered, which takes the place of one that fails as a station is installed. At the
// second one its worker waits there.
fn answers_at_a_spare<W: Host>(rt: &W, alloc: Global) -> Option<bool> {
    let ((first, last), port) = two_free_ports(rt).zip(free_port(rt))?;
    let frame = authentication(0xbb);
    let questions = [Question::new(last, &frame, &OTHER_AUTHENTICATED, 1); 2];
    let core = asked_core(alloc);
    let crew = crew_with_spare(rt, alloc, [first, last, port]);
    let blank = Blank::new(65_536);
    Some(share_and_ask::<Brand, _, _>(rt, alloc, blank, core, crew, &questions))
}

#[test]
fn a_radio_that_took_anothers_place_is_waited_for(rt: HostRuntime) {
    expect(&rt, answers_at_a_spare(&rt, rt.alloc()), Some(true));
}

// A radio at this port with a habit.
fn radio_with<H: Habit>(
    rt: &impl Net,
    alloc: Global,
    port: u16,
    habit: H,
) -> Option<Habitual<UdpSim, H>> {
    let (inner, habit) = UdpSim::new(rt, alloc, port).ok().zip(Some(habit))?;
    Some(Habitual::new(inner, habit))
}

// How a frame is answered by a radio that lacks memory for the answer, so often that its worker waits in between.
fn answers_where_memory_lacks<W: Host>(rt: &W, alloc: Global) -> Option<bool> {
    let (radio_port, port) = two_free_ports(rt)?;
    let frame = authentication(0xaa);
    let questions = [Question::new(radio_port, &frame, &AUTHENTICATED, 1)];
    let core = started_core(alloc);
    let radio = radio_with(rt, alloc, radio_port, Short { times: 260 });
    let crew = crew_with(rt, alloc, radio, port);
    let blank = Blank::new(65_536);
    Some(share_and_ask::<Brand, _, _>(rt, alloc, blank, core, crew, &questions))
}

#[test]
fn what_lacks_memory_is_not_waited_for_at_the_socket(rt: HostRuntime) {
    expect(&rt, answers_where_memory_lacks(&rt, rt.alloc()), Some(true));
}

// How frames are answered behind each of which comes what becomes no entry, within the same turn.
fn answers_before_a_trail<W: Host>(rt: &W, alloc: Global, trail: Trail) -> Option<bool> {
    let (radio_port, port) = two_free_ports(rt)?;
    let frame = authentication(0xaa);
    let one = Question::new(radio_port, &frame, &AUTHENTICATED, 1);
    let questions = [
        one,
        one,
        one,
        Question::new(radio_port, &frame, &AUTHENTICATED, 150),
    ];
    let core = started_core(alloc);
    let radio = radio_with(rt, alloc, radio_port, Trailed::new(alloc, trail));
    let crew = crew_with(rt, alloc, radio, port);
    let blank = Blank::new(65_536);
    Some(share_and_ask::<Brand, _, _>(rt, alloc, blank, core, crew, &questions))
}

#[test]
fn a_burst_is_committed_whose_last_frame_is_no_entry(rt: HostRuntime) {
    expect(
        &rt,
        answers_before_a_trail(&rt, rt.alloc(), Trail::Noise),
        Some(true),
    );
}

#[test]
fn a_burst_is_committed_behind_which_the_poll_fails(rt: HostRuntime) {
    expect(
        &rt,
        answers_before_a_trail(&rt, rt.alloc(), Trail::Fault),
        Some(true),
    );
}

// How a frame is answered whose answer is ready between a worker's last look and its sleep.
fn answers_before_a_sleep<W: Host>(rt: &W, alloc: Global) -> Option<bool> {
    let (radio_port, port) = two_free_ports(rt)?;
    let frame = authentication(0xaa);
    let questions = [Question::new(radio_port, &frame, &AUTHENTICATED, 1); 3];
    let core = started_core(alloc);
    let radio = radio_with(rt, alloc, radio_port, Resting::new(rt));
    let crew = crew_with(rt, alloc, radio, port);
    let blank = Blank::new(65_536);
    Some(share_and_ask::<Brand, _, _>(rt, alloc, blank, core, crew, &questions))
}

#[test]
fn no_worker_sleeps_beside_what_was_settled_meanwhile(rt: HostRuntime) {
    expect(&rt, answers_before_a_sleep(&rt, rt.alloc()), Some(true));
}
