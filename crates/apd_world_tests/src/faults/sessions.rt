//! Sessions of a world with one radio: requests, each of which is committed and handed out before the next.
use crate::faults::calls::{confs, flusher, load_refusal, restart_world, tell};
use crate::faults::expected::{is_given, out_at};
use apd_base::{Addr, Bssid, Moment};
use apd_conf::AddressList;
use apd_core::{Input, PublishFault};
use apd_ctrl::Query;
use apd_disk::Disk;
use apd_mlme::{Out, Recipient};
use apd_radio::Sim;
use apd_slot::Slot;
use apd_store::StoreFault;
use apd_world::{Reception, Step, Told, World};
use std::alloc::Global;

/// The BSSID of the built-in configuration.
pub(crate) const WLAN0: Bssid = Bssid(Addr([2, 0, 0, 0, 0, 1]));

/// The station of each session.
pub(crate) const STATION: Addr = Addr([2, 0, 0, 0, 0, 0xaa]);

const AUTHENTICATION_FRAME: &[u8] = &[
    0xb0, 0, 0, 0, 2, 0, 0, 0, 0, 1, 2, 0, 0, 0, 0, 0xaa, 2, 0, 0, 0, 0, 1, 0x10, 0, 0, 0, 1, 0, 0,
    0,
];

const ASSOCIATION_FRAME: &[u8] = &[
    0, 0, 0, 0, 2, 0, 0, 0, 0, 1, 2, 0, 0, 0, 0, 0xaa, 2, 0, 0, 0, 0, 1, 0x20, 0, 0x31, 4, 0x0a, 0,
    0, 3, 0x6e, 0x65, 0x74, 1, 4, 0x82, 0x84, 0x8b, 0x96,
];

/// The station asks for Open System authentication.
pub(crate) const AUTHENTICATES: Step<'static> = Step::Accept(
    Input::Received(WLAN0, AUTHENTICATION_FRAME),
    Moment(0),
);

/// The station asks for association with the network `net`.
pub(crate) const ASSOCIATES: Step<'static> = Step::Accept(
    Input::Received(WLAN0, ASSOCIATION_FRAME),
    Moment(0),
);

/// Commits what was accepted by four calls, or ten, or as many as there are; hands it out, applies all outs, of which
/// there are two at most, and asks for the first station.
const COMMITS: [Step<'static>; 18] = [
    Step::Take,
    Step::Call,
    Step::Call,
    Step::Call,
    Step::Call,
    Step::Call,
    Step::Call,
    Step::Call,
    Step::Call,
    Step::Call,
    Step::Call,
    Step::Publish,
    Step::Hand(Recipient::Radio(WLAN0)),
    Step::Hand(Recipient::Control),
    Step::Apply(WLAN0),
    Step::Apply(WLAN0),
    Step::Apply(WLAN0),
    Step::Ask(Query::First(WLAN0)),
];

/// What was seen of a session.
#[derive(Clone, Copy, Debug, PartialEq, Eq)]
pub(crate) struct Seen {
    /// How many calls of the device were answered well, by `Device`, and by `Failed`.
    pub(crate) calls: u64,
    pub(crate) faults: u64,
    pub(crate) failed: u64,
    /// How many steps were refused in any other way.
    pub(crate) refused: u64,
    /// The greatest number that was spoken of.
    pub(crate) spoken: u64,
    /// How many outs the radio was given of those that it is to be given, each in its place and to the byte; and how
    /// many others were handed out.
    pub(crate) outs: usize,
    pub(crate) others: usize,
}

const NOTHING: Seen = Seen {
    calls: 0,
    faults: 0,
    failed: 0,
    refused: 0,
    spoken: 0,
    outs: 0,
    others: 0,
};

/// Adds an out that the radio was given.
fn see_out(seen: &mut Seen, session: Session, out: &Out) {
    match out_at(session, seen.outs) {
        Some(given) if is_given(out, given) => seen.outs = seen.outs.saturating_add(1),
        _ => seen.others = seen.others.saturating_add(1),
    }
}

/// Adds what a step told.
fn see(seen: &mut Seen, session: Session, told: &Told) {
    match told {
        Told::Called(Ok(())) => seen.calls = seen.calls.saturating_add(1),
        Told::Called(Err(StoreFault::Device)) => seen.faults = seen.faults.saturating_add(1),
        Told::Called(Err(StoreFault::Failed)) => seen.failed = seen.failed.saturating_add(1),
        Told::Applied(out, Ok(())) => see_out(seen, session, out),
        Told::Handed(outs) => seen.others = seen.others.saturating_add(outs.len()),
        Told::Answered(answer) => seen.spoken = seen.spoken.max(answer.number()),
        Told::Called(Err(_))
        | Told::Loaded(Err(_))
        | Told::Published(Err(_))
        | Told::Applied(_, Err(_))
        | Told::NoMemory => seen.refused = seen.refused.saturating_add(1),
        Told::Accepted(_)
        | Told::Loaded(Ok(()))
        | Told::Published(Ok(()))
        | Told::Queued(_)
        | Told::Nothing => {}
    }
}

/// The radio is to start.
pub(crate) fn starts<D: Disk>(alloc: Global, world: &mut World<D, Sim>) -> Option<Vec<Told>> {
    let none = AddressList::new(alloc);
    let input = Input::Configure {
        bssid: WLAN0,
        accept: &none,
        deny: &none,
    };
    tell(world, &[Step::Accept(input, Moment(0))])
}

/// Commits what was accepted, and hands it out.
fn commit<D: Disk>(world: &mut World<D, Sim>, session: Session, seen: &mut Seen) -> Option<()> {
    for told in tell(world, &COMMITS)?.iter() {
        see(seen, session, told);
    }
    Some(())
}

/// A request is accepted, committed and handed out.
fn stage<D: Disk>(
    world: &mut World<D, Sim>,
    session: Session,
    request: Step<'_>,
    seen: &mut Seen,
) -> Option<()> {
    let _accepted = tell(world, &[request])?;
    commit(world, session, seen)
}

/// The radio starts, its station authenticates, and associates; until a call of the device fails.
fn three_commits<D: Disk>(alloc: Global, world: &mut World<D, Sim>) -> Option<Seen> {
    let session = Session::ThreeCommits;
    let mut seen = NOTHING;
    let _accepted = starts(alloc, world)?;
    commit(world, session, &mut seen)?;
    for request in [AUTHENTICATES, ASSOCIATES] {
        if seen.faults == 0 {
            stage(world, session, request, &mut seen)?;
        }
    }
    Some(seen)
}

/// The station associates, and nothing else.
fn one_switch<D: Disk>(world: &mut World<D, Sim>) -> Option<Seen> {
    let mut seen = NOTHING;
    stage(world, Session::OneSwitch, ASSOCIATES, &mut seen)?;
    Some(seen)
}

/// What is told of a step, in short.
#[derive(Clone, Copy, Debug, PartialEq, Eq)]
pub(crate) enum Said {
    Accepted(Reception),
    /// Why a batch was refused; none where it was not.
    Loaded(Option<StoreFault>),
    /// Why a call was; none where it was not.
    Called(Option<StoreFault>),
    /// Why a receipt was; none where it was not.
    Published(Option<PublishFault>),
    Queued(usize),
    Nothing,
    Other,
}

pub(crate) fn in_short(told: &Told) -> Said {
    match told {
        Told::Accepted(reception) => Said::Accepted(*reception),
        Told::Loaded(answer) => Said::Loaded(answer.err()),
        Told::Called(answer) => Said::Called(answer.err()),
        Told::Published(answer) => Said::Published(answer.err()),
        Told::Queued(count) => Said::Queued(*count),
        Told::Nothing => Said::Nothing,
        _ => Said::Other,
    }
}

/// What is told of one more request and its commit, and then why the flusher refuses another batch.
pub(crate) type Behind = ([Said; 4], Option<StoreFault>);

/// All is refused, since an earlier call of the device failed.
pub(crate) const REFUSED: Behind = (
    [
        Said::Accepted(Reception::Stopped),
        Said::Nothing,
        Said::Called(Some(StoreFault::Failed)),
        Said::Nothing,
    ],
    Some(StoreFault::Failed),
);

/// What is told of one more request, its batch, a call and its receipt.
fn answers_behind<D: Disk>(world: &mut World<D, Sim>) -> Option<[Said; 4]> {
    let steps = [AUTHENTICATES, Step::Take, Step::Call, Step::Publish];
    let tolds = tell(world, &steps)?;
    let said = four_in_short(tolds.as_slice());
    drop(tolds);
    said
}

fn four_in_short(tolds: &[Told]) -> Option<[Said; 4]> {
    Some([
        in_short(tolds.first()?),
        in_short(tolds.get(1)?),
        in_short(tolds.get(2)?),
        in_short(tolds.get(3)?),
    ])
}

/// How a world ends: what is told behind a session in which the device failed, and the device.
fn end_world<D: Disk + Drop>(alloc: Global, world: World<D, Sim>) -> Option<(Behind, D)> {
    let mut world = world;
    let told = answers_behind(&mut world);
    let mut flusher = flusher(world);
    let refusal = load_refusal(alloc, &mut flusher);
    let (told, device) = told.zip(Some(flusher.into_device()))?;
    Some(((told, refusal), device))
}

/// What was seen of a session, what was told behind it where the device failed in it, and the device.
pub(crate) type Run<D> = (Seen, Option<Behind>, D);

/// The end of a world behind a session of which this was seen.
fn run_of<D: Disk + Drop>(alloc: Global, world: World<D, Sim>, seen: Seen) -> Option<Run<D>> {
    if seen.faults == 0 {
        return Some((seen, None, flusher(world).into_device()));
    }
    let (behind, device) = end_world(alloc, world)?;
    Some((seen, Some(behind), device))
}

/// A slot for the radio, which does nothing.
pub(crate) fn slots(alloc: Global) -> Option<Vec<Slot<Sim>>> {
    let mut slots = Vec::new(alloc);
    slots
        .push(Slot::new(alloc, Sim::new(alloc), WLAN0))
        .is_ok()
        .then_some(slots)
}

/// The world of the store that a device holds.
pub(crate) fn world<D: Disk + Drop>(alloc: Global, device: D) -> Option<World<D, Sim>> {
    let (confs, slots) = confs(alloc).zip(slots(alloc))?;
    restart_world(alloc, device, confs, slots).ok()
}

/// The radio starts, its station authenticates, and associates, on a new store: three commits of four calls. Or the
/// station, which is authenticated, associates on a full one: one commit of ten.
#[derive(Clone, Copy, Debug, PartialEq, Eq)]
pub(crate) enum Session {
    ThreeCommits,
    OneSwitch,
}

fn requests<D: Disk>(alloc: Global, world: &mut World<D, Sim>, session: Session) -> Option<Seen> {
    match session {
        Session::ThreeCommits => three_commits(alloc, world),
        Session::OneSwitch => one_switch(world),
    }
}

/// The session on the store that a device holds.
pub(crate) fn run<D: Disk + Drop>(alloc: Global, session: Session, device: D) -> Option<Run<D>> {
    let mut world = world(alloc, device)?;
    let (seen, world) = requests(alloc, &mut world, session).zip(Some(world))?;
    run_of(alloc, world, seen)
}
