//! One round of a case.
use crate::access_point::AccessPoint;
use crate::case::{Case, Kind};
use crate::counting::{DiskWork, Tally};
use crate::fault::BenchFault;
use crate::frames::{ASSOCIATION, AUTHENTICATION, DEAUTHENTICATION, of_station};
use std::time::{Clock, Duration, Instant};

/// How many device calls a commit has that needs no switch.
const PLAIN_CALLS: u64 = 4;

/// More commits than a half of a store has room for.
const MOST_COMMITS: u64 = 1_000_000;

/// After so many stations what they asked for is committed, before the first round.
const STATIONS_AT_ONCE: u16 = 256;

/// What a round came to. A time that the system's clock didn't give is none.
#[derive(Clone, Copy)]
pub struct Round {
    pub requests: u16,
    pub commits: u64,
    pub device: DiskWork,
    /// The time of all, and of the commits alone.
    pub time: Option<Duration>,
    pub committing: Option<Duration>,
}

/// The time since then.
pub fn since(rt: &impl Clock, then: Option<Instant>) -> Option<Duration> {
    then?.elapsed(rt).ok()
}

// Settles and hands out. It adds the time of the commit.
fn settle_and_hand<A: AccessPoint>(
    rt: &impl Clock,
    point: &mut A,
    committing: Option<Duration>,
) -> Result<Option<Duration>, BenchFault> {
    let began = Instant::now(rt).ok();
    point.settle()?;
    let time = since(rt, began);
    point.hand()?;
    Ok(sum(committing, time))
}

// Both times together.
fn sum(one: Option<Duration>, other: Option<Duration>) -> Option<Duration> {
    one?.checked_add(other?)
}

/// Starts the interface, and has this many stations associated.
pub fn prepare<A: AccessPoint>(point: &mut A, stations: u16) -> Result<(), BenchFault> {
    point.start()?;
    for station in 0..stations {
        point.accept(&of_station(AUTHENTICATION, station))?;
        point.accept(&of_station(ASSOCIATION, station))?;
        if station % STATIONS_AT_ONCE == STATIONS_AT_ONCE - 1 || station == stations - 1 {
            point.settle()?;
            point.hand()?;
        }
    }
    Ok(())
}

// Makes the request of this number of a round of so many.
fn ask<A: AccessPoint>(
    point: &mut A,
    case: &Case,
    requests: u16,
    number: u16,
) -> Result<(), BenchFault> {
    if case.asks_for_new() {
        let station = case.stations_before(requests).saturating_add(number);
        return point.accept(&of_station(AUTHENTICATION, station));
    }
    let station = number.checked_rem(case.stations).unwrap_or(0);
    point.accept(&of_station(ASSOCIATION, station))
}

// Makes so many requests of a case, and commits after each window of them.
fn plain_round<A: AccessPoint>(
    rt: &impl Clock,
    point: &mut A,
    tally: &Tally,
    case: &Case,
    requests: u16,
) -> Result<Round, BenchFault> {
    let before = tally.get();
    let (mut commits, mut committing) = (0u64, Some(Duration::ZERO));
    let began = Instant::now(rt).ok();
    for number in 0..requests {
        ask(point, case, requests, number)?;
        let done = number + 1;
        if done == requests || done.checked_rem(case.window) == Some(0) {
            committing = settle_and_hand(rt, point, committing)?;
            commits = commits.saturating_add(1);
        }
    }
    Ok(Round {
        requests,
        commits,
        device: tally.get().since(before),
        time: since(rt, began),
        committing,
    })
}

/// A round of so many requests of a case. Where switches are counted it makes round after round, until the store makes
/// way into its other half, and tells of that one.
pub fn go_round<A: AccessPoint>(
    rt: &impl Clock,
    point: &mut A,
    tally: &Tally,
    case: &Case,
    requests: u16,
) -> Result<Round, BenchFault> {
    for _ in 0..MOST_COMMITS {
        let round = plain_round(rt, point, tally, case, requests)?;
        if !matches!(case.kind, Kind::Switches) || round.device.calls > PLAIN_CALLS {
            return Ok(round);
        }
    }
    Err(BenchFault::Refused)
}

/// Has the new stations of a round leave again.
pub fn undo<A: AccessPoint>(point: &mut A, case: &Case, requests: u16) -> Result<(), BenchFault> {
    if !case.asks_for_new() || requests == 0 {
        return Ok(());
    }
    let first = case.stations_before(requests);
    for station in first..first.saturating_add(requests) {
        point.accept(&of_station(DEAUTHENTICATION, station))?;
    }
    point.settle()?;
    point.hand()
}
