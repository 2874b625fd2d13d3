// When the worker of ticks lets stations go, and how many.
ghost use Rattle.std.specs.Prelude.{◌≡◌};

use crate::asking::rest;
use crate::common::{
    Host, WLAN0, authentication, commit, enters_at, memory_flusher, new_seat, share, started_core,
    stop,
};
use crate::expect::expect;
use crate::staged::StagedClock;
use apd_base::Moment;
use apd_core::{Core, Input};
use apd_desk::{Clock, Gate, NoGate, Place, Shared, tick_worker};
use apd_disk::MemDisk;
use apd_flusher::Flusher;
use std::alloc::Global;
use std::io;
use std::marker::Brand;
use std::sync::Wait;
use std::sync::atomic::{AtomicU64, Ordering};
use std::sync::ledger::{Blank, Ledger};
use std::thread::{join, sleep};
use std::time::{self, Duration};

/// A runtime whose clock is later by so many milliseconds at each look.
#[derive(Drop)]
struct Paced<'a, R> {
    rt: &'a R,
    pace: u64,
    looks: AtomicU64,
}

impl<'a, R> Paced<'a, R> {
    fn new(rt: &'a R, pace: u64) -> Paced<'a, R> {
        Paced {
            rt,
            pace,
            looks: AtomicU64::new(0),
        }
    }
}

impl<R: Wait> Wait for Paced<'_, R> {}

impl<R: time::Clock> time::Clock for Paced<'_, R> {
    fn monotonic(&self) -> io::Result<Duration> {
        let looks = self.looks.fetch_add(1, Ordering::SeqCst);
        Ok(Duration::from_millis(looks.wrapping_mul(self.pace)))
    }

    fn since_1970(&self) -> io::Result<Duration> {
        self.rt.since_1970()
    }
}

/// A gate that tells all to stop at the first entry.
#[derive(Drop)]
struct Stopping<'a, L: Ledger, W: Wait> {
    rt: &'a W,
    shared: &'a Shared<L>,
}

impl<L: Ledger, W: Wait> Gate for Stopping<'_, L, W> {
    fn pass(&self, _at: Place) {
        stop(self.rt, self.shared);
    }
}

// The frame by which the station of a number asks for authentication.
fn frame_of(number: u16) -> [u8; 30] {
    let [high, low] = number.to_be_bytes();
    let mut frame = authentication(low);
    frame[13] = 1;
    frame[14] = high;
    frame
}

// Whether a station is heard at a moment, by a frame that becomes an entry.
fn hears(core: &mut Core, number: u16, moment: u64) -> bool {
    let frame = frame_of(number);
    enters_at(core, Input::Received(WLAN0, &frame), Moment(moment))
}

// A core that so many stations told something at 100 s, and one more half a second later, and nothing since.
fn silent_core(alloc: Global, count: u16) -> Option<Core> {
    let mut core = started_core(alloc)?;
    for number in 0..count {
        if !hears(&mut core, number, 100_000) {
            drop(core);
            return None;
        }
    }
    hears(&mut core, 1000, 100_500).then_some(core)
}

// How many ticks become entries at these moments, the first of which is that of the worker's begin.
fn count<L: Ledger, W: Wait + time::Clock, G: Gate>(
    rt: &W,
    shared: &Shared<L>,
    moments: &[u64],
    gate: &G,
) -> Option<u64> {
    let seat = new_seat(rt, shared)?;
    let clock = StagedClock::new(rt, shared, moments);
    let seat = tick_worker(rt, shared, seat, &clock, gate);
    let ticks = seat.count();
    drop(seat);
    Some(ticks)
}

// The same of a core at which so many stations, and one more, are silent.
fn ticks<L: Ledger, W: Wait + time::Clock>(
    rt: &W,
    alloc: Global,
    blank: Blank,
    silent: u16,
    moments: &[u64],
) -> Option<u64>
    requires name { blank.name ≡ L.name }
    requires parts { blank.parts ≡ L.parts }
    requires all { blank.parts ≡ 65536 }
{
    let shared: Shared<L> = share(silent_core(alloc, silent), blank)?;
    let ticks = count(rt, &shared, moments, &NoGate);
    drop(shared);
    ticks
}

// How many become entries where the first one tells all to stop.
fn ticks_until_a_stop<L: Ledger, W: Wait + time::Clock>(
    rt: &W,
    alloc: Global,
    blank: Blank,
    moments: &[u64],
) -> Option<u64>
    requires name { blank.name ≡ L.name }
    requires parts { blank.parts ≡ L.parts }
    requires all { blank.parts ≡ 65536 }
{
    let shared: Shared<L> = share(silent_core(alloc, 3), blank)?;
    let gate = Stopping {
        rt,
        shared: &shared,
    };
    let ticks = count(rt, &shared, moments, &gate);
    drop(gate);
    drop(shared);
    ticks
}

#[test]
fn nobody_goes_before_the_time(rt: HostRuntime) {
    let moments = &[399_000, 399_500, 399_999];
    let ticks = ticks::<Brand, _>(&rt, rt.alloc(), Blank::new(65_536), 2, moments);
    expect(&rt, ticks, Some(0));
}

// The moments of a worker, and how many of three stations and one are gone by then: the one goes a turn later.
const GONE: &[(&[u64], u64)] = &[
    (&[399_000, 400_000, 400_001], 3),
    (&[399_000, 400_000, 401_000, 401_001], 4),
];

#[test]
fn a_turn_ends_once_nobody_is_silent(rt: HostRuntime) {
    for (moments, gone) in GONE {
        let still = Paced::new(&rt, 0);
        let ticks = ticks::<Brand, _>(&still, rt.alloc(), Blank::new(65_536), 3, moments);
        drop(still);
        expect(&rt, ticks, Some(*gone));
    }
}

// How much later the clock is at each look, in milliseconds, and how many of 300 silent stations a turn lets go. The
// moments jump by hours.
const AT_ONCE: &[(u64, u64)] = &[(0, 256), (1, 5), (5, 1)];

#[test]
fn a_jump_of_the_clock_is_one_turn(rt: HostRuntime) {
    for (pace, gone) in AT_ONCE {
        let paced = Paced::new(&rt, *pace);
        let moments = &[399_000, 10_000_000, 10_000_001];
        let ticks = ticks::<Brand, _>(&paced, rt.alloc(), Blank::new(65_536), 300, moments);
        drop(paced);
        expect(&rt, ticks, Some(*gone));
    }
}

#[test]
fn a_stop_ends_a_turn(rt: HostRuntime) {
    let still = Paced::new(&rt, 0);
    let moments = &[399_000, 400_000, 400_001];
    let ticks = ticks_until_a_stop::<Brand, _>(&still, rt.alloc(), Blank::new(65_536), moments);
    drop(still);
    expect(&rt, ticks, Some(1));
}

/// How many calls of the device a batch has.
const CALLS: u64 = 4;

/// How often calls of the device are looked for, a millisecond apart.
const LOOKS: u32 = 10_000;

/// A gate that counts calls of the device.
#[derive(Drop)]
struct Calls {
    made: AtomicU64,
}

impl Calls {
    // Waits until so many were made. Tells whether they were.
    fn come_to(&self, rt: &impl time::Clock, count: u64) -> bool {
        for _look in 0..LOOKS {
            if self.made.load(Ordering::SeqCst) >= count {
                return true;
            }
            sleep(rt, Duration::from_millis(1));
        }
        false
    }
}

impl Gate for Calls {
    fn pass(&self, at: Place) {
        if at == Place::AfterCall {
            self.made.fetch_add(1, Ordering::SeqCst);
        }
    }
}

/// The clock of a worker whose one turn comes when the worker that commits rests, behind a first batch. It tells all to
/// stop once a second batch is committed, or does not come.
#[derive(Drop)]
struct Between<'a, L: Ledger, W: Wait + time::Clock> {
    rt: &'a W,
    shared: &'a Shared<L>,
    calls: &'a Calls,
    asked: AtomicU64,
    came: AtomicU64,
}

impl<L: Ledger, W: Wait + time::Clock> Clock for Between<'_, L, W> {
    fn now(&self) -> Moment {
        match self.asked.fetch_add(1, Ordering::SeqCst) {
            0 => Moment(399_000),
            1 => {
                self.calls.come_to(self.rt, CALLS);
                rest(self.rt);
                Moment(400_000)
            }
            _ => {
                let came = self.calls.come_to(self.rt, CALLS.wrapping_mul(2));
                self.came.store(u64::from(came), Ordering::SeqCst);
                stop(self.rt, self.shared);
                Moment(400_001)
            }
        }
    }
}

// Whether what a turn of ticks enters is committed before a stop.
fn tick_once<L: Ledger, W: Wait + time::Clock>(rt: &W, shared: &Shared<L>, calls: &Calls) -> bool {
    let clock = Between {
        rt,
        shared,
        calls,
        asked: AtomicU64::new(0),
        came: AtomicU64::new(0),
    };
    if let Some(seat) = new_seat(rt, shared) {
        drop(tick_worker(rt, shared, seat, &clock, &NoGate));
    }
    let came = clock.came.load(Ordering::SeqCst);
    drop(clock);
    came == 1
}

// The same beside the worker that commits.
fn tick_beside<L: Ledger + Send + Sync, W: Host>(
    rt: &W,
    shared: &Shared<L>,
    flusher: Flusher<MemDisk>,
) -> bool {
    let calls = Calls {
        made: AtomicU64::new(0),
    };
    let came = join(
        rt,
        || commit(rt, shared, flusher, &calls),
        || tick_once(rt, shared, &calls),
    )
    .1;
    drop(calls);
    came
}

fn commits_a_turn<L: Ledger + Send + Sync, W: Host>(
    rt: &W,
    alloc: Global,
    blank: Blank,
) -> Option<bool>
    requires name { blank.name ≡ L.name }
    requires parts { blank.parts ≡ L.parts }
    requires all { blank.parts ≡ 65536 }
{
    let shared: Option<Shared<L>> = share(silent_core(alloc, 3), blank);
    let (shared, flusher) = shared.zip(memory_flusher(alloc))?;
    let came = tick_beside(rt, &shared, flusher);
    drop(shared);
    Some(came)
}

#[test]
fn a_turn_wakes_the_worker_that_commits(rt: HostRuntime) {
    let came = commits_a_turn::<Brand, _>(&rt, rt.alloc(), Blank::new(65_536));
    expect(&rt, came, Some(true));
}
