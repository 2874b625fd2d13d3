use crate::expect::expect;
use apd_base::Moment;
use apd_desk::Clock;
use apd_serve::SystemClock;
use std::io::{self, ErrorKind};
use std::sync::atomic::AtomicU64;
use std::sync::atomic::Ordering::SeqCst;
use std::time::{self, Duration};

/// At this moment the clock can't be read.
const NEVER: u64 = u64::MAX;

/// A clock that is set by hand, in milliseconds.
#[derive(Drop)]
struct Hand {
    moment: AtomicU64,
}

impl time::Clock for Hand {
    fn monotonic(&self) -> io::Result<Duration> {
        match self.moment.load(SeqCst) {
            NEVER => Err(ErrorKind::Unsupported.into()),
            moment => Ok(Duration::from_millis(moment)),
        }
    }

    fn since_1970(&self) -> io::Result<Duration> {
        Err(ErrorKind::Unsupported.into())
    }
}

/// What is told at a moment by a clock that began at another.
fn moment_of(began: u64, then: u64) -> Moment {
    let hand = Hand {
        moment: AtomicU64::new(began),
    };
    let clock = SystemClock::new(&hand);
    hand.moment.store(then, SeqCst);
    clock.now()
}

#[test]
fn the_milliseconds_since_it_was_made(rt: HostRuntime) {
    for (began, then, moment) in [
        (5_000, 5_000, 0),
        (5_000, 5_001, 1),
        (5_000, 305_250, 300_250),
        (0, 7, 7),
        (5_000, NEVER, 0),
        (NEVER, 5_000, 0),
    ] {
        expect(&rt, moment_of(began, then), Moment(moment));
    }
}
