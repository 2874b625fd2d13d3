//! The moments of the system's clock.
use apd_base::Moment;
use apd_desk::Clock;
use std::time::{self, Instant};

/// Tells the milliseconds since it was made, by the system's clock that doesn't go back. Where that can't be read it
/// tells 0, at which nobody was silent for any time.
#[derive(Drop)]
pub struct SystemClock<T: time::Clock> {
    system: T,
    began: Option<Instant>,
}

impl<T: time::Clock> SystemClock<T> {
    /// A clock that begins at 0 now.
    pub fn new(system: T) -> SystemClock<T> {
        let began = Instant::now(&system).ok();
        SystemClock { system, began }
    }
}

impl<T: time::Clock> Clock for SystemClock<T> {
    fn now(&self) -> Moment {
        let since = self
            .began
            .and_then(|began| began.elapsed(&self.system).ok());
        match since {
            Some(since) => Moment(u64::try_from(since.as_millis()).unwrap_or(u64::MAX)),
            None => Moment(0),
        }
    }
}
