//! A call that a store's file has not answered.
use crate::notices::{tell_answers_again, tell_unanswered};
use log::Log;
use std::time::{Clock, Duration, Instant};

/// For how long a call has no answer before that is told, in milliseconds.
const LONG: u64 = 1_000;

// A call without an answer, by its number: when a look found it first, and whether it was told.
#[derive(Clone, Copy)]
struct Call {
    number: u64,
    found: Instant,
    is_told: bool,
}

/// The call that had no answer at the last look, if one had none.
#[derive(Drop)]
pub(crate) struct Unanswered {
    call: Option<Call>,
}

// A time in whole seconds, to the nearest.
fn in_seconds(time: Duration) -> u64 {
    time.saturating_add(Duration::from_millis(500)).as_secs()
}

impl Unanswered {
    /// No look found any.
    pub(crate) fn new() -> Unanswered {
        Unanswered { call: None }
    }

    /// Looks once, as this call has no answer, or none is without one. Once a call has had none for long, that is told; and
    /// once it was answered, how long that took, as far as looks tell.
    pub(crate) fn look<W: Clock + Log>(&mut self, rt: &W, unanswered: Option<u64>) {
        let Ok(now) = Instant::now(rt) else {
            return;
        };
        match &mut self.call {
            Some(call) if unanswered == Some(call.number) => call.go_on(rt, now),
            found => {
                if let Some(call) = found {
                    call.end(rt, now);
                }
                *found = unanswered.map(|number| Call::new(number, now));
            }
        }
    }
}

impl Call {
    fn new(number: u64, found: Instant) -> Call {
        Call {
            number,
            found,
            is_told: false,
        }
    }

    // It has no answer still.
    fn go_on<L: Log>(&mut self, log: &L, now: Instant) {
        let time = now.saturating_duration_since(self.found);
        if !self.is_told && time >= Duration::from_millis(LONG) {
            tell_unanswered(log, in_seconds(time));
            self.is_told = true;
        }
    }

    // It was answered.
    fn end<L: Log>(&self, log: &L, now: Instant) {
        if self.is_told {
            tell_answers_again(log, in_seconds(now.saturating_duration_since(self.found)));
        }
    }
}
