//! What a worker waits for.
ghost use Rattle.std.specs.Prelude.{◌≡◌, ◌≢◌, IsTrue, false};
ghost use Rattle.apd_desk.specs.declared.news.News.TheVariants.{Entry, Settled};

use crate::locked::Look;
use std::sync::Condvar;

/// What a worker waits for, beside a stop.
#[derive(Clone, Copy, Debug, PartialEq, Eq)]
pub(crate) enum News {
    /// That a request became an entry.
    Entry,
    /// That entries were settled.
    Settled,
    /// Nothing else.
    Stop,
}

impl News {
    /// Whether there are any between two looks.
    pub(crate) fn has_come(self, seen: Look, now: Look) -> bool
        ensures stop { seen.stopped ≢ now.stopped → IsTrue result }
        ensures entry { self ≡ Entry → seen.accepted ≢ now.accepted → IsTrue result }
        ensures settled { self ≡ Settled → seen.settled ≢ now.settled → IsTrue result }
        ensures same { seen ≡ now → result ≡ false }
    {
        let other = match self {
            News::Entry => seen.accepted != now.accepted,
            News::Settled => seen.settled != now.settled,
            News::Stop => false,
        };
        seen.stopped != now.stopped || other
    }
}

/// Where those wait that wait for news, each kind for its own.
#[derive(Drop)]
pub(crate) struct Conditions {
    entry: Condvar,
    settled: Condvar,
    stop: Condvar,
}

impl Conditions {
    pub(crate) fn new() -> Conditions {
        Conditions {
            entry: Condvar::new(),
            settled: Condvar::new(),
            stop: Condvar::new(),
        }
    }

    /// Where those wait that wait for this.
    pub(crate) fn of(&self, news: News) -> &Condvar {
        match news {
            News::Entry => &self.entry,
            News::Settled => &self.settled,
            News::Stop => &self.stop,
        }
    }

    /// Wakes those that wait for this; at a stop all.
    pub(crate) fn tell(&self, news: News) {
        if news == News::Stop {
            self.entry.notify_all();
            self.settled.notify_all();
        }
        self.of(news).notify_all();
    }
}
