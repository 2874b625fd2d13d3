//! Where the worker of a recipient waits, and what wakes it there.
use crate::idle::Progress;
use crate::locked::{Locked, Look};
use crate::news::News;
use crate::shared::Shared;
use apd_base::limits::MAX_BSS;
use apd_mlme::Recipient;
use mio::unix::SourceFd;
use mio::{Events, Interest, Poll, Registry, Token, Waker};
use std::alloc::Global;
use std::array;
use std::net::Net;
use std::os::fd::RawFd;
use std::sync::atomic::{AtomicBool, Ordering};
use std::sync::ledger::Ledger;
use std::sync::{OnceLock, Wait};
use std::time::Clock;

/// How many recipients there are at most: a radio of each BSSID, and the control port.
const RECIPIENTS: usize = MAX_BSS + 1;

/// What the system tells of: that the bell rang.
const WOKEN: Token = Token(0);

/// And that the socket can be read.
const READABLE: Token = Token(1);

// What wakes the worker of a recipient.
#[derive(Drop)]
struct Bell {
    to: Recipient,
    waker: Waker,
    // Whether that worker waits at its socket, or is about to.
    asleep: AtomicBool,
}

/// What wakes the workers that wait at their sockets. A place is taken once.
#[derive(Drop)]
pub(crate) struct Bells {
    places: [OnceLock<Bell>; RECIPIENTS],
}

impl Bells {
    pub(crate) fn new() -> Bells {
        Bells {
            places: array::from_fn(|_| OnceLock::new()),
        }
    }

    /// Keeps what wakes the worker of a recipient. Tells at which place, if there was one.
    pub(crate) fn keep(&self, to: Recipient, waker: Waker) -> Option<usize> {
        let asleep = AtomicBool::new(false);
        let mut bell = Bell { to, waker, asleep };
        for (at, place) in self.places.iter().enumerate() {
            match place.try_set(bell) {
                Ok(_token) => return Some(at),
                Err(back) => bell = back,
            }
        }
        None
    }

    /// Notes whether the worker at a place waits at its socket.
    pub(crate) fn note_asleep(&self, at: usize, asleep: bool) {
        if let Some(bell) = self.places.get(at).and_then(|place| place.get()) {
            bell.asleep.store(asleep, Ordering::SeqCst);
        }
    }

    /// At which places are those that wait at their sockets, and for whom outs are ready.
    pub(crate) fn ready_places<L: Ledger>(&self, locked: &Locked<L>) -> [bool; RECIPIENTS] {
        let mut ready = [false; RECIPIENTS];
        for (place, ready) in self.places.iter().zip(&mut ready) {
            *ready = place.get().is_some_and(|bell| bell.asleep.load(Ordering::SeqCst)
                && locked.is_ready(bell.to));
        }
        ready
    }

    /// Wakes those at these places.
    pub(crate) fn ring(&self, places: [bool; RECIPIENTS]) {
        for (place, is_meant) in self.places.iter().zip(places) {
            if is_meant && let Some(bell) = place.get() {
                let _woken = bell.waker.wake();
            }
        }
    }

    /// Wakes all.
    pub(crate) fn ring_all(&self) {
        self.ring([true; RECIPIENTS]);
    }
}

// What the system tells of.
#[derive(Drop)]
struct Watch {
    // Where its bell is.
    place: usize,
    poll: Poll,
    events: Events,
}

impl Watch {
    // None where the system has no such thing, memory lacks, or as many wait already.
    fn open<L: Ledger, N: Net>(
        net: &N,
        alloc: Global,
        shared: &Shared<L>,
        to: Recipient,
    ) -> Option<Watch> {
        let events = Events::with_capacity(alloc, 2).ok()?;
        let poll = Poll::new(net).ok()?;
        let waker = Waker::new(poll.registry(), WOKEN).ok()?;
        let place = shared.keep_bell(to, waker)?;
        Some(Watch {
            place,
            poll,
            events,
        })
    }

    // Waits until the descriptor can be read, or its bell rings, if since a look nothing was settled. Tells whether it
    // could wait for that.
    fn wait<L: Ledger>(&mut self, shared: &Shared<L>, descriptor: RawFd, seen: Look) -> bool {
        if !ask_for(self.poll.registry(), descriptor) {
            return false;
        }
        if !shared.mark_asleep(self.place, seen) {
            return true;
        }
        let could = self.poll.poll(&mut self.events, None).is_ok();
        shared.mark_awake(self.place);
        could
    }
}

// Has the system tell that a descriptor can be read, of one that can be already too. One that is new is registered.
fn ask_for(registry: &Registry, descriptor: RawFd) -> bool {
    let mut source = SourceFd(&descriptor);
    registry
        .reregister(&mut source, READABLE, Interest::READABLE)
        .is_ok()
        || registry
            .register(&mut source, READABLE, Interest::READABLE)
            .is_ok()
}

/// Where the worker of a recipient waits.
#[derive(Drop)]
pub(crate) struct Waiter {
    watch: Option<Watch>,
}

impl Waiter {
    /// It is to be made before the worker's first look: from then on no news is lost.
    pub(crate) fn new<L: Ledger, N: Net>(
        net: &N,
        alloc: Global,
        shared: &Shared<L>,
        to: Recipient,
    ) -> Waiter {
        Waiter {
            watch: Watch::open(net, alloc, shared, to),
        }
    }

    // Waits at this descriptor, if there is one. Tells whether it could.
    fn wait_at<L: Ledger>(
        &mut self,
        shared: &Shared<L>,
        descriptor: Option<RawFd>,
        seen: Look,
    ) -> bool {
        match (&mut self.watch, descriptor) {
            (Some(watch), Some(descriptor)) => watch.wait(shared, descriptor, seen),
            _ => false,
        }
    }

    /// Waits until this descriptor can be read, outs are ready or all are to stop, if since this look there was nothing
    /// to do. For the pause at most it waits where something is to be tried again, and where it can't wait for that. No
    /// clause speaks of waiting.
    pub(crate) fn wait<L: Ledger, W: Wait + Clock>(
        &mut self,
        rt: &W,
        shared: &Shared<L>,
        progress: Progress,
        descriptor: Option<RawFd>,
        seen: Look,
    ) {
        if progress != Progress::Nothing || !self.wait_at(shared, descriptor, seen) {
            shared.pause(rt, News::Settled, seen);
        }
    }
}
