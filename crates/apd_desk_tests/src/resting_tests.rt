// What rests between two tries of a radio whose driver fails, told by looks at the clock: who rests looks at it.
ghost use Rattle.std.specs.Prelude.{◌≡◌};

use crate::common::{Still, associated_core, new_seat, serve_alone, share};
use crate::expect::expect;
use crate::habit::{Habit, Habitual};
use crate::staged::Staged;
use apd_desk::{NoGate, Shared};
use apd_radio::{Failing, Sim};
use std::alloc::Global;
use std::io;
use std::marker::Brand;
use std::net::{Net, SocketAddr, UdpSocket};
use std::sync::Wait;
use std::sync::atomic::{AtomicU64, Ordering};
use std::sync::ledger::{Blank, Ledger};
use std::time::{Clock, Duration};

/// How often the clock was looked at, and how often it was so between two times that a radio was taken down.
#[derive(Drop)]
struct Looks {
    looks: AtomicU64,
    seen: AtomicU64,
    downs: AtomicU64,
    rests: AtomicU64,
}

impl Looks {
    fn new() -> Looks {
        Looks {
            looks: AtomicU64::new(0),
            seen: AtomicU64::new(0),
            downs: AtomicU64::new(0),
            rests: AtomicU64::new(0),
        }
    }

    fn look(&self) {
        self.looks.fetch_add(1, Ordering::SeqCst);
    }

    fn take_down(&self) {
        let looks = self.looks.load(Ordering::SeqCst);
        self.downs.fetch_add(1, Ordering::SeqCst);
        if self.seen.swap(looks, Ordering::SeqCst) != looks {
            self.rests.fetch_add(1, Ordering::SeqCst);
        }
    }

    // How often a radio was taken down, and how often the clock was looked at in between.
    fn found(&self) -> (u64, u64) {
        (
            self.downs.load(Ordering::SeqCst),
            self.rests.load(Ordering::SeqCst),
        )
    }
}

/// A runtime whose clock is counted.
#[derive(Drop)]
struct Counting<'a, R> {
    rt: R,
    looks: &'a Looks,
}

impl<R: Wait> Wait for Counting<'_, R> {}

impl<R: Clock> Clock for Counting<'_, R> {
    fn monotonic(&self) -> io::Result<Duration> {
        self.looks.look();
        self.rt.monotonic()
    }

    fn since_1970(&self) -> io::Result<Duration> {
        self.rt.since_1970()
    }

    fn sleep(&self, duration: Duration) {
        self.looks.look();
        self.rt.sleep(duration)
    }
}

impl<R: Net> Net for Counting<'_, R> {
    type Stream = R::Stream;

    type Listener = R::Listener;

    fn bind(&self, addr: SocketAddr) -> io::Result<R::Listener> {
        self.rt.bind(addr)
    }

    fn connect(&self, addr: SocketAddr) -> io::Result<R::Stream> {
        self.rt.connect(addr)
    }

    fn bind_udp(&self, addr: SocketAddr) -> io::Result<UdpSocket> {
        self.rt.bind_udp(addr)
    }
}

/// The habit of a radio that tells when it is taken down.
#[derive(Drop)]
struct Telling<'a> {
    looks: &'a Looks,
}

impl Habit for Telling<'_> {
    fn take_down(&mut self) {
        self.looks.take_down();
    }
}

// Serves a radio whose driver fails when a station is installed, until a stop at its first poll.
fn serve<L: Ledger, W: Wait + Clock + Net>(
    rt: &W,
    alloc: Global,
    shared: &Shared<L>,
    looks: &Looks,
) -> Option<()> {
    let seat = new_seat(rt, shared)?;
    let inner = Habitual::new(Failing::new(Sim::new(alloc), 1), Telling { looks });
    let radio = Habitual::new(inner, Staged::new(rt, alloc, shared, &[]));
    drop(serve_alone(rt, alloc, shared, seat, radio, &Still, &NoGate));
    Some(())
}

fn rests<L: Ledger, W: Wait + Clock + Net>(
    rt: &W,
    alloc: Global,
    blank: Blank,
    looks: &Looks,
) -> Option<()>
    requires name { blank.name ≡ L.name }
    requires parts { blank.parts ≡ L.parts }
    requires all { blank.parts ≡ 65536 }
{
    let shared: Shared<L> = share(associated_core(alloc), blank)?;
    let served = serve(rt, alloc, &shared, looks);
    drop(shared);
    served
}

// Taken down are its radio as the slot is made, at the first try, and each behind a rest at two more.
#[test]
fn there_is_a_rest_between_two_tries(rt: HostRuntime) {
    let looks = Looks::new();
    let alloc = rt.alloc();
    let counting = Counting { rt, looks: &looks };
    let served = rests::<Brand, _>(&counting, alloc, Blank::new(65_536), &looks);
    drop(counting);
    expect(&rt, (served, looks.found()), (Some(()), (4, 2)));
}
