//! What several tests use: frames, a core, a flusher, and steps on a shared core.
ghost use Rattle.std.specs.Prelude.{◌≡◌};

use apd_base::{Addr, Bssid, Moment};
use apd_conf::{AddressList, Conf, Confs, InterfaceName};
use apd_core::{Accepted, Core, Input};
use apd_ctrl::Query;
use apd_desk::{
    Clock, Gate, NoGate, Port, Seat, Shared, control_worker, flush_worker, radio_worker,
    tick_worker,
};
use apd_disk::{Disk, MemDisk};
use apd_flusher::Flusher;
use apd_radio::Radio;
use apd_slot::Slot;
use apd_store::format;
use apd_table::Table;
use std::alloc::Global;
use std::net::Net;
use std::sync::Wait;
use std::sync::ledger::{Blank, Ledger};
use std::thread::Threads;
use std::time;

/// A runtime that threads share, by which they wait, tell the time and have sockets.
pub(crate) trait Host: Threads
    + Wait
    + time::Clock
    + Net<Stream: Send + Sync, Listener: Send + Sync>
    + Sync {}

impl<T: Threads + Wait + time::Clock + Net<Stream: Send + Sync, Listener: Send + Sync> + Sync> Host
    for T {}

/// The BSSID of the built-in configuration.
pub(crate) const WLAN0: Bssid = Bssid(Addr([2, 0, 0, 0, 0, 1]));

/// The BSSID of a second radio.
pub(crate) const WLAN1: Bssid = Bssid(Addr([2, 0, 0, 0, 0, 2]));

/// The number of a device's bytes.
pub(crate) const LENGTH: usize = 2_097_216;

/// The station whose address ends by this byte.
pub(crate) fn station(last: u8) -> Addr {
    Addr([2, 0, 0, 0, 0, last])
}

/// The frame by which a station asks for Open System authentication.
pub(crate) fn authentication(last: u8) -> [u8; 30] {
    [
        0xb0, 0, 0, 0, 2, 0, 0, 0, 0, 1, 2, 0, 0, 0, 0, last, 2, 0, 0, 0, 0, 1, 0x10, 0, 0, 0, 1,
        0, 0, 0,
    ]
}

/// The frame by which the station that ends by 0xaa asks for association with the network `net`.
pub(crate) const ASSOCIATION: [u8; 39] = [
    0, 0, 0, 0, 2, 0, 0, 0, 0, 1, 2, 0, 0, 0, 0, 0xaa, 2, 0, 0, 0, 0, 1, 0x20, 0, 0x31, 4, 0x0a, 0,
    0, 3, 0x6e, 0x65, 0x74, 1, 4, 0x82, 0x84, 0x8b, 0x96,
];

/// What is told of that station once it is associated.
pub(crate) const FIRST: &[u8] =
    b"02:00:00:00:00:aa\nflags=[AUTH][ASSOC][AUTHORIZED]\naid=1\ncapability=0x431\nlisten_interval=10\n";

/// A clock that stands still.
pub(crate) struct Still;

impl Clock for Still {
    fn now(&self) -> Moment {
        Moment(0)
    }
}

fn built_in(alloc: Global) -> Option<Confs> {
    let mut list = Vec::new(alloc);
    list.push(Conf::built_in(alloc).ok()?).ok()?;
    Confs::new(list).ok()
}

fn core_of(alloc: Global, confs: Confs) -> Option<Core> {
    Core::new(alloc, Table::new(alloc), confs, Moment(0)).ok()
}

/// A core of the built-in configuration, whose radio was not started.
pub(crate) fn new_core(alloc: Global) -> Option<Core> {
    core_of(alloc, built_in(alloc)?)
}

/// Whether a request at a moment becomes an entry of the core.
pub(crate) fn enters_at(core: &mut Core, input: Input<'_>, moment: Moment) -> bool {
    matches!(core.accept(input, moment), Ok(Accepted::Entry(_)))
}

/// The same at the first moment.
pub(crate) fn enters(core: &mut Core, input: Input<'_>) -> bool {
    enters_at(core, input, Moment(0))
}

/// Whether the start of an interface becomes an entry.
pub(crate) fn start(alloc: Global, core: &mut Core, bssid: Bssid) -> bool {
    let none = AddressList::new(alloc);
    let (accept, deny) = (&none, &none);
    enters(
        core,
        Input::Configure {
            bssid,
            accept,
            deny,
        },
    )
}

/// A core whose radio was started by entry 1, which is not settled.
pub(crate) fn started_core(alloc: Global) -> Option<Core> {
    let mut core = new_core(alloc)?;
    start(alloc, &mut core, WLAN0).then_some(core)
}

fn wlan1(alloc: Global) -> Option<Conf> {
    let name = InterfaceName::new("wlan1", alloc).ok();
    let (mut conf, interface) = Conf::built_in(alloc).ok().zip(name)?;
    conf.interface = interface;
    conf.bssid = WLAN1;
    Some(conf)
}

/// Adds one to a list, where there is one.
pub(crate) fn adds<X: Drop>(list: &mut Vec<X>, one: Option<X>) -> bool {
    match one {
        Some(one) => list.push(one).is_ok(),
        None => false,
    }
}

fn two_confs(alloc: Global) -> Option<Confs> {
    let mut list = Vec::new(alloc);
    let both = adds(&mut list, Conf::built_in(alloc).ok()) && adds(&mut list, wlan1(alloc));
    Confs::new(both.then_some(list)?).ok()
}

fn starts_both(alloc: Global, core: &mut Core) -> bool {
    start(alloc, core, WLAN0) && start(alloc, core, WLAN1)
}

/// A core whose two radios were started, which is not settled.
pub(crate) fn core_of_two_radios(alloc: Global) -> Option<Core> {
    let mut core = core_of(alloc, two_confs(alloc)?)?;
    starts_both(alloc, &mut core).then_some(core)
}

/// Whether a station asks for authentication and association.
pub(crate) fn enters_both(core: &mut Core) -> bool {
    enters(core, Input::Received(WLAN0, &authentication(0xaa)))
        && enters(core, Input::Received(WLAN0, &ASSOCIATION))
}

/// A core at which a station associates, which is not settled.
pub(crate) fn asked_core(alloc: Global) -> Option<Core> {
    let mut core = started_core(alloc)?;
    enters_both(&mut core).then_some(core)
}

// Whether a batch of what is not settled is under way.
fn loads<D: Disk>(core: &mut Core, flusher: &mut Flusher<D>) -> bool {
    match core.take() {
        Ok(Some(batch)) => flusher.load(batch).is_ok(),
        Ok(None) | Err(_) => false,
    }
}

// The turns of a batch without a switch.
fn turns<D: Disk>(flusher: &mut Flusher<D>) -> bool {
    for _turn in 0..4 {
        if flusher.turn().is_err() {
            return false;
        }
    }
    true
}

fn publishes<D: Disk>(core: &mut Core, flusher: &mut Flusher<D>) -> bool {
    match flusher.unload() {
        Some(receipt) => core.publish(receipt).is_ok(),
        None => false,
    }
}

// Commits what is not settled, as one batch without a switch.
fn settles<D: Disk>(core: &mut Core, flusher: &mut Flusher<D>) -> bool {
    loads(core, flusher) && turns(flusher) && publishes(core, flusher)
}

/// The same, by a flusher over a new store.
pub(crate) fn settles_in_memory(alloc: Global, core: &mut Core) -> bool {
    match memory_flusher(alloc) {
        Some(mut flusher) => settles(core, &mut flusher),
        None => false,
    }
}

/// Settles a core, by a flusher over a new store.
pub(crate) fn settle(alloc: Global, mut core: Core) -> Option<Core> {
    settles_in_memory(alloc, &mut core).then_some(core)
}

/// A core at which a station associated, which is settled and not handed out.
pub(crate) fn associated_core(alloc: Global) -> Option<Core> {
    settle(alloc, asked_core(alloc)?)
}

// No clause says what the disk holds: a proof would go through two million bytes.
pub(crate) fn blank_disk(alloc: Global) -> Option<MemDisk> {
    MemDisk::new(alloc, vec![in alloc; 0u8; LENGTH].ok()?).ok()
}

/// A flusher over a new store.
pub(crate) fn flusher<D: Disk + Drop>(alloc: Global, disk: D) -> Option<Flusher<D>> {
    let store = format(alloc, disk).ok()?;
    Flusher::new(alloc, store, Table::new(alloc)).ok()
}

/// A flusher over a new store in memory.
pub(crate) fn memory_flusher(alloc: Global) -> Option<Flusher<MemDisk>> {
    flusher(alloc, blank_disk(alloc)?)
}

/// A shared core, where there is a core.
pub(crate) fn share<L: Ledger>(core: Option<Core>, blank: Blank) -> Option<Shared<L>>
    requires name { blank.name ≡ L.name }
    requires parts { blank.parts ≡ L.parts }
    requires all { blank.parts ≡ 65536 }
{
    Some(Shared::new(core?, blank))
}

/// A new seat, of which nothing is said.
pub(crate) fn new_seat<L: Ledger, W: Wait>(rt: &W, shared: &Shared<L>) -> Option<Seat<L>> {
    shared.seat(rt)
}

/// Tells all to stop, and says nothing of the shared core then.
pub(crate) fn stop<L: Ledger, W: Wait>(rt: &W, shared: &Shared<L>) {
    shared.stop(rt);
}

/// Closes a shared core with all its seats. The core, and how many entries there were.
pub(crate) fn close<L: Ledger>(shared: Shared<L>, seats: Vec<Seat<L>>) -> Option<(Core, u64)>
    requires { L.parts ≡ 65536 }
{
    shared.close(seats).ok()
}

/// Whether a request at a moment becomes an entry by a seat.
pub(crate) fn submits_at<L: Ledger, W: Wait>(
    rt: &W,
    shared: &Shared<L>,
    seat: &mut Seat<L>,
    input: Input<'_>,
    moment: Moment,
) -> bool {
    matches!(
        shared.submit(rt, seat, input, moment),
        Ok(Accepted::Entry(_))
    )
}

/// Whether a frame becomes an entry by a seat.
pub(crate) fn submits<L: Ledger, W: Wait>(
    rt: &W,
    shared: &Shared<L>,
    seat: &mut Seat<L>,
    frame: &[u8],
) -> bool {
    submits_at(rt, shared, seat, Input::Received(WLAN0, frame), Moment(0))
}

/// Whether that station is there, as a seat is told.
pub(crate) fn finds_station<L: Ledger, W: Wait>(
    rt: &W,
    shared: &Shared<L>,
    seat: &mut Seat<L>,
) -> bool {
    match shared.ask(rt, seat, Query::First(WLAN0)) {
        Ok(answer) => answer.text() == FIRST,
        Err(_) => false,
    }
}

/// Commits until a stop, and says nothing of the flusher then.
pub(crate) fn commit<L: Ledger, W: Wait + time::Clock, D: Disk + Drop, G: Gate>(
    rt: &W,
    shared: &Shared<L>,
    flusher: Flusher<D>,
    gate: &G,
) {
    drop(flush_worker(rt, shared, flusher, gate));
}

/// Serves a radio until a stop, and says nothing of its slot then but what it is.
pub(crate) fn serve_radio<L: Ledger, W: Wait + time::Clock + Net, R: Radio, C: Clock, G: Gate>(
    rt: &W,
    alloc: Global,
    shared: &Shared<L>,
    seat: Seat<L>,
    slot: Slot<R>,
    clock: &C,
    spares: Vec<R>,
    gate: &G,
) -> (Seat<L>, Slot<R>) {
    radio_worker(rt, alloc, shared, seat, slot, clock, spares, gate)
}

/// Serves a radio that has no spare until a stop. Gives the seat back.
pub(crate) fn serve_alone<L: Ledger, W: Wait + time::Clock + Net, R: Radio, C: Clock, G: Gate>(
    rt: &W,
    alloc: Global,
    shared: &Shared<L>,
    seat: Seat<L>,
    radio: R,
    clock: &C,
    gate: &G,
) -> Seat<L> {
    let slot = Slot::new(alloc, radio, WLAN0);
    let (seat, slot) = serve_radio(rt, alloc, shared, seat, slot, clock, Vec::new(alloc), gate);
    drop(slot);
    seat
}

/// Serves a control port until a stop, and says nothing of its replies then. Gives both back.
pub(crate) fn serve_port<L: Ledger, W: Wait + time::Clock + Net, P: Port, G: Gate>(
    rt: &W,
    alloc: Global,
    shared: &Shared<L>,
    seat: Seat<L>,
    port: P,
    gate: &G,
) -> (Seat<L>, P) {
    control_worker(rt, alloc, shared, seat, port, &Still, gate)
}

/// Submits no tick until a stop, since its clock stands still. Gives its seat.
pub(crate) fn serve_ticks<L: Ledger, W: Wait + time::Clock>(
    rt: &W,
    shared: &Shared<L>,
) -> Option<Seat<L>> {
    let seat = new_seat(rt, shared)?;
    Some(tick_worker(rt, shared, seat, &Still, &NoGate))
}

/// Commits into a new store in memory until a stop. Whether there was a flusher.
pub(crate) fn commit_in_memory<L: Ledger, W: Wait + time::Clock, G: Gate>(
    rt: &W,
    alloc: Global,
    shared: &Shared<L>,
    gate: &G,
) -> bool {
    match memory_flusher(alloc) {
        Some(flusher) => {
            commit(rt, shared, flusher, gate);
            true
        }
        None => false,
    }
}

/// Tells all to stop, and commits what is not settled. Whether there was a flusher.
pub(crate) fn commit_all<L: Ledger, W: Wait + time::Clock>(
    rt: &W,
    alloc: Global,
    shared: &Shared<L>,
) -> bool {
    stop(rt, shared);
    commit_in_memory(rt, alloc, shared, &NoGate)
}
