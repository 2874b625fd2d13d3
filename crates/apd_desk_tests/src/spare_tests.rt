// A radio whose driver fails while stations are served, with spare radios and without, and another radio beside it.
ghost use Rattle.std.specs.Prelude.{◌≡◌};

use crate::common::{
    Host, Still, WLAN0, WLAN1, adds, commit, core_of_two_radios, memory_flusher, new_seat,
    serve_radio, share, station,
};
use crate::expect::expect;
use crate::fed::{Asks, Fed, Frame, Stage, When};
use crate::flaky::{Calls, Flaky};
use crate::habit::Habitual;
use crate::operator::{begin, replies_to};
use apd_base::{Addr, Bssid};
use apd_ctrl::Query;
use apd_desk::{NoGate, Seat, Shared};
use apd_disk::MemDisk;
use apd_flusher::Flusher;
use apd_mlme::Out;
use apd_radio::{Radio, Sim};
use apd_slot::Slot;
use std::alloc::Global;
use std::marker::Brand;
use std::net::Net;
use std::process::Abort;
use std::sync::Wait;
use std::sync::ledger::{Blank, Ledger};
use std::thread::{join, sleep};
use std::time::{Clock, Duration};

/// How often a row is looked for at most, a millisecond apart: a test that waits for one ends.
const LOOKS: u64 = 20_000;

/// As many calls as no test makes.
const MANY: u64 = 1_000;

type Driver<'a> = Habitual<Flaky<Sim>, Fed<'a>>;

/// What the radio receives that fails, where it has a spare.
const BEFORE: &[Frame] = &[
    Frame(Asks::Authentication, 0xaa, When::AtOnce),
    Frame(Asks::Association, 0xaa, When::AtOnce),
];

/// What the spare that serves receives.
const BEHIND: &[Frame] = &[
    Frame(Asks::Authentication, 0xbb, When::AtOnce),
    Frame(Asks::Association, 0xbb, When::AtOnce),
    Frame(Asks::Authentication, 0xc1, When::Told),
    Frame(Asks::Authentication, 0xc2, When::Told),
];

/// What a radio without a spare receives.
const ALONE: &[Frame] = &[
    Frame(Asks::Authentication, 0xaa, When::AtOnce),
    Frame(Asks::Association, 0xaa, When::AtOnce),
    Frame(Asks::Leave, 0xaa, When::Tried),
    Frame(Asks::Authentication, 0xbb, When::Tried),
    Frame(Asks::Association, 0xbb, When::Tried),
    Frame(Asks::Authentication, 0xc1, When::Told),
    Frame(Asks::Authentication, 0xc2, When::Told),
];

/// What the other radio receives meanwhile.
const BESIDE: &[Frame] = &[
    Frame(Asks::Authentication, 0xdd, When::AtOnce),
    Frame(Asks::Association, 0xdd, When::AtOnce),
    Frame(Asks::Authentication, 0xe1, When::Told),
    Frame(Asks::Authentication, 0xe2, When::Told),
];

/// What a radio receives that serves all.
const ALL: &[Frame] = &[
    Frame(Asks::Authentication, 0xaa, When::AtOnce),
    Frame(Asks::Association, 0xaa, When::AtOnce),
    Frame(Asks::Authentication, 0xbb, When::AtOnce),
    Frame(Asks::Association, 0xbb, When::AtOnce),
    Frame(Asks::Authentication, 0xc1, When::Told),
    Frame(Asks::Authentication, 0xc2, When::Told),
];

/// What one receives that fails behind a second station's authentication, and what its spare receives.
const BETWEEN: &[Frame] = &[
    Frame(Asks::Authentication, 0xbb, When::AtOnce),
    Frame(Asks::Association, 0xbb, When::AtOnce),
];

const LAST: &[Frame] = &[
    Frame(Asks::Authentication, 0xc1, When::Told),
    Frame(Asks::Authentication, 0xc2, When::Told),
];

/// What is asked once all that has come.
const ASKED: &[&[u8]] = &[b"IFNAME=wlan0 STATUS", b"IFNAME=wlan1 STATUS", b"PING"];

/// How the reply to the first of these begins where the radio is up.
const UP: &[u8] = b"state=ENABLED\n";

/// A spare radio: how many calls it passes on before it fails for good, and what it receives.
struct Spare(u64, &'static [Frame]);

/// How the first radio is when it is handed to its worker, and how often its driver fails then.
#[derive(Clone, Copy)]
enum Begins {
    /// Up; it sends its first answer, and fails when the station is installed.
    Up(u64),
    /// Down; it fails at once.
    Down(u64),
}

impl Begins {
    // The calls of its driver: one more fails where it is down at first.
    fn calls(self) -> Calls {
        match self {
            Begins::Up(faults) => Calls { passes: 1, faults },
            Begins::Down(faults) => Calls {
                passes: 0,
                faults: faults.saturating_add(1),
            },
        }
    }
}

/// How the first radio begins, what it receives, its spares, and how the replies begin.
#[derive(Clone, Copy)]
struct Scene {
    begins: Begins,
    frames: &'static [Frame],
    spares: &'static [Spare],
    replies: &'static [&'static [u8]],
}

/// How far both radios have come.
#[derive(Drop)]
struct Stages {
    first: Stage,
    other: Stage,
}

/// Under which identifiers a slot has two stations.
type Identifiers = [Option<u16>; 2];

/// What is seen of a slot at the end: whether it is up, which stations it wants, and which are installed.
type Seen = (bool, Identifiers, Identifiers);

/// What a test finds: whether all stations came and the replies are those, what is seen of both slots, how often the
/// first one's radios were taken down, how many frames were sent by the first one's and by the other's, and how many of
/// those answer a request for association.
#[derive(Clone, Copy)]
struct Found {
    served: bool,
    first: Option<Seen>,
    other: Option<Seen>,
    downs: usize,
    sent: [usize; 2],
    associations: [usize; 2],
}

/// The same, in that order.
type Told = (bool, [Option<Seen>; 2], usize, [usize; 2], [usize; 2]);

impl Found {
    // All of it, to be compared and printed.
    fn tell(self) -> Told {
        let sent = self.sent;
        let associations = self.associations;
        (
            self.served,
            [self.first, self.other],
            self.downs,
            sent,
            associations,
        )
    }
}

// Whether a station's row is there, and its flags begin so.
fn shows<L: Ledger, W: Wait>(
    rt: &W,
    shared: &Shared<L>,
    seat: &mut Seat<L>,
    row: (Bssid, u8),
    flags: &[u8],
) -> bool {
    let (bssid, last) = row;
    match shared.ask(rt, seat, Query::Sta(bssid, station(last))) {
        Ok(answer) => answer.text().get(18..).unwrap_or(&[]).starts_with(flags),
        Err(_) => false,
    }
}

// Waits until a station's flags begin so.
fn comes<L: Ledger, W: Wait + Clock>(
    rt: &W,
    shared: &Shared<L>,
    seat: &mut Seat<L>,
    row: (Bssid, u8),
    flags: &[u8],
) -> bool {
    for _look in 0..LOOKS {
        if shows(rt, shared, seat, row, flags) {
            return true;
        }
        sleep(rt, Duration::from_millis(1));
    }
    false
}

// Waits for both stations that associate last.
fn both_associate<L: Ledger, W: Wait + Clock>(
    rt: &W,
    shared: &Shared<L>,
    seat: &mut Seat<L>,
) -> bool {
    comes(rt, shared, seat, (WLAN0, 0xbb), b"flags=[AUTH][ASSOC]")
        && comes(rt, shared, seat, (WLAN1, 0xdd), b"flags=[AUTH][ASSOC]")
}

// Waits for the last further station at each radio.
fn both_authenticate<L: Ledger, W: Wait + Clock>(
    rt: &W,
    shared: &Shared<L>,
    seat: &mut Seat<L>,
) -> bool {
    comes(rt, shared, seat, (WLAN0, 0xc2), b"flags=[AUTH]")
        && comes(rt, shared, seat, (WLAN1, 0xe2), b"flags=[AUTH]")
}

// Waits for both stations that associate last, lets two further ones come at each radio, and waits for those. A radio
// receives the second in a later turn than the first: at that turn's look those stations were settled, so its slot is
// given them in that turn at the latest, and whenever a stop comes.
fn all_come<L: Ledger, W: Wait + Clock>(
    rt: &W,
    shared: &Shared<L>,
    seat: &mut Seat<L>,
    stages: &Stages,
) -> bool {
    let associated = both_associate(rt, shared, seat);
    stages.first.tell();
    stages.other.tell();
    associated && both_authenticate(rt, shared, seat)
}

// Asks, and tells all to stop. Whether the replies begin so.
fn replies<L: Ledger, W: Wait + Clock + Net>(
    rt: &W,
    alloc: Global,
    shared: &Shared<L>,
    seat: Seat<L>,
    texts: &[&[u8]],
) -> bool {
    let replies = replies_to(rt, alloc, shared, seat, ASKED);
    let agree = begin(replies.as_slice(), texts);
    drop(replies);
    agree
}

// Waits until it is noted of the first radio that it is up, or that it is down: it may be tried again still. Tells
// whether it came so.
fn wait_until_noted<L: Ledger, W: Wait + Clock>(rt: &W, shared: &Shared<L>, up: bool) -> bool {
    for _look in 0..LOOKS {
        if shared.is_noted_up(rt, WLAN0) == up {
            return true;
        }
        sleep(rt, Duration::from_millis(1));
    }
    false
}

// Waits until all have come, and the first radio is as it is told to be; asks then, and tells all to stop. Whether all
// came so, and the replies begin so.
fn ask<L: Ledger, W: Wait + Clock + Net>(
    rt: &W,
    alloc: Global,
    shared: &Shared<L>,
    stages: &Stages,
    scene: Scene,
) -> Option<bool> {
    let mut seat = new_seat(rt, shared)?;
    let up = scene.replies.first() == Some(&UP);
    let come = all_come(rt, shared, &mut seat, stages) && wait_until_noted(rt, shared, up);
    Some(replies(rt, alloc, shared, seat, scene.replies) && come)
}

// Commits, and asks.
fn commit_and_ask<L: Ledger + Send + Sync, W: Host>(
    rt: &W,
    alloc: Global,
    shared: &Shared<L>,
    flusher: Flusher<MemDisk>,
    stages: &Stages,
    scene: Scene,
) -> bool {
    join(
        rt,
        move || commit(rt, shared, flusher, &NoGate),
        move || ask(rt, alloc, shared, stages, scene),
    )
    .1 == Some(true)
}

fn see<R: Radio>(slot: &Slot<R>, stations: [Addr; 2]) -> Seen {
    let [one, two] = stations;
    (
        slot.is_up(),
        [slot.wanted(one), slot.wanted(two)],
        [slot.installed(one), slot.installed(two)],
    )
}

// Serves a radio, and tells what is seen of these stations then.
fn serve<L: Ledger, W: Wait + Clock + Net, R: Radio>(
    rt: &W,
    alloc: Global,
    shared: &Shared<L>,
    seat: Seat<L>,
    slot: Slot<R>,
    spares: Vec<R>,
    stations: [Addr; 2],
) -> Seen {
    let (seat, slot) = serve_radio(rt, alloc, shared, seat, slot, &Still, spares, &NoGate);
    drop(seat);
    let seen = see(&slot, stations);
    drop(slot);
    seen
}

// A radio at the BSSID that ends by this byte, by such a driver.
fn driver<'a>(
    alloc: Global,
    calls: Calls,
    bssid: u8,
    stage: &'a Stage,
    frames: &'static [Frame],
) -> Driver<'a> {
    let inner = Flaky::new(Sim::new(alloc), calls);
    Habitual::new(inner, Fed::new(alloc, bssid, stage, frames))
}

// A spare of the first radio.
fn spare_radio<'a>(alloc: Global, stage: &'a Stage, spare: &Spare) -> Driver<'a> {
    let Spare(passes, frames) = spare;
    let calls = Calls {
        passes: *passes,
        faults: MANY,
    };
    driver(alloc, calls, 1, stage, frames)
}

fn adds_spares<'a>(
    alloc: Global,
    list: &mut Vec<Driver<'a>>,
    stage: &'a Stage,
    spares: &[Spare],
) -> bool {
    for spare in spares {
        if !adds(list, Some(spare_radio(alloc, stage, spare))) {
            return false;
        }
    }
    true
}

// The spares of the first radio.
fn spares<'a>(alloc: Global, stage: &'a Stage, scene: Scene) -> Option<Vec<Driver<'a>>> {
    let mut spares = Vec::new(alloc);
    adds_spares(alloc, &mut spares, stage, scene.spares).then_some(spares)
}

// The first radio.
fn first_radio<'a>(alloc: Global, stage: &'a Stage, scene: Scene) -> Driver<'a> {
    driver(alloc, scene.begins.calls(), 1, stage, scene.frames)
}

// A slot whose device failed once before, when a station was removed that isn't there.
fn slot_down<R: Radio>(alloc: Global, radio: R) -> Slot<R> {
    let mut slot = Slot::new(alloc, radio, WLAN0);
    let _down = slot.apply(&Out::Remove(station(0xaa)));
    slot
}

fn first_slot<'a>(alloc: Global, stage: &'a Stage, scene: Scene) -> Slot<Driver<'a>> {
    let radio = first_radio(alloc, stage, scene);
    match scene.begins {
        Begins::Up(_) => Slot::new(alloc, radio, WLAN0),
        Begins::Down(_) => slot_down(alloc, radio),
    }
}

fn serve_first<L: Ledger, W: Wait + Clock + Net>(
    rt: &W,
    alloc: Global,
    shared: &Shared<L>,
    stage: &Stage,
    scene: Scene,
) -> Option<Seen> {
    let (seat, spares) = new_seat(rt, shared).zip(spares(alloc, stage, scene))?;
    let slot = first_slot(alloc, stage, scene);
    let stations = [station(0xaa), station(0xbb)];
    Some(serve(rt, alloc, shared, seat, slot, spares, stations))
}

fn serve_other<L: Ledger, W: Wait + Clock + Net>(
    rt: &W,
    alloc: Global,
    shared: &Shared<L>,
    stage: &Stage,
) -> Option<Seen> {
    let seat = new_seat(rt, shared)?;
    let calls = Calls {
        passes: MANY,
        faults: 0,
    };
    let slot = Slot::new(alloc, driver(alloc, calls, 2, stage, BESIDE), WLAN1);
    let (none, stations) = (Vec::new(alloc), [station(0xdd), station(0xe2)]);
    Some(serve(rt, alloc, shared, seat, slot, none, stations))
}

// What is seen of both radios.
fn serve_both<L: Ledger + Send + Sync, W: Host>(
    rt: &W,
    alloc: Global,
    shared: &Shared<L>,
    stages: &Stages,
    scene: Scene,
) -> (Option<Seen>, Option<Seen>) {
    join(
        rt,
        move || serve_first(rt, alloc, shared, &stages.first, scene),
        move || serve_other(rt, alloc, shared, &stages.other),
    )
}

// Whether both are served, and what is seen of them.
type Served = (bool, (Option<Seen>, Option<Seen>));

fn serve_and_ask<L: Ledger + Send + Sync, W: Host>(
    rt: &W,
    alloc: Global,
    shared: &Shared<L>,
    flusher: Flusher<MemDisk>,
    stages: &Stages,
    scene: Scene,
) -> Served {
    join(
        rt,
        move || commit_and_ask(rt, alloc, shared, flusher, stages, scene),
        move || serve_both(rt, alloc, shared, stages, scene),
    )
}

// What is found of how far both radios have come, beside that.
fn gather(stages: &Stages, served: Served) -> Found {
    let (served, (first, other)) = served;
    let Stages {
        first: own,
        other: beside,
    } = stages;
    Found {
        served,
        first,
        other,
        downs: own.downs(),
        sent: [own.transmissions().min(4), beside.transmissions().min(2)],
        associations: [own.associations(), beside.associations()],
    }
}

fn run<L: Ledger + Send + Sync, W: Host>(
    rt: &W,
    alloc: Global,
    shared: &Shared<L>,
    scene: Scene,
) -> Option<Told> {
    let flusher = memory_flusher(alloc)?;
    let stages = Stages {
        first: Stage::new(),
        other: Stage::new(),
    };
    let served = serve_and_ask(rt, alloc, shared, flusher, &stages, scene);
    Some(gather(&stages, served).tell())
}

fn find<L: Ledger + Send + Sync, W: Host>(
    rt: &W,
    alloc: Global,
    blank: Blank,
    scene: Scene,
) -> Option<Told>
    requires name { blank.name ≡ L.name }
    requires parts { blank.parts ≡ L.parts }
    requires all { blank.parts ≡ 65536 }
{
    let shared: Shared<L> = share(core_of_two_radios(alloc), blank)?;
    let found = run(rt, alloc, &shared, scene);
    drop(shared);
    found
}

// What is seen of the other slot, which lost nothing.
const OTHER: Seen = (true, [Some(1), None], [Some(1), None]);

// What is found where a spare serves: the station is installed there, and the answer behind that is the spare's, which
// then serves another station. The first list is what the slot wants, the second what is installed.
const MENDED: Found = Found {
    served: true,
    first: Some((true, [Some(1), Some(2)], [Some(1), Some(2)])),
    other: Some(OTHER),
    downs: 3,
    sent: [4, 2],
    associations: [2, 1],
};

fn expect_found(rt: &impl Abort, found: Option<Told>, wanted: Found) {
    expect(rt, found, Some(wanted.tell()));
}

fn with_spares(spares: &'static [Spare]) -> Scene {
    Scene {
        begins: Begins::Up(MANY),
        frames: BEFORE,
        spares,
        replies: &[UP, UP, b"PONG\n"],
    }
}

// Taken down are the radio that fails, as its slot is made and as it comes back, and the spare.
#[test]
fn a_spare_has_what_is_wanted(rt: HostRuntime) {
    let scene = with_spares(&[Spare(MANY, BEHIND)]);
    let found = find::<Brand, _>(&rt, rt.alloc(), Blank::new(65_536), scene);
    expect_found(&rt, found, MENDED);
}

// The first spare fails at its first call, so the second serves. Taken down is the first too, as it is tried and as it
// comes back.
#[test]
fn spares_are_tried_in_order(rt: HostRuntime) {
    let scene = with_spares(&[Spare(0, &[]), Spare(MANY, BEHIND)]);
    let found = find::<Brand, _>(&rt, rt.alloc(), Blank::new(65_536), scene);
    let wanted = Found {
        downs: 3 + 2,
        ..MENDED
    };
    expect_found(&rt, found, wanted);
}

// It is tried three times. Then its frames are entries still, of one station that leaves and one that comes, but the
// answers are lost, all behind the first one; what it wants goes on.
#[test]
fn a_slot_without_a_spare_stays_down_after_three_tries(rt: HostRuntime) {
    let scene = Scene {
        begins: Begins::Up(MANY),
        frames: ALONE,
        spares: &[],
        replies: &[b"state=DISABLED\n", UP, b"PONG\n"],
    };
    let found = find::<Brand, _>(&rt, rt.alloc(), Blank::new(65_536), scene);
    let wanted = Found {
        served: true,
        first: Some((false, [None, Some(2)], [None, None])),
        other: Some(OTHER),
        downs: 1 + 3,
        sent: [1, 2],
        associations: [0, 1],
    };
    expect_found(&rt, found, wanted);
}

// The spare that takes its place sends three frames and answers, and fails when the second station is installed. Taken
// down are the radio that fails, as its slot is made and as it comes back, the spare as it is tried and as it comes
// back, and the one that takes its place.
#[test]
fn a_spare_that_fails_has_a_spare(rt: HostRuntime) {
    let scene = with_spares(&[Spare(3, BETWEEN), Spare(MANY, LAST)]);
    let found = find::<Brand, _>(&rt, rt.alloc(), Blank::new(65_536), scene);
    let wanted = Found {
        downs: 3 + 2,
        ..MENDED
    };
    expect_found(&rt, found, wanted);
}

// What is found without a spare where the radio serves again at the try of this number.
fn served_again(tries: usize) -> Found {
    Found {
        downs: tries.saturating_add(1),
        ..MENDED
    }
}

fn alone(begins: Begins) -> Scene {
    Scene {
        begins,
        frames: ALL,
        spares: &[],
        replies: &[UP, UP, b"PONG\n"],
    }
}

// What stands behind the out at which it failed is sent.
#[test]
fn a_slot_that_is_given_anew_what_is_wanted_is_up(rt: HostRuntime) {
    for (faults, tries) in [(1, 1), (3, 3)].as_slice() {
        let scene = alone(Begins::Up(*faults));
        let found = find::<Brand, _>(&rt, rt.alloc(), Blank::new(65_536), scene);
        expect(
            &rt,
            (*faults, found),
            (*faults, Some(served_again(*tries).tell())),
        );
    }
}

// What the radio is given anew there is nothing: its try fails at no station.
#[test]
fn a_slot_that_is_down_at_first_is_mended(rt: HostRuntime) {
    let scene = alone(Begins::Down(0));
    let found = find::<Brand, _>(&rt, rt.alloc(), Blank::new(65_536), scene);
    expect_found(&rt, found, served_again(1));
}
