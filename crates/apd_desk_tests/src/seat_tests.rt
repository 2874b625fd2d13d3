// Seats: as many as there may be, each its own, and all back at the end.
ghost use Rattle.std.specs.Prelude.{◌≡◌};

use crate::common::{
    Host, WLAN0, adds, authentication, close, commit_all, new_core, new_seat, share, started_core,
    station, submits,
};
use crate::expect::expect;
use apd_core::Core;
use apd_ctrl::Query;
use apd_desk::{Seat, Shared};
use std::alloc::Global;
use std::marker::Brand;
use std::sync::Wait;
use std::sync::ledger::{Blank, Ledger};
use std::thread::map_indices;

/// What is told of an authenticated station behind its address.
const AUTHENTICATED: &[u8] = b"\nflags=[AUTH]\naid=0\ncapability=0x0\nlisten_interval=0\n";

// The last byte of the address of the station of a number.
fn last(number: usize) -> Option<u8> {
    u8::try_from(number).ok()?.checked_add(0x10)
}

// A new seat, by which the station of this number was authenticated.
fn seat_of<L: Ledger, W: Wait>(rt: &W, shared: &Shared<L>, number: usize) -> Option<Seat<L>> {
    let last = last(number)?;
    let mut seat = new_seat(rt, shared)?;
    submits(rt, shared, &mut seat, &authentication(last)).then_some(seat)
}

// All of them, or none where one is missing.
fn all<X: Drop>(alloc: Global, found: Vec<Option<X>>) -> Option<Vec<X>> {
    let mut all = Vec::new(alloc);
    adds_each(&mut all, found).then_some(all)
}

fn adds_each<X: Drop>(list: &mut Vec<X>, found: Vec<Option<X>>) -> bool {
    for one in found {
        if !adds(list, one) {
            return false;
        }
    }
    true
}

fn eight_seats<L: Ledger + Send + Sync, W: Host>(
    rt: &W,
    alloc: Global,
    shared: &Shared<L>,
) -> Option<Vec<Seat<L>>> {
    all(
        alloc,
        map_indices(rt, alloc, 8, &|number| seat_of(rt, shared, number)).ok()?,
    )
}

// Whether the core shows the first eight stations and not the ninth, and how many entries it accepted, once each of
// eight threads had its seat.
fn eight_stations<L: Ledger + Send + Sync, W: Host>(
    rt: &W,
    alloc: Global,
    blank: Blank,
) -> Option<(bool, u64)>
    requires name { blank.name ≡ L.name }
    requires parts { blank.parts ≡ L.parts }
    requires all { blank.parts ≡ 65536 }
{
    let shared: Shared<L> = share(started_core(alloc), blank)?;
    let seats = eight_seats(rt, alloc, &shared);
    commit_all(rt, alloc, &shared);
    close_and_show(shared, seats)
}

// What the core shows of the stations, and how many entries it accepted.
fn close_and_show<L: Ledger>(shared: Shared<L>, seats: Option<Vec<Seat<L>>>) -> Option<(bool, u64)>
    requires { L.parts ≡ 65536 }
{
    let (shared, seats) = Some(shared).zip(seats)?;
    let (core, number) = close(shared, seats)?;
    let shown = shows_eight(&core);
    drop(core);
    Some((shown, number))
}

fn is_told(core: &Core, last: u8) -> bool {
    match core.read(Query::Sta(WLAN0, station(last))) {
        Ok(answer) => answer.text().get(17..) == Some(AUTHENTICATED),
        Err(_) => false,
    }
}

fn is_shown(core: &Core, number: usize) -> bool {
    match last(number) {
        Some(last) => is_told(core, last),
        None => false,
    }
}

// Whether a core shows the first eight stations, and not the ninth.
fn shows_eight(core: &Core) -> bool {
    for number in 0..8 {
        if !is_shown(core, number) {
            return false;
        }
    }
    !is_shown(core, 8)
}

#[test]
fn each_seat_its_station(rt: HostRuntime) {
    let shown = eight_stations::<Brand, _>(&rt, rt.alloc(), Blank::new(65_536));
    expect(&rt, shown, Some((true, 8)));
}

// How many seats are given.
fn given_seats<L: Ledger, W: Wait>(rt: &W, alloc: Global, blank: Blank) -> Option<u64>
    requires name { blank.name ≡ L.name }
    requires parts { blank.parts ≡ L.parts }
    requires all { blank.parts ≡ 65536 }
{
    let shared: Shared<L> = share(new_core(alloc), blank)?;
    let given = count_seats(rt, &shared);
    drop(shared);
    Some(given)
}

fn count_seats<L: Ledger, W: Wait>(rt: &W, shared: &Shared<L>) -> u64 {
    let mut given: u64 = 0;
    for _ask in 0..65_600 {
        if new_seat(rt, shared).is_some() {
            given = given.saturating_add(1);
        }
    }
    given
}

#[test]
fn there_are_65536_seats(rt: HostRuntime) {
    let given = given_seats::<Brand, _>(&rt, rt.alloc(), Blank::new(65_536));
    expect(&rt, given, Some(65_536));
}

// A list with one more seat.
fn with<L: Ledger>(seats: Vec<Seat<L>>, seat: Seat<L>) -> Option<Vec<Seat<L>>> {
    let mut seats = seats;
    seats.push(seat).is_ok().then_some(seats)
}

// The seat of the station 0 in a list.
fn first_seat<L: Ledger, W: Wait>(
    rt: &W,
    alloc: Global,
    shared: &Shared<L>,
) -> Option<Vec<Seat<L>>> {
    let seat = seat_of(rt, shared, 0)?;
    with(Vec::new(alloc), seat)
}

// The same, and that of the station 1.
fn two_seats<L: Ledger, W: Wait>(
    rt: &W,
    alloc: Global,
    shared: &Shared<L>,
) -> Option<(Vec<Seat<L>>, Seat<L>)> {
    first_seat(rt, alloc, shared).zip(seat_of(rt, shared, 1))
}

// Closes with these seats. How many entries there were.
fn close_with<L: Ledger>(shared: Shared<L>, seats: Option<Vec<Seat<L>>>) -> Option<u64>
    requires { L.parts ≡ 65536 }
{
    let (shared, seats) = Some(shared).zip(seats)?;
    let (core, number) = close(shared, seats)?;
    drop(core);
    Some(number)
}

// Closes without this seat, and with it. How many seats came back first, and how many entries there were.
fn close_late<L: Ledger>(
    shared: Shared<L>,
    seats: Vec<Seat<L>>,
    late: Seat<L>,
) -> Option<(usize, u64)>
    requires { L.parts ≡ 65536 }
{
    let ((shared, seats), late) = shared.close(seats).err().zip(Some(late))?;
    let back = seats.len();
    let number = close_with(shared, with(seats, late))?;
    Some((back, number))
}

fn close_twice<L: Ledger, W: Wait>(rt: &W, alloc: Global, blank: Blank) -> Option<(usize, u64)>
    requires name { blank.name ≡ L.name }
    requires parts { blank.parts ≡ L.parts }
    requires all { blank.parts ≡ 65536 }
{
    let shared: Shared<L> = share(started_core(alloc), blank)?;
    let two = two_seats(rt, alloc, &shared);
    let (shared, (seats, late)) = Some(shared).zip(two)?;
    close_late(shared, seats, late)
}

#[test]
fn a_missing_seat_hands_all_back(rt: HostRuntime) {
    let closed = close_twice::<Brand, _>(&rt, rt.alloc(), Blank::new(65_536));
    expect(&rt, closed, Some((1, 2)));
}
