//! What the tests of a table do with it, in steps: changes in short, how they are answered, and what is told then.
use crate::calls::{apply_all, associated, cursor_of, next_free, policy_of, refuses, takes};
use crate::expect::expect;
use apd_base::{AclMode, Addr, Bssid, Station, Which};
use apd_record::Change;
use apd_table::{Table, TableFault};
use std::alloc::Global;
use std::process::Abort;

/// The BSSID of the lists and of the stations that go.
pub const BSSID: Bssid = Bssid(Addr([2, 0, 0, 0, 0, 1]));

/// A change, in short.
pub enum Ask {
    /// A policy for 2,007 stations: in mode 0, and in mode 1.
    Open(Bssid),
    Close(Bssid),
    /// A station is authenticated alone, or associated under an identifier.
    Authenticate(Bssid, Addr),
    Associate(Bssid, Addr, u16),
    Drop(Addr),
    List(Which, Addr),
    TakeOff(Which, Addr),
    Clear(Which),
    /// This identifier was given last.
    Point(Bssid, u16),
}

/// What is done with a table, and what is expected of it.
pub enum Step {
    /// Changes one after another: each is taken, or each is refused.
    Takes(&'static [Ask]),
    Refuses(&'static [Ask]),
    /// Changes at once: all are taken, or none.
    TakesAll(&'static [Ask]),
    RefusesAll(&'static [Ask]),
    /// The identifier of a station, which is 0 where it is authenticated alone, and none where it has no row.
    Row(Bssid, Addr, Option<u16>),
    /// How many rows there are of all BSSIDs.
    Rows(usize),
    /// The identifier that a BSSID gives next.
    NextFree(Bssid, u16),
}

/// A station under an identifier, or without one.
fn station_of(rt: &impl Abort, number: u16) -> Station {
    if number == 0 {
        Station::Authenticated
    } else {
        associated(rt, number, 1, 5)
    }
}

fn put(rt: &impl Abort, bssid: Bssid, addr: Addr, number: u16) -> Change {
    Change::Put {
        bssid,
        addr,
        station: station_of(rt, number),
    }
}

fn change_of(rt: &impl Abort, ask: &Ask) -> Change {
    match *ask {
        Ask::Open(bssid) => policy_of(bssid, AclMode::AcceptUnlessDenied),
        Ask::Close(bssid) => policy_of(bssid, AclMode::DenyUnlessAccepted),
        Ask::Authenticate(bssid, addr) => put(rt, bssid, addr, 0),
        Ask::Associate(bssid, addr, number) => put(rt, bssid, addr, number),
        Ask::Drop(addr) => Change::Drop { bssid: BSSID, addr },
        Ask::List(which, addr) => Change::ListAdd {
            bssid: BSSID,
            which,
            addr,
        },
        Ask::TakeOff(which, addr) => Change::ListDel {
            bssid: BSSID,
            which,
            addr,
        },
        Ask::Clear(which) => Change::ListClear {
            bssid: BSSID,
            which,
        },
        Ask::Point(bssid, number) => cursor_of(rt, bssid, number),
    }
}

fn changes_of(rt: &impl Abort, alloc: Global, asks: &[Ask]) -> Vec<Change> {
    let mut changes = Vec::new(alloc);
    for ask in asks {
        changes.push(change_of(rt, ask)).expect(rt, "memory");
    }
    changes
}

// Whether changes one after another are taken.
fn one_by_one(rt: &impl Abort, table: &mut Table, asks: &[Ask], are_taken: bool) {
    for ask in asks {
        let change = change_of(rt, ask);
        if are_taken {
            takes(rt, table, &[change]);
        } else {
            refuses(rt, table, &[change]);
        }
    }
}

// What changes at once are answered.
fn at_once(
    rt: &impl Abort,
    alloc: Global,
    table: &mut Table,
    asks: &[Ask],
    answer: Result<(), TableFault>,
) {
    let changes = changes_of(rt, alloc, asks);
    expect(rt, apply_all(alloc, table, changes.as_slice()), answer);
}

// What is told of a station.
fn tells_row(rt: &impl Abort, table: &Table, bssid: Bssid, addr: Addr, number: Option<u16>) {
    let found = table.get(bssid, addr);
    match number {
        Some(number) => expect(rt, found, Some(station_of(rt, number))),
        None => expect(rt, found, None),
    }
}

fn take_step(rt: &impl Abort, alloc: Global, table: &mut Table, step: &Step) {
    match *step {
        Step::Takes(asks) => one_by_one(rt, table, asks, true),
        Step::Refuses(asks) => one_by_one(rt, table, asks, false),
        Step::TakesAll(asks) => at_once(rt, alloc, table, asks, Ok(())),
        Step::RefusesAll(asks) => at_once(rt, alloc, table, asks, Err(TableFault::Invalid)),
        Step::Row(bssid, addr, number) => tells_row(rt, table, bssid, addr, number),
        Step::Rows(count) => expect(rt, table.rows(), count),
        Step::NextFree(bssid, number) => expect(rt, next_free(table, bssid), Some(number)),
    }
}

/// Takes these steps with a table.
pub fn take_steps(rt: &impl Abort, alloc: Global, table: &mut Table, steps: &[Step]) {
    for step in steps {
        take_step(rt, alloc, table, step);
    }
}

/// The table that steps lead to.
pub fn table_by(rt: &impl Abort, alloc: Global, steps: &[Step]) -> Table {
    let mut table = Table::new(alloc);
    take_steps(rt, alloc, &mut table, steps);
    table
}
