//! No clause says that a change can be made, nor that a table can be copied: memory may lack. So these calls
//! are made with ample memory, at the limits too.
use crate::calls::{
    address, apply_all, associated, cursor_of, next_free, policy_of, refuses, takes,
};
use crate::expect::{expect, expect_printed};
use crate::table_steps::{Ask, BSSID, Step, table_by, take_steps};
use apd_base::{AclMode, Addr, Bssid, Station, Which};
use apd_record::{Change, read_all, write};
use apd_table::{Staged, Table, TableFault};
use std::alloc::Global;
use std::process::Abort;

const OTHER: Bssid = Bssid(Addr([2, 0, 0, 0, 1, 0]));

const THIRD: Bssid = Bssid(Addr([2, 0, 0, 0, 1, 1]));

const FIRST: Addr = Addr([2, 0, 0, 0, 0, 0xaa]);

const SECOND: Addr = Addr([2, 0, 0, 0, 0, 0xbb]);

fn open(bssid: Bssid) -> Change {
    policy_of(bssid, AclMode::AcceptUnlessDenied)
}

// How many addresses are on the lists of the BSSID.
fn list_lengths(table: &Table) -> Option<(usize, usize)> {
    let lists = table.lists(BSSID)?;
    Some((lists.len(Which::Accept), lists.len(Which::Deny)))
}

// The first station is the only one that a closed BSSID would deny.
fn denies_first(rt: &impl Abort, alloc: Global, table: &Table) {
    let denied = table.denials_by(alloc, BSSID, AclMode::DenyUnlessAccepted);
    let denied = denied.expect(rt, "memory");
    expect(rt, denied.as_slice(), [FIRST].as_slice());
}

// The first station comes to a BSSID with an open policy, which can't be closed then.
const FIRST_COMES: &[Step] = &[
    Step::Refuses(&[Ask::Authenticate(BSSID, FIRST)]),
    Step::Takes(&[Ask::Open(BSSID), Ask::Authenticate(BSSID, FIRST)]),
    Step::Row(BSSID, FIRST, Some(0)),
    Step::Refuses(&[Ask::Close(BSSID)]),
];

const FIRST_GOES: &[Step] = &[Step::Takes(&[Ask::Drop(FIRST), Ask::Close(BSSID)])];

#[test]
fn stations_and_policies_are_changed(rt: HostRuntime) {
    let mut table = table_by(&rt, rt.alloc(), FIRST_COMES);
    expect(&rt, table.policy(BSSID), Some((0, 2007)));
    denies_first(&rt, rt.alloc(), &table);
    let copy = table.copy(rt.alloc()).expect(&rt, "a copy");
    take_steps(&rt, rt.alloc(), &mut table, FIRST_GOES);
    expect(&rt, (table.count(BSSID), copy.count(BSSID)), (0, 1));
}

// The first station is put on both lists, and kept on the accept list while it is denied.
const FIRST_IS_LISTED: &[Step] = &[
    Step::Takes(&[Ask::TakeOff(Which::Accept, FIRST)]),
    Step::Refuses(&[Ask::List(Which::Accept, FIRST)]),
    Step::Takes(&[Ask::Open(BSSID), Ask::Authenticate(BSSID, FIRST)]),
    Step::Refuses(&[Ask::List(Which::Deny, FIRST)]),
    Step::Takes(&[
        Ask::List(Which::Accept, FIRST),
        Ask::List(Which::Deny, FIRST),
    ]),
    Step::Refuses(&[
        Ask::Clear(Which::Accept),
        Ask::TakeOff(Which::Accept, FIRST),
    ]),
];

const LISTS_ARE_CLEARED: &[Step] = &[Step::Takes(&[
    Ask::TakeOff(Which::Deny, FIRST),
    Ask::Clear(Which::Accept),
])];

#[test]
fn lists_are_changed(rt: HostRuntime) {
    let mut table = table_by(&rt, rt.alloc(), FIRST_IS_LISTED);
    expect(&rt, list_lengths(&table), Some((1, 1)));
    expect(&rt, table.allowed(BSSID, FIRST), true);
    take_steps(&rt, rt.alloc(), &mut table, LISTS_ARE_CLEARED);
}

// The second station is associated, and then the first authenticated.
const SECOND_COMES: &[Step] = &[Step::Takes(&[Ask::Open(BSSID), Ask::Associate(BSSID, SECOND, 1)])];

const FIRST_FOLLOWS: &[Step] = &[Step::Takes(&[Ask::Authenticate(BSSID, FIRST)])];

fn both_stations(rt: &impl Abort, alloc: Global) -> Table {
    let mut table = table_by(rt, alloc, SECOND_COMES);
    expect(rt, table.least_free(BSSID), Some(2));
    take_steps(rt, alloc, &mut table, FIRST_FOLLOWS);
    table
}

// The rows of both.
fn tells_rows(rt: &impl Abort, table: &Table) {
    let first = (FIRST, Station::Authenticated);
    let second = (SECOND, associated(rt, 1, 1, 5));
    expect(rt, table.first(BSSID), Some(first));
    expect(rt, table.next(BSSID, FIRST), Some(second));
    expect(rt, table.next(BSSID, SECOND), None);
}

#[test]
fn rows_are_told(rt: HostRuntime) {
    let table = both_stations(&rt, rt.alloc());
    tells_rows(&rt, &table);
    expect(&rt, (table.bss(0), table.bss(1)), (Some(BSSID), None));
    expect(&rt, (table.rows(), table.count(BSSID)), (2, 2));
    expect(&rt, table.bss_count(), 1);
}

// All addresses of the BSSID.
fn tells_addresses(rt: &impl Abort, alloc: Global, table: &Table) {
    let all = table.addresses(alloc, BSSID).expect(rt, "memory");
    expect(rt, all.as_slice(), [FIRST, SECOND].as_slice());
}

// Those that are denied once the second is on the deny list.
fn tells_denials(rt: &impl Abort, alloc: Global, table: &Table) {
    let deny = Change::ListAdd {
        bssid: BSSID,
        which: Which::Deny,
        addr: SECOND,
    };
    let denied = table.denials_after(alloc, BSSID, &deny);
    let denied = denied.expect(rt, "memory");
    expect(rt, denied.as_slice(), [SECOND].as_slice());
}

#[test]
fn addresses_are_told(rt: HostRuntime) {
    let table = both_stations(&rt, rt.alloc());
    tells_addresses(&rt, rt.alloc(), &table);
    tells_denials(&rt, rt.alloc(), &table);
}

const FAULTS: [(TableFault, &str); 2] = [
    (TableFault::Invalid, "invalid change"),
    (TableFault::NoMemory, "out of memory"),
];

#[test]
fn faults_say_what_they_are(rt: HostRuntime) {
    expect_printed(&rt, rt.alloc(), &FAULTS);
}

fn row(bssid: Bssid, number: u16) -> Change {
    Change::Put {
        bssid,
        addr: address(1, number),
        station: Station::Authenticated,
    }
}

// Gives a BSSID a policy, and rows for the stations of the first numbers.
fn fill(rt: &impl Abort, table: &mut Table, bssid: Bssid, count: u16) {
    takes(rt, table, &[open(bssid)]);
    for number in 0..count {
        takes(rt, table, &[row(bssid, number)]);
    }
}

// A BSSID for each number.
fn bssid_of(number: u8) -> Bssid {
    Bssid(Addr([2, 0, 0, 0, 1, number]))
}

#[test]
fn a_bssid_has_2007_stations_and_no_more(rt: HostRuntime) {
    let mut table = Table::new(rt.alloc());
    fill(&rt, &mut table, BSSID, 2007);
    expect(&rt, table.count(BSSID), 2007);
    let more = row(BSSID, 2007);
    refuses(&rt, &mut table, &[more]);
    // One that has a row is taken.
    let old = row(BSSID, 2006);
    let seventh = Change::Drop {
        bssid: BSSID,
        addr: address(1, 7),
    };
    takes(&rt, &mut table, &[old, seventh, more]);
    expect(&rt, table.count(BSSID), 2007);
}

#[test]
fn eight_bssids_have_16056_stations(rt: HostRuntime) {
    let mut table = Table::new(rt.alloc());
    for number in 0..8 {
        fill(&rt, &mut table, bssid_of(number), 2007);
    }
    expect(&rt, (table.bss_count(), table.rows()), (8, 16_056));
    let copy = table.copy(rt.alloc()).expect(&rt, "a copy");
    expect(&rt, copy.rows(), 16_056);
    refuses(&rt, &mut table, &[open(bssid_of(8))]);
}

fn add(which: Which, number: u16) -> Change {
    Change::ListAdd {
        bssid: BSSID,
        which,
        addr: address(1, number),
    }
}

// A first start: a policy, and so many addresses on each list.
fn first_start(rt: &impl Abort, alloc: Global, accept: u16, deny: u16) -> Vec<Change> {
    let mut changes = vec![in alloc; open(BSSID)].expect(rt, "memory");
    for (which, count) in [(Which::Accept, accept), (Which::Deny, deny)] {
        for number in 0..count {
            changes.push(add(which, number)).expect(rt, "memory");
        }
    }
    changes
}

fn takes_all(rt: &impl Abort, alloc: Global, table: &mut Table, changes: &[Change]) {
    expect(rt, apply_all(alloc, table, changes), Ok(()));
}

fn refuses_all(rt: &impl Abort, alloc: Global, table: &mut Table, changes: &[Change]) {
    let refused = Err(TableFault::Invalid);
    expect(rt, apply_all(alloc, table, changes), refused);
}

// A first start with this many addresses on the lists is refused.
fn refuses_start(rt: &impl Abort, alloc: Global, table: &mut Table, accept: u16, deny: u16) {
    let start = first_start(rt, alloc, accept, deny);
    refuses_all(rt, alloc, table, start.as_slice());
    expect(rt, list_lengths(table), None);
}

// One is taken that leaves both lists full.
fn takes_full_start(rt: &impl Abort, alloc: Global, table: &mut Table) {
    let start = first_start(rt, alloc, 1024, 1024);
    takes_all(rt, alloc, table, start.as_slice());
    expect(rt, list_lengths(table), Some((1024, 1024)));
}

// One more is refused by a full list, and one that is listed is taken.
fn expect_full(rt: &impl Abort, table: &mut Table, which: Which) {
    refuses(rt, table, &[add(which, 1024)]);
    takes(rt, table, &[add(which, 0)]);
}

#[test]
fn a_first_start_has_1024_addresses_on_each_list_and_no_more(rt: HostRuntime) {
    let mut table = Table::new(rt.alloc());
    refuses_start(&rt, rt.alloc(), &mut table, 1025, 0);
    refuses_start(&rt, rt.alloc(), &mut table, 1024, 1025);
    takes_full_start(&rt, rt.alloc(), &mut table);
    expect_full(&rt, &mut table, Which::Accept);
    expect_full(&rt, &mut table, Which::Deny);
    let take_off = Change::ListDel {
        bssid: BSSID,
        which: Which::Deny,
        addr: address(1, 1023),
    };
    takes(&rt, &mut table, &[take_off, add(Which::Deny, 1024)]);
    expect(&rt, list_lengths(&table), Some((1024, 1024)));
}

// The stations of these numbers.
const NUMBER_0: Addr = Addr([2, 0, 0, 1, 0, 0]);

const NUMBER_1: Addr = Addr([2, 0, 0, 1, 0, 1]);

const NUMBER_2: Addr = Addr([2, 0, 0, 1, 0, 2]);

// Rows of both stations and of number 0, the first of them associated.
const THREE_ROWS: &[Step] = &[Step::Takes(&[
    Ask::Open(BSSID),
    Ask::Authenticate(BSSID, NUMBER_0),
    Ask::Associate(BSSID, FIRST, 1),
    Ask::Authenticate(BSSID, SECOND),
])];

// No change, then one; drops behind a refusal, of which none is made; and both stations dropped behind a change.
const DROPS: &[Step] = &[
    Step::TakesAll(&[]),
    Step::Rows(3),
    Step::TakesAll(&[Ask::Authenticate(BSSID, NUMBER_1)]),
    Step::Rows(4),
    Step::RefusesAll(&[Ask::Close(BSSID), Ask::Drop(FIRST)]),
    Step::Rows(4),
    Step::TakesAll(&[
        Ask::Authenticate(BSSID, NUMBER_2),
        Ask::Drop(FIRST),
        Ask::Drop(SECOND),
    ]),
    Step::Rows(3),
    Step::Row(BSSID, FIRST, None),
    Step::TakesAll(&[Ask::Drop(NUMBER_0), Ask::Drop(NUMBER_1)]),
];

#[test]
fn drops_come_behind_no_change_and_behind_one(rt: HostRuntime) {
    let mut table = table_by(&rt, rt.alloc(), THREE_ROWS);
    take_steps(&rt, rt.alloc(), &mut table, DROPS);
    let last = (NUMBER_2, Station::Authenticated);
    expect(&rt, table.first(BSSID), Some(last));
}

// The first station is put back at the BSSID, and associated at another, which has no policy at first.
const FIRST_MOVES: &[Step] = &[
    Step::RefusesAll(&[
        Ask::Authenticate(BSSID, FIRST),
        Ask::Associate(OTHER, FIRST, 1),
    ]),
    Step::Row(BSSID, FIRST, Some(1)),
    Step::Takes(&[Ask::Open(OTHER)]),
    Step::Refuses(&[Ask::Associate(OTHER, FIRST, 1)]),
    Step::TakesAll(&[
        Ask::Authenticate(BSSID, FIRST),
        Ask::Associate(OTHER, FIRST, 1),
    ]),
    Step::Row(OTHER, FIRST, Some(1)),
    Step::Row(BSSID, FIRST, Some(0)),
];

#[test]
fn an_association_moves(rt: HostRuntime) {
    let mut table = table_by(&rt, rt.alloc(), THREE_ROWS);
    take_steps(&rt, rt.alloc(), &mut table, FIRST_MOVES);
}

// Two BSSIDs, of which the second gave no identifier yet, with a list and three rows: the first four asks are
// those of THREE_ROWS.
const WITH_CURSOR: &[Step] = &[Step::Takes(&[
    Ask::Open(BSSID),
    Ask::Authenticate(BSSID, NUMBER_0),
    Ask::Associate(BSSID, FIRST, 1),
    Ask::Authenticate(BSSID, SECOND),
    Ask::List(Which::Accept, Addr([2, 0, 0, 1, 0, 9])),
    Ask::Open(OTHER),
    Ask::Point(BSSID, 2006),
])];

// The changes of its snapshot.
fn snapshot_with_cursor(rt: &impl Abort, alloc: Global) -> Vec<Change> {
    let table = table_by(rt, alloc, WITH_CURSOR);
    table.snapshot(alloc).expect(rt, "memory")
}

#[test]
fn a_copy_has_the_cursors(rt: HostRuntime) {
    let table = table_by(&rt, rt.alloc(), WITH_CURSOR);
    let copy = table.copy(rt.alloc()).expect(&rt, "a copy");
    expect(&rt, next_free(&copy, BSSID), Some(2007));
}

#[test]
fn a_snapshot_has_the_cursors_behind_the_policies(rt: HostRuntime) {
    let changes = snapshot_with_cursor(&rt, rt.alloc());
    let cursor = cursor_of(&rt, BSSID, 2006);
    let front = [open(BSSID), open(OTHER), cursor, add(Which::Accept, 9)];
    expect(&rt, changes.get(..4), Some(front.as_slice()));
    expect(&rt, changes.len(), 7);
}

// The table that the records of changes lead to.
fn read_back(rt: &impl Abort, alloc: Global, changes: &[Change]) -> Table {
    let records = write(alloc, changes).expect(rt, "memory");
    let read = read_all(alloc, records.as_slice()).expect(rt, "memory");
    let read = read.expect(rt, "records");
    let mut table = Table::new(alloc);
    takes_all(rt, alloc, &mut table, read.as_slice());
    table
}

#[test]
fn cursors_are_read_back(rt: HostRuntime) {
    let changes = snapshot_with_cursor(&rt, rt.alloc());
    let table = read_back(&rt, rt.alloc(), changes.as_slice());
    expect(&rt, next_free(&table, BSSID), Some(2007));
    expect(&rt, next_free(&table, OTHER), Some(1));
    let again = table.snapshot(rt.alloc()).expect(&rt, "memory");
    expect(&rt, again.as_slice(), changes.as_slice());
}

// At the second BSSID a station that is associated at the first comes with a number that was given. A third
// BSSID has no policy, and then gets it with its number.
const POINTS: &[Step] = &[
    // The station is associated elsewhere: nothing is made, and the cursor is not.
    Step::RefusesAll(&[Ask::Associate(OTHER, FIRST, 1), Ask::Point(OTHER, 1)]),
    Step::NextFree(OTHER, 1),
    Step::TakesAll(&[
        Ask::Authenticate(BSSID, FIRST),
        Ask::Associate(OTHER, FIRST, 1),
        Ask::Point(OTHER, 1),
    ]),
    Step::NextFree(OTHER, 2),
    Step::RefusesAll(&[Ask::Drop(FIRST), Ask::Point(THIRD, 4)]),
    Step::Row(BSSID, FIRST, Some(0)),
    Step::TakesAll(&[Ask::Open(THIRD), Ask::Point(THIRD, 4)]),
    Step::NextFree(THIRD, 5),
];

#[test]
fn a_cursor_comes_behind_other_changes(rt: HostRuntime) {
    let mut table = table_by(&rt, rt.alloc(), WITH_CURSOR);
    take_steps(&rt, rt.alloc(), &mut table, POINTS);
}

// A table with another beside it.
fn stage_table(rt: &impl Abort, alloc: Global, table: Table) -> Staged {
    let staged = Staged::new(alloc, table).ok();
    staged.expect(rt, "memory for a second table")
}

// What the staging of changes is answered.
fn stage(alloc: Global, staged: &mut Staged, changes: &[Change]) -> Result<(), TableFault> {
    staged.stage(alloc, changes)
}

fn stages(rt: &impl Abort, alloc: Global, staged: &mut Staged, changes: &[Change]) {
    expect(rt, stage(alloc, staged, changes), Ok(()));
}

fn stages_no(rt: &impl Abort, alloc: Global, staged: &mut Staged, changes: &[Change]) {
    let refused = Err(TableFault::Invalid);
    expect(rt, stage(alloc, staged, changes), refused);
}

// How many rows the table has, without what is staged.
fn rows(staged: &Staged) -> usize {
    staged.table().rows()
}

// Makes what is staged, and has this many rows then.
fn commits(rt: &impl Abort, staged: &mut Staged, count: usize) {
    staged.commit();
    expect(rt, rows(staged), count);
}

// The lists of a first start are those of the table once they are committed.
fn commits_a_start(rt: &impl Abort, alloc: Global, tables: &mut Staged) {
    let start = first_start(rt, alloc, 2, 1);
    stages(rt, alloc, tables, start.as_slice());
    expect(rt, list_lengths(tables.table()), None);
    tables.commit();
    expect(rt, list_lengths(tables.table()), Some((2, 1)));
}

#[test]
fn changes_are_staged_and_committed(rt: HostRuntime) {
    let alloc = rt.alloc();
    let mut tables = stage_table(&rt, alloc, Table::new(alloc));
    commits_a_start(&rt, alloc, &mut tables);
    for number in 1..5 {
        stages(&rt, alloc, &mut tables, &[row(BSSID, number)]);
        expect(&rt, rows(&tables), number as usize - 1);
        commits(&rt, &mut tables, number as usize);
    }
    // Nothing is staged.
    commits(&rt, &mut tables, 4);
    expect(&rt, list_lengths(&tables.into_table()), Some((2, 1)));
}

// Rows 1 and 2 stand at the end, and 5 in the place of what was staged before it; 3 is put before a refusal.
fn commits_what_was_staged_last(rt: &impl Abort, alloc: Global, tables: &mut Staged) {
    let good = [row(BSSID, 1), row(BSSID, 2)];
    let bad = [row(BSSID, 3), row(OTHER, 4)];
    stages_no(rt, alloc, tables, &bad);
    commits(rt, tables, 3);
    stages(rt, alloc, tables, &good);
    stages_no(rt, alloc, tables, &bad);
    commits(rt, tables, 3);
    stages(rt, alloc, tables, &good);
    stages(rt, alloc, tables, &[row(BSSID, 5)]);
    commits(rt, tables, 4);
    stages(rt, alloc, tables, &good);
    tables.commit();
}

#[test]
fn changes_are_staged_behind_a_refusal_and_in_the_place_of_others(rt: HostRuntime) {
    let alloc = rt.alloc();
    let mut tables = stage_table(&rt, alloc, table_by(&rt, alloc, THREE_ROWS));
    commits_what_was_staged_last(&rt, alloc, &mut tables);
    let table = tables.into_table();
    expect(&rt, table.rows(), 6);
    expect(&rt, table.get(BSSID, address(1, 3)), None);
    let fifth = table.get(BSSID, address(1, 5));
    expect(&rt, fifth, Some(Station::Authenticated));
}
