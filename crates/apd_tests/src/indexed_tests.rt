//! The table keeps indices beside its rows: what it tells by them is what a look through all rows would.
use crate::calls::{apply, associated, cursor_of, next_free, policy_of, refuses, table_of, takes};
use crate::expect::expect;
use crate::plain_table::PlainTable;
use apd_base::{AclMode, Addr, Aid, Association, Bssid, Station, Which};
use apd_record::Change;
use apd_table::Table;
use std::alloc::Global;
use std::process::Abort;

fn bssid(number: u32) -> Bssid {
    let [.., low] = number.to_be_bytes();
    Bssid(Addr([2, 0, 0, 0, 1, low]))
}

fn addr(number: u32) -> Addr {
    let [_, _, high, low] = number.to_be_bytes();
    Addr([2, 0, 0, 0, high, low])
}

// The next number of a fixed sequence, and one below a bound made of it.
fn step(seed: &mut u32, bound: u32) -> u32 {
    *seed = seed.wrapping_mul(1_664_525).wrapping_add(1_013_904_223);
    (*seed >> 16).checked_rem(bound).unwrap_or(0)
}

fn a_list(seed: &mut u32) -> Which {
    if step(seed, 2) == 0 {
        Which::Accept
    } else {
        Which::Deny
    }
}

fn a_station(seed: &mut u32) -> Station {
    let number = u16::try_from(step(seed, 17)).unwrap_or(0);
    match Aid::new(number) {
        Some(aid) => Station::Associated(Association {
            aid,
            capability: 0x431,
            listen_interval: number,
        }),
        None => Station::Authenticated,
    }
}

fn a_mode(seed: &mut u32) -> AclMode {
    if step(seed, 8) == 0 {
        AclMode::DenyUnlessAccepted
    } else {
        AclMode::AcceptUnlessDenied
    }
}

// A number that was given last: where stations have identifiers, or near the greatest.
fn a_last_number(seed: &mut u32) -> u16 {
    let low = u16::try_from(step(seed, 17)).unwrap_or(0);
    match step(seed, 8) {
        0 => 2007u16.saturating_sub(low),
        _ => low,
    }
}

// A change at one of nine BSSIDs, of which eight may have a policy, of one of twelve addresses.
fn a_change(rt: &impl Abort, seed: &mut u32) -> Change {
    let bssid = bssid(step(seed, 9));
    let addr = addr(step(seed, 12));
    match step(seed, 22) {
        0..=9 => Change::Put {
            bssid,
            addr,
            station: a_station(seed),
        },
        10..=12 => Change::Drop { bssid, addr },
        13..=15 => Change::ListAdd {
            bssid,
            which: a_list(seed),
            addr,
        },
        16 => Change::ListDel {
            bssid,
            which: a_list(seed),
            addr,
        },
        17 => Change::ListClear {
            bssid,
            which: a_list(seed),
        },
        18..=19 => policy_of(bssid, a_mode(seed)),
        _ => cursor_of(rt, bssid, a_last_number(seed)),
    }
}

fn places_of(change: &Change) -> (Bssid, Option<Addr>) {
    match *change {
        Change::Put { bssid, addr, .. } => (bssid, Some(addr)),
        Change::Drop { bssid, addr } => (bssid, Some(addr)),
        Change::ListAdd { bssid, addr, .. } => (bssid, Some(addr)),
        Change::ListDel { bssid, addr, .. } => (bssid, Some(addr)),
        Change::ListClear { bssid, .. } => (bssid, None),
        Change::Policy { bssid, .. } => (bssid, None),
        Change::Cursor { bssid, .. } => (bssid, None),
    }
}

// Makes the change where the state after it is sound, and else leaves all as it was.
fn apply_plainly(rt: &impl Abort, alloc: Global, plain: &mut PlainTable, change: &Change) -> bool {
    let mut next = plain.copy(rt, alloc);
    next.make(rt, change);
    let is_sound = next.is_sound_at(places_of(change).0);
    if is_sound {
        *plain = next;
    }
    is_sound
}

fn get(table: &Table, bssid: Bssid, addr: Addr) -> Option<Station> {
    table.get(bssid, addr)
}

fn next(table: &Table, bssid: Bssid, above: Option<Addr>) -> Option<(Addr, Station)> {
    match above {
        Some(addr) => table.next(bssid, addr),
        None => table.first(bssid),
    }
}

fn numbers(table: &Table, bssid: Bssid) -> (usize, Option<u16>) {
    (table.count(bssid), table.least_free(bssid))
}

fn words(table: &Table, bssid: Bssid) -> Option<[u64; 32]> {
    table.words(bssid).copied()
}

// What is told of the places that a change names.
fn same_at(rt: &impl Abort, table: &Table, plain: &PlainTable, change: &Change) {
    let (bssid, named) = places_of(change);
    let plain_numbers = (plain.count(bssid), plain.least_free(bssid));
    expect(rt, numbers(table, bssid), plain_numbers);
    expect(rt, next_free(table, bssid), plain.next_free(bssid));
    expect(rt, next(table, bssid, None), plain.next(bssid, None));
    if let Some(addr) = named {
        expect(rt, get(table, bssid, addr), plain.get(bssid, addr));
        expect(
            rt,
            next(table, bssid, Some(addr)),
            plain.next(bssid, Some(addr)),
        );
    }
}

fn is_listed(table: &Table, bssid: Bssid, which: Which, addr: Addr) -> bool {
    table
        .lists(bssid)
        .is_some_and(|lists| lists.has(which, addr))
}

fn mode(table: &Table, bssid: Bssid) -> Option<u8> {
    table.policy(bssid).map(|policy| policy.0)
}

// Every row, list and policy of a BSSID.
fn same_bss(rt: &impl Abort, table: &Table, plain: &PlainTable, bssid: Bssid) {
    expect(
        rt,
        mode(table, bssid),
        plain.mode(bssid).map(|mode| mode.number()),
    );
    expect(rt, next_free(table, bssid), plain.next_free(bssid));
    for number in 0..12 {
        let addr = addr(number);
        expect(rt, get(table, bssid, addr), plain.get(bssid, addr));
        expect(
            rt,
            next(table, bssid, Some(addr)),
            plain.next(bssid, Some(addr)),
        );
        for which in [Which::Accept, Which::Deny] {
            let is_plainly_listed = plain.is_listed(bssid, which, addr);
            expect(rt, is_listed(table, bssid, which, addr), is_plainly_listed);
        }
    }
}

fn are_later_words_empty(words: &[u64; 32]) -> bool {
    words.iter().skip(1).all(|word| *word == 0)
}

// The word in which the bits of those identifiers are set that stations have, of those below 64.
fn plain_word(plain: &PlainTable, bssid: Bssid) -> u64 {
    let mut word = 0;
    for aid in 0..64 {
        if plain.has_aid(bssid, aid) {
            word |= 1 << aid;
        }
    }
    word
}

// Its identifiers as bits: those that stations have are below 64.
fn same_words(rt: &impl Abort, table: &Table, plain: &PlainTable, bssid: Bssid) {
    match words(table, bssid) {
        None => expect(rt, plain.mode(bssid), None),
        Some(words) => {
            expect(rt, words[0], plain_word(plain, bssid));
            expect(rt, are_later_words_empty(&words), true);
        }
    }
}

// The rows that changes make.
fn plain_table_of(rt: &impl Abort, alloc: Global, changes: &[Change]) -> PlainTable {
    let mut made = PlainTable::new(alloc);
    for change in changes {
        made.make(rt, change);
    }
    made
}

// The changes of the snapshot are the same, in their order.
fn snapshot(rt: &impl Abort, alloc: Global, table: &Table, plain: &PlainTable) -> Vec<Change> {
    let changes = table.snapshot(alloc).expect(rt, "memory");
    let plain_changes = plain.snapshot(rt, alloc);
    expect(rt, changes.as_slice(), plain_changes.as_slice());
    changes
}

// The snapshot is the same, and makes the same rows.
fn same_snapshot(rt: &impl Abort, alloc: Global, table: &Table, plain: &PlainTable) {
    let changes = snapshot(rt, alloc, table, plain);
    let made = plain_table_of(rt, alloc, changes.as_slice());
    for number in 0..9 {
        same_bss(rt, table, &made, bssid(number));
        same_bss(rt, table, plain, bssid(number));
        same_words(rt, table, plain, bssid(number));
    }
}

// Makes a change at both, or at neither, and tells whether it was made.
fn same_answer(
    rt: &impl Abort,
    alloc: Global,
    table: &mut Table,
    plain: &mut PlainTable,
    change: &Change,
) -> bool {
    let is_made = apply_plainly(rt, alloc, plain, change);
    expect(rt, apply(table, change).is_ok(), is_made);
    same_at(rt, table, plain, change);
    is_made
}

// Makes changes at both, and tells how many of them were made.
fn same_changes(
    rt: &impl Abort,
    alloc: Global,
    table: &mut Table,
    plain: &mut PlainTable,
    count: u32,
) -> u32 {
    let mut seed = 1;
    let mut made = 0u32;
    for number in 0..count {
        let change = a_change(rt, &mut seed);
        if same_answer(rt, alloc, table, plain, &change) {
            made = made.saturating_add(1);
        }
        if number % 10 == 9 {
            same_bss(rt, table, plain, places_of(&change).0);
            snapshot(rt, alloc, table, plain);
        }
        if number % 100 == 99 {
            same_snapshot(rt, alloc, table, plain);
        }
    }
    made
}

#[test]
fn five_thousand_changes_leave_what_plain_vectors_have(rt: HostRuntime) {
    let mut table = Table::new(rt.alloc());
    let mut plain = PlainTable::new(rt.alloc());
    let made = same_changes(&rt, rt.alloc(), &mut table, &mut plain, 5000);
    // Of either kind there are many.
    expect(&rt, made > 1500 && made < 3500, true);
}

fn open(number: u32) -> Change {
    policy_of(bssid(number), AclMode::AcceptUnlessDenied)
}

// A station that is associated at a BSSID, with its own number as the identifier.
fn member(rt: &impl Abort, bssid: Bssid, number: u16) -> Change {
    Change::Put {
        bssid,
        addr: addr(u32::from(number)),
        station: associated(rt, number, 0x431, 10),
    }
}

// The words of 2,007 stations.
fn full_words() -> [u64; 32] {
    let mut full = [u64::MAX; 32];
    full[0] = 0xffff_ffff_ffff_fffe;
    full[31] = 0x0000_0000_00ff_ffff;
    full
}

// Associates the stations of all numbers.
fn fill(rt: &impl Abort, table: &mut Table, bssid: Bssid) {
    for number in 1..=2007 {
        takes(rt, table, &[member(rt, bssid, number)]);
    }
    expect(rt, numbers(table, bssid), (2007, None));
    expect(rt, words(table, bssid), Some(full_words()));
}

// Station 64 leaves, and its bit is free.
fn drop_64(rt: &impl Abort, table: &mut Table, bssid: Bssid) {
    let addr = addr(64);
    takes(rt, table, &[Change::Drop { bssid, addr }]);
    expect(rt, numbers(table, bssid), (2006, Some(64)));
    let mut without_64 = full_words();
    without_64[1] = 0xffff_ffff_ffff_fffe;
    expect(rt, words(table, bssid), Some(without_64));
}

#[test]
fn two_thousand_and_seven_stations_fill_the_words(rt: HostRuntime) {
    let bssid = bssid(1);
    let mut table = Table::new(rt.alloc());
    expect(&rt, words(&table, bssid), None);
    takes(&rt, &mut table, &[open(1)]);
    expect(&rt, words(&table, bssid), Some([0; 32]));
    fill(&rt, &mut table, bssid);
    drop_64(&rt, &mut table, bssid);
}

// The first word of the first BSSID, how many rows it has, and its least free identifier.
fn tells(rt: &impl Abort, table: &Table, word: u64, count: usize, least_free: u16) {
    let words = words(table, bssid(1)).expect(rt, "a policy");
    let found = (words[0], numbers(table, bssid(1)));
    expect(rt, found, (word, (count, Some(least_free))));
}

// The first station is only authenticated again.
fn put_back_first(rt: &impl Abort, table: &mut Table) {
    let put_back = Change::Put {
        bssid: bssid(1),
        addr: addr(1),
        station: Station::Authenticated,
    };
    takes(rt, table, &[put_back]);
    tells(rt, table, 4, 2, 1);
}

// One that is denied sets no bit.
fn deny_third(rt: &impl Abort, table: &mut Table) {
    let deny = Change::ListAdd {
        bssid: bssid(1),
        which: Which::Deny,
        addr: addr(3),
    };
    takes(rt, table, &[deny]);
    refuses(rt, table, &[member(rt, bssid(1), 3)]);
    tells(rt, table, 4, 2, 1);
}

#[test]
fn a_station_put_back_frees_its_bit(rt: HostRuntime) {
    let first = member(&rt, bssid(1), 1);
    let second = member(&rt, bssid(1), 2);
    let mut table = table_of(&rt, rt.alloc(), &[open(1), first, second]);
    tells(&rt, &table, 6, 2, 3);
    // It associates again, and keeps its bit.
    takes(&rt, &mut table, &[second]);
    tells(&rt, &table, 6, 2, 3);
    put_back_first(&rt, &mut table);
    deny_third(&rt, &mut table);
}

#[test]
fn next_ends_with_the_bssid(rt: HostRuntime) {
    let first = member(&rt, bssid(1), 1);
    let second = member(&rt, bssid(2), 2);
    let changes = [open(1), open(2), first, second];
    let table = table_of(&rt, rt.alloc(), &changes);
    expect(&rt, next(&table, bssid(1), Some(addr(1))), None);
    expect(&rt, next(&table, bssid(2), None).is_some(), true);
}
