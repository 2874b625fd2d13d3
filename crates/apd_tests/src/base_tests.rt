use crate::expect::expect;
use apd_base::{Addr, Sequence, rows};
use std::alloc::Global;
use std::process::Abort;

const STATION: Addr = Addr([2, 0, 0, 0, 0, 0xaa]);

// It is written so into bytes, and printed so.
fn expect_written(rt: &impl Abort, alloc: Global, addr: Addr, wanted: &str) {
    let mut text = Vec::new(alloc);
    addr.write_text(&mut text).expect(rt, "memory");
    expect(rt, text.as_slice(), wanted.as_bytes());
    let printed = format!(in alloc; "{addr}").expect(rt, "memory");
    expect(rt, printed.as_str(), wanted);
}

#[test]
fn an_address_is_written_in_lower_case_and_read_in_either(rt: HostRuntime) {
    expect_written(&rt, rt.alloc(), STATION, "02:00:00:00:00:aa");
    for (text, addr) in [
        (b"02:00:00:00:00:aa".as_slice(), Some(STATION)),
        (b"02:00:00:00:00:AA", Some(STATION)),
        (b"2:00:00:00:00:aa", None),
        (b"02-00-00-00-00-aa", None),
        (b"02:00:00:00:00:aa ", None),
        (b"02:00:00:00:00:a:", None),
        (b"", None),
    ] {
        expect(&rt, (text, Addr::parse(text)), (text, addr));
    }
}

// A list takes an item, and those of another, which is empty then.
fn extend(rt: &impl Abort, list: &mut Sequence<u8>, more: &mut Sequence<u8>) {
    list.push(7).expect(rt, "memory");
    expect(rt, list.as_slice(), [7].as_slice());
    list.append(more).expect(rt, "memory");
    expect(rt, (more.is_empty(), list.len()), (true, 3));
    list.truncate(2);
}

// Rows of a key and a letter.
fn put_rows(rt: &impl Abort, entries: &mut Vec<(u8, char)>) {
    for (key, letter) in [(2, 'b'), (1, 'a'), (2, 'c')] {
        rows::put(entries, key, letter).expect(rt, "memory");
    }
}

// A list of these items.
fn list_of(rt: &impl Abort, alloc: Global, items: &[u8]) -> Sequence<u8> {
    Sequence::from_vec(items.to_vec(alloc).expect(rt, "memory"))
}

// A list takes an item and those of another, and keeps the first two.
fn take_items(rt: &impl Abort, alloc: Global) {
    let mut list = Sequence::new(alloc);
    let mut more = list_of(rt, alloc, &[8, 9]);
    extend(rt, &mut list, &mut more);
    expect(rt, list.into_vec().as_slice(), [7, 8].as_slice());
}

#[test]
fn lists_and_rows_take_items_where_memory_is_ample(rt: HostRuntime) {
    take_items(&rt, rt.alloc());
    let mut entries = Vec::new(rt.alloc());
    put_rows(&rt, &mut entries);
    expect(&rt, entries.as_slice(), [(1, 'a'), (2, 'c')].as_slice());
    rows::remove(&mut entries, &1);
    expect(&rt, entries.as_slice(), [(2, 'c')].as_slice());
}

// A list takes so many items.
fn push_items(rt: &impl Abort, list: &mut Sequence<u16>, count: u16) {
    for number in 0..count {
        list.push(number).expect(rt, "memory");
    }
}

// So many rows, each before the others, with their numbers from the last on.
fn push_rows(rt: &impl Abort, entries: &mut Vec<(u16, u16)>, count: u16) {
    for number in 0..count {
        let key = count - 1 - number;
        rows::put(entries, key, number).expect(rt, "memory");
    }
}

// What is told of 1,100 of them.
fn tells_rows(rt: &impl Abort, entries: &[(u16, u16)]) {
    expect(rt, entries.len(), 1100);
    expect(rt, rows::place(entries, &1050), Ok(1050));
    expect(rt, rows::value(entries, &1050).copied(), Some(49));
}

#[test]
fn lists_and_rows_take_more_than_a_thousand_items(rt: HostRuntime) {
    let mut list = Sequence::new(rt.alloc());
    push_items(&rt, &mut list, 1100);
    expect(&rt, list.len(), 1100);
    expect(&rt, list.as_slice().get(1099), Some(&1099));
    let mut entries = Vec::new(rt.alloc());
    push_rows(&rt, &mut entries, 1100);
    tells_rows(&rt, &entries);
    rows::remove(&mut entries, &1050);
    expect(&rt, entries.len(), 1099);
}
