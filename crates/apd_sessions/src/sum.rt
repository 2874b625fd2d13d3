//! A sum of all that a table holds, which is another one where anything is; but of a cursor by the next free identifier.
use apd_acl::Lists;
use apd_base::{Addr, Bssid, Station, Which};
use apd_table::Table;

/// The FNV-1a sum of bytes, behind that of others.
fn add(sum: u64, bytes: &[u8]) -> u64 {
    let mut sum = sum;
    for byte in bytes {
        sum = (sum ^ u64::from(*byte)).wrapping_mul(0x0000_0100_0000_01b3);
    }
    sum
}

fn add_number(sum: u64, number: u16) -> u64 {
    add(sum, &number.to_le_bytes())
}

fn add_station(sum: u64, addr: Addr, station: Station) -> u64 {
    let sum = add(sum, &addr.0);
    match station {
        Station::Authenticated => add(sum, &[1]),
        Station::Associated(row) => {
            let sum = add_number(add(sum, &[2]), row.aid.number);
            add_number(add_number(sum, row.capability), row.listen_interval)
        }
    }
}

/// The stations of a BSSID, rising.
fn add_stations(sum: u64, table: &Table, bssid: Bssid) -> u64 {
    let mut sum = sum;
    let mut next = table.first(bssid);
    for _place in 0..table.count(bssid) {
        if let Some((addr, station)) = next {
            sum = add_station(sum, addr, station);
            next = table.next(bssid, addr);
        }
    }
    sum
}

/// The addresses of a list, rising.
fn add_list(sum: u64, lists: &Lists, which: Which) -> u64 {
    let mut sum = add(sum, &[3]);
    let mut next = lists.least(which);
    for _place in 0..lists.len(which) {
        if let Some(addr) = next {
            sum = add(sum, &addr.0);
            next = lists.after(which, addr);
        }
    }
    sum
}

/// The policy, the lists, the next identifier and the stations of a BSSID.
fn add_bss(sum: u64, table: &Table, bssid: Bssid) -> u64 {
    let mut sum = add(sum, &bssid.0.0);
    if let Some((mode, max)) = table.policy(bssid) {
        sum = add_number(add(sum, &[mode]), max);
    }
    if let Some(lists) = table.lists(bssid) {
        sum = add_list(add_list(sum, lists, Which::Accept), lists, Which::Deny);
    }
    sum = add_number(sum, table.next_free(bssid).unwrap_or(0));
    add_stations(sum, table, bssid)
}

/// The sum of all rows of a table.
pub fn sum_of(table: &Table) -> u64 {
    let mut sum = 0xcbf2_9ce4_8422_2325;
    for place in 0..table.bss_count() {
        if let Some(bssid) = table.bss(place) {
            sum = add_bss(sum, table, bssid);
        }
    }
    sum
}
