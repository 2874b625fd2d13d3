// What STATUS says of an interface that can admit nobody any more, though its radio is up.
ghost use Rattle.std.specs.Prelude.{◌≡◌};

use crate::common::{LENGTH, WLAN0, blank_disk, commit, flusher, new_seat, share, started_core};
use crate::expect::expect;
use crate::operator::{begin, replies_to};
use apd_core::Core;
use apd_desk::{NoGate, Shared};
use apd_disk::{Disk, FuseDisk, MemDisk};
use apd_flusher::Flusher;
use apd_store::recover;
use std::alloc::{AllocError, Global};
use std::marker::Brand;
use std::net::Net;
use std::sync::Wait;
use std::sync::ledger::{Blank, Ledger};
use std::time::Clock;

const ASKED: &[&[u8]] = &[b"STATUS"];

const UP: &[&[u8]] = &[b"state=ENABLED\n"];

const DOWN: &[&[u8]] = &[b"state=DISABLED\n"];

// Whether the reply to STATUS begins so.
fn tells<L: Ledger, W: Wait + Clock + Net>(
    rt: &W,
    alloc: Global,
    shared: &Shared<L>,
    text: &[&[u8]],
) -> Option<bool> {
    let seat = new_seat(rt, shared)?;
    let replies = replies_to(rt, alloc, shared, seat, ASKED);
    let agree = begin(replies.as_slice(), text);
    drop(replies);
    Some(agree)
}

// The same of a core whose radio is noted to be up, once its commits have ended by themselves.
fn tells_behind<L: Ledger, W: Wait + Clock + Net, D: Disk + Drop>(
    rt: &W,
    alloc: Global,
    blank: Blank,
    core: Option<Core>,
    flusher: Option<Flusher<D>>,
    text: &[&[u8]],
) -> Option<bool>
    requires name { blank.name ≡ L.name }
    requires parts { blank.parts ≡ L.parts }
    requires all { blank.parts ≡ 65536 }
{
    let shared: Option<Shared<L>> = share(core, blank);
    let (shared, flusher) = shared.zip(flusher)?;
    shared.note(rt, WLAN0, true);
    commit(rt, &shared, flusher, &NoGate);
    let told = tells(rt, alloc, &shared, text);
    drop(shared);
    told
}

// The same of a core for which nothing is committed.
fn tells_at_once<L: Ledger, W: Wait + Clock + Net>(
    rt: &W,
    alloc: Global,
    blank: Blank,
    core: Option<Core>,
    text: &[&[u8]],
) -> Option<bool>
    requires name { blank.name ≡ L.name }
    requires parts { blank.parts ≡ L.parts }
    requires all { blank.parts ≡ 65536 }
{
    let shared: Shared<L> = share(core, blank)?;
    shared.note(rt, WLAN0, true);
    let told = tells(rt, alloc, &shared, text);
    drop(shared);
    told
}

#[test]
fn an_interface_that_admits_stations_is_up(rt: HostRuntime) {
    let alloc = rt.alloc();
    let (core, blank) = (started_core(alloc), Blank::new(65_536));
    let told = tells_at_once::<Brand, _>(&rt, alloc, blank, core, UP);
    expect(&rt, told, Some(true));
}

/// How many calls of the device a new store takes.
const FORMAT: u64 = 7;

// A flusher over a new store, whose device fails at the call behind so many of a commit.
fn failing_flusher(alloc: Global, calls: u64) -> Option<Flusher<FuseDisk<MemDisk>>> {
    let disk = FuseDisk::new(blank_disk(alloc)?, FORMAT.saturating_add(calls));
    flusher(alloc, disk)
}

#[test]
fn an_interface_is_down_once_the_device_has_failed(rt: HostRuntime) {
    let alloc = rt.alloc();
    for calls in 0..4 {
        let (core, failing) = (started_core(alloc), failing_flusher(alloc, calls));
        let blank = Blank::new(65_536);
        let told = tells_behind::<Brand, _, _>(&rt, alloc, blank, core, failing, DOWN);
        expect(&rt, (calls, told), (calls, Some(true)));
    }
}

/// The record of a policy, and that of a list that was cleared.
const POLICY: &[u8] = &[6, 2, 0, 0, 0, 0, 1, 0, 0xd7, 7];

const CLEARED: &[u8] = &[5, 2, 0, 0, 0, 0, 1, 0];

/// So many of the latter behind the former fill a half.
const CLEARS: u32 = 131_069;

// The bytes of a store of the greatest epoch whose half A is full.
fn worn_bytes(alloc: Global) -> Result<Vec<u8>, AllocError> {
    let mut bytes = Vec::from_slice(alloc, b"RAPSTOR2")?;
    bytes.resize(64, 0)?;
    bytes.extend_from_slice(&[1])?;
    bytes.extend_from_slice(&u64::MAX.to_le_bytes())?;
    bytes.extend_from_slice(&1_048_562_u32.to_le_bytes())?;
    bytes.extend_from_slice(POLICY)?;
    for _record in 0..CLEARS {
        bytes.extend_from_slice(CLEARED)?;
    }
    bytes.resize(LENGTH, 0)?;
    Ok(bytes)
}

fn worn_flusher(alloc: Global) -> Option<Flusher<MemDisk>> {
    let disk = MemDisk::new(alloc, worn_bytes(alloc).ok()?).ok()?;
    let (store, table) = recover(alloc, disk).ok()?;
    Flusher::new(alloc, store, table).ok()
}

#[test]
fn an_interface_is_down_once_the_store_is_worn_out(rt: HostRuntime) {
    let alloc = rt.alloc();
    let (core, worn) = (started_core(alloc), worn_flusher(alloc));
    let blank = Blank::new(65_536);
    let told = tells_behind::<Brand, _, _>(&rt, alloc, blank, core, worn, DOWN);
    expect(&rt, told, Some(true));
}
