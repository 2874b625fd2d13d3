//! Sessions in which the call behind so many others fails, in rows: what is told, which calls are made of the device,
//! and what is then found on it.
use crate::faults::devices::{device_of, full_image, new_image, recover_device, table_of};
use crate::faults::expected::{count_before_recovery, count_calls};
use crate::faults::sessions::{Behind, REFUSED, Seen, Session, run};
use apd_disk::{Disk, FuseDisk, MemDisk, OnceDisk, Torn};
use std::alloc::Global;

/// So many calls of the device a recovery makes, with which each session begins: a sync and a read.
pub(crate) const RECOVERY: u64 = 2;

/// How the device fails, and in which way it is then found.
#[derive(Clone, Copy, Debug, PartialEq, Eq)]
pub(crate) enum Way {
    /// For good: the call is passed on, and no other one. A stop leaves such bytes.
    Fuse(Torn),
    /// Once: the call is not passed on, and the device is good again. A stop leaves such bytes.
    Once(Torn),
    /// Once, and the device is handed back.
    HandedBack,
}

/// A row of a table. So many calls behind the recovery are answered well, and the next one, if there is one, fails.
/// Then this is the greatest number that was spoken of, and so many outs were given. And these are the tables that are
/// found, one in each column.
pub(crate) type Row = (u64, u64, usize, &'static [u64]);

/// What comes of a session.
#[derive(Clone, Copy, Debug, PartialEq, Eq)]
pub(crate) struct Ended {
    seen: Seen,
    /// What is told behind it where the device failed.
    behind: Option<Behind>,
    /// How many calls of the device failed, those that were not passed on too.
    failures: u64,
    /// How many calls of the session the device has served; none where it has served any other.
    served: Option<usize>,
    /// The table that is found on it; none where there is another one, or none.
    table: Option<u64>,
}

/// How many calls a session makes, and how many of its own commit stand before the one behind so many.
fn parts(session: Session, calls: u64) -> (u64, u64) {
    match session {
        Session::ThreeCommits => (12, calls % 4),
        Session::OneSwitch => (10, calls),
    }
}

/// How many calls the device is to serve of so many, where the next one fails or there is none.
fn to_be_served(way: Way, calls: u64, fails: bool) -> Option<usize> {
    let passed_on = fails && matches!(way, Way::Fuse(_));
    usize::try_from(calls.checked_add(if passed_on { 1 } else { 0 })?).ok()
}

/// What is to come of it by a column of a row. The ten calls that are tried of each commit are the calls that are
/// answered well, the one that fails, and those that are refused for it.
fn expectation(session: Session, way: Way, row: Row, column: usize) -> Option<Ended> {
    let (calls, spoken, outs, tables) = row;
    let (all, own) = parts(session, calls);
    let fails = calls < all;
    let faults = if fails { 1 } else { 0 };
    let seen = Seen {
        calls,
        faults,
        failed: if fails { 9_u64.saturating_sub(own) } else { 0 },
        refused: 0,
        spoken,
        outs,
        others: 0,
    };
    Some(Ended {
        seen,
        behind: if fails { Some(REFUSED) } else { None },
        failures: faults,
        served: Some(to_be_served(way, calls, fails)?),
        table: Some(*tables.get(column)?),
    })
}

/// The bytes that a session begins with.
pub(crate) fn image_of(alloc: Global, session: Session) -> Option<Vec<u8>> {
    match session {
        Session::ThreeCommits => new_image(alloc),
        Session::OneSwitch => full_image(alloc, 2),
    }
}

/// What comes of a session whose device stops behind it.
fn stop(
    alloc: Global,
    session: Session,
    (seen, behind): (Seen, Option<Behind>),
    failures: u64,
    device: MemDisk,
    torn: Torn,
) -> Ended {
    Ended {
        seen,
        behind,
        failures,
        served: count_calls(session, device.calls()),
        table: table_of(alloc, device.crash(torn)),
    }
}

fn run_on_fuse(
    alloc: Global,
    session: Session,
    device: MemDisk,
    calls: u64,
    torn: Torn,
) -> Option<Ended> {
    let (seen, behind, fuse) = run(alloc, session, FuseDisk::new(device, calls))?;
    let (told, failures) = ((seen, behind), fuse.failures());
    Some(stop(alloc, session, told, failures, fuse.into_inner(), torn))
}

fn once(alloc: Global, session: Session, device: MemDisk, calls: u64, torn: Torn) -> Option<Ended> {
    let (seen, behind, once) = run(alloc, session, OnceDisk::new(device, calls))?;
    let (told, failures) = ((seen, behind), once.failures());
    Some(stop(alloc, session, told, failures, once.into_inner(), torn))
}

/// The very device that failed is recovered; where no call has failed yet, the one inside, since the other one would
/// fail the recovery's own. Then the device, and the table.
fn recover_once(
    alloc: Global,
    once: OnceDisk<MemDisk>,
    faults: u64,
) -> Option<(MemDisk, Option<u64>)> {
    if faults == 0 {
        return recover_device(alloc, once.into_inner()).ok();
    }
    let (once, table) = recover_device(alloc, once).ok()?;
    Some((once.into_inner(), table))
}

fn hand_back(alloc: Global, session: Session, device: MemDisk, calls: u64) -> Option<Ended> {
    let (seen, behind, once) = run(alloc, session, OnceDisk::new(device, calls))?;
    let failures = once.failures();
    let (device, table) = recover_once(alloc, once, seen.faults)?;
    Some(Ended {
        seen,
        behind,
        failures,
        served: count_before_recovery(session, device.calls()),
        table,
    })
}

/// What comes of a session on these bytes in which the call behind so many fails.
fn end_of(alloc: Global, session: Session, way: Way, image: &[u8], calls: u64) -> Option<Ended> {
    let calls = RECOVERY.checked_add(calls)?;
    let device = device_of(alloc, image)?;
    match way {
        Way::Fuse(torn) => run_on_fuse(alloc, session, device, calls, torn),
        Way::Once(torn) => once(alloc, session, device, calls, torn),
        Way::HandedBack => hand_back(alloc, session, device, calls),
    }
}

/// Whether it is what is to come of it.
fn holds(ended: Option<Ended>, expected: Option<Ended>) -> bool {
    ended.is_some() && ended == expected
}

/// The first of these rows that does not hold in its column, by its calls, and what comes of it; none where memory
/// lacks.
pub(crate) fn otherwise(
    alloc: Global,
    session: Session,
    way: Way,
    rows: &[Row],
    column: usize,
) -> Option<(u64, Option<Ended>)> {
    let Some(image) = image_of(alloc, session) else {
        return Some((0, None));
    };
    let found = otherwise_on(alloc, image.as_slice(), session, way, rows, column);
    drop(image);
    found
}

/// The same of sessions on these bytes.
fn otherwise_on(
    alloc: Global,
    image: &[u8],
    session: Session,
    way: Way,
    rows: &[Row],
    column: usize,
) -> Option<(u64, Option<Ended>)> {
    for row in rows {
        let ended = end_of(alloc, session, way, image, row.0);
        if !holds(ended, expectation(session, way, *row, column)) {
            return Some((row.0, ended));
        }
    }
    None
}
