//! What is to be seen of a session, from the pages and the standard: what the radio is given, and each call of the
//! device.
use crate::faults::sessions::{STATION, Session};
use apd_base::Addr;
use apd_disk::Call;
use apd_mlme::Out;

/// Something that the radio is given.
#[derive(Clone, Copy)]
pub(crate) enum Given {
    /// The station is installed under this identifier.
    Install(Addr, u16),
    Frame(&'static [u8]),
}

/// What the radio is given for the station's two requests. To the one for authentication: algorithm 0, number 2,
/// status 0. To the one for association: the station under its identifier, and then capability 1, status 0, the
/// identifier with both top bits set, and the rates. Nothing is given for the radio's own start.
const GIVEN: [Given; 3] = [
    Given::Frame(&[
        0xb0, 0, 0, 0, 2, 0, 0, 0, 0, 0xaa, 2, 0, 0, 0, 0, 1, 2, 0, 0, 0, 0, 1, 0, 0, 0, 0, 2, 0,
        0, 0,
    ]),
    Given::Install(STATION, 1),
    Given::Frame(&[
        0x10, 0, 0, 0, 2, 0, 0, 0, 0, 0xaa, 2, 0, 0, 0, 0, 1, 2, 0, 0, 0, 0, 1, 0, 0, 1, 0, 0, 0,
        1, 0xc0, 1, 4, 0x82, 0x84, 0x8b, 0x96,
    ]),
];

/// What the radio is given at this place of a session; none behind the last.
pub(crate) fn out_at(session: Session, place: usize) -> Option<Given> {
    let before = match session {
        Session::ThreeCommits => 0,
        Session::OneSwitch => 1,
    };
    GIVEN.get(place.checked_add(before)?).copied()
}

/// Whether an out is this, to the byte.
pub(crate) fn is_given(out: &Out, given: Given) -> bool {
    match (out, given) {
        (Out::Install(addr, aid), Given::Install(station, number)) => {
            *addr == station && aid.number == number
        }
        (Out::Frame(frame), Given::Frame(bytes)) => frame.as_slice() == bytes,
        _ => false,
    }
}

/// A call of a device.
#[derive(Clone, Copy)]
pub(crate) enum Made {
    /// A read at this place, of so many bytes.
    Read(usize, usize),
    /// A write at this place, of these bytes.
    Write(usize, &'static [u8]),
    Sync,
}

/// Those of a recovery.
pub(crate) const RECOVERS: [Made; 2] = [Made::Sync, Made::Read(0, 2_097_216)];

/// Those of three commits: behind the closed gate of half A, at 77 and then at 92 and 117, a group is written, with its
/// length before it and the next closed gate behind it, and then the gate.
const COMMITS: [Made; 12] = [
    // the radio's policy
    Made::Write(78, &[10, 0, 0, 0, 6, 2, 0, 0, 0, 0, 1, 0, 0xd7, 7, 0]),
    Made::Sync,
    Made::Write(77, &[1]),
    Made::Sync,
    // the station, authenticated
    Made::Write(
        93,
        &[
            20, 0, 0, 0, 1, 2, 0, 0, 0, 0, 1, 2, 0, 0, 0, 0, 0xaa, 1, 0, 0, 0, 0, 0, 0, 0,
        ],
    ),
    Made::Sync,
    Made::Write(92, &[1]),
    Made::Sync,
    // the station, associated, and the identifier given last
    Made::Write(
        118,
        &[
            29, 0, 0, 0, 1, 2, 0, 0, 0, 0, 1, 2, 0, 0, 0, 0, 0xaa, 2, 1, 0, 0x31, 4, 10, 0, 7, 2,
            0, 0, 0, 0, 1, 1, 0, 0,
        ],
    ),
    Made::Sync,
    Made::Write(117, &[1]),
    Made::Sync,
];

/// Those of a commit that goes on in half A, which is open: it is closed; its epoch, 3, the length of its snapshot, the
/// policy, the station and a closed gate are written; it is opened; and the group is committed behind the gate at 107.
const SWITCHES: [Made; 10] = [
    Made::Write(64, &[0]),
    Made::Sync,
    Made::Write(
        65,
        &[
            3, 0, 0, 0, 0, 0, 0, 0, 30, 0, 0, 0, 6, 2, 0, 0, 0, 0, 1, 0, 0xd7, 7, 1, 2, 0, 0, 0, 0,
            1, 2, 0, 0, 0, 0, 0xaa, 1, 0, 0, 0, 0, 0, 0, 0,
        ],
    ),
    Made::Sync,
    Made::Write(64, &[1]),
    Made::Sync,
    Made::Write(
        108,
        &[
            29, 0, 0, 0, 1, 2, 0, 0, 0, 0, 1, 2, 0, 0, 0, 0, 0xaa, 2, 1, 0, 0x31, 4, 10, 0, 7, 2,
            0, 0, 0, 0, 1, 1, 0, 0,
        ],
    ),
    Made::Sync,
    Made::Write(107, &[1]),
    Made::Sync,
];

/// Those of a session behind the recovery.
fn calls_of(session: Session) -> &'static [Made] {
    match session {
        Session::ThreeCommits => &COMMITS,
        Session::OneSwitch => &SWITCHES,
    }
}

fn is_made(call: &Call, made: &Made) -> bool {
    match (call, made) {
        (Call::Read(at, length), Made::Read(place, count)) => at == place && length == count,
        (Call::Write(at, bytes), Made::Write(place, written)) => {
            at == place && bytes.as_slice() == *written
        }
        (Call::Sync, Made::Sync) => true,
        _ => false,
    }
}

/// The calls behind these; none where they don't begin so.
pub(crate) fn behind<'a>(calls: &'a [Call], made: &[Made]) -> Option<&'a [Call]> {
    let (front, rest) = calls.split_at_checked(made.len())?;
    for (call, made) in front.iter().zip(made) {
        if !is_made(call, made) {
            return None;
        }
    }
    Some(rest)
}

/// How many calls of a session a device has served behind the recovery, from the first one on; none where it has served
/// any other.
pub(crate) fn count_calls(session: Session, calls: &[Call]) -> Option<usize> {
    let calls = behind(calls, &RECOVERS)?;
    let _none = behind(calls, calls_of(session).get(..calls.len())?)?;
    Some(calls.len())
}

/// The same where the device was recovered once more behind the session.
pub(crate) fn count_before_recovery(session: Session, calls: &[Call]) -> Option<usize> {
    let (before, recovery) = calls.split_at_checked(calls.len().checked_sub(RECOVERS.len())?)?;
    let _none = behind(recovery, &RECOVERS)?;
    count_calls(session, before)
}
