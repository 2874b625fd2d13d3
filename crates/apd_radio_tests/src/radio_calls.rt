//! Calls of radios as values, so that a test is a table of them and its proof needn't carry their contracts.
use crate::expect::expect;
use apd_base::Addr;
use apd_radio::{Radio, RadioFault};
use std::process::Abort;

/// The station of each call.
const STATION: Addr = Addr([2, 0, 0, 0, 0, 0xaa]);

#[derive(Clone, Copy)]
pub(crate) enum Asked<'a> {
    Poll,
    Install(u16),
    Remove,
    Transmit(&'a [u8]),
    TakeDown,
}

/// What a radio answers.
pub(crate) type Answer = Result<(), RadioFault>;

/// A call, its answer, and then the station's identifier and how many calls failed.
pub(crate) type Row = (Asked<'static>, Answer, Option<u16>, u64);

/// What is polled. Where memory was refused it is polled again: nothing is lost by it.
fn poll<R: Radio>(radio: &mut R) -> Result<Option<Vec<u8>>, RadioFault> {
    match radio.poll() {
        Err(RadioFault::NoMemory) => radio.poll(),
        answer => answer,
    }
}

/// Makes a call.
pub(crate) fn ask<R: Radio>(radio: &mut R, asked: Asked) -> Answer {
    match asked {
        Asked::Poll => {
            poll(radio)?;
            Ok(())
        }
        Asked::Install(aid) => radio.install(STATION, aid),
        Asked::Remove => radio.remove(STATION),
        Asked::Transmit(frame) => radio.transmit(frame),
        Asked::TakeDown => {
            radio.take_down();
            Ok(())
        }
    }
}

/// Makes calls, each of which has to succeed.
pub(crate) fn succeeds<R: Radio>(rt: &impl Abort, radio: &mut R, calls: &[Asked]) {
    for asked in calls {
        expect(rt, ask(radio, *asked), Ok(()));
    }
}

/// Makes the call of each row, and expects what the row says of it.
pub(crate) fn goes_through<R: Radio>(rt: &impl Abort, radio: &mut R, rows: &[Row]) {
    for (asked, answer, installed, failures) in rows {
        let is = ask(radio, *asked);
        let found = (is, radio.installed(STATION), radio.failures());
        expect(rt, found, (*answer, *installed, *failures));
    }
}

/// Polls, and expects this frame, or none.
pub(crate) fn receives<R: Radio>(rt: &impl Abort, radio: &mut R, frame: Option<&[u8]>) {
    let received = poll(radio).expect(rt, "a poll");
    expect(rt, received.as_deref(), frame);
}
