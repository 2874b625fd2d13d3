//! Entries, batches, receipts and what is handed out, in rows. Where an allocation fails
//! (`rt try --test --fail-alloc N`) each step is done once more, and tells the same.
use crate::common::{ASSOCIATION, AUTHENTICATION, RADIO};
use crate::expect::expect;
use crate::steps::{Step, otherwise};
use apd_mlme::Recipient;

const TO_RADIO: Step = Step::Hand(Recipient::Radio(RADIO));

const TO_CONTROL: Step = Step::Hand(Recipient::Control);

const SHORT: Step = Step::Frame(&[0xb0, 0, 0], 0);

const AUTHENTICATE: Step = Step::Frame(AUTHENTICATION, 0);

const ASSOCIATE: Step = Step::Frame(ASSOCIATION, 0);

// All but the first entry have an out for the radio: settled they are kept until it is handed theirs.
#[test]
fn as_many_entries_are_kept_as_may_be(rt: HostRuntime) {
    let rows = [
        (1, Step::Start, ("entry", 1)),
        (4095, AUTHENTICATE, ("entry", 4096)),
        (1, AUTHENTICATE, ("busy", 0)),
        (1, SHORT, ("busy", 0)),
        (1, Step::Take, ("batch", 4096)),
        (1, Step::Commit, ("receipt", 4096)),
        (1, SHORT, ("busy", 0)),
        (1, Step::Publish, ("settled", 4096)),
        (1, TO_CONTROL, ("outs", 0)),
        (1, TO_RADIO, ("outs", 4095)),
        (1, AUTHENTICATE, ("entry", 4097)),
        (4095, AUTHENTICATE, ("entry", 8192)),
        (1, Step::Take, ("batch", 8192)),
        (1, Step::Commit, ("receipt", 8192)),
        (1, Step::Publish, ("settled", 8192)),
        (1, SHORT, ("busy", 0)),
        (1, TO_CONTROL, ("outs", 0)),
        (1, SHORT, ("busy", 0)),
        (1, TO_RADIO, ("outs", 4096)),
        (1, SHORT, ("quiet", 0)),
    ];
    expect(&rt, otherwise(rt.alloc(), &rows), None);
}

// A start has no out.
#[test]
fn an_entry_without_outs_goes_once_it_is_settled(rt: HostRuntime) {
    let rows = [
        (4096, Step::Start, ("entry", 4096)),
        (1, AUTHENTICATE, ("busy", 0)),
        (1, SHORT, ("busy", 0)),
        (1, Step::Take, ("batch", 4096)),
        (1, Step::Commit, ("receipt", 4096)),
        (1, Step::Publish, ("settled", 4096)),
        (1, AUTHENTICATE, ("entry", 4097)),
        (1, SHORT, ("quiet", 0)),
    ];
    expect(&rt, otherwise(rt.alloc(), &rows), None);
}

#[test]
fn a_receipt_is_that_of_the_batch_in_flight(rt: HostRuntime) {
    let rows = [
        (1, Step::Start, ("entry", 1)),
        (1, AUTHENTICATE, ("entry", 2)),
        (1, Step::Take, ("batch", 2)),
        (1, AUTHENTICATE, ("entry", 3)),
        (1, Step::Take, ("no batch", 0)),
        (1, Step::CommitFirst, ("receipt", 1)),
        (1, Step::Publish, ("foreign", 1)),
        (1, Step::First, ("another text", 0)),
        (1, TO_RADIO, ("outs", 0)),
        (1, Step::Commit, ("receipt", 2)),
        (1, Step::Publish, ("settled", 2)),
        (1, Step::Commit, ("receipt", 2)),
        (1, Step::Publish, ("foreign", 2)),
        (1, TO_RADIO, ("outs", 1)),
        (1, TO_RADIO, ("outs", 0)),
        (1, Step::Take, ("batch", 3)),
    ];
    expect(&rt, otherwise(rt.alloc(), &rows), None);
}

#[test]
fn a_station_is_told_as_it_was_settled(rt: HostRuntime) {
    let rows = [
        (1, Step::Start, ("entry", 1)),
        (1, AUTHENTICATE, ("entry", 2)),
        (1, Step::Take, ("batch", 2)),
        (1, Step::Commit, ("receipt", 2)),
        (1, Step::Publish, ("settled", 2)),
        (1, ASSOCIATE, ("entry", 3)),
        (1, Step::First, ("authenticated", 2)),
        (1, Step::Take, ("batch", 3)),
        (1, Step::First, ("authenticated", 2)),
        (1, TO_RADIO, ("outs", 1)),
        (1, Step::Commit, ("receipt", 3)),
        (1, Step::First, ("authenticated", 2)),
        (1, Step::Publish, ("settled", 3)),
        (1, Step::First, ("associated", 3)),
        (1, TO_RADIO, ("outs", 2)),
    ];
    expect(&rt, otherwise(rt.alloc(), &rows), None);
}
