//! The steps of which tests are made. A test names them by words, so that a whole run is read at a glance.
use apd_base::{Addr, Bssid, Moment, Which};
use apd_core::Input;
use apd_ctrl::Query;
use apd_mlme::{Edit, Event, Recipient};
use apd_world::Step;
use std::alloc::Global;

/// The access point's first BSSID.
pub(crate) const WLAN0: Bssid = Bssid(Addr([2, 0, 0, 0, 0, 1]));

/// Its second.
pub(crate) const WLAN1: Bssid = Bssid(Addr([2, 0, 0, 0, 0, 2]));

/// Its third.
pub(crate) const WLAN2: Bssid = Bssid(Addr([2, 0, 0, 0, 0, 3]));

/// The station of each test.
pub(crate) const STATION: Addr = Addr([2, 0, 0, 0, 0, 0xaa]);

/// Another station.
pub(crate) const OTHER: Addr = Addr([2, 0, 0, 0, 0, 0xbb]);

/// A third station.
pub(crate) const THIRD: Addr = Addr([2, 0, 0, 0, 0, 0xcc]);

const AUTHENTICATION_FRAME: &[u8] = &[
    0xb0, 0, 0, 0, 2, 0, 0, 0, 0, 1, 2, 0, 0, 0, 0, 0xaa, 2, 0, 0, 0, 0, 1, 0x10, 0, 0, 0, 1, 0, 0,
    0,
];

const ASSOCIATION_FRAME: &[u8] = &[
    0, 0, 0, 0, 2, 0, 0, 0, 0, 1, 2, 0, 0, 0, 0, 0xaa, 2, 0, 0, 0, 0, 1, 0x20, 0, 0x31, 4, 0x0a, 0,
    0, 3, 0x6e, 0x65, 0x74, 1, 4, 0x82, 0x84, 0x8b, 0x96,
];

const AUTHENTICATION_ELSEWHERE_FRAME: &[u8] = &[
    0xb0, 0, 0, 0, 2, 0, 0, 0, 0, 2, 2, 0, 0, 0, 0, 0xaa, 2, 0, 0, 0, 0, 2, 0x10, 0, 0, 0, 1, 0, 0,
    0,
];

const ASSOCIATION_ELSEWHERE_FRAME: &[u8] = &[
    0, 0, 0, 0, 2, 0, 0, 0, 0, 2, 2, 0, 0, 0, 0, 0xaa, 2, 0, 0, 0, 0, 2, 0x20, 0, 0x31, 4, 0x0a, 0,
    0, 3, 0x6e, 0x65, 0x74, 1, 4, 0x82, 0x84, 0x8b, 0x96,
];

const OTHER_AUTHENTICATION_FRAME: &[u8] = &[
    0xb0, 0, 0, 0, 2, 0, 0, 0, 0, 2, 2, 0, 0, 0, 0, 0xbb, 2, 0, 0, 0, 0, 2, 0x10, 0, 0, 0, 1, 0, 0,
    0,
];

const OTHER_ASSOCIATION_FRAME: &[u8] = &[
    0, 0, 0, 0, 2, 0, 0, 0, 0, 2, 2, 0, 0, 0, 0, 0xbb, 2, 0, 0, 0, 0, 2, 0x20, 0, 0x31, 4, 0x0a, 0,
    0, 3, 0x6e, 0x65, 0x74, 1, 4, 0x82, 0x84, 0x8b, 0x96,
];

const THIRD_AUTHENTICATION_FRAME: &[u8] = &[
    0xb0, 0, 0, 0, 2, 0, 0, 0, 0, 3, 2, 0, 0, 0, 0, 0xcc, 2, 0, 0, 0, 0, 3, 0x10, 0, 0, 0, 1, 0, 0,
    0,
];

const THIRD_ASSOCIATION_FRAME: &[u8] = &[
    0, 0, 0, 0, 2, 0, 0, 0, 0, 3, 2, 0, 0, 0, 0, 0xcc, 2, 0, 0, 0, 0, 3, 0x20, 0, 0x31, 4, 0x0a, 0,
    0, 3, 0x6e, 0x65, 0x74, 1, 4, 0x82, 0x84, 0x8b, 0x96,
];

/// A radio receives a frame.
fn received(bssid: Bssid, frame: &'static [u8]) -> Step<'static> {
    Step::Accept(Input::Received(bssid, frame), Moment(0))
}

/// The station is put on the deny list of wlan0.
fn denial() -> Step<'static> {
    let edit = Event::ListEdit {
        bssid: WLAN0,
        which: Which::Deny,
        edit: Edit::Add(STATION),
        tag: 7,
    };
    Step::Accept(Input::Order(edit), Moment(0))
}

/// A frame of a station, by its word. The station asks for Open System authentication, or for association with the
/// network `net`.
fn frame_step(word: &str) -> Option<Step<'static>> {
    Some(match word {
        "authenticates" => received(WLAN0, AUTHENTICATION_FRAME),
        "associates" => received(WLAN0, ASSOCIATION_FRAME),
        "authenticates-at-wlan1" => received(WLAN1, AUTHENTICATION_ELSEWHERE_FRAME),
        "associates-at-wlan1" => received(WLAN1, ASSOCIATION_ELSEWHERE_FRAME),
        "other-authenticates-at-wlan1" => received(WLAN1, OTHER_AUTHENTICATION_FRAME),
        "other-associates-at-wlan1" => received(WLAN1, OTHER_ASSOCIATION_FRAME),
        "third-authenticates-at-wlan2" => received(WLAN2, THIRD_AUTHENTICATION_FRAME),
        "third-associates-at-wlan2" => received(WLAN2, THIRD_ASSOCIATION_FRAME),
        _ => return None,
    })
}

/// A radio is handed what is settled, or applies the first out of its queue, by the word.
fn radio_step(word: &str) -> Option<Step<'static>> {
    Some(match word {
        "hand-to-wlan0" => Step::Hand(Recipient::Radio(WLAN0)),
        "hand-to-wlan1" => Step::Hand(Recipient::Radio(WLAN1)),
        "hand-to-wlan2" => Step::Hand(Recipient::Radio(WLAN2)),
        "apply-at-wlan0" => Step::Apply(WLAN0),
        "apply-at-wlan1" => Step::Apply(WLAN1),
        "apply-at-wlan2" => Step::Apply(WLAN2),
        _ => return None,
    })
}

/// Any other step, by its word. What `deny` and `ask` are about is the station at wlan0.
fn other_step(word: &str) -> Option<Step<'static>> {
    Some(match word {
        "take" => Step::Take,
        "call" => Step::Call,
        "publish" => Step::Publish,
        "deny" => denial(),
        "ask" => Step::Ask(Query::Sta(WLAN0, STATION)),
        "hand-to-control" => Step::Hand(Recipient::Control),
        _ => return None,
    })
}

/// The step of a word; none where it is unknown.
fn step(word: &str) -> Option<Step<'static>> {
    frame_step(word)
        .or_else(|| radio_step(word))
        .or_else(|| other_step(word))
}

/// The steps of a text, in order: a word each. None where a word is unknown, or memory lacks.
pub(crate) fn steps_of(alloc: Global, words: &str) -> Option<Vec<Step<'static>>> {
    let mut steps = Vec::new(alloc);
    for word in words.split_ascii_whitespace() {
        steps.push(step(word)?).ok()?;
    }
    Some(steps)
}

/// The station authenticates at wlan0, and that is committed.
pub(crate) const COMMITS: &str = "authenticates take call call call call publish";

/// The station authenticates and associates at wlan0, and that is committed.
pub(crate) const ASSOCIATION: &str = "
    authenticates associates
    take call call call call publish
";

/// The same, and the other station does so at wlan1.
pub(crate) const ASSOCIATIONS: &str = "
    authenticates associates
    other-authenticates-at-wlan1 other-associates-at-wlan1
    take call call call call publish
";

/// The station associates at the first radio, and then at the second, which is committed at once.
pub(crate) const ROAMS: &str = "
    authenticates associates
    authenticates-at-wlan1 associates-at-wlan1
    take call call call call publish
    hand-to-wlan0 apply-at-wlan0 apply-at-wlan0 apply-at-wlan0 apply-at-wlan0 apply-at-wlan0
    hand-to-wlan1 apply-at-wlan1 apply-at-wlan1 apply-at-wlan1
";
