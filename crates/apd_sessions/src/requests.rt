//! What is asked for in sessions.
use apd_base::{Addr, Bssid, Moment};
use apd_conf::Conf;
use apd_core::Input;
use apd_ctrl::{Interfaces, Placed, place};
use apd_mlme::Recipient;
use apd_world::Step;

/// The BSSID of the first radio, which is the built-in configuration's, and of the second.
pub const WLAN0: Bssid = Bssid(Addr([2, 0, 0, 0, 0, 1]));

pub const WLAN1: Bssid = Bssid(Addr([2, 0, 0, 0, 0, 2]));

/// The first station, and another.
pub const STATION: Addr = Addr([2, 0, 0, 0, 0, 0xaa]);

pub const ANOTHER: Addr = Addr([2, 0, 0, 0, 0, 0xbb]);

/// The first station asks the first radio for Open System authentication.
pub const AUTHENTICATES: Step<'static> = Step::Accept(
    Input::Received(
        WLAN0,
        &[
            0xb0, 0, 0, 0, 2, 0, 0, 0, 0, 1, 2, 0, 0, 0, 0, 0xaa, 2, 0, 0, 0, 0, 1, 0x10, 0, 0, 0,
            1, 0, 0, 0,
        ],
    ),
    Moment(0),
);

/// It asks for association with the network `net`.
pub const ASSOCIATES: Step<'static> = Step::Accept(
    Input::Received(
        WLAN0,
        &[
            0, 0, 0, 0, 2, 0, 0, 0, 0, 1, 2, 0, 0, 0, 0, 0xaa, 2, 0, 0, 0, 0, 1, 0x20, 0, 0x31, 4,
            0x0a, 0, 0, 3, 0x6e, 0x65, 0x74, 1, 4, 0x82, 0x84, 0x8b, 0x96,
        ],
    ),
    Moment(0),
);

/// Another station asks the first radio for authentication.
pub const ANOTHER_AUTHENTICATES: Step<'static> = Step::Accept(
    Input::Received(
        WLAN0,
        &[
            0xb0, 0, 0, 0, 2, 0, 0, 0, 0, 1, 2, 0, 0, 0, 0, 0xbb, 2, 0, 0, 0, 0, 1, 0x10, 0, 0, 0,
            1, 0, 0, 0,
        ],
    ),
    Moment(0),
);

/// It asks for association too.
pub const ANOTHER_ASSOCIATES: Step<'static> = Step::Accept(
    Input::Received(
        WLAN0,
        &[
            0, 0, 0, 0, 2, 0, 0, 0, 0, 1, 2, 0, 0, 0, 0, 0xbb, 2, 0, 0, 0, 0, 1, 0x20, 0, 0x31, 4,
            0x0a, 0, 0, 3, 0x6e, 0x65, 0x74, 1, 4, 0x82, 0x84, 0x8b, 0x96,
        ],
    ),
    Moment(0),
);

/// A third station asks the first radio for authentication.
pub const THIRD_AUTHENTICATES: Step<'static> = Step::Accept(
    Input::Received(
        WLAN0,
        &[
            0xb0, 0, 0, 0, 2, 0, 0, 0, 0, 1, 2, 0, 0, 0, 0, 0xcc, 2, 0, 0, 0, 0, 1, 0x10, 0, 0, 0,
            1, 0, 0, 0,
        ],
    ),
    Moment(0),
);

/// The first station asks the second radio for authentication.
pub const AUTHENTICATES_ELSEWHERE: Step<'static> = Step::Accept(
    Input::Received(
        WLAN1,
        &[
            0xb0, 0, 0, 0, 2, 0, 0, 0, 0, 2, 2, 0, 0, 0, 0, 0xaa, 2, 0, 0, 0, 0, 2, 0x10, 0, 0, 0,
            1, 0, 0, 0,
        ],
    ),
    Moment(0),
);

/// It asks the second radio for association.
pub const ASSOCIATES_ELSEWHERE: Step<'static> = Step::Accept(
    Input::Received(
        WLAN1,
        &[
            0, 0, 0, 0, 2, 0, 0, 0, 0, 2, 2, 0, 0, 0, 0, 0xaa, 2, 0, 0, 0, 0, 2, 0x20, 0, 0x31, 4,
            0x0a, 0, 0, 3, 0x6e, 0x65, 0x74, 1, 4, 0x82, 0x84, 0x8b, 0x96,
        ],
    ),
    Moment(0),
);

/// Commits what was accepted, hands it out, and applies the outs, three for each radio at most.
pub const COMMITS: [Step<'static>; 15] = [
    Step::Take,
    Step::Call,
    Step::Call,
    Step::Call,
    Step::Call,
    Step::Publish,
    Step::Hand(Recipient::Radio(WLAN0)),
    Step::Hand(Recipient::Radio(WLAN1)),
    Step::Hand(Recipient::Control),
    Step::Apply(WLAN0),
    Step::Apply(WLAN0),
    Step::Apply(WLAN0),
    Step::Apply(WLAN1),
    Step::Apply(WLAN1),
    Step::Apply(WLAN1),
];

/// The step by which a radio starts, with the lists of its configuration.
pub fn start_of(conf: &Conf) -> Step<'_> {
    Step::Accept(
        Input::Configure {
            bssid: conf.bssid,
            accept: &conf.accept,
            deny: &conf.deny,
        },
        Moment(0),
    )
}

/// The first radio alone, which is up.
struct FirstRadio;

impl Interfaces for FirstRadio {
    ghost finds = { λ _ _ _. Unit {0} };

    fn interface(&self, _name: Option<&[u8]>) -> Option<(Bssid, bool)> {
        Some((WLAN0, true))
    }
}

/// The step of a command at the first radio; none where the bytes are none.
pub fn command(bytes: &[u8]) -> Option<Step<'static>> {
    match place(&FirstRadio, 7, bytes).ok()? {
        Placed::Ask(query) => Some(Step::Ask(query)),
        Placed::Do(event) => Some(Step::Accept(Input::Order(event), Moment(0))),
    }
}
