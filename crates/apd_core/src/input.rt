//! Requests to the daemon.
ghost use Rattle.std.specs.Prelude.{◌≡◌, IfOk, IfSome, IfNone};
ghost use Rattle.std.specs.Option.{option_map};
ghost use Rattle.apd_event.specs.Happening.{happening};
ghost use Rattle.apd_mlme.specs.rules.{IsFit};
ghost use Rattle.apd_core.specs.Requests.{event_happening, expiry, order_happening, happening_said, HasLists, unfitness};

use apd_base::limits::MAX_BSS;
use apd_base::{Addr, Bssid};
use apd_conf::{AddressList, Confs};
use apd_event::Event;
use apd_frame::{Ignored, decode};
use apd_table::Table;
use std::fmt;

/// A request to the daemon.
#[derive(Clone, Copy, Debug)]
pub enum Input<'a> {
    /// The radio of the BSSID received these bytes, without their frame check sequence.
    Received(Bssid, &'a [u8]),
    /// A control command was given: a `Kick` or a `ListEdit`. Any other event is quiet, `Nothing`.
    Order(Event<'a>),
    /// Time passes: the first station that is silent for too long is to go.
    Tick,
    /// The BSSID is to start with its configuration, and with these lists of its list files.
    Configure {
        bssid: Bssid,
        accept: &'a AddressList,
        deny: &'a AddressList,
    },
}

/// Why a request is no entry and changes nothing but when a station was heard.
#[derive(Clone, Copy, Debug, PartialEq, Eq)]
pub enum QuietReason {
    /// The bytes are no frame for this BSSID.
    Ignored(Ignored),
    /// The BSSID is not configured.
    NoInterface,
    /// The BSSID has no policy row: it was not started.
    NoPolicy,
    /// The BSSID would be the ninth.
    TooManyBss,
    /// Nothing would change, and nothing leave.
    Nothing,
}

/// The event of a station that is silent for too long, if there is one.
pub fn expiry(due: Option<(Bssid, Addr)>) -> Result<Event<'static>, QuietReason>
    ensures { event_happening result ≡ expiry due }
{
    match due {
        Some((bssid, addr)) => Ok(Event::Expire { bssid, addr }),
        None => Err(QuietReason::Nothing),
    }
}

/// A control command's event; any other is none.
fn order(event: Event<'_>) -> Result<Event<'_>, QuietReason>
    ensures happening { event_happening result ≡ order_happening (happening event.entry) }
    ensures lists { IfOk result (λ event. HasLists (happening event)) }
{
    match event {
        Event::Kick { .. } | Event::ListEdit { .. } => Ok(event),
        Event::Heard(..) | Event::Expire { .. } | Event::Configure { .. } => {
            Err(QuietReason::Nothing)
        }
    }
}

/// The event of a request other than a tick, or why its frame is ignored; none of a tick.
pub fn event_said(input: Input<'_>) -> Option<Result<Event<'_>, QuietReason>>
    ensures happening { option_map event_happening result ≡ happening_said input.entry }
    ensures lists { IfSome result (λ said. IfOk said (λ event. HasLists (happening event))) }
{
    match input {
        Input::Received(bssid, bytes) => match decode(bytes, bssid) {
            Ok(frame) => Some(Ok(Event::Heard(bssid, frame))),
            Err(reason) => Some(Err(QuietReason::Ignored(reason))),
        },
        Input::Order(event) => Some(order(event)),
        Input::Tick => None,
        Input::Configure {
            bssid,
            accept,
            deny,
        } => Some(Ok(Event::Configure {
            bssid,
            accept: accept.as_slice(),
            deny: deny.as_slice(),
        })),
    }
}

/// Why there is no verdict on an event.
pub fn unfitness(table: &Table, confs: &Confs, event: Event<'_>) -> Option<QuietReason>
    ensures reason { result ≡ unfitness table.now confs.now (happening event.entry) }
    ensures fit { HasLists (happening event.entry) → IfNone result (IsFit table.now confs.now (happening event.entry)) }
{
    let bssid = event.bssid();
    if confs.with_bssid(bssid).is_none() {
        return Some(QuietReason::NoInterface);
    }
    if table.policy(bssid).is_some() {
        return None;
    }
    match event {
        Event::Heard(..) | Event::Kick { .. } | Event::ListEdit { .. } | Event::Expire { .. } =>
            Some(QuietReason::NoPolicy),
        Event::Configure { .. } if table.bss_count() >= MAX_BSS => Some(QuietReason::TooManyBss),
        Event::Configure { .. } => None,
    }
}

impl fmt::Display for QuietReason {
    fn fmt<W: fmt::Write>(&self, f: &mut fmt::Formatter<W>) -> fmt::Result {
        match self {
            QuietReason::Ignored(reason) => write!(f, "{reason}"),
            QuietReason::NoInterface => f.write_str("nointerface"),
            QuietReason::NoPolicy => f.write_str("nopolicy"),
            QuietReason::TooManyBss => f.write_str("toomanybss"),
            QuietReason::Nothing => f.write_str("nothing"),
        }
    }
}
