//! Commands, and what becomes of each at a BSSID.
ghost use Rattle.std.specs.Prelude.{◌≡◌};
ghost use Rattle.apd_event.specs.Happening.{Kick};
ghost use Rattle.apd_ctrl.specs.Placing.{Does, command_placing, placing};

use apd_base::{Addr, Bssid, Which};
use apd_event::{Edit, Event};
use apd_frame::Reason;

/// A command, as its words say it.
///
/// | Command | Words |
/// |---|---|
/// | `Ping` | `PING` |
/// | `Status` | `STATUS` |
/// | `Sta` | `STA <addr>` |
/// | `StaFirst` | `STA-FIRST` |
/// | `StaNext` | `STA-NEXT <addr>` |
/// | `Deauthenticate` | `DEAUTHENTICATE <addr>[ reason=<n>]` |
/// | `Disassociate` | `DISASSOCIATE <addr>[ reason=<n>]` |
/// | `ListEdit` | `ACCEPT_ACL` or `DENY_ACL`, then `ADD_MAC <addr>`, `DEL_MAC <addr>` or `CLEAR` |
/// | `Show` | `ACCEPT_ACL SHOW` or `DENY_ACL SHOW` |
///
/// Where no reason is given, it is 2: the authentication is no longer valid.
#[derive(Clone, Copy, Debug, PartialEq, Eq)]
pub enum Command {
    Ping,
    Status,
    Sta(Addr),
    StaFirst,
    StaNext(Addr),
    Deauthenticate { to: Addr, reason: Reason },
    Disassociate { to: Addr, reason: Reason },
    ListEdit { which: Which, edit: Edit },
    Show(Which),
}

/// A question, which changes nothing: whether the daemon answers, the status of a BSSID (and whether
/// its radio is up, as the asker knows), a station, the first one, the one after an address, and a
/// list.
#[derive(Clone, Copy, Debug, PartialEq, Eq)]
pub enum Query {
    Ping,
    Status(Bssid, bool),
    Sta(Bssid, Addr),
    First(Bssid),
    Next(Bssid, Addr),
    Show(Bssid, Which),
}

/// What becomes of a command: a query is answered at once, an event is decided and answered later.
#[derive(Clone, Copy, Debug, PartialEq, Eq)]
pub enum Placed {
    Ask(Query),
    Do(Event<'static>),
}

impl Query {
    ghost use Rattle.apd_ctrl.specs.Texts.{bssid_of};

    /// The BSSID that it is about; `None` for `Ping` alone. It takes no memory.
    pub fn bssid(self) -> Option<Bssid>
        ensures { result ≡ bssid_of self }
    {
        match self {
            Query::Ping => None,
            Query::Status(bssid, _)
            | Query::Sta(bssid, _)
            | Query::First(bssid)
            | Query::Next(bssid, _)
            | Query::Show(bssid, _) => Some(bssid),
        }
    }
}

fn kick(bssid: Bssid, to: Addr, reason: Reason, deauth: bool, tag: u64) -> Placed
    ensures { placing result ≡ Does (Kick bssid to reason deauth tag) }
{
    Placed::Do(Event::Kick {
        bssid,
        to,
        reason,
        deauth,
        tag,
    })
}

impl Command {
    /// The query or the event of a command at a BSSID. A status tells whether the radio is up; an
    /// event carries the tag, by which its reply is known. It takes no memory.
    pub fn at(self, bssid: Bssid, up: bool, tag: u64) -> Placed
        ensures { placing result ≡ command_placing self bssid up tag }
    {
        match self {
            Command::Ping => Placed::Ask(Query::Ping),
            Command::Status => Placed::Ask(Query::Status(bssid, up)),
            Command::Sta(addr) => Placed::Ask(Query::Sta(bssid, addr)),
            Command::StaFirst => Placed::Ask(Query::First(bssid)),
            Command::StaNext(addr) => Placed::Ask(Query::Next(bssid, addr)),
            Command::Show(which) => Placed::Ask(Query::Show(bssid, which)),
            Command::Deauthenticate { to, reason } => kick(bssid, to, reason, true, tag),
            Command::Disassociate { to, reason } => kick(bssid, to, reason, false, tag),
            Command::ListEdit { which, edit } => Placed::Do(Event::ListEdit {
                bssid,
                which,
                edit,
                tag,
            }),
        }
    }
}
