//! What is asked of cores, and what they tell. `None` is want of memory.
use apd_base::{Addr, Bssid, Moment};
use apd_conf::{AddressList, Conf, Confs};
use apd_core::{Accepted, Core, Input, QuietReason};
use apd_ctrl::Query;
use apd_journal::Batch;
use apd_mlme::Recipient;
use apd_table::Table;
use std::alloc::Global;

/// The BSSID of the built-in configuration.
pub(crate) const RADIO: Bssid = Bssid(Addr([2, 0, 0, 0, 0, 1]));

/// A request of 02:00:00:00:00:aa for Open System authentication.
pub(crate) const AUTHENTICATION: &[u8] = &[
    0xb0, 0, 0, 0, 2, 0, 0, 0, 0, 1, 2, 0, 0, 0, 0, 0xaa, 2, 0, 0, 0, 0, 1, 0, 0, 0, 0, 1, 0, 0, 0,
];

/// An association request of 02:00:00:00:00:aa: capability 0x0431, listen interval 10, the network "net" and four
/// rates.
pub(crate) const ASSOCIATION: &[u8] = &[
    0, 0, 0, 0, 2, 0, 0, 0, 0, 1, 2, 0, 0, 0, 0, 0xaa, 2, 0, 0, 0, 0, 1, 0x20, 0, 0x31, 4, 10, 0,
    0, 3, b'n', b'e', b't', 1, 4, 0x82, 0x84, 0x8b, 0x96,
];

const AUTHENTICATED: &[u8] =
    b"02:00:00:00:00:aa\nflags=[AUTH]\naid=0\ncapability=0x0\nlisten_interval=0\n";

const ASSOCIATED: &[u8] =
    b"02:00:00:00:00:aa\nflags=[AUTH][ASSOC][AUTHORIZED]\naid=1\ncapability=0x431\nlisten_interval=10\n";

/// What is told, by a word and the number that goes with it, else 0.
pub(crate) type Told = (&'static str, u64);

/// A core of a table and of configurations, whose rows were heard at moment 0.
pub(crate) fn core_of(alloc: Global, table: Table, list: Vec<Conf>) -> Option<Core> {
    let (table, confs) = Some(table).zip(Confs::new(list).ok())?;
    Core::new(alloc, table, confs, Moment(0)).ok()
}

/// A core of the built-in configuration, whose radio was not started.
pub(crate) fn new_core(alloc: Global) -> Option<Core> {
    let mut list = Vec::new(alloc);
    list.push(Conf::built_in(alloc).ok()?).ok()?;
    core_of(alloc, Table::new(alloc), list)
}

fn in_short(answer: Accepted<'_>) -> Told {
    match answer {
        Accepted::Stopped => ("stopped", 0),
        Accepted::Busy => ("busy", 0),
        Accepted::Quiet(QuietReason::Nothing) => ("nothing", 0),
        Accepted::Quiet(_) => ("quiet", 0),
        Accepted::Entry(ticket) => ("entry", ticket.number()),
    }
}

/// Asks a core at a moment, in milliseconds.
pub(crate) fn ask(core: &mut Core, input: Input<'_>, moment: u64) -> Option<Told> {
    Some(in_short(core.accept(input, Moment(moment)).ok()?))
}

/// The radio starts with no address on its lists.
pub(crate) fn start(alloc: Global, core: &mut Core) -> Option<Told> {
    let none = AddressList::new(alloc);
    let input = Input::Configure {
        bssid: RADIO,
        accept: &none,
        deny: &none,
    };
    ask(core, input, 0)
}

/// How many outs a recipient is handed.
pub(crate) fn hand(core: &mut Core, to: Recipient) -> Option<Told> {
    Some(("outs", core.hand(to).ok()?.len() as u64))
}

/// The batch that a core gives.
pub(crate) fn take_batch(core: &mut Core) -> Option<Batch> {
    match core.take() {
        Ok(batch) => batch,
        Err(_) => None,
    }
}

fn word_of(text: &[u8]) -> &'static str {
    if text == AUTHENTICATED {
        "authenticated"
    } else if text == ASSOCIATED {
        "associated"
    } else {
        "another text"
    }
}

/// What is told of the radio's first station, and up to which entry it speaks.
pub(crate) fn first(core: &Core) -> Option<Told> {
    let answer = core.read(Query::First(RADIO)).ok()?;
    Some((word_of(answer.text()), answer.number()))
}
