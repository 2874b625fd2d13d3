//! Entries of a history: calls of the core.
ghost use Rattle.std.specs.Prelude.{◌≡◌};

use apd_core::Core;
use apd_mlme::Recipient;
use std::snapshot::Snapshot;

/// Which call of the core it is.
#[derive(Clone, Copy, Debug, PartialEq, Eq)]
pub enum Kind {
    /// A request is answered, and may be an entry.
    Submit,
    /// A batch is taken, to be committed.
    Take,
    /// A batch is settled by its receipt.
    Publish,
    /// Nothing is accepted any more.
    Fail,
    /// What is settled is handed out to a recipient.
    Hand(Recipient),
}

/// An entry of a history: a call of the core. A history is generic in it, since a struct is not proved to cross threads
/// where a field's type holds a core, and is where that type is a parameter which does.
pub trait Entry: Drop + Sized {
    ghost use Rattle.apd_history.specs.Chain.{call_of, Call};

    /// The call that it is.
    ghost call: { Self → Call };

    /// The entry of a call: of which kind it is, and the core before and after it.
    fn of(kind: Kind, before: Snapshot<Core>, core: &Core) -> Self
        ensures { call result ≡ call_of kind before.value core.now };
}

/// A call of the core, with the core before and after it, which cost no bytes.
#[derive(Drop)]
pub struct Change {
    kind: Kind,
    before: Snapshot<Core>,
    after: Snapshot<Core>,
}

impl Entry for Change {
    ghost use Rattle.apd_history.specs.Chain.{call_of};

    ghost call = { λ change. call_of change.kind change.before.value change.after.value };

    fn of(kind: Kind, before: Snapshot<Core>, core: &Core) -> Change {
        Change {
            kind,
            before,
            after: Snapshot::of(core),
        }
    }
}
