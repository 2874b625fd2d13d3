//! A decision while it is made.
ghost use Rattle.std.specs.Prelude.{◌≡◌, [], ◌∷◌, IfOk};
ghost use Rattle.apd_record.specs.Ranges.{AreChanges};
ghost use Rattle.apd_mlme.specs.Outs.{reply_out};

use crate::decision::{Decision, Out, Recipient, reply_out};
use apd_base::Sequence;
use apd_frame::Reply;
use apd_record::Changes;
use std::alloc::{AllocError, Global};

/// What an event brings about so far. Its changes are known by their type, one by one as they come.
#[derive(Drop)]
pub struct Draft {
    pub changes: Changes,
    pub outs: Sequence<(Recipient, Out)>,
}

impl Draft {
    /// Nothing changes and nothing leaves. It takes no memory.
    pub fn nothing(alloc: Global) -> Draft
        ensures changes { result.changes ≡ [] }
        ensures outs { result.outs ≡ [] }
    {
        Draft {
            changes: Changes::new(alloc),
            outs: Sequence::new(alloc),
        }
    }

    /// Nothing changes, and one frame leaves.
    pub fn only_reply(alloc: Global, reply: &Reply) -> Result<Draft, AllocError>
        ensures changes { IfOk result (λ d. d.changes ≡ []) }
        ensures outs { IfOk result (λ d. d.outs ≡ reply_out reply.now ∷ []) }
    {
        let mut draft = Draft::nothing(alloc);
        draft.outs.push(reply_out(alloc, reply)?)?;
        Ok(draft)
    }

    /// The decision. It takes no memory.
    pub fn into_decision(self) -> Decision
        ensures changes { result.changes ≡ self.changes }
        ensures outs { result.outs ≡ self.outs }
        ensures known { AreChanges self.changes }
    {
        let Draft { changes, outs } = self;
        let changes = Sequence::from_vec(changes.into_vec());
        Decision { changes, outs }
    }
}
