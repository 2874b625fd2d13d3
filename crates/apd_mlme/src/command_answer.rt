//! How control commands are answered (own).
ghost use Rattle.std.specs.Prelude.{◌≡◌, ◌∷◌, [], ◌++◌, IfOk, OnOk};
ghost use Rattle.apd_mlme.specs.rules.Commands.{text, text_of};

use crate::decision::{Out, Recipient};
use crate::draft::Draft;
use apd_base::Sequence;
use std::alloc::{AllocError, Global};

/// The answer to a control command.
#[derive(Clone, Copy, Debug, PartialEq, Eq)]
pub enum Answer {
    /// The command was obeyed.
    Done,
    /// It was not, and nothing changed.
    Refused,
}

impl Answer {
    /// Its text. It takes no memory.
    pub fn text(self) -> &'static [u8]
        ensures { result.now ≡ text_of self }
    {
        match self {
            Answer::Done => b"OK\n",
            Answer::Refused => b"FAIL\n",
        }
    }
}

/// The same decision, and last of all the answer to the command of this tag leaves.
pub(crate) fn with_answer(
    alloc: Global,
    tag: u64,
    answer: Answer,
    decision: Draft,
) -> Result<Draft, AllocError>
    ensures changes { IfOk result (λ d. d.changes ≡ decision.changes) }
    ensures outs { IfOk result (λ d. d.outs ≡ decision.outs ++ text tag answer ∷ []) }
{
    let mut decision = decision;
    let text = Sequence::from_vec(answer.text().to_vec(alloc)?);
    let out = (Recipient::Control, Out::Text(tag, text));
    decision.outs.push(out)?;
    Ok(decision)
}
