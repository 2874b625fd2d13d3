//! The outs held for one recipient.
ghost use Rattle.std.specs.Prelude.{◌≡◌, ◌≤◌, ℕ, ◌∷◌, ◌++◌, [], length, nat_le, reverse, slice_get, OnOk, OnErr, MatchOption};
ghost use Rattle.std.specs.List.{take_while};
ghost use Rattle.std.specs.Option.{option_map};
ghost use Rattle.apd_core.specs.Held.{up_to, IsInOrder};
ghost use Rattle.apd_core.specs.for_proofs.TakingBack.{before};

use apd_mlme::Out;
use std::alloc::{AllocError, Global};
use std::collections::VecDeque;
use std::marker::Model;

/// Outs in order, each with the number of its entry. Contracts see the list.
#[derive(Drop)]
pub(crate) struct Queue {
    outs: VecDeque<(u64, Out)>,
}

impl Model for Queue {
    ghost use Rattle.std.specs.Prelude.{ℕ, List};
    ghost use Rattle.apd_mlme.specs.declared.decision.Out.{Out};

    ghost Value = { List (ℕ × Out) };

    ghost view = { λ a. a.outs.items };
}

impl Queue {
    /// No out. It takes no memory.
    pub(crate) fn new(alloc: Global) -> Queue
        ensures { result ≡ [] }
    {
        Queue {
            outs: VecDeque::new(alloc),
        }
    }

    /// Adds an out at the end, or leaves the queue as it was.
    pub(crate) fn push(&mut self, number: u64, out: Out) -> Result<(), AllocError>
        ensures ok { OnOk result (self.new ≡ self.old ++ (number, out) ∷ []) }
        ensures err { OnErr result (self.new ≡ self.old) }
    {
        self.outs.push_back((number, out))?;
        Ok(())
    }

    // Takes the first out.
    fn pop(&mut self) -> Option<(u64, Out)>
        ensures { MatchOption result ((self.old ≡ []) × (self.new ≡ [])) (λ first. self.old ≡ first ∷ self.new) }
    {
        self.outs.pop_front()
    }

    // The number of the entry of the first out.
    fn first(&self) -> Option<u64>
        ensures { result ≡ option_map (λ x. x.0) (slice_get self.now 0) }
    {
        self.outs.front().map(|out| out.0)
    }

    /// Takes the first out, if it is of an entry up to the number. It takes no memory.
    pub(crate) fn pop_up_to(&mut self, number: u64) -> Option<(u64, Out)>
        requires { IsInOrder self.old }
        ensures { MatchOption result ((up_to number self.old ≡ []) × (self.new ≡ self.old))
            (λ first. (self.old ≡ first ∷ self.new) × (first.0 ≤ number)) }
    {
        let Some(first) = self.first() else {
            return None;
        };
        if first > number {
            return None;
        }
        self.pop()
    }

    /// How many outs at the front are of entries up to the number.
    pub(crate) fn count_up_to(&self, number: u64) -> usize
        ensures { result ≡ length (take_while (λ x. nat_le x.0 number) self.now) }
    {
        self.outs.iter().take_while(|out| out.0 <= number).count()
    }

    // How many outs at the end are of entries from the number on.
    fn count_from(&self, number: u64) -> usize
        ensures { result ≡ length (take_while (λ x. nat_le number x.0) (reverse self.now)) }
    {
        self.outs
            .iter()
            .rev()
            .take_while(|out| out.0 >= number)
            .count()
    }

    /// Takes back the outs of entries from the number on, which stand at the end. It takes no memory.
    pub(crate) fn take_back(&mut self, number: u64)
        requires { IsInOrder self.old }
        ensures { self.new ≡ before number self.old }
    {
        let last = self.count_from(number);
        self.outs.truncate(self.outs.len() - last);
    }
}
