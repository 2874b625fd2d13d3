//! Lines that wait to be written.
ghost use Rattle.std.specs.Prelude.{◌≡◌, ◌+◌, ◌-◌, ◌^◌, ◌≤◌, ◌<◌, ◌++◌, [], IfOk, MatchBool, length, min, false};
ghost use Rattle.std.specs.String.{string_bytes, string_len, string_capacity};
ghost use Rattle.apd_program.specs.Waiting.{Keeps, Loses, Stays};

use std::alloc::{AllocError, Global};
use std::mem;

/// So many octets may wait.
pub(crate) const ROOM: usize = 65_536;

/// Memory for so many more is taken at first: for the line that tells of lost ones, and for a fault.
pub(crate) const MARGIN: usize = 4_096;

/// Text without anything in it, with memory for all that may wait.
pub(crate) fn empty_text(alloc: Global) -> Result<String, AllocError>
    ensures { IfOk result (λ text. string_bytes text ≡ []) }
{
    String::with_capacity(alloc, ROOM + MARGIN)
}

/// Lines that wait to be written, the oldest first, and how many came behind these and were lost.
#[derive(Drop)]
pub(crate) struct Lines {
    text: String,
    lost: u64,
    room: usize,
}

impl Lines {
    /// None waits, and none was lost.
    ///
    /// Errors: memory runs out.
    pub(crate) fn new(alloc: Global) -> Result<Lines, AllocError>
        ensures { IfOk result (λ lines. (string_bytes lines.text ≡ []) × (lines.lost ≡ 0) × (lines.room ≡ ROOM)) }
    {
        Ok(Lines {
            text: empty_text(alloc)?,
            lost: 0,
            room: ROOM,
        })
    }

    /// How many were lost behind those that wait.
    pub(crate) fn lost(&self) -> u64
        ensures { result ≡ self.now.lost }
    {
        self.lost
    }

    /// One more is lost. It is counted, to the greatest number.
    pub(crate) fn lose(&mut self)
        ensures lost { Loses self.old self.new }
        ensures room { self.new.room ≡ self.old.room }
    {
        self.lost = self.lost.saturating_add(1);
    }

    /// Puts a line behind those that wait. It is lost where it has no room, where memory runs out, and where one before it
    /// was lost. Tells whether it waits now.
    pub(crate) fn put(&mut self, line: &str) -> bool
        ensures cases { MatchBool result (Keeps self.old line.now self.new) (Loses self.old self.new) }
        ensures room { self.new.room ≡ self.old.room }
        ensures lost { result ≡ false → self.old.lost ≡ 0 → string_len self.old.text + length line.now ≤ self.old.room
            → string_capacity self.old.text < string_len self.old.text + length line.now }
    {
        let has_room = self.text.len().saturating_add(line.len()) <= self.room;
        let is_kept = self.lost == 0 && has_room && self.text.push_str(line).is_ok();
        if !is_kept {
            self.lose();
        }
        is_kept
    }

    /// Takes all that waits, the oldest first, in the place of what this text held.
    pub(crate) fn take(&mut self, taken: &mut String)
        ensures taken { string_bytes taken.new ≡ string_bytes self.old.text }
        ensures left { string_bytes self.new.text ≡ [] }
        ensures lost { self.new.lost ≡ self.old.lost }
        ensures room { self.new.room ≡ self.old.room }
    {
        taken.clear();
        mem::swap(&mut self.text, taken);
    }

    /// Puts a line that tells of the lost ones in their place; from then on there is room again, as before them. Tells
    /// whether it is there: where memory runs out, they stay counted.
    pub(crate) fn tell_lost(&mut self, line: &str) -> bool
        ensures cases { MatchBool result
            ((string_bytes self.new.text ≡ string_bytes self.old.text ++ line.now) × (self.new.lost ≡ 0))
            (Stays self.old self.new) }
        ensures room { self.new.room ≡ self.old.room }
    {
        let is_told = self.text.push_str(line).is_ok();
        if is_told {
            self.lost = 0;
        }
        is_told
    }

    /// From now on there is room for as much as there is memory for.
    pub(crate) fn widen(&mut self)
        ensures stays { Stays self.old self.new }
        ensures room { self.new.room ≡ 2 ^ 64 - 1 }
    {
        self.room = usize::MAX;
    }
}
