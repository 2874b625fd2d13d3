//! The addresses of a list file while its lines are read.
ghost use Rattle.std.specs.Prelude.{◌≡◌, ◌+◌, ◌<◌, ◌≤◌, List, [], ◌∷◌, ◌++◌, length, insert, remove, slice_range};
ghost use Rattle.std.specs.List.{remove_range};
ghost use Rattle.apd_base.specs.declared.limits.TheConstants.{MAX_LISTED};
ghost use Rattle.apd_base.specs.declared.address.Addr.{Addr as Address};

use apd_base::Addr;
use apd_base::limits::MAX_LISTED;
use std::marker::Model;

/// The addresses of the lines so far, as rows of a set: no more than a list may have. They lie in the value
/// itself, so that no line takes memory. Contracts see the rows.
#[derive(Drop)]
pub(crate) struct ListSoFar {
    rows: [(Addr, ()); MAX_LISTED],
    count: usize,
}

impl Model for ListSoFar {
    ghost use Rattle.std.specs.Prelude.{◌≡◌, ◌≤◌, List, length, take};
    ghost use Rattle.apd_base.specs.declared.address.Addr.{Addr};
    ghost use Rattle.apd_base.specs.declared.limits.TheConstants.{MAX_LISTED};

    ghost Value = { List (Addr × Unit {0}) };

    ghost view = { λ a. take a.count a.rows };

    ghost invariant = { λ a. (a.count ≤ MAX_LISTED) × (length a.rows ≡ MAX_LISTED) };
}

// Moves the last row to a place, and the rows from there on up.
fn last_to(rows: &mut [(Addr, ())], place: usize)
    requires { place < length rows.old }
    ensures { (front : List (Address × Unit {0})) (last : Address × Unit {0}) → rows.old ≡ front ++ last ∷ []
        → rows.new ≡ insert front place last }
{
    rows[place..].rotate_right(1);
}

// Moves the rows from `start` up to `end` behind the others.
fn move_to_end(rows: &mut [(Addr, ())], start: usize, end: usize)
    requires start { start ≤ end }
    requires end { end ≤ length rows.old }
    ensures { rows.new ≡ remove_range rows.old start end ++ slice_range rows.old start end }
{
    rows[start..].rotate_left(end - start);
}

impl ListSoFar {
    /// No address.
    pub(crate) fn new() -> ListSoFar
        ensures { result ≡ [] }
    {
        ListSoFar {
            rows: [(Addr([0; 6]), ()); MAX_LISTED],
            count: 0,
        }
    }

    /// The rows.
    pub(crate) fn as_slice(&self) -> &[(Addr, ())]
        ensures rows { result.now ≡ self.now }
        ensures few { length result.now ≤ MAX_LISTED }
    {
        &self.rows[..self.count]
    }

    /// Writes a row at a place, in front of what stands there.
    pub(crate) fn insert(&mut self, place: usize, addr: Addr)
        requires place { place ≤ length self.old }
        requires room { length self.old < MAX_LISTED }
        ensures { self.new ≡ insert self.old place (addr, tt) }
    {
        let count = self.count;
        self.rows[count] = (addr, ());
        self.count = count + 1;
        last_to(&mut self.rows[..count + 1], place);
    }

    /// Takes the row at a place out.
    pub(crate) fn remove(&mut self, place: usize)
        requires { place < length self.old }
        ensures { self.new ≡ remove self.old place }
    {
        let count = self.count;
        move_to_end(&mut self.rows[..count], place, place + 1);
        self.count = count - 1;
    }
}
