//! Lists that only clauses read.
ghost use Rattle.std.specs.Prelude.{◌≡◌, List, [], ◌∷◌, ◌++◌};
ghost use Rattle.std.specs.Borrow.{ftrue};

use apd_base::Sequence;
use std::marker::{Model, PhantomData};

/// A list of which no memory holds anything and no code can read anything.
#[derive(Drop)]
pub struct GhostList<T> {
    marker: PhantomData<T>,
    pub ghost items: { List T },
}

impl<T> Model for GhostList<T> {
    ghost also_owns = { λ _. ftrue };
}

// It owns nothing.
unsafe impl<T: Send> Send for GhostList<T> {}

/// What can be noted in a list of `T`.
pub trait Shows<T> {
    /// The item that it is.
    ghost shown: { Self → T };
}

impl<'a> Shows<Sequence<u8>> for &'a [u8] {
    ghost shown = { λ bytes. bytes.now };
}

impl<'a, K> Shows<(K, Sequence<u8>)> for (K, &'a [u8]) {
    ghost shown = { λ pair. (pair.0, pair.1.now) };
}

// What a list is made of.
trait Lists<T> {
    ghost listed: { Self → List T };
}

#[derive(Drop)]
struct Nothing;

impl<T> Lists<T> for Nothing {
    ghost listed = { λ _. [] };
}

// A list with one item more.
#[derive(Drop)]
struct Longer<'a, T, X> {
    list: &'a GhostList<T>,
    item: &'a X,
}

impl<'a, T, X: Shows<T>> Lists<T> for Longer<'a, T, X> {
    ghost listed = { λ longer. longer.list.now.items ++ X.shown longer.item.now ∷ [] };
}

impl<T> GhostList<T> {
    // Its items are what this value lists.
    fn of<X: Lists<T>>(_listing: &X) -> GhostList<T>
        ensures { result.items ≡ X.listed _listing.now }
    {
        GhostList {
            marker: PhantomData,
        }
    }

    /// No item.
    pub fn new() -> GhostList<T>
        ensures { result.items ≡ [] }
    {
        GhostList::of(&Nothing)
    }

    /// Notes one item more, behind the others.
    pub fn note<X: Shows<T>>(&mut self, item: &X)
        ensures { self.new ≡ record self.old { items = self.old.items ++ X.shown item.now ∷ [] } }
    {
        *self = GhostList::of(&Longer { list: self, item });
    }
}
