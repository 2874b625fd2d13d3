//! What is known of a file, which only clauses read.
ghost use Rattle.std.specs.Prelude.{◌≡◌, ℕ, List, [], ◌∷◌, length, get_or};
ghost use Rattle.std.specs.Borrow.{ftrue};
ghost use Rattle.apd_disk.specs.FileCalls.{FileCall, call_of};

use std::marker::{Model, PhantomData};

/// What a file held, all of it durable, when power last came on; each call of it since with its answer, the newest first;
/// and what a call leaves that fails. No memory holds it and no code can read it: what is proved of a file with a record
/// is proved of each record.
#[derive(Drop)]
pub struct FileRecord {
    marker: PhantomData<u8>,
    pub ghost held: { List ℕ },
    pub ghost calls: { List FileCall },
    // What the call of this number leaves, if it fails: a write the first of these, a sync one of each write that it
    // was to make durable, the newest first.
    pub ghost left: { List (List (List ℕ)) },
}

impl Model for FileRecord {
    ghost also_owns = { λ _. ftrue };
}

// It owns nothing.
unsafe impl Send for FileRecord {}

impl FileRecord {
    /// A file of which no call is known. No clause says what it held.
    pub fn new() -> FileRecord
        ensures { result.calls ≡ [] }
    {
        FileRecord {
            marker: PhantomData,
        }
    }

    /// Which call it was, and its place; and the bytes that it gave or wrote.
    pub(crate) fn note(&mut self, _numbers: &[u64], _bytes: &[u8])
        ensures { self.new ≡ record self.old {
          calls = call_of (get_or self.old.left (length self.old.calls) []) _numbers.now _bytes.now ∷ self.old.calls;
        } }
    {}
}
