//! What a worker does that makes no progress.
ghost use Rattle.std.specs.Prelude.{◌≡◌, ◌≢◌, ◌≤◌, ◌+◌, ◌↔◌, min, false, IsTrue};
ghost use Rattle.apd_desk.specs.declared.idle.TheConstants.{LOOKS};

use std::thread::yield_now;

/// How often in a row an idle worker looks again before it waits.
pub(crate) const LOOKS: u32 = 200;

/// How many frames, outs or commands a worker takes in a turn at most, before it looks at anything else.
pub(crate) const AT_ONCE: u32 = 64;

/// How a turn of a worker went; the greater of two is how both went.
#[derive(Clone, Copy, Debug, PartialEq, Eq, PartialOrd, Ord)]
pub enum Progress {
    /// There was nothing to do.
    Nothing,
    /// Something met want of memory, or a fault, and is to be tried again.
    Short,
    /// Something was done, and there may be more to do.
    Made,
}

/// How often in a row a worker made no progress, up to the greatest number of looks.
#[derive(Debug, Drop)]
pub(crate) struct Idle {
    looks: u32,
}

impl Idle {
    pub(crate) fn new() -> Idle
        ensures { result.looks ≡ 0 }
    {
        Idle { looks: 0 }
    }

    /// A turn went so. After one without progress it lets others run. Tells whether it is time to wait, since there
    /// were as many in a row.
    pub(crate) fn rest(&mut self, progress: Progress) -> bool
        ensures made { progress ≡ Progress.Made → (result ≡ false) × (self.new.looks ≡ 0) }
        ensures over { progress ≢ Progress.Made → self.old.looks ≤ LOOKS → (IsTrue result ↔ (self.old.looks ≡ LOOKS)) }
        ensures looks { progress ≢ Progress.Made → self.old.looks ≤ LOOKS
            → self.new.looks ≡ min (self.old.looks + 1) LOOKS }
    {
        if progress == Progress::Made {
            self.looks = 0;
            return false;
        }
        if self.looks >= LOOKS {
            return true;
        }
        self.looks += 1;
        yield_now();
        false
    }
}
