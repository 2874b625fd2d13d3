//! A disk whose calls are counted.
ghost use Rattle.std.specs.Prelude.{◌≡◌};
ghost use Rattle.apd_disk.specs.Disk.{inside};

use apd_disk::{Disk, DiskFault};
use std::cell::Cell;

/// How many calls a disk served, and how many bytes were written by them.
#[derive(Clone, Copy)]
pub struct DiskWork {
    pub calls: u64,
    pub bytes: u64,
}

impl DiskWork {
    /// Nothing so far.
    pub const NONE: DiskWork = DiskWork { calls: 0, bytes: 0 };

    /// What came after these earlier counts.
    pub fn since(&self, earlier: DiskWork) -> DiskWork {
        DiskWork {
            calls: self.calls.saturating_sub(earlier.calls),
            bytes: self.bytes.saturating_sub(earlier.bytes),
        }
    }
}

/// The counts of a disk, for who doesn't hold the disk.
pub type Tally = Cell<DiskWork>;

// One more call, which writes so many bytes.
fn count(tally: &Tally, bytes: usize) {
    let DiskWork { calls, bytes: sum } = tally.get();
    tally.set(DiskWork {
        calls: calls.saturating_add(1),
        bytes: sum.saturating_add(bytes as u64),
    });
}

/// A disk that counts its calls, and else is the one inside.
#[derive(Drop)]
pub struct Counting<'a, D: Disk> {
    pub inner: D,
    pub tally: &'a Tally,
}

impl<D: Disk> Disk for Counting<'_, D> {
    ghost model = { inside D.model (λ d. d.inner) };

    ghost reads_may_be_left = { λ d h. D.reads_may_be_left d.inner h };

    ghost counts_now = { λ d t c h le left. D.counts_now d.inner t c h le left };

    ghost only_now = { λ d c h left. D.only_now d.inner c h left };

    ghost since_earlier = { λ d t u c h le left. D.since_earlier d.inner t u c h le left };

    ghost same_size = { λ d t c h left. D.same_size d.inner t c h left };

    fn len(&self) -> usize {
        self.inner.len()
    }

    fn failures(&self) -> u64 {
        self.inner.failures()
    }

    fn read_at(&mut self, at: usize, buf: &mut [u8]) -> Result<(), DiskFault> {
        count(self.tally, 0);
        self.inner.read_at(at, buf)
    }

    fn write_at(&mut self, at: usize, bytes: &[u8]) -> Result<(), DiskFault> {
        count(self.tally, bytes.len());
        self.inner.write_at(at, bytes)
    }

    fn sync(&mut self) -> Result<(), DiskFault> {
        count(self.tally, 0);
        self.inner.sync()
    }
}
