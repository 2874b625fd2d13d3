//! A disk that fails one call.
ghost use Rattle.std.specs.Prelude.{◌≡◌, ◌≤◌, ◌+◌, ℕ, length, None, Some, IsOk, IsErr};
ghost use Rattle.apd_disk.specs.Disk.{counting, inside, Counts, IsRead, IsSynced, IsWritten};
ghost use Rattle.apd_disk.specs.Faults.{sum_of, OnceCall};

use crate::fault::fail;
use crate::{Disk, DiskFault};

/// Fails one chosen call, which is not passed on, and passes on all others. Reads, writes and syncs count
/// alike.
#[derive(Drop)]
pub struct OnceDisk<D: Disk> {
    inner: D,
    // How many calls come before the one that fails; none once it has failed.
    before: Option<u64>,
    failures: u64,
}

impl<D: Disk> OnceDisk<D> {
    /// A disk that fails the call which comes after this many.
    pub fn new(inner: D, calls: u64) -> Self
        ensures inner { result.inner ≡ inner }
        ensures calls { result.before ≡ Some calls }
        ensures failures { result.failures ≡ 0 }
    {
        OnceDisk {
            inner,
            before: Some(calls),
            failures: 0,
        }
    }

    /// The disk inside, as the calls left it.
    pub fn into_inner(self) -> D
        ensures { result ≡ self.inner }
    {
        let OnceDisk {
            inner,
            before: _,
            failures: _,
        } = self;
        inner
    }

    // Counts a call, which is passed on but for the chosen one.
    fn pass(&mut self) -> Result<(), DiskFault>
        ensures inner { self.new.inner ≡ self.old.inner }
        ensures count { Counts self.old.failures self.new.failures result }
        ensures passed { (n : ℕ) → self.old.before ≡ Some (n + 1) → (self.new.before ≡ Some n) × IsOk result }
        ensures chosen { self.old.before ≡ Some 0 → (self.new.before ≡ None) × IsErr result }
        ensures later { self.old.before ≡ None → (self.new.before ≡ None) × IsOk result }
    {
        match self.before {
            None => Ok(()),
            Some(0) => {
                self.before = None;
                fail(&mut self.failures)
            }
            Some(calls) => {
                self.before = Some(calls - 1);
                Ok(())
            }
        }
    }
}

// A method with an `ensures` of its own has its clauses in place of the trait's. So each one here repeats
// the trait's record, of the disk inside, beside the clause that is its own (`passed`).
impl<D: Disk> Disk for OnceDisk<D> {
    ghost model = { counting (inside D.model (λ d. d.inner)) (λ d. sum_of (D.model.failed d.inner) d.failures) };

    ghost reads_may_be_left = { λ d h. D.reads_may_be_left d.inner h };

    ghost counts_now = { λ d t c h le left. D.counts_now d.inner t c h le left };

    ghost only_now = { λ d c h left. D.only_now d.inner c h left };

    ghost since_earlier = { λ d t u c h le left. D.since_earlier d.inner t u c h le left };

    ghost same_size = { λ d t c h left. D.same_size d.inner t c h left };

    fn len(&self) -> usize {
        self.inner.len()
    }

    fn failures(&self) -> u64 {
        self.inner.failures().saturating_add(self.failures)
    }

    fn read_at(&mut self, at: usize, buf: &mut [u8]) -> Result<(), DiskFault>
        requires { at + length buf.old ≤ D.model.size self.old.inner }
        ensures count { Counts (sum_of (D.model.failed self.old.inner) self.old.failures)
            (sum_of (D.model.failed self.new.inner) self.new.failures) result }
        ensures call { IsRead D.model self.old.inner self.new.inner result at buf.old buf.new }
        ensures passed { OnceCall D.model self.old.inner self.new.inner self.old.before self.new.before result }
    {
        self.pass()?;
        self.inner.read_at(at, buf)
    }

    fn write_at(&mut self, at: usize, bytes: &[u8]) -> Result<(), DiskFault>
        requires { at + length bytes.now ≤ D.model.size self.old.inner }
        ensures count { Counts (sum_of (D.model.failed self.old.inner) self.old.failures)
            (sum_of (D.model.failed self.new.inner) self.new.failures) result }
        ensures call { IsWritten D.model self.old.inner self.new.inner result at bytes.now }
        ensures passed { OnceCall D.model self.old.inner self.new.inner self.old.before self.new.before result }
    {
        self.pass()?;
        self.inner.write_at(at, bytes)
    }

    fn sync(&mut self) -> Result<(), DiskFault>
        ensures count { Counts (sum_of (D.model.failed self.old.inner) self.old.failures)
            (sum_of (D.model.failed self.new.inner) self.new.failures) result }
        ensures call { IsSynced D.model self.old.inner self.new.inner result }
        ensures passed { OnceCall D.model self.old.inner self.new.inner self.old.before self.new.before result }
    {
        self.pass()?;
        self.inner.sync()
    }
}
