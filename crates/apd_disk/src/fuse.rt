//! A disk that fails for good after some calls.
ghost use Rattle.std.specs.Prelude.{◌≡◌, ◌≤◌, ◌+◌, length, take, drop, Some, ◌⊎◌};
ghost use Rattle.apd_base.specs.Failures.{HasRisen};
ghost use Rattle.apd_disk.specs.Disk.{counting, inside, with_bytes, IsRead, IsSynced, IsWritten, Only, Counts};
ghost use Rattle.apd_disk.specs.Faults.{sum_of, FuseCall};

use crate::fault::fail;
use crate::{Disk, DiskFault};

/// Passes some calls on. The next is passed on too, and answered as failed; later ones are failed and not
/// passed on. Reads, writes and syncs count alike.
#[derive(Drop)]
pub struct FuseDisk<D: Disk> {
    inner: D,
    // How many calls are still passed on before the one that fails; none once it has failed.
    passes: Option<u64>,
    // The calls that failed here, whatever the inner disk did: where it failed the same call, both count.
    failures: u64,
}

impl<D: Disk> FuseDisk<D> {
    /// A fuse that passes this many calls before the one that fails.
    pub fn new(inner: D, calls: u64) -> Self
        ensures inner { result.inner ≡ inner }
        ensures calls { result.passes ≡ Some calls }
        ensures failures { result.failures ≡ 0 }
    {
        FuseDisk {
            inner,
            passes: Some(calls),
            failures: 0,
        }
    }

    /// The disk inside, as the calls left it.
    pub fn into_inner(self) -> D
        ensures { result ≡ self.inner }
    {
        let FuseDisk {
            inner,
            passes: _,
            failures: _,
        } = self;
        inner
    }
}

// A method with an `ensures` of its own has its clauses in place of the trait's. So each one here repeats
// the trait's record, of the disk inside, beside the clause that is its own (`passed`, `passed_on`).
impl<D: Disk> Disk for FuseDisk<D> {
    ghost model = { counting (inside D.model (λ d. d.inner)) (λ d. sum_of (D.model.failed d.inner) d.failures) };

    ghost reads_may_be_left = { λ d h. D.reads_may_be_left d.inner h };

    ghost counts_now = { λ d t c h le left. D.counts_now d.inner t c h le left };

    ghost only_now = { λ d c h left. D.only_now d.inner c h left };

    ghost since_earlier = { λ d t u c h le left. D.since_earlier d.inner t u c h le left };

    ghost same_size = { λ d t c h left. D.same_size d.inner t c h left };

    fn len(&self) -> usize {
        self.inner.len()
    }

    fn failures(&self) -> u64 {
        self.inner.failures().saturating_add(self.failures)
    }

    fn read_at(&mut self, at: usize, buf: &mut [u8]) -> Result<(), DiskFault>
        requires { at + length buf.old ≤ D.model.size self.old.inner }
        ensures count { Counts (sum_of (D.model.failed self.old.inner) self.old.failures)
            (sum_of (D.model.failed self.new.inner) self.new.failures) result }
        ensures call { IsRead D.model self.old.inner self.new.inner result at buf.old buf.new }
        ensures passed { FuseCall D.model self.old.inner self.new.inner self.old.passes self.new.passes result }
        ensures passed_on { D.model.honest self.new.inner → self.old.passes ≡ Some 0
            → (buf.new ≡ take (length buf.old) (drop at (D.model.reads self.old.inner)))
            ⊎ HasRisen (D.model.failed self.old.inner) (D.model.failed self.new.inner) }
    {
        match self.passes {
            Some(0) => {
                self.passes = None;
                let _ = self.inner.read_at(at, buf);
                fail(&mut self.failures)
            }
            Some(calls) => {
                self.passes = Some(calls - 1);
                self.inner.read_at(at, buf)
            }
            None => fail(&mut self.failures),
        }
    }

    fn write_at(&mut self, at: usize, bytes: &[u8]) -> Result<(), DiskFault>
        requires { at + length bytes.now ≤ D.model.size self.old.inner }
        ensures count { Counts (sum_of (D.model.failed self.old.inner) self.old.failures)
            (sum_of (D.model.failed self.new.inner) self.new.failures) result }
        ensures call { IsWritten D.model self.old.inner self.new.inner result at bytes.now }
        ensures passed { FuseCall D.model self.old.inner self.new.inner self.old.passes self.new.passes result }
        ensures passed_on { D.model.honest self.old.inner → self.old.passes ≡ Some 0
            → (D.model.reads self.new.inner ≡ with_bytes (D.model.reads self.old.inner) at bytes.now)
            ⊎ HasRisen (D.model.failed self.old.inner) (D.model.failed self.new.inner) }
    {
        match self.passes {
            Some(0) => {
                self.passes = None;
                let _ = self.inner.write_at(at, bytes);
                fail(&mut self.failures)
            }
            Some(calls) => {
                self.passes = Some(calls - 1);
                self.inner.write_at(at, bytes)
            }
            None => fail(&mut self.failures),
        }
    }

    fn sync(&mut self) -> Result<(), DiskFault>
        ensures count { Counts (sum_of (D.model.failed self.old.inner) self.old.failures)
            (sum_of (D.model.failed self.new.inner) self.new.failures) result }
        ensures call { IsSynced D.model self.old.inner self.new.inner result }
        ensures passed { FuseCall D.model self.old.inner self.new.inner self.old.passes self.new.passes result }
        ensures passed_on { D.model.honest self.old.inner → self.old.passes ≡ Some 0
            → Only (D.model.reads self.old.inner) (D.model.may_leave self.new.inner)
            ⊎ HasRisen (D.model.failed self.old.inner) (D.model.failed self.new.inner) }
    {
        match self.passes {
            Some(0) => {
                self.passes = None;
                let _ = self.inner.sync();
                fail(&mut self.failures)
            }
            Some(calls) => {
                self.passes = Some(calls - 1);
                self.inner.sync()
            }
            None => fail(&mut self.failures),
        }
    }
}
