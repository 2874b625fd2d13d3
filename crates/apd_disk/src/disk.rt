//! A disk by what a read gives and what a stop may leave. All of it but the length, the count of failures and what
//! becomes of the disk is said of an honest disk alone.
ghost use Rattle.std.specs.Prelude.{◌≡◌, ◌≤◌, ◌+◌, List, ℕ, length};
ghost use Rattle.apd_disk.specs.Disk.{Counts, DiskModel, IsRead, IsSynced, IsWritten};

use crate::DiskFault;

/// A device of a fixed number of bytes. An image is the list of all its bytes.
pub trait Disk {
    /// What is meant by such a disk: whether it keeps what is said below, what a read gives, what a stop may
    /// leave, its moment, its size, how often it has failed, and what becomes of it by calls.
    ghost model: { DiskModel Self };

    /// The number of bytes, which no call changes.
    fn len(&self) -> usize
        ensures { result ≡ model.size self.now };

    /// How often the device has failed. A call that succeeds leaves the count, and one that fails raises it;
    /// at 2^64 - 1 it stays.
    fn failures(&self) -> u64
        ensures { result ≡ model.failed self.now };

    /// Fills `buf` with the bytes from `at` on. The range lies inside the device.
    ///
    /// Errors: only where the device failed in this call; `buf` may then hold anything.
    fn read_at(&mut self, at: usize, buf: &mut [u8]) -> Result<(), DiskFault>
        requires { at + length buf.old ≤ model.size self.old }
        ensures count { Counts (model.failed self.old) (model.failed self.new) result }
        ensures call { IsRead model self.old self.new result at buf.old buf.new };

    /// Writes the bytes from `at` on. The range lies inside the device. Failed or not, a stop may leave any
    /// bytes in the range until a sync succeeds.
    ///
    /// Errors: only where the device failed in this call.
    fn write_at(&mut self, at: usize, bytes: &[u8]) -> Result<(), DiskFault>
        requires { at + length bytes.now ≤ model.size self.old }
        ensures count { Counts (model.failed self.old) (model.failed self.new) result }
        ensures call { IsWritten model self.old self.new result at bytes.now };

    /// Makes what was written durable: where it succeeds, a stop leaves what a read gives.
    ///
    /// Errors: only where the device failed in this call.
    fn sync(&mut self) -> Result<(), DiskFault>
        ensures count { Counts (model.failed self.old) (model.failed self.new) result }
        ensures call { IsSynced model self.old self.new result };

    /// What a read gives, a stop may leave.
    ghost reads_may_be_left: { (disk : Self) → model.honest disk → model.may_leave disk (model.reads disk) };

    /// This moment is one of those since an earlier one.
    ghost counts_now: { (disk : Self) (t : ℕ) (c : List ℕ) → model.honest disk → t ≤ model.moment disk → model.may_leave disk c
        → model.left_since disk t c };

    /// Since this moment there is no other.
    ghost only_now: { (disk : Self) (c : List ℕ) → model.honest disk → model.left_since disk (model.moment disk) c → model.may_leave disk c };

    /// A stop since a later moment is one since an earlier moment.
    ghost since_earlier: { (disk : Self) (t u : ℕ) (c : List ℕ) → model.honest disk → t ≤ u → model.left_since disk u c
        → model.left_since disk t c };

    /// Each image has the disk's length.
    ghost same_size: { (disk : Self) (t : ℕ) (c : List ℕ) → model.honest disk → model.left_since disk t c → length c ≡ model.size disk };
}
