//! Formatting: no version's magic stands while the heads of the halves are written.
ghost use Rattle.std.specs.Prelude.{◌≡◌, ◌≤◌, ◌+◌, ◌↔◌, ◌⊎◌, ℕ, false, length, take, IsTrue, OnOk, IfOk, IfErr};
ghost use Rattle.std.specs.List.{Contains};
ghost use Rattle.apd_base.specs.declared.limits.TheConstants.{DEVICE_LENGTH};
ghost use Rattle.apd_base.specs.State.{State, empty_state};
ghost use Rattle.apd_disk.specs.Disk.{Only, Counts, LeavesOnly};
ghost use Rattle.apd_journal.specs.declared.writer.TheConstants.{HALF_LENGTH};
ghost use Rattle.apd_store.specs.Formatting.{IsFormatted, IsNotFormatted};
ghost use Rattle.apd_store.specs.Image.{IsOverMark, MayBeMade};
ghost use Rattle.apd_store.specs.Layout.{blank_mark, BeginsBy, HasZeroGate, IsLaidOut, IsFound};
ghost use Rattle.apd_store.specs.declared.half.Half.TheVariants.{A};

use crate::fault::StoreFault;
use crate::half::{Half, START_A, START_B};
use crate::phase::Phase;
use crate::reading::{MAGIC, OLD_MAGIC};
use crate::store::Store;
use apd_base::limits::DEVICE_LENGTH;
use apd_disk::{Disk, DiskFault};
use std::alloc::Global;

// Open, with epoch 1, an empty snapshot and the first group's gate, which is closed.
const HEAD_A: [u8; 14] = [1, 1, 0, 0, 0, 0, 0, 0, 0, 0, 0, 0, 0, 0];

// Closed, with epoch 0 and an empty snapshot.
pub(crate) const HEAD_B: [u8; 13] = [0; 13];

// The marks of all versions.
const MARKS: [[u8; 8]; 2] = [MAGIC, OLD_MAGIC];

/// Whether these bytes are one of the marks.
fn is_mark(bytes: &[u8; 8], marks: &[[u8; 8]]) -> bool
    ensures { IsTrue result ↔ Contains marks.now bytes.now }
{
    marks.contains(bytes)
}

/// Writes zeros over a mark, where one of these stands.
fn unmark<D: Disk>(device: &mut D, marks: &[[u8; 8]]) -> Result<(), DiskFault>
    requires size { D.model.size device.old ≡ DEVICE_LENGTH }
    requires marks { ¬ Contains marks.now blank_mark }
    ensures size { D.model.size device.new ≡ D.model.size device.old }
    ensures count { Counts (D.model.failed device.old) (D.model.failed device.new) result }
    ensures was_honest { D.model.honest device.new → D.model.honest device.old }
    ensures calls { D.model.honest device.new → D.model.moment device.new ≤ D.model.moment device.old + 4 }
    ensures any_moment { D.model.honest device.new
        → LeavesOnly D.model device.old device.new (λ c. D.model.may_leave device.old c
        ⊎ IsOverMark marks.now (D.model.may_leave device.old) c) }
    ensures unmarked { D.model.honest device.new
        → OnOk result ((¬ Contains marks.now (take 8 (D.model.reads device.new)))
        × Only (D.model.reads device.new) (D.model.may_leave device.new)) }
{
    device.sync()?;
    let mut first = [0; 8];
    device.read_at(0, &mut first)?;
    if is_mark(&first, marks) {
        device.write_at(0, &[0; 8])?;
        device.sync()?;
    }
    Ok(())
}

/// Writes the heads of both halves. The first eight bytes stay.
fn write_heads<D: Disk>(device: &mut D, a: &[u8], b: &[u8]) -> Result<(), DiskFault>
    requires size { D.model.size device.old ≡ DEVICE_LENGTH }
    requires fits { (length a.now ≤ HALF_LENGTH) × (length b.now ≤ HALF_LENGTH) }
    ensures size { D.model.size device.new ≡ D.model.size device.old }
    ensures count { Counts (D.model.failed device.old) (D.model.failed device.new) result }
    ensures honest { D.model.honest device.old ↔ D.model.honest device.new }
    ensures calls { D.model.honest device.old → D.model.moment device.new ≤ D.model.moment device.old + 3 }
    ensures any_moment { D.model.honest device.old
        → Only (D.model.reads device.old) (D.model.may_leave device.old)
        → LeavesOnly D.model device.old device.new (λ c. take 8 c ≡ take 8 (D.model.reads device.old)) }
    ensures heads { (epoch gate : ℕ) (state : State) → D.model.honest device.old
        → Only (D.model.reads device.old) (D.model.may_leave device.old) → BeginsBy a.now epoch gate state → HasZeroGate b.now
        → OnOk result (IsLaidOut (D.model.reads device.new) epoch gate state
        × Only (D.model.reads device.new) (D.model.may_leave device.new)) }
{
    device.write_at(START_A, a)?;
    device.write_at(START_B, b)?;
    device.sync()
}

/// Writes the mark before the heads.
fn write_mark<D: Disk>(device: &mut D) -> Result<(), DiskFault>
    requires { D.model.size device.old ≡ DEVICE_LENGTH }
    ensures size { D.model.size device.new ≡ D.model.size device.old }
    ensures count { Counts (D.model.failed device.old) (D.model.failed device.new) result }
    ensures honest { D.model.honest device.old ↔ D.model.honest device.new }
    ensures calls { D.model.honest device.old → D.model.moment device.new ≤ D.model.moment device.old + 2 }
    ensures any_moment { (epoch gate : ℕ) (state : State) → D.model.honest device.old
        → IsLaidOut (D.model.reads device.old) epoch gate state
        → Only (D.model.reads device.old) (D.model.may_leave device.old)
        → LeavesOnly D.model device.old device.new (λ c. IsLaidOut c epoch gate state) }
    ensures found { (epoch gate : ℕ) (state : State) → D.model.honest device.old
        → IsLaidOut (D.model.reads device.old) epoch gate state
        → Only (D.model.reads device.old) (D.model.may_leave device.old)
        → OnOk result (IsFound (D.model.reads device.new) A epoch gate false state
        × Only (D.model.reads device.new) (D.model.may_leave device.new)) }
{
    device.write_at(0, &MAGIC)?;
    device.sync()
}

/// Lays out a store whose halves begin so, whatever state they are of: each part is at most four calls.
pub(crate) fn lay_out<D: Disk>(device: &mut D, a: &[u8], b: &[u8]) -> Result<(), DiskFault>
    requires size { D.model.size device.old ≡ DEVICE_LENGTH }
    requires fits { (length a.now ≤ HALF_LENGTH) × (length b.now ≤ HALF_LENGTH) }
    ensures size { D.model.size device.new ≡ D.model.size device.old }
    ensures count { Counts (D.model.failed device.old) (D.model.failed device.new) result }
    ensures was_honest { D.model.honest device.new → D.model.honest device.old }
    ensures calls { D.model.honest device.new → D.model.moment device.new ≤ D.model.moment device.old + 9 }
    ensures any_moment { (epoch gate : ℕ) (state : State) → D.model.honest device.new → BeginsBy a.now epoch gate state
        → HasZeroGate b.now
        → LeavesOnly D.model device.old device.new (MayBeMade state (D.model.may_leave device.old)) }
    ensures found { (epoch gate : ℕ) (state : State) → D.model.honest device.new → BeginsBy a.now epoch gate state
        → HasZeroGate b.now
        → OnOk result (IsFound (D.model.reads device.new) A epoch gate false state
        × Only (D.model.reads device.new) (D.model.may_leave device.new)) }
{
    unmark(device, &MARKS)?;
    write_heads(device, a, b)?;
    write_mark(device)
}

/// Lays out a new store of the empty table.
fn lay_out_empty<D: Disk>(device: &mut D) -> Result<(), DiskFault>
    requires { D.model.size device.old ≡ DEVICE_LENGTH }
    ensures size { D.model.size device.new ≡ D.model.size device.old }
    ensures count { Counts (D.model.failed device.old) (D.model.failed device.new) result }
    ensures was_honest { D.model.honest device.new → D.model.honest device.old }
    ensures calls { D.model.honest device.new → D.model.moment device.new ≤ D.model.moment device.old + 9 }
    ensures any_moment { D.model.honest device.new
        → LeavesOnly D.model device.old device.new (MayBeMade empty_state (D.model.may_leave device.old)) }
    ensures found { D.model.honest device.new
        → OnOk result (IsFound (D.model.reads device.new) A 1 13 false empty_state
        × Only (D.model.reads device.new) (D.model.may_leave device.new)) }
{
    lay_out(device, &HEAD_A, &HEAD_B)
}

/// Makes the device a store of the empty table, whatever it held, a store of version 1 too. A stop within it leaves
/// an image that could be left before, one of a store that could, with the magic of the other version in the place
/// of its own, one that is no store of either version, or one that shows the empty table in its version. It takes no
/// memory.
///
/// Errors, with the device handed back: `NotAStore` exactly where its length is not 2,097,216 bytes, and
/// nothing is then done; `Device` where it failed in this call. So it succeeds exactly where the length is
/// right and no call of the device failed: the count of failures is then as it was.
pub fn format<D: Disk>(alloc: Global, device: D) -> Result<Store<D>, (D, StoreFault)>
    ensures made { IfOk result (λ store. IsFormatted D.model device store) }
    ensures none { IfErr result (λ e. IsNotFormatted D.model device e.0 e.1) }
{
    let mut device = device;
    if device.len() != DEVICE_LENGTH as usize {
        return Err((device, StoreFault::NotAStore));
    }
    let Ok(()) = lay_out_empty(&mut device) else {
        return Err((device, StoreFault::Device));
    };
    Ok(Store::new(alloc, device, Half::A, 1, 13, false))
}
