//! Recovery: from a device to a store and its table.
ghost use Rattle.std.specs.Prelude.{◌≡◌, ◌≢◌, ◌≤◌, ◌+◌, ◌⊎◌, length, OnOk, IfOk, IfErr, OnErr, IsErrOf, Err};
ghost use Rattle.apd_base.specs.declared.limits.TheConstants.{DEVICE_LENGTH};
ghost use Rattle.apd_base.specs.Failures.{HasRisen};
ghost use Rattle.apd_disk.specs.Disk.{Only, LeavesOnly};
ghost use Rattle.apd_store.specs.Recovery.{HasFailedToSync, IsNotRecovered, IsRecovered};

use crate::fault::StoreFault;
use crate::phase::Phase;
use crate::reading::{Found, read_image};
use crate::store::Store;
use apd_base::limits::DEVICE_LENGTH;
use apd_disk::Disk;
use apd_table::Table;
use std::alloc::{AllocError, Global};

// No clause says what the bytes are: a proof would go through all of them.
fn zero_bytes(alloc: Global, size: usize) -> Result<Vec<u8>, AllocError>
    ensures { IfOk result (λ bytes. length bytes.items ≡ size) }
{
    vec![in alloc; 0u8; size]
}

/// All bytes of a store's device, after a sync.
pub(crate) fn read_device<D: Disk>(alloc: Global, device: &mut D) -> Result<Vec<u8>, StoreFault>
    ensures size { D.model.size device.new ≡ D.model.size device.old }
    ensures was_honest { D.model.honest device.new → D.model.honest device.old }
    ensures length { IfOk result (λ bytes. length bytes.items ≡ DEVICE_LENGTH) }
    ensures right_length { OnOk result (D.model.size device.old ≡ DEVICE_LENGTH) }
    ensures bytes { D.model.honest device.new → IfOk result (λ bytes. bytes.items ≡ D.model.reads device.old) }
    ensures reads { D.model.honest device.old → OnOk result (D.model.reads device.new ≡ D.model.reads device.old) }
    ensures durable { D.model.honest device.new → result ≢ Err StoreFault.Device
        → Only (D.model.reads device.old) (D.model.may_leave device.new) }
    ensures durable_first { D.model.honest device.new → result ≡ Err StoreFault.Device
        → Only (D.model.reads device.old) (D.model.may_leave device.new)
        ⊎ HasFailedToSync D.model device.old device.new }
    ensures calls { D.model.honest device.old → D.model.moment device.new ≤ D.model.moment device.old + 2 }
    ensures any_moment { D.model.honest device.old
        → LeavesOnly D.model device.old device.new (D.model.may_leave device.old) }
    ensures not_a_store { result ≡ Err StoreFault.NotAStore → D.model.size device.old ≢ DEVICE_LENGTH }
    ensures memory { result ≡ Err StoreFault.NoMemory → D.model.size device.old ≡ DEVICE_LENGTH }
    ensures count { D.model.failed device.old ≤ D.model.failed device.new }
    ensures no_fault { result ≢ Err StoreFault.Device → D.model.failed device.new ≡ D.model.failed device.old }
    ensures device { IsErrOf result StoreFault.Device → HasRisen (D.model.failed device.old) (D.model.failed device.new) }
    ensures only { OnErr result ((result ≡ Err StoreFault.NotAStore) ⊎ (result ≡ Err StoreFault.Device)
        ⊎ (result ≡ Err StoreFault.NoMemory)) }
{
    let Ok(()) = device.sync() else {
        return Err(StoreFault::Device);
    };
    let length = device.len();
    if length != DEVICE_LENGTH as usize {
        return Err(StoreFault::NotAStore);
    }
    let Ok(mut bytes) = zero_bytes(alloc, length) else {
        return Err(StoreFault::NoMemory);
    };
    let Ok(()) = device.read_at(0, &mut bytes) else {
        return Err(StoreFault::Device);
    };
    Ok(bytes)
}

/// The store that a device holds, and the table of what it has committed. It begins with a sync, and writes
/// nothing; a stop within it leaves what could be left before. It takes memory for the device's bytes and for
/// the table, and reads each byte of the device once.
///
/// Errors, with the device handed back: `NotAStore` where the length differs, or the magic is that of no version;
/// `OldVersion` where it is that of version 1; else `Damaged` where the bytes show no state; `Device` where the
/// device failed in this call; `NoMemory`. Where a stop left one image before the call, as after a sync, it leaves
/// that one after any of them; and so it does where the sync with which this call began succeeded, also where the
/// read behind it failed.
pub fn recover<D: Disk>(alloc: Global, device: D) -> Result<(Store<D>, Table), (D, StoreFault)>
    ensures found { IfOk result (λ found. IsRecovered D.model device found.0 found.1) }
    ensures none { IfErr result (λ e. IsNotRecovered D.model device e.0 e.1) }
{
    let mut device = device;
    let bytes = match read_device(alloc, &mut device) {
        Ok(bytes) => bytes,
        Err(fault) => return Err((device, fault)),
    };
    match read_image(alloc, &bytes) {
        Ok(found) => {
            let Found {
                half,
                epoch,
                gate,
                other_open,
                table,
                ..
            } = found;
            Ok((
                Store::new(alloc, device, half, epoch, gate, other_open),
                table,
            ))
        }
        Err(fault) => Err((device, fault)),
    }
}
