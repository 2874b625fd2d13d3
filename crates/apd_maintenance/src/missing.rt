//! A store that is made only where there is none: `apd format --missing STORE`.
ghost use Rattle.std.specs.Prelude.{◌≡◌, ◌≢◌, ◌≤◌, ◌+◌, ◌⊎◌, ◌↔◌, length, Err, IfErr, IfOk, IsErrOf, IsTrue, MatchResult, OnErr, OnOk};
ghost use Rattle.std.specs.Io.KnownBytes.{Keeps};
ghost use Rattle.apd_base.specs.Failures.{HasRisen};
ghost use Rattle.apd_base.specs.declared.limits.TheConstants.{DEVICE_LENGTH};
ghost use Rattle.apd_disk.specs.Disk.{LeavesOnly};
ghost use Rattle.apd_maintenance.specs.Missing.{AreZeros, IsContent, IsThere, IsWrittenOverZerosAlone};

use crate::formatting::{FormatFault, run_format};
use apd_base::limits::DEVICE_LENGTH;
use apd_disk::Disk;
use apd_store::{MAGIC, OLD_MAGIC, StoreFault};
use std::alloc::{AllocError, Global};
use std::io::Write;

/// What the bytes of a store's length are.
#[derive(Clone, Copy, Debug, PartialEq, Eq)]
enum Content {
    /// They begin with the mark of a store, of whatever version.
    Store,
    /// All of them are zero.
    Zeros,
    /// Anything else.
    Other,
}

fn are_zeros(bytes: &[u8]) -> bool
    ensures { IsTrue result ↔ AreZeros bytes.now }
{
    bytes.iter().all(|byte| *byte == 0)
}

fn content_of(bytes: &[u8]) -> Content
    requires { length bytes.now ≡ DEVICE_LENGTH }
    ensures { IsContent result bytes.now }
{
    if bytes.starts_with(&MAGIC) {
        return Content::Store;
    }
    if bytes.starts_with(&OLD_MAGIC) {
        return Content::Store;
    }
    if are_zeros(bytes) {
        return Content::Zeros;
    }
    Content::Other
}

// No clause says what the bytes are: a proof would go through all of them.
fn zero_bytes(alloc: Global, size: usize) -> Result<Vec<u8>, AllocError>
    ensures { IfOk result (λ bytes. length bytes.items ≡ size) }
{
    vec![in alloc; 0u8; size]
}

// What a device holds, by one read of it.
fn look<D: Disk>(alloc: Global, device: &mut D) -> Result<Content, StoreFault>
    ensures size { D.model.size device.new ≡ D.model.size device.old }
    ensures was_honest { D.model.honest device.new → D.model.honest device.old }
    ensures right_length { OnOk result (D.model.size device.old ≡ DEVICE_LENGTH) }
    ensures content { D.model.honest device.new → IfOk result (λ content. IsContent content (D.model.reads device.old)) }
    ensures reads { D.model.honest device.old → OnOk result (D.model.reads device.new ≡ D.model.reads device.old) }
    ensures calls { D.model.honest device.old → D.model.moment device.new ≤ D.model.moment device.old + 1 }
    ensures any_moment { D.model.honest device.old
        → LeavesOnly D.model device.old device.new (D.model.may_leave device.old) }
    ensures count { OnOk result (D.model.failed device.new ≡ D.model.failed device.old) }
    ensures device { IsErrOf result StoreFault.Device → HasRisen (D.model.failed device.old) (D.model.failed device.new) }
    ensures not_a_store { result ≡ Err StoreFault.NotAStore
        → (D.model.size device.old ≢ DEVICE_LENGTH) × (device.new ≡ device.old) }
    ensures only { OnErr result ((result ≡ Err StoreFault.NotAStore) ⊎ (result ≡ Err StoreFault.Device)
        ⊎ (result ≡ Err StoreFault.NoMemory)) }
{
    let length = device.len();
    if length != DEVICE_LENGTH as usize {
        return Err(StoreFault::NotAStore);
    }
    let Ok(mut bytes) = zero_bytes(alloc, length) else {
        return Err(StoreFault::NoMemory);
    };
    let Ok(()) = device.read_at(0, &mut bytes) else {
        return Err(StoreFault::Device);
    };
    Ok(content_of(&bytes))
}

/// Makes a device a store of the empty table where it holds zeros alone, and prints `formatted`; where it is a store,
/// of whatever version and also a damaged one, it prints `kept`. Only zeros are written over.
///
/// # Errors
///
/// With the device: `Store`, where nothing is printed: `NotAStore` where the length differs, or where it is no store and
/// holds more than zeros; `Device` where it failed in this call; `NoMemory`. `Writer`, where it is a store.
pub fn run_format_missing<D: Disk, W: Write>(
    alloc: Global,
    device: D,
    writer: &mut W,
) -> Result<D, (D, FormatFault)>
    ensures is_there { IfOk result (IsThere D.model (W.contents writer.old) (W.contents writer.new) device) }
    ensures zeros { MatchResult result (IsWrittenOverZerosAlone D.model device)
        (λ e. IsWrittenOverZerosAlone D.model device e.0) }
    ensures nothing_printed { IfErr result (λ e. e.1 ≢ FormatFault.Writer
        → Keeps (W.contents writer.old) (W.contents writer.new)) }
{
    let mut device = device;
    match look(alloc, &mut device) {
        Ok(Content::Zeros) => run_format(alloc, device, writer),
        Ok(Content::Other) => Err((device, FormatFault::Store(StoreFault::NotAStore))),
        Ok(Content::Store) => match writer.write_all(b"kept\n") {
            Ok(()) => Ok(device),
            Err(_) => Err((device, FormatFault::Writer)),
        },
        Err(fault) => Err((device, FormatFault::Store(fault))),
    }
}
