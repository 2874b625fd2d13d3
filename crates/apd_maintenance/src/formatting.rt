//! A device that is made a store: `apd format STORE`.
ghost use Rattle.std.specs.Prelude.{◌≢◌, IfErr, IfOk, OnOk, codes};
ghost use Rattle.std.specs.Io.KnownBytes.{Appends, Keeps};
ghost use Rattle.apd_maintenance.specs.Formatting.{IsNewStore, IsNotTold};

use apd_disk::Disk;
use apd_store::{StoreFault, format};
use std::alloc::Global;
use std::io::Write;
use thiserror::Error;

/// Why no new store is told of.
#[derive(Clone, Copy, Debug, PartialEq, Eq, Error)]
pub enum FormatFault {
    /// The device is refused, or it failed; or memory ran out, which is `Store(NoMemory)`, while it was looked into.
    #[error("{0}")]
    Store(StoreFault),
    /// It is a store of the empty table, and this can't be printed.
    #[error("writer fault")]
    Writer,
}

/// Makes a device a store of the empty table, whatever it held, and prints `formatted`. A stop within it leaves an
/// image that `apd_store::format` may leave.
///
/// # Errors
///
/// With the device: `Store` as `apd_store::format` refuses, where nothing is printed; `Writer`, where it was
/// made the store.
pub fn run_format<D: Disk, W: Write>(
    alloc: Global,
    device: D,
    writer: &mut W,
) -> Result<D, (D, FormatFault)>
    ensures made { IfOk result (λ made. IsNewStore D.model device made) }
    ensures printed { OnOk result (Appends (W.contents writer.old) (W.contents writer.new) (codes "formatted\n")) }
    ensures refused { IfErr result (λ e. IsNotTold D.model device e.0 e.1) }
    ensures nothing_printed { IfErr result (λ e. e.1 ≢ FormatFault.Writer
        → Keeps (W.contents writer.old) (W.contents writer.new)) }
{
    let device = match format(alloc, device) {
        Ok(store) => store.into_device(),
        Err((device, fault)) => return Err((device, FormatFault::Store(fault))),
    };
    match writer.write_all(b"formatted\n") {
        Ok(()) => Ok(device),
        Err(_) => Err((device, FormatFault::Writer)),
    }
}
