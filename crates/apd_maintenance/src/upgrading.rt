//! A store of version 1 that is copied into a new one: `apd upgrade OLD NEW`.
ghost use Rattle.std.specs.Prelude.{◌≢◌, IfErr, IfOk, MatchResult, OnOk, codes};
ghost use Rattle.std.specs.Io.KnownBytes.{Appends, Keeps};
ghost use Rattle.apd_maintenance.specs.Upgrading.{IsCopied, IsNotCopied};
ghost use Rattle.apd_store.specs.Upgrading.{IsOnlyRead};

use apd_disk::Disk;
use apd_store::{StoreFault, upgrade};
use std::alloc::Global;
use std::io::Write;
use thiserror::Error;

/// Why no copy is told of.
#[derive(Clone, Copy, Debug, PartialEq, Eq, Error)]
pub enum UpgradeFault {
    /// A device is refused, or one failed; or memory ran out, which is `Store(NoMemory)`.
    #[error("{0}")]
    Store(StoreFault),
    /// The new device is a store of the old one's table, and this can't be printed.
    #[error("writer fault")]
    Writer,
}

/// Makes the new device a store of the table that the old one, a store of version 1, shows, and prints `copied`. The old
/// device is never written. A stop leaves what `apd_store::upgrade` may leave.
///
/// # Errors
///
/// With both devices: `Store` as `apd_store::upgrade` refuses, where nothing is printed; `Writer`, where the new one was
/// made the store.
pub fn run_upgrade<O: Disk, N: Disk, W: Write>(
    alloc: Global,
    old: O,
    new: N,
    writer: &mut W,
) -> Result<(O, N), (O, N, UpgradeFault)>
    ensures made { IfOk result (λ made. IsCopied O.model N.model old made.0 new made.1) }
    ensures printed { OnOk result (Appends (W.contents writer.old) (W.contents writer.new) (codes "copied\n")) }
    ensures refused { IfErr result (λ e. IsNotCopied O.model N.model old e.0 new e.1 e.2) }
    ensures nothing_printed { IfErr result (λ e. e.2 ≢ UpgradeFault.Writer
        → Keeps (W.contents writer.old) (W.contents writer.new)) }
    ensures only_read { MatchResult result (λ made. O.model.honest made.0 → IsOnlyRead O.model old made.0)
        (λ e. O.model.honest e.0 → IsOnlyRead O.model old e.0) }
{
    let (old, new) = match upgrade(alloc, old, new) {
        Ok((old, store)) => (old, store.into_device()),
        Err((old, new, fault)) => return Err((old, new, UpgradeFault::Store(fault))),
    };
    match writer.write_all(b"copied\n") {
        Ok(()) => Ok((old, new)),
        Err(_) => Err((old, new, UpgradeFault::Writer)),
    }
}
