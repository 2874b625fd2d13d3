//! The subcommand that copies a store of version 1 into a new one.
ghost use Rattle.std.specs.Prelude.{◌≡◌, [], IfOk, OnOk, codes};
ghost use Rattle.std.specs.Io.KnownBytes.{Appends};
ghost use Rattle.apd_subcommands.specs.Files.{OfFile};
ghost use Rattle.apd_disk.specs.FileModel.{file_model};
ghost use Rattle.apd_maintenance.specs.Upgrading.{IsCopied};

use crate::fault::CommandFault;
use apd_disk::{FileDisk, FileRecord};
use apd_maintenance::{UpgradeFault, run_upgrade};
use apd_site::{Access, FileReason, OpenFault, are_one_file, file_or_fault, make_disk, open_disk};
use std::fs::{self, File};
use std::io::Write;
use std::rt::Files;
use std::time::Clock;

// The file of the second of two names, which is another one than that of the first, and whether it was made here.
fn open_new(
    rt: &(impl Files<File = File> + Clock + AllocGlobal),
    names: (&str, &str),
) -> Result<(FileDisk, bool), OpenFault>
    ensures { IfOk result (λ had. had.0.known.calls ≡ []) }
{
    let (old, new) = names;
    if are_one_file(rt, old, new) {
        return file_or_fault(rt, new, Err(FileReason::IsItsOrigin));
    }
    match open_disk(rt, new, Access::Write) {
        Ok(disk) => Ok((disk, false)),
        Err(fault) if fault.is_not_there() => Ok((make_disk(rt, new)?, true)),
        Err(fault) => Err(fault),
    }
}

/// Copies the store of the file of one name into that of another, of which this is known, and says so. Where what both
/// answered is what they held by that, the new one is a store of the table that the old one shows by its version, and so
/// is all that a loss of power leaves of it. A file that was made for a copy that is refused is removed.
pub fn upgrade_files<W: Write>(
    rt: &(impl Files<File = File> + Clock + AllocGlobal),
    names: (&str, &str),
    known: (FileRecord, FileRecord),
    writer: &mut W,
) -> Result<(FileDisk, FileDisk), CommandFault>
    ensures made { IfOk result (λ left. OfFile known.0 (λ old. OfFile known.1
        (λ new. IsCopied file_model file_model old left.0 new left.1))) }
    ensures printed { OnOk result (Appends (W.contents writer.old) (W.contents writer.new) (codes "copied\n")) }
{
    let (known_old, known_new) = known;
    let old = open_disk(rt, names.0, Access::Read).map_err(CommandFault::Open)?;
    let (new, is_made) = open_new(rt, names).map_err(CommandFault::Open)?;
    match run_upgrade(
        rt.alloc(),
        old.knowing(known_old),
        new.knowing(known_new),
        writer,
    ) {
        Ok(left) => Ok(left),
        Err((_, _, fault)) => {
            if is_made && fault != UpgradeFault::Writer {
                let _ = fs::remove_file(rt, names.1);
            }
            Err(CommandFault::Upgrade(fault))
        }
    }
}

/// Copies the store of the file of one name into that of another, and says so.
pub fn upgrade_and_print(
    rt: &(impl Files<File = File> + Clock + AllocGlobal),
    old: &str,
    new: &str,
    writer: &mut impl Write,
) -> Result<(), CommandFault> {
    let known = (FileRecord::new(), FileRecord::new());
    upgrade_files(rt, (old, new), known, writer)?;
    Ok(())
}
