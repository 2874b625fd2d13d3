//! The subcommand that looks into a store.
ghost use Rattle.std.specs.Prelude.{IfOk};
ghost use Rattle.apd_subcommands.specs.Files.{OfFile};
ghost use Rattle.apd_disk.specs.FileModel.{file_model};
ghost use Rattle.apd_maintenance.specs.Checking.{IsPrinted};

use crate::fault::CommandFault;
use apd_disk::{FileDisk, FileRecord};
use apd_maintenance::{Detail, run_check_with};
use apd_site::{Access, open_disk};
use clap::ArgMatches;
use std::fs::File;
use std::io::Write;
use std::rt::Files;
use std::time::Clock;

/// Prints what the store of the file of this name, of which this is known, has. Where what it answered is what it held by
/// that, this is the table that it shows, and that a loss of power leaves.
pub fn check_file<W: Write>(
    rt: &(impl Files<File = File> + Clock + AllocGlobal),
    name: &str,
    known: FileRecord,
    detail: Detail,
    writer: &mut W,
) -> Result<FileDisk, CommandFault>
    ensures { IfOk result (λ left. OfFile known
        (λ file. IsPrinted file_model detail (W.contents writer.old) (W.contents writer.new) file left)) }
{
    let disk = open_disk(rt, name, Access::Read).map_err(CommandFault::Open)?;
    match run_check_with(rt.alloc(), disk.knowing(known), detail, writer) {
        Ok(left) => Ok(left),
        Err(fault) => Err(CommandFault::Check(fault)),
    }
}

/// Prints what the store of the file of this name has.
pub fn check_and_print(
    rt: &(impl Files<File = File> + Clock + AllocGlobal),
    name: &str,
    writer: &mut impl Write,
) -> Result<(), CommandFault> {
    check_file(rt, name, FileRecord::new(), Detail::Counts, writer)?;
    Ok(())
}

/// Does what the subcommand's words say.
pub fn run_check_command(
    rt: &(impl Files<File = File> + Clock + AllocGlobal),
    matches: &ArgMatches<'_>,
    writer: &mut impl Write,
) -> Result<(), CommandFault> {
    let name = matches.get_str("STORE").unwrap_or("");
    if matches.get_flag("stations") {
        check_file(rt, name, FileRecord::new(), Detail::Rows, writer)?;
        Ok(())
    } else {
        check_and_print(rt, name, writer)
    }
}
