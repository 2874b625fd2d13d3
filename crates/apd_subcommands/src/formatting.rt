//! The subcommand that makes a store.
ghost use Rattle.std.specs.Prelude.{◌≡◌, [], IfOk, OnOk, codes};
ghost use Rattle.std.specs.Io.KnownBytes.{Appends};
ghost use Rattle.apd_subcommands.specs.Files.{OfFile};
ghost use Rattle.apd_disk.specs.FileModel.{file_model};
ghost use Rattle.apd_maintenance.specs.Formatting.{IsNewStore};
ghost use Rattle.apd_maintenance.specs.Missing.{IsThere};

use crate::fault::CommandFault;
use crate::naming::{create_beside, give_name};
use apd_disk::{FileDisk, FileRecord};
use apd_maintenance::{FormatFault, run_format, run_format_missing};
use apd_site::{Access, FileReason, file_or_fault, open_disk};
use clap::ArgMatches;
use std::fs::{self, File};
use std::io::{self, Write};
use std::rt::Files;
use std::time::Clock;

/// Makes the file of this name, of which this is known, a new store, and says so. Where what it answered is what it held
/// by that, it is then a store of the empty table, and so is all that a loss of power leaves of it.
pub fn format_file<W: Write>(
    rt: &(impl Files<File = File> + Clock + AllocGlobal),
    name: &str,
    known: FileRecord,
    writer: &mut W,
) -> Result<FileDisk, CommandFault>
    ensures made { IfOk result (λ made. OfFile known (λ file. IsNewStore file_model file made)) }
    ensures printed { OnOk result (Appends (W.contents writer.old) (W.contents writer.new) (codes "formatted\n")) }
{
    let disk = open_disk(rt, name, Access::Make).map_err(CommandFault::Open)?;
    match run_format(rt.alloc(), disk.knowing(known), writer) {
        Ok(made) => Ok(made),
        Err((_, fault)) => Err(CommandFault::Format(fault)),
    }
}

// What was made for the file of this name, or why it wasn't.
fn made_or_fault<T: Drop>(
    rt: &(impl Files<File = File> + AllocGlobal),
    name: &str,
    made: io::Result<T>,
) -> Result<T, CommandFault> {
    let made = made.map_err(|error| FileReason::of_making(rt, name, error));
    file_or_fault(rt, name, made).map_err(CommandFault::Open)
}

// Makes a new store beside the path, gives it the name once it is one, and then says so.
fn make_and_print(
    rt: &(impl Files<File = File> + AllocGlobal),
    name: &str,
    writer: &mut impl Write,
) -> Result<(), CommandFault> {
    let created = create_beside(rt, name);
    let (disk, beside) = made_or_fault(rt, name, created)?;
    let mut told = Vec::new(rt.alloc());
    let made = run_format(rt.alloc(), disk, &mut told);
    let named = match &made {
        Ok(_) => give_name(rt, &beside, name),
        Err(_) => Ok(()),
    };
    let _ = fs::remove_file(rt, beside.as_str());
    if let Err((_, fault)) = made {
        return Err(CommandFault::Format(fault));
    }
    made_or_fault(rt, name, named)?;
    match writer.write_all(&told) {
        Ok(()) => Ok(()),
        Err(_) => Err(CommandFault::Format(FormatFault::Writer)),
    }
}

/// Keeps the store of a file that is there, of which this is known, or makes it one where it holds zeros alone.
pub fn keep_or_format<W: Write>(
    rt: &impl AllocGlobal,
    disk: FileDisk,
    known: FileRecord,
    writer: &mut W,
) -> Result<FileDisk, CommandFault>
    requires { disk.known.calls ≡ [] }
    ensures { IfOk result (λ left. OfFile known
        (λ file. IsThere file_model (W.contents writer.old) (W.contents writer.new) file left)) }
{
    match run_format_missing(rt.alloc(), disk.knowing(known), writer) {
        Ok(left) => Ok(left),
        Err((_, fault)) => Err(CommandFault::Format(fault)),
    }
}

/// Makes the file of this name a new store where there is none, or where it holds zeros alone; a store that is there
/// stays. It says which.
fn format_missing_and_print(
    rt: &(impl Files<File = File> + Clock + AllocGlobal),
    name: &str,
    writer: &mut impl Write,
) -> Result<(), CommandFault> {
    match open_disk(rt, name, Access::Write) {
        Ok(disk) => {
            keep_or_format(rt, disk, FileRecord::new(), writer)?;
            Ok(())
        }
        Err(fault) if fault.is_not_there() => make_and_print(rt, name, writer),
        Err(fault) => Err(CommandFault::Open(fault)),
    }
}

/// Does what the subcommand's words say.
pub fn run_format_command(
    rt: &(impl Files<File = File> + Clock + AllocGlobal),
    matches: &ArgMatches<'_>,
    writer: &mut impl Write,
) -> Result<(), CommandFault> {
    let name = matches.get_str("STORE").unwrap_or("");
    if matches.get_flag("missing") {
        format_missing_and_print(rt, name, writer)
    } else {
        format_file(rt, name, FileRecord::new(), writer)?;
        Ok(())
    }
}
