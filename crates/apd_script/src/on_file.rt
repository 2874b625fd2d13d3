//! A script on the store of a file, of which it is said what is known.
ghost use Rattle.std.specs.Prelude.{◌≡◌, [], IfErr, IfOk};
ghost use Rattle.apd_disk.specs.FileModel.{file_model};
ghost use Rattle.apd_script.specs.Faults.{IsFaultOn};
ghost use Rattle.apd_script.specs.OnFile.{IsRunOnFile};
ghost use Rattle.apd_script.specs.declared.on_store.TheConstants.{STOPS};

use crate::on_store::run_on_store;
use crate::script::ScriptFault;
use apd_conf::Confs;
use apd_disk::{FileDisk, FileRecord};
use apd_radio::{Radio, Sim};
use apd_world::World;
use std::alloc::Global;
use std::io::{BufRead, Write};

/// Runs a script on the store of a file as `run_on_store` does. The record is any: what the file held, all of it
/// durable, when power last came on, and each call of it since. Where what it answered until the world was begun is
/// what a file answers that held that, the world is proper, and stands for the history that begins at the state which
/// those bytes show; what a stop leaves of it, until the first `stop` line, keeps that history. Each `stop` line reads
/// the file again: where each found it so as well, what a stop leaves at the end, of what the file held at first, by all
/// calls since, keeps the history of the world at the end.
///
/// # Errors
///
/// As `run_on_store`.
pub fn run_on_file<I: BufRead + Drop, W: Write>(
    alloc: Global,
    file: FileDisk,
    known: FileRecord,
    confs: Confs,
    reader: I,
    writer: &mut W,
) -> Result<World<FileDisk, Sim>, ScriptFault>
    requires { file.known.calls ≡ [] }
    ensures ok { IfOk result (IsRunOnFile ⟦<Sim as Radio>⟧.model STOPS file known confs
        (I.remaining reader)) }
    ensures err { IfErr result (IsFaultOn file_model ⟦<Sim as Radio>⟧.model
        STOPS (record file { known = known }) confs (I.remaining reader)) }
{
    let world = run_on_store(alloc, file.knowing(known), confs, reader, writer)?;
    world.show_images();
    Ok(world)
}
