//! A world over the file of a store, as a run begins it.
ghost use Rattle.std.specs.Prelude.{◌≡◌, [], IfOk};
ghost use Rattle.apd_disk.specs.FileModel.{file_model};
ghost use Rattle.apd_disk.specs.declared.record.FileRecord.{FileRecord as Known};
ghost use Rattle.apd_serve.specs.FileWorld.{IsBegunAt, IsBegunOver, IsRecoveredFrom, file_of};

use crate::running::RunFault;
use apd_base::Moment;
use apd_conf::Confs;
use apd_disk::FileRecord;
use apd_radio::Radio;
use apd_site::{Access, FileReason, FileState, StoreDisk, file_or_fault, open_disk, watched_disk};
use apd_store::{Store, recover};
use apd_table::Table;
use apd_world::{World, WorldFault, begin_anew, slots_for};
use std::alloc::Global;
use std::fs::File;
use std::rt::Files;
use std::time::Clock;

/// A store that was opened, and its table.
#[derive(Drop)]
pub struct OpenStore {
    store: Store<StoreDisk>,
    table: Table,
    state: FileState,
}

impl OpenStore {
    /// What becomes of its file.
    pub(crate) fn state(&self) -> &FileState {
        &self.state
    }

    /// The table that was recovered.
    pub(crate) fn table(&self) -> &Table {
        &self.table
    }
}

// The file of a store, to be written, until it is lost.
fn open_watched(
    rt: &(impl Files<File = File> + Clock + AllocGlobal),
    name: &str,
    state: FileState,
) -> Result<StoreDisk, RunFault>
    ensures { IfOk result (λ disk. disk.known.calls ≡ []) }
{
    let disk = open_disk(rt, name, Access::Write)?;
    match watched_disk(disk, state) {
        Ok(watched) => Ok(watched),
        Err(error) => Ok(file_or_fault(rt, name, Err(FileReason::System(error)))?),
    }
}

/// Opens the file of a store, of which this is known, and recovers the store and its table. Nothing that the file holds
/// is changed. Where the file has answered, also in this call, as one that held that, the table is the state that its
/// bytes show.
///
/// Errors: `Open` where the file can't be opened, as where another process holds it; `World` with `Store` where the
/// store is refused; `NoMemory`.
pub fn open_store(
    rt: &(impl Files<File = File> + Clock + AllocGlobal),
    name: &str,
    known: FileRecord,
) -> Result<OpenStore, RunFault>
    ensures { IfOk result (IsRecoveredFrom known) }
{
    let state = FileState::new(rt.alloc())?;
    let disk = open_watched(rt, name, state.clone()?)?.knowing(known);
    match recover(rt.alloc(), disk) {
        Ok((store, table)) => Ok(OpenStore {
            store,
            table,
            state,
        }),
        Err((_disk, fault)) => Err(RunFault::World(WorldFault::Store(fault))),
    }
}

/// The world of a store that was opened, with these radios, one for each configuration, in their order. Each station of
/// the table was heard at the moment 0, and each slot has resumed by the table and receives by its own radio. Whatever was known of the file: where it
/// has answered as one that held that, the world stands for the history that begins at the state that its bytes show, and
/// is proper.
///
/// Errors: `World` with `Slot` where a slot doesn't resume; `NoMemory`.
pub fn begin_world<R: Radio>(
    alloc: Global,
    opened: OpenStore,
    confs: Confs,
    radios: Vec<R>,
) -> Result<World<StoreDisk, R>, RunFault>
    ensures over { IfOk result (λ world. (known : Known) → IsRecoveredFrom known opened
        → file_model.honest (file_of world) → IsBegunOver known confs world) }
    ensures at { IfOk result (IsBegunAt R.model R.frames (record { 0 = 0 }) confs radios.items) }
{
    let OpenStore { store, table, .. } = opened;
    let slots = slots_for(alloc, &confs, radios)?;
    match begin_anew(alloc, store, table, confs, slots, Moment(0)) {
        Ok(world) => Ok(world),
        Err((_disk, _slots, fault)) => Err(RunFault::World(fault)),
    }
}
