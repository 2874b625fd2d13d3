//! Calls whose contracts are long, each by a function of its own without a clause, so that the proof of a test needn't
//! carry them.
use apd_base::{Moment, Sequence};
use apd_conf::{Conf, Confs};
use apd_disk::Disk;
use apd_flusher::Flusher;
use apd_journal::Batch;
use apd_radio::Sim;
use apd_slot::Slot;
use apd_store::{Store, StoreFault, format, recover};
use apd_table::Table;
use apd_world::{Commit, Step, Told, World, WorldFault, begin_anew, drive, restart, slots_for};
use std::alloc::Global;

/// What a restart that is refused hands back.
pub(crate) type Refused<D> = (D, Vec<Slot<Sim>>, WorldFault);

/// A device that is formatted.
pub(crate) fn format_device<D: Disk + Drop>(alloc: Global, disk: D) -> Option<D> {
    Some(format(alloc, disk).ok()?.into_device())
}

/// The store that a device holds, and its table; else why there is none, beside the device.
pub(crate) fn recover_store<D: Disk + Drop>(
    alloc: Global,
    device: D,
) -> Result<(Store<D>, Table), (D, StoreFault)> {
    recover(alloc, device)
}

/// The built-in configuration alone.
pub(crate) fn confs(alloc: Global) -> Option<Confs> {
    let conf = Conf::built_in(alloc).ok()?;
    let mut list = Vec::new(alloc);
    list.push(conf).ok()?;
    Confs::new(list).ok()
}

/// The world of the store that a device holds, with one interface.
pub(crate) fn restart_world<D: Disk>(
    alloc: Global,
    device: D,
    confs: Confs,
    slots: Vec<Slot<Sim>>,
) -> Result<World<D, Sim>, Refused<D>> {
    restart(alloc, device, confs, slots, Moment(0))
}

/// A slot for each configuration, with a radio that does nothing.
pub(crate) fn new_slots(alloc: Global, confs: &Confs) -> Option<Vec<Slot<Sim>>> {
    let mut radios = Vec::new(alloc);
    for _conf in confs.list() {
        radios.push(Sim::new(alloc)).ok()?;
    }
    slots_for(alloc, confs, radios).ok()
}

/// The world of a store that is recovered.
pub(crate) fn world_of_store<D: Disk + Drop>(
    alloc: Global,
    store: Store<D>,
    table: Table,
    confs: Confs,
    slots: Vec<Slot<Sim>>,
) -> Option<World<D, Sim>> {
    begin_anew(alloc, store, table, confs, slots, Moment(0)).ok()
}

/// What a commit comes to.
pub(crate) fn commit_world<D: Disk>(world: &mut World<D, Sim>) -> Commit {
    world.commit()
}

/// What these steps tell.
pub(crate) fn tell<D: Disk>(world: &mut World<D, Sim>, steps: &[Step<'_>]) -> Option<Vec<Told>> {
    drive(world, steps).ok()
}

/// Why a flush is refused; none where it is not.
pub(crate) fn flush_refusal<D: Disk>(world: &mut World<D, Sim>) -> Option<WorldFault> {
    world.flush().err()
}

/// The flusher of a world that stops.
pub(crate) fn flusher<D: Disk>(world: World<D, Sim>) -> Flusher<D> {
    let (flusher, core, slots) = world.into_parts();
    drop(core);
    drop(slots);
    flusher
}

/// Why a flusher refuses a batch; none where it does not.
pub(crate) fn load_refusal<D: Disk>(alloc: Global, flusher: &mut Flusher<D>) -> Option<StoreFault> {
    let batch = Batch {
        first: 9,
        last: 9,
        changes: Sequence::new(alloc),
    };
    let (_batch, fault) = flusher.load(batch).err()?;
    Some(fault)
}
