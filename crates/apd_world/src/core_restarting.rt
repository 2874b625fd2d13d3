//! A durable core begun anew, from a store and its table.
ghost use Rattle.std.specs.Prelude.{◌≡◌, IfOk, IfErr};
ghost use Rattle.apd_store.specs.Outside.{store_device};
ghost use Rattle.apd_world.specs.BegunAnew.{IsBegunWith};

use crate::durable_core::DurableCore;
use apd_base::Moment;
use apd_conf::Confs;
use apd_core::Core;
use apd_disk::Disk;
use apd_flusher::Flusher;
use apd_store::Store;
use apd_table::Table;
use std::alloc::Global;

/// A durable core of a store and its table, with nothing accepted yet; every station was heard at this moment.
///
/// Errors, with the store's device: where memory ran out.
pub(crate) fn durable_core_of<D: Disk>(
    alloc: Global,
    store: Store<D>,
    table: Table,
    confs: Confs,
    moment: Moment,
) -> Result<DurableCore<D>, D>
    ensures begun { IfOk result (IsBegunWith D.model store table confs moment) }
    ensures device { IfErr result (λ device. device ≡ store_device store) }
{
    table.sound();
    let Ok(own) = table.copy(alloc) else {
        drop(table);
        drop(confs);
        return Err(store.into_device());
    };
    let Ok(core) = Core::new(alloc, own, confs, moment) else {
        drop(table);
        return Err(store.into_device());
    };
    match Flusher::new(alloc, store, table) {
        Ok(flusher) => Ok(DurableCore::new(flusher, core)),
        Err((device, _fault)) => {
            drop(core);
            Err(device)
        }
    }
}
