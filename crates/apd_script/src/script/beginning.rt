//! A world begun from the store of a device: at first, and after a stop.
ghost use Rattle.std.specs.Prelude.{◌≡◌, IfErr, IfOk, map};
ghost use Rattle.apd_slot.specs.Slots.{bssid_of};
ghost use Rattle.apd_script.specs.Faults.{IsBeginFault};
ghost use Rattle.apd_script.specs.Script.{IsBegunFrom};

use super::fault::ScriptFault;
use apd_base::Moment;
use apd_conf::Confs;
use apd_disk::Disk;
use apd_radio::Radio;
use apd_slot::Slot;
use apd_world::{World, restart};
use std::alloc::Global;

/// Begins a world of the store that a device holds, at a moment, with these slots, one for each interface.
///
/// # Errors
///
/// `World`, where the store is refused or a slot does not resume.
pub fn begin_from<D: Disk + Drop, R: Radio>(
    alloc: Global,
    device: D,
    confs: Confs,
    slots: Vec<Slot<R>>,
    moment: Moment,
) -> Result<World<D, R>, ScriptFault>
    ensures ok { IfOk result (λ world. map bssid_of slots.items ≡ map (λ conf. conf.bssid) confs
        → IsBegunFrom D.model R.model moment device confs world) }
    ensures err { IfErr result (λ why. map bssid_of slots.items ≡ map (λ conf. conf.bssid) confs
        → IsBeginFault D.model R.model device confs why) }
{
    match restart(alloc, device, confs, slots, moment) {
        Ok(world) => Ok(world),
        Err((_device, _slots, fault)) => Err(ScriptFault::World(fault)),
    }
}
