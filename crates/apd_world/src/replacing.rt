//! Another radio in the place of a slot's.
ghost use Rattle.std.specs.Prelude.{[]};

use crate::fault::WorldFault;
use crate::slots::place_of;
use crate::world::World;
use apd_base::Bssid;
use apd_disk::Disk;
use apd_radio::Radio;

impl<D: Disk, R: Radio> World<D, R> {
    ghost use Rattle.apd_world.specs.Following.{AreExact, AreFollowing};
    ghost use Rattle.apd_world.specs.History.{History};
    ghost use Rattle.apd_world.specs.Replacing.{IsReplaced};
    ghost use Rattle.apd_world.specs.StandsFor.{LeadsSafely, StandsFor};
    ghost use Rattle.apd_world.specs.WorldParts.{slots_of};

    /// Puts another radio in the place of that of a BSSID's slot, with the stations that are wanted there and no
    /// others, and gives that one back, taken down; the slot is up then. The outs that wait there stay, and so does all
    /// else of the world. It is no step, and is called between lists of steps: the world stands for the history that it
    /// stood for. It is for who makes a world's steps in one thread; served, a radio's worker does so.
    ///
    /// Errors, beside the other radio: `NoSlot` exactly where no slot has the BSSID, and that radio is as it was;
    /// `Slot` with the BSSID and the slot's refusal, `WentDown` or `NoMemory`: the other radio is taken down, and the
    /// slot keeps its own and is down.
    pub fn replace(&mut self, bssid: Bssid, radio: R) -> Result<R, (R, WorldFault)>
        ensures replaced { IsReplaced D.model R.model R.frames bssid radio result self.old self.new }
        ensures exact { AreExact R.model (slots_of self.old) → AreExact R.model (slots_of self.new) }
        ensures following { AreFollowing self.old → AreFollowing self.new }
        ensures leads { (h : History) → StandsFor self.old h → LeadsSafely D.model [] [] self.old self.new h h }
    {
        self.durable.stops();
        let Some(place) = place_of(&self.slots, bssid) else {
            return Err((radio, WorldFault::NoSlot));
        };
        match self.slots[place].replace(radio) {
            Ok(own) => Ok(own),
            Err((back, fault)) => Err((back, WorldFault::Slot(bssid, fault))),
        }
    }
}
