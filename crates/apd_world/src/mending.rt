//! Mending a slot of a world.
ghost use Rattle.std.specs.Prelude.{[]};

use crate::slots::place_of;
use crate::world::World;
use apd_base::Bssid;
use apd_disk::Disk;
use apd_radio::Radio;
use apd_slot::Mending;

impl<D: Disk, R: Radio> World<D, R> {
    ghost use Rattle.apd_world.specs.Following.{AreExact, AreFollowing};
    ghost use Rattle.apd_world.specs.History.{History};
    ghost use Rattle.apd_world.specs.Mending.{BeginsAtSlot, GoesOnAtSlot};
    ghost use Rattle.apd_world.specs.StandsFor.{LeadsSafely, StandsFor};
    ghost use Rattle.apd_world.specs.WorldParts.{slots_of};

    /// Begins to mend the slot of a BSSID, which met a fault, as `Mending::begin` does. The outs that wait there stay,
    /// and so does all else of the world; where no slot has the BSSID nothing is done. It is no step, and is called
    /// between lists of steps: the world stands for the history that it stood for. It is for who makes a world's steps
    /// in one thread; served, a radio's worker mends its slot.
    pub fn begin_mending(&mut self, bssid: Bssid, mending: &mut Mending<R>)
        ensures mended { BeginsAtSlot D.model R.model R.frames bssid mending.old mending.new self.old self.new }
        ensures exact { AreExact R.model (slots_of self.old) → AreExact R.model (slots_of self.new) }
        ensures following { AreFollowing self.old → AreFollowing self.new }
        ensures leads { (h : History) → StandsFor self.old h → LeadsSafely D.model [] [] self.old self.new h h }
    {
        self.durable.stops();
        let Some(place) = place_of(&self.slots, bssid) else {
            return;
        };
        mending.begin(&mut self.slots[place]);
    }

    /// Goes on mending the slot of a BSSID, as `Mending::go_on` does. Tells whether a try was left; where no slot has the
    /// BSSID nothing is done, and none is told.
    pub fn mend(&mut self, bssid: Bssid, mending: &mut Mending<R>) -> bool
        ensures mended { GoesOnAtSlot D.model R.model R.frames bssid result mending.old mending.new self.old self.new }
        ensures exact { AreExact R.model (slots_of self.old) → AreExact R.model (slots_of self.new) }
        ensures following { AreFollowing self.old → AreFollowing self.new }
        ensures leads { (h : History) → StandsFor self.old h → LeadsSafely D.model [] [] self.old self.new h h }
    {
        self.durable.stops();
        let Some(place) = place_of(&self.slots, bssid) else {
            return false;
        };
        mending.go_on(&mut self.slots[place])
    }
}
