//! Stores of disks that are always honest.
ghost use Rattle.apd_base.specs.State.{State, empty_state};
ghost use Rattle.apd_honest.specs.Stores.{IsLaidOutright, IsMadeOutright, IsNotRecoveredOutright, IsNotUpgradedOutright, IsRecoveredOutright, IsUpgradedOutright};
ghost use Rattle.apd_store.specs.Formatting.{IsFormatted, IsNotFormatted};
ghost use Rattle.apd_store.specs.Recovery.{IsNotRecovered, IsRecovered};
ghost use Rattle.apd_store.specs.Upgrading.{IsNotUpgraded, IsOnlyRead, IsUpgraded};
ghost use Rattle.apd_store.specs.declared.fault.StoreFault.{StoreFault};
ghost use Rattle.apd_store.specs.declared.store.Store.{Store};

use apd_disk::HonestDisk;

/// `apd_store::recover` finds the state that the bytes show exactly where they show one, unless a call failed or memory
/// ran out; else they show why not. A stop within it leaves what it could leave before, and what is read is durable from
/// its first sync on.
pub fn a_recovery_of_an_honest_disk_is_right<D: HonestDisk>()
    ensures found { (device : D) (store : Store D) (state : State) → IsRecovered D.model device store state
        → IsRecoveredOutright D.model device store state }
    ensures none { (device left : D) (fault : StoreFault) → IsNotRecovered D.model device left fault
        → IsNotRecoveredOutright D.model device left fault }
{}

/// `apd_store::format` makes a store of the empty table, which alone a stop leaves from then on. A stop within it leaves
/// an image that could be left before, one of a store that could, with the magic of the other version in the place of its
/// own, one that is no store of either version, or one that shows the empty table.
pub fn a_format_of_an_honest_disk_is_right<D: HonestDisk>()
    ensures made { (device : D) (store : Store D) → IsFormatted D.model device store
        → IsMadeOutright D.model empty_state device store }
    ensures none { (device left : D) (fault : StoreFault) → IsNotFormatted D.model device left fault
        → IsLaidOutright D.model empty_state device left }
{}

/// `apd_store::upgrade` makes of the new disk a store of the state that the old one shows to the program of version 1,
/// exactly where there is one and the new disk has a store's length, unless a call failed or memory ran out; else the old
/// one's bytes show why not. The old one is never written; of the new one a stop leaves what one within a format does,
/// with this state in the place of the empty one.
pub fn a_copy_of_an_honest_disk_is_right<O: HonestDisk, N: HonestDisk>()
    ensures made { (old left : O) (new : N) (store : Store N) → IsUpgraded O.model N.model old left new store
        → (O.model.honest left → IsOnlyRead O.model old left)
        → IsUpgradedOutright O.model N.model old left new store }
    ensures none { (old left : O) (new new_left : N) (fault : StoreFault)
        → IsNotUpgraded O.model N.model old left new new_left fault
        → (O.model.honest left → IsOnlyRead O.model old left)
        → IsNotUpgradedOutright O.model N.model old left new new_left fault }
{}
