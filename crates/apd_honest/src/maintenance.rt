//! The subcommands without threads, on disks that are always honest.
ghost use Rattle.std.specs.Prelude.{List, Option, ℕ};
ghost use Rattle.apd_base.specs.State.{State, empty_state};
ghost use Rattle.apd_honest.specs.Maintenance.{IsCheckedOutright, IsCopiedOutright, IsStoreOutright, IsThereOutright};
ghost use Rattle.apd_maintenance.specs.Checking.{IsChecked};
ghost use Rattle.apd_maintenance.specs.Formatting.{IsNewStore};
ghost use Rattle.apd_maintenance.specs.Missing.{IsThere, IsWrittenOverZerosAlone, AreZeros};
ghost use Rattle.apd_maintenance.specs.Upgrading.{IsCopied};
ghost use Rattle.apd_disk.specs.Disk.{LeavesOnly};

use apd_disk::HonestDisk;

/// `apd check` prints the state that the bytes show, and only reads.
pub fn a_check_of_an_honest_disk_is_right<D: HonestDisk>()
    ensures { (device left : D) (table : State) → IsChecked D.model device left table
        → IsCheckedOutright D.model device left table }
{}

/// `apd format` tells of a store of the empty table.
pub fn a_format_of_an_honest_disk_is_told_rightly<D: HonestDisk>()
    ensures { (device made : D) → IsNewStore D.model device made → IsStoreOutright D.model empty_state device made }
{}

/// `apd format --missing` keeps a store that is there, and writes over zeros alone.
pub fn what_is_there_of_an_honest_disk_is_kept<D: HonestDisk>()
    ensures is_there { (held holds : Option (List ℕ)) (device left : D) → IsThere D.model held holds device left
        → IsThereOutright D.model device left }
    ensures zeros { (device left : D) → IsWrittenOverZerosAlone D.model device left
        → ¬ (AreZeros (D.model.reads device)) → LeavesOnly D.model device left (D.model.may_leave device) }
{}

/// `apd upgrade` tells of a store of the state that the old disk shows to the program of version 1.
pub fn a_copy_of_an_honest_disk_is_told_rightly<O: HonestDisk, N: HonestDisk>()
    ensures { (old left : O) (new made : N) → IsCopied O.model N.model old left new made
        → IsCopiedOutright O.model N.model old left new made }
{}
