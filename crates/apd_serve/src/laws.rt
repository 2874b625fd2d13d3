//! What may be relied on of a store's file: each law is the contract of a function that does nothing.
ghost use Rattle.std.specs.Prelude.{◌≡◌, ℕ, List};
ghost use Rattle.apd_conf.specs.declared.conf.Conf.{Conf};
ghost use Rattle.apd_disk.specs.FileCalls.{file_reads};
ghost use Rattle.apd_disk.specs.FileModel.{file_model};
ghost use Rattle.apd_site.specs.StoreDisk.{StoreDisk};
ghost use Rattle.apd_disk.specs.declared.record.FileRecord.{FileRecord};
ghost use Rattle.apd_world.specs.History.{History, Keeps, after};
ghost use Rattle.apd_world.specs.SafelyMade.{AreSafelyMade};
ghost use Rattle.apd_world.specs.declared.step.Step.{Step};
ghost use Rattle.apd_world.specs.declared.step.Told.{Told};
ghost use Rattle.apd_world.specs.declared.world.World.{World};
ghost use Rattle.apd_serve.specs.FileWorld.{IsBegunOver, IsKept, IsKeptSince, first_history};

use apd_radio::Radio;
use apd_store::an_image_shows_one_state;
use apd_world::laws::histories_join;

/// A world that was begun over a file, and whatever steps were made from there: the world stands for the history of all
/// that they told, and each image that a stop now may leave of the file keeps it (`now`). So does each that a stop at
/// any moment may leave, inside a call too, with all that had been said by then (`since`). A world that is begun over
/// what was left begins at the state that the history kept (`next`): the file then holds such an image, and no call of
/// it was made.
pub fn a_stop_leaves_a_file_that_keeps_the_history<R: Radio>()
    ensures now { (known : FileRecord) (confs : List Conf) (steps : List Step) (tolds : List Told)
        (begun new : World StoreDisk R) (over : IsBegunOver known confs begun)
        → AreSafelyMade file_model R.model steps tolds begun new
        → IsKept known steps tolds begun new (first_history over) }
    ensures since { (known : FileRecord) (confs : List Conf) (steps : List Step) (tolds : List Told)
        (begun new : World StoreDisk R) (over : IsBegunOver known confs begun)
        → AreSafelyMade file_model R.model steps tolds begun new → (count : ℕ)
        → IsKeptSince R.model known count steps tolds begun new (first_history over) }
    ensures next { (known : FileRecord) (confs : List Conf) (world : World StoreDisk R)
        (over : IsBegunOver known confs world) (old last : History)
        (kept : Keeps old last (file_reads known.held known.calls)) → over.table ≡ after last kept.front }
{
    histories_join::<apd_site::StoreDisk, R>();
    an_image_shows_one_state();
}
