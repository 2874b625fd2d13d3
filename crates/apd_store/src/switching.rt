//! A switch: the other half begins anew with a snapshot of the table, and takes the current one's place.
ghost use Rattle.std.specs.Prelude.{◌≡◌, ◌↔◌, ◌≤◌, ◌<◌, ◌+◌, ◌-◌, ◌^◌, ◌⊎◌, ℕ, List, length, true, IfOk, OnOk, IfErr, OnErr, IsTrue, IsErrOf};
ghost use Rattle.apd_base.specs.Failures.{HasRisen};
ghost use Rattle.apd_base.specs.State.{State};
ghost use Rattle.apd_disk.specs.Disk.{LeavesOnly};
ghost use Rattle.apd_journal.specs.declared.writer.TheConstants.{HALF_LENGTH};
ghost use Rattle.apd_store.specs.Image.{Shows};
ghost use Rattle.apd_store.specs.Layout.{opposite};

use crate::calling::{move_on, write_in_half};
use crate::fault::StoreFault;
use crate::phase::Phase;
use crate::store::{Store, last_place, no_plan};
use apd_disk::Disk;

impl<D: Disk> Store<D> {
    ghost use Rattle.apd_store.specs.Calling.{IsCallMade};
    ghost use Rattle.apd_store.specs.Commit.{IsWriting, HasFailed};
    ghost use Rattle.apd_store.specs.Switch.{IsSwitching};
    ghost use Rattle.apd_store.specs.Outside.{store_device, phase_of, calls_left, store_batch, IsInside};

    /// The next call of a switch.
    pub(crate) fn next_of_switch(&mut self) -> Result<bool, StoreFault>
        requires { 4 < calls_left self.old }
        ensures made { IsCallMade D.model self.old self.new result }
        ensures any_moment { (state after : State) → D.model.honest (store_device self.old)
            → IsSwitching D.model self.old state after
            → LeavesOnly D.model (store_device self.old) (store_device self.new) (λ c. Shows c state) }
        ensures on { (state after : State) → D.model.honest (store_device self.old)
            → IsSwitching D.model self.old state after
            → OnOk result (IsSwitching D.model self.new state after ⊎ IsWriting D.model self.new state after) }
        ensures stuck { (state after : State) → D.model.honest (store_device self.old)
            → IsSwitching D.model self.old state after → OnErr result (HasFailed D.model self.new state state) }
    {
        let side = self.half.other();
        match self.phase {
            Phase::CloseOther => {
                let made = write_in_half(&mut self.device, side, 0, &[0]);
                move_on(&mut self.phase, made, Phase::SyncClosed)
            }
            Phase::SyncClosed => {
                let made = self.device.sync().map_err(StoreFault::from);
                move_on(&mut self.phase, made, Phase::WriteHalf)
            }
            Phase::WriteHalf => {
                let bytes = self.fresh.bytes.as_slice();
                let made = write_in_half(&mut self.device, side, self.fresh.place, bytes);
                move_on(&mut self.phase, made, Phase::SyncHalf)
            }
            Phase::SyncHalf => {
                let made = self.device.sync().map_err(StoreFault::from);
                move_on(&mut self.phase, made, Phase::OpenHalf)
            }
            Phase::OpenHalf => {
                let made = write_in_half(&mut self.device, side, 0, &[1]);
                move_on(&mut self.phase, made, Phase::SyncOpened)
            }
            Phase::SyncOpened => {
                let Ok(()) = self.device.sync() else {
                    self.phase = Phase::Failed;
                    return Err(StoreFault::Device);
                };
                self.turn_over();
                Ok(true)
            }
            _ => unreachable!(),
        }
    }

    // Goes on in the other half, which began anew, with the batch's group.
    fn turn_over(&mut self)
        ensures inside { IsInside D.model self.old → IsInside D.model self.new }
        ensures device { store_device self.new ≡ store_device self.old }
        ensures half { self.new.half ≡ opposite self.old.half }
        ensures epoch { self.old.epoch + 1 < 2 ^ 64 → self.new.epoch ≡ self.old.epoch + 1 }
        ensures gate { self.old.fresh.place + length self.old.fresh.bytes ≤ HALF_LENGTH
            → self.new.gate ≡ self.old.fresh.place + length self.old.fresh.bytes - 1 }
        ensures other { self.new.other_open ≡ true }
        ensures phase { self.new.phase ≡ Phase.WriteGroup }
        ensures batch { self.new.batch ≡ self.old.batch }
        ensures plan { self.new.plan ≡ self.old.plan }
    {
        self.half = self.half.other();
        self.epoch = self.epoch.saturating_add(1);
        self.gate = last_place(&self.fresh);
        self.other_open = true;
        self.fresh = no_plan(self.alloc);
        self.phase = Phase::WriteGroup;
    }
}
