//! The calls of a batch, one at a time.
ghost use Rattle.std.specs.Prelude.{◌≡◌, ◌≢◌, ◌↔◌, ◌≤◌, ◌<◌, ◌+◌, ◌⊎◌, length, IfOk, OnOk, IfErr, OnErr, IsTrue, IsErrOf, IsOk, MatchResult, Err};
ghost use Rattle.apd_base.specs.declared.limits.TheConstants.{DEVICE_LENGTH};
ghost use Rattle.apd_base.specs.Failures.{HasRisen};
ghost use Rattle.apd_base.specs.State.{State};
ghost use Rattle.apd_disk.specs.Disk.{with_bytes, TornWithin, Follows, Elapses, LeavesOnly};
ghost use Rattle.apd_journal.specs.declared.writer.TheConstants.{HALF_LENGTH};
ghost use Rattle.apd_store.specs.Layout.{start_of};

use crate::fault::StoreFault;
use crate::half::Half;
use crate::phase::Phase;
use crate::store::Store;
use apd_disk::Disk;

// Writes bytes from a place of a half on, where they lie inside the device; else it answers `Failed`, and does nothing.
pub(crate) fn write_in_half<D: Disk>(
    device: &mut D,
    half: Half,
    place: usize,
    bytes: &[u8],
) -> Result<(), StoreFault>
    ensures size { D.model.size device.new ≡ D.model.size device.old }
    ensures goes_on { D.model.goes_on device.old device.new }
    ensures honest { D.model.honest device.old ↔ D.model.honest device.new }
    ensures written { D.model.honest device.old
        → OnOk result
        (D.model.reads device.new ≡ with_bytes (D.model.reads device.old) (start_of half + place) bytes.now) }
    ensures stop { D.model.honest device.old → result ≢ Err StoreFault.Failed
        → Follows (TornWithin (start_of half + place) (length bytes.now)) (D.model.may_leave device.old)
        (D.model.left_since device.new (D.model.moment device.old)) }
    ensures time { D.model.honest device.old → result ≢ Err StoreFault.Failed
        → Elapses (D.model.moment device.old) (D.model.moment device.new) (D.model.left_since device.old) (D.model.left_since device.new) }
    ensures outside { result ≡ Err StoreFault.Failed → device.new ≡ device.old }
    ensures inside { D.model.size device.old ≡ DEVICE_LENGTH → place + length bytes.now ≤ HALF_LENGTH
        → result ≢ Err StoreFault.Failed }
    ensures only { OnErr result ((result ≡ Err StoreFault.Device) ⊎ (result ≡ Err StoreFault.Failed)) }
    ensures count { D.model.failed device.old ≤ D.model.failed device.new }
    ensures no_fault { OnOk result (D.model.failed device.new ≡ D.model.failed device.old) }
    ensures device { IsErrOf result StoreFault.Device → HasRisen (D.model.failed device.old) (D.model.failed device.new) }
{
    let length = device.len();
    let Some(at) = half.start().checked_add(place) else {
        return Err(StoreFault::Failed);
    };
    if at > length || bytes.len() > length - at {
        return Err(StoreFault::Failed);
    }
    device.write_at(at, bytes)?;
    Ok(())
}

// The phase after a call that was made.
pub(crate) fn move_on(
    phase: &mut Phase,
    made: Result<(), StoreFault>,
    next: Phase,
) -> Result<bool, StoreFault>
    ensures { MatchResult made (λ _. (phase.new ≡ next) × IfOk result (λ more. IsTrue more ↔ (next ≢ Phase.Done))
        × IsOk result)
        (λ fault. (phase.new ≡ Phase.Failed) × (result ≡ Err fault)) }
{
    match made {
        Ok(()) => {
            *phase = next;
            Ok(next != Phase::Done)
        }
        Err(fault) => {
            *phase = Phase::Failed;
            Err(fault)
        }
    }
}

impl<D: Disk> Store<D> {
    ghost use Rattle.apd_store.specs.Calling.{IsCallMade};
    ghost use Rattle.apd_store.specs.Commit.{IsCommitting, IsWriting, HasFailed, MayShow};
    ghost use Rattle.apd_store.specs.Outside.{store_device, phase_of, calls_left};

    /// Makes the next call of the batch, and answers whether calls are left. With no batch begun or no call
    /// left there is none, and nothing is done.
    ///
    /// Errors: `Device` where the device failed in this call; `Failed` where it did in an earlier one, or where
    /// the place that is next does not lie inside the device, and no call is then made. It takes no memory.
    pub fn next_call(&mut self) -> Result<bool, StoreFault>
        ensures made { IsCallMade D.model self.old self.new result }

        // A stop within the call shows the state before the batch, and where two calls are left or fewer it or the one
        // after.
        ensures any_moment { (state after : State) → D.model.honest (store_device self.old)
            → IsCommitting D.model self.old state after
            → LeavesOnly D.model (store_device self.old) (store_device self.new)
            (MayShow (calls_left self.old) state after) }
        ensures on { (state after : State) → D.model.honest (store_device self.old)
            → IsCommitting D.model self.old state after → OnOk result (IsCommitting D.model self.new state after) }

        // The same of a call that failed, once it has; where more than two calls were left the state after shows
        // nowhere.
        ensures stuck { (state after : State) → D.model.honest (store_device self.old)
            → IsCommitting D.model self.old state after → OnErr result (HasFailed D.model self.new state after) }
        ensures stuck_early { (state after : State) → D.model.honest (store_device self.old)
            → IsCommitting D.model self.old state after
            → 2 < calls_left self.old → OnErr result (HasFailed D.model self.new state state) }

        ensures rest { calls_left self.old ≡ 0 → self.new ≡ self.old }
        ensures failed { phase_of self.old ≡ Phase.Failed → result ≡ Err StoreFault.Failed }
    {
        match self.phase {
            Phase::Idle | Phase::Done => Ok(false),
            Phase::Failed => Err(StoreFault::Failed),
            Phase::CloseOther
            | Phase::SyncClosed
            | Phase::WriteHalf
            | Phase::SyncHalf
            | Phase::OpenHalf
            | Phase::SyncOpened => self.next_of_switch(),
            Phase::WriteGroup | Phase::SyncGroup | Phase::OpenGate | Phase::SyncGate => {
                self.next_of_group()
            }
        }
    }

    // The next of the four calls of a group.
    fn next_of_group(&mut self) -> Result<bool, StoreFault>
        requires { (1 ≤ calls_left self.old) × (calls_left self.old ≤ 4) }
        ensures made { IsCallMade D.model self.old self.new result }
        ensures any_moment { (state after : State) → D.model.honest (store_device self.old)
            → IsWriting D.model self.old state after
            → LeavesOnly D.model (store_device self.old) (store_device self.new)
            (MayShow (calls_left self.old) state after) }
        ensures on { (state after : State) → D.model.honest (store_device self.old)
            → IsWriting D.model self.old state after → OnOk result (IsWriting D.model self.new state after) }
        ensures stuck { (state after : State) → D.model.honest (store_device self.old)
            → IsWriting D.model self.old state after → OnErr result (HasFailed D.model self.new state after) }
        ensures stuck_early { (state after : State) → D.model.honest (store_device self.old)
            → IsWriting D.model self.old state after
            → 2 < calls_left self.old → OnErr result (HasFailed D.model self.new state state) }
    {
        match self.phase {
            Phase::WriteGroup => {
                let bytes = self.plan.bytes.as_slice();
                let made = write_in_half(&mut self.device, self.half, self.plan.place, bytes);
                move_on(&mut self.phase, made, Phase::SyncGroup)
            }
            Phase::SyncGroup => {
                let made = self.device.sync().map_err(StoreFault::from);
                move_on(&mut self.phase, made, Phase::OpenGate)
            }
            Phase::OpenGate => {
                let made = write_in_half(&mut self.device, self.half, self.gate, &[1]);
                move_on(&mut self.phase, made, Phase::SyncGate)
            }
            Phase::SyncGate => {
                let made = self.device.sync().map_err(StoreFault::from);
                move_on(&mut self.phase, made, Phase::Done)
            }
            _ => unreachable!(),
        }
    }
}
