//! What a radio's driver is.
ghost use Rattle.std.specs.Prelude.{◌≡◌, IfOk, OnOk, OnErr, ℕ, ◌≤◌, List, Option, None};
ghost use Rattle.std.specs.Option.{option_map};
ghost use Rattle.std.specs.FinMap as map;
ghost use Rattle.apd_base.specs.Failures.{HasRisen};
ghost use Rattle.apd_radio.specs.Frames.{and_then, Polls};
ghost use Rattle.apd_radio.specs.Model.{RadioModel};

use apd_base::Addr;
use std::alloc::AllocError;
use std::os::fd::RawFd;
use thiserror::Error;

/// Why a radio did not do what it was asked for. Its map is then as it was.
#[derive(Clone, Copy, PartialEq, Eq, Debug, Error)]
pub enum RadioFault {
    /// The device failed, and the count of its failures went up, or stood at its greatest value.
    #[error("device fault")]
    Device = 1,
    /// Memory ran out.
    #[error("out of memory")]
    NoMemory,
}

impl From<AllocError> for RadioFault {
    ghost use Rattle.apd_radio.specs.declared.radio.RadioFault.TheVariants.{NoMemory};

    ghost from_gives = { λ _ fault. fault ≡ NoMemory };

    fn from(_error: AllocError) -> RadioFault {
        RadioFault::NoMemory
    }
}

/// The driver of one radio: it receives and sends frames, and knows the stations that are installed,
/// each by its address and its association identifier (IEEE Std 802.11-2016, 9.4.1.8).
///
/// A call that answers a fault leaves the stations as they were. One that succeeds or lacks memory leaves the
/// count of failures, and `Device` is told only where the count rose in that call, or stood at its greatest
/// value.
pub trait Radio: Drop {
    /// Its meaning: the installed addresses with their identifiers, how many calls failed in the device, and the frames
    /// that it was handed and took.
    ghost model: { RadioModel Self };

    /// The frames that it is going to give, where they are known.
    ghost frames: { Self → Option (List (List ℕ)) } = { λ _. None };

    /// The next frame that was received, without its frame check sequence, if one waits.
    ///
    /// Errors: `Device`, `NoMemory`.
    fn poll(&mut self) -> Result<Option<Vec<u8>>, RadioFault>
        ensures next { IfOk result
            (λ got. Polls (frames self.old) (option_map (λ frame. frame.items) got) (frames self.new)) }
        ensures unknown { OnErr result ((frames self.old ≡ None) × (frames self.new ≡ None)) }
        ensures same { model.stations self.new ≡ model.stations self.old }
        ensures stays { OnOk result (model.faults self.new ≡ model.faults self.old) }
        ensures memory { result ≡ Err RadioFault.NoMemory → model.faults self.new ≡ model.faults self.old }
        ensures device { result ≡ Err RadioFault.Device → HasRisen (model.faults self.old) (model.faults self.new) }
        ensures count { model.faults self.old ≤ model.faults self.new }
        ensures sent { model.sent self.new ≡ model.sent self.old };

    /// A descriptor that can be read whenever a frame waits in the system, if there is one: who waits for a frame
    /// waits for it. One that takes another's place may have its number. Nothing is promised of it.
    fn descriptor(&self) -> Option<RawFd> {
        None
    }

    /// Installs a station, over what was installed at its address.
    ///
    /// Errors: `Device`, `NoMemory`.
    fn install(&mut self, addr: Addr, aid: u16) -> Result<(), RadioFault>
        ensures ok { OnOk result (model.stations self.new ≡ map.insert (model.stations self.old) addr aid) }
        ensures err { OnErr result (model.stations self.new ≡ model.stations self.old) }
        ensures kept { frames self.new ≡ frames self.old }
        ensures stays { OnOk result (model.faults self.new ≡ model.faults self.old) }
        ensures memory { result ≡ Err RadioFault.NoMemory → model.faults self.new ≡ model.faults self.old }
        ensures device { result ≡ Err RadioFault.Device → HasRisen (model.faults self.old) (model.faults self.new) }
        ensures count { model.faults self.old ≤ model.faults self.new }
        ensures sent { model.sent self.new ≡ model.sent self.old };

    /// Takes a station out, if it is installed. It takes no memory.
    ///
    /// Errors: `Device`.
    fn remove(&mut self, addr: Addr) -> Result<(), RadioFault>
        ensures ok { OnOk result (model.stations self.new ≡ map.remove (model.stations self.old) addr) }
        ensures err { OnErr result (model.stations self.new ≡ model.stations self.old) }
        ensures kept { frames self.new ≡ frames self.old }
        ensures only_device { OnErr result (result ≡ Err RadioFault.Device) }
        ensures stays { OnOk result (model.faults self.new ≡ model.faults self.old) }
        ensures device { result ≡ Err RadioFault.Device → HasRisen (model.faults self.old) (model.faults self.new) }
        ensures count { model.faults self.old ≤ model.faults self.new }
        ensures sent { model.sent self.new ≡ model.sent self.old };

    /// Sends a frame, without its frame check sequence. No other call adds to the frames that it took.
    ///
    /// Errors: `Device`, and the frame is lost; `NoMemory`, and it was not sent: the call can be made again.
    fn transmit(&mut self, frame: &[u8]) -> Result<(), RadioFault>
        ensures same { model.stations self.new ≡ model.stations self.old }
        ensures kept { frames self.new ≡ frames self.old }
        ensures stays { OnOk result (model.faults self.new ≡ model.faults self.old) }
        ensures memory { result ≡ Err RadioFault.NoMemory → model.faults self.new ≡ model.faults self.old }
        ensures device { result ≡ Err RadioFault.Device → HasRisen (model.faults self.old) (model.faults self.new) }
        ensures count { model.faults self.old ≤ model.faults self.new }
        ensures sent { OnOk result (model.sent self.new ≡ and_then (model.sent self.old) frame.now) }
        ensures unsent { OnErr result (model.sent self.new ≡ model.sent self.old) };

    /// Takes all stations out. It takes no memory and can't fail, so it leaves the count of failures.
    fn take_down(&mut self)
        ensures empty { model.stations self.new ≡ map.empty }
        ensures kept { frames self.new ≡ frames self.old }
        ensures stays { model.faults self.new ≡ model.faults self.old }
        ensures sent { model.sent self.new ≡ model.sent self.old };

    /// The identifier of an installed station. It takes no memory.
    fn installed(&self, addr: Addr) -> Option<u16>
        ensures { result ≡ map.get (model.stations self.now) addr };

    /// How many calls failed in the device. It takes no memory.
    fn failures(&self) -> u64
        ensures { result ≡ model.faults self.now };
}
