//! A slot: a radio, the stations that it should have, and the outs that wait to be applied.
ghost use Rattle.std.specs.Prelude.{◌≡◌, ◌≤◌, ℕ, true, None, [], ◌++◌, length, OnOk, OnErr, IfOk, IfErr, IsOk};
ghost use Rattle.std.specs.FinMap as map;
ghost use Rattle.std.specs.Option.{option_map};
ghost use Rattle.apd_base.specs.Failures.{HasRisen};
ghost use Rattle.apd_radio.specs.Frames.{Polls};

use crate::resuming::{associated_stations, install_all};
use apd_base::{Addr, Aid, Bssid, Sequence};
use apd_mlme::Out;
use apd_radio::{Identifiers, Radio, RadioFault};
use apd_table::Table;
use std::alloc::{AllocError, Global};
use std::collections::VecDeque;
use std::mem;
use std::os::fd::RawFd;
use thiserror::Error;

/// Why a slot did not do what it was asked for.
#[derive(Clone, Copy, Debug, PartialEq, Eq, Error)]
pub enum SlotFault {
    /// The device failed at a station: the slot is down from then on, until it resumes or its radio is
    /// replaced.
    #[error("driver fault")]
    WentDown = 1,
    /// The frame was not sent: the device failed, or the slot is down.
    #[error("frame lost")]
    Lost,
    /// The out is no radio's.
    #[error("not for a radio")]
    NotMine,
    /// Memory ran out. The out was not taken.
    #[error("out of memory")]
    NoMemory,
}

/// A BSSID's radio, of one kind or in a box, the stations that it should have, and the outs that wait to be
/// applied, in order. While it is up, the radio has exactly these stations. While it is down the radio is asked
/// for nothing but received frames, and what it should have is kept.
#[derive(Drop)]
pub struct Slot<R> {
    bssid: Bssid,
    radio: R,
    wanted: Identifiers,
    up: bool,
    queue: VecDeque<Out>,
}

impl<R: Radio> Slot<R> {
    ghost use Rattle.apd_slot.specs.Applying.{AppliesNext, IsGivenOut};
    ghost use Rattle.apd_slot.specs.Resuming.{IsGivenAnew, IsGivenRadio, IsGivenRows};
    ghost use Rattle.apd_slot.specs.Rows.{installed_rows};
    ghost use Rattle.apd_slot.specs.Slots.{bssid_of, is_up_of, queue_of, radio_of, room_of, wanted_of, wanted_then};
    ghost use Rattle.apd_slot.specs.Slots.{HasForgotten, HasRoomFor, SameButQueue, SameButRadio, SameButRoom};
    ghost use Rattle.apd_slot.specs.Wanted.{wanted_after_all, IsText, Stations};

    /// Takes the radio down. The slot is up, no station is wanted, and no out waits. It takes no memory.
    pub fn new(alloc: Global, radio: R, bssid: Bssid) -> Slot<R>
        ensures up { is_up_of result ≡ true }
        ensures wanted { wanted_of result ≡ map.empty }
        ensures installed { R.model.stations (radio_of result) ≡ map.empty }
        ensures queue { queue_of result ≡ [] }
        ensures frames { R.frames (radio_of result) ≡ R.frames radio }
        ensures failures { R.model.faults (radio_of result) ≡ R.model.faults radio }
        ensures sent { R.model.sent (radio_of result) ≡ R.model.sent radio }
        ensures bssid { bssid_of result ≡ bssid }
    {
        let mut radio = radio;
        radio.take_down();
        Slot {
            bssid,
            radio,
            wanted: Identifiers::new(alloc),
            up: true,
            queue: VecDeque::new(alloc),
        }
    }

    /// The BSSID that it is for.
    pub fn bssid(&self) -> Bssid
        ensures { result ≡ bssid_of self.now }
    {
        self.bssid
    }

    /// Whether its radio has the stations that it should have.
    pub fn is_up(&self) -> bool
        ensures { result ≡ is_up_of self.now }
    {
        self.up
    }

    /// The identifier under which a station should be installed. It takes no memory.
    pub fn wanted(&self, addr: Addr) -> Option<u16>
        ensures { result ≡ map.get (wanted_of self.now) addr }
    {
        self.wanted.get(addr)
    }

    /// The identifier under which a station is installed. It takes no memory.
    pub fn installed(&self, addr: Addr) -> Option<u16>
        ensures { result ≡ map.get (R.model.stations (radio_of self.now)) addr }
    {
        self.radio.installed(addr)
    }

    /// How many outs wait to be applied.
    pub fn waiting_count(&self) -> usize
        ensures { result ≡ length (queue_of self.now) }
    {
        self.queue.len()
    }

    /// The next frame that the radio received, whether the slot is up or down.
    ///
    /// Errors: the radio's.
    pub fn poll(&mut self) -> Result<Option<Vec<u8>>, RadioFault>
        ensures next { IfOk result
            (λ got. Polls (R.frames (radio_of self.old)) (option_map (λ frame. frame.items) got)
            (R.frames (radio_of self.new))) }
        ensures unknown { OnErr result
            ((R.frames (radio_of self.old) ≡ None) × (R.frames (radio_of self.new) ≡ None)) }
        ensures installed { R.model.stations (radio_of self.new) ≡ R.model.stations (radio_of self.old) }
        ensures stays { OnOk result (R.model.faults (radio_of self.new) ≡ R.model.faults (radio_of self.old)) }
        ensures short { result ≡ Err RadioFault.NoMemory
            → R.model.faults (radio_of self.new) ≡ R.model.faults (radio_of self.old) }
        ensures device { result ≡ Err RadioFault.Device
            → HasRisen (R.model.faults (radio_of self.old)) (R.model.faults (radio_of self.new)) }
        ensures count { R.model.faults (radio_of self.old) ≤ R.model.faults (radio_of self.new) }
        ensures sent { R.model.sent (radio_of self.new) ≡ R.model.sent (radio_of self.old) }
        ensures same { SameButRadio self.old self.new }
        ensures wanted_then { wanted_then self.new ≡ wanted_then self.old }
    {
        self.radio.poll()
    }

    /// The radio's descriptor: the one of before a replacement is not that of after it.
    pub fn descriptor(&self) -> Option<RawFd> {
        self.radio.descriptor()
    }

    /// Makes room for so many outs behind those that wait, if any does: where none waits, `queue` needs none.
    pub fn make_room(&mut self, count: usize) -> Result<(), AllocError>
        ensures room { OnOk result (HasRoomFor count self.new) }
        ensures idle { queue_of self.old ≡ [] → IsOk result }
        ensures lacks { OnErr result (1 ≤ count) }
        ensures same { SameButRoom self.old self.new }
        ensures wanted_then { wanted_then self.new ≡ wanted_then self.old }
    {
        if self.queue.is_empty() {
            return Ok(());
        }
        self.queue.reserve(count)
    }

    /// Puts outs behind those that wait, for which there is room. It takes no memory.
    #[tactic(auto, using(crate::proofs::Waiting::queued_behind))]
    pub fn queue(&mut self, outs: Vec<Out>)
        requires { HasRoomFor (length outs.items) self.old }
        ensures queue { queue_of self.new ≡ queue_of self.old ++ outs.items }
        ensures same { SameButQueue self.old self.new }
        ensures wanted_then { wanted_then self.new ≡ wanted_after_all outs.items (wanted_then self.old) }
    {
        let mut outs = VecDeque::from_vec(outs);
        if self.queue.is_empty() {
            self.queue = outs;
        } else {
            let _ = self.queue.append(&mut outs);
        }
    }

    /// Drops the outs that wait.
    pub fn forget(&mut self)
        ensures { HasForgotten self.old self.new }
    {
        self.queue.clear();
    }

    /// Applies the first of the outs that wait, and takes it off: it comes back beside the answer of `apply` to it.
    /// None where none waits.
    ///
    /// Errors: where memory ran out, all is as it was, and the out stays first.
    pub fn apply_next(&mut self) -> Option<Result<(Out, Result<(), SlotFault>), AllocError>>
        ensures applied { AppliesNext R.model result self.old self.new }
        ensures frames { R.frames (radio_of self.new) ≡ R.frames (radio_of self.old) }
        ensures wanted_then { wanted_then self.new ≡ wanted_then self.old }
    {
        if self.queue.is_empty() {
            return None;
        }
        let Some(out) = self.queue.pop_front() else {
            unreachable!()
        };
        let answer = self.apply(&out);
        if answer == Err(SlotFault::NoMemory) {
            self.queue.push_front_reserved(out);
            return Some(Err(AllocError));
        }
        Some(Ok((out, answer)))
    }

    /// Gives the radio an out, if the slot is up, and keeps the stations that are wanted. It leaves the outs that
    /// wait, and their room.
    ///
    /// `Install` and `Remove` change what is wanted, and where the slot is up the radio too: it goes down where
    /// the device fails there (`WentDown`). A frame is sent once, or `Lost`. A text is no radio's (`NotMine`).
    ///
    /// Errors: as said; `NoMemory`, which leaves all as it was, so that the out can be given again. `Remove`
    /// and a text take no memory.
    pub fn apply(&mut self, out: &Out) -> Result<(), SlotFault>
        ensures given { IsGivenOut R.model out.now result self.old self.new }
        ensures queue { queue_of self.new ≡ queue_of self.old }
        ensures room { room_of self.new ≡ room_of self.old }
        ensures text { IsText out.now → self.new ≡ self.old }
        ensures frames { R.frames (radio_of self.new) ≡ R.frames (radio_of self.old) }
    {
        match out {
            Out::Install(addr, aid) => self.install(*addr, *aid),
            Out::Remove(addr) => self.remove(*addr),
            Out::Frame(frame) => self.transmit(frame),
            Out::Text(_, _) => Err(SlotFault::NotMine),
        }
    }

    fn install(&mut self, addr: Addr, aid: Aid) -> Result<(), SlotFault>
        ensures given { IsGivenOut R.model (Out.Install addr aid) result self.old self.new }
        ensures queue { self.new.queue ≡ self.old.queue }
        ensures frames { R.frames (radio_of self.new) ≡ R.frames (radio_of self.old) }
    {
        let before = self.wanted.get(addr);
        let Ok(()) = self.wanted.insert(addr, aid.number) else {
            return Err(SlotFault::NoMemory);
        };
        if !self.up {
            return Ok(());
        }
        match self.radio.install(addr, aid.number) {
            Ok(()) => Ok(()),
            Err(RadioFault::Device) => {
                self.up = false;
                Err(SlotFault::WentDown)
            }
            Err(RadioFault::NoMemory) => {
                self.put_back(addr, before);
                Err(SlotFault::NoMemory)
            }
        }
    }

    // Takes the insertion at an address back, where this stood there before.
    fn put_back(&mut self, addr: Addr, before: Option<u16>)
        ensures wanted { (wanted : Stations) (aid : ℕ) → self.old.wanted ≡ map.insert wanted addr aid
            → before ≡ map.get wanted addr → self.new.wanted ≡ wanted }
        ensures same { self.new ≡ record self.old { wanted = self.new.wanted } }
    {
        match before {
            Some(aid) => {
                let _ = self.wanted.insert(addr, aid);
            }
            None => self.wanted.remove(addr),
        }
    }

    fn remove(&mut self, addr: Addr) -> Result<(), SlotFault>
        ensures given { IsGivenOut R.model (Out.Remove addr) result self.old self.new }
        ensures queue { self.new.queue ≡ self.old.queue }
        ensures frames { R.frames (radio_of self.new) ≡ R.frames (radio_of self.old) }
    {
        self.wanted.remove(addr);
        if !self.up {
            return Ok(());
        }
        if self.radio.remove(addr).is_err() {
            self.up = false;
            return Err(SlotFault::WentDown);
        }
        Ok(())
    }

    fn transmit(&mut self, frame: &Sequence<u8>) -> Result<(), SlotFault>
        ensures given { IsGivenOut R.model (Out.Frame frame.now) result self.old self.new }
        ensures queue { self.new.queue ≡ self.old.queue }
        ensures frames { R.frames (radio_of self.new) ≡ R.frames (radio_of self.old) }
    {
        if !self.up {
            return Err(SlotFault::Lost);
        }
        match self.radio.transmit(frame.as_slice()) {
            Ok(()) => Ok(()),
            Err(RadioFault::Device) => Err(SlotFault::Lost),
            Err(RadioFault::NoMemory) => Err(SlotFault::NoMemory),
        }
    }

    /// Gives the radio the associated stations of its BSSID in a table, and no others; they are what is wanted
    /// from then on, and the slot is up. The radio is taken down first, and gets one call a station. The outs that
    /// wait are dropped: they are older than the table.
    ///
    /// Errors: `WentDown`, `NoMemory`. The slot is down then; what is wanted, and what waits, is as before.
    pub fn resume(&mut self, alloc: Global, table: &Table) -> Result<(), SlotFault>
        ensures given { IsGivenRows R.model (installed_rows table.now (bssid_of self.old)) result self.old self.new }
        ensures frames { R.frames (radio_of self.new) ≡ R.frames (radio_of self.old) }
    {
        self.up = false;
        let Ok(wanted) = associated_stations(alloc, table, self.bssid) else {
            self.radio.take_down();
            return Err(SlotFault::NoMemory);
        };
        install_all(&mut self.radio, &wanted)?;
        self.wanted = wanted;
        self.forget();
        self.up = true;
        Ok(())
    }

    /// Gives its own radio anew the stations that are wanted, and no others; the slot is up then. The radio is taken
    /// down first, and gets one call a station. What is wanted stays, and so do the outs that wait.
    ///
    /// Errors: `WentDown`, where its device failed; `NoMemory`. The slot is down then.
    pub fn resync(&mut self) -> Result<(), SlotFault>
        ensures given { IsGivenAnew R.model result self.old self.new }
        ensures room { room_of self.new ≡ room_of self.old }
        ensures frames { R.frames (radio_of self.new) ≡ R.frames (radio_of self.old) }
        ensures wanted_then { wanted_then self.new ≡ wanted_then self.old }
    {
        let answer = install_all(&mut self.radio, &self.wanted);
        self.up = answer.is_ok();
        answer
    }

    /// Puts another radio in the place of this one, with the stations that are wanted and no others, and gives
    /// this one back, taken down; the slot is up then. The other one is taken down first, and gets one call a
    /// station. The outs that wait stay.
    ///
    /// Errors: `WentDown`, where the other radio's device failed, and `NoMemory`, beside that radio, taken down.
    /// The slot keeps its own radio, and is down.
    pub fn replace(&mut self, radio: R) -> Result<R, (R, SlotFault)>
        ensures given { IsGivenRadio R.model radio result self.old self.new }
        ensures own { IfOk result (λ own. R.frames own ≡ R.frames (radio_of self.old)) }
        ensures other { OnOk result (R.frames (radio_of self.new) ≡ R.frames radio) }
        ensures back { IfErr result (λ failed. R.frames failed.0 ≡ R.frames radio) }
        ensures wanted_then { wanted_then self.new ≡ wanted_then self.old }
    {
        let mut radio = radio;
        self.up = false;
        match install_all(&mut radio, &self.wanted) {
            Ok(()) => {
                let mut old = mem::replace(&mut self.radio, radio);
                old.take_down();
                self.up = true;
                Ok(old)
            }
            Err(fault) => {
                radio.take_down();
                Err((radio, fault))
            }
        }
    }
}
