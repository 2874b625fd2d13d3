//! A radio whose driver is another process of this host.
ghost use Rattle.std.specs.Prelude.{◌≡◌, ◌≤◌, [], ◌∷◌, ◌++◌, ◌↔◌, ◌⊎◌, Bool, Some, true, false, IfOk, IfSome, IsSome, OnOk, OnErr};
ghost use Rattle.std.specs.Option.{option_map};
ghost use Rattle.std.specs.FinMap as map;
ghost use Rattle.apd_base.specs.Failures.{HasRisen};
ghost use Rattle.apd_radio.specs.Drivers.{install_text, remove_text, map_text, words_due, next_number, Gives, HearsNext, Heeds, IsFault, IsLocal, IsTold, IsToldMap, IsUp, PassesOver, WaitsOrCame};
ghost use Rattle.apd_radio.specs.Faults.{Counts};
ghost use Rattle.apd_radio.specs.Frames.{and_then};

use crate::counting::count_fault;
use crate::datagrams::SocketFault;
use crate::driver::Driver;
use crate::driver_words::{fault_number, is_up, is_word};
use crate::heard::Heard;
use crate::identifiers::Identifiers;
use crate::radio::{Radio, RadioFault};
use crate::strangers::Strangers;
use apd_base::{Addr, Sequence};
use apd_udp::GhostList;
use std::alloc::Global;
use std::net::Net;
use std::os::fd::RawFd;

/// How many datagrams a call of `poll` takes that are no frames: the driver's words, and what comes from elsewhere.
const AT_ONCE: u32 = 64;

/// A radio whose driver is another process of this host, at a port that is named: what comes from elsewhere is not
/// polled, and what is sent goes there alone, from the start on. Driver calls leave too, as words between the frames.
///
/// No call waits for the driver, nor for an answer of it. Before anything else it is told the whole map, by the first
/// `poll` or `transmit`, and so it is after `take_down`: stations that are installed in between are in the map, and have
/// no word of their own. It is told the map again where it asks for it, and where a word was not sent, as when memory
/// ran out.
///
/// A driver's fault is told at a later call than that whose word it names: the next `install` or `remove` answers
/// `Device` where a fault of any word came in since the last call that answered so (`failed`, and `heeds` of `poll`),
/// and tells the driver nothing itself.
///
/// Where it is dropped it tells the driver nothing, though radios of the other kinds are taken down then: the stations
/// stay associated while the daemon is started again, and the next daemon tells the driver its whole map first.
///
/// A frame that was received stays until there is memory for it: a `poll` that answers `NoMemory` lost nothing. A
/// `transmit` answers `NoMemory` where the map is to be told first and there is no memory for it, and `Device` where the
/// system takes the map or the frame for none.
#[derive(Drop)]
pub struct DriverRadio {
    driver: Driver,
    stations: Identifiers,
    // Whether the driver is to be told the whole map before it is sent anything else.
    due: bool,
    // Whether the driver said that it failed, and no call answered so yet.
    failed: bool,
    failures: u64,
    sent: GhostList<Sequence<u8>>,
}

impl DriverRadio {
    /// Opens a port for the radio, whose driver is at another port. Port 0 is for tests: the system chooses one that is
    /// free.
    ///
    /// Errors: `NoSocket` where the port can't be had, `NoMemory` where memory runs out.
    pub fn new<R: Net>(
        rt: &R,
        alloc: Global,
        port: u16,
        driver: u16,
    ) -> Result<DriverRadio, SocketFault>
        ensures stations { IfOk result (λ radio. radio.stations ≡ map.empty) }
        ensures failures { IfOk result (λ radio. radio.failures ≡ 0) }
        ensures sent { IfOk result (λ radio. radio.sent.items ≡ []) }
        ensures told { IfOk result (λ radio. radio.driver.told.items ≡ []) }
        ensures due { IfOk result (λ radio. radio.due ≡ true) }
        ensures failed { IfOk result (λ radio. radio.failed ≡ false) }
        ensures at { IfOk result (λ radio. IsLocal radio.driver.address driver) }
        ensures received { IfOk result (λ radio. radio.driver.received.items ≡ []) }
        ensures first { IfOk result (λ radio. radio.driver.number ≡ 1) }
    {
        Ok(DriverRadio {
            driver: Driver::new(rt, alloc, port, driver)?,
            stations: Identifiers::new(alloc),
            due: true,
            failed: false,
            failures: 0,
            sent: GhostList::new(),
        })
    }

    /// The count of datagrams that came from elsewhere and were passed over; a clone of it is another handle.
    pub fn strangers(&self) -> &Strangers {
        self.driver.strangers()
    }

    // Does what a word of the driver's asks for. One that says nothing known is passed over.
    fn heed(&mut self, word: &[u8])
        ensures up { (self.new.due ≡ true) ↔ ((self.old.due ≡ true) ⊎ IsUp word.now) }
        ensures fault { (self.new.failed ≡ true) ↔ ((self.old.failed ≡ true) ⊎ IsFault word.now) }
        ensures same { self.new ≡ record self.old { due = self.new.due; failed = self.new.failed } }
    {
        if is_up(word) {
            self.due = true;
        }
        if let Some(_number) = fault_number(word) {
            self.failed = true;
        }
    }
}

// What is heard, and what is told before anything else.
impl DriverRadio {
    // What of the driver is heard next; a word is heeded.
    fn hear(&mut self) -> Result<Heard, RadioFault>
        ensures heard { IfOk result (λ heard. HearsNext self.old.driver.address self.old.driver.received.items heard
            self.new.driver.received.items) }
        ensures first { IfSome self.old.driver.datagrams
            (λ waited. OnOk result
            (self.new.driver.received.items ≡ self.old.driver.received.items ++ waited ∷ [])) }
        ensures unheard { OnErr result (self.new.driver.received ≡ self.old.driver.received) }
        ensures kept { IsSome self.old.driver.datagrams
            → OnErr result (self.new.driver.datagrams ≡ self.old.driver.datagrams) }
        ensures memory { result ≡ Err RadioFault.NoMemory → IsSome self.new.driver.datagrams }
        ensures heeds { Heeds self.old.driver.address self.old.driver.received.items
            self.new.driver.received.items self.old.due self.old.failed self.new.due self.new.failed }
        ensures driver { self.new.driver ≡ record self.old.driver {
          datagrams = self.new.driver.datagrams;
          received = self.new.driver.received;
        } }
        ensures same { self.new
            ≡ record self.old { driver = self.new.driver; due = self.new.due; failed = self.new.failed } }
    {
        let heard = self.driver.receive()?;
        if let Heard::Datagram(bytes) = &heard {
            self.heed(bytes.as_slice());
        }
        Ok(heard)
    }

    // The driver's next frame, if one waits; its words in front are heeded. Without one the driver's port may have more.
    fn listen(&mut self) -> Result<Option<Vec<u8>>, RadioFault>
        ensures gives { IfOk result (λ got. Gives self.old.driver.address self.old.driver.received.items
            (option_map (λ frame. frame.items) got) self.new.driver.received.items) }
        ensures passes { OnErr result (PassesOver self.old.driver.address self.old.driver.received.items
            self.new.driver.received.items) }
        ensures waits { WaitsOrCame self.old.driver.datagrams self.old.driver.received.items
            self.new.driver.datagrams self.new.driver.received.items }
        ensures memory { result ≡ Err RadioFault.NoMemory → IsSome self.new.driver.datagrams }
        ensures heeds { Heeds self.old.driver.address self.old.driver.received.items
            self.new.driver.received.items self.old.due self.old.failed self.new.due self.new.failed }
        ensures driver { self.new.driver ≡ record self.old.driver {
          datagrams = self.new.driver.datagrams;
          received = self.new.driver.received;
        } }
        ensures same { self.new
            ≡ record self.old { driver = self.new.driver; due = self.new.due; failed = self.new.failed } }
    {
        for _ in 0..AT_ONCE {
            match self.hear()? {
                Heard::Nothing => return Ok(None),
                Heard::Stranger => {}
                Heard::Datagram(bytes) => {
                    if !is_word(bytes.as_slice()) {
                        return Ok(Some(bytes));
                    }
                }
            }
        }
        Ok(None)
    }

    // Tells the driver the whole map, where it is due.
    //
    // Errors: `Device` or `NoMemory`, and it stays due.
    fn tell_due(&mut self) -> Result<(), RadioFault>
        ensures told { OnOk result (self.new.driver.told.items
            ≡ self.old.driver.told.items ++ words_due self.old.due self.old.stations self.old.driver.number) }
        ensures done { OnOk result (self.new.due ≡ false) }
        ensures due { OnErr result (self.new.due ≡ true) }
        ensures map { IsToldMap self.old.due (map_text self.old.driver.number (map.entries self.old.stations))
            self.old.driver.told.items self.new.due self.new.driver.told.items }
        ensures driver { self.new.driver
            ≡ record self.old.driver { told = self.new.driver.told; number = self.new.driver.number } }
        ensures same { self.new ≡ record self.old { driver = self.new.driver; due = self.new.due } }
    {
        if self.due {
            self.driver.tell_map(&self.stations)?;
            self.due = false;
        }
        Ok(())
    }

    // Answers that the driver failed, once.
    fn answer_failure(&mut self) -> Result<(), RadioFault>
        ensures failed { (result ≡ Err RadioFault.Device) ↔ (self.old.failed ≡ true) }
        ensures answered { self.new.failed ≡ false }
        ensures only { OnErr result (result ≡ Err RadioFault.Device) }
        ensures count { Counts self.old.failures self.new.failures result }
        ensures same { self.new ≡ record self.old { failed = self.new.failed; failures = self.new.failures } }
    {
        if !self.failed {
            return Ok(());
        }
        self.failed = false;
        count_fault(&mut self.failures, Err(RadioFault::Device))
    }
}

// A method with an `ensures` of its own has its clauses in place of the trait's. So each one here repeats the trait's
// beside those that are its own: what is given of what came in (`gives`, `passes`), what of it is heeded (`heeds`), what
// the driver is told (`told`, `map`, `done`, `due`), what it said (`failed`), and which one it is (`driver`).
impl Radio for DriverRadio {
    ghost model = { record {
      stations = λ radio. radio.stations;
      faults = λ radio. radio.failures;
      sent = λ radio. Some radio.sent.items;
    } };

    fn poll(&mut self) -> Result<Option<Vec<u8>>, RadioFault>
        ensures same { self.new.stations ≡ self.old.stations }
        ensures stays { OnOk result (self.new.failures ≡ self.old.failures) }
        ensures memory { result ≡ Err RadioFault.NoMemory → self.new.failures ≡ self.old.failures }
        ensures device { result ≡ Err RadioFault.Device → HasRisen self.old.failures self.new.failures }
        ensures count { self.old.failures ≤ self.new.failures }
        ensures sent { self.new.sent ≡ self.old.sent }
        ensures gives { IfOk result (λ got. Gives self.old.driver.address self.old.driver.received.items
            (option_map (λ frame. frame.items) got) self.new.driver.received.items) }
        ensures passes { OnErr result (PassesOver self.old.driver.address self.old.driver.received.items
            self.new.driver.received.items) }
        ensures waits { WaitsOrCame self.old.driver.datagrams self.old.driver.received.items
            self.new.driver.datagrams self.new.driver.received.items }
        ensures waiting { result ≡ Err RadioFault.NoMemory → IsSome self.new.driver.datagrams }
        ensures heeds { (due : Bool)
            × Heeds self.old.driver.address self.old.driver.received.items self.new.driver.received.items
            self.old.due self.old.failed due self.new.failed
            × IsToldMap due (map_text self.old.driver.number (map.entries self.old.stations))
            self.old.driver.told.items self.new.due self.new.driver.told.items }
        ensures driver { self.new.driver.address ≡ self.old.driver.address }
    {
        let answer = self.listen();
        let _told = self.tell_due();
        count_fault(&mut self.failures, answer)
    }

    fn descriptor(&self) -> Option<RawFd> {
        Some(self.driver.descriptor())
    }

    fn install(&mut self, addr: Addr, aid: u16) -> Result<(), RadioFault>
        ensures ok { OnOk result (self.new.stations ≡ map.insert self.old.stations addr aid) }
        ensures err { OnErr result (self.new.stations ≡ self.old.stations) }
        ensures stays { OnOk result (self.new.failures ≡ self.old.failures) }
        ensures memory { result ≡ Err RadioFault.NoMemory → self.new.failures ≡ self.old.failures }
        ensures device { result ≡ Err RadioFault.Device → HasRisen self.old.failures self.new.failures }
        ensures count { self.old.failures ≤ self.new.failures }
        ensures sent { self.new.sent ≡ self.old.sent }
        ensures told { OnOk result (IsTold (install_text self.old.driver.number addr aid) self.old.driver.told.items
            self.new.due self.new.driver.told.items) }
        ensures due { self.old.due ≡ true → self.new.due ≡ true }
        ensures failed { (result ≡ Err RadioFault.Device) ↔ (self.old.failed ≡ true) }
        ensures answered { self.new.failed ≡ false }
        ensures untold { OnErr result (self.new.driver.told ≡ self.old.driver.told) }
        ensures number { self.new.due ≡ false → OnOk result (self.new.driver.number ≡ next_number self.old.driver.number) }
        ensures unheard { (self.new.driver.received ≡ self.old.driver.received)
            × (self.new.driver.datagrams ≡ self.old.driver.datagrams) }
        ensures driver { self.new.driver.address ≡ self.old.driver.address }
    {
        self.answer_failure()?;
        self.stations.insert(addr, aid)?;
        if !self.due {
            self.due = self.driver.tell_install(addr, aid).is_err();
        }
        Ok(())
    }

    fn remove(&mut self, addr: Addr) -> Result<(), RadioFault>
        ensures ok { OnOk result (self.new.stations ≡ map.remove self.old.stations addr) }
        ensures err { OnErr result (self.new.stations ≡ self.old.stations) }
        ensures only_device { OnErr result (result ≡ Err RadioFault.Device) }
        ensures stays { OnOk result (self.new.failures ≡ self.old.failures) }
        ensures device { result ≡ Err RadioFault.Device → HasRisen self.old.failures self.new.failures }
        ensures count { self.old.failures ≤ self.new.failures }
        ensures sent { self.new.sent ≡ self.old.sent }
        ensures told { OnOk result (IsTold (remove_text self.old.driver.number addr) self.old.driver.told.items
            self.new.due self.new.driver.told.items) }
        ensures due { self.old.due ≡ true → self.new.due ≡ true }
        ensures failed { (result ≡ Err RadioFault.Device) ↔ (self.old.failed ≡ true) }
        ensures answered { self.new.failed ≡ false }
        ensures untold { OnErr result (self.new.driver.told ≡ self.old.driver.told) }
        ensures number { self.new.due ≡ false → OnOk result (self.new.driver.number ≡ next_number self.old.driver.number) }
        ensures unheard { (self.new.driver.received ≡ self.old.driver.received)
            × (self.new.driver.datagrams ≡ self.old.driver.datagrams) }
        ensures driver { self.new.driver.address ≡ self.old.driver.address }
    {
        self.answer_failure()?;
        self.stations.remove(addr);
        if !self.due {
            self.due = self.driver.tell_remove(addr).is_err();
        }
        Ok(())
    }

    fn transmit(&mut self, frame: &[u8]) -> Result<(), RadioFault>
        ensures same { self.new.stations ≡ self.old.stations }
        ensures stays { OnOk result (self.new.failures ≡ self.old.failures) }
        ensures memory { result ≡ Err RadioFault.NoMemory → self.new.failures ≡ self.old.failures }
        ensures device { result ≡ Err RadioFault.Device → HasRisen self.old.failures self.new.failures }
        ensures count { self.old.failures ≤ self.new.failures }
        ensures sent { OnOk result (self.new.sent.items ≡ self.old.sent.items ++ frame.now ∷ []) }
        ensures unsent { OnErr result (self.new.sent ≡ self.old.sent) }
        ensures told { OnOk result (self.new.driver.told.items ≡ (self.old.driver.told.items
            ++ words_due self.old.due self.old.stations self.old.driver.number) ++ frame.now ∷ []) }
        ensures map { OnErr result (IsToldMap self.old.due
            (map_text self.old.driver.number (map.entries self.old.stations)) self.old.driver.told.items
            self.new.due self.new.driver.told.items) }
        ensures done { OnOk result (self.new.due ≡ false) }
        ensures failed { self.new.failed ≡ self.old.failed }
        ensures unheard { (self.new.driver.received ≡ self.old.driver.received)
            × (self.new.driver.datagrams ≡ self.old.driver.datagrams) }
        ensures driver { self.new.driver.address ≡ self.old.driver.address }
    {
        let told = self.tell_due();
        count_fault(&mut self.failures, told)?;
        let answer = self.driver.send(frame);
        count_fault(&mut self.failures, answer)?;
        self.sent.note(&frame);
        Ok(())
    }

    fn take_down(&mut self)
        ensures empty { self.new.stations ≡ map.empty }
        ensures stays { self.new.failures ≡ self.old.failures }
        ensures sent { self.new.sent ≡ self.old.sent }
        ensures due { self.new.due ≡ true }
        ensures failed { self.new.failed ≡ self.old.failed }
        ensures untold { self.new.driver.told ≡ self.old.driver.told }
        ensures unheard { (self.new.driver.received ≡ self.old.driver.received)
            × (self.new.driver.datagrams ≡ self.old.driver.datagrams) }
        ensures driver { self.new.driver.address ≡ self.old.driver.address }
    {
        self.stations.clear();
        self.due = true;
    }

    fn installed(&self, addr: Addr) -> Option<u16> {
        self.stations.get(addr)
    }

    fn failures(&self) -> u64 {
        self.failures
    }
}
