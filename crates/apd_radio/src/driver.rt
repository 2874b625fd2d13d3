//! A radio's driver in another process of this host.
ghost use Rattle.std.specs.Prelude.{◌≡◌, [], ◌∷◌, ◌++◌, Err, IfOk, IfSome, IsSome, OnOk, OnErr};
ghost use Rattle.std.specs.FinMap as map;
ghost use Rattle.apd_radio.specs.Drivers.{install_text, remove_text, map_text, next_number, HearsNext, IsLocal, IsSaid};

use crate::datagrams::{Datagrams, SocketFault};
use crate::driver_words::{install_text, map_text, remove_text};
use crate::heard::Heard;
use crate::identifiers::Identifiers;
use crate::radio::RadioFault;
use crate::strangers::Strangers;
use apd_base::{Addr, Sequence};
use apd_udp::GhostList;
use std::alloc::Global;
use std::net::{Ipv4Addr, Net, SocketAddr, SocketAddrV4};
use std::os::fd::RawFd;

/// The number of the first word.
const FIRST: u64 = 1;

/// A driver at a port of 127.0.0.1, heard and told at a port of the radio's.
#[derive(Drop)]
pub(crate) struct Driver {
    datagrams: Datagrams,
    address: SocketAddr,
    strangers: Strangers,
    // The number of the next word.
    number: u64,
    // The datagrams that the system took for it, in order: frames and words.
    told: GhostList<Sequence<u8>>,
    // What came in at the radio's port, of it and of others.
    received: GhostList<(SocketAddr, Sequence<u8>)>,
    alloc: Global,
}

impl Driver {
    /// Opens the radio's port. Nothing is sent yet.
    ///
    /// Errors: `NoSocket` where the port can't be had, `NoMemory` where memory runs out.
    pub(crate) fn new<R: Net>(
        rt: &R,
        alloc: Global,
        port: u16,
        driver: u16,
    ) -> Result<Driver, SocketFault>
        ensures at { IfOk result (λ made. IsLocal made.address driver) }
        ensures told { IfOk result (λ made. made.told.items ≡ []) }
        ensures received { IfOk result (λ made. made.received.items ≡ []) }
        ensures first { IfOk result (λ made. made.number ≡ FIRST) }
    {
        Ok(Driver {
            datagrams: Datagrams::bind(rt, alloc, port)?,
            address: SocketAddr::V4(SocketAddrV4::new(Ipv4Addr::LOCALHOST, driver)),
            strangers: Strangers::new(alloc)?,
            number: FIRST,
            told: GhostList::new(),
            received: GhostList::new(),
            alloc,
        })
    }

    /// The descriptor of the radio's port.
    pub(crate) fn descriptor(&self) -> RawFd {
        self.datagrams.descriptor()
    }

    /// The count of datagrams that came from elsewhere.
    pub(crate) fn strangers(&self) -> &Strangers {
        &self.strangers
    }

    /// What of the driver is heard next. A datagram from elsewhere is dropped, and counted. (The socket isn't connected to
    /// the driver: else one that is gone would be a fault of the device.)
    ///
    /// Errors: `Device`, and nothing was received; `NoMemory`, and the datagram stays.
    //
    // The clause `first` is what holds the list to what came in: no body sees whether a datagram waited.
    pub(crate) fn receive(&mut self) -> Result<Heard, RadioFault>
        ensures first { IfSome self.old.datagrams
            (λ waited. OnOk result
            (self.new.received.items ≡ self.old.received.items ++ waited ∷ [])) }
        ensures heard { IfOk result
            (λ heard. HearsNext self.old.address self.old.received.items heard self.new.received.items) }
        ensures unheard { OnErr result (self.new.received ≡ self.old.received) }
        ensures kept { IsSome self.old.datagrams → OnErr result (self.new.datagrams ≡ self.old.datagrams) }
        ensures memory { result ≡ Err RadioFault.NoMemory → IsSome self.new.datagrams }
        ensures same { self.new
            ≡ record self.old { datagrams = self.new.datagrams; received = self.new.received } }
    {
        let Some((sender, bytes)) = self.datagrams.receive()? else {
            return Ok(Heard::Nothing);
        };
        self.received.note(&(sender, bytes.as_slice()));
        let heard = Heard::of(self.address, sender, bytes);
        if let Heard::Stranger = heard {
            self.strangers.pass_over();
        }
        Ok(heard)
    }

    /// Sends a datagram.
    ///
    /// Errors: `Device`: the system did not take it.
    pub(crate) fn send(&mut self, datagram: &[u8]) -> Result<(), RadioFault>
        ensures told { OnOk result (self.new.told.items ≡ self.old.told.items ++ datagram.now ∷ []) }
        ensures untold { OnErr result (self.new.told ≡ self.old.told) }
        ensures same { self.new ≡ record self.old { told = self.new.told } }
        ensures fault { OnErr result (result ≡ Err RadioFault.Device) }
    {
        self.datagrams.send(self.address, datagram)?;
        self.told.note(&datagram);
        Ok(())
    }

    // Sends a word, which has the next number; the word behind it has the one behind that, also where the system did not
    // take this one.
    fn say(&mut self, word: &[u8]) -> Result<(), RadioFault>
        ensures said { OnOk result
            (IsSaid word.now self.old.number self.old.told.items self.new.number self.new.told.items) }
        ensures unsaid { OnErr result (self.new.told ≡ self.old.told) }
        ensures number { self.new.number ≡ next_number self.old.number }
        ensures same { self.new ≡ record self.old { told = self.new.told; number = self.new.number } }
    {
        self.number = self.number.wrapping_add(1);
        self.send(word)
    }

    /// Tells it that a station comes in.
    ///
    /// Errors: `Device` or `NoMemory`: it was not told.
    pub(crate) fn tell_install(&mut self, addr: Addr, aid: u16) -> Result<(), RadioFault>
        ensures said { OnOk result
            (IsSaid (install_text self.old.number addr aid) self.old.number self.old.told.items self.new.number
            self.new.told.items) }
        ensures unsaid { OnErr result (self.new.told ≡ self.old.told) }
        ensures same { self.new ≡ record self.old { told = self.new.told; number = self.new.number } }
    {
        let word = install_text(self.alloc, self.number, addr, aid)?;
        self.say(word.as_slice())
    }

    /// Tells it that a station goes.
    ///
    /// Errors: `Device` or `NoMemory`: it was not told.
    pub(crate) fn tell_remove(&mut self, addr: Addr) -> Result<(), RadioFault>
        ensures said { OnOk result
            (IsSaid (remove_text self.old.number addr) self.old.number self.old.told.items self.new.number
            self.new.told.items) }
        ensures unsaid { OnErr result (self.new.told ≡ self.old.told) }
        ensures same { self.new ≡ record self.old { told = self.new.told; number = self.new.number } }
    {
        let word = remove_text(self.alloc, self.number, addr)?;
        self.say(word.as_slice())
    }

    /// Tells it that these stations are there, and no others.
    ///
    /// Errors: `Device` or `NoMemory`: it was not told.
    pub(crate) fn tell_map(&mut self, stations: &Identifiers) -> Result<(), RadioFault>
        ensures said { OnOk result
            (IsSaid (map_text self.old.number (map.entries stations.now)) self.old.number self.old.told.items
            self.new.number self.new.told.items) }
        ensures unsaid { OnErr result (self.new.told ≡ self.old.told) }
        ensures same { self.new ≡ record self.old { told = self.new.told; number = self.new.number } }
    {
        let word = map_text(self.alloc, self.number, stations.rows())?;
        self.say(word.as_slice())
    }
}
