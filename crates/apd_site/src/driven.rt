//! A radio over datagrams, by who drives it.
ghost use Rattle.apd_site.specs.Driven.{by_driver, of_driven};

use apd_base::Addr;
use apd_radio::{DriverRadio, Radio, RadioFault, UdpSim};
use std::os::fd::RawFd;

/// A radio whose driver is whoever is heard last, or one that is named. What serves is proved, and built, for this type
/// alone; and it is proved itself by what any radio promises, and not by the clauses of these two.
#[derive(Drop)]
pub enum DrivenBy<A: Radio, B: Radio> {
    /// By whoever is heard last.
    Anyone(A),
    /// By a process at a port of this host.
    Named(B),
}

/// A radio of a site, which isn't recorded yet.
pub type Driven = DrivenBy<UdpSim, DriverRadio>;

impl<A: Radio, B: Radio> Radio for DrivenBy<A, B> {
    ghost model = { of_driven A.model B.model };

    ghost frames = { by_driver A.frames B.frames };

    fn poll(&mut self) -> Result<Option<Vec<u8>>, RadioFault> {
        match self {
            DrivenBy::Anyone(radio) => radio.poll(),
            DrivenBy::Named(radio) => radio.poll(),
        }
    }

    fn descriptor(&self) -> Option<RawFd> {
        match self {
            DrivenBy::Anyone(radio) => radio.descriptor(),
            DrivenBy::Named(radio) => radio.descriptor(),
        }
    }

    fn install(&mut self, addr: Addr, aid: u16) -> Result<(), RadioFault> {
        match self {
            DrivenBy::Anyone(radio) => radio.install(addr, aid),
            DrivenBy::Named(radio) => radio.install(addr, aid),
        }
    }

    fn remove(&mut self, addr: Addr) -> Result<(), RadioFault> {
        match self {
            DrivenBy::Anyone(radio) => radio.remove(addr),
            DrivenBy::Named(radio) => radio.remove(addr),
        }
    }

    fn transmit(&mut self, frame: &[u8]) -> Result<(), RadioFault> {
        match self {
            DrivenBy::Anyone(radio) => radio.transmit(frame),
            DrivenBy::Named(radio) => radio.transmit(frame),
        }
    }

    fn take_down(&mut self) {
        match self {
            DrivenBy::Anyone(radio) => radio.take_down(),
            DrivenBy::Named(radio) => radio.take_down(),
        }
    }

    fn installed(&self, addr: Addr) -> Option<u16> {
        match self {
            DrivenBy::Anyone(radio) => radio.installed(addr),
            DrivenBy::Named(radio) => radio.installed(addr),
        }
    }

    fn failures(&self) -> u64 {
        match self {
            DrivenBy::Anyone(radio) => radio.failures(),
            DrivenBy::Named(radio) => radio.failures(),
        }
    }
}
