//! A radio in memory alone.
ghost use Rattle.std.specs.Prelude.{◌≡◌, []};
ghost use Rattle.std.specs.FinMap as map;

use crate::identifiers::Identifiers;
use crate::radio::{Radio, RadioFault};
use apd_base::{Addr, Sequence};
use apd_udp::GhostList;
use std::alloc::Global;

/// A radio that receives nothing and sends nothing.
pub struct Sim {
    stations: Identifiers,
    sent: GhostList<Sequence<u8>>,
}

impl Sim {
    /// A radio without stations. It takes no memory.
    pub fn new(alloc: Global) -> Sim
        ensures stations { result.stations ≡ map.empty }
        ensures sent { result.sent.items ≡ [] }
    {
        Sim {
            stations: Identifiers::new(alloc),
            sent: GhostList::new(),
        }
    }
}

impl Drop for Sim {
    fn drop(self) {
        let Sim {
            mut stations,
            sent: _,
        } = self;
        stations.clear();
    }
}

impl Radio for Sim {
    ghost use Rattle.std.specs.Prelude.{Some};

    ghost model = { record {
      stations = λ radio. radio.stations;
      faults = λ _. 0;
      sent = λ radio. Some radio.sent.items;
    } };

    ghost frames = { λ _. Some [] };

    fn poll(&mut self) -> Result<Option<Vec<u8>>, RadioFault> {
        Ok(None)
    }

    fn install(&mut self, addr: Addr, aid: u16) -> Result<(), RadioFault> {
        Ok(self.stations.insert(addr, aid)?)
    }

    fn remove(&mut self, addr: Addr) -> Result<(), RadioFault> {
        self.stations.remove(addr);
        Ok(())
    }

    fn transmit(&mut self, frame: &[u8]) -> Result<(), RadioFault> {
        self.sent.note(&frame);
        Ok(())
    }

    fn take_down(&mut self) {
        self.stations.clear();
    }

    fn installed(&self, addr: Addr) -> Option<u16> {
        self.stations.get(addr)
    }

    fn failures(&self) -> u64 {
        0
    }
}
