//! A radio whose frames are datagrams.
ghost use Rattle.std.specs.Prelude.{◌≡◌, [], IfOk};
ghost use Rattle.std.specs.FinMap as map;

use crate::counting::count_fault;
use crate::datagrams::{Datagrams, SocketFault};
use crate::identifiers::Identifiers;
use crate::radio::{Radio, RadioFault};
use apd_base::{Addr, Sequence};
use apd_udp::GhostList;
use std::alloc::Global;
use std::net::{Net, SocketAddr};
use std::os::fd::RawFd;

/// A radio on a port of 127.0.0.1: each datagram is one frame. What it sends goes to the peer that
/// was last heard; without one it sends nothing.
///
/// A frame that was received stays until there is memory for it: a `poll` that answers `NoMemory` lost
/// nothing, and the next one gives that frame. One that answers `Device` received none, and what waits in the
/// socket waits on.
///
/// `transmit` answers `Device` in two cases that a caller may tell apart by the frame alone, and sends nothing
/// in either. A frame of more than 65,507 bytes fits no datagram, now or later. One of at most that length is
/// refused where the socket's buffer is full for now, or where the system has another reason: a later call
/// may send it.
pub struct UdpSim {
    datagrams: Datagrams,
    peer: Option<SocketAddr>,
    stations: Identifiers,
    failures: u64,
    sent: GhostList<Sequence<u8>>,
}

impl UdpSim {
    /// Opens the port. Port 0 is for tests: the system chooses one that is free.
    ///
    /// Errors: `NoSocket` where the port can't be had, `NoMemory` where memory runs out.
    pub fn new<R: Net>(rt: &R, alloc: Global, port: u16) -> Result<UdpSim, SocketFault>
        ensures stations { IfOk result (λ radio. radio.stations ≡ map.empty) }
        ensures failures { IfOk result (λ radio. radio.failures ≡ 0) }
        ensures sent { IfOk result (λ radio. radio.sent.items ≡ []) }
    {
        Ok(UdpSim {
            datagrams: Datagrams::bind(rt, alloc, port)?,
            peer: None,
            stations: Identifiers::new(alloc),
            failures: 0,
            sent: GhostList::new(),
        })
    }
}

impl Drop for UdpSim {
    fn drop(self) {
        let UdpSim {
            datagrams: _,
            peer: _,
            mut stations,
            failures: _,
            sent: _,
        } = self;
        stations.clear();
    }
}

impl Radio for UdpSim {
    ghost use Rattle.std.specs.Prelude.{Some};

    ghost model = { record {
      stations = λ radio. radio.stations;
      faults = λ radio. radio.failures;
      sent = λ radio. Some radio.sent.items;
    } };

    fn poll(&mut self) -> Result<Option<Vec<u8>>, RadioFault> {
        let answer = self.datagrams.receive();
        let Some((peer, frame)) = count_fault(&mut self.failures, answer)? else {
            return Ok(None);
        };
        self.peer = Some(peer);
        Ok(Some(frame))
    }

    fn descriptor(&self) -> Option<RawFd> {
        Some(self.datagrams.descriptor())
    }

    fn install(&mut self, addr: Addr, aid: u16) -> Result<(), RadioFault> {
        Ok(self.stations.insert(addr, aid)?)
    }

    fn remove(&mut self, addr: Addr) -> Result<(), RadioFault> {
        self.stations.remove(addr);
        Ok(())
    }

    fn transmit(&mut self, frame: &[u8]) -> Result<(), RadioFault> {
        if let Some(peer) = self.peer {
            let answer = self.datagrams.send(peer, frame);
            count_fault(&mut self.failures, answer)?;
        }
        self.sent.note(&frame);
        Ok(())
    }

    fn take_down(&mut self) {
        self.stations.clear();
    }

    fn installed(&self, addr: Addr) -> Option<u16> {
        self.stations.get(addr)
    }

    fn failures(&self) -> u64 {
        self.failures
    }
}
