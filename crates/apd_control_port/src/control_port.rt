//! Control commands as datagrams.
ghost use Rattle.std.specs.Prelude.{◌≡◌, ◌≢◌, [], Some, Err, IfOk, IfSome, OnOk, OnErr, IsSome, IsNone};
ghost use Rattle.std.specs.Option.{ForSome, option_map};

use crate::port::{Port, PortFault};
use crate::senders::Senders;
use apd_base::Sequence;
use apd_radio::{Datagrams, RadioFault, SocketFault};
use apd_udp::GhostList;
use std::alloc::Global;
use std::net::{IpAddr, Ipv4Addr, Net, SocketAddr};
use std::os::fd::RawFd;

// A fault of the port's socket.
fn of_socket(fault: RadioFault) -> PortFault
    ensures memory { fault ≡ RadioFault.NoMemory → result ≡ PortFault.NoMemory }
    ensures device { fault ≡ RadioFault.Device → result ≡ PortFault.Device }
{
    match fault {
        RadioFault::Device => PortFault::Device,
        RadioFault::NoMemory => PortFault::NoMemory,
    }
}

/// A port of 127.0.0.1 on which each datagram is a command. The reply to a command is a datagram to the sender of
/// that command; an empty reply is a datagram of no bytes. A datagram that names the port itself as its sender is
/// dropped: the reply to it would be the next command, for ever.
#[derive(Drop)]
pub struct ControlPort {
    datagrams: Datagrams,
    senders: Senders,
    // A command that waits for the memory of its tag.
    received: Option<(SocketAddr, Vec<u8>)>,
    // Where its own datagrams come from.
    own: SocketAddr,
    replies: GhostList<(u64, Sequence<u8>)>,
    ghost one: { IsSome received → IsNone datagrams },
    ghost foreign: { ForSome received (λ command. command.0 ≢ own) },
}

impl ControlPort {
    ghost use Rattle.apd_control_port.specs.Commands.{IsLocal, waiting_datagram};

    /// Opens the port. Port 0 is for tests: the system chooses one that is free, and nothing is dropped, since no
    /// datagram comes from port 0.
    ///
    /// Errors: `NoSocket` where the port can't be had, `NoMemory` where memory runs out.
    pub fn open<R: Net>(rt: &R, alloc: Global, port: u16) -> Result<ControlPort, SocketFault>
        ensures own { IfOk result (λ opened. IsLocal opened.own port) }
        ensures replies { IfOk result (λ opened. opened.replies.items ≡ []) }
    {
        Ok(ControlPort {
            datagrams: Datagrams::bind(rt, alloc, port)?,
            senders: Senders::new(alloc),
            received: None,
            own: SocketAddr::new(IpAddr::V4(Ipv4Addr::new(127, 0, 0, 1)), port),
            replies: GhostList::new(),
        })
    }

    // Receives the next command, where none was received and not given. One of the port's own is dropped.
    fn receive(&mut self) -> Result<(), PortFault>
        ensures senders { self.new.senders ≡ self.old.senders }
        ensures own { self.new.own ≡ self.old.own }
        ensures replies { self.new.replies ≡ self.old.replies }
        ensures given { OnOk result (IsNone self.new.datagrams) }
        ensures foreign { IfSome (waiting_datagram self.old)
            (λ waited. waited.0 ≢ self.old.own → OnOk result (waiting_datagram self.new ≡ Some waited)) }
        ensures same { IfSome (waiting_datagram self.old)
            (λ waited. IsSome self.new.received → OnOk result (waiting_datagram self.new ≡ Some waited)) }
        ensures kept { IsSome (waiting_datagram self.old)
            → OnErr result
            ((result ≡ Err PortFault.NoMemory) × (waiting_datagram self.new ≡ waiting_datagram self.old)) }
    {
        if self.received.is_some() {
            return Ok(());
        }
        self.received = next_command(&mut self.datagrams, self.own)?;
        Ok(())
    }
}

// The next datagram, if one waits. One whose sender is this address is dropped.
fn next_command(
    datagrams: &mut Datagrams,
    own: SocketAddr,
) -> Result<Option<(SocketAddr, Vec<u8>)>, PortFault>
    ensures foreign { IfOk result (λ got. ForSome got (λ command. command.0 ≢ own)) }
    ensures first { IfSome datagrams.old
        (λ waited. waited.0 ≢ own
        → IfOk result (λ got. option_map (λ command. (command.0, command.1.items)) got ≡ Some waited)) }
    ensures same { IfSome datagrams.old
        (λ waited. IfOk result (λ got. ForSome got (λ command. (command.0, command.1.items) ≡ waited))) }
    ensures given { OnOk result (IsNone datagrams.new) }
    ensures kept { IsSome datagrams.old
        → OnErr result ((result ≡ Err PortFault.NoMemory) × (datagrams.new ≡ datagrams.old)) }
{
    let received = datagrams.receive().map_err(of_socket)?;
    Ok(received.filter(|(sender, _)| *sender != own))
}

impl Port for ControlPort {
    ghost use Rattle.std.specs.Prelude.{◌⊎◌, ◌-◌, ◌^◌, ◌++◌, ◌∷◌, MatchOption, IsSomeAnd};
    ghost use Rattle.std.specs.declared.net.socket_addr.SocketAddr.{SocketAddr};
    ghost use Rattle.apd_control_port.specs.Commands.{waiting_datagram};
    ghost use Rattle.apd_control_port.specs.Tags.{Adds, AreSame, Forgets};

    ghost replied = { λ port. Some port.replies.items };

    /// A command that was received and meets want of memory stays: a later call gives it.
    fn poll(&mut self) -> Result<Option<(u64, Vec<u8>)>, PortFault>
        ensures command { IfOk result
            (λ got. MatchOption got (AreSame self.old.senders self.new.senders)
            (λ command. (sender : SocketAddr) × (sender ≢ self.old.own)
            × Adds self.old.senders command.0 sender self.new.senders)) }
        ensures own { IfSome (waiting_datagram self.old)
            (λ waited. waited.0 ≢ self.old.own → IfOk result
            (λ got. IsSomeAnd got
            (λ command. Adds self.old.senders command.0 waited.0 self.new.senders
            × (command.1.items ≡ waited.1)))) }
        ensures given { OnOk result (IsNone (waiting_datagram self.new)) }
        ensures stays { IsSome (waiting_datagram self.old)
            → OnErr result (waiting_datagram self.new ≡ waiting_datagram self.old) }
        ensures short { IsSome (waiting_datagram self.old)
            → OnErr result ((result ≡ Err PortFault.NoMemory) ⊎ (self.old.senders.given ≡ 2 ^ 64 - 1)) }
        ensures err { OnErr result (AreSame self.old.senders self.new.senders) }
        ensures replied { self.new.replies ≡ self.old.replies }
    {
        self.receive()?;
        let Some((sender, _)) = &self.received else {
            return Ok(None);
        };
        let Some(tag) = self.senders.add(*sender)? else {
            return Err(PortFault::Device);
        };
        Ok(self.received.take().map(|(_, bytes)| (tag, bytes)))
    }

    fn descriptor(&self) -> Option<RawFd> {
        Some(self.datagrams.descriptor())
    }

    /// The reply goes to the sender of the command of this tag, which is then forgotten. To a tag of no command that
    /// waits nothing is sent.
    fn reply(&mut self, tag: u64, text: &[u8]) -> Result<(), PortFault>
        ensures forgotten { Forgets self.old.senders tag self.new.senders }
        ensures waits { waiting_datagram self.new ≡ waiting_datagram self.old }
        ensures replied { OnOk result
            (self.new.replies.items ≡ self.old.replies.items ++ (tag, text.now) ∷ []) }
        ensures lost { OnErr result (self.new.replies ≡ self.old.replies) }
    {
        if let Some(sender) = self.senders.take(tag) {
            self.datagrams.send(sender, text).map_err(of_socket)?;
        }
        self.replies.note(&(tag, text));
        Ok(())
    }
}
