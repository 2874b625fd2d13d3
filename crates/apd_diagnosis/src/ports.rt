//! Why a port was not had.
use crate::more::More;
use apd_site::Words;
use std::alloc::AllocError;
use std::fmt::{self, Display, Formatter};
use std::io::{self, ErrorKind};
use std::net::{Ipv4Addr, Net, UdpSocket};

/// What a port is for.
#[derive(Clone, Copy, Debug, PartialEq, Eq)]
pub enum PortUse<'a> {
    /// Control commands.
    Control,
    /// The radio of an interface.
    Radio(&'a str),
}

impl Display for PortUse<'_> {
    fn fmt<W: fmt::Write>(&self, f: &mut Formatter<W>) -> fmt::Result {
        match self {
            PortUse::Control => f.write_str("control commands"),
            PortUse::Radio(interface) => f.write_str(interface),
        }
    }
}

// Why a port isn't had.
#[derive(Drop)]
struct PortReason<'a> {
    used: PortUse<'a>,
    error: io::Error,
}

impl Display for PortReason<'_> {
    fn fmt<W: fmt::Write>(&self, f: &mut Formatter<W>) -> fmt::Result {
        write!(f, "for {}: ", self.used)?;
        if self.error.kind() == ErrorKind::AddrInUse {
            f.write_str("in use by another socket (ss -ulnp)")
        } else {
            write!(f, "{}", Words(&self.error))
        }
    }
}

// Binds these ports, one above the other from the first one on, tells of each that it can't, and why, and answers whether
// it could all.
fn tell_unbound(
    rt: &(impl Net + AllocGlobal),
    more: &mut More,
    first: u16,
    uses: &[PortUse<'_>],
) -> Result<bool, AllocError> {
    let mut bound = Vec::new(rt.alloc());
    let mut port = first;
    for used in uses {
        match UdpSocket::bind(rt, (Ipv4Addr::LOCALHOST, port)) {
            Ok(socket) => bound.push(socket)?,
            Err(error) => {
                let name = format!(in rt.alloc(); "port {port}")?;
                more.tell(name.as_str(), PortReason { used: *used, error })?;
            }
        }
        port = port.saturating_add(1);
    }
    Ok(bound.len() == uses.len())
}

/// Tells which of these ports can't be had, one above the other from the first one on, what each is for, and why. Where
/// all can be had by now, it tells what may have kept one away.
pub fn tell_ports(
    rt: &(impl Net + AllocGlobal),
    more: &mut More,
    first: u16,
    uses: &[PortUse<'_>],
) -> Result<(), AllocError> {
    if tell_unbound(rt, more, first, uses)? {
        let name = format!(in rt.alloc(); "ports from {first} on")?;
        more.tell(
            name.as_str(),
            "nobody has them now: one was in use a moment ago, or too many files were open (ulimit -n)",
        )?;
    }
    Ok(())
}
