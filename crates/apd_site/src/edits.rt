//! The list edits that have no reply yet, and are told of where they were carried out.
use crate::notices::tell_edit;
use apd_base::Which;
use apd_conf::{Confs, InterfaceName};
use apd_ctrl::{Command, Parsed, parse_command};
use apd_event::Edit;
use log::Log;
use std::alloc::{AllocError, Global};
use std::fmt::{self, Display, Formatter};

/// The reply to an edit that was carried out.
const DONE: &[u8] = b"OK\n";

/// An edit of a list, which is shown as its command.
#[derive(Clone, Copy, Debug)]
pub struct ListEdit {
    which: Which,
    edit: Edit,
}

impl Display for ListEdit {
    fn fmt<W: fmt::Write>(&self, f: &mut Formatter<W>) -> fmt::Result {
        match self.which {
            Which::Accept => f.write_str("ACCEPT_ACL ")?,
            Which::Deny => f.write_str("DENY_ACL ")?,
        }
        match self.edit {
            Edit::Add(addr) => write!(f, "ADD_MAC {addr}"),
            Edit::Remove(addr) => write!(f, "DEL_MAC {addr}"),
            Edit::Clear => f.write_str("CLEAR"),
        }
    }
}

// An edit that has no reply yet, by the tag of its command, and at which place its interface is.
#[derive(Clone, Copy, Debug)]
struct Waiting {
    tag: u64,
    place: usize,
    edit: ListEdit,
}

/// The names of the interfaces, and the list edits that have no reply yet.
#[derive(Drop)]
pub struct Edits {
    interfaces: Vec<InterfaceName>,
    waiting: Vec<Waiting>,
}

impl Edits {
    /// No edit waits.
    pub fn new(alloc: Global, confs: &Confs) -> Result<Edits, AllocError> {
        let mut interfaces = Vec::with_capacity(alloc, confs.list().len())?;
        for conf in confs.list() {
            interfaces.push(conf.interface.copy(alloc)?)?;
        }
        Ok(Edits {
            interfaces,
            waiting: Vec::new(alloc),
        })
    }

    // At which place the interface is that a command names, or else the first one.
    fn place_of(&self, name: Option<&[u8]>) -> Option<usize> {
        match name {
            Some(name) => self
                .interfaces
                .iter()
                .position(|interface| interface.as_bytes() == name),
            None => Some(0),
        }
    }

    /// A command came. Where memory lacks, nothing is told of it.
    pub fn note(&mut self, tag: u64, bytes: &[u8]) {
        if let Parsed::Command {
            interface,
            command: Command::ListEdit { which, edit },
        } = parse_command(bytes)
            && let Some(place) = self.place_of(interface)
        {
            let edit = ListEdit { which, edit };
            let _ = self.waiting.push(Waiting { tag, place, edit });
        }
    }

    // The edit of a command that has its reply now, if it is one.
    fn take(&mut self, tag: u64) -> Option<Waiting> {
        let place = self.waiting.iter().position(|edit| edit.tag == tag)?;
        Some(self.waiting.swap_remove(place))
    }

    /// A command has its reply. An edit that was carried out is told.
    pub fn settle<L: Log>(&mut self, log: &L, tag: u64, text: &[u8]) {
        if let Some(Waiting { place, edit, .. }) = self.take(tag)
            && text == DONE
            && let Some(interface) = self.interfaces.get(place)
        {
            tell_edit(log, interface.as_str(), edit);
        }
    }
}
