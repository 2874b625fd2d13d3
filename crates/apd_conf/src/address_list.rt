//! Lists of addresses, as list files give them.
ghost use Rattle.std.specs.Prelude.{◌≡◌, [], IfOk};
ghost use Rattle.apd_conf.specs.ListFile.{IsList};

use apd_base::Addr;
use std::alloc::{AllocError, Global};
use std::marker::Model;

/// The addresses of a list file: at most 1024, each below those behind it (own). Contracts see the
/// list.
#[derive(Debug, Drop)]
pub struct AddressList {
    addresses: Vec<Addr>,
}

impl Model for AddressList {
    ghost use Rattle.std.specs.Prelude.{List};
    ghost use Rattle.apd_base.specs.declared.address.Addr.{Addr};
    ghost use Rattle.apd_conf.specs.ListFile.{IsList};

    ghost Value = { List Addr };

    ghost view = { λ a. a.addresses.items };

    ghost invariant = { λ a. IsList a.addresses.items };
}

impl AddressList {
    /// No address. It takes no memory.
    pub fn new(alloc: Global) -> AddressList
        ensures { result ≡ [] }
    {
        AddressList {
            addresses: Vec::new(alloc),
        }
    }

    /// The addresses of a vector, in which each is below those behind it. It takes no memory.
    pub(crate) fn from_vec(addresses: Vec<Addr>) -> AddressList
        requires { IsList addresses.items }
        ensures { result ≡ addresses.items }
    {
        AddressList { addresses }
    }

    /// The addresses. It takes no memory.
    pub fn as_slice(&self) -> &[Addr]
        ensures addresses { result.now ≡ self.now }
        ensures list { IsList result.now }
    {
        self.addresses.as_slice()
    }

    /// A second one of it.
    pub fn copy(&self, alloc: Global) -> Result<AddressList, AllocError>
        ensures { IfOk result (λ list. list ≡ self.now) }
    {
        Ok(AddressList {
            addresses: Vec::from_slice(alloc, &self.addresses)?,
        })
    }
}
