//! Names of network interfaces.
ghost use Rattle.std.specs.Prelude.{◌≡◌, IsTrue, IfOk};
ghost use Rattle.std.specs.List.{list_all};
ghost use Rattle.apd_conf.specs.Names.{is_interface_name, is_visible};

use std::alloc::{AllocError, Global};
use std::fmt;
use std::marker::Model;

/// The name of a network interface, as `wlan0`: 1 to 15 bytes from 0x21 to 0x7e (own). Contracts see its
/// bytes.
#[derive(Debug, Drop)]
pub struct InterfaceName {
    text: String,
}

impl Model for InterfaceName {
    ghost use Rattle.std.specs.Prelude.{List, ℕ, IsTrue};
    ghost use Rattle.std.specs.String.{string_bytes};
    ghost use Rattle.apd_conf.specs.Names.{is_interface_name};

    ghost Value = { List ℕ };

    ghost view = { λ a. string_bytes a.text };

    ghost invariant = { λ a. IsTrue (is_interface_name (string_bytes a.text)) };
}

fn are_visible(bytes: &[u8]) -> bool
    ensures { result ≡ list_all is_visible bytes.now }
{
    bytes.iter().all(|byte| 0x21 <= *byte && *byte <= 0x7e)
}

impl InterfaceName {
    /// Whether bytes may be the name of an interface. It takes no memory.
    pub fn is_name(bytes: &[u8]) -> bool
        ensures { result ≡ is_interface_name bytes.now }
    {
        1 <= bytes.len() && bytes.len() <= 15 && are_visible(bytes)
    }

    /// The name that a text is.
    pub fn new(text: &str, alloc: Global) -> Result<InterfaceName, AllocError>
        requires { IsTrue (is_interface_name text.now) }
        ensures { IfOk result (λ name. name ≡ text.now) }
    {
        Ok(InterfaceName {
            text: String::from_str(alloc, text)?,
        })
    }

    /// The name that bytes are.
    pub fn from_bytes(bytes: &[u8], alloc: Global) -> Result<InterfaceName, AllocError>
        requires { IsTrue (is_interface_name bytes.now) }
        ensures { IfOk result (λ name. name ≡ bytes.now) }
    {
        let Ok(text) = str::from_utf8(bytes) else {
            unreachable!();
        };
        InterfaceName::new(text, alloc)
    }

    /// Its text. It takes no memory.
    pub fn as_str(&self) -> &str
        ensures text { result.now ≡ self.now }
        ensures name { IsTrue (is_interface_name self.now) }
    {
        self.text.as_str()
    }

    /// Its bytes. It takes no memory.
    pub fn as_bytes(&self) -> &[u8]
        ensures bytes { result.now ≡ self.now }
        ensures name { IsTrue (is_interface_name self.now) }
    {
        self.text.as_bytes()
    }

    /// A second one of it.
    pub fn copy(&self, alloc: Global) -> Result<InterfaceName, AllocError>
        ensures { IfOk result (λ name. name ≡ self.now) }
    {
        Ok(InterfaceName {
            text: String::from_str(alloc, self.text.as_str())?,
        })
    }
}

impl fmt::Display for InterfaceName {
    ghost use Rattle.std.specs.Prelude.{Some};

    ghost output = { λ name. Some name };

    fn fmt<W: fmt::Write>(&self, f: &mut fmt::Formatter<W>) -> fmt::Result {
        f.write_str(self.text.as_str())
    }
}
