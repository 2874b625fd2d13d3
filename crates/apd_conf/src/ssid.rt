//! Names of networks.
ghost use Rattle.std.specs.Prelude.{◌≡◌, IsTrue, IfOk};
ghost use Rattle.apd_conf.specs.Names.{is_ssid};

use std::alloc::{AllocError, Global};
use std::marker::Model;

/// The name of a network: 1 to 32 bytes, of any values (IEEE Std 802.11-2016, 9.4.2.2). Contracts see
/// its bytes.
#[derive(Debug, Drop)]
pub struct Ssid {
    bytes: Vec<u8>,
}

impl Model for Ssid {
    ghost use Rattle.std.specs.Prelude.{List, ℕ, IsTrue};
    ghost use Rattle.apd_conf.specs.Names.{is_ssid};

    ghost Value = { List ℕ };

    ghost view = { λ a. a.bytes.items };

    ghost invariant = { λ a. IsTrue (is_ssid a.bytes.items) };
}

impl Ssid {
    /// Whether bytes may be the name of a network.
    pub fn is_name(bytes: &[u8]) -> bool
        ensures { result ≡ is_ssid bytes.now }
    {
        1 <= bytes.len() && bytes.len() <= 32
    }

    /// The name that the bytes are.
    pub fn new(bytes: &[u8], alloc: Global) -> Result<Ssid, AllocError>
        requires { IsTrue (is_ssid bytes.now) }
        ensures { IfOk result (λ ssid. ssid ≡ bytes.now) }
    {
        Ok(Ssid {
            bytes: Vec::from_slice(alloc, bytes)?,
        })
    }

    /// Its bytes, 1 to 32. It takes no memory.
    pub fn as_bytes(&self) -> &[u8]
        ensures bytes { result.now ≡ self.now }
        ensures name { IsTrue (is_ssid self.now) }
    {
        self.bytes.as_slice()
    }

    /// A second one of it.
    pub fn copy(&self, alloc: Global) -> Result<Ssid, AllocError>
        ensures { IfOk result (λ ssid. ssid ≡ self.now) }
    {
        Ok(Ssid {
            bytes: Vec::from_slice(alloc, self.bytes.as_slice())?,
        })
    }
}
