//! Names of files.
ghost use Rattle.std.specs.Prelude.{◌≡◌, ◌&&◌, IsTrue, IfOk};
ghost use Rattle.std.specs.Str.{is_utf8};
ghost use Rattle.apd_conf.specs.Names.{is_file_name};

use std::alloc::{AllocError, Global};
use std::fmt;
use std::marker::Model;

/// The name of a file as it stands in a configuration: UTF-8, and not empty (own). Contracts see its
/// bytes.
#[derive(Debug, Drop)]
pub struct FileName {
    text: String,
}

impl Model for FileName {
    ghost use Rattle.std.specs.Prelude.{List, ℕ, IsTrue};
    ghost use Rattle.std.specs.String.{string_bytes};
    ghost use Rattle.apd_conf.specs.Names.{is_file_name};

    ghost Value = { List ℕ };

    ghost view = { λ a. string_bytes a.text };

    ghost invariant = { λ a. IsTrue (is_file_name (string_bytes a.text)) };
}

impl FileName {
    /// Whether a text may be the name of a file.
    pub fn is_name(text: &str) -> bool
        ensures { result ≡ is_file_name text.now }
    {
        !text.is_empty()
    }

    /// The name that a text is.
    pub fn new(text: &str, alloc: Global) -> Result<FileName, AllocError>
        requires { IsTrue (is_file_name text.now) }
        ensures { IfOk result (λ name. name ≡ text.now) }
    {
        Ok(FileName {
            text: String::from_str(alloc, text)?,
        })
    }

    /// The name that bytes are.
    pub fn from_bytes(bytes: &[u8], alloc: Global) -> Result<FileName, AllocError>
        requires { IsTrue (is_utf8 bytes.now && is_file_name bytes.now) }
        ensures { IfOk result (λ name. name ≡ bytes.now) }
    {
        let Ok(text) = str::from_utf8(bytes) else {
            unreachable!();
        };
        FileName::new(text, alloc)
    }

    /// Its text. It takes no memory.
    pub fn as_str(&self) -> &str
        ensures text { result.now ≡ self.now }
        ensures name { IsTrue (is_file_name self.now) }
    {
        self.text.as_str()
    }

    /// Its bytes. It takes no memory.
    pub fn as_bytes(&self) -> &[u8]
        ensures bytes { result.now ≡ self.now }
        ensures name { IsTrue (is_file_name self.now) }
    {
        self.text.as_bytes()
    }

    /// A second one of it.
    pub fn copy(&self, alloc: Global) -> Result<FileName, AllocError>
        ensures { IfOk result (λ name. name ≡ self.now) }
    {
        Ok(FileName {
            text: String::from_str(alloc, self.text.as_str())?,
        })
    }
}

impl fmt::Display for FileName {
    ghost use Rattle.std.specs.Prelude.{Some};

    ghost output = { λ name. Some name };

    fn fmt<W: fmt::Write>(&self, f: &mut fmt::Formatter<W>) -> fmt::Result {
        f.write_str(self.text.as_str())
    }
}
