//! Which file a name or an open file means.
ghost use Rattle.std.specs.Prelude.{◌≡◌, ◌↔◌, IsTrue};

use std::fs::{File, Metadata, metadata};
use std::os::unix::fs::MetadataExt;
use std::rt::Files;

/// A file under any name: the number of its device, and its own there.
#[derive(Clone, Copy, Debug)]
pub(crate) struct Identity {
    device: u64,
    node: u64,
}

impl Identity {
    pub(crate) fn of(metadata: &Metadata) -> Identity {
        Identity {
            device: metadata.dev(),
            node: metadata.ino(),
        }
    }

    /// The file of a name, if there is one that can be asked for.
    pub(crate) fn of_name(files: &impl Files<File = File>, name: &str) -> Option<Identity> {
        let found = metadata(files, name).ok()?;
        Some(Identity::of(&found))
    }

    /// Whether it is the same file.
    pub(crate) fn is_same(&self, other: Identity) -> bool
        ensures { IsTrue result ↔ (self.now ≡ other) }
    {
        self.device == other.device && self.node == other.node
    }
}

/// Whether two names are of one file.
pub fn are_one_file(files: &impl Files<File = File>, one: &str, other: &str) -> bool {
    match (
        Identity::of_name(files, one),
        Identity::of_name(files, other),
    ) {
        (Some(one), Some(other)) => one.is_same(other),
        _ => false,
    }
}
