//! Who sent the commands that have no reply yet.
ghost use Rattle.std.specs.Prelude.{◌≡◌, ◌≤◌, ℕ, false};
ghost use Rattle.std.specs.Option.{is_some};
ghost use Rattle.std.specs.Ordering.{nat_cmp};
ghost use Rattle.std.specs.BTreeMap.{get};

use std::alloc::{AllocError, Global};
use std::collections::BTreeMap;
use std::net::SocketAddr;

/// The senders of the commands that have no reply yet, by the tags of their commands. A tag is a new number for
/// each command, from 0 on.
#[derive(Drop)]
pub struct Senders {
    waiting: BTreeMap<u64, SocketAddr>,
    // How many tags were given.
    given: u64,
    ghost unused: { (tag : ℕ) → given ≤ tag → is_some (get nat_cmp waiting tag) ≡ false },
}

impl Senders {
    ghost use Rattle.std.specs.Prelude.{◌-◌, ◌^◌, Some, None, IfOk, MatchOption, OnErr};
    ghost use Rattle.apd_control_port.specs.Tags.{Adds, AreSame, Forgets, sender_of};

    /// No command waits. It takes no memory.
    pub fn new(alloc: Global) -> Senders
        ensures empty { (tag : ℕ) → sender_of result tag ≡ None }
        ensures given { result.given ≡ 0 }
    {
        Senders {
            waiting: BTreeMap::new(alloc),
            given: 0,
        }
    }

    /// Keeps the sender of a command, and gives the tag of the command: a number that no command had before. There
    /// is none, and nothing is kept, exactly where 2^64 - 1 were given. Where memory lacks, all is as it was.
    pub fn add(&mut self, sender: SocketAddr) -> Result<Option<u64>, AllocError>
        ensures ok { IfOk result
            (λ got. MatchOption got ((self.old.given ≡ 2 ^ 64 - 1)
            × AreSame self.old self.new) (λ tag. Adds self.old tag sender self.new)) }
        ensures err { OnErr result (AreSame self.old self.new) }
    {
        let tag = self.given;
        let Some(given) = tag.checked_add(1) else {
            return Ok(None);
        };
        self.waiting.insert(tag, sender)?;
        self.given = given;
        Ok(Some(tag))
    }

    /// The sender of the command of a tag, which is forgotten; none where no such command waits. It takes no
    /// memory.
    pub fn take(&mut self, tag: u64) -> Option<SocketAddr>
        ensures own { result ≡ sender_of self.old tag }
        ensures forgotten { Forgets self.old tag self.new }
    {
        self.waiting.remove(&tag)
    }
}
