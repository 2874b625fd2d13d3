//! Bytes that an operator sent, placed at the interface that they mean.
ghost use Rattle.std.specs.Prelude.{ℕ, Bool, List, Option};
ghost use Rattle.std.specs.Option.{option_copied};
ghost use Rattle.apd_base.specs.declared.address.Bssid.{Bssid as Address};
ghost use Rattle.apd_ctrl.specs.Placing.{IsPlaced, placing_of};

use crate::command::Placed;
use crate::parser::{Parsed, Refusal, parse_command};
use apd_base::Bssid;

/// Interfaces that are found by their names, each with a radio that is up or not.
pub trait Interfaces {
    /// That a name, or none, finds the interface of this BSSID, whose radio is up or not, or that it finds none. Of
    /// interfaces that are shared it is what is known of them.
    ghost finds: { Self → Option (List ℕ) → Option (Address × Bool) → Type 0 };

    /// The BSSID of the interface of a name, and where none is named that of the first one, and whether its radio is
    /// up. `None` where there is no such interface.
    fn interface(&self, name: Option<&[u8]>) -> Option<(Bssid, bool)>
        ensures { finds self.now (option_copied name.entry) result };
}

/// What becomes of bytes as a command, at the interface that they mean: a query, or an event that carries this tag.
/// It takes no memory.
///
/// Errors: `Unknown` exactly where [`parse_command`] answers so; `Fail` exactly where it does, and where there is no
/// such interface as a command means.
pub fn place<I: Interfaces>(interfaces: &I, tag: u64, bytes: &[u8]) -> Result<Placed, Refusal>
    ensures { IsPlaced (I.finds interfaces.now) tag bytes.now (placing_of result) }
{
    match parse_command(bytes) {
        Parsed::Unknown => Err(Refusal::Unknown),
        Parsed::Fail => Err(Refusal::Fail),
        Parsed::Command { interface, command } => match interfaces.interface(interface) {
            Some((bssid, up)) => Ok(command.at(bssid, up, tag)),
            None => Err(Refusal::Fail),
        },
    }
}
