//! The two halves of a store's device.
ghost use Rattle.std.specs.Prelude.{◌≡◌, ◌≤◌, ◌+◌};
ghost use Rattle.apd_base.specs.declared.limits.TheConstants.{DEVICE_LENGTH};
ghost use Rattle.apd_store.specs.Layout.{opposite, start_of};

use apd_journal::HALF_LENGTH;

/// The place of half A's first byte.
pub(crate) const START_A: usize = 64;

/// The place of half B's first byte.
pub(crate) const START_B: usize = START_A + HALF_LENGTH;

/// One half of a store's device.
#[derive(Clone, Copy, Debug, PartialEq, Eq)]
pub enum Half {
    A,
    B,
}

impl Half {
    /// The place of its first byte in the device.
    pub fn start(self) -> usize
        ensures place { result ≡ start_of self }
        ensures inside { result + HALF_LENGTH ≤ DEVICE_LENGTH }
    {
        match self {
            Half::A => START_A,
            Half::B => START_B,
        }
    }

    /// The other half.
    pub fn other(self) -> Half
        ensures { result ≡ opposite self }
    {
        match self {
            Half::A => Half::B,
            Half::B => Half::A,
        }
    }
}
