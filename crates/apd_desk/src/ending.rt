//! Why the commits of a core ended.

/// Why the commits of a core ended.
#[derive(Clone, Copy, Debug, PartialEq, Eq)]
pub enum Ending {
    /// All were told to stop, and there was nothing to take.
    Stopped,
    /// A step was refused, not for want of memory, and the core was told to fail.
    Refused,
}
