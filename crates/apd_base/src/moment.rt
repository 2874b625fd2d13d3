//! Moments, as they are handed in.

/// Milliseconds since a start that the program chooses.
#[derive(Clone, Copy, Debug, PartialEq, Eq, PartialOrd, Ord)]
pub struct Moment(pub u64);
