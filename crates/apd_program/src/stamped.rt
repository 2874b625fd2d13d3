//! A line of the log with the time in front.
use jiff::Timestamp;
use std::fmt::{self, Display, Formatter};
use std::time::Clock;

/// The moment of a line, where it is to be shown and the clock can be read.
pub(crate) fn moment(rt: &impl Clock, is_shown: bool) -> Option<Timestamp> {
    if is_shown {
        Timestamp::now(rt).ok()
    } else {
        None
    }
}

/// A line behind its moment, in UTC and to the millisecond, as RFC 3339 has it; without one it stands alone.
#[derive(Drop)]
pub(crate) struct Stamped<D> {
    pub(crate) moment: Option<Timestamp>,
    pub(crate) line: D,
}

impl<D: Display> Display for Stamped<D> {
    fn fmt<W: fmt::Write>(&self, f: &mut Formatter<W>) -> fmt::Result {
        if let Some(moment) = &self.moment {
            write!(f, "{moment:.3} ")?;
        }
        f.write(&self.line)
    }
}
