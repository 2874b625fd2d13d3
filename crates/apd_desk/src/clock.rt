//! Where the workers' moments come from.
use apd_base::Moment;

/// Tells the moment. Nothing is promised of it: it may stand still, and go back.
pub trait Clock {
    /// The moment now.
    fn now(&self) -> Moment;
}
