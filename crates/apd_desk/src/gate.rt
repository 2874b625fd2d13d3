//! Where the workers tell how far they are.

/// What a worker has come to.
#[derive(Clone, Copy, Debug, PartialEq, Eq)]
pub enum Place {
    /// The committing worker is going to take a turn of its flusher: one call of the device at most.
    BeforeCall,
    /// It took the turn.
    AfterCall,
    /// A request became the entry of this number.
    Accepted(u64),
}

/// Is told what the workers come to. No worker holds the lock then.
pub trait Gate {
    /// A worker has come to this.
    fn pass(&self, at: Place);
}

/// A gate that does nothing.
#[derive(Clone, Copy, Debug)]
pub struct NoGate;

impl Gate for NoGate {
    fn pass(&self, _at: Place) {}
}
