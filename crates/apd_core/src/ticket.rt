//! What a request is answered at once.
ghost use Rattle.std.specs.Prelude.{◌≡◌};

use crate::input::{Input, QuietReason};
use apd_base::Moment;

/// Proof that a request was accepted as an entry: its number, and the request itself with its moment.
/// `Core::accept` alone makes one.
#[derive(Clone, Copy, Debug)]
pub struct Ticket<'a> {
    number: u64,
    input: Input<'a>,
    moment: Moment,
}

/// The answer to a request: the first of these that holds.
#[derive(Clone, Copy, Debug)]
pub enum Accepted<'a> {
    /// The core has failed, or all numbers of entries were given.
    Stopped,
    /// As many entries are kept as may be.
    Busy,
    /// The request is no entry: nothing changes but when a station was heard, and nothing leaves.
    Quiet(QuietReason),
    /// The request is an entry. Their numbers count from 1.
    Entry(Ticket<'a>),
}

impl<'a> Ticket<'a> {
    // For `accept` alone.
    pub(crate) fn new(number: u64, input: Input<'a>, moment: Moment) -> Ticket<'a>
        ensures number { result.number ≡ number }
        ensures input { result.input ≡ input.entry }
        ensures moment { result.moment ≡ moment }
    {
        Ticket {
            number,
            input,
            moment,
        }
    }

    /// The number of the entry.
    pub fn number(&self) -> u64
        ensures { result ≡ self.now.number }
    {
        self.number
    }

    /// The request.
    pub fn input(&self) -> Input<'a>
        ensures { result ≡ self.now.input }
    {
        self.input
    }

    /// Its moment.
    pub fn moment(&self) -> Moment
        ensures { result ≡ self.now.moment }
    {
        self.moment
    }
}
