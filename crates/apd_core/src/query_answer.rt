//! Answers to queries.
ghost use Rattle.std.specs.Prelude.{◌≡◌};

use apd_base::Sequence;
use apd_ctrl::Query;

/// The answer to a query: its text, from the table after all settled entries, and the number of the
/// last of them, up to which it speaks. `Core::read` alone makes one.
#[derive(Debug, Drop)]
pub struct Answer {
    query: Query,
    text: Sequence<u8>,
    number: u64,
}

impl Answer {
    // For `read` alone.
    pub(crate) fn new(query: Query, text: Sequence<u8>, number: u64) -> Answer
        ensures query { result.query ≡ query }
        ensures text { result.text ≡ text }
        ensures number { result.number ≡ number }
    {
        Answer {
            query,
            text,
            number,
        }
    }

    /// What was asked.
    pub fn query(&self) -> Query
        ensures { result ≡ self.now.query }
    {
        self.query
    }

    /// The text of the reply.
    pub fn text(&self) -> &[u8]
        ensures { result.now ≡ self.now.text }
    {
        self.text.as_slice()
    }

    /// The number of the last settled entry when it was asked.
    pub fn number(&self) -> u64
        ensures { result ≡ self.now.number }
    {
        self.number
    }
}
