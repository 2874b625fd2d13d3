//! An input that tells that it ended.
use crate::input::is_none_yet;
use crate::notices::tell_input_ended;
use log::Log;
use std::io::{self, Read};

/// Standard input: a read that meets its end, or a fault behind which nothing comes, is logged when it answers.
#[derive(Drop)]
pub struct TellingInput<'a, L: Log, B: Read + Drop> {
    log: &'a L,
    inner: B,
}

impl<'a, L: Log, B: Read + Drop> TellingInput<'a, L, B> {
    /// It didn't end yet.
    pub fn new(log: &'a L, inner: B) -> TellingInput<'a, L, B> {
        TellingInput { log, inner }
    }
}

// Whether it ends by such an answer.
fn ends_by(answer: &io::Result<usize>) -> bool {
    match answer {
        Ok(count) => *count == 0,
        Err(error) => !is_none_yet(error.kind()),
    }
}

impl<L: Log, B: Read + Drop> Read for TellingInput<'_, L, B> {
    fn read(&mut self, buf: &mut [u8]) -> io::Result<usize> {
        let answer = self.inner.read(buf);
        if ends_by(&answer) {
            tell_input_ended(self.log);
        }
        answer
    }
}
