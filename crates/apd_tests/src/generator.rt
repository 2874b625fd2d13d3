//! Bytes that look drawn, the same in each run.
use std::alloc::{AllocError, Global};

/// A linear congruence modulo 2^32, of which the upper half is given (own).
#[derive(Drop)]
pub struct Generator {
    state: u32,
}

impl Generator {
    /// One that begins at a number.
    pub fn new(state: u32) -> Generator {
        Generator { state }
    }

    /// A number below a bound of at most 65,536; 0 where that is 0.
    pub fn below(&mut self, bound: u32) -> u32 {
        self.state = self
            .state
            .wrapping_mul(1_664_525)
            .wrapping_add(1_013_904_223);
        (self.state >> 16).checked_rem(bound).unwrap_or(0)
    }

    /// Any byte.
    pub fn byte(&mut self) -> u8 {
        u8::try_from(self.below(256)).unwrap_or(0)
    }

    /// So many bytes, each any.
    pub fn bytes(&mut self, alloc: Global, length: u32) -> Result<Vec<u8>, AllocError> {
        let mut bytes = Vec::new(alloc);
        for _ in 0..length {
            bytes.push(self.byte())?;
        }
        Ok(bytes)
    }

    /// Puts any byte at one to four of the places.
    pub fn change(&mut self, bytes: &mut [u8]) {
        let length = u32::try_from(bytes.len()).unwrap_or(0);
        for _ in 0..=self.below(4) {
            let place = self.below(length) as usize;
            let byte = self.byte();
            if let Some(there) = bytes.get_mut(place) {
                *there = byte;
            }
        }
    }
}
