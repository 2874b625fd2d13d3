//! Numbers that look drawn, the same from the same beginning.
use std::sync::atomic::{AtomicU64, Ordering};
use std::thread::yield_now;

/// How far the state goes on at each number: the odd number next to 2^64 by the golden ratio (own).
const STEP: u64 = 0x9e37_79b9_7f4a_7c15;

// The number of a state: the mixing of SplitMix64.
fn mix(state: u64) -> u64 {
    let mut z = state;
    z = (z ^ (z >> 30)).wrapping_mul(0xbf58_476d_1ce4_e5b9);
    z = (z ^ (z >> 27)).wrapping_mul(0x94d0_49bb_1331_11eb);
    z ^ (z >> 31)
}

fn below(number: u64, bound: u64) -> u64 {
    number.checked_rem(bound).unwrap_or(0)
}

/// Draws one number after another.
#[derive(Drop)]
pub(crate) struct Generator {
    state: u64,
}

impl Generator {
    /// One that begins at a number.
    pub(crate) fn new(seed: u64) -> Generator {
        Generator { state: mix(seed) }
    }

    /// Any number.
    pub(crate) fn number(&mut self) -> u64 {
        self.state = self.state.wrapping_add(STEP);
        mix(self.state)
    }

    /// A number below a bound; 0 where that is 0.
    pub(crate) fn below(&mut self, bound: u64) -> u64 {
        below(self.number(), bound)
    }

    /// Any byte.
    pub(crate) fn byte(&mut self) -> u8 {
        u8::try_from(self.below(256)).unwrap_or(0)
    }

    /// Whether a draw hit one place of so many.
    pub(crate) fn hits(&mut self, places: u64) -> bool {
        self.below(places) == 0
    }
}

/// Draws too, where it is only lent. It shakes a schedule.
#[derive(Drop)]
pub(crate) struct Shaker {
    state: AtomicU64,
}

impl Shaker {
    /// One that begins at a number.
    pub(crate) fn new(seed: u64) -> Shaker {
        Shaker {
            state: AtomicU64::new(mix(seed)),
        }
    }

    /// A number below a bound; 0 where that is 0.
    pub(crate) fn below(&self, bound: u64) -> u64 {
        below(mix(self.state.fetch_add(STEP, Ordering::SeqCst)), bound)
    }

    /// Whether a draw hit one place of so many.
    pub(crate) fn hits(&self, places: u64) -> bool {
        self.below(places) == 0
    }

    // Takes some time.
    fn spin(&self) {
        for _time in 0..self.below(2_000) {
            self.state.load(Ordering::SeqCst);
        }
    }

    /// Lets others run now and then, some times in a row, or takes some time.
    pub(crate) fn shake(&self) {
        match self.below(12) {
            0..=3 => {
                for _time in 0..self.below(12) {
                    yield_now();
                }
            }
            4 => self.spin(),
            _ => {}
        }
    }
}
