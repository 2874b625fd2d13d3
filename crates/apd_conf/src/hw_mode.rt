//! The band and rates of a radio.

/// The values of `hw_mode`: `a` is 5 GHz (IEEE Std 802.11-2016, clause 17), `b` is 2.4 GHz (clause
/// 16), and `g` is 2.4 GHz with more rates (clause 18).
#[derive(Clone, Copy, Debug, PartialEq, Eq)]
pub enum HwMode {
    A,
    B,
    G,
}
