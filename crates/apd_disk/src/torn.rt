//! What a stop leaves of the bytes that no sync has made durable.

/// What a stop leaves in each byte that was written since the last sync that succeeded.
#[derive(Clone, Copy, Debug, PartialEq, Eq)]
pub enum Torn {
    /// The byte that the last sync made durable: no write since has reached the medium.
    Old,
    /// The byte that was written last: each write since has reached it.
    New,
    /// This byte, whatever was written.
    Byte(u8),
}
