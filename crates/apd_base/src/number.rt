//! Numbers of more than one byte, the lowest byte first.
ghost use Rattle.std.specs.Prelude.{◌≡◌, ℕ, List, ◌+◌, ◌<◌, ◌≤◌, ◌^◌, length, slice_index};
ghost use Rattle.std.specs.Int.{to_le_bytes, from_le_bytes, w16, w32, w64};
ghost use Rattle.apd_base.specs.Number.{u16_at, AreBytes};

/// The number whose two bytes stand at a place and right behind it.
pub fn u16_at(bytes: &[u8], place: usize) -> u16
    requires { place + 2 ≤ length bytes.now }
    ensures { result ≡ u16_at bytes.now place }
{
    u16::from_le_bytes([bytes[place], bytes[place + 1]])
}

/// Two bytes: reading what was written gives the number back, and writing what was read gives the
/// bytes back.
pub fn u16_laws()
    ensures read { (n : ℕ) → n < 2 ^ 16 → from_le_bytes w16 (to_le_bytes w16 n) ≡ n }
    ensures written { (bytes : List ℕ) → length bytes ≡ 2 → AreBytes bytes
        → to_le_bytes w16 (from_le_bytes w16 bytes) ≡ bytes }
{}

/// The same of four bytes.
pub fn u32_laws()
    ensures read { (n : ℕ) → n < 2 ^ 32 → from_le_bytes w32 (to_le_bytes w32 n) ≡ n }
    ensures written { (bytes : List ℕ) → length bytes ≡ 4 → AreBytes bytes
        → to_le_bytes w32 (from_le_bytes w32 bytes) ≡ bytes }
{}

/// The same of eight bytes.
pub fn u64_laws()
    ensures read { (n : ℕ) → n < 2 ^ 64 → from_le_bytes w64 (to_le_bytes w64 n) ≡ n }
    ensures written { (bytes : List ℕ) → length bytes ≡ 8 → AreBytes bytes
        → to_le_bytes w64 (from_le_bytes w64 bytes) ≡ bytes }
{}
