//! The greatest sizes and counts. A number that the standard fixes names its clause; the others are
//! this daemon's own.
ghost use Rattle.std.specs.Prelude.{◌≡◌};

/// BSSIDs of one daemon (own).
pub const MAX_BSS: usize = 8;

/// Stations of one BSSID: as many as there are association identifiers (IEEE Std 802.11-2016,
/// 9.4.1.8).
pub const MAX_STATIONS: usize = 2007;

/// Addresses of one list of a BSSID (own).
pub const MAX_LISTED: usize = 1024;

/// Bytes of a frame without its frame check sequence (own).
pub const MAX_FRAME: usize = 2304;

/// Bytes of a control command without the newline at its end (own).
pub const MAX_COMMAND: usize = 4096;

/// Accepted requests that are kept: each until it is settled and all that leaves because of it was
/// handed out (own).
pub const MAX_KEPT: usize = 4096;

/// Bytes of the records of one group, which becomes durable as a whole (own).
pub const MAX_GROUP: usize = 65_536;

/// Bytes of a store's device (own).
pub const DEVICE_LENGTH: u64 = 2_097_216;

/// Bytes of a script (own): a read that reaches one byte more is refused.
pub const MAX_SCRIPT: usize = 16_777_216;

/// The limits, in numbers. Every other contract and definition cites them by name, so these clauses
/// are what says which numbers they are.
pub fn limits_law()
    ensures bss { MAX_BSS ≡ 8 }
    ensures stations { MAX_STATIONS ≡ 2007 }
    ensures listed { MAX_LISTED ≡ 1024 }
    ensures frame { MAX_FRAME ≡ 2304 }
    ensures command { MAX_COMMAND ≡ 4096 }
    ensures kept { MAX_KEPT ≡ 4096 }
    ensures group { MAX_GROUP ≡ 65536 }
    ensures device { DEVICE_LENGTH ≡ 2097216 }
    ensures script { MAX_SCRIPT ≡ 16777216 }
{}
