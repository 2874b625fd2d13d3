//! Texts of scripts.
use std::alloc::Global;
use std::process::Abort;

/// The station 02:00:00:00:00:aa joins wlan0, in four lines.
pub const JOINS: &str = "rx wlan0 b00000000200000000010200000000aa0200000000011000000001000000
flush
rx wlan0 000000000200000000010200000000aa020000000001200031040a0000036e6574010482848b96
flush
";

/// Adds bytes to a text.
pub fn add(rt: &impl Abort, out: &mut Vec<u8>, bytes: &[u8]) {
    out.extend_from_slice(bytes).expect(rt, "memory");
}

/// Texts, one after the other.
pub fn join(rt: &impl Abort, alloc: Global, texts: &[&str]) -> Vec<u8> {
    let mut out = Vec::new(alloc);
    for text in texts {
        add(rt, &mut out, text.as_bytes());
    }
    out
}
