//! A bare loop over a file: one write and one `fdatasync` a turn.
use crate::fault::BenchFault;
use crate::rate::per_second;
use crate::round::since;
use apd_base::limits::DEVICE_LENGTH;
use std::alloc::Global;
use std::fs::File;
use std::io;
use std::os::unix::fs::FileExt;
use std::time::{Clock, Instant};

/// How often the loop turns in a round.
const TURNS: u64 = 128;

/// How many bytes of the new file are written at once.
const PIECE: usize = 4096;

/// Gives the loop's new file a store's length.
pub fn fill(file: &File) -> io::Result<()> {
    for place in 0..DEVICE_LENGTH / PIECE as u64 {
        file.write_all_at(&[0; PIECE], place * PIECE as u64)?;
    }
    file.sync_all()
}

// Turns the loop: writes these bytes behind those of the turn before, and waits until they are on the device.
fn turn(file: &File, bytes: &[u8]) -> io::Result<()> {
    let mut at = 0u64;
    for _ in 0..TURNS {
        if at.saturating_add(bytes.len() as u64) > DEVICE_LENGTH {
            at = 0;
        }
        file.write_all_at(bytes, at)?;
        file.sync_data()?;
        at = at.saturating_add(bytes.len() as u64);
    }
    Ok(())
}

/// How often a second the loop turns, with so many bytes a turn.
pub fn bare_rate(
    rt: &impl Clock,
    alloc: Global,
    file: &File,
    bytes: u64,
) -> Result<Option<u64>, BenchFault> {
    let bytes = vec![in alloc; 0x5au8; bytes as usize]?;
    let began = Instant::now(rt).ok();
    match turn(file, &bytes) {
        Ok(()) => Ok(per_second(TURNS, since(rt, began))),
        Err(_) => Err(BenchFault::File),
    }
}
