//! Input that only its end counts of.
use std::io::{ErrorKind, Read};
use std::thread::sleep;
use std::time::{Clock, Duration};

/// How much of the input is read at once, in bytes.
const PIECE: usize = 4096;

/// The pause between two reads, in milliseconds: an input that never ends giving takes no processor.
const PAUSE: u64 = 20;

/// Reads to the end, or to a fault; what is read is dropped. A read that a signal interrupted is made again, and so is
/// one that had nothing to give yet.
pub fn read_to_its_end<B: Read>(clock: &impl Clock, reader: &mut B) {
    let mut piece = [0u8; PIECE];
    for _ in 0..u64::MAX {
        match reader.read(&mut piece) {
            Ok(0) => return,
            Ok(_) => {}
            Err(error) if is_none_yet(error.kind()) => {}
            Err(_) => return,
        }
        sleep(clock, Duration::from_millis(PAUSE));
    }
}

/// Whether such a fault says that the input may give something later.
pub(crate) fn is_none_yet(kind: ErrorKind) -> bool {
    kind == ErrorKind::Interrupted || kind == ErrorKind::WouldBlock
}
