//! Standard streams that are closed. The next file that is opened would get the descriptor of one of them, and what
//! is printed would be written into it: so none is left closed.
use apd_site::{FileReason, OpenFault, file_or_fault};
use std::fs::File;
use std::os::fd::AsRawFd;
use std::rt::Files;

/// What stands for a stream that is closed: nothing is read from it, and what is written to it is gone.
const NOTHING: &str = "/dev/null";

/// The greatest descriptor of a standard stream, that of standard error.
const LAST_STREAM: i32 = 2;

/// Opens `/dev/null` in the place of each standard stream that is closed. These stay open for as long as what is
/// given lives. A file that is opened gets the lowest descriptor that is free, so that the streams are taken first.
pub fn hold_closed_streams(
    rt: &(impl Files<File = File> + AllocGlobal),
) -> Result<Vec<File>, OpenFault> {
    let mut held = Vec::new(rt.alloc());
    for _ in 0..=LAST_STREAM {
        let file = File::options().read(true).write(true).open(rt, NOTHING);
        let file = file_or_fault(rt, NOTHING, file.map_err(FileReason::from))?;
        if file.as_raw_fd() > LAST_STREAM {
            break;
        }
        if held.push(file).is_err() {
            return Err(OpenFault::NoMemory);
        }
    }
    Ok(held)
}
