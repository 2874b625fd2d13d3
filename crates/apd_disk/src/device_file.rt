//! What a disk asks of the file that it stands on.
ghost use Rattle.std.specs.Prelude.{⊤, OnOk};
ghost use Rattle.apd_disk.specs.FileCalls.{FileCall, gave, wrote, synced};

use std::fs::File;
use std::io::{self, ErrorKind};
use std::os::fd::AsRawFd;
use std::os::unix::fs::FileExt;

/// A file, as a disk asks it. A file of the system is one, and so may be a test's double. What is proved of a disk is
/// proved over each: so it asks its file for what it notes, since in no other way could it know that the file answered.
pub trait DeviceFile {
    /// From a file that was this, by a call that it was asked for and answered so, to what it is then.
    ghost answers: { Self → FileCall → Self → Type 0 };

    /// From a file that was this, by being told to drop its pages, to what it is then.
    ghost drops: { Self → Self → Type 0 };

    /// Fills `buf` with the bytes from this place on.
    ///
    /// Errors: the file's own; `UnexpectedEof` where it has fewer.
    fn read_exact_at(&mut self, buf: &mut [u8], at: u64) -> io::Result<()>
        ensures { OnOk result (answers self.old (gave at buf.new) self.new) };

    /// Writes the bytes from this place on.
    ///
    /// Errors: the file's own; `WriteZero` where it takes fewer.
    fn write_all_at(&mut self, bytes: &[u8], at: u64) -> io::Result<()>
        ensures { OnOk result (answers self.old (wrote at bytes.now) self.new) };

    /// Makes what was written durable.
    ///
    /// Errors: the file's own; `InvalidInput` where it can't sync.
    fn sync_data(&mut self) -> io::Result<()>
        ensures { OnOk result (answers self.old synced self.new) };

    /// Tells the file to forget what the system holds of it in memory, so that a read comes from the medium. It may
    /// forget nothing.
    fn drop_pages(&mut self)
        ensures { drops self.old self.new };

    /// Its length in bytes.
    ///
    /// Errors: the file's own; `InvalidInput` where it is no regular file.
    fn length(&self) -> io::Result<usize>;
}

// The system's answer to a call shows in no value.
impl DeviceFile for File {
    ghost answers = { λ _ _ _. ⊤ };

    ghost drops = { λ _ _. ⊤ };

    fn read_exact_at(&mut self, buf: &mut [u8], at: u64) -> io::Result<()> {
        FileExt::read_exact_at(&*self, buf, at)
    }

    fn write_all_at(&mut self, bytes: &[u8], at: u64) -> io::Result<()> {
        FileExt::write_all_at(&*self, bytes, at)
    }

    fn sync_data(&mut self) -> io::Result<()> {
        File::sync_data(&*self)
    }

    // It may answer well and forget nothing (posix_fadvise(2)).
    fn drop_pages(&mut self) {
        let _ = libc::posix_fadvise(self.as_raw_fd(), 0, 0, libc::POSIX_FADV_DONTNEED);
    }

    fn length(&self) -> io::Result<usize> {
        let metadata = self.metadata()?;
        if !metadata.is_file() {
            return Err(ErrorKind::InvalidInput.into());
        }
        Ok(metadata.len() as usize)
    }
}
