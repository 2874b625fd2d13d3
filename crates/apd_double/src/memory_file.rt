//! A file in memory: what it was asked for, and what a loss of power leaves of it.
ghost use Rattle.std.specs.Prelude.{⊤};

use apd_disk::{DeviceFile, Torn};
use std::alloc::{AllocError, Global};
use std::io::{self, ErrorKind};

/// What a file was asked for.
#[derive(Clone, Copy, Debug, PartialEq, Eq)]
pub enum Asked {
    /// A read, from this place on, of so many bytes.
    Read(usize, usize),
    /// A write, from this place on, of so many bytes.
    Write(usize, usize),
    /// A sync.
    Sync,
    /// To drop its pages.
    DropPages,
}

impl Asked {
    // Its first letter.
    fn letter(&self) -> u8 {
        match self {
            Asked::Read(_at, _length) => b'R',
            Asked::Write(_at, _length) => b'W',
            Asked::Sync => b'S',
            Asked::DropPages => b'D',
        }
    }
}

/// What a file does otherwise than a file should.
#[derive(Clone, Copy, Debug, PartialEq, Eq)]
pub enum Fault {
    /// It refuses the call before which it was asked for so many others. A write that it refuses leaves half of its
    /// bytes.
    Refuses(usize),
    /// Each read gives zeros.
    LiesInReads,
    /// Each sync makes nothing durable, and answers well.
    LiesInSyncs,
}

// Bytes that were written from a place on.
#[derive(Drop)]
struct Written {
    at: usize,
    bytes: Vec<u8>,
}

/// A file of zeros and of what was written over them. It keeps each write, and so takes little memory where little was
/// written.
#[derive(Drop)]
pub struct MemoryFile {
    alloc: Global,
    length: usize,
    writes: Vec<Written>,
    // So many of the writes, from the first one on, are durable.
    durable: usize,
    asked: Vec<Asked>,
    fault: Option<Fault>,
}

// Puts what was written where it lies among the bytes from a place on.
fn lay(written: &Written, from: usize, bytes: &mut [u8]) {
    for (number, byte) in written.bytes.iter().enumerate() {
        let place = written.at.saturating_add(number);
        if let Some(within) = place.checked_sub(from) {
            if let Some(cell) = bytes.get_mut(within) {
                *cell = *byte;
            }
        }
    }
}

// Makes all the bytes this one.
fn blot(written: &mut Written, byte: u8) {
    written.bytes.fill(byte);
}

impl MemoryFile {
    /// A file of so many bytes, all of them zero and durable.
    pub fn new(alloc: Global, length: usize) -> MemoryFile {
        MemoryFile {
            alloc,
            length,
            writes: Vec::new(alloc),
            durable: 0,
            asked: Vec::new(alloc),
            fault: None,
        }
    }

    /// The same file, which from here on does otherwise, and was asked for nothing yet.
    pub fn with(self, fault: Fault) -> MemoryFile {
        let mut file = self;
        file.asked.clear();
        file.fault = Some(fault);
        file
    }

    /// What it was asked for, in order.
    pub fn asked(&self) -> &[Asked] {
        &self.asked
    }

    /// The same by the first letter of each: `R`, `W`, `S` or `D`.
    ///
    /// Errors: only where memory is refused.
    pub fn letters(&self, alloc: Global) -> Result<Vec<u8>, AllocError> {
        let mut letters = Vec::new(alloc);
        for asked in &self.asked {
            letters.push(asked.letter())?;
        }
        Ok(letters)
    }

    /// The file after a loss of power. Of each write that was not synced it has what it had before, what was written, or
    /// this byte. It was asked for nothing yet, and does what a file should.
    pub fn cut(self, torn: Torn) -> MemoryFile {
        let mut file = self;
        match torn {
            Torn::Old => file.writes.truncate(file.durable),
            Torn::New => {}
            Torn::Byte(byte) => {
                for written in file.writes.iter_mut().skip(file.durable) {
                    blot(written, byte);
                }
            }
        }
        file.durable = file.writes.len();
        file.asked.clear();
        file.fault = None;
        file
    }

    // Notes a call, which may be the one that it refuses.
    fn note(&mut self, asked: Asked) -> io::Result<()> {
        let before = self.asked.len();
        self.asked.push(asked)?;
        if self.fault == Some(Fault::Refuses(before)) {
            return Err(ErrorKind::InvalidInput.into());
        }
        Ok(())
    }

    // Keeps a write.
    fn keep(&mut self, at: usize, bytes: &[u8]) -> Result<(), AllocError> {
        let bytes = bytes.to_vec(self.alloc)?;
        self.writes.push(Written { at, bytes })?;
        Ok(())
    }
}

impl DeviceFile for MemoryFile {
    ghost answers = { λ _ _ _. ⊤ };

    ghost drops = { λ _ _. ⊤ };

    fn read_exact_at(&mut self, buf: &mut [u8], at: u64) -> io::Result<()> {
        self.note(Asked::Read(at as usize, buf.len()))?;
        buf.fill(0);
        if self.fault == Some(Fault::LiesInReads) {
            return Ok(());
        }
        for written in &self.writes {
            lay(written, at as usize, buf);
        }
        Ok(())
    }

    fn write_all_at(&mut self, bytes: &[u8], at: u64) -> io::Result<()> {
        let noted = self.note(Asked::Write(at as usize, bytes.len()));
        let (half, _rest) = bytes.split_at(bytes.len() / 2);
        let kept = if noted.is_err() { half } else { bytes };
        self.keep(at as usize, kept)?;
        noted
    }

    fn sync_data(&mut self) -> io::Result<()> {
        self.note(Asked::Sync)?;
        if self.fault != Some(Fault::LiesInSyncs) {
            self.durable = self.writes.len();
        }
        Ok(())
    }

    fn drop_pages(&mut self) {
        let _ = self.note(Asked::DropPages);
    }

    fn length(&self) -> io::Result<usize> {
        Ok(self.length)
    }
}
