//! What was noted of the committing worker: its turns, and the calls of the device.
use crate::fault::Fault;
use crate::notes::Note;

// How far its notes were read.
#[derive(Clone, Copy)]
struct Turns {
    // Whether there was a turn: the device's calls before that are the start's.
    any: bool,
    // How often the device was called in the turn that is under way, if one is.
    calls: Option<u32>,
    failed: bool,
    // The stamp of the end of the turn in which the device failed.
    fault: Option<u64>,
}

impl Turns {
    fn begin(&mut self) -> Result<(), Fault> {
        if self.calls.is_some() {
            return Err(Fault::Turn);
        }
        self.any = true;
        self.calls = Some(0);
        Ok(())
    }

    // A turn makes one call of the device at most, and none is made behind one that failed.
    fn call(&mut self, served: bool) -> Result<(), Fault> {
        if !self.any {
            return Ok(());
        }
        if self.failed || self.calls != Some(0) {
            return Err(Fault::DeviceCall);
        }
        self.calls = Some(1);
        self.failed = !served;
        Ok(())
    }

    fn end(&mut self, stamp: u64) -> Result<(), Fault> {
        if self.calls.take().is_none() {
            return Err(Fault::Turn);
        }
        if self.failed && self.fault.is_none() {
            self.fault = Some(stamp);
        }
        Ok(())
    }

    fn read(&mut self, note: Note) -> Result<(), Fault> {
        match note {
            Note::BeforeTurn => self.begin(),
            Note::Device(_call, served) => self.call(served),
            Note::AfterTurn(stamp) => self.end(stamp),
            _ => Ok(()),
        }
    }
}

/// Reads the notes of the committing worker. Tells the stamp of the end of the turn in which the device failed, if it
/// did.
pub(crate) fn read_turns(notes: &[Note]) -> Result<Option<u64>, Fault> {
    let mut turns = Turns {
        any: false,
        calls: None,
        failed: false,
        fault: None,
    };
    for note in notes {
        turns.read(*note)?;
    }
    if turns.calls.is_some() {
        return Err(Fault::Turn);
    }
    Ok(turns.fault)
}
