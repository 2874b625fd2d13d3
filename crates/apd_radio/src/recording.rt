//! A radio that writes down what was asked of it.
ghost use Rattle.std.specs.Prelude.{◌≡◌, ◌≤◌, false, None, IfOk, IfSome, IfNone, OnOk, OnErr};
ghost use Rattle.std.specs.Option.{option_map};
ghost use Rattle.std.specs.FinMap as map;
ghost use Rattle.apd_base.specs.Failures.{HasRisen};
ghost use Rattle.apd_radio.specs.Frames.{and_then, Polls};
ghost use Rattle.apd_radio.specs.Model.{inside};
ghost use Rattle.apd_radio.specs.Recordings.{Records};
ghost use Rattle.apd_radio.specs.declared.call.Call.TheVariants as calls;

use crate::log::Log;
use crate::radio::{Radio, RadioFault};
use apd_base::Addr;
use std::alloc::Global;
use std::io::Write;
use std::os::fd::RawFd;

/// A radio over another one, which writes a line for each call of it that succeeded. Its answers are
/// those of the inner radio. The first write that fails, or that lacks memory, ends the recording.
pub struct Recording<R: Radio, W: Write + Drop> {
    inner: R,
    log: Log<W>,
}

impl<R: Radio, W: Write + Drop> Recording<R, W> {
    /// Begins a recording. It takes no memory.
    pub fn new(alloc: Global, inner: R, writer: W) -> Recording<R, W>
        ensures inner { result.inner ≡ inner }
        ensures writer { result.log.writer ≡ writer }
        ensures begun { result.log.ended ≡ false }
    {
        Recording {
            inner,
            log: Log::new(alloc, writer),
        }
    }
}

impl<R: Radio, W: Write + Drop> Drop for Recording<R, W> {
    fn drop(self) {
        let Recording { mut inner, mut log } = self;
        inner.take_down();
        log.write_down();
    }
}

impl<R: Radio, W: Write + Drop> Radio for Recording<R, W> {
    ghost model = { inside R.model (λ radio. radio.inner) };

    ghost frames = { λ radio. R.frames radio.inner };

    fn poll(&mut self) -> Result<Option<Vec<u8>>, RadioFault>
        ensures next { IfOk result
            (λ got. Polls (R.frames self.old.inner) (option_map (λ frame. frame.items) got)
            (R.frames self.new.inner)) }
        ensures unknown { OnErr result ((R.frames self.old.inner ≡ None) × (R.frames self.new.inner ≡ None)) }
        ensures same { R.model.stations self.new.inner ≡ R.model.stations self.old.inner }
        ensures stays { OnOk result (R.model.faults self.new.inner ≡ R.model.faults self.old.inner) }
        ensures memory { result ≡ Err RadioFault.NoMemory → R.model.faults self.new.inner ≡ R.model.faults self.old.inner }
        ensures device { result ≡ Err RadioFault.Device → HasRisen (R.model.faults self.old.inner) (R.model.faults self.new.inner) }
        ensures count { R.model.faults self.old.inner ≤ R.model.faults self.new.inner }
        ensures sent { R.model.sent self.new.inner ≡ R.model.sent self.old.inner }
        ensures written { IfOk result
            (λ got. IfSome got
            (λ frame. Records self.old.log.ended (W.contents self.old.log.writer)
            (calls.Received frame.items) self.new.log.ended (W.contents self.new.log.writer))) }
        ensures unwritten { IfOk result (λ got. IfNone got (self.new.log ≡ self.old.log)) }
        ensures failed { OnErr result (self.new.log ≡ self.old.log) }
    {
        let got = self.inner.poll()?;
        if let Some(frame) = &got {
            self.log.write_received(frame);
        }
        Ok(got)
    }

    fn descriptor(&self) -> Option<RawFd> {
        self.inner.descriptor()
    }

    fn install(&mut self, addr: Addr, aid: u16) -> Result<(), RadioFault>
        ensures ok { OnOk result (R.model.stations self.new.inner ≡ map.insert (R.model.stations self.old.inner) addr aid) }
        ensures err { OnErr result (R.model.stations self.new.inner ≡ R.model.stations self.old.inner) }
        ensures kept { R.frames self.new.inner ≡ R.frames self.old.inner }
        ensures stays { OnOk result (R.model.faults self.new.inner ≡ R.model.faults self.old.inner) }
        ensures memory { result ≡ Err RadioFault.NoMemory → R.model.faults self.new.inner ≡ R.model.faults self.old.inner }
        ensures device { result ≡ Err RadioFault.Device → HasRisen (R.model.faults self.old.inner) (R.model.faults self.new.inner) }
        ensures count { R.model.faults self.old.inner ≤ R.model.faults self.new.inner }
        ensures sent { R.model.sent self.new.inner ≡ R.model.sent self.old.inner }
        ensures written { OnOk result
            (Records self.old.log.ended (W.contents self.old.log.writer)
            (calls.Installed addr aid) self.new.log.ended (W.contents self.new.log.writer)) }
        ensures failed { OnErr result (self.new.log ≡ self.old.log) }
    {
        self.inner.install(addr, aid)?;
        self.log.write_installed(addr, aid);
        Ok(())
    }

    fn remove(&mut self, addr: Addr) -> Result<(), RadioFault>
        ensures ok { OnOk result (R.model.stations self.new.inner ≡ map.remove (R.model.stations self.old.inner) addr) }
        ensures err { OnErr result (R.model.stations self.new.inner ≡ R.model.stations self.old.inner) }
        ensures kept { R.frames self.new.inner ≡ R.frames self.old.inner }
        ensures only_device { OnErr result (result ≡ Err RadioFault.Device) }
        ensures stays { OnOk result (R.model.faults self.new.inner ≡ R.model.faults self.old.inner) }
        ensures device { result ≡ Err RadioFault.Device → HasRisen (R.model.faults self.old.inner) (R.model.faults self.new.inner) }
        ensures count { R.model.faults self.old.inner ≤ R.model.faults self.new.inner }
        ensures sent { R.model.sent self.new.inner ≡ R.model.sent self.old.inner }
        ensures written { OnOk result
            (Records self.old.log.ended (W.contents self.old.log.writer) (calls.Removed addr) self.new.log.ended
            (W.contents self.new.log.writer)) }
        ensures failed { OnErr result (self.new.log ≡ self.old.log) }
    {
        self.inner.remove(addr)?;
        self.log.write_removed(addr);
        Ok(())
    }

    fn transmit(&mut self, frame: &[u8]) -> Result<(), RadioFault>
        ensures same { R.model.stations self.new.inner ≡ R.model.stations self.old.inner }
        ensures kept { R.frames self.new.inner ≡ R.frames self.old.inner }
        ensures stays { OnOk result (R.model.faults self.new.inner ≡ R.model.faults self.old.inner) }
        ensures memory { result ≡ Err RadioFault.NoMemory → R.model.faults self.new.inner ≡ R.model.faults self.old.inner }
        ensures device { result ≡ Err RadioFault.Device → HasRisen (R.model.faults self.old.inner) (R.model.faults self.new.inner) }
        ensures count { R.model.faults self.old.inner ≤ R.model.faults self.new.inner }
        ensures sent { OnOk result (R.model.sent self.new.inner ≡ and_then (R.model.sent self.old.inner) frame.now) }
        ensures unsent { OnErr result (R.model.sent self.new.inner ≡ R.model.sent self.old.inner) }
        ensures written { OnOk result
            (Records self.old.log.ended (W.contents self.old.log.writer) (calls.Sent frame.now) self.new.log.ended
            (W.contents self.new.log.writer)) }
        ensures failed { OnErr result (self.new.log ≡ self.old.log) }
    {
        self.inner.transmit(frame)?;
        self.log.write_sent(frame);
        Ok(())
    }

    fn take_down(&mut self)
        ensures empty { R.model.stations self.new.inner ≡ map.empty }
        ensures kept { R.frames self.new.inner ≡ R.frames self.old.inner }
        ensures stays { R.model.faults self.new.inner ≡ R.model.faults self.old.inner }
        ensures sent { R.model.sent self.new.inner ≡ R.model.sent self.old.inner }
        ensures written { Records self.old.log.ended (W.contents self.old.log.writer) calls.Down self.new.log.ended
            (W.contents self.new.log.writer) }
    {
        self.inner.take_down();
        self.log.write_down();
    }

    fn installed(&self, addr: Addr) -> Option<u16> {
        self.inner.installed(addr)
    }

    fn failures(&self) -> u64 {
        self.inner.failures()
    }
}
