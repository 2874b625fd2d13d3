//! A radio whose device fails for good after some calls.
ghost use Rattle.std.specs.Prelude.{◌≡◌, ◌≤◌, ◌+◌, None, OnOk, OnErr, IfOk};
ghost use Rattle.std.specs.Option.{option_map};
ghost use Rattle.std.specs.FinMap as map;
ghost use Rattle.apd_base.specs.Failures.{HasRisen};
ghost use Rattle.apd_radio.specs.Faults.{Counts, FailingCall};
ghost use Rattle.apd_radio.specs.Frames.{and_then, Polls};

use crate::counting::count_fault;
use crate::radio::{Radio, RadioFault};
use apd_base::Addr;
use std::os::fd::RawFd;

/// A radio over another one. It passes some calls of `install`, `remove` and `transmit` on; each later one fails
/// in the device, and isn't passed on. Its other answers are those of the inner radio.
pub struct Failing<R: Radio> {
    inner: R,
    // How many calls are still passed on.
    passes: u64,
    // The failures that the inner radio had at first, and those since, its own and those made here.
    failures: u64,
}

impl<R: Radio> Failing<R> {
    /// A radio that passes this many calls on.
    pub fn new(inner: R, calls: u64) -> Failing<R>
        ensures inner { result.inner ≡ inner }
        ensures calls { result.passes ≡ calls }
        ensures failures { result.failures ≡ R.model.faults inner }
    {
        let failures = inner.failures();
        Failing {
            inner,
            passes: calls,
            failures,
        }
    }

    // Takes one of the calls that are still passed on. Where there is none, the device has failed.
    fn pass(&mut self) -> Result<(), RadioFault>
        ensures inner { self.new.inner ≡ self.old.inner }
        ensures count { Counts self.old.failures self.new.failures result }
        ensures passed { OnOk result (self.old.passes ≡ self.new.passes + 1) }
        ensures failed { OnErr result
            ((self.old.passes ≡ 0) × (self.new.passes ≡ 0) × (result ≡ Err RadioFault.Device)) }
    {
        let Some(passes) = self.passes.checked_sub(1) else {
            return count_fault(&mut self.failures, Err(RadioFault::Device));
        };
        self.passes = passes;
        Ok(())
    }
}

impl<R: Radio> Drop for Failing<R> {
    fn drop(self) {
        let Failing {
            mut inner,
            passes: _,
            failures: _,
        } = self;
        inner.take_down();
    }
}

// A method with an `ensures` of its own has its clauses in place of the trait's. So each one here repeats
// the trait's, of the radio inside and of the count here, beside those that are its own (`calls`, `passed`).
impl<R: Radio> Radio for Failing<R> {
    ghost model = { record {
      stations = λ radio. R.model.stations radio.inner;
      faults = λ radio. radio.failures;
      sent = λ radio. R.model.sent radio.inner;
    } };

    ghost frames = { λ radio. R.frames radio.inner };

    fn poll(&mut self) -> Result<Option<Vec<u8>>, RadioFault>
        ensures next { IfOk result
            (λ got. Polls (R.frames self.old.inner) (option_map (λ frame. frame.items) got)
            (R.frames self.new.inner)) }
        ensures unknown { OnErr result ((R.frames self.old.inner ≡ None) × (R.frames self.new.inner ≡ None)) }
        ensures same { R.model.stations self.new.inner ≡ R.model.stations self.old.inner }
        ensures stays { OnOk result (self.new.failures ≡ self.old.failures) }
        ensures memory { result ≡ Err RadioFault.NoMemory → self.new.failures ≡ self.old.failures }
        ensures device { result ≡ Err RadioFault.Device → HasRisen self.old.failures self.new.failures }
        ensures count { self.old.failures ≤ self.new.failures }
        ensures sent { R.model.sent self.new.inner ≡ R.model.sent self.old.inner }
        ensures calls { self.new.passes ≡ self.old.passes }
        ensures passed { Counts (R.model.faults self.old.inner) (R.model.faults self.new.inner) result }
    {
        let answer = self.inner.poll();
        count_fault(&mut self.failures, answer)
    }

    fn descriptor(&self) -> Option<RawFd> {
        self.inner.descriptor()
    }

    fn install(&mut self, addr: Addr, aid: u16) -> Result<(), RadioFault>
        ensures ok { OnOk result (R.model.stations self.new.inner ≡ map.insert (R.model.stations self.old.inner) addr aid) }
        ensures err { OnErr result (R.model.stations self.new.inner ≡ R.model.stations self.old.inner) }
        ensures kept { R.frames self.new.inner ≡ R.frames self.old.inner }
        ensures stays { OnOk result (self.new.failures ≡ self.old.failures) }
        ensures memory { result ≡ Err RadioFault.NoMemory → self.new.failures ≡ self.old.failures }
        ensures device { result ≡ Err RadioFault.Device → HasRisen self.old.failures self.new.failures }
        ensures count { self.old.failures ≤ self.new.failures }
        ensures sent { R.model.sent self.new.inner ≡ R.model.sent self.old.inner }
        ensures passed { FailingCall R.model self.old.inner self.new.inner self.old.passes self.new.passes result }
    {
        self.pass()?;
        let answer = self.inner.install(addr, aid);
        count_fault(&mut self.failures, answer)
    }

    fn remove(&mut self, addr: Addr) -> Result<(), RadioFault>
        ensures ok { OnOk result (R.model.stations self.new.inner ≡ map.remove (R.model.stations self.old.inner) addr) }
        ensures err { OnErr result (R.model.stations self.new.inner ≡ R.model.stations self.old.inner) }
        ensures kept { R.frames self.new.inner ≡ R.frames self.old.inner }
        ensures only_device { OnErr result (result ≡ Err RadioFault.Device) }
        ensures stays { OnOk result (self.new.failures ≡ self.old.failures) }
        ensures device { result ≡ Err RadioFault.Device → HasRisen self.old.failures self.new.failures }
        ensures count { self.old.failures ≤ self.new.failures }
        ensures sent { R.model.sent self.new.inner ≡ R.model.sent self.old.inner }
        ensures passed { FailingCall R.model self.old.inner self.new.inner self.old.passes self.new.passes result }
    {
        self.pass()?;
        let answer = self.inner.remove(addr);
        count_fault(&mut self.failures, answer)
    }

    fn transmit(&mut self, frame: &[u8]) -> Result<(), RadioFault>
        ensures same { R.model.stations self.new.inner ≡ R.model.stations self.old.inner }
        ensures kept { R.frames self.new.inner ≡ R.frames self.old.inner }
        ensures stays { OnOk result (self.new.failures ≡ self.old.failures) }
        ensures memory { result ≡ Err RadioFault.NoMemory → self.new.failures ≡ self.old.failures }
        ensures device { result ≡ Err RadioFault.Device → HasRisen self.old.failures self.new.failures }
        ensures count { self.old.failures ≤ self.new.failures }
        ensures sent { OnOk result (R.model.sent self.new.inner ≡ and_then (R.model.sent self.old.inner) frame.now) }
        ensures unsent { OnErr result (R.model.sent self.new.inner ≡ R.model.sent self.old.inner) }
        ensures passed { FailingCall R.model self.old.inner self.new.inner self.old.passes self.new.passes result }
    {
        self.pass()?;
        let answer = self.inner.transmit(frame);
        count_fault(&mut self.failures, answer)
    }

    fn take_down(&mut self)
        ensures empty { R.model.stations self.new.inner ≡ map.empty }
        ensures kept { R.frames self.new.inner ≡ R.frames self.old.inner }
        ensures stays { self.new.failures ≡ self.old.failures }
        ensures sent { R.model.sent self.new.inner ≡ R.model.sent self.old.inner }
        ensures calls { self.new.passes ≡ self.old.passes }
    {
        self.inner.take_down();
    }

    fn installed(&self, addr: Addr) -> Option<u16> {
        self.inner.installed(addr)
    }

    fn failures(&self) -> u64 {
        self.failures
    }
}
