//! A device in memory that notes its calls, lets others run at them, and fails one by a plan.
ghost use Rattle.std.specs.Prelude.{◌≡◌};
ghost use Rattle.apd_disk.specs.Disk.{inside};

use crate::generator::Shaker;
use crate::notes::{DeviceCall, Lane, Note};
use crate::plan::DevicePlan;
use apd_disk::{Disk, DiskFault, FuseDisk, MemDisk, OnceDisk};
use std::sync::Wait;

/// A call that doesn't come.
const NEVER: u64 = u64::MAX;

/// The disk inside, with yields at its calls, which are noted.
#[derive(Drop)]
pub(crate) struct Shaken<'a, W: Wait, D: Disk> {
    rt: &'a W,
    lane: &'a Lane,
    inner: D,
    shaker: Shaker,
}

/// The device of a run.
pub(crate) type Device<'a, W> = Shaken<'a, W, OnceDisk<FuseDisk<MemDisk>>>;

/// A device that fails by a plan.
pub(crate) fn device<'a, W: Wait>(
    rt: &'a W,
    lane: &'a Lane,
    disk: MemDisk,
    plan: DevicePlan,
    seed: u64,
) -> Device<'a, W> {
    let (refuses, breaks_off) = match plan {
        DevicePlan::Serves => (NEVER, NEVER),
        DevicePlan::Refuses(call) => (call, NEVER),
        DevicePlan::BreaksOff(call) => (NEVER, call),
    };
    Shaken {
        rt,
        lane,
        inner: OnceDisk::new(FuseDisk::new(disk, breaks_off), refuses),
        shaker: Shaker::new(seed),
    }
}

/// What the device holds.
pub(crate) fn disk_of<W: Wait>(device: Device<'_, W>) -> MemDisk {
    let Shaken { inner, .. } = device;
    inner.into_inner().into_inner()
}

impl<W: Wait, D: Disk> Shaken<'_, W, D> {
    // Notes a call, and its answer.
    fn note(&self, call: DeviceCall, answer: Result<(), DiskFault>) {
        self.lane
            .log
            .note(self.rt, Note::Device(call, answer.is_ok()));
    }
}

impl<W: Wait, D: Disk> Disk for Shaken<'_, W, D> {
    ghost model = { inside D.model (λ d. d.inner) };

    ghost reads_may_be_left = { λ d h. D.reads_may_be_left d.inner h };

    ghost counts_now = { λ d t c h le left. D.counts_now d.inner t c h le left };

    ghost only_now = { λ d c h left. D.only_now d.inner c h left };

    ghost since_earlier = { λ d t u c h le left. D.since_earlier d.inner t u c h le left };

    ghost same_size = { λ d t c h left. D.same_size d.inner t c h left };

    fn len(&self) -> usize {
        self.inner.len()
    }

    fn failures(&self) -> u64 {
        self.inner.failures()
    }

    fn read_at(&mut self, at: usize, buf: &mut [u8]) -> Result<(), DiskFault> {
        let call = DeviceCall::Read(at, buf.len());
        let answer = self.inner.read_at(at, buf);
        self.note(call, answer);
        answer
    }

    fn write_at(&mut self, at: usize, bytes: &[u8]) -> Result<(), DiskFault> {
        self.shaker.shake();
        let answer = self.inner.write_at(at, bytes);
        self.note(DeviceCall::Write(at, bytes.len()), answer);
        answer
    }

    fn sync(&mut self) -> Result<(), DiskFault> {
        self.shaker.shake();
        let answer = self.inner.sync();
        self.note(DeviceCall::Sync, answer);
        answer
    }
}
