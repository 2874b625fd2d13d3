//! A disk whose sync is held until requests were accepted.
ghost use Rattle.std.specs.Prelude.{◌≡◌};
ghost use Rattle.apd_disk.specs.Disk.{inside};

use apd_desk::{Gate, Place};
use apd_disk::{Disk, DiskFault};
use std::sync::atomic::{AtomicBool, AtomicU64, Ordering};
use std::thread::yield_now;

/// How often a held sync looks, each time with a yield, before it gives up.
const LOOKS: u64 = 10_000_000;

/// How many entries have to pass the gate during the sync.
const FURTHER: u64 = 2;

/// Where the gate and a held sync meet.
#[derive(Drop)]
pub(crate) struct Turnstile {
    armed: AtomicBool,
    began: AtomicBool,
    accepted: AtomicU64,
    through: AtomicBool,
}

impl Turnstile {
    /// Holds no sync yet.
    pub(crate) fn new() -> Turnstile {
        Turnstile {
            armed: AtomicBool::new(false),
            began: AtomicBool::new(false),
            accepted: AtomicU64::new(0),
            through: AtomicBool::new(false),
        }
    }

    /// The next sync is the one to hold.
    pub(crate) fn arm(&self) {
        self.armed.store(true, Ordering::SeqCst);
    }

    /// Whether the sync to hold has begun.
    pub(crate) fn has_begun(&self) -> bool {
        self.began.load(Ordering::SeqCst)
    }

    /// Whether the sync went on since as many entries as it waits for passed the gate.
    pub(crate) fn is_through(&self) -> bool {
        self.through.load(Ordering::SeqCst)
    }

    fn hold(&self) {
        if !self.armed.swap(false, Ordering::SeqCst) {
            return;
        }
        let before = self.accepted.load(Ordering::SeqCst);
        self.began.store(true, Ordering::SeqCst);
        for _look in 0..LOOKS {
            if self.accepted.load(Ordering::SeqCst).abs_diff(before) >= FURTHER {
                self.through.store(true, Ordering::SeqCst);
                return;
            }
            yield_now();
        }
    }
}

impl Gate for Turnstile {
    fn pass(&self, at: Place) {
        if let Place::Accepted(_) = at {
            self.accepted.fetch_add(1, Ordering::SeqCst);
        }
    }
}

/// The disk inside, but for one sync, which begins only once two further entries passed the gate, or gives up.
#[derive(Drop)]
pub(crate) struct HoldDisk<'a, D: Disk> {
    inner: D,
    turnstile: &'a Turnstile,
}

impl<'a, D: Disk> HoldDisk<'a, D> {
    pub(crate) fn new(inner: D, turnstile: &'a Turnstile) -> HoldDisk<'a, D> {
        HoldDisk { inner, turnstile }
    }
}

impl<D: Disk> Disk for HoldDisk<'_, D> {
    ghost model = { inside D.model (λ d. d.inner) };

    ghost reads_may_be_left = { λ d h. D.reads_may_be_left d.inner h };

    ghost counts_now = { λ d t c h le left. D.counts_now d.inner t c h le left };

    ghost only_now = { λ d c h left. D.only_now d.inner c h left };

    ghost since_earlier = { λ d t u c h le left. D.since_earlier d.inner t u c h le left };

    ghost same_size = { λ d t c h left. D.same_size d.inner t c h left };

    fn len(&self) -> usize {
        self.inner.len()
    }

    fn failures(&self) -> u64 {
        self.inner.failures()
    }

    fn read_at(&mut self, at: usize, buf: &mut [u8]) -> Result<(), DiskFault> {
        self.inner.read_at(at, buf)
    }

    fn write_at(&mut self, at: usize, bytes: &[u8]) -> Result<(), DiskFault> {
        self.inner.write_at(at, bytes)
    }

    fn sync(&mut self) -> Result<(), DiskFault> {
        self.turnstile.hold();
        self.inner.sync()
    }
}
