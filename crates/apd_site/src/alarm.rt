//! What rings where the store's device fails.
use mio::Waker;
use std::sync::OnceLock;
use std::sync::atomic::AtomicBool;
use std::sync::atomic::Ordering::SeqCst;

/// Whether the store's device failed while it was served, and what wakes who waits for that.
#[derive(Drop)]
pub struct Alarm {
    rung: AtomicBool,
    waker: OnceLock<Waker>,
}

impl Alarm {
    /// It didn't ring yet, and wakes nobody.
    pub fn new() -> Alarm {
        Alarm {
            rung: AtomicBool::new(false),
            waker: OnceLock::new(),
        }
    }

    /// Has it wake by this, too. Tells whether there was none yet.
    pub(crate) fn keep(&self, waker: Waker) -> bool {
        self.waker.try_set(waker).is_ok()
    }

    /// The device failed.
    pub fn ring(&self) {
        self.rung.store(true, SeqCst);
        if let Some(waker) = self.waker.get() {
            let _woken = waker.wake();
        }
    }

    /// Whether the device failed.
    pub fn has_rung(&self) -> bool {
        self.rung.load(SeqCst)
    }
}
