//! A radio over another one, by which a test says when something comes, what fails, and what is noted.
ghost use Rattle.apd_radio.specs.Model.{inside};

use apd_base::Addr;
use apd_radio::{Radio, RadioFault};
use std::alloc::AllocError;
use std::os::fd::RawFd;

/// What a poll gives, or that memory lacks for it.
pub(crate) type Given = Result<Option<Vec<u8>>, AllocError>;

/// What a radio does beside what the one inside does: by itself nothing.
pub(crate) trait Habit: Drop {
    /// What a poll gives, if the radio inside is not asked.
    fn give(&mut self) -> Option<Given> {
        None
    }

    /// The radio inside was asked, and gave a frame, or none.
    fn hear(&mut self, _came: bool) {}

    /// The descriptor is asked for.
    fn pause(&self) {}

    /// Whether memory lacks for this frame, which is to be sent.
    fn refuses(&mut self, _frame: &[u8]) -> bool {
        false
    }

    /// The radio is taken down.
    fn take_down(&mut self) {}
}

/// The radio inside, with a habit.
#[derive(Drop)]
pub(crate) struct Habitual<R: Radio, H: Habit> {
    inner: R,
    habit: H,
}

impl<R: Radio, H: Habit> Habitual<R, H> {
    pub(crate) fn new(inner: R, habit: H) -> Habitual<R, H> {
        Habitual { inner, habit }
    }
}

impl<R: Radio, H: Habit> Radio for Habitual<R, H> {
    ghost model = { inside R.model (λ radio. radio.inner) };

    fn poll(&mut self) -> Result<Option<Vec<u8>>, RadioFault> {
        if let Some(given) = self.habit.give() {
            return Ok(given?);
        }
        let frame = self.inner.poll()?;
        self.habit.hear(frame.is_some());
        Ok(frame)
    }

    fn descriptor(&self) -> Option<RawFd> {
        self.habit.pause();
        self.inner.descriptor()
    }

    fn install(&mut self, addr: Addr, aid: u16) -> Result<(), RadioFault> {
        self.inner.install(addr, aid)
    }

    fn remove(&mut self, addr: Addr) -> Result<(), RadioFault> {
        self.inner.remove(addr)
    }

    fn transmit(&mut self, frame: &[u8]) -> Result<(), RadioFault> {
        if self.habit.refuses(frame) {
            return Err(RadioFault::NoMemory);
        }
        self.inner.transmit(frame)
    }

    fn take_down(&mut self) {
        self.habit.take_down();
        self.inner.take_down();
    }

    fn installed(&self, addr: Addr) -> Option<u16> {
        self.inner.installed(addr)
    }

    fn failures(&self) -> u64 {
        self.inner.failures()
    }
}
