//! Input that ends where the store's device fails.
use crate::alarm::Alarm;
use mio::unix::SourceFd;
use mio::{Events, Interest, Poll, Token, Waker};
use std::alloc::Global;
use std::io::{self, ErrorKind, Read};
use std::net::Net;
use std::os::fd::RawFd;

/// What the system tells of: that the alarm rang.
const RUNG: Token = Token(0);

/// And that the input can be read.
const READABLE: Token = Token(1);

/// An input that ends, too, once an alarm has rung: a read that waits for the input by its descriptor is woken there. A
/// descriptor for which the system can't wait, as that of a regular file, is read at once.
#[derive(Drop)]
pub struct UntilFault<'a, B> {
    inner: B,
    descriptor: RawFd,
    alarm: &'a Alarm,
    poll: Poll,
    events: Events,
}

impl<'a, B> UntilFault<'a, B> {
    /// An input, which can be read whenever this descriptor can.
    ///
    /// Errors: `AlreadyExists` where the alarm has another; else the system's own.
    pub fn new(
        net: &impl Net,
        alloc: Global,
        inner: B,
        descriptor: RawFd,
        alarm: &'a Alarm,
    ) -> io::Result<UntilFault<'a, B>>
    where
        B: Drop,
    {
        let events = Events::with_capacity(alloc, 2)?;
        let poll = Poll::new(net)?;
        let waker = Waker::new(poll.registry(), RUNG)?;
        if !alarm.keep(waker) {
            return Err(ErrorKind::AlreadyExists.into());
        }
        Ok(UntilFault {
            inner,
            descriptor,
            alarm,
            poll,
            events,
        })
    }

    // Has the system tell that the input can be read, if it can be already, too. Tells whether it does.
    fn register(&self) -> bool {
        let mut source = SourceFd(&self.descriptor);
        let registry = self.poll.registry();
        registry
            .reregister(&mut source, READABLE, Interest::READABLE)
            .is_ok()
            || registry
                .register(&mut source, READABLE, Interest::READABLE)
                .is_ok()
    }

    // Waits until the input can be read or the alarm rings, where the system can wait for that.
    //
    // Errors: `WouldBlock` where neither came, as at a signal; else the system's own.
    fn wait(&mut self) -> io::Result<()> {
        if !self.register() {
            return Ok(());
        }
        self.poll.poll(&mut self.events, None)?;
        if self.events.is_empty() {
            return Err(ErrorKind::WouldBlock.into());
        }
        Ok(())
    }
}

impl<B: Read> Read for UntilFault<'_, B> {
    fn read(&mut self, buf: &mut [u8]) -> io::Result<usize> {
        self.wait()?;
        if self.alarm.has_rung() {
            return Ok(0);
        }
        self.inner.read(buf)
    }
}
