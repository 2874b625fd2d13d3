//! A runtime whose log goes elsewhere, with the time in front of each line.
use crate::stamped::{Stamped, moment};
use log::kv::Source;
use log::span::Spans;
use log::{Line, Log, Metadata, Record};
use std::alloc::Allocator;
use std::fmt::Display;
use std::fs::{self, OpenOptions};
use std::io;
use std::net::{Net, SocketAddr, UdpSocket};
use std::rt::Files;
use std::sync::Wait;
use std::thread::Threads;
use std::time::{Clock, Duration};

/// A runtime over another one, whose log goes to another standard error. Where that is asked for, in front of each line
/// stands the moment of it, in UTC and to the millisecond, as RFC 3339 has it; where the clock can't be read, the line
/// stands alone.
#[derive(Drop)]
pub struct Timed<'a, R, E> {
    rt: &'a R,
    to: &'a E,
    shows_time: bool,
}

impl<'a, R, E> Timed<'a, R, E> {
    /// Its log goes to the second; what else it passes on, to the first.
    pub fn new(rt: &'a R, to: &'a E, shows_time: bool) -> Timed<'a, R, E> {
        Timed { rt, to, shows_time }
    }
}

impl<R: Log + Clock, E: Eprint> Log for Timed<'_, R, E> {
    fn enabled(&self, metadata: &Metadata<'_>) -> bool {
        self.rt.enabled(metadata)
    }

    fn log<D: Display, K: Source, S: Spans>(&self, record: &Record<'_, D, K, S>) {
        if self.rt.enabled(record.metadata()) {
            let moment = moment(self.rt, self.shows_time);
            let line = Line::new(record);
            let _ = eprintln!(self.to; "{}", Stamped { moment, line });
        }
    }

    fn flush(&self) {
        self.rt.flush();
    }

    fn target(&self) -> &str {
        self.rt.target()
    }
}

impl<R: Wait, E> Wait for Timed<'_, R, E> {}

impl<R: Threads, E> Threads for Timed<'_, R, E> {}

impl<R: Alloc, E> Alloc for Timed<'_, R, E> {
    type A = R::A;

    fn alloc(&self) -> R::A {
        self.rt.alloc()
    }
}

impl<R: Clock, E> Clock for Timed<'_, R, E> {
    fn monotonic(&self) -> io::Result<Duration> {
        self.rt.monotonic()
    }

    fn since_1970(&self) -> io::Result<Duration> {
        self.rt.since_1970()
    }

    fn sleep(&self, duration: Duration) {
        self.rt.sleep(duration)
    }
}

impl<R: Net, E> Net for Timed<'_, R, E> {
    type Stream = R::Stream;

    type Listener = R::Listener;

    fn bind(&self, addr: SocketAddr) -> io::Result<R::Listener> {
        self.rt.bind(addr)
    }

    fn connect(&self, addr: SocketAddr) -> io::Result<R::Stream> {
        self.rt.connect(addr)
    }

    fn bind_udp(&self, addr: SocketAddr) -> io::Result<UdpSocket> {
        self.rt.bind_udp(addr)
    }
}

impl<R: Files, E> Files for Timed<'_, R, E> {
    type File = R::File;

    type Dir = R::Dir;

    fn open_file(&self, how: &OpenOptions, path: &str) -> io::Result<R::File> {
        self.rt.open_file(how, path)
    }

    fn open_dir(&self, path: &str) -> io::Result<R::Dir> {
        self.rt.open_dir(path)
    }

    fn metadata(&self, path: &str) -> io::Result<fs::Metadata> {
        self.rt.metadata(path)
    }

    fn symlink_metadata(&self, path: &str) -> io::Result<fs::Metadata> {
        self.rt.symlink_metadata(path)
    }

    fn copy(&self, from: &str, to: &str) -> io::Result<u64> {
        self.rt.copy(from, to)
    }

    fn rename(&self, from: &str, to: &str) -> io::Result<()> {
        self.rt.rename(from, to)
    }

    fn remove_file(&self, path: &str) -> io::Result<()> {
        self.rt.remove_file(path)
    }

    fn create_dir(&self, path: &str) -> io::Result<()> {
        self.rt.create_dir(path)
    }

    fn remove_dir(&self, path: &str) -> io::Result<()> {
        self.rt.remove_dir(path)
    }

    fn remove_dir_all<B: Allocator>(&self, alloc: B, path: &str) -> io::Result<()> {
        self.rt.remove_dir_all(alloc, path)
    }
}
