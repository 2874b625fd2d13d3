//! A runtime whose log is kept in memory.
use crate::expect::expect;
use log::kv::Source;
use log::sink::Locked;
use log::span::Spans;
use log::{Log, Metadata, Record};
use std::alloc::{Allocator, Global};
use std::fmt::Display;
use std::fs::{self, OpenOptions};
use std::io;
use std::net::{Net, SocketAddr, UdpSocket};
use std::process::Abort;
use std::rt::Files;
use std::sync::Wait;
use std::thread::Threads;
use std::time::{Clock, Duration};

/// What is told where the input ends.
pub(crate) const ENDED: &str = "[INFO  apd] standard input ended: ends\n";

/// A runtime, and what is logged.
#[derive(Drop)]
pub(crate) struct Hearing<R: Wait> {
    rt: R,
    lines: Locked<R, Vec<u8>>,
}

impl<R: Wait + Copy + Drop> Hearing<R> {
    /// Nothing was logged yet.
    pub(crate) fn new(rt: R, alloc: Global) -> Hearing<R> {
        Hearing {
            rt,
            lines: Locked::new(rt, Vec::new(alloc)),
        }
    }
}

impl<R: Wait + Copy + Drop + Abort> Hearing<R> {
    // What was logged.
    fn heard(self) -> String {
        let Hearing { rt, lines } = self;
        let text = String::from_utf8(lines.into_inner()).ok();
        text.expect(&rt, "the log is text")
    }

    /// Ends the test where anything else was logged.
    pub(crate) fn expect_heard(self, wanted: &str) {
        let rt = self.rt;
        let text = self.heard();
        expect(&rt, text.as_str(), wanted);
    }

    /// Ends the test where anything else was logged beside that the input ended, which was once: other threads tell what
    /// they tell before it or behind it.
    pub(crate) fn expect_heard_to_the_end(self, wanted: &str) {
        let rt = self.rt;
        let text = self.heard();
        let mut parts = text.as_str().splitn(2, ENDED);
        let before = parts.next().expect(&rt, "a text");
        let behind = parts.next().expect(&rt, "that the input ended");
        let rest = wanted
            .strip_prefix(before)
            .expect(&rt, "what was told before");
        expect(&rt, behind, rest);
    }

    /// Ends the test where a line was not logged, or more than once.
    pub(crate) fn expect_heard_once(self, line: &str) {
        let rt = self.rt;
        let text = self.heard();
        expect(&rt, text.as_str().matches(line).count(), 1);
    }
}

impl<R: Wait> Log for Hearing<R> {
    fn enabled(&self, metadata: &Metadata<'_>) -> bool {
        self.lines.enabled(metadata)
    }

    fn log<D: Display, K: Source, S: Spans>(&self, record: &Record<'_, D, K, S>) {
        self.lines.log(record);
    }

    fn flush(&self) {}

    fn target(&self) -> &str {
        ""
    }
}

impl<R: Wait> Wait for Hearing<R> {}

impl<R: Wait + Abort> Abort for Hearing<R> {
    fn abort(&self) -> ! {
        self.rt.abort()
    }

    fn exit(&self, code: i32) -> ! {
        self.rt.exit(code)
    }

    fn panic<D: Display + Drop>(&self, message: D) -> ! {
        self.rt.panic(message)
    }
}

impl<R: Wait + Threads> Threads for Hearing<R> {}

impl<R: Wait + Alloc> Alloc for Hearing<R> {
    type A = R::A;

    fn alloc(&self) -> R::A {
        self.rt.alloc()
    }
}

impl<R: Wait + Clock> Clock for Hearing<R> {
    fn monotonic(&self) -> io::Result<Duration> {
        self.rt.monotonic()
    }

    fn since_1970(&self) -> io::Result<Duration> {
        self.rt.since_1970()
    }

    fn sleep(&self, duration: Duration) {
        self.rt.sleep(duration)
    }
}

impl<R: Wait + Net> Net for Hearing<R> {
    type Stream = R::Stream;

    type Listener = R::Listener;

    fn bind(&self, addr: SocketAddr) -> io::Result<R::Listener> {
        self.rt.bind(addr)
    }

    fn connect(&self, addr: SocketAddr) -> io::Result<R::Stream> {
        self.rt.connect(addr)
    }

    fn bind_udp(&self, addr: SocketAddr) -> io::Result<UdpSocket> {
        self.rt.bind_udp(addr)
    }
}

impl<R: Wait + Files> Files for Hearing<R> {
    type File = R::File;

    type Dir = R::Dir;

    fn open_file(&self, how: &OpenOptions, path: &str) -> io::Result<R::File> {
        self.rt.open_file(how, path)
    }

    fn open_dir(&self, path: &str) -> io::Result<R::Dir> {
        self.rt.open_dir(path)
    }

    fn metadata(&self, path: &str) -> io::Result<fs::Metadata> {
        self.rt.metadata(path)
    }

    fn symlink_metadata(&self, path: &str) -> io::Result<fs::Metadata> {
        self.rt.symlink_metadata(path)
    }

    fn copy(&self, from: &str, to: &str) -> io::Result<u64> {
        self.rt.copy(from, to)
    }

    fn rename(&self, from: &str, to: &str) -> io::Result<()> {
        self.rt.rename(from, to)
    }

    fn remove_file(&self, path: &str) -> io::Result<()> {
        self.rt.remove_file(path)
    }

    fn create_dir(&self, path: &str) -> io::Result<()> {
        self.rt.create_dir(path)
    }

    fn remove_dir(&self, path: &str) -> io::Result<()> {
        self.rt.remove_dir(path)
    }

    fn remove_dir_all<B: Allocator>(&self, alloc: B, path: &str) -> io::Result<()> {
        self.rt.remove_dir_all(alloc, path)
    }
}
