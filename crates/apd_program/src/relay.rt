//! The thread of the log, and what it shares with those who log.
use crate::lines::{Lines, MARGIN, empty_text};
use crate::running::RunningFault;
use crate::stamped::{Stamped, moment};
use apd_serve::{RunFault, ServeFault};
use jiff::Timestamp;
use std::alloc::{AllocError, Global};
use std::fmt::{self, Display, Formatter, Write};
use std::io;
use std::sync::{Arc, Condvar, CondvarTimeouts, Mutex, Wait};
use std::thread::{self, Threads};
use std::time::{Clock, Duration};

/// So many milliseconds the thread has at the end for what waits.
const GRACE: u64 = 1_000;

// Tells that so many lines were lost, as a warning of the log.
#[derive(Clone, Copy)]
struct Loss(u64);

impl Display for Loss {
    fn fmt<W: fmt::Write>(&self, f: &mut Formatter<W>) -> fmt::Result {
        write!(f, "[WARN  apd] {} lines were lost", self.0)
    }
}

// What stands behind the lock.
#[derive(Drop)]
struct Waiting {
    lines: Lines,
    // Where a line is made before it is put.
    line: String,
    // Whether a line was put or lost since the thread looked.
    has_news: bool,
    is_closed: bool,
    has_ended: bool,
}

impl Waiting {
    fn new(alloc: Global) -> Result<Waiting, AllocError> {
        Ok(Waiting {
            lines: Lines::new(alloc)?,
            line: String::with_capacity(alloc, MARGIN)?,
            has_news: false,
            is_closed: false,
            has_ended: false,
        })
    }

    // Puts a text with this end. Where there is no memory to make it, it is lost.
    fn put(&mut self, text: &impl Display, end: &str) {
        self.line.clear();
        if write!(self.line, "{text}{end}").is_ok() {
            self.lines.put(self.line.as_str());
        } else {
            self.lines.lose();
        }
        self.has_news = true;
    }

    // Tells of lost lines in their place, with this moment.
    fn tell_lost(&mut self, moment: Option<Timestamp>) {
        let lost = self.lines.lost();
        if lost == 0 {
            return;
        }
        let line = Loss(lost);
        self.line.clear();
        let is_made = writeln!(self.line, "{}", Stamped { moment, line }).is_ok();
        if is_made && self.lines.tell_lost(self.line.as_str()) {
            self.has_news = true;
        }
    }
}

/// Text that waits to be written on standard error by a thread of its own. So whoever has a line waits for nobody who reads
/// standard error.
#[derive(Drop)]
pub(crate) struct Relay {
    waiting: Mutex<Waiting>,
    news: Condvar,
    end: Condvar,
    shows_time: bool,
}

impl Relay {
    // Nothing waits.
    fn shared(alloc: Global, shows_time: bool) -> Result<Arc<Relay>, AllocError> {
        let relay = Relay {
            waiting: Mutex::new(Waiting::new(alloc)?),
            news: Condvar::new(),
            end: Condvar::new(),
            shows_time,
        };
        Ok(Arc::new(alloc, relay)?)
    }

    // Puts a text with this end.
    fn put<W: Wait>(&self, rt: &W, text: &impl Display, end: &str) {
        self.waiting.lock(rt).put(text, end);
        self.news.notify_one();
    }

    // Waits for news, and takes all that waits. Tells whether there were any before the end.
    fn take<W: Wait + Clock>(&self, rt: &W, taken: &mut String) -> bool {
        let mut guard = self.news.wait_while(rt, self.waiting.lock(rt), |waiting| {
            !waiting.has_news && !waiting.is_closed
        });
        let waiting = &mut *guard;
        let had_news = waiting.has_news;
        waiting.has_news = false;
        waiting.lines.take(taken);
        waiting.tell_lost(moment(rt, self.shows_time));
        had_news
    }

    // The thread has ended.
    fn note_end<W: Wait>(&self, rt: &W) {
        self.waiting.lock(rt).has_ended = true;
        self.end.notify_all();
    }

    /// Has room for all that comes from now on, as far as memory reaches: nobody else logs any more.
    pub(crate) fn widen<W: Wait + Clock>(&self, rt: &W) {
        let mut guard = self.waiting.lock(rt);
        let waiting = &mut *guard;
        waiting.tell_lost(moment(rt, self.shows_time));
        waiting.lines.widen();
    }

    /// Ends the thread once it has written what waits, and waits for that, but for a second at most.
    pub(crate) fn close<W: Wait + Clock>(&self, rt: &W) {
        self.waiting.lock(rt).is_closed = true;
        self.news.notify_one();
        let _waited = self.end.wait_timeout_while(
            rt,
            self.waiting.lock(rt),
            Duration::from_millis(GRACE),
            |waiting| !waiting.has_ended,
        );
    }
}

// Writes each line of a text. One that can't be written is lost.
fn write_lines(rt: &impl Eprint, text: &str) {
    for line in text.split_inclusive('\n') {
        let _ = rt.eprint(line);
    }
}

// Writes what waits, the oldest first, until the relay is closed and nothing waits.
fn write_all<W: Wait + Clock + Eprint>(rt: &W, relay: &Relay, taken: String) {
    let mut taken = taken;
    for _ in rt.forever() {
        if !relay.take(rt, &mut taken) {
            break;
        }
        write_lines(rt, taken.as_str());
    }
    relay.note_end(rt);
}

/// A relay whose thread runs. In front of the line that tells of lost ones stands the time, where that is asked for.
///
/// The thread has a copy of the runtime, and isn't joined: where standard error stands still at the end, it is cut off.
pub(crate) fn start_relay<W: Wait + Threads + Clock + Eprint + AllocGlobal + Copy + Send + 'static>(
    rt: &W,
    shows_time: bool,
) -> Result<Arc<Relay>, RunningFault> {
    let relay = Relay::shared(rt.alloc(), shows_time)?;
    let theirs = Arc::try_clone(&relay)?;
    let taken = empty_text(rt.alloc())?;
    let own = *rt;
    match thread::spawn(rt, move || write_all(&own, &*theirs, taken)) {
        Ok(thread) => {
            drop(thread);
            Ok(relay)
        }
        Err(refused) => {
            drop(refused);
            Err(RunningFault::Run(RunFault::Serve(ServeFault::Thread)))
        }
    }
}

/// A runtime whose standard error is a relay.
#[derive(Drop)]
pub(crate) struct Relayed<'a, R> {
    rt: &'a R,
    relay: &'a Relay,
}

impl<'a, R> Relayed<'a, R> {
    /// What is printed on its standard error goes to the relay.
    pub(crate) fn new(rt: &'a R, relay: &'a Relay) -> Relayed<'a, R> {
        Relayed { rt, relay }
    }
}

impl<R: Wait> Eprint for Relayed<'_, R> {
    fn eprint<D: Display + Drop>(&self, value: D) -> io::Result<()> {
        self.relay.put(self.rt, &value, "");
        Ok(())
    }

    fn eprintln<D: Display + Drop>(&self, value: D) -> io::Result<()> {
        self.relay.put(self.rt, &value, "\n");
        Ok(())
    }
}

impl<R: Print> Print for Relayed<'_, R> {
    fn print<D: Display + Drop>(&self, value: D) -> io::Result<()> {
        self.rt.print(value)
    }

    fn println<D: Display + Drop>(&self, value: D) -> io::Result<()> {
        self.rt.println(value)
    }

    fn write_all(&self, bytes: &[u8]) -> io::Result<()> {
        self.rt.write_all(bytes)
    }
}
