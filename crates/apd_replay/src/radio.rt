//! A radio that notes what it gives and what its driver is asked for.
ghost use Rattle.std.specs.Prelude.{◌≡◌, ◌≢◌};

use crate::digest::digest;
use crate::frames::Frame;
use crate::generator::Shaker;
use crate::notes::{Asked, Call, Lane, Note};
use crate::plan::Faults;
use crate::stage::Stage;
use apd_base::Addr;
use apd_radio::{Radio, RadioFault, Sim};
use std::alloc::Global;
use std::sync::Wait;

/// What a radio receives; none in a replay.
#[derive(Clone, Copy)]
pub(crate) struct Feed<'a> {
    pub(crate) stage: &'a Stage,
    pub(crate) frames: &'a [Frame],
}

/// The radio inside, of this number among those of its slot, whose driver fails by a plan. Its count of failures stands
/// at the greatest value.
#[derive(Drop)]
pub(crate) struct Noted<'a, W: Wait, R: Radio> {
    rt: &'a W,
    alloc: Global,
    lane: &'a Lane,
    shaker: Shaker,
    inner: R,
    number: usize,
    faults: Faults,
    calls: u64,
    feed: Option<Feed<'a>>,
}

/// The radio of a run, and of its replay.
pub(crate) type NotedRadio<'a, W> = Noted<'a, W, Sim>;

impl<'a, W: Wait, R: Radio> Noted<'a, W, R> {
    pub(crate) fn new(
        rt: &'a W,
        alloc: Global,
        inner: R,
        lane: &'a Lane,
        seed: u64,
        number: usize,
        faults: Faults,
        feed: Option<Feed<'a>>,
    ) -> Noted<'a, W, R> {
        Noted {
            rt,
            alloc,
            lane,
            shaker: Shaker::new(seed),
            inner,
            number,
            faults,
            calls: 0,
            feed,
        }
    }

    // How the next call of the driver fails, if it does.
    fn meet(&mut self) -> Result<(), RadioFault>
        ensures { self.new.inner ≡ self.old.inner }
    {
        let before = self.calls;
        self.calls = before.wrapping_add(1);
        match self.faults.of_call(before) {
            Some(fault) => Err(fault),
            None => Ok(()),
        }
    }

    // Notes a call and its answer.
    fn note(&self, asked: Asked, answer: Result<(), RadioFault>) {
        if self.feed.is_some() {
            self.shaker.shake();
        }
        if answer.is_err() || asked == Asked::TakeDown {
            self.lane.meet_trouble();
        }
        let radio = self.number;
        let call = Call {
            radio,
            asked,
            answer,
        };
        self.lane.log.note(self.rt, Note::Called(call));
    }

    // Gives a frame, if its turn has come.
    fn give(
        &self,
        feed: Feed<'a>,
        frame: &Frame,
        place: usize,
    ) -> Result<Option<Vec<u8>>, RadioFault> {
        if !frame.kind.is_answered() && !feed.stage.begin_calm(self.lane) {
            return Ok(None);
        }
        let Ok(bytes) = Vec::from_slice(self.alloc, frame.bytes.as_slice()) else {
            return Ok(None);
        };
        self.lane.go_on();
        let note = Note::Given(feed.stage.stamp(), place);
        self.lane.log.note(self.rt, note);
        Ok(Some(bytes))
    }

    // The next frame.
    fn next(&self, feed: Feed<'a>) -> Result<Option<Vec<u8>>, RadioFault> {
        feed.stage.end_calm(self.lane);
        self.shaker.shake();
        if self.shaker.hits(8) {
            return Ok(None);
        }
        match self.shaker.below(120) {
            0 => return Err(RadioFault::Device),
            1 => return Err(RadioFault::NoMemory),
            _ => {}
        }
        let place = self.lane.next();
        match feed.frames.get(place) {
            Some(frame) => self.give(feed, frame, place),
            None => {
                feed.stage.finish(self.lane);
                Ok(None)
            }
        }
    }
}

impl<W: Wait, R: Radio> Radio for Noted<'_, W, R> {
    ghost model = { record {
      stations = λ radio. R.model.stations radio.inner;
      faults = λ radio. 18446744073709551615;
      sent = λ radio. R.model.sent radio.inner;
    } };

    fn poll(&mut self) -> Result<Option<Vec<u8>>, RadioFault> {
        match self.feed {
            Some(feed) => self.next(feed),
            None => Ok(None),
        }
    }

    fn install(&mut self, addr: Addr, aid: u16) -> Result<(), RadioFault> {
        let answer = match self.meet() {
            Ok(()) => self.inner.install(addr, aid),
            Err(fault) => Err(fault),
        };
        self.note(Asked::Install(addr, aid), answer);
        answer
    }

    fn remove(&mut self, addr: Addr) -> Result<(), RadioFault> {
        let answer = match self.meet() {
            Ok(()) => self.inner.remove(addr),
            Err(_) => Err(RadioFault::Device),
        };
        self.note(Asked::Remove(addr), answer);
        answer
    }

    fn transmit(&mut self, frame: &[u8]) -> Result<(), RadioFault> {
        let answer = match self.meet() {
            Ok(()) => self.inner.transmit(frame),
            Err(fault) => Err(fault),
        };
        self.note(Asked::Transmit(digest(frame)), answer);
        answer
    }

    fn take_down(&mut self) {
        self.inner.take_down();
        self.note(Asked::TakeDown, Ok(()));
    }

    fn installed(&self, addr: Addr) -> Option<u16> {
        self.inner.installed(addr)
    }

    fn failures(&self) -> u64 {
        u64::MAX
    }
}
