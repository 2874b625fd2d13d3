//! A radio that receives the frames of a recording.
ghost use Rattle.std.specs.Prelude.{◌≡◌, ◌≢◌, ℕ, ◌<◌, ◌∷◌, ◌++◌, [], OnOk, IfOk, IfErr, IfSome, IfNone, MatchOption, length, slice_index};
ghost use Rattle.std.specs.FinMap as map;
ghost use Rattle.apd_base.specs.Text.{lines, newline};
ghost use Rattle.apd_radio.specs.Recordings.{Replays, IsFault, frames_in};

use crate::call::Call;
use crate::identifiers::Identifiers;
use crate::radio::{Radio, RadioFault};
use apd_base::{Addr, Sequence};
use apd_udp::GhostList;
use std::alloc::{AllocError, Global};
use std::collections::VecDeque;
use thiserror::Error;

/// Why a text was not taken as a recording.
#[derive(Clone, Copy, PartialEq, Eq, Debug, Error)]
pub enum ReplayFault {
    /// A line stands for no call: the first such line, counted from 1.
    #[error("bad line {0}")]
    BadLine(usize),
    /// Memory ran out.
    #[error("out of memory")]
    NoMemory,
}

impl From<AllocError> for ReplayFault {
    ghost use Rattle.apd_radio.specs.declared.replaying.ReplayFault.TheVariants.{NoMemory};

    ghost from_gives = { λ _ fault. fault ≡ NoMemory };

    fn from(_error: AllocError) -> ReplayFault {
        ReplayFault::NoMemory
    }
}

/// A radio that receives the frames of a recording in order, and then none. It sends nothing.
pub struct Replaying {
    frames: VecDeque<Sequence<u8>>,
    stations: Identifiers,
    sent: GhostList<Sequence<u8>>,
}

fn end_of_line(text: &[u8]) -> Option<usize>
    ensures some { IfSome result (λ end. (end < length text.now) × (slice_index text.now end ≡ newline)
        × ((k : ℕ) → k < end → slice_index text.now k ≢ newline)) }
    ensures none { IfNone result ((k : ℕ) → k < length text.now → slice_index text.now k ≢ newline) }
{
    text.iter().position(|byte| *byte == b'\n')
}

// The first line without its newline, and what is behind it.
fn split_line(text: &[u8]) -> Option<(&[u8], &[u8])>
    ensures lines { MatchOption result (text.now ≡ []) (λ parts. lines text.now ≡ parts.0.now ∷ lines parts.1.now) }
    ensures shorter { MatchOption result (text.now ≡ []) (λ parts. length parts.1.now < length text.now) }
{
    if text.is_empty() {
        return None;
    }
    match end_of_line(text) {
        Some(end) => Some((&text[..end], &text[end + 1..])),
        None => Some((text, &text[text.len()..])),
    }
}

// Adds the frame of the call, if one was received.
fn keep_received(frames: &mut VecDeque<Sequence<u8>>, call: Call) -> Result<(), AllocError>
    ensures { OnOk result (frames.new.items ≡ frames.old.items ++ frames_in call) }
{
    if let Call::Received(frame) = call {
        frames.push_back(frame)?;
    }
    Ok(())
}

impl Replaying {
    /// Reads a recording. Its last line may lack the newline.
    ///
    /// Errors: `BadLine(n)` where line n, counted from 1, is the first that stands for no call; `NoMemory`.
    pub fn new(alloc: Global, recording: &[u8]) -> Result<Replaying, ReplayFault>
        ensures frames { IfOk result (λ radio. Replays recording.now radio.frames.items) }
        ensures stations { IfOk result (λ radio. radio.stations ≡ map.empty) }
        ensures sent { IfOk result (λ radio. radio.sent.items ≡ []) }
        ensures fault { IfErr result (λ fault. IsFault fault (lines recording.now)) }
    {
        let mut frames = VecDeque::new(alloc);
        let mut rest = recording;
        let mut line = 0;
        while let Some((first, after)) = split_line(rest) {
            line += 1;
            let Some(call) = Call::read(alloc, first)? else {
                return Err(ReplayFault::BadLine(line));
            };
            keep_received(&mut frames, call)?;
            rest = after;
        }
        Ok(Replaying {
            frames,
            stations: Identifiers::new(alloc),
            sent: GhostList::new(),
        })
    }
}

impl Drop for Replaying {
    fn drop(self) {
        let Replaying {
            frames: _,
            mut stations,
            sent: _,
        } = self;
        stations.clear();
    }
}

impl Radio for Replaying {
    ghost use Rattle.std.specs.Prelude.{Some};

    ghost model = { record {
      stations = λ radio. radio.stations;
      faults = λ _. 0;
      sent = λ radio. Some radio.sent.items;
    } };

    ghost frames = { λ radio. Some radio.frames.items };

    fn poll(&mut self) -> Result<Option<Vec<u8>>, RadioFault> {
        let Some(frame) = self.frames.pop_front() else {
            return Ok(None);
        };
        Ok(Some(frame.into_vec()))
    }

    fn install(&mut self, addr: Addr, aid: u16) -> Result<(), RadioFault> {
        Ok(self.stations.insert(addr, aid)?)
    }

    fn remove(&mut self, addr: Addr) -> Result<(), RadioFault> {
        self.stations.remove(addr);
        Ok(())
    }

    fn transmit(&mut self, frame: &[u8]) -> Result<(), RadioFault> {
        self.sent.note(&frame);
        Ok(())
    }

    fn take_down(&mut self) {
        self.stations.clear();
    }

    fn installed(&self, addr: Addr) -> Option<u16> {
        self.stations.get(addr)
    }

    fn failures(&self) -> u64 {
        0
    }
}
