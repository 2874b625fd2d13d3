//! A disk in memory, which keeps what it held at first and each call that it has served.
ghost use Rattle.std.specs.Prelude.{◌≡◌, ◌≤◌, ◌+◌, ◌↔◌, ◌++◌, ◌∷◌, [], ℕ, List, length, take, drop, replicate, IsTrue, OnErr, OnOk, IfOk};
ghost use Rattle.apd_disk.specs.Disk.{with_bytes, TornWithin, Only, Within, Follows, Elapses, Counts};
ghost use Rattle.apd_disk.specs.Mem.{reads_after, all_fit, LeftAfter, LeftBetween, CallsGoOn, IsCrashImage, EndsWithTheLastSync, torn_write, torn_writes};
ghost use Rattle.apd_disk.specs.for_proofs.MemLaws.{calls_stay, calls_go_further, reads_left, now_left, only_last, earlier_left, left_length};
ghost use Rattle.apd_disk.specs.declared.call.Call.TheVariants.{Read, Write, Sync};

use crate::fault::fail;
use crate::{Call, Disk, DiskFault, Torn};
use apd_base::Sequence;
use std::alloc::{AllocError, Global};

/// A disk in memory. It is honest, and keeps a record of its calls, reads too. One that it cannot record
/// does nothing and fails.
#[derive(Drop)]
pub struct MemDisk {
    alloc: Global,
    initial: Vec<u8>,
    calls: Vec<Call>,
    bytes: Vec<u8>,
    failures: u64,
    ghost stands: { bytes.items ≡ reads_after initial.items calls.items },
    ghost fit: { IsTrue (all_fit (length initial.items) calls.items) },
}

fn overwrite(bytes: &mut Vec<u8>, at: usize, new: &[u8])
    requires { at + length new.now ≤ length bytes.old.items }
    ensures { bytes.new.items ≡ with_bytes bytes.old.items at new.now }
{
    let end = at + new.len();
    bytes[at..end].copy_from_slice(new);
}

fn record_write(
    alloc: Global,
    calls: &mut Vec<Call>,
    at: usize,
    bytes: &[u8],
) -> Result<(), AllocError>
    ensures ok { OnOk result (calls.new.items ≡ calls.old.items ++ Write at bytes.now ∷ []) }
    ensures err { OnErr result (calls.new.items ≡ calls.old.items) }
{
    let copy = bytes.to_vec(alloc)?;
    calls.push(Call::Write(at, Sequence::from_vec(copy)))?;
    Ok(())
}

fn record(calls: &mut Vec<Call>, call: Call) -> Result<(), AllocError>
    ensures ok { OnOk result (calls.new.items ≡ calls.old.items ++ call ∷ []) }
    ensures err { OnErr result (calls.new.items ≡ calls.old.items) }
{
    calls.push(call)?;
    Ok(())
}

fn fill(bytes: &mut [u8], byte: u8)
    ensures { bytes.new ≡ replicate (length bytes.old) byte }
{
    bytes.fill(byte);
}

// What a stop of this kind leaves of one write.
fn tear(image: &mut Vec<u8>, at: usize, bytes: &[u8], torn: Torn)
    requires { at + length bytes.now ≤ length image.old.items }
    ensures { image.new.items ≡ torn_write torn image.old.items at bytes.now }
{
    match torn {
        Torn::Old => {}
        Torn::New => overwrite(image, at, bytes),
        Torn::Byte(byte) => {
            let end = at + bytes.len();
            fill(&mut image[at..end], byte);
        }
    }
}

// What a stop of this kind leaves of each write of the calls.
fn replay(calls: &[Call], torn: Torn, image: &mut Vec<u8>)
    requires fit { IsTrue (all_fit (length image.old.items) calls.now) }
    ensures bytes { image.new.items ≡ torn_writes torn image.old.items calls.now }
    ensures size { length image.new.items ≡ length image.old.items }
{
    for call in calls {
        if let Call::Write(at, bytes) = call {
            tear(image, *at, bytes.as_slice(), torn);
        }
    }
}

// How many calls there are up to the last sync, with it; none where there is no sync.
fn last_sync(calls: &[Call]) -> usize
    ensures { EndsWithTheLastSync result calls.now }
{
    let mut end = calls.len();
    while end > 0 && !matches!(calls[end - 1], Call::Sync) {
        end -= 1;
    }
    end
}

// Turns the first image into the one that a stop after the calls leaves.
fn stop(calls: &[Call], torn: Torn, image: &mut Vec<u8>)
    requires fit { IsTrue (all_fit (length image.old.items) calls.now) }
    ensures bytes { IsCrashImage torn image.old.items calls.now image.new.items }
    ensures stop { LeftAfter image.old.items calls.now image.new.items }
    ensures size { length image.new.items ≡ length image.old.items }
{
    let (durable, later) = calls.split_at(last_sync(calls));
    replay(durable, Torn::New, image);
    replay(later, torn, image);
}

impl MemDisk {
    /// A disk that holds these bytes, all of them durable.
    ///
    /// Errors: only where memory is refused.
    pub fn new(alloc: Global, bytes: Vec<u8>) -> Result<Self, AllocError>
        ensures bytes { IfOk result (λ d. d.bytes.items ≡ bytes.items) }
        ensures initial { IfOk result (λ d. d.initial.items ≡ bytes.items) }
        ensures calls { IfOk result (λ d. d.calls.items ≡ []) }
        ensures failures { IfOk result (λ d. d.failures ≡ 0) }
        ensures durable { IfOk result (λ d. Only d.bytes.items (LeftAfter d.initial.items d.calls.items)) }
    {
        let initial = bytes.to_vec(alloc)?;
        Ok(MemDisk {
            alloc,
            initial,
            calls: Vec::new(alloc),
            bytes,
            failures: 0,
        })
    }

    /// The bytes that a read gives.
    pub fn bytes(&self) -> &[u8]
        ensures { result.now ≡ self.now.bytes.items }
    {
        &self.bytes
    }

    /// The calls that the disk has served since it was made, the first first.
    pub fn calls(&self) -> &[Call]
        ensures { result.now ≡ self.now.calls.items }
    {
        &self.calls
    }

    /// The disk after a stop at this moment, started afresh. Each byte that was written since the last sync
    /// that succeeded is the one that sync made durable, the one written last, or a given byte; each other
    /// byte is as it was. The image is one that a stop now may leave. It takes no memory, and copies the
    /// device's bytes once.
    pub fn crash(self, torn: Torn) -> MemDisk
        ensures bytes { IsCrashImage torn self.initial.items self.calls.items result.bytes.items }
        ensures stop { LeftAfter self.initial.items self.calls.items result.bytes.items }
        ensures initial { result.initial.items ≡ result.bytes.items }
        ensures calls { result.calls.items ≡ [] }
        ensures failures { result.failures ≡ 0 }
        ensures durable { Only result.bytes.items (LeftAfter result.initial.items result.calls.items) }
    {
        let MemDisk {
            alloc,
            initial: mut image,
            calls,
            bytes: mut reads,
            failures: _,
        } = self;
        stop(&calls, torn, &mut image);
        reads.copy_from_slice(&image);
        MemDisk {
            alloc,
            initial: image,
            calls: Vec::new(alloc),
            bytes: reads,
            failures: 0,
        }
    }
}

impl Disk for MemDisk {
    ghost model = { record {
      honest = λ _. Unit {0};
      reads = λ d. d.bytes.items;
      may_leave = λ d. LeftAfter d.initial.items d.calls.items;
      moment = λ d. length d.calls.items;
      left_since = λ d. LeftBetween d.initial.items d.calls.items;
      size = λ d. length d.bytes.items;
      failed = λ d. d.failures;
      goes_on = λ d e. CallsGoOn d.initial.items d.calls.items e.initial.items e.calls.items;
      stays = λ d. calls_stay d.initial.items d.calls.items;
      goes_further = λ d e f. calls_go_further d.initial.items d.calls.items e.initial.items e.calls.items
          f.initial.items f.calls.items;
    } };

    ghost reads_may_be_left = { λ d h. reads_left d.initial.items d.calls.items d.bytes.items d.stands d.fit };

    ghost counts_now = { λ d t c h le left. now_left d.initial.items d.calls.items t c le left };

    ghost only_now = { λ d c h left. only_last d.initial.items d.calls.items c left };

    ghost since_earlier = { λ d t u c h le left. earlier_left d.initial.items d.calls.items t u c le left };

    ghost same_size = { λ d t c h by. left_length d.initial.items d.calls.items d.bytes.items t c d.stands d.fit by };

    fn len(&self) -> usize {
        self.bytes.len()
    }

    fn failures(&self) -> u64 {
        self.failures
    }

    fn read_at(&mut self, at: usize, buf: &mut [u8]) -> Result<(), DiskFault>
        requires { at + length buf.old ≤ length self.old.bytes.items }
        ensures count { Counts self.old.failures self.new.failures result }
        ensures recorded { OnOk result (self.new.calls.items ≡ self.old.calls.items ++ Read at (length buf.old) ∷ []) }
        ensures unrecorded { OnErr result (self.new.calls.items ≡ self.old.calls.items) }
        ensures initial { self.new.initial.items ≡ self.old.initial.items }
        ensures goes_on { CallsGoOn self.old.initial.items self.old.calls.items self.new.initial.items
            self.new.calls.items }
        ensures kept { self.new.bytes.items ≡ self.old.bytes.items }
        ensures bytes { OnOk result (buf.new ≡ take (length buf.old) (drop at self.old.bytes.items)) }
        ensures untouched { OnErr result (buf.new ≡ buf.old) }
        ensures stop { Within (LeftBetween self.new.initial.items self.new.calls.items (length self.old.calls.items))
            (LeftAfter self.old.initial.items self.old.calls.items) }
        ensures time { Elapses (length self.old.calls.items) (length self.new.calls.items)
            (LeftBetween self.old.initial.items self.old.calls.items)
            (LeftBetween self.new.initial.items self.new.calls.items) }
    {
        match record(&mut self.calls, Call::Read(at, buf.len())) {
            Ok(()) => {
                let end = at + buf.len();
                buf.copy_from_slice(&self.bytes[at..end]);
                Ok(())
            }
            Err(_) => fail(&mut self.failures),
        }
    }

    fn write_at(&mut self, at: usize, bytes: &[u8]) -> Result<(), DiskFault>
        requires { at + length bytes.now ≤ length self.old.bytes.items }
        ensures size { length self.new.bytes.items ≡ length self.old.bytes.items }
        ensures count { Counts self.old.failures self.new.failures result }
        ensures recorded { OnOk result (self.new.calls.items ≡ self.old.calls.items ++ Write at bytes.now ∷ []) }
        ensures unrecorded { OnErr result (self.new.calls.items ≡ self.old.calls.items) }
        ensures initial { self.new.initial.items ≡ self.old.initial.items }
        ensures goes_on { CallsGoOn self.old.initial.items self.old.calls.items self.new.initial.items
            self.new.calls.items }
        ensures written { OnOk result (self.new.bytes.items ≡ with_bytes self.old.bytes.items at bytes.now) }
        ensures unwritten { OnErr result (self.new.bytes.items ≡ self.old.bytes.items) }
        ensures stop { Follows (TornWithin at (length bytes.now))
            (LeftAfter self.old.initial.items self.old.calls.items)
            (LeftBetween self.new.initial.items self.new.calls.items (length self.old.calls.items)) }
        ensures time { Elapses (length self.old.calls.items) (length self.new.calls.items)
            (LeftBetween self.old.initial.items self.old.calls.items)
            (LeftBetween self.new.initial.items self.new.calls.items) }
    {
        match record_write(self.alloc, &mut self.calls, at, bytes) {
            Ok(()) => {
                overwrite(&mut self.bytes, at, bytes);
                Ok(())
            }
            Err(_) => fail(&mut self.failures),
        }
    }

    fn sync(&mut self) -> Result<(), DiskFault>
        ensures count { Counts self.old.failures self.new.failures result }
        ensures recorded { OnOk result (self.new.calls.items ≡ self.old.calls.items ++ Sync ∷ []) }
        ensures unrecorded { OnErr result (self.new.calls.items ≡ self.old.calls.items) }
        ensures initial { self.new.initial.items ≡ self.old.initial.items }
        ensures goes_on { CallsGoOn self.old.initial.items self.old.calls.items self.new.initial.items
            self.new.calls.items }
        ensures kept { self.new.bytes.items ≡ self.old.bytes.items }
        ensures durable { OnOk result
            (Only self.old.bytes.items (LeftAfter self.new.initial.items self.new.calls.items)) }
        ensures stop { Within (LeftBetween self.new.initial.items self.new.calls.items (length self.old.calls.items))
            (LeftAfter self.old.initial.items self.old.calls.items) }
        ensures time { Elapses (length self.old.calls.items) (length self.new.calls.items)
            (LeftBetween self.old.initial.items self.old.calls.items)
            (LeftBetween self.new.initial.items self.new.calls.items) }
    {
        match record(&mut self.calls, Call::Sync) {
            Ok(()) => Ok(()),
            Err(_) => fail(&mut self.failures),
        }
    }
}
