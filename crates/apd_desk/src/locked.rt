//! What lies under the lock.
ghost use Rattle.std.specs.Prelude.{◌≡◌, ◌≢◌, ◌⊎◌, ◌+◌, ◌≤◌, ◌<◌, ◌↔◌, ℕ, List, length, vec_len, IfOk, IfErr, IfSome, OnOk, OnErr, IsNone, IsOk, IsTrue, IfNone, Some, None, [], true};
ghost use Rattle.std.specs.List.{position};
ghost use Rattle.std.specs.Option.{option_copied, option_map};
ghost use Rattle.apd_base.specs.declared.address.Bssid.{Bssid as Address};
ghost use Rattle.apd_conf.specs.Confs.{conf_meant};
ghost use Rattle.apd_core.specs.Core.{answer_at, after_request, answer_to_query, cannot_take, after_handing_out, last_of, after_publish, ready_for, IsFlight, IsTaken};
ghost use Rattle.apd_core.specs.Invariant.{IsCore};
ghost use Rattle.apd_journal.specs.Half.{IsGroup};
ghost use Rattle.apd_store.specs.Outside.{held_batch};
ghost use Rattle.apd_slot.specs.Slots.{bssid_of};
ghost use Rattle.apd_steps.specs.Handing.{HandsTo};
ghost use Rattle.apd_steps.specs.Calls.{AskTells, CollectTells, SubmitTells, exactly, outs_in};
ghost use Rattle.apd_desk.specs.Counted.{entries_in, entries_of_seats};
ghost use Rattle.apd_desk.specs.RadioNotes.{is_for, is_noted_up, is_up_at};
ghost use Rattle.apd_desk.specs.TicketOwner.{IsOwn};
ghost use Rattle.apd_desk.specs.SeatProgress.{seen_number_after, IsBehind, IsLater};

use crate::notes::Notes;
use crate::seat::{AskFault, SEATS, Seat};
use apd_base::{Bssid, Moment};
use apd_core::{Accepted, Answer, Core, Input, PublishFault};
use apd_ctrl::Query;
use apd_journal::Batch;
use apd_mlme::{Out, Recipient};
use apd_radio::Radio;
use apd_slot::Slot;
use apd_steps::{Asks, Settles};
use apd_store::Receipt;
use std::alloc::AllocError;
use std::sync::ledger::{Blank, Book, Ledger, Share};

/// What a worker sees at a look: whether it is to stop, how many entries were accepted, and the number of
/// the last settled one. Under the lock all three are of one moment. Without it they are what was posted last, of which
/// each was read for itself.
#[derive(Clone, Copy, Debug, PartialEq, Eq)]
pub(crate) struct Look {
    pub(crate) stopped: bool,
    pub(crate) accepted: u64,
    pub(crate) settled: u64,
}

/// A core, the entries that it accepted since it was shared, by the seats' counts, and what is noted beside it.
#[derive(Drop)]
pub(crate) struct Locked<L: Ledger> {
    core: Core,
    accepted: u64,
    book: Book<L>,
    // The seats that are not given, a part of the ledger each.
    spare: Share<L>,
    given: u32,
    stopped: bool,
    notes: Notes,
    ghost counted: { accepted ≡ book.total },
    ghost within: { accepted ≤ core.number + length core.unsettled },
    ghost parts: { spare.parts + given ≡ 65536 },
    ghost unspent: { spare.amount ≡ 0 },
}

impl<L: Ledger> Locked<L> {
    /// A core of which no seat is given.
    pub(crate) fn new(core: Core, blank: Blank) -> Locked<L>
        requires name { blank.name ≡ L.name }
        requires parts { blank.parts ≡ L.parts }
        requires all { blank.parts ≡ SEATS }
        ensures core { result.core ≡ core }
        ensures accepted { result.accepted ≡ 0 }
        ensures given { result.given ≡ 0 }
    {
        let (book, spare) = blank.open::<L>();
        Locked {
            core,
            accepted: 0,
            book,
            spare,
            given: 0,
            stopped: false,
            notes: Notes::new(),
        }
    }

    /// A seat that was not given yet; none exactly where all were given.
    pub(crate) fn give_seat(&mut self) -> Option<Seat<L>>
        ensures none { IsNone result ↔ (self.old.given ≡ SEATS) }
        ensures new { IfSome result (λ seat. (seat.count ≡ 0) × (seat.seen ≡ 0)) }
        ensures given { IfSome result (λ seat. self.new.given ≡ self.old.given + 1) }
        ensures stays { IfNone result (self.new ≡ self.old) }
        ensures core { self.new.core ≡ self.old.core }
        ensures accepted { self.new.accepted ≡ self.old.accepted }
    {
        if self.given >= SEATS {
            return None;
        }
        let Locked { spare, given, .. } = self;
        let share = spare.split_off(1, 0);
        *given += 1;
        Some(Seat {
            count: 0,
            seen: 0,
            share,
        })
    }

    /// Accepts a request for a seat, and counts it exactly where it is an entry.
    pub(crate) fn submit<'a>(
        &mut self,
        seat: &mut Seat<L>,
        input: Input<'a>,
        moment: Moment,
    ) -> Result<Accepted<'a>, AllocError>
        ensures tells { exactly (SubmitTells input.entry moment result) self.old.core self.new.core }
        ensures answer { IfOk result (λ answer. answer ≡ answer_at self.old.core moment input.entry) }
        ensures core { OnOk result (self.new.core ≡ after_request self.old.core moment input.entry) }
        ensures own { IfOk result (IsOwn input.entry moment) }
        ensures count { IfOk result (λ answer. seat.new.count ≡ seat.old.count + entries_in answer) }
        ensures accepted { IfOk result (λ answer. self.new.accepted ≡ self.old.accepted + entries_in answer) }
        ensures seen { seat.new.seen ≡ seat.old.seen }
        ensures given { self.new.given ≡ self.old.given }
        ensures err { OnErr result ((self.new.core ≡ self.old.core) × (self.new.accepted ≡ self.old.accepted)
            × (seat.new.count ≡ seat.old.count)) }
    {
        let Locked {
            core,
            accepted,
            book,
            ..
        } = self;
        let Seat { count, share, .. } = seat;
        book.audit(share);
        let answer = core.submit(input, moment)?;
        core.sound();
        let entries = entry_count(&answer);
        book.add(share, entries);
        *accepted += entries;
        *count += entries;
        Ok(answer)
    }

    /// Answers a query, unless the seat saw a later entry settled than is. The seat then saw what is settled.
    ///
    /// Errors: `Behind` exactly there, with the number of the last settled entry; `NoMemory`. The seat is then as
    /// it was.
    pub(crate) fn ask(&self, seat: &mut Seat<L>, query: Query) -> Result<Answer, AskFault>
        ensures tells { exactly (AskTells query result) self.now.core self.now.core }
        ensures answer { IfOk result (λ answer. answer ≡ answer_to_query self.now.core query) }
        ensures behind { (number : ℕ)
            → (result ≡ Err (AskFault.Behind number))
            ↔ ((number ≡ self.now.core.number) × IsBehind self.now.core.number seat.old.seen) }
        ensures seen { OnOk result (seat.new.seen ≡ self.now.core.number) }
        ensures never_back { OnOk result (seat.old.seen ≤ seat.new.seen) }
        ensures count { seat.new.count ≡ seat.old.count }
        ensures err { OnErr result (seat.new.seen ≡ seat.old.seen) }
    {
        self.core.sound();
        let settled = self.core.number();
        if settled < seat.seen {
            return Err(AskFault::Behind(settled));
        }
        let Ok(answer) = self.core.read(query) else {
            return Err(AskFault::NoMemory);
        };
        seat.seen = settled;
        Ok(answer)
    }

    /// Hands out what of settled entries a recipient was not given yet. The seat then saw what is settled.
    pub(crate) fn hand(&mut self, seat: &mut Seat<L>, to: Recipient) -> Result<Vec<Out>, AllocError>
        ensures tells { exactly (CollectTells to (outs_in (λ outs. outs.items) result)) self.old.core self.new.core }
        ensures outs { IfOk result (λ outs. outs.items ≡ ready_for to self.old.core) }
        ensures sound { IsCore self.old.core }
        ensures core { OnOk result (self.new.core ≡ after_handing_out to self.old.core) }
        ensures later { IsLater seat.old seat.new }
        ensures seen { OnOk result (seat.new.seen ≡ seen_number_after self.old.core.number seat.old.seen) }
        ensures count { seat.new.count ≡ seat.old.count }
        ensures accepted { self.new.accepted ≡ self.old.accepted }
        ensures given { self.new.given ≡ self.old.given }
        ensures err { OnErr result ((self.new.core ≡ self.old.core) × (seat.new.seen ≡ seat.old.seen)) }
    {
        let Locked { core, .. } = self;
        core.sound();
        let settled = core.number();
        let outs = core.collect(to)?;
        seat.seen = seat.seen.max(settled);
        Ok(outs)
    }

    /// Hands what of settled entries the radio of a slot was not given yet to the slot, behind what waits there. The
    /// seat then saw what is settled.
    pub(crate) fn hand_to<R: Radio>(
        &mut self,
        seat: &mut Seat<L>,
        slot: &mut Slot<R>,
    ) -> Result<usize, AllocError>
        ensures hands { exactly (λ old new. HandsTo (bssid_of slot.old) result old new slot.old slot.new)
            self.old.core self.new.core }
        ensures later { IsLater seat.old seat.new }
        ensures seen { OnOk result (seat.new.seen ≡ seen_number_after self.old.core.number seat.old.seen) }
        ensures count { seat.new.count ≡ seat.old.count }
        ensures accepted { self.new.accepted ≡ self.old.accepted }
        ensures given { self.new.given ≡ self.old.given }
        ensures err { OnErr result (seat.new.seen ≡ seat.old.seen) }
    {
        let Locked { core, .. } = self;
        let settled = core.number();
        match core.hand_to(slot) {
            Ok(count) => {
                seat.seen = seat.seen.max(settled);
                Ok(count)
            }
            Err(short) => Err(short),
        }
    }

    /// Whether settled entries have outs that a recipient was not given yet.
    pub(crate) fn is_ready(&self, to: Recipient) -> bool
        ensures { IsTrue result ↔ (1 ≤ length (ready_for to self.now.core)) }
    {
        self.core.ready_count(to) > 0
    }

    /// What a worker sees now.
    pub(crate) fn look(&self) -> Look
        ensures { result ≡ record {
          stopped = self.now.stopped;
          accepted = self.now.accepted;
          settled = self.now.core.number;
        } }
    {
        Look {
            stopped: self.stopped,
            accepted: self.accepted,
            settled: self.core.number(),
        }
    }

    /// Tells the workers to stop.
    pub(crate) fn stop(&mut self)
        ensures stopped { self.new.stopped ≡ true }
        ensures core { self.new.core ≡ self.old.core }
        ensures accepted { self.new.accepted ≡ self.old.accepted }
        ensures given { self.new.given ≡ self.old.given }
    {
        self.stopped = true;
    }

    /// Notes whether a radio is up; nothing where eight others are noted.
    pub(crate) fn note(&mut self, bssid: Bssid, up: bool)
        ensures own { (is_noted_up self.new.notes.noted bssid ≡ up)
            ⊎ (position (is_for bssid) self.old.notes.noted ≡ None) }
        ensures others { (other : Address) → other ≢ bssid
            → is_noted_up self.new.notes.noted other ≡ is_noted_up self.old.notes.noted other }
        ensures core { self.new.core ≡ self.old.core }
        ensures accepted { self.new.accepted ≡ self.old.accepted }
        ensures given { self.new.given ≡ self.old.given }
    {
        self.notes.note(bssid, up);
    }

    /// Whether a radio is up, as it was noted.
    pub(crate) fn is_noted_up(&self, bssid: Bssid) -> bool
        ensures { result ≡ is_noted_up self.now.notes.noted bssid }
    {
        self.notes.is_up(bssid)
    }

    // Whether an interface is up, as commands are told: its radio is, as it was noted, and the core has not failed. It
    // fails with the device, and where the store refuses a batch, as one that is worn out does.
    fn is_up(&self, bssid: Bssid) -> bool
        ensures { result ≡ is_up_at self.now.core.failed self.now.notes.noted bssid }
    {
        if self.core.has_failed() {
            false
        } else {
            self.notes.is_up(bssid)
        }
    }

    /// The interface of a name, and where none is named the first one: its BSSID, and whether it is up.
    pub(crate) fn interface(&self, name: Option<&[u8]>) -> Option<(Bssid, bool)>
        ensures { result ≡ option_map (λ conf. (conf.bssid, is_up_at self.now.core.failed self.now.notes.noted conf.bssid))
            (conf_meant self.now.core.confs (option_copied name.entry)) }
    {
        let bssid = self.core.confs().for_command(name)?.bssid;
        Some((bssid, self.is_up(bssid)))
    }

    /// The core, and the entries that it accepted since it was shared, which are those that the seats count. It is
    /// refused exactly where a seat is missing, and hands all back.
    pub(crate) fn close(self, seats: Vec<Seat<L>>) -> Result<(Core, u64), (Locked<L>, Vec<Seat<L>>)>
        requires { L.parts ≡ SEATS }
        ensures counted { IfOk result (λ closed. closed.1 ≡ entries_of_seats seats.items) }
        ensures accepted { IfOk result (λ closed. closed.1 ≡ self.accepted) }
        ensures core { IfOk result (λ closed. closed.0 ≡ self.core) }
        ensures all { IsOk result ↔ (vec_len seats ≡ self.given) }
        ensures back { IfErr result (λ back. (back.0 ≡ self) × (back.1 ≡ seats)) }
    {
        if seats.len() != self.given as usize {
            return Err((self, seats));
        }
        let Locked {
            core,
            accepted,
            book,
            spare,
            ..
        } = self;
        let mut book = book;
        let mut all = merge_shares(spare, seats);
        book.audit(&mut all);
        Ok((core, accepted))
    }
}

// Of the core all is known, and what was counted stays.
impl<L: Ledger> Settles for Locked<L> {
    ghost made = { λ call old new. exactly call old.core new.core
        × (new.accepted ≡ old.accepted) × (new.given ≡ old.given) };

    fn take(&mut self) -> Result<Option<Batch>, AllocError> {
        let Locked { core, .. } = self;
        Settles::take(core)
    }

    fn publish(&mut self, receipt: Receipt) -> Result<(), (Receipt, PublishFault)> {
        let Locked { core, .. } = self;
        core.sound();
        Settles::publish(core, receipt)
    }

    fn fail(&mut self) {
        let Locked { core, .. } = self;
        Settles::fail(core);
    }
}

// How many entries an answer made.
fn entry_count(answer: &Accepted<'_>) -> u64
    ensures { result ≡ entries_in answer.now }
{
    match answer {
        Accepted::Entry(_) => 1,
        Accepted::Stopped | Accepted::Busy | Accepted::Quiet(_) => 0,
    }
}

// All parts of these in one share.
fn merge_shares<L: Ledger>(spare: Share<L>, seats: Vec<Seat<L>>) -> Share<L>
    ensures parts { result.parts ≡ spare.parts + vec_len seats }
    ensures amount { result.amount ≡ spare.amount + entries_of_seats seats.items }
{
    let mut all = spare;
    for seat in seats {
        let Seat { share, .. } = seat;
        all.merge(share);
    }
    all
}
