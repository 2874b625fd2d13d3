//! Requests become entries, and what leaves because of an entry is held until it is settled.
ghost use Rattle.std.specs.Prelude.{◌≡◌, ◌≤◌, ◌<◌, ◌+◌, ◌-◌, ◌^◌, ◌↔◌, ◌⊎◌, ◌==◌, ℕ, List, [], ◌∷◌, true, false, length, drop, take, Ok, IfOk, IfErr, IfSome, IfNone, OnOk, OnErr, IsNone, IsTrue, IsOk, IsErrOf};
ghost use Rattle.apd_base.specs.declared.limits.TheConstants.{MAX_GROUP};
ghost use Rattle.apd_record.specs.Meaning.{meaning_of};
ghost use Rattle.apd_record.specs.Record.{records_of};
ghost use Rattle.apd_table.specs.Sound.{Sound, StaySound};
ghost use Rattle.apd_event.specs.Happening.{happening};
ghost use Rattle.apd_mlme.specs.rules.{verdict, IsFit};
ghost use Rattle.apd_mlme.specs.laws.Outs.{RecipientsAreThere};
ghost use Rattle.apd_mlme.specs.Verdict.{is_nothing};
ghost use Rattle.std.specs.List.{AllByRecursion};
ghost use Rattle.std.specs.FinMap as map;
ghost use Rattle.std.specs.Option.{option_map};
ghost use Rattle.apd_base.specs.State.{State};
ghost use Rattle.apd_mlme.specs.declared.decision.TheConstants.{MAX_RECORD_BYTES};
ghost use Rattle.apd_mlme.specs.Run.{AreFit};
ghost use Rattle.apd_core.specs.Requests.{event_happening, happening_of, HasLists};
ghost use Rattle.apd_core.specs.Core.{after_all_settled, IsLongestFront};
ghost use Rattle.apd_core.specs.for_proofs.Core.{entries_of, IsMeasured};
ghost use Rattle.apd_core.specs.Heard.{AreHeardAt};
ghost use Rattle.apd_core.specs.Held.{no_outs};
ghost use Rattle.apd_journal.specs.Half.{IsGroup, changes_of};
ghost use Rattle.apd_store.specs.Outside.{held_batch};

use crate::entry::Entry;
use crate::held::Held;
use crate::input::{Input, QuietReason, event_said, expiry, unfitness};
use crate::last_heard::LastHeard;
use crate::publish_fault::PublishFault;
use crate::query_answer::Answer;
use crate::ticket::{Accepted, Ticket};
use apd_base::limits::{MAX_GROUP, MAX_KEPT};
use apd_base::{Moment, Sequence};
use apd_conf::{Conf, Confs};
use apd_ctrl::{Query, reply};
use apd_event::Event;
use apd_journal::Batch;
use apd_mlme::{Decision, Out, Recipient, decide};
use apd_record::{Change, total_length};
use apd_store::Receipt;
use apd_table::{Staged, Table, TableFault};
use std::alloc::{AllocError, Global};
use std::collections::VecDeque;
use std::marker::Model;

/// The core of an access point: requests are accepted as entries, which are numbered from 1, given away in
/// batches, and settled by the receipts for these; what leaves because of an entry is handed out once it
/// is settled.
#[derive(Drop)]
pub struct Core {
    alloc: Global,
    confs: Confs,
    // The table after the settled entries, and the number of the last of them.
    settled: Staged,
    number: u64,
    // The table after all entries, and the number of the last of them.
    front: Table,
    last: u64,
    // The entries that are not settled; how many of them the batch in flight has, and its changes.
    unsettled: VecDeque<Entry>,
    flight: usize,
    batch: Sequence<Change>,
    held: Held,
    heard: LastHeard,
    failed: bool,
}

impl Model for Core {
    ghost use Rattle.std.specs.Coded.{codes};
    ghost use Rattle.apd_base.specs.for_proofs.Codes.{coded_state};
    ghost use Rattle.apd_conf.specs.for_proofs.Codes.{coded_confs};
    ghost use Rattle.apd_core.specs.Core.{CoreState};
    ghost use Rattle.apd_core.specs.for_proofs.CoreCodes.{coded_last_heard};
    ghost use Rattle.apd_core.specs.for_proofs.Core.{core_of, IsKept};
    ghost use Rattle.apd_core.specs.for_proofs.HeldCodes.{coded_held};

    ghost Value = { CoreState };

    ghost coded = { Prim.hlevel (codes, coded_state, coded_confs, coded_held, coded_last_heard) };

    ghost view = { core_of };

    ghost invariant = { IsKept };
}

// The table after all entries, the moments and what is held, of a core with no entry.
fn parts_of(
    alloc: Global,
    table: &Table,
    confs: &[Conf],
    moment: Moment,
) -> Result<(Table, LastHeard, Held), AllocError>
    ensures front { IfOk result (λ parts. parts.0 ≡ table.now) }
    ensures heard { IfOk result (λ parts. AreHeardAt moment table.now parts.1) }
    ensures held { IfOk result (λ parts. parts.2 ≡ no_outs confs.now) }
{
    let front = table.copy(alloc)?;
    let heard = match LastHeard::of_rows(alloc, table, moment) {
        Ok(heard) => heard,
        Err(error) => {
            drop(front);
            return Err(error);
        }
    };
    match Held::new(alloc, confs) {
        Ok(held) => Ok((front, heard, held)),
        Err(error) => {
            drop(front);
            drop(heard);
            Err(error)
        }
    }
}

impl Core {
    ghost use Rattle.apd_core.specs.Core.{answer_at, after_request, new_core, answer_to, answer_happenings, entered_state, front_of, is_busy, is_stopped, last_of, with_entry, IsDecided};
    ghost use Rattle.apd_core.specs.Invariant.{IsCore};
    ghost use Rattle.apd_core.specs.Requests.{unfitness};

    /// A core of a table and of configurations, with no entry: every station with a row was heard at this
    /// moment. It copies the table.
    pub fn new(
        alloc: Global,
        table: Table,
        confs: Confs,
        moment: Moment,
    ) -> Result<Core, AllocError>
        ensures core { IfOk result (λ core. core ≡ new_core table confs core.heard) }
        ensures heard { IfOk result (λ core. AreHeardAt moment table core.heard) }
    {
        table.sound();
        let (front, heard, held) = match parts_of(alloc, &table, confs.list(), moment) {
            Ok(parts) => parts,
            Err(error) => {
                drop(table);
                drop(confs);
                return Err(error);
            }
        };
        let settled = match Staged::new(alloc, table) {
            Ok(settled) => settled,
            Err((table, error)) => {
                drop(table);
                drop(confs);
                drop(front);
                drop(heard);
                drop(held);
                return Err(error);
            }
        };
        Ok(Core {
            alloc,
            confs,
            settled,
            number: 0,
            front,
            last: 0,
            unsettled: VecDeque::new(alloc),
            flight: 0,
            batch: Sequence::new(alloc),
            held,
            heard,
            failed: false,
        })
    }

    /// Whether no request is accepted any more.
    fn is_stopped(&self) -> bool
        ensures value { result ≡ is_stopped self.now }
        ensures room { IsTrue result ⊎ (last_of self.now + 1 < 2 ^ 64) }
    {
        self.failed || self.last == u64::MAX
    }

    /// Whether as many entries are kept as may be.
    fn is_busy(&self) -> bool
        ensures { result ≡ is_busy self.now }
    {
        self.held.len() >= MAX_KEPT
    }

    /// The table after all entries.
    fn front(&self) -> &Table
        ensures { result.now ≡ front_of self.now }
    {
        &self.front
    }

    /// The number of the last entry.
    fn last(&self) -> u64
        ensures { result ≡ last_of self.now }
    {
        self.last
    }

    /// The event of a request at a moment, or why it is no entry.
    fn event_of<'a>(&self, input: Input<'a>, moment: Moment) -> Result<Event<'a>, QuietReason>
        ensures happening { event_happening result ≡ happening_of self.now.confs self.now.heard moment input.entry }
        ensures lists { IfOk result (λ event. HasLists (happening event)) }
    {
        match event_said(input) {
            Some(said) => said,
            None => expiry(self.heard.due_row(&self.confs, moment)),
        }
    }

    /// Tells a caller's proof what every core is. It does nothing.
    pub fn sound(&self)
        ensures { IsCore self.now }
    {
        let _ = &self.failed;
    }

    /// Accepts a request at a moment: the first answer that holds. Only an entry changes anything but when
    /// stations were heard. Where memory is refused all is as it was; it takes memory only for an entry.
    pub fn accept<'a>(
        &mut self,
        input: Input<'a>,
        moment: Moment,
    ) -> Result<Accepted<'a>, AllocError>
        ensures answer { IfOk result (λ answer. answer ≡ answer_at self.old moment input.entry) }
        ensures ok { OnOk result (self.new ≡ after_request self.old moment input.entry) }
        ensures fit { IfOk result
            (λ answer. AreFit (front_of self.old) self.old.confs
            (answer_happenings answer (happening_of self.old.confs self.old.heard moment input.entry))) }
        ensures err { OnErr result (self.new ≡ self.old) }
        ensures lacks { OnErr result (IsDecided self.old moment input.entry) }
    {
        if self.is_stopped() {
            return Ok(Accepted::Stopped);
        }
        if self.is_busy() {
            return Ok(Accepted::Busy);
        }
        let event = match self.event_of(input, moment) {
            Ok(event) => event,
            Err(reason) => return Ok(Accepted::Quiet(reason)),
        };
        let answer = self.accept_event(input, event, moment)?;
        self.heard.hear_sender(event, moment);
        Ok(answer)
    }

    /// Decides an event, and makes an entry of the decision.
    fn accept_event<'a>(
        &mut self,
        input: Input<'a>,
        event: Event<'_>,
        moment: Moment,
    ) -> Result<Accepted<'a>, AllocError>
        requires lists { HasLists (happening event) }
        requires room { last_of self.old + 1 < 2 ^ 64 }
        requires free { is_busy self.old ≡ false }
        ensures answer { IfOk result
            (λ answer. answer ≡ answer_to self.old moment input.entry (Ok (happening event.entry))) }
        ensures ok { IfOk result (λ answer. self.new ≡ entered_state answer self.old moment (happening event.entry)) }
        ensures fit { IfOk result
            (λ answer. AreFit (front_of self.old) self.old.confs
            (answer_happenings answer (Ok (happening event.entry)))) }
        ensures err { OnErr result (self.new ≡ self.old) }
        ensures lacks { OnErr result (unfitness (front_of self.old) self.old.confs (happening event.entry) ≡ None) }
        ensures something { OnErr result
            (is_nothing (verdict (front_of self.old) self.old.confs (happening event.entry)) ≡ false) }
    {
        match unfitness(self.front(), &self.confs, event) {
            Some(reason) => return Ok(Accepted::Quiet(reason)),
            None => {}
        }
        let decision = decide(self.alloc, self.front(), &self.confs, event)?;
        if decision.is_nothing() {
            return Ok(Accepted::Quiet(QuietReason::Nothing));
        }
        self.enter(event, decision, moment)?;
        Ok(Accepted::Entry(Ticket::new(self.last(), input, moment)))
    }

    /// Makes an entry of the decision on an event, which is fit. All that wants memory for the entry, the outs and the
    /// moments of new rows is laid down before the table changes, and taken back where memory is refused.
    fn enter(
        &mut self,
        event: Event<'_>,
        decision: Decision,
        moment: Moment,
    ) -> Result<(), AllocError>
        requires fit { IsFit (front_of self.old) self.old.confs (happening event) }
        requires changes { decision.changes ≡ (verdict (front_of self.old) self.old.confs (happening event)).changes }
        requires outs { decision.outs ≡ (verdict (front_of self.old) self.old.confs (happening event)).outs }
        requires sound { StaySound decision.changes (front_of self.old) }
        requires records { length (records_of decision.changes) ≤ MAX_RECORD_BYTES }
        requires room { last_of self.old + 1 < 2 ^ 64 }
        requires free { is_busy self.old ≡ false }
        ensures ok { OnOk result (self.new ≡ with_entry self.old moment (happening event.entry)) }
        ensures err { OnErr result (self.new ≡ self.old) }
    {
        let Decision { changes, outs } = decision;
        let list = changes.as_slice();
        let length = total_length(list);
        let number = self.last + 1;
        self.unsettled.reserve(1)?;
        self.held.keep(&self.confs, number, outs)?;
        let Ok(()) = self.heard.make_room(list, moment, &self.front) else {
            self.held.take_back(number);
            return Err(AllocError);
        };
        match self.front.apply_all(self.alloc, list) {
            Ok(()) => {}
            // The changes of a decision leave the table sound.
            Err(TableFault::Invalid) => unreachable!(),
            Err(TableFault::NoMemory) => {
                self.heard.give_back(list, &self.front);
                self.held.take_back(number);
                return Err(AllocError);
            }
        }
        self.heard.hear_changes(list, moment, &self.front);
        let Ok(()) = self.unsettled.push_back(Entry { changes, length }) else {
            unreachable!();
        };
        self.last = number;
        Ok(())
    }
}

// Settles so many entries from the front, whose numbers follow this one.
fn settle_front(unsettled: &mut VecDeque<Entry>, held: &mut Held, number: u64, count: usize)
    requires numbers { number + count < 2 ^ 64 }
    requires there { count ≤ length unsettled.old.items }
    ensures unsettled { unsettled.new.items ≡ drop count unsettled.old.items }
    ensures held { held.new ≡ after_all_settled number count held.old }
{
    for place in 0..count {
        unsettled.pop_front();
        held.settle(number + 1 + place as u64);
    }
}

// As many of the entries, from the front, as one group has room for, and their changes.
fn longest_front(
    alloc: Global,
    entries: &VecDeque<Entry>,
) -> Result<(usize, Vec<Change>), AllocError>
    requires { AllByRecursion IsMeasured entries.now.items }
    ensures longest { IfOk result (λ front. IsLongestFront (entries_of entries.now.items) front.0) }
    ensures changes { IfOk result (λ front. front.1.items ≡ changes_of (take front.0 (entries_of entries.now.items))) }
    ensures some { IfOk result (λ front. 1 ≤ length entries.now.items → 1 ≤ front.0) }
    ensures group { IfOk result (λ front. IsGroup front.1.items) }
{
    let mut changes = Vec::new(alloc);
    let mut room = MAX_GROUP;
    for (count, entry) in entries.iter().enumerate() {
        if entry.length > room {
            return Ok((count, changes));
        }
        changes.extend_from_slice(entry.changes.as_slice())?;
        room -= entry.length;
    }
    Ok((entries.len(), changes))
}

impl Core {
    ghost use Rattle.apd_core.specs.Core.{answer_to_query, cannot_take, after_handing_out, after_publish, ready_for, IsFlight, IsTaken};

    /// Gives away the longest front of the entries that are not settled whose records fit one group; none
    /// exactly where a batch is in flight, every entry is settled, or the core has failed. Then it takes no
    /// memory.
    pub fn take(&mut self) -> Result<Option<Batch>, AllocError>
        ensures none { IfOk result (λ batch. IsNone batch ↔ IsTrue (cannot_take self.old)) }
        ensures stays { IfOk result (λ batch. IfNone batch (self.new ≡ self.old)) }
        ensures taken { IfOk result (λ batch. IfSome batch (λ batch. IsTaken batch self.old self.new)) }
        ensures group { IfOk result (λ batch. IfSome batch (λ batch. IsGroup batch.changes)) }
        ensures sound { IfOk result (λ batch. IfSome batch (λ batch. StaySound batch.changes self.old.settled)) }
        ensures err { OnErr result (self.new ≡ self.old) }
        ensures lacks { OnErr result (¬ IsTrue (cannot_take self.old)) }
    {
        if self.failed || self.flight > 0 || self.unsettled.is_empty() {
            return Ok(None);
        }
        let (count, changes) = longest_front(self.alloc, &self.unsettled)?;
        let own = Vec::from_slice(self.alloc, changes.as_slice())?;
        self.flight = count;
        self.batch = Sequence::from_vec(own);
        Ok(Some(Batch {
            first: self.number + 1,
            last: self.number + count as u64,
            changes: Sequence::from_vec(changes),
        }))
    }

    /// Whether the batch is the one in flight, by its numbers and its changes.
    fn is_in_flight(&self, batch: &Batch) -> bool
        ensures { IsTrue result ↔ IsFlight batch.now self.now }
    {
        self.flight > 0
            && batch.first == self.number + 1
            && batch.last == self.number + self.flight as u64
            && batch.changes.as_slice() == self.batch.as_slice()
    }

    /// Settles the batch in flight, also once the core has failed. A refusal hands the receipt back, and
    /// changes nothing.
    ///
    /// Errors: `Foreign` exactly where the receipt's batch is not the one in flight, by numbers or changes;
    /// `NoMemory`, for the batch in flight alone.
    pub fn publish(&mut self, receipt: Receipt) -> Result<(), (Receipt, PublishFault)>
        ensures flight { OnOk result (IsFlight (held_batch receipt) self.old) }
        ensures ok { OnOk result (self.new ≡ after_publish self.old) }
        ensures foreign { IfErr result (λ e. (e.1 ≡ PublishFault.Foreign) ↔ ¬ IsFlight (held_batch receipt) self.old) }
        ensures err { IfErr result (λ e. (e.0 ≡ receipt) × (self.new ≡ self.old)) }
        ensures lacks { IfErr result (λ e. e.1 ≡ PublishFault.NoMemory → IsFlight (held_batch receipt) self.old) }
    {
        if !self.is_in_flight(receipt.batch()) {
            return Err((receipt, PublishFault::Foreign));
        }
        match self.settled.stage(self.alloc, self.batch.as_slice()) {
            Ok(()) => {}
            // The changes of entries, from the settled table on, leave it sound.
            Err(TableFault::Invalid) => unreachable!(),
            Err(TableFault::NoMemory) => return Err((receipt, PublishFault::NoMemory)),
        }
        let Core {
            settled,
            number,
            unsettled,
            flight,
            batch,
            held,
            alloc,
            ..
        } = self;
        settled.commit();
        settle_front(unsettled, held, *number, *flight);
        *number += *flight as u64;
        *flight = 0;
        *batch = Sequence::new(*alloc);
        Ok(())
    }

    /// How many outs `hand` gives a recipient now. It takes no memory.
    pub fn ready_count(&self, to: Recipient) -> usize
        ensures { result ≡ length (ready_for to self.now) }
    {
        self.held.ready_count(&self.confs, self.number, to)
    }

    /// Gives a recipient the outs of settled entries that it was not given yet, in the order of the entries.
    /// An entry that is settled and of which no out is held any more goes. Where nothing is ready it takes
    /// no memory.
    pub fn hand(&mut self, to: Recipient) -> Result<Vec<Out>, AllocError>
        ensures outs { IfOk result (λ outs. outs.items ≡ ready_for to self.old) }
        ensures ok { OnOk result (self.new ≡ after_handing_out to self.old) }
        ensures err { OnErr result (self.new ≡ self.old) }
        ensures lacks { OnErr result (1 ≤ length (ready_for to self.old)) }
    {
        self.sound();
        let Core {
            alloc,
            confs,
            number,
            held,
            ..
        } = self;
        held.hand(*alloc, confs, *number, to)
    }

    /// Answers a query from the table after all settled entries.
    pub fn read(&self, query: Query) -> Result<Answer, AllocError>
        ensures { IfOk result (λ answer. answer ≡ answer_to_query self.now query) }
    {
        let text = reply(self.alloc, self.settled.table(), &self.confs, query)?;
        Ok(Answer::new(query, Sequence::from_vec(text), self.number))
    }

    /// The table after all settled entries.
    pub fn table(&self) -> &Table
        ensures { result.now ≡ self.now.settled }
    {
        self.settled.table()
    }

    /// The configurations.
    pub fn confs(&self) -> &Confs
        ensures { result.now ≡ self.now.confs }
    {
        &self.confs
    }

    /// The number of the last settled entry.
    pub fn number(&self) -> u64
        ensures { result ≡ self.now.number }
    {
        self.number
    }

    /// Whether every entry is settled.
    pub fn is_settled(&self) -> bool
        ensures { result ≡ (length self.now.unsettled == 0) }
    {
        self.unsettled.is_empty()
    }

    /// Whether it has failed.
    pub fn has_failed(&self) -> bool
        ensures { result ≡ self.now.failed }
    {
        self.failed
    }

    /// From now on no request is accepted and no batch given away; what is in flight may still be settled.
    pub fn fail(&mut self)
        ensures { self.new ≡ record self.old { failed = true } }
    {
        self.failed = true;
    }
}
