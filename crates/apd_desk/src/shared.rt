//! A core that threads share.
ghost use Rattle.std.specs.Prelude.{◌≡◌, ◌+◌, ◌≤◌, ℕ, IfOk, IfErr, IfSome, OnErr};
ghost use Rattle.std.specs.Option.{option_copied};
ghost use Rattle.apd_slot.specs.Slots.{bssid_of};
ghost use Rattle.apd_steps.specs.Handing.{HandsTo};
ghost use Rattle.apd_steps.specs.Calls.{AskTells, CollectTells, SubmitTells, of_some_core, outs_in};
ghost use Rattle.apd_desk.specs.Asking.{by_seat};
ghost use Rattle.apd_desk.specs.Counted.{entries_in, entries_of_seats};
ghost use Rattle.apd_desk.specs.Finding.{IsFoundBySomeCore};
ghost use Rattle.apd_desk.specs.Replying.{AreReadyInSomeCore, IsAnswerOfSomeCore};
ghost use Rattle.apd_desk.specs.TicketOwner.{IsOwn};
ghost use Rattle.apd_desk.specs.SeatProgress.{IsBehind, IsLater};

use crate::board::Board;
use crate::locked::{Locked, Look};
use crate::news::{Conditions, News};
use crate::seat::{AskFault, SEATS, Seat};
use crate::waking::Bells;
use apd_base::{Bssid, Moment};
use apd_core::{Accepted, Answer, Core, Input, PublishFault};
use apd_ctrl::Query;
use apd_journal::Batch;
use apd_mlme::{Out, Recipient};
use apd_radio::Radio;
use apd_slot::Slot;
use apd_steps::Settles;
use apd_store::Receipt;
use mio::Waker;
use std::alloc::AllocError;
use std::sync::ledger::{Blank, Ledger};
use std::sync::{CondvarTimeouts, Mutex, Wait};
use std::time::{Clock, Duration};

/// The pause of a worker before it tries something again, in milliseconds.
const PAUSE: u64 = 1;

/// A core under a lock, and what wakes those that wait for news of it. Each call but `new` and `close` takes the lock,
/// may wait for it, and holds it for one call of the core at most, beside a look at what it has. Who only looks takes
/// no lock.
///
/// No clause says what the core is at the moment of a call, since others may call before and after it: of each
/// call that is said, by the same definitions as of the core's own, where it has the lock. No clause speaks of
/// waiting.
#[derive(Drop)]
pub struct Shared<L: Ledger> {
    locked: Mutex<Locked<L>>,
    board: Board,
    conditions: Conditions,
    bells: Bells,
}

impl<L: Ledger> Shared<L> {
    /// Shares a core among as many seats as there may be. `L` is the ledger of this blank, which so picks it: a
    /// seat fits the one shared core of its own ledger.
    pub fn new(core: Core, blank: Blank) -> Shared<L>
        requires name { blank.name ≡ L.name }
        requires parts { blank.parts ≡ L.parts }
        requires all { blank.parts ≡ SEATS }
    {
        let locked = Locked::new(core, blank);
        Shared {
            board: Board::new(locked.look()),
            locked: Mutex::new(locked),
            conditions: Conditions::new(),
            bells: Bells::new(),
        }
    }

    /// A seat that was not given yet; none exactly where all were given. It takes no memory.
    pub fn seat(&self, rt: &impl Wait) -> Option<Seat<L>>
        ensures { IfSome result (λ seat. (seat.count ≡ 0) × (seat.seen ≡ 0)) }
    {
        self.locked.lock(rt).give_seat()
    }

    /// Accepts a request at a moment: the core's `accept`. The seat counts it exactly where it is an entry, and
    /// who waits for entries is woken there.
    pub fn submit<'a>(
        &self,
        rt: &impl Wait,
        seat: &mut Seat<L>,
        input: Input<'a>,
        moment: Moment,
    ) -> Result<Accepted<'a>, AllocError>
        ensures tells { by_seat (SubmitTells input.entry moment result) seat.old seat.new }
        ensures own { IfOk result (IsOwn input.entry moment) }
        ensures count { IfOk result (λ answer. seat.new.count ≡ seat.old.count + entries_in answer) }
        ensures err { OnErr result (seat.new.count ≡ seat.old.count) }
        ensures seen { seat.new.seen ≡ seat.old.seen }
    {
        let answer = self.submit_in_burst(rt, seat, input, moment);
        if let Ok(Accepted::Entry(_)) = &answer {
            self.end_burst(rt);
        }
        answer
    }

    // The same in a burst of requests, behind whose last one `end_burst` is called.
    pub(crate) fn submit_in_burst<'a>(
        &self,
        rt: &impl Wait,
        seat: &mut Seat<L>,
        input: Input<'a>,
        moment: Moment,
    ) -> Result<Accepted<'a>, AllocError>
        ensures tells { by_seat (SubmitTells input.entry moment result) seat.old seat.new }
        ensures own { IfOk result (IsOwn input.entry moment) }
        ensures count { IfOk result (λ answer. seat.new.count ≡ seat.old.count + entries_in answer) }
        ensures err { OnErr result (seat.new.count ≡ seat.old.count) }
        ensures seen { seat.new.seen ≡ seat.old.seen }
    {
        self.locked.lock(rt).submit(seat, input, moment)
    }

    // Posts how many entries were accepted by now. Who waits for entries is woken where there are more than were posted.
    pub(crate) fn end_burst(&self, rt: &impl Wait) {
        let locked = self.locked.lock(rt);
        let has_come = News::Entry.has_come(self.look(), locked.look());
        self.board.post_accepted(&locked);
        drop(locked);
        if has_come {
            self.conditions.tell(News::Entry);
        }
    }

    /// Answers a query from the table after all settled entries: the core's `read`. The seat has then seen what is
    /// settled, and no answer is from before what it saw.
    ///
    /// Errors: `Behind` exactly where the last settled entry, whose number it tells, comes before what the seat saw;
    /// `NoMemory`.
    pub fn ask(&self, rt: &impl Wait, seat: &mut Seat<L>, query: Query) -> Result<Answer, AskFault>
        ensures tells { by_seat (AskTells query result) seat.old seat.new }
        ensures own { IfOk result (λ answer. answer.query ≡ query) }
        ensures told { IfOk result IsAnswerOfSomeCore }
        ensures seen { IfOk result (λ answer. (answer.number ≡ seat.new.seen) × (seat.old.seen ≤ seat.new.seen)) }
        ensures behind { (number : ℕ) → result ≡ Err (AskFault.Behind number) → IsBehind number seat.old.seen }
        ensures err { OnErr result (seat.new.seen ≡ seat.old.seen) }
        ensures count { seat.new.count ≡ seat.old.count }
    {
        self.locked.lock(rt).ask(seat, query)
    }

    /// Hands out what of settled entries a recipient was not given yet: the core's `hand`. The seat has then seen
    /// what is settled.
    pub fn collect(
        &self,
        rt: &impl Wait,
        seat: &mut Seat<L>,
        to: Recipient,
    ) -> Result<Vec<Out>, AllocError>
        ensures tells { by_seat (CollectTells to (outs_in (λ outs. outs.items) result)) seat.old seat.new }
        ensures outs { IfOk result (λ outs. AreReadyInSomeCore to outs.items) }
        ensures never_back { seat.old.seen ≤ seat.new.seen }
        ensures err { OnErr result (seat.new.seen ≡ seat.old.seen) }
        ensures count { seat.new.count ≡ seat.old.count }
    {
        self.locked.lock(rt).hand(seat, to)
    }

    /// The same of the radio of a slot, into the slot's queue, behind what waits there; it tells how many outs. No
    /// out is lost: where memory lacks, none has left the core.
    pub fn hand_to<R: Radio>(
        &self,
        rt: &impl Wait,
        seat: &mut Seat<L>,
        slot: &mut Slot<R>,
    ) -> Result<usize, AllocError>
        ensures hands { by_seat (λ core after. HandsTo (bssid_of slot.old) result core after slot.old slot.new)
            seat.old seat.new }
        ensures later { IsLater seat.old seat.new }
        ensures count { seat.new.count ≡ seat.old.count }
    {
        self.locked.lock(rt).hand_to(seat, slot)
    }

    /// The core, and how many entries it accepted since it was shared: the sum of the seats' counts. It waits for
    /// nobody and takes no memory. It is refused exactly where a seat is missing, and hands all back.
    pub fn close(self, seats: Vec<Seat<L>>) -> Result<(Core, u64), (Shared<L>, Vec<Seat<L>>)>
        requires { L.parts ≡ SEATS }
        ensures counted { IfOk result (λ closed. closed.1 ≡ entries_of_seats seats.items) }
        ensures back { IfErr result (λ back. back.1 ≡ seats) }
    {
        let Shared {
            locked,
            board,
            conditions,
            bells,
        } = self;
        match locked.into_inner().close(seats) {
            Ok(closed) => Ok(closed),
            Err((locked, seats)) => {
                let shared = Shared {
                    locked: Mutex::new(locked),
                    board,
                    conditions,
                    bells,
                };
                Err((shared, seats))
            }
        }
    }

    /// Tells the workers to end, and wakes them. It takes no memory. What a look at the flag tells afterwards is a
    /// matter of the moment, and said where the lock is held.
    pub fn stop(&self, rt: &impl Wait) {
        let mut locked = self.locked.lock(rt);
        locked.stop();
        self.board.post_stop(&locked);
        drop(locked);
        self.conditions.tell(News::Stop);
        self.bells.ring_all();
    }

    /// Notes whether the radio of a BSSID is up, for `STATUS` to show; nothing where eight others are noted. It takes
    /// no memory. What is noted afterwards is said where the lock is held.
    pub fn note(&self, rt: &impl Wait, bssid: Bssid, up: bool) {
        self.locked.lock(rt).note(bssid, up);
    }

    /// Whether the radio of a BSSID is up, as it was noted last; it is not where nothing was. It takes no memory. What
    /// was noted is said where the lock is held.
    pub fn is_noted_up(&self, rt: &impl Wait, bssid: Bssid) -> bool {
        self.locked.lock(rt).is_noted_up(bssid)
    }

    // The interface that a command names, or else the first one, by the configurations of some core: its BSSID, and
    // whether it is up, which it is not where that core has failed. What is noted of that is said where the lock is held.
    pub(crate) fn interface(&self, rt: &impl Wait, name: Option<&[u8]>) -> Option<(Bssid, bool)>
        ensures { IsFoundBySomeCore (option_copied name.entry) result }
    {
        self.locked.lock(rt).interface(name)
    }

    // Keeps what wakes the worker of a recipient at its socket. Tells at which place, if there was one.
    pub(crate) fn keep_bell(&self, to: Recipient, waker: Waker) -> Option<usize> {
        self.bells.keep(to, waker)
    }

    // Whoever has this bell sleeps from now on, unless since a look it was posted that something was settled, or that
    // all are to stop. Tells whether it is to sleep.
    pub(crate) fn mark_asleep(&self, place: usize, seen: Look) -> bool {
        self.bells.note_asleep(place, true);
        let is_quiet = !News::Settled.has_come(seen, self.look());
        if !is_quiet {
            self.bells.note_asleep(place, false);
        }
        is_quiet
    }

    // It no longer sleeps.
    pub(crate) fn mark_awake(&self, place: usize) {
        self.bells.note_asleep(place, false);
    }

    // What was posted last. Each word is read for itself, so there need not have been a moment at which all were so. It
    // says nothing of the next moment. It takes no lock.
    pub(crate) fn look(&self) -> Look {
        self.board.look()
    }

    // Waits until there are such news since a look, or a stop. No clause speaks of waiting.
    pub(crate) fn wait(&self, rt: &impl Wait, news: News, seen: Look) {
        let _locked = self
            .conditions
            .of(news)
            .wait_while(rt, self.locked.lock(rt), |locked| {
                !news.has_come(seen, locked.look())
            });
    }

    // The same, for this time at most.
    pub(crate) fn wait_within<W: Wait + Clock>(
        &self,
        rt: &W,
        news: News,
        seen: Look,
        time: Duration,
    ) {
        let _waited = self.conditions.of(news).wait_timeout_while(
            rt,
            self.locked.lock(rt),
            time,
            |locked| !news.has_come(seen, locked.look()),
        );
    }

    // The same, for the pause before something is tried again.
    pub(crate) fn pause<W: Wait + Clock>(&self, rt: &W, news: News, seen: Look) {
        self.wait_within(rt, news, seen, Duration::from_millis(PAUSE));
    }
}

/// A shared core, for the worker that commits.
#[derive(Drop)]
pub(crate) struct Committed<'a, L: Ledger, W> {
    pub(crate) rt: &'a W,
    pub(crate) shared: &'a Shared<L>,
}

// Others may call before and after: what is known is that there was a core that went so.
impl<L: Ledger, W: Wait> Settles for Committed<'_, L, W> {
    ghost made = { of_some_core };

    fn take(&mut self) -> Result<Option<Batch>, AllocError> {
        self.shared.locked.lock(self.rt).take()
    }

    // It wakes who waits for what is settled, and at their sockets those for whom outs are ready.
    fn publish(&mut self, receipt: Receipt) -> Result<(), (Receipt, PublishFault)> {
        let shared = self.shared;
        let mut locked = shared.locked.lock(self.rt);
        let answer = locked.publish(receipt);
        shared.board.post_settled(&locked);
        let ready = shared.bells.ready_places(&locked);
        drop(locked);
        if answer.is_ok() {
            shared.conditions.tell(News::Settled);
            shared.bells.ring(ready);
        }
        answer
    }

    fn fail(&mut self) {
        self.shared.locked.lock(self.rt).fail();
    }
}
