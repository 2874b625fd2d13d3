//! The worker of the control port.
ghost use Rattle.std.specs.Prelude.{◌≡◌, ◌≢◌, ◌∷◌, [], Some, IfOk, IfSome};
ghost use Rattle.apd_desk.specs.Replying.{AreReplied, AreSettled, HasReplied, IsAnswerOfSomeCore, IsAtOnce, IsEither};
ghost use Rattle.apd_desk.specs.Finding.{IsAnswerTo, IsFoundBySomeCore};
ghost use Rattle.apd_desk.specs.SeatProgress.{IsLater};

use crate::clock::Clock;
use crate::gate::Gate;
use crate::idle::{AT_ONCE, Idle, Progress};
use crate::locked::Look;
use crate::seat::Seat;
use crate::shared::Shared;
use crate::submitting::submit_passing;
use crate::waking::Waiter;
use apd_base::Bssid;
use apd_control_port::Port;
use apd_core::{Answer, Input};
use apd_ctrl::{Interfaces, Placed, Refusal, place};
use apd_mlme::{Out, Recipient};
use std::alloc::Global;
use std::net::Net;
use std::sync::Wait;
use std::sync::ledger::Ledger;
use std::time::Clock as StdClock;

/// The interfaces of a shared core, each with what is noted of its radio.
#[derive(Drop)]
struct SharedInterfaces<'a, L: Ledger, W> {
    rt: &'a W,
    shared: &'a Shared<L>,
}

// Others may call before and after: what is known is that there was a core by whose configurations one is found.
impl<L: Ledger, W: Wait> Interfaces for SharedInterfaces<'_, L, W> {
    ghost finds = { λ _ name found. IsFoundBySomeCore name found };

    fn interface(&self, name: Option<&[u8]>) -> Option<(Bssid, bool)> {
        self.shared.interface(self.rt, name)
    }
}

// Carries a command out. A query is answered at once; where an order became an entry, its reply comes when that is
// settled.
//
// Errors: why it is refused.
fn carry_out<L: Ledger, W: Wait, C: Clock, G: Gate>(
    rt: &W,
    shared: &Shared<L>,
    seat: &mut Seat<L>,
    tag: u64,
    bytes: &[u8],
    clock: &C,
    gate: &G,
) -> Result<Option<Answer>, Refusal>
    ensures later { IsLater seat.old seat.new }
    ensures answered { IfOk result (λ got. IfSome got IsAnswerOfSomeCore) }
    ensures placed { IsAnswerTo tag bytes.now result }
{
    match place(&SharedInterfaces { rt, shared }, tag, bytes) {
        Ok(Placed::Ask(query)) => match shared.ask(rt, seat, query) {
            Ok(answer) => Ok(Some(answer)),
            Err(_) => Err(Refusal::Fail),
        },
        Ok(Placed::Do(event)) => {
            let order = Input::Order(event);
            if submit_passing(rt, shared, seat, order, clock.now(), gate) {
                Ok(None)
            } else {
                Err(Refusal::Fail)
            }
        }
        Err(refusal) => Err(refusal),
    }
}

// Serves the next command, if one waits. Only what is refused and a query are replied to here: the reply to an order
// comes when its entry is settled. A reply that the port loses is lost.
fn serve_command<L: Ledger, W: Wait, P: Port, C: Clock, G: Gate>(
    rt: &W,
    shared: &Shared<L>,
    seat: &mut Seat<L>,
    port: &mut P,
    clock: &C,
    gate: &G,
) -> Progress
    ensures later { IsLater seat.old seat.new }
    ensures replied { HasReplied IsAtOnce (P.replied port.old) (P.replied port.new) }
{
    let (tag, bytes) = match port.poll() {
        Ok(Some(command)) => command,
        Ok(None) => return Progress::Nothing,
        Err(_) => return Progress::Short,
    };
    match carry_out(rt, shared, seat, tag, bytes.as_slice(), clock, gate) {
        Ok(Some(answer)) => answer_query(port, tag, &answer),
        Ok(None) => {}
        Err(refusal) => refuse(port, tag, refusal),
    }
    Progress::Made
}

// Replies to a query.
fn answer_query<P: Port>(port: &mut P, tag: u64, answer: &Answer)
    ensures { IsAnswerOfSomeCore answer.now → HasReplied IsAtOnce (P.replied port.old) (P.replied port.new) }
{
    let _sent = port.reply(tag, answer.text());
}

// Replies that a command is refused.
fn refuse<P: Port>(port: &mut P, tag: u64, refusal: Refusal)
    ensures { HasReplied IsAtOnce (P.replied port.old) (P.replied port.new) }
{
    let _sent = port.reply(tag, refusal.text());
}

// Serves the commands that wait, up to as many as may be at once.
fn serve_commands<L: Ledger, W: Wait, P: Port, C: Clock, G: Gate>(
    rt: &W,
    shared: &Shared<L>,
    seat: &mut Seat<L>,
    port: &mut P,
    clock: &C,
    gate: &G,
) -> Progress
    ensures later { IsLater seat.old seat.new }
    ensures replied { HasReplied IsAtOnce (P.replied port.old) (P.replied port.new) }
{
    let mut progress = Progress::Nothing;
    for _ in 0..AT_ONCE {
        let next = serve_command(rt, shared, seat, port, clock, gate);
        progress = progress.max(next);
        if next != Progress::Made {
            break;
        }
    }
    progress
}

// Sends the reply that an out is, if it is one.
fn reply_out<P: Port>(port: &mut P, out: &Out)
    ensures { AreReplied (out.now ∷ []) (P.replied port.old) (P.replied port.new) }
{
    if let Out::Text(tag, text) = out {
        let _sent = port.reply(*tag, text.as_slice());
    }
}

// Sends the replies among these outs.
fn reply_all<P: Port>(port: &mut P, outs: Vec<Out>)
    ensures { AreReplied outs.items (P.replied port.old) (P.replied port.new) }
{
    for out in outs {
        reply_out(port, &out);
    }
}

// Sends the replies to orders that were settled since it did so last, after the look in which this entry was the last
// settled one.
fn reply_settled<L: Ledger, W: Wait, P: Port>(
    rt: &W,
    shared: &Shared<L>,
    seat: &mut Seat<L>,
    port: &mut P,
    collected: &mut Option<u64>,
    seen: Look,
) -> Progress
    ensures later { IsLater seat.old seat.new }
    ensures replied { HasReplied AreSettled (P.replied port.old) (P.replied port.new) }
    ensures noted { result ≢ Progress.Short → collected.new ≡ Some seen.settled }
    ensures short { result ≡ Progress.Short → collected.new ≡ collected.old }
{
    if *collected == Some(seen.settled) {
        return Progress::Nothing;
    }
    let Ok(outs) = shared.collect(rt, seat, Recipient::Control) else {
        return Progress::Short;
    };
    *collected = Some(seen.settled);
    if outs.is_empty() {
        return Progress::Nothing;
    }
    reply_all(port, outs);
    Progress::Made
}

/// Serves a control port until a stop, and gives its seat and the port back: carries out the commands that come, and
/// replies to each. An order that is no entry, and a query that is not answered, get `FAIL`; one that is an entry is
/// replied to once that is settled. It holds the lock for no call of the port. Where there is nothing to do it waits for
/// a command, by the port's descriptor, for a reply, or for a stop.
pub fn control_worker<L: Ledger, W: Wait + StdClock + Net, P: Port, C: Clock, G: Gate>(
    rt: &W,
    alloc: Global,
    shared: &Shared<L>,
    seat: Seat<L>,
    port: P,
    clock: &C,
    gate: &G,
) -> (Seat<L>, P)
    ensures later { IsLater seat result.0 }
    ensures replied { HasReplied IsEither (P.replied port) (P.replied result.1) }
{
    let mut seat = seat;
    let mut port = port;
    let mut collected = None;
    let mut waiter = Waiter::new(rt, alloc, shared, Recipient::Control);
    let mut idle = Idle::new();
    for _ in rt.forever() {
        let seen = shared.look();
        if seen.stopped {
            break;
        }
        let served = serve_commands(rt, shared, &mut seat, &mut port, clock, gate);
        let replied = reply_settled(rt, shared, &mut seat, &mut port, &mut collected, seen);
        let progress = served.max(replied);
        if idle.rest(progress) {
            waiter.wait(rt, shared, progress, port.descriptor(), seen);
        }
    }
    (seat, port)
}
