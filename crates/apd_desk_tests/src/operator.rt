//! A control port by which a test asks.
use crate::common::{serve_port, stop};
use crate::hold::Turnstile;
use apd_desk::{Gate, NoGate, Port, PortFault, Seat, Shared};
use std::alloc::{AllocError, Global};
use std::net::Net;
use std::sync::Wait;
use std::sync::ledger::Ledger;
use std::time::Clock;

/// How often an operator is polled at most: a test that waits for a reply ends.
const POLLS: u64 = 20_000;

/// Gives its commands one after another, from the moment on at which the sync that is held began, and tells all to
/// stop once each was replied to.
#[derive(Drop)]
pub(crate) struct Operator<'a, L: Ledger, W: Wait> {
    rt: &'a W,
    alloc: Global,
    shared: &'a Shared<L>,
    since: Option<&'a Turnstile>,
    commands: &'a [&'a [u8]],
    given: usize,
    replies: Vec<Vec<u8>>,
    polls: u64,
}

impl<'a, L: Ledger, W: Wait> Operator<'a, L, W> {
    pub(crate) fn new(
        rt: &'a W,
        alloc: Global,
        shared: &'a Shared<L>,
        since: Option<&'a Turnstile>,
        commands: &'a [&'a [u8]],
    ) -> Operator<'a, L, W> {
        Operator {
            rt,
            alloc,
            shared,
            since,
            commands,
            given: 0,
            replies: Vec::new(alloc),
            polls: 0,
        }
    }

    /// The replies, in the order in which they came.
    pub(crate) fn into_replies(self) -> Vec<Vec<u8>> {
        let Operator { replies, .. } = self;
        replies
    }

    fn is_done(&self) -> bool {
        self.replies.len() >= self.commands.len() || self.polls >= POLLS
    }

    fn may_begin(&self) -> bool {
        match self.since {
            Some(turnstile) => turnstile.has_begun(),
            None => true,
        }
    }

    fn next(&mut self) -> Option<Vec<u8>> {
        let command = self.commands.get(self.given)?;
        let bytes = Vec::from_slice(self.alloc, command).ok()?;
        self.given += 1;
        Some(bytes)
    }
}

impl<L: Ledger, W: Wait> Port for Operator<'_, L, W> {
    fn poll(&mut self) -> Result<Option<(u64, Vec<u8>)>, PortFault> {
        self.polls = self.polls.saturating_add(1);
        if self.is_done() {
            stop(self.rt, self.shared);
            return Ok(None);
        }
        if !self.may_begin() {
            return Ok(None);
        }
        let tag = self.given as u64;
        match self.next() {
            Some(bytes) => Ok(Some((tag, bytes))),
            None => Ok(None),
        }
    }

    fn reply(&mut self, _tag: u64, text: &[u8]) -> Result<(), PortFault> {
        let Ok(text) = Vec::from_slice(self.alloc, text) else {
            return Err(PortFault::Device);
        };
        match self.replies.push(text) {
            Ok(()) => Ok(()),
            Err(_) => Err(PortFault::Device),
        }
    }
}

/// Gives an operator's commands to the worker of the control port. The replies.
pub(crate) fn serve_operator<L: Ledger, W: Wait + Clock + Net, G: Gate>(
    rt: &W,
    alloc: Global,
    shared: &Shared<L>,
    seat: Seat<L>,
    operator: Operator<'_, L, W>,
    gate: &G,
) -> Vec<Vec<u8>> {
    let (seat, operator) = serve_port(rt, alloc, shared, seat, operator, gate);
    drop(seat);
    operator.into_replies()
}

/// Gives the commands one after another to the worker of the control port, and tells all to stop. The replies.
pub(crate) fn replies_to<'a, L: Ledger, W: Wait + Clock + Net>(
    rt: &'a W,
    alloc: Global,
    shared: &'a Shared<L>,
    seat: Seat<L>,
    commands: &'a [&'a [u8]],
) -> Vec<Vec<u8>> {
    let operator = Operator::new(rt, alloc, shared, None, commands);
    serve_operator(rt, alloc, shared, seat, operator, &NoGate)
}

/// Whether these are the replies.
pub(crate) fn are(replies: &[Vec<u8>], texts: &[&[u8]]) -> bool {
    for (reply, text) in replies.iter().zip(texts) {
        if reply.as_slice() != *text {
            return false;
        }
    }
    replies.len() == texts.len()
}

/// Whether these are the beginnings of the replies.
pub(crate) fn begin(replies: &[Vec<u8>], texts: &[&[u8]]) -> bool {
    for (reply, text) in replies.iter().zip(texts) {
        if !reply.as_slice().starts_with(text) {
            return false;
        }
    }
    replies.len() == texts.len()
}
