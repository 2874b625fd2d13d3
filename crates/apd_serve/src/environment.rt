//! What surrounds a core that is served.
use crate::threads::Stops;
use apd_desk::Shared;
use apd_site::{Alarm, tell_served};
use log::Log;
use std::alloc::Global;
use std::sync::Wait;
use std::sync::ledger::Ledger;

/// What a world is served with, whatever the world is: all of it is lent to each thread.
#[derive(Drop)]
pub(crate) struct Environment<'a, W, C, G> {
    /// The system, and its log.
    pub(crate) rt: &'a W,
    /// Where memory is taken.
    pub(crate) alloc: Global,
    /// The clock by which requests have their moments.
    pub(crate) clock: &'a C,
    /// The gate that the workers pass.
    pub(crate) gate: &'a G,
    /// What rings where the device fails.
    pub(crate) alarm: &'a Alarm,
    /// What is served, in words, where that is to be told once each thread is there.
    pub(crate) served: Option<&'a str>,
}

impl<'a, W, C, G> Environment<'a, W, C, G> {
    /// One in which what is served is not told.
    pub(crate) fn untold(
        rt: &'a W,
        alloc: Global,
        clock: &'a C,
        gate: &'a G,
        alarm: &'a Alarm,
    ) -> Environment<'a, W, C, G> {
        Environment {
            rt,
            alloc,
            clock,
            gate,
            alarm,
            served: None,
        }
    }
}

/// What the workers round one core share: the core, and what surrounds it.
#[derive(Drop)]
pub(crate) struct Desk<'a, L: Ledger, W, C, G> {
    pub(crate) environment: &'a Environment<'a, W, C, G>,
    pub(crate) shared: Shared<L>,
}

impl<L: Ledger, W: Wait + Log, C, G> Stops for Desk<'_, L, W, C, G> {
    fn tell_started(&self) {
        if let Some(words) = self.environment.served {
            tell_served(self.environment.rt, words);
        }
    }

    fn stop(&self) {
        self.shared.stop(self.environment.rt);
    }
}
