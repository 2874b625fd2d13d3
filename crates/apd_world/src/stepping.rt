//! The steps of a durable core.
ghost use Rattle.std.specs.Prelude.{◌≡◌, ◌≢◌, ◌⊎◌, ℕ, List, IfOk, IsSome, OnErr, take};
ghost use Rattle.apd_event.specs.Happening.{Happening};
ghost use Rattle.apd_mlme.specs.Run.{run};
ghost use Rattle.apd_store.specs.Image.{Shows};
ghost use Rattle.apd_flusher.specs.Outside.{phase_of, waiting_receipt};
ghost use Rattle.apd_core.specs.Invariant.{IsCore};
ghost use Rattle.apd_world.specs.CoreRun.{AreUnsettled};
ghost use Rattle.apd_world.specs.declared.step.Step.TheVariants.{Accept, Take, Call, Publish, Hand, Ask, Apply};
ghost use Rattle.apd_world.specs.declared.step.Told.TheVariants.{Handed, NoMemory};
ghost use Rattle.apd_world.specs.Telling.{reception_of};

use crate::durable_core::DurableCore;
use crate::step::{Reception, Step, Told};
use apd_base::{Bssid, Moment, Sequence};
use apd_core::{Accepted, Input};
use apd_ctrl::Query;
use apd_disk::Disk;
use apd_flusher::Phase;
use apd_mlme::{Out, Recipient};
use apd_steps::Asks;
use std::alloc::AllocError;

fn reception(answer: Accepted<'_>) -> Reception
    ensures { result ≡ reception_of answer.entry }
{
    match answer {
        Accepted::Stopped => Reception::Stopped,
        Accepted::Busy => Reception::Busy,
        Accepted::Quiet(reason) => Reception::Quiet(reason),
        Accepted::Entry(ticket) => Reception::Entry(ticket.number()),
    }
}

impl<D: Disk> DurableCore<D> {
    ghost use Rattle.apd_world.specs.Proper.{IsProper, IsSafe, IsStepMade};
    ghost use Rattle.apd_world.specs.Run.{IsStep};
    ghost use Rattle.apd_world.specs.Shown.{ShowsFlight};
    ghost use Rattle.apd_world.specs.Outside.{device_of, flusher_of};
    ghost use Rattle.apd_world.specs.Telling.{HasReady};

    // What every core is. It does nothing.
    pub(crate) fn sound(&self)
        ensures { IsCore self.now.core }
    {
        self.core.sound();
    }

    // A step that does nothing is safe. It does nothing.
    pub(crate) fn stops(&self)
        ensures { IsSafe D.model self.now self.now }
    {
        self.committer.show_images();
    }

    /// Tells a caller's proof what a stop now leaves of a proper durable core: an image of the table after none of
    /// what is not settled, or after the batch in flight; from the last call of a batch on, if that
    /// succeeded, until it is published, after that batch. (One of no changes has no call: after it, from its load on.)
    /// It does nothing.
    pub fn show_images(&self)
        ensures now { IsProper D.model self.now → (hs : List Happening)
            → AreUnsettled hs self.now.core → (image : List ℕ) → D.model.may_leave (device_of self.now) image
            → ShowsFlight self.now.core hs image }
        ensures durable { IsProper D.model self.now → (hs : List Happening)
            → AreUnsettled hs self.now.core
            → (phase_of (flusher_of self.now) ≡ Phase.Done) ⊎ IsSome (waiting_receipt self.now.committer)
            → (image : List ℕ) → D.model.may_leave (device_of self.now) image
            → Shows image (run self.now.core.settled self.now.core.confs (take self.now.core.flight hs)) }
    {
        self.committer.show_images();
    }

    fn accept(&mut self, input: Input<'_>, moment: Moment) -> Told
        ensures step { IsStep (Accept input.entry moment) result self.old self.new }
        ensures safe { IsSafe D.model self.old self.new }
        ensures device { device_of self.new ≡ device_of self.old }
    {
        self.stops();
        match self.core.submit(input, moment) {
            Ok(answer) => Told::Accepted(reception(answer)),
            Err(_) => Told::NoMemory,
        }
    }

    fn take(&mut self) -> Told
        ensures step { IsStep Take result self.old self.new }
        ensures safe { IsSafe D.model self.old self.new }
        ensures device { device_of self.new ≡ device_of self.old }
    {
        match apd_steps::take(&mut self.core, &mut self.committer) {
            Ok(Some(result)) => Told::Loaded(result),
            Ok(None) => Told::Nothing,
            Err(_) => Told::NoMemory,
        }
    }

    // The core fails with the device.
    fn call(&mut self) -> Told
        ensures step { IsStep Call result self.old self.new }
        ensures made { IsStepMade D.model result self.old self.new }
    {
        match apd_steps::call(&mut self.core, &mut self.committer) {
            Some(result) => Told::Called(result),
            None => Told::Nothing,
        }
    }

    fn publish(&mut self) -> Told
        ensures step { IsStep Publish result self.old self.new }
        ensures safe { IsSafe D.model self.old self.new }
        ensures device { device_of self.new ≡ device_of self.old }
    {
        match apd_steps::publish(&mut self.core, &mut self.committer) {
            Some(result) => Told::Published(result),
            None => Told::Nothing,
        }
    }

    /// Gives a recipient what is ready for it: the step of a hand.
    pub(crate) fn hand(&mut self, to: Recipient) -> Result<Sequence<Out>, AllocError>
        ensures ok { IfOk result (λ outs. IsStep (Hand to) (Handed outs) self.old self.new) }
        ensures err { OnErr result (IsStep (Hand to) NoMemory self.old self.new) }
        ensures lacks { OnErr result (HasReady to self.old.core × (self.new ≡ self.old)) }
        ensures made { IsStepMade D.model NoMemory self.old self.new }
    {
        self.stops();
        match self.core.collect(to) {
            Ok(outs) => Ok(Sequence::from_vec(outs)),
            Err(short) => Err(short),
        }
    }

    fn ask(&mut self, query: Query) -> Told
        ensures step { IsStep (Ask query) result self.old self.new }
        ensures safe { IsSafe D.model self.old self.new }
        ensures device { device_of self.new ≡ device_of self.old }
    {
        self.stops();
        match self.core.ask(query) {
            Ok(answer) => Told::Answered(answer),
            Err(_) => Told::NoMemory,
        }
    }

    // The outs of a radio wait at its slot, beside this.
    fn apply(&mut self, bssid: Bssid) -> Told
        ensures step { IsStep (Apply bssid) result self.old self.new }
        ensures safe { IsSafe D.model self.old self.new }
        ensures device { device_of self.new ≡ device_of self.old }
    {
        self.stops();
        let _ = bssid;
        Told::Nothing
    }

    /// Makes one step, and tells its answer. From a whole one it leaves one, whatever the device; from a proper one it
    /// leaves one, and a stop since its start leaves an image of the settled table, or of that after the batch in
    /// flight. It makes one call of the device at most. A hand is never told as nothing: it asks for no slot.
    pub fn step(&mut self, step: &Step<'_>) -> Told
        ensures step { IsStep step.now result self.old self.new }
        ensures made { IsStepMade D.model result self.old self.new }
        ensures handed { (to : Recipient) → step.now ≡ Hand to → result ≢ Told.Nothing }
    {
        match *step {
            Step::Accept(input, moment) => self.accept(input, moment),
            Step::Take => self.take(),
            Step::Call => self.call(),
            Step::Publish => self.publish(),
            Step::Hand(to) => match self.hand(to) {
                Ok(outs) => Told::Handed(outs),
                Err(_) => Told::NoMemory,
            },
            Step::Ask(query) => self.ask(query),
            Step::Apply(bssid) => self.apply(bssid),
        }
    }
}
