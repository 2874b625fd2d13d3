//! What is held for the recipients: the outs that they were not given yet.
ghost use Rattle.std.specs.Prelude.{◌≡◌, ℕ, ◌+◌, ◌<◌, ◌≤◌, nat_le, if◌then◌else◌, length, map, IsSome, IfSome, IfOk, OnOk, OnErr};
ghost use Rattle.std.specs.FinMap as maps;
ghost use Rattle.std.specs.List.{AllByRecursion, position};
ghost use Rattle.std.specs.Ordering.{eq_by_cmp};
ghost use Rattle.apd_base.specs.Addr.{bssid_cmp};
ghost use Rattle.apd_base.specs.declared.limits.TheConstants.{MAX_BSS};
ghost use Rattle.apd_mlme.specs.laws.Outs.{RecipientsAreThere};
ghost use Rattle.apd_core.specs.Held.{queue_place, queue_of, no_queues, no_outs, queues_with_outs, with_outs, up_to, beyond, after_given, greatest_number, after_hand, after_settled, IsInOrder, AreHeld};
ghost use Rattle.apd_core.specs.for_proofs.TakingBack.{before, without, MayFollow};

use crate::queue::Queue;
use crate::remaining::Remaining;
use apd_base::{Bssid, Sequence};
use apd_conf::{Conf, Confs};
use apd_mlme::{Out, Recipient};
use std::alloc::{AllocError, Global};
use std::marker::Model;

/// A queue for each recipient, and how many outs of each kept entry are held.
#[derive(Drop)]
pub(crate) struct Held {
    queues: Vec<Queue>,
    remaining: Remaining,
    given: u64,
}

impl Model for Held {
    ghost use Rattle.apd_core.specs.Held.{HeldOuts, AreHeld};
    ghost use Rattle.apd_core.specs.for_proofs.HeldCodes.{coded_held};

    ghost Value = { HeldOuts };

    ghost coded = { coded_held };

    ghost view = { λ a. record { queues = a.queues.items; left = a.remaining; given = a.given } };

    ghost invariant = { λ a. AreHeld (record { queues = a.queues.items; left = a.remaining; given = a.given }) };
}

fn radio_place(confs: &[Conf], bssid: Bssid) -> Option<usize>
    ensures { result ≡ position (λ conf. eq_by_cmp bssid_cmp bssid conf.bssid) confs.now }
{
    confs.iter().position(|conf| bssid.cmp(&conf.bssid).is_eq())
}

// The place of a recipient's queue.
fn place_of(confs: &Confs, to: Recipient) -> Option<usize>
    ensures place { result ≡ queue_place confs.now to }
    ensures small { IfSome result (λ place. place ≤ MAX_BSS) }
{
    match to {
        Recipient::Radio(bssid) => radio_place(confs.list(), bssid),
        Recipient::Control => Some(confs.list().len()),
    }
}

fn empty_queues(alloc: Global, confs: &[Conf]) -> Result<Vec<Queue>, AllocError>
    ensures { IfOk result (λ queues. queues.items ≡ no_queues confs.now) }
{
    let mut queues = Vec::with_capacity(alloc, confs.len() + 1)?;
    for _conf in confs {
        queues.push(Queue::new(alloc))?;
    }
    queues.push(Queue::new(alloc))?;
    Ok(queues)
}

// Adds the outs of an entry, each to its recipient's queue. On an error the first of them are added.
fn add(
    queues: &mut [Queue],
    confs: &Confs,
    number: u64,
    outs: Vec<(Recipient, Out)>,
) -> Result<(), AllocError>
    requires { length queues.old ≡ length confs.now + 1 }
    ensures ok { OnOk result (queues.new ≡ queues_with_outs confs.now number outs.items queues.old) }
    ensures err { OnErr result (map (before number) queues.new ≡ map (before number) queues.old) }
    ensures order { AllByRecursion (MayFollow number) queues.old → AllByRecursion (MayFollow number) queues.new }
{
    for (to, out) in outs {
        if let Some(place) = place_of(confs, to) {
            queues[place].push(number, out)?;
        }
    }
    Ok(())
}

// Takes back the outs of entries from the number on.
fn cut(queues: &mut [Queue], number: u64)
    requires { AllByRecursion IsInOrder queues.old }
    ensures { queues.new ≡ map (before number) queues.old }
{
    for queue in queues.iter_mut() {
        queue.take_back(number);
    }
}

// The greater of the greatest number given and another.
fn greater_number(given: u64, number: u64) -> u64
    ensures { result ≡ (if nat_le given number then number else given) }
{
    if given <= number { number } else { given }
}

// Gives the outs of a queue that are of entries up to the number, or leaves all as it was.
fn give(
    alloc: Global,
    queue: &mut Queue,
    remaining: &mut Remaining,
    given: &mut u64,
    number: u64,
) -> Result<Vec<Out>, AllocError>
    requires { IsInOrder queue.old }
    ensures outs { IfOk result (λ outs. outs.items ≡ map (λ x. x.1) (up_to number queue.old)) }
    ensures queue { OnOk result (queue.new ≡ beyond number queue.old) }
    ensures remaining { OnOk result (remaining.new ≡ after_given remaining.old (up_to number queue.old)) }
    ensures given { OnOk result (given.new ≡ greatest_number given.old (up_to number queue.old)) }
    ensures err { OnErr result ((queue.new ≡ queue.old) × (remaining.new ≡ remaining.old) × (given.new ≡ given.old)) }
    ensures lacks { OnErr result (1 ≤ length (up_to number queue.old)) }
{
    let mut outs = Vec::with_capacity(alloc, queue.count_up_to(number))?;
    while let Some((of, out)) = queue.pop_up_to(number) {
        remaining.lower(of);
        *given = greater_number(*given, of);
        outs.push_reserved(out);
    }
    Ok(outs)
}

impl Held {
    /// Nothing is held.
    pub(crate) fn new(alloc: Global, confs: &[Conf]) -> Result<Held, AllocError>
        ensures { IfOk result (λ held. held ≡ no_outs confs.now) }
    {
        Ok(Held {
            queues: empty_queues(alloc, confs)?,
            remaining: Remaining::new(alloc),
            given: 0,
        })
    }

    /// The number of kept entries.
    pub(crate) fn len(&self) -> usize
        ensures { result ≡ maps.len self.now.left }
    {
        self.remaining.len()
    }

    /// Tells a caller's proof that the counts are right.
    pub(crate) fn sound(&self)
        ensures { AreHeld self.now }
    {
        let _given = self.given;
    }

    /// Keeps an entry and its outs, or leaves all as it was.
    pub(crate) fn keep(
        &mut self,
        confs: &Confs,
        number: u64,
        outs: Sequence<(Recipient, Out)>,
    ) -> Result<(), AllocError>
        requires there { RecipientsAreThere confs.now outs }
        requires queues { length self.old.queues ≡ length confs.now + 1 }
        requires later { (k : ℕ) → IsSome (maps.get self.old.left k) → k < number }
        ensures ok { OnOk result (self.new ≡ with_outs confs.now number outs self.old) }
        ensures err { OnErr result (self.new ≡ self.old) }
    {
        self.remaining.insert(number, outs.len())?;
        let added = add(&mut self.queues, confs, number, outs.into_vec());
        if added.is_err() {
            cut(&mut self.queues, number);
            self.remaining.remove(number);
            return Err(AllocError);
        }
        Ok(())
    }

    /// Takes the last entry back, and its outs. It takes no memory.
    pub(crate) fn take_back(&mut self, number: u64)
        requires { (k : ℕ) → IsSome (maps.get self.old.left k) → k ≤ number }
        ensures { self.new ≡ without number self.old }
    {
        cut(&mut self.queues, number);
        self.remaining.remove(number);
    }

    /// Lets a settled entry go that has no outs. It takes no memory.
    pub(crate) fn settle(&mut self, number: u64)
        ensures { self.new ≡ after_settled number self.old }
    {
        self.remaining.settle(number);
    }

    /// How many outs of the entries up to a number are held for a recipient. It takes no memory.
    pub(crate) fn ready_count(&self, confs: &Confs, number: u64, to: Recipient) -> usize
        requires { length self.now.queues ≡ length confs.now + 1 }
        ensures { result ≡ length (up_to number (queue_of confs.now self.now to)) }
    {
        match place_of(confs, to) {
            Some(place) => self.queues[place].count_up_to(number),
            None => 0,
        }
    }

    /// Gives a recipient its outs of the entries up to a number, or leaves all as it was.
    pub(crate) fn hand(
        &mut self,
        alloc: Global,
        confs: &Confs,
        number: u64,
        to: Recipient,
    ) -> Result<Vec<Out>, AllocError>
        requires { length self.old.queues ≡ length confs.now + 1 }
        ensures outs { IfOk result
            (λ outs. outs.items ≡ map (λ x. x.1) (up_to number (queue_of confs.now self.old to))) }
        ensures handed { OnOk result (self.new ≡ after_hand confs.now number to self.old) }
        ensures err { OnErr result (self.new ≡ self.old) }
        ensures lacks { OnErr result (1 ≤ length (up_to number (queue_of confs.now self.old to))) }
    {
        let Some(place) = place_of(confs, to) else {
            return Ok(Vec::new(alloc));
        };
        give(
            alloc,
            &mut self.queues[place],
            &mut self.remaining,
            &mut self.given,
            number,
        )
    }
}
