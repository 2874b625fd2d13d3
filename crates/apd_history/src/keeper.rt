//! The log that proofs alone keep, and who has seen how much of it.
ghost use Rattle.std.specs.Prelude.{◌≡◌, ◌+◌, ◌∷◌, ◌++◌, []};
ghost use mathlib.Core.List.{IsPrefix};
ghost use Rattle.apd_history.specs.Chain.{commits_by, commits_of, core_at, AreCalls, IsCall, IsCalled, IsOneMore};
ghost use Rattle.apd_history.specs.Opening.{commits_name_of, table_of};

use crate::entry::{Entry, Kind};
use crate::naming::{Commits, First, Naming};
use crate::opened::Opened;
use crate::pages::{Append, Begin, Certify, Check, Duplicate, Leaves, Pass, Show};
use apd_core::Core;
use std::marker::{Model, PhantomData};
use std::snapshot::Snapshot;
use std::sync::ledger::{Book, Share};

// What the passes are of. There is one word to it, which says nothing.
#[derive(Drop)]
struct Pages<L: Naming, E: Entry> {
    leaves: Leaves<E>,
    of: PhantomData<L>,
    ghost named: { leaves.shared.table_id ≡ L.table },
    ghost word: { leaves.shared.table_id.words ≡ 1 },
}

/// The whole log, and how many commits it has. There is one keeper of it. Contracts see it as its calls.
#[derive(Drop)]
pub struct Keeper<L: Naming, E: Entry> {
    pages: Pages<L, E>,
    pass: Pass<E>,
    commits: Book<Commits<L>>,
}

impl<L: Naming, E: Entry> Model for Keeper<L, E> {
    ghost use Rattle.std.specs.Prelude.{◌≡◌, List, [], true};
    ghost use Rattle.std.specs.Coded.{codes};
    ghost use Rattle.apd_base.specs.for_proofs.Codes.{coded_state};
    ghost use Rattle.apd_conf.specs.for_proofs.Codes.{coded_confs};
    ghost use Rattle.apd_core.specs.for_proofs.CoreCodes.{coded_last_heard};
    ghost use Rattle.apd_core.specs.for_proofs.HeldCodes.{coded_held};
    ghost use Rattle.std.specs.Prelude.{map};
    ghost use Rattle.apd_history.specs.Chain.{commits_of, AreCalls, Call};

    ghost Value = { List Call };

    ghost coded = { Prim.hlevel (codes, coded_state, coded_confs, coded_held, coded_last_heard) };

    ghost view = { λ k. map E.call k.pass.me.0.all };

    ghost invariant = { λ k. (k.pass.table_id ≡ L.table) × (k.pass.me.0.keeps ≡ true) × (k.pass.me.1 ≡ [])
        × AreCalls L.first (map E.call k.pass.me.0.all)
        × (k.commits.total ≡ commits_of (map E.call k.pass.me.0.all)) };
}

/// A beginning of the log that was seen, and is legal. Contracts see it as its calls.
#[derive(Drop)]
pub struct Front<L: Naming, E: Entry> {
    pass: Pass<E>,
    of: PhantomData<L>,
}

impl<L: Naming, E: Entry> Model for Front<L, E> {
    ghost use Rattle.std.specs.Prelude.{◌≡◌, List, []};
    ghost use Rattle.std.specs.Coded.{codes};
    ghost use Rattle.apd_base.specs.for_proofs.Codes.{coded_state};
    ghost use Rattle.apd_conf.specs.for_proofs.Codes.{coded_confs};
    ghost use Rattle.apd_core.specs.for_proofs.CoreCodes.{coded_last_heard};
    ghost use Rattle.apd_core.specs.for_proofs.HeldCodes.{coded_held};
    ghost use Rattle.std.specs.Prelude.{map};
    ghost use Rattle.apd_history.specs.Chain.{AreCalls, Call};

    ghost Value = { List Call };

    ghost coded = { Prim.hlevel (codes, coded_state, coded_confs, coded_held, coded_last_heard) };

    ghost view = { λ f. map E.call f.pass.me.0.seen };

    ghost invariant = { λ f. (f.pass.table_id ≡ L.table) × (f.pass.me.1 ≡ [])
        × AreCalls L.first (map E.call f.pass.me.0.seen) };
}

/// The right to commit, of which there is one, and what its owner has seen. It knows how many commits that has, and so
/// that nobody else made any.
#[derive(Drop)]
pub struct CommitRight<L: Naming, E: Entry> {
    front: Front<L, E>,
    share: Share<Commits<L>>,
    ghost whole: { share.parts ≡ 1 },
    ghost counted: { share.amount ≡ commits_of front },
}

impl<L: Naming, E: Entry> Keeper<L, E> {
    /// The keeper of an empty history, under its name, and all of the ledger of its commits.
    pub fn of(opened: Opened<E>) -> (Keeper<L, E>, Share<Commits<L>>)
        requires table { table_of opened ≡ L.table }
        requires commits { commits_name_of opened ≡ L.commits }
        ensures empty { result.0 ≡ [] }
        ensures whole { result.1.parts ≡ 1 }
        ensures none { result.1.amount ≡ 0 }
    {
        let Opened {
            leaves,
            pass,
            commits,
        } = opened;
        let pages = Pages {
            leaves,
            of: PhantomData,
        };
        let (commits, share) = commits.open::<Commits<L>>();
        let keeper = Keeper {
            pages,
            pass,
            commits,
        };
        (keeper, share)
    }

    /// The log is one list of calls, from the first core on.
    pub fn sound(&self)
        ensures { AreCalls L.first self.now }
    {
        let _ = &self.pass;
    }

    /// A front that has seen the whole log.
    pub fn front(&mut self) -> Front<L, E>
        ensures same { self.new ≡ self.old }
        ensures result { result ≡ self.old }
    {
        let Keeper { pages, pass, .. } = self;
        let seen = pages.leaves.shared.split_seat::<Certify>(pass);
        Front {
            pass: seen,
            of: PhantomData,
        }
    }

    // A front that has seen nothing.
    fn empty_front(&mut self) -> Front<L, E>
        ensures same { self.new ≡ self.old }
        ensures result { result ≡ [] }
    {
        let Keeper { pages, pass, .. } = self;
        let seen = pages.leaves.shared.split_seat::<Begin>(pass);
        Front {
            pass: seen,
            of: PhantomData,
        }
    }

    /// The right to commit, for who has all of the ledger, and has seen nothing yet.
    pub fn right(&mut self, share: Share<Commits<L>>) -> CommitRight<L, E>
        requires whole { share.parts ≡ 1 }
        requires none { share.amount ≡ 0 }
        ensures same { self.new ≡ self.old }
        ensures result { result.front ≡ [] }
    {
        let front = self.empty_front();
        CommitRight { front, share }
    }

    /// Any front begins the whole log.
    pub fn check(&mut self, front: &mut Front<L, E>)
        ensures begins { IsPrefix front.old self.old }
        ensures same { self.new ≡ self.old }
        ensures front { front.new ≡ front.old }
    {
        let Keeper { pages, pass, .. } = self;
        let leaves = &pages.leaves.shared;
        let copy = leaves.split_seat::<Duplicate>(&mut front.pass);
        leaves.join_seat::<Show>(pass, copy);
        leaves.load::<Check>(pass, 0);
    }

    /// A front sees the whole log, which goes on from what it had seen.
    pub fn meet(&mut self, first: &First<L>, front: &mut Front<L, E>)
        ensures first { first.now ≡ L.first }
        ensures begins { IsPrefix front.old self.old }
        ensures same { self.new ≡ self.old }
        ensures front { front.new ≡ self.old }
    {
        first.known();
        self.check(front);
        *front = self.front();
    }

    // Whoever has the right to commit has seen all commits.
    fn audit(&mut self, right: &mut CommitRight<L, E>)
        ensures alone { commits_of self.old ≡ commits_of right.old.front }
        ensures same { self.new ≡ self.old }
        ensures front { right.new.front ≡ right.old.front }
    {
        let Keeper { commits, .. } = self;
        commits.audit(&mut right.share);
    }

    /// What the log is beside who has the right to commit: it goes on from what that one saw, and nobody made a commit
    /// since.
    pub fn check_right(&mut self, right: &mut CommitRight<L, E>)
        ensures begins { IsPrefix right.old.front self.old }
        ensures alone { commits_of self.old ≡ commits_of right.old.front }
        ensures same { self.new ≡ self.old }
        ensures front { right.new.front ≡ right.old.front }
    {
        self.audit(right);
        let CommitRight { front, .. } = right;
        self.check(front);
    }

    /// The same of who has the right to commit. Nobody else made a commit since.
    pub fn meet_right(&mut self, first: &First<L>, right: &mut CommitRight<L, E>)
        ensures first { first.now ≡ L.first }
        ensures begins { IsPrefix right.old.front self.old }
        ensures alone { commits_of self.old ≡ commits_of right.old.front }
        ensures same { self.new ≡ self.old }
        ensures front { right.new.front ≡ self.old }
    {
        self.audit(right);
        let CommitRight { front, .. } = right;
        self.meet(first, front);
    }

    // Puts an entry behind all others. It always does.
    fn append(&mut self, first: &First<L>, entry: &E)
        requires follows { (E.call entry.now).before ≡ core_at first.now self.old }
        requires call { IsCalled (E.call entry.now) }
        requires free { commits_by (E.call entry.now).kind ≡ 0 }
        ensures { self.new ≡ self.old ++ E.call entry.now ∷ [] }
    {
        first.known();
        let Keeper { pages, pass, .. } = self;
        pages
            .leaves
            .shared
            .compare_exchange_with::<Append>(pass, 0, 0, 0, entry);
    }

    // Puts the entry of a commit behind all others, and counts it. It always does.
    fn append_commit(&mut self, first: &First<L>, share: &mut Share<Commits<L>>, entry: &E)
        requires follows { (E.call entry.now).before ≡ core_at first.now self.old }
        requires call { IsCalled (E.call entry.now) }
        requires commit { commits_by (E.call entry.now).kind ≡ 1 }
        requires whole { share.old.parts ≡ 1 }
        ensures all { self.new ≡ self.old ++ E.call entry.now ∷ [] }
        ensures parts { share.new.parts ≡ share.old.parts }
        ensures amount { share.new.amount ≡ share.old.amount + 1 }
    {
        first.known();
        let Keeper {
            pages,
            pass,
            commits,
        } = self;
        commits.add(share, 1);
        pages
            .leaves
            .shared
            .compare_exchange_with::<Append>(pass, 0, 0, 0, entry);
    }

    /// Notes a call by which the core went so, behind all others, which is no commit. A front sees it.
    pub fn note(
        &mut self,
        first: &First<L>,
        kind: Kind,
        before: Snapshot<Core>,
        core: &Core,
        front: &mut Front<L, E>,
    )
        requires follows { before.value ≡ core_at first.now self.old }
        requires call { IsCall kind before.value core.now }
        requires free { commits_by kind ≡ 0 }
        ensures one_more { IsOneMore kind before.value core.now self.old self.new }
        ensures at { core.now ≡ core_at first.now self.new }
        ensures front { front.new ≡ self.new }
    {
        let entry = E::of(kind, before, core);
        self.append(first, &entry);
        *front = self.front();
    }

    /// Notes a commit by which the core went so, behind all others, of who has the right to it, who sees it.
    pub fn note_commit(
        &mut self,
        first: &First<L>,
        kind: Kind,
        before: Snapshot<Core>,
        core: &Core,
        right: &mut CommitRight<L, E>,
    )
        requires follows { before.value ≡ core_at first.now self.old }
        requires call { IsCall kind before.value core.now }
        requires commit { commits_by kind ≡ 1 }
        ensures one_more { IsOneMore kind before.value core.now self.old self.new }
        ensures at { core.now ≡ core_at first.now self.new }
        ensures front { right.new.front ≡ self.new }
    {
        self.audit(right);
        let entry = E::of(kind, before, core);
        let CommitRight { front, share } = right;
        self.append_commit(first, share, &entry);
        *front = self.front();
    }
}

impl<L: Naming, E: Entry> Front<L, E> {
    /// What was seen is one list of calls, from the first core on.
    pub fn sound(&self)
        ensures { AreCalls L.first self.now }
    {
        let _ = &self.of;
    }
}
