//! Changes that a table makes all, or none of them.
ghost use Rattle.std.specs.Prelude.{◌≡◌, ◌≢◌, ◌↔◌, ◌∷◌, OnOk, OnErr, IsOk, IsSome, IfSome, IsTrue, Err};
ghost use Rattle.apd_record.specs.Meaning.{meaning, meaning_of};
ghost use Rattle.apd_record.specs.declared.change.Change.TheVariants.{Cursor};
ghost use Rattle.apd_table.specs.InPlace.{AreDrops, AreFewInPlace, IsCursorThere, IsDrop, IsInPlace, IsPutOver, NoNewRow};
ghost use Rattle.apd_table.specs.NewRow.{IsNewRow};
ghost use Rattle.apd_table.specs.Sound.{Sound, StaySound};
ghost use Rattle.apd_table.specs.declared.table.TableFault.{TableFault};

use crate::table::{Table, TableFault};
use apd_base::{Bssid, StationNumber};
use apd_record::Change;
use std::alloc::Global;

fn are_drops(changes: &[Change]) -> bool
    ensures { IsTrue result ↔ AreDrops changes.now }
{
    changes
        .iter()
        .all(|change| matches!(change, Change::Drop { .. }))
}

impl Table {
    /// Makes changes one after another, exactly where the state is sound before them and after each of
    /// them; else the answer is `Invalid`. A refusal leaves the table as it was.
    ///
    /// Made in place, with memory wanted for new rows alone: no change; any change and drops alone
    /// behind it; a row over an old one and any change behind it; and any of these with a cursor behind
    /// it, at a BSSID that had a policy before. Any others are made on a copy of the table. Drops alone
    /// are never refused.
    pub fn apply_all(&mut self, alloc: Global, changes: &[Change]) -> Result<(), TableFault>
        ensures ok { OnOk result (self.new ≡ meaning_of changes.now self.old) }
        ensures sound { OnOk result (StaySound changes.now self.old) }
        ensures invalid { result ≡ Err TableFault.Invalid → ¬ (StaySound changes.now self.old) }
        ensures memory { IsInPlace changes.now self.old → NoNewRow changes.now self.old
            → result ≢ Err TableFault.NoMemory }
        ensures drops { AreDrops changes.now → IsOk result }
        ensures err { OnErr result (self.new ≡ self.old) }
    {
        let [front @ .., last] = changes else {
            return self.apply_few(alloc, changes);
        };
        let Some((bssid, number)) = self.cursor_there(last) else {
            return self.apply_few(alloc, changes);
        };
        self.apply_few(alloc, front)?;
        self.set_cursor(bssid, number);
        Ok(())
    }

    // The BSSID and the identifier of a cursor at a BSSID with a policy.
    fn cursor_there(&self, change: &Change) -> Option<(Bssid, StationNumber)>
        ensures cursor { IfSome result (λ x. change.now ≡ Cursor x.0 x.1) }
        ensures there { IsSome result ↔ IsCursorThere change.now self.now }
    {
        match *change {
            Change::Cursor { bssid, last } if self.has_policy(bssid) => Some((bssid, last)),
            _ => None,
        }
    }

    // The same, where a cursor at the end is made as any other change is.
    fn apply_few(&mut self, alloc: Global, changes: &[Change]) -> Result<(), TableFault>
        ensures ok { OnOk result (self.new ≡ meaning_of changes.now self.old) }
        ensures sound { OnOk result (StaySound changes.now self.old) }
        ensures invalid { result ≡ Err TableFault.Invalid → ¬ (StaySound changes.now self.old) }
        ensures memory { AreFewInPlace changes.now self.old → NoNewRow changes.now self.old
            → result ≢ Err TableFault.NoMemory }
        ensures drops { AreDrops changes.now → IsOk result }
        ensures err { OnErr result (self.new ≡ self.old) }
    {
        self.sound();
        let [first, rest @ ..] = changes else {
            return Ok(());
        };
        if are_drops(rest) {
            return self.apply_and_drop(first, rest);
        }
        let [second] = rest else {
            return self.apply_to_copy(alloc, changes);
        };
        let Some(back) = self.putting_back(first) else {
            return self.apply_to_copy(alloc, changes);
        };
        self.apply_two(first, second, &back)
    }

    /// Makes changes one after another, up to the first that is refused: what stands then is the state
    /// before that one.
    pub(crate) fn apply_in_turn(&mut self, changes: &[Change]) -> Result<(), TableFault>
        ensures ok { OnOk result (self.new ≡ meaning_of changes.now self.old) }
        ensures sound { OnOk result (StaySound changes.now self.old) }
        ensures invalid { result ≡ Err TableFault.Invalid → ¬ (StaySound changes.now self.old) }
        ensures memory { NoNewRow changes.now self.old → result ≢ Err TableFault.NoMemory }
        ensures drops { AreDrops changes.now → IsOk result }
    {
        self.sound();
        for change in changes {
            self.apply(change)?;
        }
        Ok(())
    }

    // Makes a change and drops behind it: the change may be refused, the drops are not.
    fn apply_and_drop(&mut self, first: &Change, drops: &[Change]) -> Result<(), TableFault>
        requires { AreDrops drops.now }
        ensures ok { OnOk result (self.new ≡ meaning_of (first.now ∷ drops.now) self.old) }
        ensures sound { OnOk result (StaySound (first.now ∷ drops.now) self.old) }
        ensures invalid { result ≡ Err TableFault.Invalid → ¬ (StaySound (first.now ∷ drops.now) self.old) }
        ensures memory { result ≡ Err TableFault.NoMemory → IsNewRow first.now self.old }
        ensures drop { IsDrop first.now → IsOk result }
        ensures err { OnErr result (self.new ≡ self.old) }
    {
        self.sound();
        self.apply(first)?;
        self.apply_in_turn(drops)
    }

    // The change that would put the old row back, where this one puts a row over it.
    fn putting_back(&self, change: &Change) -> Option<Change>
        ensures some { IsSome result ↔ IsPutOver change.now self.now }
        ensures back { IfSome result (λ back. meaning back (meaning change.now self.now) ≡ self.now) }
        ensures memory { IfSome result (λ back. ¬ (IsNewRow back (meaning change.now self.now))) }
    {
        let Change::Put { bssid, addr, .. } = *change else {
            return None;
        };
        let station = self.get(bssid, addr)?;
        Some(Change::Put {
            bssid,
            addr,
            station,
        })
    }

    // Makes two changes, or takes the first back where the second is refused.
    fn apply_two(
        &mut self,
        first: &Change,
        second: &Change,
        back: &Change,
    ) -> Result<(), TableFault>
        requires back { meaning back.now (meaning first.now self.old) ≡ self.old }
        requires memory { ¬ (IsNewRow back.now (meaning first.now self.old)) }
        ensures ok { OnOk result (self.new ≡ meaning second.now (meaning first.now self.old)) }
        ensures first { OnOk result (Sound (meaning first.now self.old)) }
        ensures second { OnOk result (Sound (meaning second.now (meaning first.now self.old))) }
        ensures invalid { result ≡ Err TableFault.Invalid → Sound (meaning first.now self.old)
            → ¬ (Sound (meaning second.now (meaning first.now self.old))) }
        ensures memory { result ≡ Err TableFault.NoMemory → ¬ (IsNewRow first.now self.old)
            → IsNewRow second.now (meaning first.now self.old) }
        ensures err { OnErr result (self.new ≡ self.old) }
    {
        self.sound();
        self.apply(first)?;
        let Err(fault) = self.apply(second) else {
            return Ok(());
        };
        self.apply_back(back);
        Err(fault)
    }

    // Makes a change that is not refused.
    fn apply_back(&mut self, back: &Change)
        requires sound { Sound (meaning back.now self.old) }
        requires memory { ¬ (IsNewRow back.now self.old) }
        ensures { self.new ≡ meaning back.now self.old }
    {
        match self.apply(back) {
            Ok(()) => {}
            Err(_) => unreachable!(),
        }
    }

    // Makes changes on a copy of the table, which then takes its place.
    fn apply_to_copy(&mut self, alloc: Global, changes: &[Change]) -> Result<(), TableFault>
        ensures ok { OnOk result (self.new ≡ meaning_of changes.now self.old) }
        ensures sound { OnOk result (StaySound changes.now self.old) }
        ensures invalid { result ≡ Err TableFault.Invalid → ¬ (StaySound changes.now self.old) }
        ensures err { OnErr result (self.new ≡ self.old) }
    {
        let mut next = self.copy(alloc)?;
        next.apply_in_turn(changes)?;
        *self = next;
        Ok(())
    }
}
