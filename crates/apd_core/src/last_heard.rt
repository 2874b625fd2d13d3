//! When the stations of the table were heard last.
ghost use Rattle.std.specs.Prelude.{◌≡◌, true, ◌∷◌, [], cond, Some, IsSome, IsOk, IfOk, OnOk, OnErr, is_some};
ghost use Rattle.std.specs.FinMap as map;
ghost use Rattle.std.specs.List.{find};
ghost use Rattle.std.specs.Map.Iter.{deref_pair};
ghost use Rattle.std.specs.Option.{option_copied, option_map};
ghost use Rattle.std.specs.Ordering.{eq_by_cmp};
ghost use Rattle.apd_base.specs.Addr.{station_cmp};
ghost use Rattle.apd_base.specs.State.{State};
ghost use Rattle.apd_base.specs.declared.address.Addr.{Addr};
ghost use Rattle.apd_base.specs.declared.address.Bssid.{Bssid};
ghost use Rattle.apd_event.specs.Happening.{happening};
ghost use Rattle.apd_record.specs.Meaning.{meaning_of};
ghost use Rattle.apd_core.specs.Heard.{due_row, heard_by, heard_by_changes, heard_from, is_due, is_silent_too_long, AreHeardAt, AreMomentsOf, LastHeard};
ghost use Rattle.apd_core.specs.for_proofs.ChangedRows.{is_of, is_put_of, puts_row, touches_row};
ghost use Rattle.apd_core.specs.for_proofs.LaidDown.{heard_at, moment_left, AreLaidDown, HaveRoomFor};

use apd_base::{Addr, Bssid, Moment};
use apd_conf::{Conf, Confs};
use apd_event::Event;
use apd_record::Change;
use apd_table::Table;
use std::alloc::{AllocError, Global};
use std::collections::BTreeMap;
use std::marker::Model;

/// A moment for each station row, by (BSSID, address), seen as a finite map.
#[derive(Drop)]
pub(crate) struct LastHeard {
    rows: BTreeMap<(Bssid, Addr), Moment>,
}

impl Model for LastHeard {
    ghost use Rattle.std.specs.Prelude.{T};
    ghost use Rattle.std.specs.FinMap as map;
    ghost use Rattle.apd_base.specs.Addr.{station_cmp};
    ghost use Rattle.apd_core.specs.for_proofs.CoreCodes.{coded_last_heard};
    ghost use Rattle.apd_core.specs.Heard.{LastHeard};

    ghost Value = { LastHeard };

    ghost coded = { coded_last_heard };

    ghost view = { λ a. map.from_sorted a.rows.entries };

    ghost invariant = { λ a. T (map.is_sorted station_cmp a.rows.entries) };
}

/// Whether a silence, in milliseconds, is as long as a configuration says, or longer.
fn is_silent_too_long(conf: Option<&Conf>, silence: u64) -> bool
    ensures { result ≡ is_silent_too_long (option_copied conf.entry) silence }
{
    let Some(conf) = conf else {
        return false;
    };
    conf.ap_max_inactivity as u64 * 1000 <= silence
}

/// Whether a row of a configured BSSID is silent for too long.
fn is_due(key: (Bssid, Addr), moment: Moment, confs: &Confs, now: Moment) -> bool
    ensures { result ≡ is_due confs.now now (key, moment) }
{
    is_silent_too_long(confs.with_bssid(key.0), now.0.saturating_sub(moment.0))
}

fn key_of(row: Option<(&(Bssid, Addr), &Moment)>) -> Option<(Bssid, Addr)>
    ensures { result ≡ option_map (λ row. row.0) (option_map deref_pair row.entry) }
{
    Some(*row?.0)
}

/// The first such row.
fn first_due_row(
    rows: &BTreeMap<(Bssid, Addr), Moment>,
    confs: &Confs,
    now: Moment,
) -> Option<(Bssid, Addr)>
    ensures { result ≡ option_map (λ row. row.0) (find (is_due confs.now now) rows.now.entries) }
{
    key_of(rows.iter().find(|row| is_due(*row.0, *row.1, confs, now)))
}

impl LastHeard {
    /// No row. It takes no memory.
    pub(crate) fn new(alloc: Global) -> LastHeard
        ensures { result ≡ map.empty }
    {
        LastHeard {
            rows: BTreeMap::new(alloc),
        }
    }

    /// The rows of a table, all heard at this moment.
    pub(crate) fn of_rows(
        alloc: Global,
        table: &Table,
        moment: Moment,
    ) -> Result<LastHeard, AllocError>
        ensures { IfOk result (λ moments. AreHeardAt moment table.now moments) }
    {
        table.sound();
        let mut moments = LastHeard::new(alloc);
        for place in 0..table.bss_count() {
            let bssid = table.bss(place).unwrap();
            moments.put_all(bssid, &table.addresses(alloc, bssid)?, moment)?;
        }
        Ok(moments)
    }

    fn get(&self, bssid: Bssid, addr: Addr) -> Option<Moment>
        ensures { result ≡ map.get self.now (bssid, addr) }
    {
        self.rows.get(&(bssid, addr)).copied()
    }

    /// Gives a row a moment, or leaves all as it was. It lacks memory only for a new row.
    fn put(&mut self, bssid: Bssid, addr: Addr, moment: Moment) -> Result<(), AllocError>
        ensures ok { OnOk result (self.new ≡ map.insert self.old (bssid, addr) moment) }
        ensures err { OnErr result (self.new ≡ self.old) }
        ensures over { IsSome (map.get self.old (bssid, addr)) → IsOk result }
    {
        self.rows.insert((bssid, addr), moment)?;
        Ok(())
    }

    /// Gives rows of a BSSID a moment, one after another.
    fn put_all(&mut self, bssid: Bssid, addrs: &[Addr], moment: Moment) -> Result<(), AllocError>
        ensures { OnOk result (self.new ≡ heard_at moment bssid addrs.now self.old) }
    {
        for &addr in addrs {
            self.put(bssid, addr, moment)?;
        }
        Ok(())
    }

    fn remove(&mut self, bssid: Bssid, addr: Addr)
        ensures { self.new ≡ map.remove self.old (bssid, addr) }
    {
        self.rows.remove(&(bssid, addr));
    }

    /// The row that a change puts is given a moment, if it has none: room for the one that `stamp` gives it.
    fn lay(&mut self, change: &Change, moment: Moment) -> Result<(), AllocError>
        ensures kept { AreLaidDown (change.now ∷ []) self.old self.new }
        ensures there { OnOk result ((k : Bssid × Addr) → is_put_of k change.now ≡ true → IsSome (map.get self.new k)) }
    {
        let Change::Put { bssid, addr, .. } = *change else {
            return Ok(());
        };
        if self.get(bssid, addr).is_none() {
            self.put(bssid, addr, moment)?;
        }
        Ok(())
    }

    /// The same for changes: then each row that one of them puts has a moment.
    fn lay_all(&mut self, changes: &[Change], moment: Moment) -> Result<(), AllocError>
        ensures kept { AreLaidDown changes.now self.old self.new }
        ensures there { OnOk result (HaveRoomFor changes.now self.new) }
    {
        for change in changes {
            self.lay(change, moment)?;
        }
        Ok(())
    }

    /// The row that a change puts, which has a moment, is given this one.
    fn stamp(&mut self, change: &Change, moment: Moment)
        requires { (k : Bssid × Addr) → is_put_of k change.now ≡ true → IsSome (map.get self.old k) }
        ensures { (k : Bssid × Addr)
            → map.get self.new k ≡ cond (is_put_of k change.now) (Some moment) (map.get self.old k) }
    {
        if let Change::Put { bssid, addr, .. } = *change {
            self.put(bssid, addr, moment).unwrap();
        }
    }

    /// The same for changes.
    fn stamp_all(&mut self, changes: &[Change], moment: Moment)
        requires { HaveRoomFor changes.now self.old }
        ensures { (k : Bssid × Addr)
            → map.get self.new k ≡ cond (puts_row changes.now k) (Some moment) (map.get self.old k) }
    {
        for change in changes {
            self.stamp(change, moment);
        }
    }

    /// The moment of a row that is not in the table goes.
    fn tidy_row(&mut self, bssid: Bssid, addr: Addr, table: &Table)
        ensures { (k : Bssid × Addr)
            → map.get self.new k
            ≡ moment_left (eq_by_cmp station_cmp k (bssid, addr))
            (is_some (map.get table.now.stations k)) (map.get self.old k) }
    {
        if table.get(bssid, addr).is_none() {
            self.remove(bssid, addr);
        }
    }

    /// The row that a change puts or drops keeps its moment only where the table has it.
    fn tidy(&mut self, change: &Change, table: &Table)
        ensures { (k : Bssid × Addr)
            → map.get self.new k
            ≡ moment_left (is_of k change.now) (is_some (map.get table.now.stations k)) (map.get self.old k) }
    {
        match *change {
            Change::Put { bssid, addr, .. } => self.tidy_row(bssid, addr, table),
            Change::Drop { bssid, addr } => self.tidy_row(bssid, addr, table),
            _ => {}
        }
    }

    /// The same for changes.
    fn tidy_all(&mut self, changes: &[Change], table: &Table)
        ensures { (k : Bssid × Addr)
            → map.get self.new k
            ≡ moment_left (touches_row changes.now k) (is_some (map.get table.now.stations k)) (map.get self.old k) }
    {
        for change in changes {
            self.tidy(change, table);
        }
    }

    /// Lays down a moment for each row that changes put, so that `hear_changes` wants no memory once a table, whose
    /// rows these are the moments of, has changed. Where memory is refused all is as it was.
    pub(crate) fn make_room(
        &mut self,
        changes: &[Change],
        moment: Moment,
        table: &Table,
    ) -> Result<(), AllocError>
        requires { AreMomentsOf table.now self.old }
        ensures laid { OnOk result (AreLaidDown changes.now self.old self.new) }
        ensures room { OnOk result (HaveRoomFor changes.now self.new) }
        ensures err { OnErr result (self.new ≡ self.old) }
    {
        let Ok(()) = self.lay_all(changes, moment) else {
            self.give_back(changes, table);
            return Err(AllocError);
        };
        Ok(())
    }

    /// Takes back what was laid down for changes which the table was not given: all is as it was before.
    pub(crate) fn give_back(&mut self, changes: &[Change], table: &Table)
        ensures { (before : LastHeard)
            → AreMomentsOf table.now before → AreLaidDown changes.now before self.old → self.new ≡ before }
    {
        self.tidy_all(changes, table);
    }

    /// The rows that changes put were heard, and those that they drop have no moment any more: once the table has
    /// changed, on the moments that were laid down before. It takes no memory.
    pub(crate) fn hear_changes(&mut self, changes: &[Change], moment: Moment, table: &Table)
        requires { HaveRoomFor changes.now self.old }
        ensures { (state : State) (before : LastHeard)
            → AreMomentsOf state before → AreLaidDown changes.now before self.old
            → table.now ≡ meaning_of changes.now state → self.new ≡ heard_by_changes moment changes.now before }
    {
        self.stamp_all(changes, moment);
        self.tidy_all(changes, table);
    }

    /// A station was heard. Without a row it has no moment. It takes no memory, and looks at its row alone.
    fn hear(&mut self, bssid: Bssid, addr: Addr, moment: Moment)
        ensures { self.new ≡ heard_from moment bssid addr self.old }
    {
        if let Some(heard) = self.rows.get_mut(&(bssid, addr)) {
            *heard = moment;
        }
    }

    /// The sender of a frame was heard, whatever the frame is answered. It takes no memory.
    pub(crate) fn hear_sender(&mut self, event: Event<'_>, moment: Moment)
        ensures { self.new ≡ heard_by moment (happening event.entry) self.old }
    {
        match event {
            Event::Heard(bssid, frame) => self.hear(bssid, frame.sender(), moment),
            Event::Kick { .. }
            | Event::ListEdit { .. }
            | Event::Expire { .. }
            | Event::Configure { .. } => {}
        }
    }

    /// The first row of a configured BSSID, by (BSSID, address), that is silent for as long as its
    /// configuration says. It takes no memory.
    pub(crate) fn due_row(&self, confs: &Confs, now: Moment) -> Option<(Bssid, Addr)>
        ensures { result ≡ due_row confs.now now self.now }
    {
        first_due_row(&self.rows, confs, now)
    }
}
