//! What a reader may rely on, whatever a core is asked: each law is the contract of a function that does
//! nothing.
ghost use Rattle.std.specs.Prelude.{◌≡◌, ◌≤◌, ◌++◌, ◌↔◌, ◌⊎◌, ℕ, List, None, Some, false, IsTrue};
ghost use Rattle.apd_base.specs.declared.address.Addr.{Addr};
ghost use Rattle.apd_base.specs.declared.address.Bssid.{Bssid};
ghost use Rattle.apd_base.specs.declared.moment.Moment.{Moment};
ghost use Rattle.apd_conf.specs.declared.conf.Conf.{Conf};
ghost use Rattle.apd_journal.specs.declared.batch.Batch.{Batch};
ghost use Rattle.apd_mlme.specs.declared.decision.Recipient.{Recipient};
ghost use Rattle.apd_mlme.specs.Outs.{is_same};
ghost use Rattle.apd_mlme.specs.Run.{outs_run, run};
ghost use Rattle.apd_table.specs.Sound.{Sound};
ghost use Rattle.apd_core.specs.Core.{CoreState, answer_at, after_request, answer_happenings, front_of, after_handing_out, held_for, is_kept, after_publish, ready_for, IsOwed, IsTaken, IsUnsettled};
ghost use Rattle.apd_core.specs.Heard.{LastHeard, due_row};
ghost use Rattle.apd_core.specs.Invariant.{IsCore};
ghost use Rattle.apd_core.specs.RowMoments.{AreNoted};
ghost use Rattle.apd_core.specs.Requests.{happening_of};
ghost use Rattle.apd_core.specs.Silent.{IsFirstSilent, IsSilent};
ghost use Rattle.apd_core.specs.declared.input.Input.{Input};
ghost use Rattle.apd_core.specs.declared.input.Input.TheVariants.{Tick};
ghost use Rattle.apd_core.specs.declared.input.QuietReason.{QuietReason};
ghost use Rattle.apd_core.specs.declared.input.QuietReason.TheVariants.{Nothing};
ghost use Rattle.apd_core.specs.declared.ticket.Accepted.TheVariants.{Quiet};

/// The table after all entries is the one to which what happened leads, from the settled table on.
pub fn entries_are_verdicts()
    ensures { (s : CoreState) (core : IsCore s) → front_of s ≡ run s.settled s.confs core.unsettled.happened }
{}

/// The table after all entries is sound.
pub fn the_table_after_all_entries_is_sound()
    ensures { (s : CoreState) → IsCore s → Sound (front_of s) }
{}

/// An entry is kept exactly where it is not settled, or a recipient was not given an out of it yet.
pub fn an_entry_is_kept_until_it_is_settled_and_given()
    ensures { (s : CoreState) (number : ℕ) → IsCore s
        → (IsTrue (is_kept number s)) ↔ (IsUnsettled number s ⊎ IsOwed number s) }
{}

/// What a request enters leads from the table after all entries to the one after it, and behind what is held
/// for each recipient stand its outs to it.
pub fn an_entry_is_held()
    ensures front { (s : CoreState) (m : Moment) (i : Input)
        → front_of (after_request s m i)
        ≡ run (front_of s) s.confs (answer_happenings (answer_at s m i) (happening_of s.confs s.heard m i)) }
    ensures held { (s : CoreState) (m : Moment) (i : Input) (r : Recipient) → IsCore s
        → held_for r (after_request s m i)
        ≡ held_for r s
        ++ outs_run r (front_of s) s.confs (answer_happenings (answer_at s m i) (happening_of s.confs s.heard m i)) }
{}

/// Settling a batch changes neither the table after all entries nor what is held.
pub fn settling_gives_nothing()
    ensures front { (s : CoreState) → IsCore s → front_of (after_publish s) ≡ front_of s }
    ensures held { (s : CoreState) (r : Recipient) → IsCore s → held_for r (after_publish s) ≡ held_for r s }
{}

/// Taking a batch changes neither the table after all entries nor what is held.
pub fn taking_gives_nothing()
    ensures front { (batch : Batch) (old new : CoreState) → IsTaken batch old new → front_of new ≡ front_of old }
    ensures held { (batch : Batch) (old new : CoreState) (r : Recipient) → IsTaken batch old new
        → held_for r new ≡ held_for r old }
{}

/// An out was given only of a settled entry.
pub fn what_was_given_is_settled()
    ensures { (s : CoreState) → IsCore s → s.held.given ≤ s.number }
{}

/// What a recipient is given and what is held for it then is what was held for it; what is held for another
/// stays.
pub fn what_is_given_was_held()
    ensures own { (s : CoreState) (r : Recipient) → IsCore s
        → ready_for r s ++ held_for r (after_handing_out r s) ≡ held_for r s }
    ensures others { (s : CoreState) (r q : Recipient) → is_same r q ≡ false
        → held_for q (after_handing_out r s) ≡ held_for q s }
{}

/// What is due is the first row, by (BSSID, address), of a configured BSSID that was silent for as long as the
/// configuration says, or longer; and nothing is due exactly where no row is.
pub fn what_is_due_is_the_first_silent_row()
    ensures first { (confs : List Conf) (now : Moment) (heard : LastHeard) (row : Bssid × Addr)
        → (due_row confs now heard ≡ Some row) ↔ IsFirstSilent confs now heard row }
    ensures none { (confs : List Conf) (now : Moment) (heard : LastHeard)
        → (due_row confs now heard ≡ None) ↔ ((row : Bssid × Addr) → ¬ (IsSilent confs now heard row)) }
{}

/// After a request at a moment that moment is the one of each row that it heard: the row of the sender of a
/// frame that is not ignored, also where the answer is quiet, and each row that its entry puts. Any other row
/// has the moment that it had, and where there is no row there is no moment.
pub fn a_row_has_the_moment_at_which_it_was_heard()
    ensures { (s : CoreState) (m : Moment) (i : Input) → IsCore s → AreNoted s m i (after_request s m i) }
{}

/// A tick is quiet for one reason alone, that no station is due: one that is due stands at a BSSID that is
/// configured and has a policy row, and goes by an entry.
pub fn a_tick_is_quiet_where_nothing_is_due()
    ensures { (s : CoreState) (m : Moment) → IsCore s → (reason : QuietReason) → answer_at s m Tick ≡ Quiet reason
        → (reason ≡ Nothing) × (due_row s.confs m s.heard ≡ None) }
{}
