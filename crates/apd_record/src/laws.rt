//! What a reader of a journal may rely on: each law is the contract of a function that does nothing.
ghost use Rattle.std.specs.Prelude.{◌≡◌, ℕ, List, ◌++◌};
ghost use Rattle.apd_record.specs.Ranges.{IsChange, AreChanges};
ghost use Rattle.apd_record.specs.Record.{record_of, records_of};
ghost use Rattle.apd_record.specs.declared.change.Change.{Change};

/// No record begins another: where bytes begin with the records of two changes, the changes are one,
/// and the same bytes are behind them. So where one record ends and the next begins is never in doubt.
pub fn no_record_begins_another()
    ensures { (x y : Change) (behind_x behind_y : List ℕ) → IsChange x → IsChange y
        → record_of x ++ behind_x ≡ record_of y ++ behind_y → (x ≡ y) × (behind_x ≡ behind_y) }
{}

/// Bytes are the records of one list of changes at most, in one order.
pub fn records_are_read_in_one_way()
    ensures { (xs ys : List Change) → AreChanges xs → AreChanges ys → records_of xs ≡ records_of ys → xs ≡ ys }
{}
