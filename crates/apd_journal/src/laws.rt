//! What a store may rely on: each law is the contract of a function that does nothing.
ghost use Rattle.std.specs.Prelude.{◌≡◌, ◌≢◌, ◌<◌, ◌≤◌, ◌+◌, ◌^◌, ℕ, List, [], ◌∷◌, ◌++◌, length, take, slice_index};
ghost use Rattle.apd_disk.specs.Disk.{with_bytes};
ghost use Rattle.apd_journal.specs.Half.{HalfHolds, IsGroup, begun_bytes, planned_bytes};
ghost use Rattle.apd_record.specs.Ranges.{AreChanges};
ghost use Rattle.apd_record.specs.Record.{records_of};
ghost use Rattle.apd_record.specs.declared.change.Change.{Change};

/// A half holds one list of changes at most, under one epoch, and its closed gate is at one place.
pub fn a_half_is_read_in_one_way()
    ensures { (half : List ℕ) (e f : ℕ) (xs ys : List Change) (p q : ℕ) → HalfHolds half e xs p → HalfHolds half f ys q
        → (e ≡ f) × (xs ≡ ys) × (p ≡ q) }
{}

/// A group is read from the moment on at which its gate is opened. Before that the half holds what it
/// held, whatever stands behind the gate, and whatever is at the gate but 1.
pub fn an_opened_group_is_read()
    ensures closed { (half other : List ℕ) (epoch : ℕ) (changes : List Change) (place : ℕ)
        → HalfHolds half epoch changes place
        → take place other ≡ take place half → place < length other → slice_index other place ≢ 1
        → HalfHolds other epoch changes place }
    ensures opened { (half : List ℕ) (epoch : ℕ) (changes group : List Change) (place : ℕ)
        → HalfHolds half epoch changes place
        → IsGroup group → place + length (records_of group) + 6 ≤ length half
        → HalfHolds (with_bytes (with_bytes half (place + 1) (planned_bytes group)) place (1 ∷ [])) epoch
        (changes ++ group) (place + 5 + length (records_of group)) }
{}

/// A half that begins anew is read from the moment on at which its gate is opened: it holds its snapshot and
/// no group yet, under its epoch, and its closed gate is right behind the snapshot. It is long enough for
/// both gates.
pub fn an_opened_half_is_read()
    ensures { (half : List ℕ) (epoch : ℕ) (snapshot : List Change) → epoch < 2 ^ 64 → AreChanges snapshot
        → length (records_of snapshot) < 2 ^ 32 → length (records_of snapshot) + 14 ≤ length half
        → HalfHolds (with_bytes (with_bytes half 1 (begun_bytes epoch snapshot)) 0 (1 ∷ [])) epoch snapshot
        (13 + length (records_of snapshot)) }
{}
