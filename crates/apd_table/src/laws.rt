//! Association identifiers go round: each law is the contract of a function that does nothing.
ghost use Rattle.std.specs.Prelude.{◌≡◌, ◌↔◌, ℕ};
ghost use Rattle.apd_base.specs.State.{State};
ghost use Rattle.apd_base.specs.declared.address.Bssid.{Bssid};
ghost use Rattle.apd_table.specs.LeastFree.{IsFree, IsNextFree, last_given};

/// A BSSID has an identifier to give next exactly where one from 1 to 2007 is free.
pub fn one_is_next_where_one_is_free()
    ensures { (s : State) (b : Bssid) → ((i : ℕ) × IsNextFree s b i) ↔ ((i : ℕ) × IsFree s b i) }
{}

/// The next identifier is from 1 to 2007, and no station of the BSSID has it.
pub fn the_next_is_free()
    ensures { (s : State) (b : Bssid) (i : ℕ) → IsNextFree s b i → IsFree s b i }
{}

/// The identifier that was given last is next only where no other is free.
pub fn the_last_given_waits_for_all_others()
    ensures { (s : State) (b : Bssid) (i : ℕ) → IsNextFree s b i → i ≡ last_given s b
        → (j : ℕ) → IsFree s b j → j ≡ i }
{}

/// No two identifiers are next at once.
pub fn only_one_is_next()
    ensures { (s : State) (b : Bssid) (i j : ℕ) → IsNextFree s b i → IsNextFree s b j → i ≡ j }
{}
