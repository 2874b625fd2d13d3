//! Which radios are up, as it was noted.
ghost use Rattle.std.specs.Prelude.{◌≡◌, ◌≢◌, ◌⊎◌, None, false};
ghost use Rattle.std.specs.List.{find, position};
ghost use Rattle.std.specs.Option.{option_copied};
ghost use Rattle.apd_base.specs.declared.address.Bssid.{Bssid as Address};
ghost use Rattle.apd_desk.specs.RadioNotes.{is_for, is_note_of, is_noted_up};

use apd_base::Bssid;
use apd_base::limits::MAX_BSS;

// Whether a place's note is of a BSSID.
fn is_note_of(place: &Option<(Bssid, bool)>, bssid: Bssid) -> bool
    ensures { result ≡ is_note_of bssid place.now }
{
    match place {
        Some((other, _)) => bssid.cmp(other).is_eq(),
        None => false,
    }
}

// Whether a BSSID may be noted at a place: it is free, or has a note of it.
fn is_for(place: &Option<(Bssid, bool)>, bssid: Bssid) -> bool
    ensures { result ≡ is_for bssid place.now }
{
    match place {
        Some((other, _)) => bssid.cmp(other).is_eq(),
        None => true,
    }
}

// The first place at which a BSSID may be noted.
fn place_for(noted: &[Option<(Bssid, bool)>], bssid: Bssid) -> Option<usize>
    ensures { result ≡ position (is_for bssid) noted.now }
{
    noted.iter().position(|place| is_for(place, bssid))
}

// The first note of a BSSID.
fn note_of(noted: &[Option<(Bssid, bool)>], bssid: Bssid) -> Option<&Option<(Bssid, bool)>>
    ensures { option_copied result ≡ find (is_note_of bssid) noted.now }
{
    noted.iter().find(|place| is_note_of(place, bssid))
}

/// Whether the radio of a BSSID is up, for as many BSSIDs as there may be. Further ones are not noted.
#[derive(Clone, Copy, Debug)]
pub(crate) struct Notes {
    noted: [Option<(Bssid, bool)>; MAX_BSS],
}

impl Notes {
    /// Nothing is noted.
    pub(crate) fn new() -> Notes
        ensures { (bssid : Address) → is_noted_up result.noted bssid ≡ false }
    {
        Notes {
            noted: [None; MAX_BSS],
        }
    }

    /// Notes it, over what was noted of the BSSID; nothing where eight others are noted.
    pub(crate) fn note(&mut self, bssid: Bssid, up: bool)
        ensures own { (is_noted_up self.new.noted bssid ≡ up) ⊎ (position (is_for bssid) self.old.noted ≡ None) }
        ensures others { (other : Address) → other ≢ bssid
            → is_noted_up self.new.noted other ≡ is_noted_up self.old.noted other }
    {
        if let Some(place) = place_for(&self.noted, bssid) {
            self.noted[place] = Some((bssid, up));
        }
    }

    /// What was noted last; a BSSID of which nothing was noted is not up.
    pub(crate) fn is_up(&self, bssid: Bssid) -> bool
        ensures { result ≡ is_noted_up self.now.noted bssid }
    {
        match note_of(&self.noted, bssid) {
            Some(Some((_, up))) => *up,
            Some(None) | None => false,
        }
    }
}
