//! How many stations a BSSID has, and which association identifiers they have.
ghost use Rattle.std.specs.Prelude.{◌≡◌, ℕ, ◌+◌, ◌*◌, ◌/◌, ◌<◌, ◌≤◌, true, false, IfSome, IfNone, slice_index};
ghost use Rattle.std.specs.Int.{bit_at};
ghost use Rattle.std.specs.Option.{is_some};
ghost use Rattle.apd_base.specs.State.{aid_of};
ghost use Rattle.apd_base.specs.declared.limits.TheConstants.{MAX_STATIONS};
ghost use Rattle.apd_table.specs.for_proofs.Members.{AreSet, IsFirstClear, count_after, is_set, members_after, no_members, with_aid, with_place, without_aid, without_place};
ghost use Rattle.apd_table.specs.Rows.{AreMarkedAbove, IsLeastUnmarked};

use apd_base::Station;
use apd_base::limits::MAX_STATIONS;

/// Words of 64 bits: one bit for each identifier from 1 to 2007, in its place. Place 0 is never used, and
/// those from 2008 on are never set.
pub const WORDS: usize = 32;

/// What is kept of a BSSID beside its station rows.
#[derive(Clone, Copy)]
pub struct Members {
    pub count: usize,
    pub words: [u64; WORDS],
}

// The identifier of a station's row.
fn aid_of(station: Option<Station>) -> Option<u16>
    ensures aid { result ≡ aid_of station }
    ensures range { IfSome result (λ aid. aid < 2048) }
{
    match station {
        Some(Station::Associated(association)) => Some(association.aid.number),
        Some(Station::Authenticated) | None => None,
    }
}

fn set(words: &mut [u64; WORDS], aid: u16)
    requires { aid < 2048 }
    ensures { words.new ≡ with_place aid words.old }
{
    words[aid as usize / 64] |= 1 << (aid % 64);
}

fn clear(words: &mut [u64; WORDS], aid: u16)
    requires { aid < 2048 }
    ensures { words.new ≡ without_place aid words.old }
{
    words[aid as usize / 64] &= !(1 << (aid % 64));
}

// Sets the place of a row that comes.
fn set_of(words: &mut [u64; WORDS], station: Option<Station>)
    ensures { words.new ≡ with_aid (aid_of station) words.old }
{
    if let Some(aid) = aid_of(station) {
        set(words, aid);
    }
}

// Clears the place of a row that goes.
fn clear_of(words: &mut [u64; WORDS], station: Option<Station>)
    ensures { words.new ≡ without_aid (aid_of station) words.old }
{
    if let Some(aid) = aid_of(station) {
        clear(words, aid);
    }
}

// The number of rows, where a station had one or not, and has one or not.
fn count_after(had: bool, has: bool, count: usize) -> usize
    requires { count ≤ MAX_STATIONS }
    ensures { result ≡ count_after had has count }
{
    match (had, has) {
        (false, true) => count + 1,
        (true, false) => count.saturating_sub(1),
        (false, false) | (true, true) => count,
    }
}

// The place of the lowest bit that is not set.
fn first_clear(word: u64) -> Option<u32>
    ensures some { IfSome result (λ i. (i < 64) × (bit_at word i ≡ 0) × ((j : ℕ) → j < i → bit_at word j ≡ 1)) }
    ensures none { IfNone result ((j : ℕ) → j < 64 → bit_at word j ≡ 1) }
{
    if word == u64::MAX {
        None
    } else {
        Some(word.trailing_ones())
    }
}

// A word, with the places up to one in it as if they were set.
fn word_above(words: &[u64; WORDS], last: u16, w: usize) -> u64
    requires within { w < WORDS }
    requires from { last / 64 ≤ w }
    ensures others { (j : ℕ) → last < 64 * w + j → bit_at result j ≡ bit_at (slice_index words.now w) j }
    ensures first { (j : ℕ) → j < 64 → 64 * w + j ≤ last → bit_at result j ≡ 1 }
{
    if w == last as usize / 64 {
        words[w] | (u64::MAX >> (63 - last % 64))
    } else {
        words[w]
    }
}

// The first place of a word above one that is not set.
fn free_in(words: &[u64; WORDS], last: u16, w: usize) -> Option<u16>
    requires within { w < WORDS }
    requires from { last / 64 ≤ w }
    ensures some { IfSome result (IsFirstClear words.now last w) }
    ensures none { IfNone result (AreSet words.now last w) }
{
    let bit = first_clear(word_above(words, last, w))?;
    Some(w as u16 * 64 + bit as u16)
}

// An identifier, if it is one.
fn within(aid: u16) -> Option<u16>
    ensures some { IfSome result (λ i. (i ≡ aid) × (i ≤ MAX_STATIONS)) }
    ensures none { IfNone result (MAX_STATIONS < aid) }
{
    if aid as usize <= MAX_STATIONS {
        Some(aid)
    } else {
        None
    }
}

impl Members {
    /// Of a BSSID without stations.
    pub fn none() -> Members
        ensures { result ≡ no_members }
    {
        Members {
            count: 0,
            words: [0; WORDS],
        }
    }

    /// Whether a station has the identifier.
    pub fn has(&self, aid: u16) -> bool
        requires { aid < 2048 }
        ensures { result ≡ is_set self.now.words aid }
    {
        (self.words[aid as usize / 64] >> (aid % 64)) & 1 == 1
    }

    /// Goes along with a change of a station's row, from what it was to what it is.
    pub fn change_row(&mut self, old: Option<Station>, new: Option<Station>)
        requires { self.old.count ≤ MAX_STATIONS }
        ensures { self.new ≡ members_after old new self.old }
    {
        clear_of(&mut self.words, old);
        set_of(&mut self.words, new);
        self.count = count_after(old.is_some(), new.is_some(), self.count);
    }

    /// The least identifier above a number that no station has: the least of all above 0.
    pub fn free_above(&self, last: u16) -> Option<u16>
        requires { last ≤ MAX_STATIONS }
        ensures some { IfSome result (IsLeastUnmarked (is_set self.now.words) last) }
        ensures none { IfNone result (AreMarkedAbove (is_set self.now.words) last) }
    {
        for w in last as usize / 64..WORDS {
            if let Some(aid) = free_in(&self.words, last, w) {
                return within(aid);
            }
        }
        None
    }
}
