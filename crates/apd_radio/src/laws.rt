//! What holds of recordings, and of what a driver is told.
ghost use Rattle.std.specs.Prelude.{◌≡◌, ℕ, List, ◌++◌, Bool, true, false, Option, Some};
ghost use Rattle.std.specs.List.{AllByRecursion};
ghost use Rattle.apd_radio.specs.declared.call.Call.{Call as AnyCall};
ghost use Rattle.apd_radio.specs.Calls.{IsCall, IsLineOf};
ghost use Rattle.apd_base.specs.declared.address.Addr.{Addr as Address};
ghost use Rattle.apd_radio.specs.Drivers.{is_word, install_text, remove_text, map_text, IsUp, IsFaultAt};
ghost use Rattle.apd_radio.specs.Recordings.{RecordsAll, Replays, recording_of, frames_of};

/// A line stands for one call at most.
pub fn one_reading()
    ensures { (line : List ℕ) (a b : AnyCall) → IsLineOf a line → IsLineOf b line → a ≡ b }
{}

/// A recording that has not ended holds what its writer held before, and then the lines of the calls; one
/// that has ended stays as it is.
pub fn whole_recording()
    ensures written { (calls : List AnyCall) (old : List ℕ) (new : Option (List ℕ))
        → RecordsAll false (Some old) calls false new → new ≡ Some (old ++ recording_of calls) }
    ensures stays { (calls : List AnyCall) (ended : Bool) (old new : Option (List ℕ))
        → RecordsAll true old calls ended new → (ended ≡ true) × (new ≡ old) }
{}

/// What `Recording` writes for calls, `Replaying` reads: the frames that were received, and no others.
pub fn round_trip()
    ensures read { (calls : List AnyCall) → AllByRecursion IsCall calls
        → Replays (recording_of calls) (frames_of calls) }
    ensures only { (calls : List AnyCall) → AllByRecursion IsCall calls → (frames : List (List ℕ))
        → Replays (recording_of calls) frames → frames ≡ frames_of calls }
{}

/// Whatever a driver is told of stations, and whatever it says that is heeded, is a word and no frame.
pub fn words_law()
    ensures install { (number aid : ℕ) (addr : Address) → is_word (install_text number addr aid) ≡ true }
    ensures remove { (number : ℕ) (addr : Address) → is_word (remove_text number addr) ≡ true }
    ensures all { (number : ℕ) (stations : List (Address × ℕ)) → is_word (map_text number stations) ≡ true }
    ensures up { (text : List ℕ) → IsUp text → is_word text ≡ true }
    ensures fault { (number : ℕ) (text : List ℕ) → IsFaultAt number text → is_word text ≡ true }
{}
