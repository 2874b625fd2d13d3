//! Whether the name of a store is still that of the file that is served, whether that has a store's length, and whether it
//! answers.
ghost use Rattle.std.specs.Prelude.{◌≡◌, ◌≢◌, ◌↔◌, Some, None};
ghost use Rattle.apd_base.specs.declared.limits.TheConstants.{DEVICE_LENGTH};

use crate::elsewhere::Elsewhere;
use crate::identity::Identity;
use crate::notices::{tell_failed_call, tell_fate, tell_length};
use crate::unanswered::Unanswered;
use crate::watched_file::FileState;
use apd_base::limits::DEVICE_LENGTH;
use log::Log;
use std::fs::{File, TryLockError, metadata};
use std::io::{self, ErrorKind};
use std::os::unix::fs::MetadataExt;
use std::rt::Files;
use std::sync::{Condvar, CondvarTimeouts, Mutex, Wait};
use std::time::{Clock, Duration};

/// How long it is from one look at the calls of a store to the next, in milliseconds.
const PAUSE: u64 = 250;

/// How many of these looks there are between two at all else.
const BETWEEN: u32 = 3;

/// What became of a file that is open.
#[derive(Clone, Copy, Debug, PartialEq, Eq)]
pub(crate) enum Fate {
    /// Its name is its own.
    Named,
    /// It has no name any more, and goes with the last process that has it open.
    Removed,
    /// It has a name, and this one is another file's, or no file's.
    Replaced,
}

// What became of an open file that has so many names, where a name means this one.
fn fate_of(served: Identity, names: u64, named: Option<Identity>) -> Fate
    ensures removed { (result ≡ Fate.Removed) ↔ (names ≡ 0) }
    ensures named { names ≢ 0 → ((result ≡ Fate.Named) ↔ (named ≡ Some served)) }
{
    if names == 0 {
        return Fate::Removed;
    }
    match named {
        Some(named) if named.is_same(served) => Fate::Named,
        _ => Fate::Replaced,
    }
}

/// A length, in bytes, that is no store's.
#[derive(Clone, Copy, Debug, PartialEq, Eq)]
pub(crate) enum Misfit {
    /// It is less.
    Cut(u64),
    /// It is more.
    Grown(u64),
}

// How a file of this length misfits as a store.
fn misfit_of(length: u64) -> Option<Misfit>
    ensures { (result ≡ None) ↔ (length ≡ DEVICE_LENGTH) }
{
    if length < DEVICE_LENGTH {
        Some(Misfit::Cut(length))
    } else if length > DEVICE_LENGTH {
        Some(Misfit::Grown(length))
    } else {
        None
    }
}

// Whether bytes of it are gone.
fn is_cut(misfit: Misfit) -> bool {
    match misfit {
        Misfit::Cut(_) => true,
        Misfit::Grown(_) => false,
    }
}

// Whether such a fault says that a name is no file's.
fn is_none_there(kind: ErrorKind) -> bool {
    kind == ErrorKind::NotFound || kind == ErrorKind::NotADirectory
}

/// The file of a store, the name under which it was opened, and what was told of it.
#[derive(Drop)]
pub struct StoreWatch<'a> {
    name: &'a str,
    file: File,
    state: FileState,
    fate_told: bool,
    misfit_told: bool,
    failed_told: bool,
    unanswered: Unanswered,
}

impl<'a> StoreWatch<'a> {
    /// Opens the file of a name, which is locked, to look at it alone. Where it is lost, that is noted there.
    ///
    /// Errors: `NotFound` where nobody holds its lock: it is another file than the one that was opened and locked under
    /// this name. Else the system's own.
    pub(crate) fn open(
        files: &impl Files<File = File>,
        name: &'a str,
        state: FileState,
    ) -> io::Result<StoreWatch<'a>> {
        let file = File::open(files, name)?;
        match file.try_lock_shared() {
            Err(TryLockError::WouldBlock) => Ok(StoreWatch {
                name,
                file,
                state,
                fate_told: false,
                misfit_told: false,
                failed_told: false,
                unanswered: Unanswered::new(),
            }),
            Err(TryLockError::Error(error)) => Err(error),
            Ok(()) => Err(ErrorKind::NotFound.into()),
        }
    }

    // What became of it, as far as the system tells.
    fn fate(&self, files: &impl Files<File = File>) -> io::Result<Fate> {
        let open = self.file.metadata()?;
        let named = match metadata(files, self.name) {
            Ok(named) => Some(Identity::of(&named)),
            Err(error) if is_none_there(error.kind()) => None,
            Err(error) => return Err(error),
        };
        Ok(fate_of(Identity::of(&open), open.nlink(), named))
    }

    // How its length misfits, as far as the system tells.
    fn misfit(&self) -> Option<Misfit> {
        let open = self.file.metadata().ok()?;
        misfit_of(open.len())
    }

    // Looks at its name and its length. What is otherwise than at first is told once, and but for a file that grew, it is
    // noted as lost; what the system doesn't tell is asked again.
    fn look<W: Files<File = File> + Log>(&mut self, rt: &W) {
        if !self.fate_told
            && let Ok(fate) = self.fate(rt)
            && fate != Fate::Named
        {
            self.state.note_lost();
            tell_fate(rt, self.name, fate);
            self.fate_told = true;
        }
        if !self.misfit_told
            && let Some(misfit) = self.misfit()
        {
            if is_cut(misfit) {
                self.state.note_lost();
            }
            tell_length(rt, self.name, misfit);
            self.misfit_told = true;
        }
    }

    // Looks at its calls. Which one failed first is told once, and so is one that has no answer for long, and that it was
    // answered.
    fn look_at_calls<W: Clock + Log>(&mut self, rt: &W) {
        self.unanswered.look(rt, self.state.unanswered());
        if !self.failed_told
            && let Some(failed) = self.state.failed_call()
        {
            tell_failed_call(rt, self.name, failed);
            self.failed_told = true;
        }
    }
}

/// Whether what is watched has ended, and what wakes the one who watches it.
#[derive(Drop)]
pub struct Ending {
    ended: Mutex<bool>,
    changed: Condvar,
}

impl Ending {
    /// It goes on.
    pub fn new() -> Ending {
        Ending {
            ended: Mutex::new(false),
            changed: Condvar::new(),
        }
    }

    /// It has ended.
    pub fn end(&self, rt: &impl Wait) {
        *self.ended.lock(rt) = true;
        self.changed.notify_all();
    }

    // Whether it ends before this time is over.
    fn wait_for_end<W: Wait + Clock>(&self, rt: &W, time: Duration) -> bool {
        let (ended, _timed_out) = self
            .changed
            .wait_timeout_while(rt, self.ended.lock(rt), time, |ended| !*ended);
        *ended
    }
}

/// Looks about once a second at the file of a store, and at what came from elsewhere, until it ends; and at the calls of
/// that file four times.
pub fn watch<W: Files<File = File> + Wait + Clock + Log>(
    rt: &W,
    store: &mut StoreWatch<'_>,
    elsewhere: &mut Elsewhere,
    ending: &Ending,
) {
    let mut rest = BETWEEN;
    for _ in rt.forever() {
        let ended = ending.wait_for_end(rt, Duration::from_millis(PAUSE));
        store.look_at_calls(rt);
        if ended {
            return;
        }
        if rest > 0 {
            rest -= 1;
        } else {
            store.look(rt);
            elsewhere.look(rt);
            rest = BETWEEN;
        }
    }
}
