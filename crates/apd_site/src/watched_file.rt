//! The file of a store, which is not asked any more once it is lost.
ghost use Rattle.std.specs.Prelude.{◌≡◌, [], IfOk, IsOk, OnOk};

use apd_disk::{DeviceFile, FileDisk};
use std::alloc::{AllocError, Global};
use std::fmt::{self, Display, Formatter};
use std::fs::File;
use std::io::{self, ErrorKind};
use std::sync::atomic::Ordering::SeqCst;
use std::sync::atomic::{AtomicBool, AtomicU64};
use std::sync::{Arc, OnceLock};

// What a file is asked for.
#[derive(Clone, Copy, Debug)]
enum Asked {
    Read,
    Write,
    Sync,
}

impl Display for Asked {
    fn fmt<W: fmt::Write>(&self, f: &mut Formatter<W>) -> fmt::Result {
        let word = match self {
            Asked::Read => "read",
            Asked::Write => "write",
            Asked::Sync => "sync",
        };
        f.write_str(word)
    }
}

/// A call that a store's file failed: which, and why.
#[derive(Debug, Drop)]
pub struct FailedCall {
    asked: Asked,
    error: io::Error,
}

impl Display for FailedCall {
    fn fmt<W: fmt::Write>(&self, f: &mut Formatter<W>) -> fmt::Result {
        write!(f, "{}: {}", self.asked, self.error)
    }
}

// Whether a file was lost, its first call that failed, and how often it was asked or answered: a number that is odd while
// it owes an answer. Behind the greatest number comes 0.
#[derive(Drop)]
struct State {
    lost: AtomicBool,
    failed: OnceLock<FailedCall>,
    turns: AtomicU64,
}

/// What becomes of the file of a store: whether it was lost, as it was removed, replaced or cut, which call of it failed
/// first, and which one it has not answered. Threads share it, and none waits for another: a clone is another handle of the
/// same.
#[derive(Clone, Drop)]
pub struct FileState {
    state: Arc<State, Global>,
}

// Takes what threads may share, and nothing else.
fn shareable<T: Send + Sync>(shared: T) -> T
    ensures { result ≡ shared }
{
    shared
}

impl FileState {
    /// It was not lost, and was asked for nothing yet.
    ///
    /// Errors: memory runs out.
    pub fn new(alloc: Global) -> Result<FileState, AllocError> {
        let state = State {
            lost: AtomicBool::new(false),
            failed: OnceLock::new(),
            turns: AtomicU64::new(0),
        };
        Ok(shareable(FileState {
            state: Arc::new(alloc, state)?,
        }))
    }

    /// It was lost.
    pub fn note_lost(&self) {
        self.state.lost.store(true, SeqCst);
    }

    /// The call that it failed first, if there is one.
    pub fn failed_call(&self) -> Option<&FailedCall> {
        self.state.failed.get()
    }

    /// The call that it has not answered, by a number that no other call of its time has.
    pub(crate) fn unanswered(&self) -> Option<u64> {
        let turns = self.state.turns.load(SeqCst);
        if turns % 2 == 1 { Some(turns) } else { None }
    }

    // It is asked for a call from here on.
    //
    // Errors: it was lost, and is not asked.
    fn begin_call(&self) -> io::Result<()> {
        if self.state.lost.load(SeqCst) {
            return Err(ErrorKind::NotFound.into());
        }
        self.state.turns.fetch_add(1, SeqCst);
        Ok(())
    }

    // It answered the call so. Gives that answer; of an error only the kind.
    fn end_call(&self, asked: Asked, answer: io::Result<()>) -> io::Result<()>
        ensures { OnOk result (IsOk answer) }
    {
        self.state.turns.fetch_add(1, SeqCst);
        match answer {
            Ok(()) => Ok(()),
            Err(error) => {
                let kind = error.kind();
                let _first = self.state.failed.try_set(FailedCall { asked, error });
                Err(kind.into())
            }
        }
    }
}

/// A file as it is, until it is lost: from then on each call of it fails, and asks for nothing. The first call that the
/// system refused is kept.
#[derive(Drop)]
pub struct WatchedFile<F = File> {
    file: F,
    state: FileState,
}

/// A disk over the file of a store that is served.
pub type StoreDisk = FileDisk<WatchedFile<File>>;

impl<F: DeviceFile> DeviceFile for WatchedFile<F> {
    ghost answers = { λ old call new. F.answers old.file call new.file };

    ghost drops = { λ old new. F.drops old.file new.file };

    fn read_exact_at(&mut self, buf: &mut [u8], at: u64) -> io::Result<()> {
        self.state.begin_call()?;
        let answer = self.file.read_exact_at(buf, at);
        self.state.end_call(Asked::Read, answer)
    }

    fn write_all_at(&mut self, bytes: &[u8], at: u64) -> io::Result<()> {
        self.state.begin_call()?;
        let answer = self.file.write_all_at(bytes, at);
        self.state.end_call(Asked::Write, answer)
    }

    fn sync_data(&mut self) -> io::Result<()> {
        self.state.begin_call()?;
        let answer = self.file.sync_data();
        self.state.end_call(Asked::Sync, answer)
    }

    fn drop_pages(&mut self) {
        self.file.drop_pages();
    }

    fn length(&self) -> io::Result<usize> {
        self.file.length()
    }
}

/// A disk over the file of another one, of which no call is known yet, until that file is lost.
///
/// Errors: the file's own, as it tells its length.
pub fn watched_disk<F: DeviceFile + Drop>(
    disk: FileDisk<F>,
    state: FileState,
) -> io::Result<FileDisk<WatchedFile<F>>>
    ensures { IfOk result (λ watched. watched.known.calls ≡ []) }
{
    FileDisk::over(WatchedFile {
        file: disk.into_file(),
        state,
    })
}
