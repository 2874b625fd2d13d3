//! A file as a disk. What it holds is said by a record of its calls, under the hypothesis that each read gave what was
//! written last.
ghost use Rattle.std.specs.Prelude.{◌≡◌, ◌≤◌, ◌+◌, [], length, true, false, IsErr, IfOk, OnOk, OnErr};
ghost use Rattle.apd_disk.specs.Disk.{Counts, IsRead, IsSynced, IsWritten};
ghost use Rattle.apd_disk.specs.FileCalls.{synced};
ghost use Rattle.apd_disk.specs.for_proofs.FileLaws.{reads_left, now_since, only_now, since_earlier, since_length};

use crate::fault::fail;
use crate::{DeviceFile, Disk, DiskFault, FileRecord};
use apd_base::limits::DEVICE_LENGTH;
use std::fs::{self, File};
use std::io::{self, ErrorKind, Read};
use std::os::unix::fs::OpenOptionsExt;
use std::path::{AsPath, Path};
use std::rt::Files;

// The calls of a record, as `FileRecord::note` is told of them.
const GAVE: u64 = 0;

const WROTE: u64 = 1;

const TORE: u64 = 2;

const SYNCED: u64 = 3;

const MISSED: u64 = 4;

const LOST: u64 = 5;

/// A file. It holds an advisory lock on it (flock(2)) for as long as it lives, so that no second one opens
/// it. A process that asks for no lock is not kept out, and where one writes the file, a read of that is a lie to its
/// record. Each method makes the call that it notes, of whatever file it stands on (`asked`).
#[derive(Drop)]
pub struct FileDisk<F = File> {
    file: F,
    len: usize,
    failures: u64,
    // Whether it was opened for writing too.
    may_write: bool,
    // Once a sync has failed the system may have dropped what it could not write, and would answer a later
    // one well for nothing.
    sync_failed: bool,
    // Whether the system was told to forget what it holds of the file.
    pages_dropped: bool,
    known: FileRecord,
}

// Nobody but the owner may open a new file: who may only read it could keep its owner out by a lock.
const OWNER_ALONE: u32 = 0o600;

// Real zeros, so that a full file system shows now and not at a later write, and a file with no holes.
fn write_zeros(mut file: &File, length: u64) -> io::Result<()> {
    let written = io::copy(&mut io::repeat(0).take(length), &mut file)?;
    if written != length {
        return Err(ErrorKind::WriteZero.into());
    }
    file.sync_all()
}

// The name of a new file is durable once its folder is.
fn sync_folder(files: &impl Files<File = File>, path: &str) -> io::Result<()> {
    let folder = match Path::new(path).parent() {
        Some(parent) if !parent.path_text().is_empty() => parent,
        _ => Path::new("."),
    };
    File::open(files, folder)?.sync_all()
}

// A new file beside the path, and its name until it is whole. A name that is taken is left alone, as that of a
// file which a kill left behind.
fn create_beside(
    files: &(impl Files<File = File> + AllocGlobal),
    path: &str,
) -> io::Result<(File, String)> {
    for number in 0..u32::MAX {
        let name = format!(in files.alloc(); "{path}.new{number}")?;
        let made = File::options()
            .read(true)
            .write(true)
            .create_new(true)
            .mode(OWNER_ALONE)
            .open(files, name.as_str());
        match made {
            Err(error) if error.kind() == ErrorKind::AlreadyExists => {}
            made => return Ok((made?, name)),
        }
    }
    Err(ErrorKind::AlreadyExists.into())
}

// A link and no renaming, which would replace a file that somebody made meanwhile.
fn give_name(
    files: &impl Files<File = File>,
    file: &File,
    name: &str,
    path: &str,
) -> io::Result<()> {
    file.try_lock()?;
    write_zeros(file, DEVICE_LENGTH)?;
    fs::hard_link(files, name, path)
}

fn fresh<F>(file: F, len: usize, may_write: bool) -> FileDisk<F>
    ensures file { result.file ≡ file }
    ensures fresh { result.known.calls ≡ [] }
    ensures length { result.len ≡ len }
    ensures may_write { result.may_write ≡ may_write }
    ensures failures { result.failures ≡ 0 }
    ensures sync_failed { result.sync_failed ≡ false }
    ensures pages_dropped { result.pages_dropped ≡ false }
{
    FileDisk {
        file,
        len,
        failures: 0,
        may_write,
        sync_failed: false,
        pages_dropped: false,
        known: FileRecord::new(),
    }
}

// `sync_data` and not `sync_all`: the file's length never changes, and its times are not needed. What
// is needed to find its bytes again goes with them (fdatasync(2)). Some file systems can't sync; a disk
// that is only read has written nothing that could be lost there.
fn sync_file<F: DeviceFile>(file: &mut F, may_write: bool) -> io::Result<()>
    ensures { OnOk result (may_write ≡ true → F.answers file.old synced file.new) }
{
    match file.sync_data() {
        Err(error) if !may_write && error.kind() == ErrorKind::InvalidInput => Ok(()),
        synced => synced,
    }
}

impl FileDisk {
    /// Makes a file of the device's length, 2,097,216 bytes, all of them zero and written through, and opens
    /// it. Only its owner may read or write it (mode 0600). Until it is whole and locked it has another name:
    /// the path with `.new` and a number behind it. A kill may leave a file of such a name, which may be
    /// removed.
    ///
    /// Errors: the file system's own, as where it has no hard links; `AlreadyExists` where there is such a
    /// file or folder, which is left alone; `OutOfMemory`. What was made is removed again, if that succeeds.
    pub fn create<P: AsPath>(
        files: &(impl Files<File = File> + AllocGlobal),
        path: P,
    ) -> io::Result<FileDisk>
        ensures fresh { IfOk result (λ d. d.known.calls ≡ []) }
        ensures length { IfOk result (λ d. d.len ≡ DEVICE_LENGTH) }
        ensures may_write { IfOk result (λ d. d.may_write ≡ true) }
        ensures failures { IfOk result (λ d. d.failures ≡ 0) }
        ensures sync_failed { IfOk result (λ d. d.sync_failed ≡ false) }
        ensures pages_dropped { IfOk result (λ d. d.pages_dropped ≡ false) }
    {
        let path = path.path_text();
        if fs::symlink_metadata(files, path).is_ok() {
            return Err(ErrorKind::AlreadyExists.into());
        }
        let (file, name) = create_beside(files, path)?;
        let named = give_name(files, &file, &name, path);
        let _ = fs::remove_file(files, name.as_str());
        named?;
        if let Err(error) = sync_folder(files, path) {
            let _ = fs::remove_file(files, path);
            return Err(error);
        }
        Ok(fresh(file, DEVICE_LENGTH as usize, true))
    }

    /// Opens a file as a disk of the length that it has now. Its mode stays as it is.
    ///
    /// Errors: the file system's own, as `NotFound`, `IsADirectory` or `PermissionDenied`; `InvalidInput`
    /// where it is no regular file; `WouldBlock` where another `FileDisk` holds it.
    pub fn open<P: AsPath>(files: &impl Files<File = File>, path: P) -> io::Result<FileDisk>
        ensures fresh { IfOk result (λ d. d.known.calls ≡ []) }
        ensures may_write { IfOk result (λ d. d.may_write ≡ true) }
        ensures failures { IfOk result (λ d. d.failures ≡ 0) }
        ensures sync_failed { IfOk result (λ d. d.sync_failed ≡ false) }
        ensures pages_dropped { IfOk result (λ d. d.pages_dropped ≡ false) }
    {
        let file = File::options().read(true).write(true).open(files, path)?;
        file.try_lock()?;
        FileDisk::over(file)
    }

    /// Opens a file for reading alone, as a disk of the length that it has now. It takes no leave to write
    /// the file, and each write of the disk is a fault. Several may hold a file in this way at once, and then
    /// nobody can `open` it.
    ///
    /// Errors: the file system's own, as `NotFound` or `PermissionDenied`; `InvalidInput` where it is no
    /// regular file; `WouldBlock` where a `FileDisk` that may write holds it.
    pub fn open_to_read<P: AsPath>(files: &impl Files<File = File>, path: P) -> io::Result<FileDisk>
        ensures fresh { IfOk result (λ d. d.known.calls ≡ []) }
        ensures may_write { IfOk result (λ d. d.may_write ≡ false) }
        ensures failures { IfOk result (λ d. d.failures ≡ 0) }
        ensures sync_failed { IfOk result (λ d. d.sync_failed ≡ false) }
        ensures pages_dropped { IfOk result (λ d. d.pages_dropped ≡ false) }
    {
        let path = path.path_text();
        // Looked at by its name first: to open a FIFO for reading would wait for a writer.
        if !fs::metadata(files, path)?.is_file() {
            return Err(ErrorKind::InvalidInput.into());
        }
        let file = File::open(files, path)?;
        file.try_lock_shared()?;
        FileDisk::over_to_read(file)
    }
}

impl<F: DeviceFile> FileDisk<F> {
    /// A disk over a file of the length that it has now.
    ///
    /// Errors: the file's own, as it tells its length.
    pub fn over(file: F) -> io::Result<FileDisk<F>>
    where
        F: Drop,
        ensures file { IfOk result (λ d. d.file ≡ file) }
        ensures fresh { IfOk result (λ d. d.known.calls ≡ []) }
        ensures may_write { IfOk result (λ d. d.may_write ≡ true) }
        ensures failures { IfOk result (λ d. d.failures ≡ 0) }
        ensures sync_failed { IfOk result (λ d. d.sync_failed ≡ false) }
        ensures pages_dropped { IfOk result (λ d. d.pages_dropped ≡ false) }
    {
        let len = file.length()?;
        Ok(fresh(file, len, true))
    }

    /// The same over a file that is only read: each write of the disk is a fault.
    ///
    /// Errors: the file's own, as it tells its length.
    pub fn over_to_read(file: F) -> io::Result<FileDisk<F>>
    where
        F: Drop,
        ensures file { IfOk result (λ d. d.file ≡ file) }
        ensures fresh { IfOk result (λ d. d.known.calls ≡ []) }
        ensures may_write { IfOk result (λ d. d.may_write ≡ false) }
        ensures failures { IfOk result (λ d. d.failures ≡ 0) }
        ensures sync_failed { IfOk result (λ d. d.sync_failed ≡ false) }
        ensures pages_dropped { IfOk result (λ d. d.pages_dropped ≡ false) }
    {
        let len = file.length()?;
        Ok(fresh(file, len, false))
    }

    /// The file that it stands on, as the calls left it.
    pub fn into_file(self) -> F
        ensures { result ≡ self.file }
    {
        let FileDisk { file, .. } = self;
        file
    }

    /// The same file, with what is known of it. No call may have been made yet.
    pub fn knowing(self, known: FileRecord) -> FileDisk<F>
        requires { self.known.calls ≡ [] }
        ensures { result ≡ record self { known = known } }
    {
        let mut disk = self;
        disk.known = known;
        disk
    }

    // After a sync that failed, the system may keep what it could not write as if it had been written, also for
    // those who open the file later. So that a read comes from the medium, the system is told to forget what it
    // holds.
    fn drop_pages_once(&mut self)
        ensures others { self.new ≡ record self.old { file = self.new.file; pages_dropped = true } }
        ensures told { self.old.pages_dropped ≡ false → F.drops self.old.file self.new.file }
        ensures left_alone { self.old.pages_dropped ≡ true → self.new.file ≡ self.old.file }
    {
        if !self.pages_dropped {
            self.file.drop_pages();
            self.pages_dropped = true;
        }
    }
}

// The clauses of each call are the trait's, and what becomes of the other fields.
impl<F: DeviceFile> Disk for FileDisk<F> {
    ghost use Rattle.apd_disk.specs.DeviceFile.{WasSynced};
    ghost use Rattle.apd_disk.specs.FileCalls.{gave, wrote, missed};
    ghost use Rattle.apd_disk.specs.FileModel.{file_model, noting, noting_tore, noting_lost};

    ghost model = { file_model };

    ghost reads_may_be_left = { λ d h. reads_left d.len d.known.held d.known.calls h };

    ghost counts_now = { λ d t c h le left. now_since d.known.held t d.known.calls c left };

    ghost only_now = { λ d c h left. only_now d.known.held d.known.calls c left };

    ghost since_earlier = { λ d t u c h le left. since_earlier d.known.held t u d.known.calls c le left };

    ghost same_size = { λ d t c h left. since_length d.len d.known.held t d.known.calls c h left };

    fn len(&self) -> usize {
        self.len
    }

    fn failures(&self) -> u64 {
        self.failures
    }

    // Fewer bytes than were asked for, as of a file that was cut, are a fault.
    fn read_at(&mut self, at: usize, buf: &mut [u8]) -> Result<(), DiskFault>
        requires { at + length buf.old ≤ self.old.len }
        ensures count { Counts self.old.failures self.new.failures result }
        ensures call { IsRead file_model self.old self.new result at buf.old buf.new }
        ensures noted { OnOk result (self.new.known ≡ noting (gave at buf.new) self.old.known) }
        ensures missed { OnErr result (self.new.known ≡ noting missed self.old.known) }
        ensures asked { OnOk result (F.answers self.old.file (gave at buf.new) self.new.file) }
        ensures may_write { self.new.may_write ≡ self.old.may_write }
        ensures sync_failed { self.new.sync_failed ≡ self.old.sync_failed }
        ensures pages_dropped { self.new.pages_dropped ≡ self.old.pages_dropped }
    {
        match self.file.read_exact_at(buf, at as u64) {
            Ok(()) => {
                self.known.note(&[GAVE, at as u64], buf);
                Ok(())
            }
            Err(_) => {
                self.known.note(&[MISSED, 0], &[]);
                fail(&mut self.failures)
            }
        }
    }

    // Fewer bytes than were given, as on a full file system, are a fault.
    fn write_at(&mut self, at: usize, bytes: &[u8]) -> Result<(), DiskFault>
        requires { at + length bytes.now ≤ self.old.len }
        ensures count { Counts self.old.failures self.new.failures result }
        ensures call { IsWritten file_model self.old self.new result at bytes.now }
        ensures noted { OnOk result (self.new.known ≡ noting (wrote at bytes.now) self.old.known) }
        ensures torn { OnErr result (self.old.may_write ≡ true
            → self.new.known ≡ noting_tore at (length bytes.now) self.old.known) }
        ensures unasked { self.old.may_write ≡ false → self.new.known ≡ self.old.known }
        ensures refused { self.old.may_write ≡ false → IsErr result }
        ensures asked { OnOk result (F.answers self.old.file (wrote at bytes.now) self.new.file) }
        ensures left_alone { self.old.may_write ≡ false → self.new.file ≡ self.old.file }
        ensures may_write { self.new.may_write ≡ self.old.may_write }
        ensures sync_failed { self.new.sync_failed ≡ self.old.sync_failed }
        ensures pages_dropped { self.new.pages_dropped ≡ self.old.pages_dropped }
    {
        if !self.may_write {
            return fail(&mut self.failures);
        }
        match self.file.write_all_at(bytes, at as u64) {
            Ok(()) => {
                self.known.note(&[WROTE, at as u64], bytes);
                Ok(())
            }
            Err(_) => {
                self.known.note(&[TORE, at as u64], bytes);
                fail(&mut self.failures)
            }
        }
    }

    fn sync(&mut self) -> Result<(), DiskFault>
        ensures count { Counts self.old.failures self.new.failures result }
        ensures call { IsSynced file_model self.old self.new result }
        ensures noted { OnOk result (self.new.known ≡ noting synced self.old.known) }
        ensures lost { OnErr result (self.old.sync_failed ≡ false → self.new.known ≡ noting_lost self.old.known) }
        ensures unasked { self.old.sync_failed ≡ true → self.new.known ≡ self.old.known }
        ensures asked { OnOk result (self.old.may_write ≡ true
            → WasSynced F.answers F.drops self.old.pages_dropped self.old.file self.new.file) }
        ensures left_alone { self.old.sync_failed ≡ true → self.new.file ≡ self.old.file }
        ensures may_write { self.new.may_write ≡ self.old.may_write }
        ensures ok { OnOk result ((self.old.sync_failed ≡ false) × (self.new.sync_failed ≡ false)) }
        ensures err { OnErr result (self.new.sync_failed ≡ true) }
        ensures dropped { OnOk result (self.new.pages_dropped ≡ true) }
    {
        if self.sync_failed {
            return fail(&mut self.failures);
        }
        if sync_file(&mut self.file, self.may_write).is_err() {
            self.sync_failed = true;
            self.known.note(&[LOST, 0], &[]);
            return fail(&mut self.failures);
        }
        self.known.note(&[SYNCED, 0], &[]);
        self.drop_pages_once();
        Ok(())
    }
}
