// What no clause says: that calls succeed where memory is ample, what a real file does, and printed text.
use crate::common::{write_bytes, write_inside};
use crate::expect::{expect, expect_text};
use apd_base::limits::DEVICE_LENGTH;
use apd_disk::{Call, Disk, DiskFault, FileDisk, FuseDisk, MemDisk, OnceDisk, Torn};
use std::alloc::Global;
use std::fs::{self, File};
use std::io::ErrorKind;
use std::os::unix::fs::PermissionsExt;
use std::process::Abort;
use std::rt::Files;

#[test]
fn a_fault_prints_its_text(rt: HostRuntime) {
    expect_text(&rt, rt.alloc(), &DiskFault, "device fault");
}

// A disk of these bytes.
fn disk_of(rt: &impl Abort, alloc: Global, bytes: &[u8]) -> MemDisk {
    let bytes = Vec::from_slice(alloc, bytes).expect(rt, "memory");
    MemDisk::new(alloc, bytes).expect(rt, "memory")
}

// Two bytes that are synced, and behind them two writes that overlap.
fn write_thrice<D: Disk>(rt: &impl Abort, disk: &mut D) {
    write_bytes(rt, disk, 1, &[21, 22]);
    write_inside(rt, disk, 2, &[32, 33]);
    write_inside(rt, disk, 3, &[43, 44]);
}

// Where the last call wrote.
fn last_write(disk: &MemDisk) -> Option<usize> {
    match disk.calls().last() {
        Some(Call::Write(at, _bytes)) => Some(*at),
        _ => None,
    }
}

// What a disk with them is after a crash.
fn expect_crash(rt: &impl Abort, alloc: Global, torn: Torn, want: &[u8]) {
    let mut disk = disk_of(rt, alloc, &[10, 11, 12, 13, 14, 15, 16, 17]);
    write_thrice(rt, &mut disk);
    expect(rt, last_write(&disk), Some(3));
    let stopped = disk.crash(torn);
    let found = (torn, stopped.bytes(), stopped.calls().len());
    expect(rt, found, (torn, want, 0));
}

const CRASHES: &[(Torn, &[u8])] = &[
    (Torn::Old, &[10, 21, 22, 13, 14, 15, 16, 17]),
    (Torn::New, &[10, 21, 32, 43, 44, 15, 16, 17]),
    (Torn::Byte(0x7f), &[10, 21, 0x7f, 0x7f, 0x7f, 15, 16, 17]),
];

#[test]
fn a_crash_of_each_kind(rt: HostRuntime) {
    for (torn, want) in CRASHES {
        expect_crash(&rt, rt.alloc(), *torn, want);
    }
}

// The disk after one more write of a byte, and a crash, which leaves these bytes.
fn write_and_crash(
    rt: &impl Abort,
    disk: MemDisk,
    (at, byte): (usize, u8),
    torn: Torn,
    want: &[u8],
) -> MemDisk {
    let mut disk = disk;
    write_inside(rt, &mut disk, at, &[byte]);
    let stopped = disk.crash(torn);
    expect(rt, stopped.bytes(), want);
    stopped
}

#[test]
fn a_crash_after_a_first_write_and_after_a_crash(rt: HostRuntime) {
    let disk = disk_of(&rt, rt.alloc(), &[10, 11]);
    let disk = write_and_crash(&rt, disk, (0, 20), Torn::Old, &[10, 11]);
    let _disk = write_and_crash(&rt, disk, (1, 21), Torn::New, &[10, 21]);
}

// Whether a read of the first byte succeeds.
fn reads<D: Disk>(rt: &impl Abort, disk: &mut D) -> bool {
    assert!(rt; 1 <= disk.len());
    disk.read_at(0, &mut [0]).is_ok()
}

// Whether a write of a byte succeeds.
fn writes<D: Disk>(rt: &impl Abort, disk: &mut D, at: usize, byte: u8) -> bool {
    assert!(rt; at < disk.len());
    disk.write_at(at, &[byte]).is_ok()
}

// Whether a sync succeeds.
fn syncs<D: Disk>(disk: &mut D) -> bool {
    disk.sync().is_ok()
}

// Five calls, and whether each succeeded.
fn commit<D: Disk>(rt: &impl Abort, disk: &mut D) -> [bool; 5] {
    let read = reads(rt, disk);
    let first = writes(rt, disk, 1, 7);
    let synced = syncs(disk);
    let second = writes(rt, disk, 0, 8);
    [read, first, synced, second, syncs(disk)]
}

// Whether each of ten calls succeeds.
type Ten = [[bool; 5]; 2];

// Makes ten calls.
fn commit_twice<D: Disk>(rt: &impl Abort, disk: &mut D) -> Ten {
    let first = commit(rt, disk);
    [first, commit(rt, disk)]
}

// The first so many of ten calls succeed.
fn first_ones(n: u64) -> Ten {
    [
        [0 < n, 1 < n, 2 < n, 3 < n, 4 < n],
        [5 < n, 6 < n, 7 < n, 8 < n, 9 < n],
    ]
}

// All of ten calls succeed but the one of this number.
fn all_but(n: u64) -> Ten {
    [
        [0 != n, 1 != n, 2 != n, 3 != n, 4 != n],
        [5 != n, 6 != n, 7 != n, 8 != n, 9 != n],
    ]
}

// How many of five calls succeed.
fn count(five: &[bool; 5]) -> usize {
    let mut count = 0usize;
    for succeeds in five {
        if *succeeds {
            count = count.saturating_add(1);
        }
    }
    count
}

// A disk of two zeros.
fn two_zeros(rt: &impl Abort, alloc: Global) -> MemDisk {
    disk_of(rt, alloc, &[0, 0])
}

// With memory to spare each call is served. It says more where an allocation fails (`rt try --test --fail-alloc N`):
// the call that could not be recorded is counted, and left bytes and record as they were.
#[test]
fn a_call_that_is_refused_memory_does_nothing(rt: HostRuntime) {
    let mut disk = two_zeros(&rt, rt.alloc());
    let [first, second] = commit_twice(&rt, &mut disk);
    let served = count(&first).saturating_add(count(&second));
    let found = (disk.calls().len(), disk.failures() as usize);
    expect(&rt, found, (served, 10usize.saturating_sub(served)));
    let low = if first[3] || second[3] { 8 } else { 0 };
    let high = if first[1] || second[1] { 7 } else { 0 };
    expect(&rt, disk.bytes(), [low, high].as_slice());
}

// Makes ten calls over a fuse behind so many.
fn expect_fuse(rt: &impl Abort, alloc: Global, passes: u64) {
    let mut disk = FuseDisk::new(two_zeros(rt, alloc), passes);
    let found = (commit_twice(rt, &mut disk), disk.failures());
    let served = disk.into_inner().calls().len() as u64;
    let refused = 10u64.saturating_sub(passes);
    expect(rt, found, (first_ones(passes), refused));
    expect(rt, served, passes.saturating_add(1));
}

#[test]
fn a_fuse_at_each_of_ten_calls(rt: HostRuntime) {
    for passes in 0..10u64 {
        expect_fuse(&rt, rt.alloc(), passes);
    }
}

// Makes ten calls of which one fails, behind so many.
fn expect_once(rt: &impl Abort, alloc: Global, before: u64) {
    let mut disk = OnceDisk::new(two_zeros(rt, alloc), before);
    let found = (commit_twice(rt, &mut disk), disk.failures());
    expect(rt, found, (all_but(before), 1));
    let inner = disk.into_inner();
    let left = (inner.calls().len(), inner.bytes());
    expect(rt, left, (9, [8, 7].as_slice()));
}

#[test]
fn a_chosen_call_fails_once(rt: HostRuntime) {
    for before in 0..10u64 {
        expect_once(&rt, rt.alloc(), before);
    }
}

// Makes an empty folder of this name.
fn make_folder(rt: &(impl Abort + Files + AllocGlobal), folder: &str) {
    let _ = fs::remove_dir_all(rt, folder);
    fs::create_dir(rt, folder).expect(rt, "a new folder");
}

fn remove_folder(rt: &(impl Abort + Files + AllocGlobal), folder: &str) {
    fs::remove_dir_all(rt, folder).expect(rt, "a folder that can be removed");
}

// Makes these the bytes of the file of a name.
fn write_file(rt: &(impl Abort + Files<File = File>), file: &str, bytes: &[u8]) {
    fs::write(rt, file, bytes).expect(rt, "a file that can be written");
}

fn remove_file(rt: &(impl Abort + Files<File = File>), file: &str) {
    fs::remove_file(rt, file).expect(rt, "a file that can be removed");
}

// Why a file can't be made.
fn create_refusal(
    files: &(impl Files<File = File> + AllocGlobal),
    path: &str,
) -> Option<ErrorKind> {
    Some(FileDisk::create(files, path).err()?.kind())
}

// Why a file can't be opened.
fn refusal(files: &impl Files<File = File>, path: &str) -> Option<ErrorKind> {
    Some(FileDisk::open(files, path).err()?.kind())
}

// Why a file can't be opened to read.
fn read_refusal(files: &impl Files<File = File>, path: &str) -> Option<ErrorKind> {
    Some(FileDisk::open_to_read(files, path).err()?.kind())
}

// A new file.
fn create(rt: &(impl Abort + Files<File = File> + AllocGlobal), path: &str) -> FileDisk {
    FileDisk::create(rt, path).expect(rt, "a new file")
}

fn open(rt: &(impl Abort + Files<File = File>), path: &str) -> FileDisk {
    FileDisk::open(rt, path).expect(rt, "a file that is opened")
}

fn open_to_read(rt: &(impl Abort + Files<File = File>), path: &str) -> FileDisk {
    FileDisk::open_to_read(rt, path).expect(rt, "a file that is opened to read")
}

// Expects so many files in a folder.
fn expect_count(
    rt: &(impl Abort + Files<File = File> + AllocGlobal + Clone),
    folder: &str,
    want: usize,
) {
    let files = fs::read_dir(rt, folder).expect(rt, "a folder");
    expect(rt, files.count(), want);
}

// Expects these bytes in a file.
fn expect_file(rt: &(impl Abort + Files<File = File> + AllocGlobal), path: &str, want: &[u8]) {
    let bytes = fs::read(rt, path).expect(rt, "a file");
    expect(rt, bytes.as_slice(), want);
}

// Reads bytes, which have to lie inside the disk.
fn read_inside<D: Disk>(rt: &impl Abort, disk: &mut D, at: usize, bytes: &mut [u8]) {
    let length = disk.len();
    assert!(rt; at <= length);
    assert!(rt; bytes.len() <= length - at);
    disk.read_at(at, bytes).expect(rt, "a read");
}

// Expects these bytes at a place of a disk that has so many in all.
pub(crate) fn expect_bytes<D: Disk>(
    rt: &(impl Abort + AllocGlobal),
    disk: &mut D,
    (length, at): (usize, usize),
    want: &[u8],
) {
    expect(rt, disk.len(), length);
    let mut bytes = vec![in rt.alloc(); 0u8; want.len()].expect(rt, "memory");
    read_inside(rt, disk, at, &mut bytes);
    expect(rt, bytes.as_slice(), want);
}

// Makes a store in a folder, writes its last bytes, and tries to open it once more.
fn make_store(
    rt: &(impl Abort + Files<File = File> + AllocGlobal + Clone),
    folder: &str,
    store: &str,
) {
    let mut disk = create(rt, store);
    expect_count(rt, folder, 1);
    write_bytes(rt, &mut disk, 2_097_213, b"end");
    expect(rt, refusal(rt, store), Some(ErrorKind::WouldBlock));
    expect(rt, disk.failures(), 0);
}

// Opens it, and reads them.
fn read_store(rt: &(impl Abort + Files<File = File> + AllocGlobal), store: &str) {
    let mut disk = open(rt, store);
    expect(rt, disk.len() as u64, DEVICE_LENGTH);
    expect_bytes(rt, &mut disk, (2_097_216, 2_097_211), b"\0\0end");
    expect(rt, disk.failures(), 0);
}

#[test]
fn a_file_is_made_closed_opened_and_read(rt: HostRuntime) {
    let folder = "disk_made";
    let store = "disk_made/store";
    make_folder(&rt, folder);
    make_store(&rt, folder, store);
    read_store(&rt, store);
    remove_folder(&rt, folder);
}

#[test]
fn a_file_that_is_there_is_not_made_anew(rt: HostRuntime) {
    let folder = "disk_there";
    let store = "disk_there/store";
    make_folder(&rt, folder);
    write_file(&rt, store, b"a store");
    let refused = create_refusal(&rt, store);
    expect(&rt, refused, Some(ErrorKind::AlreadyExists));
    expect_file(&rt, store, b"a store");
    expect_count(&rt, folder, 1);
    remove_folder(&rt, folder);
}

// The length of a new store.
fn created_length(rt: &(impl Abort + Files<File = File> + AllocGlobal), store: &str) -> u64 {
    create(rt, store).len() as u64
}

// As where `create` was killed.
#[test]
fn a_file_left_under_a_temporary_name_is_left_alone(rt: HostRuntime) {
    let folder = "disk_left";
    let left = "disk_left/store.new0";
    make_folder(&rt, folder);
    write_file(&rt, left, b"zeros");
    let length = created_length(&rt, "disk_left/store");
    expect(&rt, length, DEVICE_LENGTH);
    expect_file(&rt, left, b"zeros");
    expect_count(&rt, folder, 2);
    remove_folder(&rt, folder);
}

// Why a file that is opened can't be opened once more.
fn second_refusal(rt: &(impl Abort + Files<File = File>), file: &str) -> Option<ErrorKind> {
    let _disk = open(rt, file);
    refusal(rt, file)
}

#[test]
fn a_file_is_opened_by_one_alone(rt: HostRuntime) {
    let file = "disk_locked";
    write_file(&rt, file, b"12345");
    let second = second_refusal(&rt, file);
    expect(&rt, second, Some(ErrorKind::WouldBlock));
    expect(&rt, refusal(&rt, file), None);
    remove_file(&rt, file);
}

#[test]
fn a_write_stands_at_its_place_for_another_reader(rt: HostRuntime) {
    let file = "disk_written";
    write_file(&rt, file, b"0123456789");
    let mut disk = open(&rt, file);
    expect(&rt, disk.len(), 10);
    write_bytes(&rt, &mut disk, 3, b"ab");
    expect_file(&rt, file, b"012ab56789");
    remove_file(&rt, file);
}

// Cuts a file behind three bytes.
fn cut(rt: &(impl Abort + Files<File = File>), file: &str) {
    let opened = File::options().write(true).open(rt, file);
    let cut = opened.expect(rt, "a file").set_len(3);
    cut.expect(rt, "a file that can be cut");
}

// Expects that a read of four bytes fails, and is counted.
fn expect_fault<D: Disk>(rt: &impl Abort, disk: &mut D) {
    assert!(rt; disk.len() == 5);
    let answer = disk.read_at(1, &mut [0; 4]);
    expect(rt, (answer, disk.failures()), (Err(DiskFault), 1));
}

// Opens a file, cuts it, and reads past its end.
fn read_cut(rt: &(impl Abort + Files<File = File> + AllocGlobal), file: &str) {
    let mut disk = open(rt, file);
    cut(rt, file);
    expect_fault(rt, &mut disk);
}

// Expects this length of a file.
fn expect_length(rt: &(impl Abort + Files<File = File>), file: &str, length: usize) {
    expect(rt, open(rt, file).len(), length);
}

#[test]
fn a_file_that_is_cut_empty_missing_or_a_folder(rt: HostRuntime) {
    let folder = "disk_short";
    let store = "disk_short/store";
    make_folder(&rt, folder);
    expect(&rt, refusal(&rt, store), Some(ErrorKind::NotFound));
    expect(&rt, refusal(&rt, folder), Some(ErrorKind::IsADirectory));
    write_file(&rt, store, b"");
    expect_length(&rt, store, 0);
    write_file(&rt, store, b"12345");
    read_cut(&rt, store);
    remove_folder(&rt, folder);
}

// Expects this of who may do what with a file.
fn expect_mode(rt: &(impl Abort + Files<File = File>), path: &str, mode: u32) {
    let found = fs::metadata(rt, path).expect(rt, "a file");
    expect(rt, found.permissions().mode() & 0o777, mode);
}

fn set_mode(rt: &(impl Abort + Files<File = File>), path: &str, mode: u32) {
    let set = fs::set_permissions(rt, path, PermissionsExt::from_mode(mode));
    set.expect(rt, "a mode that can be set");
}

// Opens a file, and syncs it.
fn sync_file(rt: &(impl Abort + Files<File = File>), path: &str) {
    open(rt, path).sync().expect(rt, "a sync");
}

#[test]
fn a_new_file_is_its_owners_alone_and_another_keeps_its_mode(rt: HostRuntime) {
    let folder = "disk_modes";
    let store = "disk_modes/store";
    make_folder(&rt, folder);
    drop(create(&rt, store));
    expect_mode(&rt, store, 0o600);
    set_mode(&rt, store, 0o640);
    sync_file(&rt, store);
    expect_mode(&rt, store, 0o640);
    remove_folder(&rt, folder);
}

// Writes a byte, syncs it, and reads it among its neighbours, three times.
fn read_behind_syncs<D: Disk>(rt: &(impl Abort + AllocGlobal), disk: &mut D) {
    for (new, want) in NEIGHBOURS {
        write_bytes(rt, disk, 3, new);
        expect_bytes(rt, disk, (10, 2), want);
    }
    expect(rt, disk.failures(), 0);
}

const NEIGHBOURS: &[(&[u8], &[u8])] = &[(b"a", b"2a45"), (b"b", b"2b45"), (b"c", b"2c45")];

// The first sync drops the file's pages, and the second doesn't. What a read gives stays.
#[test]
fn a_read_gives_the_same_after_each_sync(rt: HostRuntime) {
    let file = "disk_pages";
    write_file(&rt, file, b"0123456789");
    let mut disk = open(&rt, file);
    read_behind_syncs(&rt, &mut disk);
    remove_file(&rt, file);
}

// Expects that a write is refused, and counted.
fn expect_read_alone<D: Disk>(rt: &impl Abort, disk: &mut D) {
    expect(rt, disk.failures(), 0);
    assert!(rt; disk.len() == 10);
    let answer = disk.write_at(7, b"ab");
    expect(rt, (answer, disk.failures()), (Err(DiskFault), 1));
}

// Two that are opened to read a file give its bytes; one that is asked to write refuses.
fn read_two(rt: &(impl Abort + Files<File = File> + AllocGlobal), file: &str) {
    let mut disk = open_to_read(rt, file);
    let mut other = open_to_read(rt, file);
    expect(rt, disk.sync(), Ok(()));
    expect_bytes(rt, &mut disk, (10, 7), b"789");
    expect_bytes(rt, &mut other, (10, 0), b"012");
    expect_read_alone(rt, &mut disk);
}

#[test]
fn a_file_is_read_by_two_and_written_by_neither(rt: HostRuntime) {
    let file = "disk_read";
    write_file(&rt, file, b"0123456789");
    set_mode(&rt, file, 0o400);
    read_two(&rt, file);
    expect_file(&rt, file, b"0123456789");
    remove_file(&rt, file);
}

#[test]
fn who_reads_keeps_a_writer_out_and_the_other_way_round(rt: HostRuntime) {
    let file = "disk_shared";
    let held = Some(ErrorKind::WouldBlock);
    write_file(&rt, file, b"12345");
    let reader = open_to_read(&rt, file);
    expect(&rt, refusal(&rt, file), held);
    drop(reader);
    let writer = open(&rt, file);
    expect(&rt, read_refusal(&rt, file), held);
    drop(writer);
    expect(&rt, read_refusal(&rt, file), None);
    remove_file(&rt, file);
}

#[test]
fn a_file_that_cannot_be_synced_is_read_all_the_same(rt: HostRuntime) {
    let mut disk = open_to_read(&rt, "/proc/version");
    let answer = disk.sync();
    expect(&rt, (answer, disk.failures()), (Ok(()), 0));
}

const IRREGULAR: &[(&str, ErrorKind)] = &[
    ("disk_regular/store", ErrorKind::NotFound),
    ("disk_regular", ErrorKind::InvalidInput),
    ("/dev/null", ErrorKind::InvalidInput),
];

#[test]
fn only_a_regular_file_is_opened_to_read(rt: HostRuntime) {
    let folder = "disk_regular";
    make_folder(&rt, folder);
    for (path, fault) in IRREGULAR {
        let found = read_refusal(&rt, path);
        expect(&rt, (*path, found), (*path, Some(*fault)));
    }
    expect_count(&rt, folder, 0);
    remove_folder(&rt, folder);
}
