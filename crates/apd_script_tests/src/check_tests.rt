//! What a check of a store prints, and of a store with single bytes changed.
use crate::calls::{addresses_of, confs_of_two, new_conf, one_radio, second};
use crate::expect::expect;
use crate::scripts::{JOINS, join};
use crate::worlds::{fresh_store, store_after};
use apd_base::AclMode;
use apd_conf::{Conf, Confs};
use apd_disk::{Call, FuseDisk, MemDisk};
use apd_maintenance::{CheckFault, run_check};
use apd_store::StoreFault;
use std::alloc::Global;
use std::io::{self, Write};
use std::process::Abort;

/// Expects that a check of a device ends so, and prints this.
fn expect_check(
    rt: &impl Abort,
    alloc: Global,
    disk: MemDisk,
    (fault, text): (Option<CheckFault>, &str),
) {
    let mut out = Vec::new(alloc);
    expect(rt, run_check(alloc, disk, &mut out).err(), fault);
    expect(rt, out.as_slice(), text.as_bytes());
}

/// A store of one radio on which a script was run.
fn small_store(rt: &impl Abort, alloc: Global, script: &str) -> MemDisk {
    store_after(rt, alloc, one_radio(rt, alloc), script.as_bytes())
}

/// A configuration with the addresses of these files.
fn listing(rt: &impl Abort, alloc: Global, conf: Conf, accept: &[u8], deny: &[u8]) -> Conf {
    let mut conf = conf;
    let accept = addresses_of(rt, alloc, accept);
    let deny = addresses_of(rt, alloc, deny);
    conf.set_lists(accept, deny);
    conf
}

/// wlan0 with one address on its accept list and two on its deny list.
fn open_radio(rt: &impl Abort, alloc: Global) -> Conf {
    let deny = b"02:00:00:00:00:dd\n02:00:00:00:00:ee";
    listing(rt, alloc, new_conf(rt, alloc), b"02:00:00:00:00:cc", deny)
}

/// wlan1, which lets in who is accepted.
fn closed_radio(rt: &impl Abort, alloc: Global) -> Conf {
    let accept = b"02:00:00:00:00:ab\n02:00:00:00:00:ac\n02:00:00:00:00:ad";
    let mut conf = listing(rt, alloc, second(rt, alloc), accept, b"");
    conf.macaddr_acl = AclMode::DenyUnlessAccepted;
    conf
}

/// Both of them, the greater BSSID first.
fn with_lists(rt: &impl Abort, alloc: Global) -> Confs {
    confs_of_two(rt, alloc, closed_radio(rt, alloc), open_radio(rt, alloc))
}

/// The station 02:00:00:00:00:ab is authenticated at wlan1.
const AUTHENTICATES: &str =
    "rx wlan1 b00000000200000000020200000000ab0200000000021000000001000000\nflush\n";

const ONE_STATION: &str = "bss 02:00:00:00:00:01 mode 0 max 2007 stations 1 accept 0 deny 0\n";

const NO_STATION: &str = "bss 02:00:00:00:00:01 mode 0 max 2007 stations 0 accept 0 deny 0\n";

const TWO_LINES: &str =
    "bss 02:00:00:00:00:01 mode 0 max 2007 stations 1 accept 1 deny 2\nbss 02:00:00:00:00:02 mode 1 max 2007 stations 1 accept 3 deny 0\n";

/// A store with both lists and a station at each radio.
fn large_store(rt: &impl Abort, alloc: Global) -> MemDisk {
    let script = join(rt, alloc, &[JOINS, AUTHENTICATES]);
    store_after(rt, alloc, with_lists(rt, alloc), script.as_slice())
}

#[test]
fn a_check_prints_a_line_for_each_bssid_rising(rt: HostRuntime) {
    let alloc = rt.alloc();
    expect_check(&rt, alloc, fresh_store(&rt, alloc), (None, ""));
    for (script, text) in [("", NO_STATION), (JOINS, ONE_STATION)] {
        expect_check(&rt, alloc, small_store(&rt, alloc, script), (None, text));
    }
    expect_check(&rt, alloc, large_store(&rt, alloc), (None, TWO_LINES));
}

const NO_STORE: Option<CheckFault> = Some(CheckFault::Store(StoreFault::NotAStore));

const DAMAGED: Option<CheckFault> = Some(CheckFault::Store(StoreFault::Damaged));

const OLD: Option<CheckFault> = Some(CheckFault::Store(StoreFault::OldVersion));

/// A device with these bytes.
fn device(rt: &impl Abort, alloc: Global, bytes: Vec<u8>) -> MemDisk {
    MemDisk::new(alloc, bytes).expect(rt, "memory")
}

/// A device of so many zeros.
fn zeros(rt: &impl Abort, alloc: Global, length: usize) -> MemDisk {
    let bytes = vec![in alloc; 0u8; length];
    device(rt, alloc, bytes.expect(rt, "memory"))
}

#[test]
fn zeros_of_another_length_are_no_store(rt: HostRuntime) {
    let alloc = rt.alloc();
    for length in [0, 2_097_215, 2_097_216, 2_097_217] {
        expect_check(&rt, alloc, zeros(&rt, alloc, length), (NO_STORE, ""));
    }
}

/// The bytes of a device.
fn image_of(rt: &impl Abort, alloc: Global, disk: &MemDisk) -> Vec<u8> {
    Vec::from_slice(alloc, disk.bytes()).expect(rt, "memory")
}

/// Puts bytes at a place.
fn put(image: &mut [u8], place: usize, bytes: &[u8]) {
    for (behind, byte) in bytes.iter().enumerate() {
        if let Some(old) = image.get_mut(place.saturating_add(behind)) {
            *old = *byte;
        }
    }
}

/// Expects what a check tells of a store with these bytes at a place.
fn expect_check_with(
    rt: &impl Abort,
    alloc: Global,
    disk: &MemDisk,
    (place, bytes): (usize, &[u8]),
    wanted: (Option<CheckFault>, &str),
) {
    let mut image = image_of(rt, alloc, disk);
    put(&mut image, place, bytes);
    expect_check(rt, alloc, device(rt, alloc, image), wanted);
}

/// Expects what a check tells of a store with each byte of its front changed in turn.
fn check_front(rt: &impl Abort, alloc: Global, disk: &MemDisk) {
    for place in 0..64 {
        let wanted = if place < 8 {
            (NO_STORE, "")
        } else {
            (None, ONE_STATION)
        };
        expect_check_with(rt, alloc, disk, (place, &[7]), wanted);
    }
}

/// Bytes that stand at a place of the store of one station, how a check then ends, and what it prints.
type Changed = (usize, &'static [u8], Option<CheckFault>, &'static str);

const CHANGES: [Changed; 10] = [
    (7, b"1", OLD, ""),
    // Half A is closed, and half B is.
    (64, b"\x00", DAMAGED, ""),
    (77, b"\x00", None, ""),
    (92, b"\x02", None, NO_STATION),
    (110, b"\x03", DAMAGED, ""),
    // The station is authenticated alone.
    (117, b"\x00", None, ONE_STATION),
    // The identifier that was given last: no record begins so, and another identifier.
    (142, b"\x08", DAMAGED, ""),
    (149, b"\x07", None, ONE_STATION),
    // A group of no records, and one of 65,537 bytes.
    (151, b"\x01", None, ONE_STATION),
    (151, b"\x01\x01\x00\x01\x00", DAMAGED, ""),
];

fn changes() -> &'static [Changed] {
    &CHANGES
}

/// Expects what a check tells of a store with these changes, one at a time.
fn check_changes(rt: &impl Abort, alloc: Global, disk: &MemDisk) {
    for (place, bytes, fault, text) in changes() {
        expect_check_with(rt, alloc, disk, (*place, *bytes), (*fault, *text));
    }
}

#[test]
fn a_store_with_changed_bytes_is_checked(rt: HostRuntime) {
    let alloc = rt.alloc();
    let disk = small_store(&rt, alloc, JOINS);
    check_front(&rt, alloc, &disk);
    check_changes(&rt, alloc, &disk);
}

/// A writer that takes nothing.
#[derive(Drop)]
struct Closed;

impl Write for Closed {
    fn write(&mut self, _buf: &[u8]) -> io::Result<usize> {
        Err(io::Error::from(io::ErrorKind::BrokenPipe))
    }

    fn flush(&mut self) -> io::Result<()> {
        Ok(())
    }
}

/// How a check of a new store ends whose device passes so many calls, and whose writer takes nothing.
fn check_over_fuse(rt: &impl Abort, alloc: Global, passes: u64) -> Option<CheckFault> {
    let disk = FuseDisk::new(small_store(rt, alloc, ""), passes);
    run_check(alloc, disk, &mut Closed).err()
}

/// Expects how a fault is printed.
fn expect_text(rt: &impl Abort, alloc: Global, fault: CheckFault, wanted: &str) {
    let text = format!(in alloc; "{fault}").expect(rt, "memory");
    expect(rt, text.as_str(), wanted);
}

#[test]
fn a_check_tells_which_side_failed(rt: HostRuntime) {
    let alloc = rt.alloc();
    for (passes, fault) in [
        (0, CheckFault::Store(StoreFault::Device)),
        (1, CheckFault::Store(StoreFault::Device)),
        (2, CheckFault::Writer),
    ] {
        expect(&rt, check_over_fuse(&rt, alloc, passes), Some(fault));
    }
    expect_text(&rt, alloc, CheckFault::Writer, "writer fault");
}

/// A copy of a device, behind a check of it.
fn copy_behind_check(rt: &impl Abort, alloc: Global, disk: &MemDisk) -> MemDisk {
    let image = device(rt, alloc, image_of(rt, alloc, disk));
    let left = run_check(alloc, image, &mut Vec::new(alloc)).ok();
    left.expect(rt, "a store")
}

/// Whether some call of a device was a write.
fn was_written(disk: &MemDisk) -> bool {
    let is_no_write = |call: &Call| matches!(call, Call::Read(..) | Call::Sync);
    !disk.calls().iter().all(is_no_write)
}

#[test]
fn a_check_writes_nothing(rt: HostRuntime) {
    let alloc = rt.alloc();
    let disk = small_store(&rt, alloc, JOINS);
    let left = copy_behind_check(&rt, alloc, &disk);
    let seen = (left.bytes() == disk.bytes(), was_written(&left));
    expect(&rt, seen, (true, false));
}
