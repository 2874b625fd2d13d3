//! Ten thousand lists of bytes: each reader returns, and what it takes stands in the bytes.
use crate::generator::Generator;
use crate::good::{COMMANDS, CONFS, FRAMES, LISTS, RECORDS};
use apd_base::{Addr, Bssid};
use apd_conf::{read_conf, read_list};
use apd_ctrl::{Parsed, parse_command};
use apd_frame::{Frame, decode};
use apd_record::{read_all, write};
use std::alloc::{AllocError, Global};
use std::process::Abort;

const RADIO: Bssid = Bssid(Addr([2, 0, 0, 0, 0, 1]));

/// How many of the lists were taken as what.
#[derive(Default, Drop)]
struct Taken {
    frames: u32,
    commands: u32,
    confs: u32,
    addresses: u32,
    records: u32,
    // Those of more than one record.
    several: u32,
}

// A good text, frame or list of records.
fn good(generator: &mut Generator) -> &'static [u8] {
    let pages: [&[&[u8]]; 5] = [&FRAMES, &COMMANDS, &CONFS, &LISTS, &RECORDS];
    let page = pages
        .get(generator.below(5) as usize)
        .copied()
        .unwrap_or(&[]);
    let length = u32::try_from(page.len()).unwrap_or(0);
    page.get(generator.below(length) as usize)
        .copied()
        .unwrap_or(b"")
}

// The next list: any bytes, 0 to 3,000 of them, or something good in which one to four bytes are changed.
fn draw(alloc: Global, generator: &mut Generator) -> Result<Vec<u8>, AllocError> {
    if generator.below(2) == 0 {
        let length = generator.below(3_001);
        return generator.bytes(alloc, length);
    }
    let mut bytes = Vec::from_slice(alloc, good(generator))?;
    generator.change(&mut bytes);
    Ok(bytes)
}

// Whether the bytes at a place are a number, the lower byte first.
fn stands(bytes: &[u8], place: usize, number: u16) -> bool {
    bytes.get(place..place.saturating_add(2)) == Some(number.to_le_bytes().as_slice())
}

// Whether the bytes at a place are an address.
fn lies(bytes: &[u8], place: usize, addr: Addr) -> bool {
    bytes.get(place..place.saturating_add(6)) == Some(addr.0.as_slice())
}

// Whether each field of a frame stands at its place: Address 2 at 10, the fixed fields from 24 on, in their order, and the
// elements behind them.
fn has_its_fields(bytes: &[u8], frame: Frame<'_>) -> bool {
    let fixed = match frame {
        Frame::Auth(fields) => {
            stands(bytes, 24, fields.algorithm)
                && stands(bytes, 26, fields.transaction)
                && stands(bytes, 28, fields.status)
        }
        Frame::Assoc(fields) => {
            stands(bytes, 24, fields.capability)
                && stands(bytes, 26, fields.listen_interval)
                && bytes.get(28..) == Some(fields.elements)
        }
        Frame::Reassoc(fields) => {
            stands(bytes, 24, fields.capability)
                && stands(bytes, 26, fields.listen_interval)
                && lies(bytes, 28, fields.current_ap)
                && bytes.get(34..) == Some(fields.elements)
        }
        Frame::Probe(fields) => bytes.get(24..) == Some(fields.elements),
        Frame::Disassoc { reason, .. } | Frame::Deauth { reason, .. } => stands(
            bytes, 24, reason.0,
        ),
        Frame::Uplink { .. } => true,
    };
    fixed && lies(bytes, 10, frame.sender())
}

// Counts the bytes where they are a frame, and tells whether it has its fields.
fn try_frame(bytes: &[u8], taken: &mut Taken) -> bool {
    let Ok(frame) = decode(bytes, RADIO) else {
        return true;
    };
    taken.frames = taken.frames.saturating_add(1);
    has_its_fields(bytes, frame)
}

// Counts the bytes where they are a command.
fn try_command(bytes: &[u8], taken: &mut Taken) {
    if let Parsed::Command { .. } = parse_command(bytes) {
        taken.commands = taken.commands.saturating_add(1);
    }
}

// Counts the bytes where they are a configuration or a list file.
fn try_files(alloc: Global, bytes: &[u8], taken: &mut Taken) {
    if read_conf(alloc, bytes).is_ok() {
        taken.confs = taken.confs.saturating_add(1);
    }
    if read_list(alloc, bytes).is_ok() {
        taken.addresses = taken.addresses.saturating_add(1);
    }
}

// Counts the bytes where they are records, and tells whether these are written as the same bytes.
fn try_records(alloc: Global, bytes: &[u8], taken: &mut Taken) -> Result<bool, AllocError> {
    let Some(changes) = read_all(alloc, bytes)? else {
        return Ok(true);
    };
    taken.records = taken.records.saturating_add(1);
    if changes.len() > 1 {
        taken.several = taken.several.saturating_add(1);
    }
    Ok(write(alloc, &changes)?.as_slice() == bytes)
}

// Hands the bytes of this number to each reader.
fn try_all(rt: &impl Abort, alloc: Global, number: u32, bytes: &[u8], taken: &mut Taken) {
    assert!(rt; try_frame(bytes, taken), "frame {number}");
    let are_written = try_records(alloc, bytes, taken).expect(rt, "memory");
    assert!(rt; are_written, "records {number}");
    try_command(bytes, taken);
    try_files(alloc, bytes, taken);
}

// A generator of mere rubbish would show little.
fn check_counts(rt: &impl Abort, taken: &Taken) {
    for (what, count, least) in [
        ("frames", taken.frames, 100),
        ("commands", taken.commands, 100),
        ("configurations", taken.confs, 100),
        ("list files", taken.addresses, 100),
        ("lists of records", taken.records, 500),
        ("lists of several records", taken.several, 100),
    ] {
        assert!(rt; count >= least, "{count} {what}");
    }
}

#[test]
fn readers_return_and_what_they_take_stands_in_the_bytes(rt: HostRuntime) {
    let mut generator = Generator::new(1);
    let mut taken = Taken::default();
    for number in 0..10_000 {
        let bytes = draw(rt.alloc(), &mut generator).expect(&rt, "memory");
        try_all(&rt, rt.alloc(), number, &bytes, &mut taken);
    }
    check_counts(&rt, &taken);
}
