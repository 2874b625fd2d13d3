//! Stops and restarts, steps of a commit, and refusals of the store.
use crate::expect::expect;
use crate::scripts::{JOINS, add, join};
use crate::worlds::{device_after, expect_run_on, fault_on, fresh_store, slots_after};
use apd_base::Addr;
use apd_conf::InterfaceName;
use apd_disk::FuseDisk;
use apd_mlme::Out;
use apd_radio::Radio;
use apd_script::{ScriptFault, write_applied};
use apd_slot::{Slot, SlotFault};
use apd_store::StoreFault;
use apd_world::WorldFault;
use std::alloc::Global;
use std::process::Abort;

/// Adds the first frame that a slot's radio receives.
fn add_frame<R: Radio>(rt: &impl Abort, slot: &mut Slot<R>, frames: &mut Vec<u8>) {
    let received = slot.poll().expect(rt, "a radio that is up");
    let frame = received.expect(rt, "a frame");
    add(rt, frames, frame.as_slice());
}

/// Expects the first frame that each slot's radio receives behind a script.
fn expect_frames(
    rt: &impl Abort,
    alloc: Global,
    script: &[u8],
    radios: &[&str],
    spares: &[&str],
    want: &[u8],
) {
    let mut slots = slots_after(rt, alloc, script, radios, spares);
    let mut frames = Vec::new(alloc);
    for slot in &mut slots {
        add_frame(rt, slot, &mut frames);
    }
    expect(rt, frames.as_slice(), want);
}

#[test]
fn a_stop_takes_a_fresh_radio_from_the_front_for_each_slot(rt: HostRuntime) {
    let radios = ["rx 0a", "rx 0b"];
    let spares = ["rx 0c", "rx 0d", "rx 0e", "rx 0f", "rx 10"];
    for (script, want) in [
        (b"".as_slice(), b"\x0a\x0b"),
        (b"stop\n", b"\x0c\x0d"),
        (b"stop\nflush\nstop\n", b"\x0e\x0f"),
    ] {
        expect_frames(&rt, rt.alloc(), script, &radios, &spares, want);
    }
}

fn add_joining(rt: &impl Abort, alloc: Global, script: &mut Vec<u8>, number: u16) {
    let lines = format!(in alloc;
        "rx wlan0 b0000000020000000001020000ff{number:04x}0200000000011000000001000000\nrx wlan0 00000000020000000001020000ff{number:04x}020000000001200031040a0000036e6574010482848b96\n"
    );
    add(rt, script, lines.expect(rt, "memory").as_bytes());
}

/// So many stations join.
fn all_join(rt: &impl Abort, alloc: Global, count: u16) -> Vec<u8> {
    let mut script = Vec::new(alloc);
    for number in 0..count {
        add_joining(rt, alloc, &mut script, number);
    }
    add(rt, &mut script, b"flush\n");
    script
}

fn add_query(rt: &impl Abort, alloc: Global, script: &mut Vec<u8>, number: u16) {
    let line = format!(in alloc;
        "cmd STA 02:00:00:ff:{:02x}:{:02x}\n",
        number / 256,
        number % 256
    );
    add(rt, script, line.expect(rt, "memory").as_bytes());
}

/// Each of so many stations is asked for.
fn all_are_asked_for(rt: &impl Abort, alloc: Global, count: u16) -> Vec<u8> {
    let mut script = Vec::new(alloc);
    add(rt, &mut script, b"cmd STATUS\n");
    for number in 0..count {
        add_query(rt, alloc, &mut script, number);
    }
    script
}

fn add_row(rt: &impl Abort, alloc: Global, out: &mut Vec<u8>, number: u16) {
    let line = format!(in alloc;
        "ctrl {} 02:00:00:ff:{:02x}:{:02x}\\nflags=[AUTH][ASSOC][AUTHORIZED]\\naid={}\\ncapability=0x431\\nlisten_interval=10\\n\n",
        number as u32 + 2,
        number / 256,
        number % 256,
        number as u32 + 1
    );
    add(rt, out, line.expect(rt, "memory").as_bytes());
}

fn add_status(rt: &impl Abort, alloc: Global, out: &mut Vec<u8>, count: u16) {
    let status = format!(in alloc;
        "ctrl 1 state=ENABLED\\nchannel=6\\nbeacon_int=100\\nbss[0]=wlan0\\nbssid[0]=02:00:00:00:00:01\\nssid[0]=net\\nnum_sta[0]={count}\\n\n"
    );
    add(rt, out, status.expect(rt, "memory").as_bytes());
}

/// Each of them is shown, with its identifier.
fn all_are_shown(rt: &impl Abort, alloc: Global, count: u16) -> Vec<u8> {
    let mut out = Vec::new(alloc);
    add_status(rt, alloc, &mut out, count);
    for number in 0..count {
        add_row(rt, alloc, &mut out, number);
    }
    out
}

#[test]
fn another_run_has_all_stations_with_no_frame_sent(rt: HostRuntime) {
    let alloc = rt.alloc();
    let disk = device_after(&rt, alloc, &all_join(&rt, alloc, 2007));
    let ask = all_are_asked_for(&rt, alloc, 2007);
    let want = all_are_shown(&rt, alloc, 2007);
    expect_run_on(&rt, alloc, disk, &ask, (None, want.as_slice()));
}

/// 4,096 frames that are answered, none of which is settled, and then another, a command and a query.
fn keeps_4096(rt: &impl Abort, alloc: Global) -> Vec<u8> {
    let mut script = Vec::new(alloc);
    for _ in 0..4096 {
        add(
            rt,
            &mut script,
            b"rx wlan0 b00000000200000000010200000000aa0200000000011000000001000000\n",
        );
    }
    add(rt, &mut script, b"rx wlan0\ncmd DENY_ACL CLEAR\ncmd PING\n");
    script
}

/// How a text ends.
fn tail(text: &[u8], count: usize) -> &[u8] {
    match text.len().checked_sub(count) {
        Some(from) => &text[from..],
        None => text,
    }
}

#[test]
fn a_full_core_is_busy(rt: HostRuntime) {
    let alloc = rt.alloc();
    let lines = keeps_4096(&rt, alloc);
    let disk = fresh_store(&rt, alloc);
    let mut out = Vec::new(alloc);
    let fault = fault_on(&rt, alloc, disk, lines.as_slice(), &mut out);
    let want = b"entry 4097\nbusy\nctrl 4098 FAIL\\n\nctrl 4099 PONG\\n\n";
    let last = tail(out.as_slice(), want.len());
    expect(&rt, (fault, last), (None, want.as_slice()));
}

/// The calls of a recovery and of the start, and two of the next batch. The third fails; those behind it are refused
/// otherwise.
const FUSE: u64 = 2 + 4 + 2;

const REFUSED: Option<ScriptFault> = Some(ScriptFault::World(WorldFault::Store(
    StoreFault::Device,
)));

/// Expects how a script ends on a store whose device fails after these calls, and what it prints.
fn expect_refusal(
    rt: &impl Abort,
    alloc: Global,
    script: &[&str],
    fault: Option<ScriptFault>,
    text: &str,
) {
    let script = join(rt, alloc, script);
    let disk = FuseDisk::new(fresh_store(rt, alloc), FUSE);
    expect_run_on(rt, alloc, disk, &script, (fault, text.as_bytes()));
}

#[test]
fn a_refusal_ends_a_script_at_its_next_flush(rt: HostRuntime) {
    let alloc = rt.alloc();
    let lines =
        "rx wlan0 b00000000200000000010200000000aa0200000000011000000001000000\ntake\ncall\ncall\ncall\ncall\npublish\ntake\nrx wlan0\ncmd DENY_ACL CLEAR\ncmd PING\nhand\n";
    let want = "entry 2\nstopped\nctrl 10 FAIL\\n\nctrl 11 PONG\\n\n";
    expect_refusal(&rt, alloc, &[lines], None, want);
    expect_refusal(&rt, alloc, &[lines, "flush\ncmd PING\n"], REFUSED, want);
    // The same where the flush meets it.
    expect_refusal(&rt, alloc, &[JOINS], REFUSED, "entry 2\n");
}

/// Expects what is printed of the removal of a station at wlan0, where it is answered so.
fn expect_removal(rt: &impl Abort, alloc: Global, answer: Result<(), SlotFault>, want: &[u8]) {
    let name = InterfaceName::new("wlan0", alloc).expect(rt, "memory");
    let remove = Out::Remove(Addr([2, 0, 0, 0, 0, 0xaa]));
    let mut text = Vec::new(alloc);
    let written = write_applied(alloc, &mut text, &name, &remove, answer);
    written.expect(rt, "memory");
    expect(rt, text.as_slice(), want);
}

/// Expects how a fault of the store is printed.
fn expect_fault_text(rt: &impl Abort, alloc: Global, fault: StoreFault, want: &str) {
    let told = ScriptFault::World(WorldFault::Store(fault));
    let text = format!(in alloc; "{told}").expect(rt, "memory");
    expect(rt, text.as_str(), want);
}

#[test]
fn lost_frames_and_failed_drivers_are_printed_in_these_words(rt: HostRuntime) {
    let alloc = rt.alloc();
    for (answer, want) in [
        (Ok(()), b"wlan0 remove 02:00:00:00:00:aa\n".as_slice()),
        (Err(SlotFault::Lost), b"wlan0 lost\n"),
        (Err(SlotFault::WentDown), b"wlan0 down\n"),
    ] {
        expect_removal(&rt, alloc, answer, want);
    }
    for (fault, want) in [
        (StoreFault::Device, "device fault"),
        (StoreFault::Worn, "store is worn out"),
    ] {
        expect_fault_text(&rt, alloc, fault, want);
    }
}
