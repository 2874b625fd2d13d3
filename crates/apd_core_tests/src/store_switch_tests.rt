//! The bytes of a switch, and what is shown where one of them is another.
use crate::expect::expect;
use crate::halves::{HALF_A, HALF_B, both_open, show, switching};
use apd_disk::{Call, MemDisk};
use std::alloc::Global;

fn switch(alloc: Global) -> Option<MemDisk> {
    switching(alloc, both_open(alloc)?, 10)
}

// The calls behind the two of the recovery: place and length of a write, and two zeros for a sync.
fn calls_of_switch(alloc: Global) -> Option<Vec<(usize, usize)>> {
    let disk = switch(alloc)?;
    let mut made = Vec::new(alloc);
    for call in disk.calls().iter().skip(2) {
        made.push(match call {
            Call::Read(_, _) => (0, 1),
            Call::Write(at, bytes) => (*at, bytes.len()),
            Call::Sync => (0, 0),
        })
        .ok()?;
    }
    Some(made)
}

#[test]
fn the_calls_of_a_switch_over_an_open_half(rt: HostRuntime) {
    let all = [
        (64, 1),
        (0, 0),
        (65, 43),
        (0, 0),
        (64, 1),
        (0, 0),
        (108, 34),
        (0, 0),
        (107, 1),
        (0, 0),
    ];
    let made = calls_of_switch(rt.alloc());
    let made = made.as_ref().map(|made| made.as_slice());
    expect(&rt, made, Some(all.as_slice()));
}

// The device with another byte.
fn change_byte(alloc: Global, place: usize, byte: u8) -> Option<MemDisk> {
    let mut bytes = Vec::from_slice(alloc, switch(alloc)?.bytes()).ok()?;
    *bytes.get_mut(place)? = byte;
    MemDisk::new(alloc, bytes).ok()
}

#[test]
fn other_bytes_in_both_halves(rt: HostRuntime) {
    for (place, byte, is) in [
        (63, 7, "after"),
        (HALF_A, 0, "before"),
        (HALF_A, 2, "before"),
        // The epoch.
        (HALF_A + 1, 1, "before"),
        (HALF_A + 1, 2, "damaged"),
        (HALF_A + 1, 4, "after"),
        // The snapshot: its length, and its first tag.
        (HALF_A + 9, 29, "damaged"),
        (HALF_A + 13, 7, "damaged"),
        // The group: its gate, its length, its tag, and the tag of the cursor and its number; and the gate behind it.
        (107, 0, "before"),
        (108, 19, "damaged"),
        (108, 28, "damaged"),
        (112, 7, "damaged"),
        (132, 8, "damaged"),
        (139, 7, "after"),
        (140, 8, "damaged"),
        (141, 1, "after"),
        // The half before.
        (HALF_B, 0, "after"),
        (HALF_B + 1, 3, "damaged"),
        (HALF_B + 1, 4, "before"),
        (HALF_B + 13, 7, "after"),
    ] {
        let found = show(rt.alloc(), change_byte(rt.alloc(), place, byte));
        expect(&rt, (place, byte, found), (place, byte, is));
    }
}
