//! Stores of version 1, as a program of that version wrote them: what stands at these places, and zeros elsewhere. Of
//! the half that is not the current one no more is kept than its gate and its epoch, since no more of it is looked at.
use crate::common::{LENGTH, blank_disk, write_bytes};
use apd_disk::MemDisk;
use std::alloc::Global;
use std::process::Abort;

/// Bytes, and where they stand.
pub(crate) type Part = (usize, &'static [u8]);

// A device on which these parts stand.
pub(crate) fn device_of(rt: &impl Abort, alloc: Global, parts: &[Part]) -> MemDisk {
    device_of_length(rt, alloc, LENGTH, parts)
}

// The same of another length.
pub(crate) fn device_of_length(
    rt: &impl Abort,
    alloc: Global,
    length: usize,
    parts: &[Part],
) -> MemDisk {
    let mut disk = blank_disk(rt, alloc, length);
    for (place, bytes) in parts {
        write_bytes(rt, &mut disk, *place, bytes);
    }
    disk
}

/// A new store.
pub(crate) const EMPTY: &[Part] = &[(0, b"RAPSTOR1"), (64, &[1, 1])];

/// A policy, and a station that authenticated and associated: three groups in half A.
pub(crate) const JOINED: &[Part] = &[
    (0, b"RAPSTOR1"),
    (
        64,
        &[
            1, 1, 0, 0, 0, 0, 0, 0, 0, 0, 0, 0, 0, // the gate, the epoch and the snapshot
            1, 10, 0, 0, 0, 6, 2, 0, 0, 0, 0, 1, 0, 0xd7, 7, // at 77
            // at 92
            1, 20, 0, 0, 0, 1, 2, 0, 0, 0, 0, 1, 2, 0, 0, 0, 0, 0xaa, 1, 0, 0, 0, 0, 0, 0,
            // at 117
            1, 20, 0, 0, 0, 1, 2, 0, 0, 0, 0, 1, 2, 0, 0, 0, 0, 0xaa, 2, 1, 0, 0x31, 4, 10, 0,
        ],
    ),
];

/// Two policies, lists, a station that is associated at the first BSSID and one that is authenticated at the second, in
/// the snapshot with which half B began, and a group behind it. The epoch is 7.
pub(crate) const SWITCHED: &[Part] = &[
    (0, b"RAPSTOR1"),
    (64, &[1, 6]),
    (
        1_048_640,
        &[
            // the gate, the epoch, and the length of the snapshot
            1, 7, 0, 0, 0, 0, 0, 0, 0, 0x74, 0, 0, 0,
            // two policies
            6, 2, 0, 0, 0, 0, 1, 0, 0xd7, 7, 6, 2, 0, 0, 0, 0, 2, 0, 0xd7, 7,
            // one address on the first accept list, two on the first deny list, and one on the second
            3, 2, 0, 0, 0, 0, 1, 0, 2, 0, 0, 0, 0, 0xcc, 3, 2, 0, 0, 0, 0, 1, 1, 2, 0, 0, 0, 0,
            0xdd, 3, 2, 0, 0, 0, 0, 1, 1, 2, 0, 0, 0, 0, 0xee, 3, 2, 0, 0, 0, 0, 2, 1, 2, 0, 0, 0,
            0, 0xdd,
            // the station that is associated
            1, 2, 0, 0, 0, 0, 1, 2, 0, 0, 0, 0, 0xaa, 2, 1, 0, 0x31, 4, 10, 0,
            // the one that is authenticated
            1, 2, 0, 0, 0, 0, 2, 2, 0, 0, 0, 0, 0xbb, 1, 0, 0, 0, 0, 0, 0,
            // the group of both policies, and the closed gate
            1, 20, 0, 0, 0, 6, 2, 0, 0, 0, 0, 1, 0, 0xd7, 7, 6, 2, 0, 0, 0, 0, 2, 0, 0xd7, 7, 0,
        ],
    ),
];
