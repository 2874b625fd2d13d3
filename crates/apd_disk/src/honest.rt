//! A disk that is honest whatever it has answered.
use crate::{Disk, FuseDisk, MemDisk, OnceDisk};

/// A disk that is always honest, as one in memory, or one round it: what is said of honest disks is said of it with no
/// premise.
pub trait HonestDisk: Disk {
    /// Each such disk is honest.
    ghost always_honest: { (disk : Self) → Self.model.honest disk };
}

impl HonestDisk for MemDisk {
    ghost always_honest = { λ d. tt };
}

impl<D: HonestDisk> HonestDisk for FuseDisk<D> {
    ghost always_honest = { λ d. D.always_honest d.inner };
}

impl<D: HonestDisk> HonestDisk for OnceDisk<D> {
    ghost always_honest = { λ d. D.always_honest d.inner };
}
