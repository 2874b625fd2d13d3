//! What may be relied on of a file, and of a disk in memory: each law is the contract of a function that does nothing.
ghost use Rattle.std.specs.Prelude.{◌≡◌, ◌≤◌, ◌+◌, ◌↔◌, ℕ, List, [], ◌∷◌, length, take, drop, Result, OnOk};
ghost use Rattle.apd_disk.specs.Disk.{Only, TornWithin, IsRead};
ghost use Rattle.apd_disk.specs.FileCalls.{FileCall, gave, wrote, tore, synced, missed, lost, file_reads, FileLeaves, IsHonestFile};
ghost use Rattle.apd_disk.specs.FileModel.{file_model, IsFoundAfterStop};
ghost use Rattle.apd_disk.specs.declared.fault.DiskFault.{DiskFault};
ghost use Rattle.apd_disk.specs.declared.file.FileDisk.{FileDisk};

use crate::{DeviceFile, HonestDisk};

/// A file that answers as the model does stays honest: only a read can show that it isn't. So there is an honest record
/// of any calls, whatever the file held.
pub fn a_file_that_answers_so_stays_honest()
    ensures opened { (held : List ℕ) → IsHonestFile (length held) held [] }
    ensures read { (n at m : ℕ) (held : List ℕ) (calls : List FileCall) → at + m ≤ n → IsHonestFile n held calls
        → IsHonestFile n held (gave at (take m (drop at (file_reads held calls))) ∷ calls) }
    ensures write { (n at : ℕ) (bytes held : List ℕ) (calls : List FileCall) → at + length bytes ≤ n
        → IsHonestFile n held calls → IsHonestFile n held (wrote at bytes ∷ calls) }
    ensures failed_write { (n at m : ℕ) (held left : List ℕ) (calls : List FileCall) → at + m ≤ n
        → IsHonestFile n held calls → IsHonestFile n held (tore at m left ∷ calls) }
    ensures sync { (n : ℕ) (held : List ℕ) (calls : List FileCall) → IsHonestFile n held calls
        → IsHonestFile n held (synced ∷ calls) }
    ensures failed_read { (n : ℕ) (held : List ℕ) (calls : List FileCall) → IsHonestFile n held calls
        → IsHonestFile n held (missed ∷ calls) }
    ensures failed_sync { (n : ℕ) (held : List ℕ) (left : List (List ℕ)) (calls : List FileCall)
        → IsHonestFile n held calls → IsHonestFile n held (lost left ∷ calls) }
{}

/// What a failed call left is free: each image that a stop may leave of the range of a failed write, and each that a stop
/// may leave once a sync has failed, is what a read gives for some value of the record.
pub fn a_failed_call_may_leave_each_image()
    ensures write { (n at m : ℕ) (held image : List ℕ) (calls : List FileCall) → at + m ≤ n → IsHonestFile n held calls
        → TornWithin at m (file_reads held calls) image
        → (left : List ℕ) × (file_reads held (tore at m left ∷ calls) ≡ image) }
    ensures sync { (n : ℕ) (held image : List ℕ) (calls : List FileCall) → IsHonestFile n held calls
        → FileLeaves held calls image → (left : List (List ℕ)) × (file_reads held (lost left ∷ calls) ≡ image) }
{}

/// After a loss of power the file of the next process is honest, whatever image it was left; a read gives that, which is
/// one that a stop of the first may leave, and a stop leaves no other. After a kill alone the record goes on.
pub fn what_a_stop_left_is_held_next<F: DeviceFile>()
    ensures honest { (t : ℕ) (before after : FileDisk F) → file_model.honest before → IsFoundAfterStop t before after
        → file_model.honest after }
    ensures left { (t : ℕ) (before after : FileDisk F) → IsFoundAfterStop t before after
        → file_model.left_since before t (file_model.reads after) }
    ensures durable { (t : ℕ) (before after : FileDisk F) → IsFoundAfterStop t before after
        → Only (file_model.reads after) (file_model.may_leave after) }
{}

/// A read too keeps a disk that is always honest, as one in memory, honest; so what it gives is said with no premise.
pub fn a_read_keeps_a_disk_in_memory_honest<D: HonestDisk>()
    ensures stays_honest { (old new : D) → D.model.honest old ↔ D.model.honest new }
    ensures bytes { (old new : D) (result : Result (Unit {0}) DiskFault) (at : ℕ) (before after : List ℕ)
        → IsRead D.model old new result at before after
        → OnOk result (after ≡ take (length before) (drop at (D.model.reads old))) }
{}
