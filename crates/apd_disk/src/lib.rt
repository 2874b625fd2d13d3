//! A disk of fixed length: what a read gives, and what a stop may leave. `docs/DISK.md` tells the model.
#![tactic(auto)]

mod call;
mod device_file;
mod disk;
mod failing_once;
mod fault;
mod file;
mod fuse;
mod honest;
mod laws;
mod mem;
mod record;
mod torn;

pub use call::Call;
pub use device_file::DeviceFile;
pub use disk::Disk;
pub use failing_once::OnceDisk;
pub use fault::DiskFault;
pub use file::FileDisk;
pub use fuse::FuseDisk;
pub use honest::HonestDisk;
pub use laws::{
    a_failed_call_may_leave_each_image, a_file_that_answers_so_stays_honest,
    a_read_keeps_a_disk_in_memory_honest, what_a_stop_left_is_held_next,
};
pub use mem::MemDisk;
pub use record::FileRecord;
pub use torn::Torn;
