//! A new store's name, which it gets only once it is a store.
use apd_disk::FileDisk;
use std::fs::{self, File};
use std::io::{self, ErrorKind};
use std::path::{AsPath, Path};
use std::rt::Files;

/// A new file of zeros beside the path, and its name until it is a store: the path with `.new` and a number behind it.
/// A name that is taken is left alone, as that of a file which a kill left behind.
pub(crate) fn create_beside(
    rt: &(impl Files<File = File> + AllocGlobal),
    path: &str,
) -> io::Result<(FileDisk, String)> {
    for number in 0..u32::MAX {
        let beside = format!(in rt.alloc(); "{path}.new{number}")?;
        match FileDisk::create(rt, beside.as_str()) {
            Err(error) if error.kind() == ErrorKind::AlreadyExists => {}
            created => return Ok((created?, beside)),
        }
    }
    Err(ErrorKind::AlreadyExists.into())
}

// A name is durable once its folder is.
fn sync_folder(rt: &impl Files<File = File>, path: &str) -> io::Result<()> {
    let folder = match Path::new(path).parent() {
        Some(parent) if !parent.path_text().is_empty() => parent,
        _ => Path::new("."),
    };
    File::open(rt, folder)?.sync_all()
}

/// Gives the file beside the path the path's name too, durably. A file that somebody made there meanwhile stays.
pub(crate) fn give_name(rt: &impl Files<File = File>, beside: &str, path: &str) -> io::Result<()> {
    fs::hard_link(rt, beside, path)?;
    if let Err(error) = sync_folder(rt, path) {
        let _ = fs::remove_file(rt, path);
        return Err(error);
    }
    Ok(())
}
