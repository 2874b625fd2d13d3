//! The files of a site beside its store.
use crate::file_reason::FileReason;
use crate::identity::Identity;
use crate::opening::{OpenFault, file_or_fault};
use crate::recordings::{RecordingFile, open_recordings};
use crate::site::{Site, SiteFault};
use crate::store_watch::StoreWatch;
use crate::watched_file::FileState;
use apd_conf::Confs;
use std::alloc::AllocError;
use std::fs::File;
use std::rt::Files;

/// Opens the store's file once more, to look at it alone, and to note there where it is lost. The disk holds the lock of its own: a file that can be locked
/// is another one, which was given the name meanwhile.
pub fn open_watch<'a>(
    rt: &(impl Files<File = File> + AllocGlobal),
    name: &'a str,
    state: FileState,
) -> Result<StoreWatch<'a>, OpenFault> {
    let opened = StoreWatch::open(rt, name, state).map_err(FileReason::from);
    file_or_fault(rt, name, opened)
}

// The files that no recording may be made over: the store, those of the configurations, and the list files that
// these name. A name of no file is passed over.
fn kept_files(
    rt: &(impl Files<File = File> + AllocGlobal),
    confs: &Confs,
    site: &Site<'_>,
) -> Result<Vec<Identity>, AllocError> {
    let mut kept = Vec::new(rt.alloc());
    keep(rt, &mut kept, site.store)?;
    for name in site.configurations {
        keep(rt, &mut kept, name)?;
    }
    for conf in confs.list() {
        for list in [&conf.accept_mac_file, &conf.deny_mac_file] {
            if let Some(list) = list {
                keep(rt, &mut kept, list.as_str())?;
            }
        }
    }
    Ok(kept)
}

// Adds the file of a name, if there is one.
fn keep(
    files: &impl Files<File = File>,
    kept: &mut Vec<Identity>,
    name: &str,
) -> Result<(), AllocError> {
    if let Some(found) = Identity::of_name(files, name) {
        kept.push(found)?;
    }
    Ok(())
}

/// Opens the files of a site's recordings, where there are to be any. What they hold stays.
pub fn open_recordings_of(
    rt: &(impl Files<File = File> + AllocGlobal),
    confs: &Confs,
    site: &Site<'_>,
) -> Result<Option<Vec<RecordingFile>>, SiteFault> {
    let Some(prefix) = site.recordings else {
        return Ok(None);
    };
    let kept = kept_files(rt, confs, site)?;
    Ok(Some(open_recordings(rt, prefix, confs.list().len(), &kept)?))
}
