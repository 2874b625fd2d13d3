//! What is read of files, and what is printed of a store by a check.
use crate::beginning::device;
use crate::ending::say_left_behind;
use crate::images::Image;
use crate::saying::{say, say_again};
use apd_conf::{ConfigurationFault, Confs};
use apd_disk::MemDisk;
use apd_maintenance::{CheckFault, run_check};
use apd_script::read_configurations;
use apd_store::StoreFault;
use std::alloc::Global;
use std::fs::File;
use std::io;
use std::rt::Files;

/// The names of the configuration files.
const NAMES: &[&str] = &["wlan0.conf", "wlan1.conf"];

fn confs_of<R: Files<File = File> + AllocGlobal>(rt: &R) -> Result<Confs, ConfigurationFault> {
    read_configurations(rt, NAMES)
}

/// The configurations of two radios, with their lists; none where they can't be read.
pub fn read<R: Print + Files<File = File> + AllocGlobal>(rt: &R) -> io::Result<Option<Confs>> {
    match confs_of(rt) {
        Ok(confs) => Ok(Some(confs)),
        Err(ConfigurationFault::NoMemory) => {
            say_again(rt, "read")?;
            Ok(confs_of(rt).ok())
        }
        Err(fault) => {
            say(rt, fault)?;
            Ok(None)
        }
    }
}

/// Reads the configurations of two radios, and prints them.
pub fn files<R: Print + Files<File = File> + AllocGlobal>(rt: &R) -> io::Result<()> {
    let Some(confs) = read(rt)? else {
        return Ok(());
    };
    for conf in confs.list() {
        println!(rt; "{conf:?}")?;
    }
    Ok(())
}

/// The call, without a clause: what a check prints of a device, which comes back but where it is refused.
fn check_disk(alloc: Global, disk: MemDisk, text: &mut Vec<u8>) -> Result<MemDisk, CheckFault> {
    run_check(alloc, disk, text)
}

/// Whether a check is refused for want of memory: to read the device, for the text, or where that is put.
fn lacks_memory(fault: CheckFault) -> bool {
    matches!(
        fault,
        CheckFault::NoMemory | CheckFault::Writer | CheckFault::Store(StoreFault::NoMemory)
    )
}

/// A check that is refused for want of memory is made once more, of a device like it, which it gave up.
fn check_again(
    rt: &impl Print,
    alloc: Global,
    fault: CheckFault,
    text: &mut Vec<u8>,
) -> io::Result<Result<MemDisk, CheckFault>> {
    if !lacks_memory(fault) {
        return Ok(Err(fault));
    }
    say_again(rt, "check")?;
    if !text.is_empty() {
        say(rt, "changed: check")?;
    }
    let disk = device(rt, alloc, Image::Stations)?;
    Ok(check_disk(alloc, disk, text))
}

/// Checks a store with stations of two radios, and says what its device shows then, and which calls it has served.
pub fn check(rt: &impl Print, alloc: Global) -> io::Result<()> {
    let mut text = Vec::new(alloc);
    let disk = device(rt, alloc, Image::Stations)?;
    let checked = match check_disk(alloc, disk, &mut text) {
        Err(fault) => check_again(rt, alloc, fault, &mut text)?,
        checked => checked,
    };
    match checked {
        Ok(disk) => {
            let said = rt.write_all(text.as_slice());
            say_left_behind(rt, alloc, said, disk)
        }
        Err(fault) => say(rt, fault),
    }
}
