//! A store of version 1 that is copied into a new one.
use crate::beginning::device;
use crate::ending::{say_calls, say_left};
use crate::images::Image;
use crate::saying::{say, say_again};
use apd_disk::{Call, MemDisk};
use apd_maintenance::{UpgradeFault, run_upgrade};
use apd_store::StoreFault;
use std::alloc::Global;
use std::io;

/// Both devices, and why no copy is told of; none where one is.
type Copied = (MemDisk, MemDisk, Option<UpgradeFault>);

/// The call, without a clause.
fn copy_store(alloc: Global, old: MemDisk, new: MemDisk, text: &mut Vec<u8>) -> Copied {
    match run_upgrade(alloc, old, new, text) {
        Ok((old, new)) => (old, new, None),
        Err((old, new, fault)) => (old, new, Some(fault)),
    }
}

/// Whether no copy is told of for want of memory: to make it, or where the text is put.
fn lacks_memory(fault: UpgradeFault) -> bool {
    matches!(
        fault,
        UpgradeFault::Writer | UpgradeFault::Store(StoreFault::NoMemory)
    )
}

/// Says where a copy that was not made has called the new device, or told of itself.
fn say_change(rt: &impl Print, fault: UpgradeFault, new: &MemDisk, text: &[u8]) -> io::Result<()> {
    let is_made = fault == UpgradeFault::Writer;
    if text.is_empty() && (is_made || new.calls().is_empty()) {
        return Ok(());
    }
    say(rt, "changed: upgrade")
}

/// Says the same, and that the copy is made once more.
fn say_retry(rt: &impl Print, fault: UpgradeFault, new: &MemDisk, text: &[u8]) -> io::Result<()> {
    say_change(rt, fault, new, text)?;
    say_again(rt, "upgrade")
}

/// A copy that lacked memory is made once more, of the devices that came back.
fn copy_store_again(
    rt: &impl Print,
    alloc: Global,
    text: &mut Vec<u8>,
    first: Copied,
) -> io::Result<Copied> {
    let (old, new, fault) = first;
    match fault {
        Some(fault) if lacks_memory(fault) => {
            match say_retry(rt, fault, &new, text.as_slice()) {
                Ok(()) => Ok(copy_store(alloc, old, new, text)),
                Err(error) => {
                    drop(new);
                    drop(old);
                    Err(error)
                }
            }
        }
        fault => Ok((old, new, fault)),
    }
}

/// Says where a device has served a write.
fn say_write(rt: &impl Print, device: &MemDisk) -> io::Result<()> {
    for call in device.calls() {
        if matches!(call, Call::Write(..)) {
            say(rt, "changed: the old store")?;
        }
    }
    Ok(())
}

/// Says what a copy came to, and which calls it took of the old device.
fn say_copied(
    rt: &impl Print,
    old: &MemDisk,
    fault: Option<UpgradeFault>,
    text: &[u8],
) -> io::Result<()> {
    say_write(rt, old)?;
    match fault {
        Some(fault) => say(rt, fault)?,
        None => rt.write_all(text)?,
    }
    say(rt, "old:")?;
    say_calls(rt, old.calls())
}

/// Copies, says what that came to, and gives the new device.
fn copy_and_say(rt: &impl Print, alloc: Global, old: MemDisk, new: MemDisk) -> io::Result<MemDisk> {
    let mut text = Vec::new(alloc);
    let first = copy_store(alloc, old, new, &mut text);
    let (old, new, fault) = copy_store_again(rt, alloc, &mut text, first)?;
    let said = say_copied(rt, &old, fault, text.as_slice());
    drop(old);
    match said {
        Ok(()) => Ok(new),
        Err(error) => {
            drop(new);
            Err(error)
        }
    }
}

/// The same behind what was said before, if that could be printed.
fn copy_behind(
    rt: &impl Print,
    alloc: Global,
    said: io::Result<()>,
    old: MemDisk,
    new: MemDisk,
) -> io::Result<MemDisk> {
    match said {
        Ok(()) => copy_and_say(rt, alloc, old, new),
        Err(error) => {
            drop(new);
            drop(old);
            Err(error)
        }
    }
}

/// A copy of a device into a blank one.
fn copy_into_blank(rt: &impl Print, alloc: Global, old: MemDisk) -> io::Result<MemDisk> {
    match device(rt, alloc, Image::Blank) {
        Ok(new) => {
            let said = say(rt, "no store");
            copy_behind(rt, alloc, said, old, new)
        }
        Err(error) => {
            drop(old);
            Err(error)
        }
    }
}

/// Copies a store of version 1, and says which calls that takes of it, what the new device shows, and which calls that
/// has served, also where a call of a device failed.
pub fn upgrade(rt: &impl Print, alloc: Global) -> io::Result<()> {
    let old = device(rt, alloc, Image::Old)?;
    let new = copy_into_blank(rt, alloc, old)?;
    say_left(rt, alloc, new)
}
