//! Configurations that don't go together.
use crate::conf_lines::read_or_tell;
use crate::more::More;
use apd_base::limits::MAX_BSS;
use apd_conf::{Conf, ConfFault, read_conf};
use std::alloc::AllocError;
use std::fs::File;
use std::rt::Files;

// A configuration, and the name of its file.
#[derive(Drop)]
struct Named<'a> {
    name: &'a str,
    conf: Conf,
}

// Tells what a configuration has that is another one's too.
fn tell_shared(more: &mut More, earlier: &Named<'_>, later: &Named<'_>) -> Result<(), AllocError> {
    let other = earlier.name;
    if earlier.conf.interface.as_bytes() == later.conf.interface.as_bytes() {
        let interface = later.conf.interface.as_str();
        more.tell(
            later.name,
            format_args!("interface {interface} is that of {other}"),
        )?;
    }
    if earlier.conf.bssid == later.conf.bssid {
        let bssid = later.conf.bssid.0;
        more.tell(later.name, format_args!("bssid {bssid} is that of {other}"))?;
    }
    Ok(())
}

/// Tells of configuration files which interface and which BSSID of theirs is that of an earlier one, and whether there are
/// too many.
pub(crate) fn tell_repeats(
    rt: &(impl Files<File = File> + AllocGlobal),
    more: &mut More,
    names: &[&str],
) -> Result<(), AllocError> {
    if names.len() > MAX_BSS {
        more.tell(
            "CONF",
            format_args!("{} of them: {MAX_BSS} at most", names.len()),
        )?;
    }
    let mut earlier = Vec::new(rt.alloc());
    for name in names {
        let Some(bytes) = read_or_tell(rt, more, name)? else {
            continue;
        };
        match read_conf(rt.alloc(), bytes.as_slice()) {
            Ok(conf) => {
                let later = Named { name, conf };
                for one in earlier.iter() {
                    tell_shared(more, one, &later)?;
                }
                earlier.push(later)?;
            }
            Err(ConfFault::NoMemory) => return Err(AllocError),
            Err(_) => {}
        }
    }
    Ok(())
}
