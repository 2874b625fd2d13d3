//! What is wrong with configurations that were refused.
use crate::conf_lines::tell_conf_file;
use crate::more::More;
use crate::repeats::tell_repeats;
use apd_conf::ConfigurationFault;
use std::alloc::AllocError;
use std::fs::File;
use std::rt::Files;

/// Tells of each file of configurations that were refused: each faulty line of theirs, or what two have alike.
pub fn tell_configurations(
    rt: &(impl Files<File = File> + AllocGlobal),
    more: &mut More,
    fault: &ConfigurationFault,
    names: &[&str],
) -> Result<(), AllocError> {
    match fault {
        ConfigurationFault::NoMemory => return Ok(()),
        ConfigurationFault::Confs(_) => return tell_repeats(rt, more, names),
        _ => {}
    }
    for name in names {
        tell_conf_file(rt, more, name)?;
    }
    match fault {
        ConfigurationFault::CannotRead(name) if more.is_empty() => {
            more.tell(name.as_str(), "nothing is in its way any more")
        }
        _ => Ok(()),
    }
}
