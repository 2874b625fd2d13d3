//! Configurations of tests.
use apd_base::{Addr, Bssid};
use apd_conf::{Conf, Confs, FileName, InterfaceName};
use std::alloc::Global;
use std::process::Abort;

/// The built-in configuration.
pub(crate) fn built_in(rt: &impl Abort, alloc: Global) -> Conf {
    Conf::built_in(alloc).expect(rt, "memory")
}

/// A configuration whose interface has this name, and whose BSSID ends in this number.
pub(crate) fn conf_of(rt: &impl Abort, alloc: Global, interface: &str, number: u8) -> Conf {
    assert!(rt; InterfaceName::is_name(interface.as_bytes()));
    let name = InterfaceName::new(interface, alloc).expect(rt, "memory");
    let mut conf = built_in(rt, alloc);
    conf.interface = name;
    conf.bssid = Bssid(Addr([2, 0, 0, 0, 0, number]));
    conf
}

/// The file of this name.
pub(crate) fn file_of(rt: &impl Abort, alloc: Global, name: &str) -> FileName {
    assert!(rt; FileName::is_name(name));
    FileName::new(name, alloc).expect(rt, "memory")
}

/// These configurations.
pub(crate) fn confs_of(rt: &impl Abort, list: Vec<Conf>) -> Confs {
    Confs::new(list).expect(rt, "configurations")
}

/// This configuration alone.
pub(crate) fn alone(rt: &impl Abort, alloc: Global, conf: Conf) -> Confs {
    confs_of(rt, vec![in alloc; conf].expect(rt, "memory"))
}
