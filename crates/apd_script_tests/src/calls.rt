//! Calls whose contracts are long, each by a function of its own, so that the proof of a test needn't carry
//! them. What a test builds on has to be made: where it isn't, the test ends there.
use apd_base::{Addr, Bssid};
use apd_conf::{AddressList, Conf, Confs, InterfaceName, read_list};
use std::alloc::Global;
use std::process::Abort;

/// A list of configurations that is taken.
pub fn confs_of(rt: &impl Abort, list: Vec<Conf>) -> Confs {
    Confs::new(list).expect(rt, "a list of configurations")
}

/// The built-in configuration.
pub fn new_conf(rt: &impl Abort, alloc: Global) -> Conf {
    Conf::built_in(alloc).expect(rt, "the built-in configuration")
}

/// The same for wlan1, at the BSSID 02:00:00:00:00:02.
pub fn second(rt: &impl Abort, alloc: Global) -> Conf {
    let mut conf = new_conf(rt, alloc);
    conf.interface = InterfaceName::new("wlan1", alloc).expect(rt, "memory");
    conf.bssid = Bssid(Addr([2, 0, 0, 0, 0, 2]));
    conf
}

/// A configuration alone.
pub fn confs_with(rt: &impl Abort, alloc: Global, conf: Conf) -> Confs {
    let mut list = Vec::new(alloc);
    list.push(conf).ok().expect(rt, "memory");
    confs_of(rt, list)
}

/// Two configurations.
pub fn confs_of_two(rt: &impl Abort, alloc: Global, first: Conf, second: Conf) -> Confs {
    let mut list = Vec::new(alloc);
    list.push(first).ok().expect(rt, "memory");
    list.push(second).ok().expect(rt, "memory");
    confs_of(rt, list)
}

/// The addresses of a list file that is taken.
pub fn addresses_of(rt: &impl Abort, alloc: Global, file: &[u8]) -> AddressList {
    read_list(alloc, file).expect(rt, "a list file")
}

/// The built-in configuration alone: wlan0 at 02:00:00:00:00:01.
pub fn one_radio(rt: &impl Abort, alloc: Global) -> Confs {
    confs_with(rt, alloc, new_conf(rt, alloc))
}

/// The built-in configuration, and the same for wlan1 at 02:00:00:00:00:02.
pub fn two_radios(rt: &impl Abort, alloc: Global) -> Confs {
    confs_of_two(rt, alloc, new_conf(rt, alloc), second(rt, alloc))
}
