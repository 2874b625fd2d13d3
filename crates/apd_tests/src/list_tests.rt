use crate::expect::expect;
use apd_acl::Lists;
use apd_base::{AclMode, Addr, Which};
use std::alloc::Global;
use std::process::Abort;

const FIRST: Addr = Addr([2, 0, 0, 0, 0, 1]);

const SECOND: Addr = Addr([2, 0, 0, 0, 0, 2]);

// Both addresses on the deny list, and the first on the accept list.
fn three_listed(rt: &impl Abort, alloc: Global) -> Lists {
    let mut lists = Lists::new(alloc);
    for (which, addr) in [
        (Which::Deny, SECOND),
        (Which::Deny, FIRST),
        (Which::Deny, SECOND),
        (Which::Accept, FIRST),
    ] {
        lists.add(which, addr).expect(rt, "memory");
    }
    lists
}

// How many addresses are denied and accepted.
fn lengths(lists: &Lists) -> (usize, usize) {
    (lists.len(Which::Deny), lists.len(Which::Accept))
}

// The copy has what the lists had.
fn tells_all(rt: &impl Abort, copy: &Lists) {
    expect(rt, copy.least(Which::Deny), Some(FIRST));
    expect(rt, copy.after(Which::Deny, FIRST), Some(SECOND));
    expect(rt, copy.after(Which::Deny, SECOND), None);
    for (addr, is_allowed) in [(FIRST, true), (SECOND, false)] {
        let mode = AclMode::AcceptUnlessDenied;
        expect(rt, copy.allowed(addr, mode), is_allowed);
    }
}

// No clause says that an address can be added, nor that lists can be copied: memory may lack.
#[test]
fn addresses_are_added_where_memory_is_ample(rt: HostRuntime) {
    let mut lists = three_listed(&rt, rt.alloc());
    let copy = lists.copy(rt.alloc()).expect(&rt, "a copy");
    lists.remove(Which::Deny, FIRST);
    lists.clear(Which::Accept);
    expect(&rt, (lengths(&copy), lengths(&lists)), ((2, 1), (1, 0)));
    tells_all(&rt, &copy);
}
