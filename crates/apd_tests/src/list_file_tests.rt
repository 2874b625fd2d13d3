use crate::calls::{addresses_of, lines_of_addresses};
use crate::expect::expect;
use apd_base::Addr;
use apd_conf::{ListFault, read_list};
use std::alloc::Global;
use std::process::Abort;

const A: Addr = Addr([2, 0, 0, 0, 0, 0xaa]);

const B: Addr = Addr([2, 0, 0, 0, 0, 0xbb]);

/// Why a file is refused.
fn fault_of(alloc: Global, file: &[u8]) -> Option<ListFault> {
    read_list(alloc, file).err()
}

// The addresses of a file.
fn expect_list(rt: &impl Abort, alloc: Global, file: &str, wanted: &[Addr]) {
    let list = addresses_of(rt, alloc, file.as_bytes());
    expect(rt, (file, list.as_slice()), (file, wanted));
}

#[test]
fn addresses_are_added_and_taken_away(rt: HostRuntime) {
    for (file, wanted) in [
        ("", [].as_slice()),
        ("-02:00:00:00:00:aa", [].as_slice()),
        ("02:00:00:00:00:aa x\n02:00:00:00:00:AA", [A].as_slice()),
        (
            "02:00:00:00:00:bb\r\n\n# x\n02:00:00:00:00:aa\t\n",
            [A, B].as_slice(),
        ),
        (
            "02:00:00:00:00:aa\n02:00:00:00:00:bb\n-02:00:00:00:00:aa gone\n",
            [B].as_slice(),
        ),
    ] {
        expect_list(&rt, rt.alloc(), file, wanted);
    }
}

#[test]
fn the_first_faulty_line_is_told(rt: HostRuntime) {
    for (file, line) in [
        ("\n02:00:00:00:00:a", 2),
        ("- 02:00:00:00:00:aa", 1),
        (" 02:00:00:00:00:aa", 1),
        ("02:00:00:00:00:aa\n02:00:00:00:00:aax\nx", 2),
        ("02:00:00:00:00:aa\r", 1),
        ("02-00-00-00-00-aa", 1),
    ] {
        let fault = fault_of(rt.alloc(), file.as_bytes());
        let wanted = Some(ListFault::BadAddress(line));
        expect(&rt, (file, fault), (file, wanted));
    }
}

// Why so many lines of addresses are refused, and these bytes behind them.
fn fault_behind(rt: &impl Abort, alloc: Global, count: u16, behind: &[u8]) -> Option<ListFault> {
    let mut file = lines_of_addresses(rt, alloc, 0, count);
    file.extend_from_slice(behind).expect(rt, "memory");
    fault_of(alloc, &file)
}

#[test]
fn the_line_that_makes_1025_addresses_is_refused(rt: HostRuntime) {
    let most = lines_of_addresses(&rt, rt.alloc(), 0, 1024);
    let list = addresses_of(&rt, rt.alloc(), &most);
    expect(&rt, list.as_slice().len(), 1024);
    let fault = fault_behind(&rt, rt.alloc(), 1025, b"");
    expect(&rt, fault, Some(ListFault::TooMany));
}

#[test]
fn too_many_addresses_are_told_at_their_line(rt: HostRuntime) {
    let before = b"x\n02:00:00:00:00:00\n02:00:00:00:ff:ff";
    let fault = fault_behind(&rt, rt.alloc(), 1024, before);
    expect(&rt, fault, Some(ListFault::BadAddress(1025)));
    let fault = fault_behind(&rt, rt.alloc(), 1025, b"x");
    expect(&rt, fault, Some(ListFault::TooMany));
}
