//! List files: addresses of stations, one a line.
ghost use Rattle.std.specs.Prelude.{◌≡◌, ◌≢◌, ◌↔◌, ◌<◌, ◌≤◌, Err, Some, length, map, IfOk, IfErr, OnOk, OnErr, T};
ghost use Rattle.std.specs.FinMap as finmap;
ghost use Rattle.std.specs.FinMap.{is_sorted, from_sorted};
ghost use Rattle.apd_base.specs.Addr.{addr_cmp};
ghost use Rattle.apd_base.specs.declared.limits.TheConstants.{MAX_LISTED};
ghost use Rattle.apd_conf.specs.declared.list_fault.ListFault.{ListFault as Fault};
ghost use Rattle.apd_conf.specs.declared.list_fault.ListFault.TheVariants.{TooMany, NoMemory};
ghost use Rattle.apd_conf.specs.Lines.{lines};
ghost use Rattle.apd_conf.specs.ListFile.{is_end, address_at, edit_of, after_edit, IsListOf, IsList, IsFaultOf};

use crate::lines::{is_skipped, lines_of};
use crate::list_so_far::ListSoFar;
use crate::{AddressList, ListFault};
use apd_base::limits::MAX_LISTED;
use apd_base::{Addr, TEXT_LENGTH, rows};
use std::alloc::{AllocError, Global};

// What a line of a list file does to the list so far.
#[derive(Clone, Copy)]
enum Edit {
    // Nothing: it is empty or a remark.
    Skip,
    // The address is added.
    Add(Addr),
    // The address is taken away.
    Remove(Addr),
}

fn is_end(text: &[u8]) -> bool
    ensures { result ≡ is_end text.now }
{
    match text.first() {
        None => true,
        Some(byte) => *byte == b' ' || *byte == b'\t',
    }
}

fn address_at(text: &[u8]) -> Option<Addr>
    ensures { result ≡ address_at text.now }
{
    if text.len() < TEXT_LENGTH {
        return None;
    }
    if is_end(&text[TEXT_LENGTH..]) {
        Addr::parse(&text[..TEXT_LENGTH])
    } else {
        None
    }
}

#[tactic(auto, unfolding(crate::specs::ListFile::edit_of))]
fn edit_of(line: &[u8]) -> Option<Edit>
    ensures { result ≡ edit_of line.now }
{
    if is_skipped(line) {
        return Some(Edit::Skip);
    }
    if line[0] == b'-' {
        Some(Edit::Remove(address_at(&line[1..])?))
    } else {
        Some(Edit::Add(address_at(line)?))
    }
}

// Adds an address, if there is room for one that is not there.
fn add(list: &mut ListSoFar, addr: Addr) -> Result<(), ListFault>
    requires { T (is_sorted addr_cmp list.old) }
    ensures sorted { T (is_sorted addr_cmp list.new) }
    ensures few { length list.new ≤ MAX_LISTED }
    ensures ok { OnOk result (from_sorted {R = addr_cmp} list.new ≡ finmap.insert (from_sorted list.old) addr tt) }
    ensures err { IfErr result (λ fault. fault ≡ TooMany) }
    ensures many { OnErr result
        (MAX_LISTED < finmap.len (finmap.insert (from_sorted {R = addr_cmp} list.old) addr tt)) }
{
    let Err(place) = rows::place(list.as_slice(), &addr) else {
        return Ok(());
    };
    if list.as_slice().len() == MAX_LISTED {
        return Err(ListFault::TooMany);
    }
    list.insert(place, addr);
    Ok(())
}

// Takes an address away, if it is there.
fn take_away(list: &mut ListSoFar, addr: Addr)
    requires { T (is_sorted addr_cmp list.old) }
    ensures sorted { T (is_sorted addr_cmp list.new) }
    ensures few { length list.new ≤ MAX_LISTED }
    ensures without { from_sorted {R = addr_cmp} list.new ≡ finmap.remove (from_sorted list.old) addr }
{
    if let Ok(place) = rows::place(list.as_slice(), &addr) {
        list.remove(place);
    }
}

fn apply(list: &mut ListSoFar, edit: Edit) -> Result<(), ListFault>
    requires sorted { T (is_sorted addr_cmp list.old) }
    requires few { length list.old ≤ MAX_LISTED }
    ensures sorted { T (is_sorted addr_cmp list.new) }
    ensures few { length list.new ≤ MAX_LISTED }
    ensures ok { OnOk result (from_sorted {R = addr_cmp} list.new ≡ after_edit (from_sorted list.old) (Some edit)) }
    ensures err { IfErr result (λ fault. fault ≡ TooMany) }
    ensures many { OnErr result (MAX_LISTED < finmap.len (after_edit (from_sorted {R = addr_cmp} list.old) (Some edit))) }
{
    match edit {
        Edit::Skip => Ok(()),
        Edit::Add(addr) => add(list, addr),
        Edit::Remove(addr) => {
            take_away(list, addr);
            Ok(())
        }
    }
}

// The addresses of the lines, as rows. It takes no memory.
fn rows_of(file: &[u8]) -> Result<ListSoFar, ListFault>
    ensures ok { IfOk result (λ rows. IsListOf (lines file.now) (map (λ row. row.0) rows)) }
    ensures list { IfOk result (λ rows. IsList (map (λ row. row.0) rows)) }
    ensures err { IfErr result (IsFaultOf (lines file.now)) }
{
    let mut list = ListSoFar::new();
    let mut number = 0;
    for line in lines_of(file) {
        number += 1;
        let Some(edit) = edit_of(line) else {
            return Err(ListFault::BadAddress(number));
        };
        apply(&mut list, edit)?;
    }
    Ok(list)
}

fn addresses(alloc: Global, list: &[(Addr, ())]) -> Result<Vec<Addr>, AllocError>
    ensures { IfOk result (λ addresses. addresses.items ≡ map (λ row. row.0) list.now) }
{
    let mut addresses = Vec::new(alloc);
    for (addr, ()) in list {
        addresses.push(*addr)?;
    }
    Ok(addresses)
}

/// The addresses of a list file, in their order and without doubles.
///
/// # Errors
///
/// The fault of the first faulty line. Where no line is faulty, memory may run out: the looking takes none.
pub fn read_list(alloc: Global, file: &[u8]) -> Result<AddressList, ListFault>
    ensures ok { IfOk result (IsListOf (lines file.now)) }
    ensures list { IfOk result IsList }
    ensures err { (fault : Fault) → fault ≢ NoMemory → ((result ≡ Err fault) ↔ IsFaultOf (lines file.now) fault) }
{
    let list = rows_of(file)?;
    Ok(AddressList::from_vec(addresses(alloc, list.as_slice())?))
}
