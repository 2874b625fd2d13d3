//! What a store holds, printed, with nothing started: `apd check STORE`.
ghost use Rattle.std.specs.Prelude.{◌≡◌, ◌≢◌, ◌⊎◌, IfErr, IfOk, OnOk};
ghost use Rattle.std.specs.Io.KnownBytes.{Appends, Keeps};
ghost use Rattle.std.specs.String.{string_bytes};
ghost use Rattle.std.specs.FinMap.{len};
ghost use Rattle.apd_acl.specs.Lists.{list_of};
ghost use Rattle.apd_base.specs.declared.station.Which.TheVariants.{Accept, Deny};
ghost use Rattle.apd_maintenance.specs.Checking.{IsGivenUp, IsPrinted, IsRefused, counts_text, line_of, line_with, bss_text, table_text};
ghost use Rattle.apd_maintenance.specs.declared.checking.Detail.TheVariants.{Counts};
ghost use Rattle.apd_maintenance.specs.declared.checking.CheckFault.TheVariants.{NoMemory, Writer};

use crate::listing::rows_text;
use apd_acl::Lists;
use apd_base::{Bssid, Which};
use apd_disk::Disk;
use apd_store::{StoreFault, recover};
use apd_table::Table;
use std::alloc::{AllocError, Global};
use std::io::Write;
use thiserror::Error;

/// What is printed of a table.
#[derive(Clone, Copy, Debug, PartialEq, Eq)]
pub enum Detail {
    /// A line for each BSSID, with counts.
    Counts,
    /// And behind each line those of the BSSID's stations, rising by address, of the addresses of its accept list, and
    /// of those of its deny list.
    Rows,
}

/// Why the table of a device is not printed.
#[derive(Clone, Copy, Debug, PartialEq, Eq, Error)]
pub enum CheckFault {
    /// It holds no store that shows a table, it failed, or there is no memory to read it.
    #[error("{0}")]
    Store(StoreFault),
    /// It is a store, and its table can't be printed.
    #[error("writer fault")]
    Writer,
    /// It is a store, and there is no memory for the text.
    #[error("out of memory")]
    NoMemory,
}

impl From<AllocError> for CheckFault {
    ghost from_gives = { λ _ fault. fault ≡ NoMemory };

    fn from(_: AllocError) -> CheckFault {
        CheckFault::NoMemory
    }
}

/// What stands behind the address in a line.
fn counts_text(
    alloc: Global,
    policy: (u8, u16),
    stations: usize,
    accept: usize,
    deny: usize,
) -> Result<String, AllocError>
    ensures { IfOk result (λ counts. string_bytes counts ≡ counts_text policy stations accept deny) }
{
    let (mode, max) = policy;
    format!(in alloc; " mode {mode} max {max} stations {stations} accept {accept} deny {deny}\n")
}

/// The line of a BSSID with this policy, so many stations and these lists.
fn line_with(
    alloc: Global,
    bssid: Bssid,
    policy: (u8, u16),
    stations: usize,
    lists: &Lists,
) -> Result<Vec<u8>, AllocError>
    ensures { IfOk result
        (λ line. line.items ≡ line_with bssid policy stations
        (len (list_of lists.now Accept)) (len (list_of lists.now Deny))) }
{
    let mut line = Vec::new(alloc);
    line.extend_from_slice(b"bss ")?;
    bssid.0.write_text(&mut line)?;
    let accept = lists.len(Which::Accept);
    let deny = lists.len(Which::Deny);
    let counts = counts_text(alloc, policy, stations, accept, deny)?;
    line.extend_from_slice(counts.as_bytes())?;
    Ok(line)
}

/// The line of a BSSID; nothing where it has no policy.
fn line_of(alloc: Global, table: &Table, bssid: Bssid) -> Result<Vec<u8>, AllocError>
    ensures { IfOk result (λ line. line.items ≡ line_of table.now bssid) }
{
    let Some(policy) = table.policy(bssid) else {
        return Ok(Vec::new(alloc));
    };
    let Some(lists) = table.lists(bssid) else {
        return Ok(Vec::new(alloc));
    };
    line_with(alloc, bssid, policy, table.count(bssid), lists)
}

/// What is printed of a BSSID.
fn bss_text(
    alloc: Global,
    table: &Table,
    bssid: Bssid,
    detail: Detail,
) -> Result<Vec<u8>, AllocError>
    ensures { IfOk result (λ text. text.items ≡ bss_text detail table.now bssid) }
{
    let mut text = line_of(alloc, table, bssid)?;
    if detail == Detail::Rows {
        let rows = rows_text(alloc, table, bssid)?;
        text.extend_from_slice(rows.as_slice())?;
    }
    Ok(text)
}

/// What is printed of all BSSIDs with a policy, rising.
fn table_text(alloc: Global, table: &Table, detail: Detail) -> Result<Vec<u8>, AllocError>
    ensures { IfOk result (λ text. text.items ≡ table_text detail table.now) }
{
    let mut text = Vec::new(alloc);
    for place in 0..table.bss_count() {
        let bssid = table.bss(place).unwrap();
        let lines = bss_text(alloc, table, bssid, detail)?;
        text.extend_from_slice(lines.as_slice())?;
    }
    Ok(text)
}

fn print_table<W: Write>(
    alloc: Global,
    table: &Table,
    detail: Detail,
    writer: &mut W,
) -> Result<(), CheckFault>
    ensures printed { OnOk result
        (Appends (W.contents writer.old) (W.contents writer.new) (table_text detail table.now)) }
    ensures only { IfErr result (λ fault. (fault ≡ Writer) ⊎ (fault ≡ NoMemory)) }
    ensures nothing_printed { IfErr result (λ fault. fault ≢ Writer → Keeps (W.contents writer.old) (W.contents writer.new)) }
{
    let text = table_text(alloc, table, detail)?;
    match writer.write_all(text.as_slice()) {
        Ok(()) => Ok(()),
        Err(_) => Err(CheckFault::Writer),
    }
}

/// Prints the table that a device shows, and hands the device back, also where it is refused.
fn check_device<D: Disk, W: Write>(
    alloc: Global,
    device: D,
    detail: Detail,
    writer: &mut W,
) -> Result<D, (D, CheckFault)>
    ensures printed { IfOk result (IsPrinted D.model detail (W.contents writer.old) (W.contents writer.new) device) }
    ensures refused { IfErr result (λ e. IsRefused D.model device e.0 e.1) }
    ensures nothing_printed { IfErr result (λ e. e.1 ≢ Writer → Keeps (W.contents writer.old) (W.contents writer.new)) }
{
    let (store, table) = match recover(alloc, device) {
        Ok(found) => found,
        Err((device, fault)) => return Err((device, CheckFault::Store(fault))),
    };
    let device = store.into_device();
    match print_table(alloc, &table, detail, writer) {
        Ok(()) => Ok(device),
        Err(fault) => Err((device, fault)),
    }
}

/// Recovers the table that a device shows, and prints a line for each BSSID with a policy, rising: how many
/// stations have a row there, and how long its lists are. An empty table prints nothing. It begins with a
/// sync and writes nothing: the device that it hands back reads as before, and a stop within it leaves what
/// could be left before.
///
/// # Errors
///
/// `Store`, with `NotAStore`, `OldVersion`, `Damaged`, `Device` or `NoMemory`, as `apd_store::recover` refuses,
/// where nothing is printed; `Writer` and `NoMemory`, where the device shows a table. The device is then given up,
/// and no more was done with it than where it is handed back.
pub fn run_check<D: Disk + Drop, W: Write>(
    alloc: Global,
    device: D,
    writer: &mut W,
) -> Result<D, CheckFault>
    ensures printed { IfOk result (IsPrinted D.model Counts (W.contents writer.old) (W.contents writer.new) device) }
    ensures refused { IfErr result (IsGivenUp D.model device) }
    ensures nothing_printed { IfErr result (λ fault. fault ≢ Writer
        → Keeps (W.contents writer.old) (W.contents writer.new)) }
{
    run_check_with(alloc, device, Detail::Counts, writer)
}

/// As `run_check`, in this detail.
///
/// # Errors
///
/// Those of `run_check`.
pub fn run_check_with<D: Disk + Drop, W: Write>(
    alloc: Global,
    device: D,
    detail: Detail,
    writer: &mut W,
) -> Result<D, CheckFault>
    ensures printed { IfOk result (IsPrinted D.model detail (W.contents writer.old) (W.contents writer.new) device) }
    ensures refused { IfErr result (IsGivenUp D.model device) }
    ensures nothing_printed { IfErr result (λ fault. fault ≢ Writer
        → Keeps (W.contents writer.old) (W.contents writer.new)) }
{
    match check_device(alloc, device, detail, writer) {
        Ok(device) => Ok(device),
        Err((_device, fault)) => Err(fault),
    }
}
