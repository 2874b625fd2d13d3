//! The stations of a BSSID and the addresses of its lists, a line each.
ghost use Rattle.std.specs.Prelude.{◌≡◌, ◌++◌, IfOk, OnOk};
ghost use Rattle.std.specs.String.{string_bytes};
ghost use Rattle.apd_maintenance.specs.Listing.{list_lines, list_word, listed_line, rows_text, state_text, station_line, station_lines};

use apd_base::{Addr, Bssid, Station, Which};
use apd_table::Table;
use std::alloc::{AllocError, Global};

/// What stands behind a station's address.
fn state_text(alloc: Global, station: Station) -> Result<String, AllocError>
    ensures { IfOk result (λ text. string_bytes text ≡ state_text station) }
{
    match station {
        Station::Authenticated => String::from_str(alloc, " authenticated\n"),
        Station::Associated(fields) => {
            let aid = fields.aid.number;
            format!(in alloc; " associated {aid}\n")
        }
    }
}

fn push_station(
    alloc: Global,
    text: &mut Vec<u8>,
    addr: Addr,
    station: Station,
) -> Result<(), AllocError>
    ensures { OnOk result (text.new.items ≡ text.old.items ++ station_line addr station) }
{
    text.extend_from_slice(b"station ")?;
    addr.write_text(text)?;
    let state = state_text(alloc, station)?;
    text.extend_from_slice(state.as_bytes())
}

/// The lines of these stations of a BSSID that have a row.
fn station_lines(
    alloc: Global,
    table: &Table,
    bssid: Bssid,
    addresses: &[Addr],
) -> Result<Vec<u8>, AllocError>
    ensures { IfOk result (λ text. text.items ≡ station_lines table.now bssid addresses.now) }
{
    let mut text = Vec::new(alloc);
    for addr in addresses {
        if let Some(station) = table.get(bssid, *addr) {
            push_station(alloc, &mut text, *addr, station)?;
        }
    }
    Ok(text)
}

/// The word before each address of a list.
fn list_word(which: Which) -> &'static str
    ensures { result.now ≡ list_word which }
{
    match which {
        Which::Accept => "accept ",
        Which::Deny => "deny ",
    }
}

fn push_listed(text: &mut Vec<u8>, which: Which, addr: Addr) -> Result<(), AllocError>
    ensures { OnOk result (text.new.items ≡ text.old.items ++ listed_line which addr) }
{
    text.extend_from_slice(list_word(which).as_bytes())?;
    addr.write_text(text)?;
    text.extend_from_slice(b"\n")
}

/// The lines of a list of a BSSID, rising.
fn list_lines(
    alloc: Global,
    table: &Table,
    bssid: Bssid,
    which: Which,
) -> Result<Vec<u8>, AllocError>
    ensures { IfOk result (λ text. text.items ≡ list_lines table.now bssid which) }
{
    table.sound();
    let mut text = Vec::new(alloc);
    let Some(lists) = table.lists(bssid) else {
        return Ok(text);
    };
    let mut next = lists.least(which);
    for _place in 0..lists.len(which) {
        let addr = next.unwrap();
        push_listed(&mut text, which, addr)?;
        next = lists.after(which, addr);
    }
    Ok(text)
}

/// The lines of a BSSID's stations, and those of its lists.
pub(crate) fn rows_text(alloc: Global, table: &Table, bssid: Bssid) -> Result<Vec<u8>, AllocError>
    ensures { IfOk result (λ text. text.items ≡ rows_text table.now bssid) }
{
    let addresses = table.addresses(alloc, bssid)?;
    let mut text = station_lines(alloc, table, bssid, addresses.as_slice())?;
    let accepted = list_lines(alloc, table, bssid, Which::Accept)?;
    text.extend_from_slice(accepted.as_slice())?;
    let denied = list_lines(alloc, table, bssid, Which::Deny)?;
    text.extend_from_slice(denied.as_slice())?;
    Ok(text)
}
