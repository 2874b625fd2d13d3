//! The replies to queries.
ghost use Rattle.std.specs.Prelude.{◌≡◌, ◌++◌, false, OnOk, IfOk, IfSome, Some, slice_get};
ghost use Rattle.std.specs.Fmt.{digits};
ghost use Rattle.std.specs.List.{find};
ghost use Rattle.std.specs.Option.{is_some};
ghost use Rattle.std.specs.String.{string_bytes};
ghost use Rattle.apd_base.specs.State.{State, station_at};
ghost use Rattle.apd_base.specs.Sets.{contains};
ghost use Rattle.apd_base.specs.declared.address.Addr.{Addr as Address};
ghost use Rattle.apd_base.specs.declared.address.Bssid.{Bssid as At};
ghost use Rattle.apd_base.specs.declared.station.Which.{Which as WhichList};
ghost use Rattle.apd_conf.specs.Confs.{conf_at};
ghost use Rattle.apd_base.specs.Addr.{is_among};
ghost use Rattle.apd_table.specs.Addresses.{addresses_at};
ghost use Rattle.apd_ctrl.specs.Order.{Rising};
ghost use Rattle.apd_ctrl.specs.Texts.{bssid_of, count_lines, found_reply, is_above, lines_of, list_text, listed_addresses, listed_line, radio_lines, row_text, state_word, station_text, status_text, text};
ghost use Rattle.apd_ctrl.specs.Texts as texts;

use crate::command::Query;
use crate::escapes::push_escaped;
use crate::parser::FAIL;
use apd_base::{Addr, Bssid, Station, Which};
use apd_conf::{Conf, Confs};
use apd_table::Table;
use std::alloc::{AllocError, Global};

const PONG: &[u8] = b"PONG\n";

fn hexadecimal(alloc: Global, number: u16) -> Result<String, AllocError>
    ensures { IfOk result (λ text. string_bytes text ≡ digits 16 false number) }
{
    format!(in alloc; "{number:x}")
}

fn station_lines(
    alloc: Global,
    flags: &str,
    aid: u16,
    capability: u16,
    listen_interval: u16,
) -> Result<String, AllocError>
    ensures { IfOk result (λ lines. string_bytes lines ≡ texts.station_lines flags.now aid capability listen_interval) }
{
    let bits = hexadecimal(alloc, capability)?;
    format!(in alloc;
        "\nflags={flags}\naid={aid}\ncapability=0x{bits}\nlisten_interval={listen_interval}\n"
    )
}

fn lines_of(alloc: Global, station: Station) -> Result<String, AllocError>
    ensures { IfOk result (λ lines. string_bytes lines ≡ lines_of station) }
{
    match station {
        Station::Authenticated => station_lines(alloc, "[AUTH]", 0, 0, 0),
        Station::Associated(fields) => station_lines(
            alloc,
            "[AUTH][ASSOC][AUTHORIZED]",
            fields.aid.number,
            fields.capability,
            fields.listen_interval,
        ),
    }
}

fn push_station(
    alloc: Global,
    out: &mut Vec<u8>,
    addr: Addr,
    station: Station,
) -> Result<(), AllocError>
    ensures { OnOk result (out.new.items ≡ out.old.items ++ station_text addr station) }
{
    addr.write_text(out)?;
    let lines = lines_of(alloc, station)?;
    out.extend_from_slice(lines.as_bytes())
}

fn station_reply(alloc: Global, addr: Addr, station: Option<Station>) -> Result<Vec<u8>, AllocError>
    ensures { IfOk result (λ reply. reply.items ≡ texts.station_reply addr station) }
{
    let mut reply = Vec::new(alloc);
    match station {
        None => reply.extend_from_slice(FAIL)?,
        Some(station) => push_station(alloc, &mut reply, addr, station)?,
    }
    Ok(reply)
}

/// The reply that tells a row which was looked for: nothing where there is none.
fn row_reply(alloc: Global, row: Option<(Addr, Station)>) -> Result<Vec<u8>, AllocError>
    ensures { IfOk result (λ reply. reply.items ≡ row_text row) }
{
    match row {
        None => Ok(Vec::new(alloc)),
        Some((addr, station)) => station_reply(alloc, addr, Some(station)),
    }
}

fn first_reply(alloc: Global, table: &Table, bssid: Bssid) -> Result<Vec<u8>, AllocError>
    ensures { IfOk result
        (λ reply. reply.items ≡ found_reply table.now bssid (slice_get (addresses_at table.now bssid) 0)) }
{
    row_reply(alloc, table.first(bssid))
}

/// The reply that tells the row behind an address.
fn reply_behind(
    alloc: Global,
    table: &Table,
    bssid: Bssid,
    addr: Addr,
) -> Result<Vec<u8>, AllocError>
    ensures { IfOk result
        (λ reply. reply.items ≡ found_reply table.now bssid (find (is_above addr) (addresses_at table.now bssid))) }
{
    row_reply(alloc, table.next(bssid, addr))
}

fn next_reply(alloc: Global, table: &Table, bssid: Bssid, addr: Addr) -> Result<Vec<u8>, AllocError>
    ensures { IfOk result
        (λ reply. reply.items ≡ texts.next_reply table.now bssid addr (station_at table.now bssid addr)) }
{
    match table.get(bssid, addr) {
        None => Vec::from_slice(alloc, FAIL),
        Some(_) => reply_behind(alloc, table, bssid, addr),
    }
}

fn push_listed_line(out: &mut Vec<u8>, addr: Addr) -> Result<(), AllocError>
    ensures { OnOk result (out.new.items ≡ out.old.items ++ listed_line addr) }
{
    addr.write_text(out)?;
    out.extend_from_slice(b" VLAN_ID=0\n")
}

fn list_reply(
    alloc: Global,
    table: &Table,
    bssid: Bssid,
    which: Which,
) -> Result<Vec<u8>, AllocError>
    ensures { IfOk result (λ reply. reply.items ≡ list_text table.now bssid which) }
{
    table.sound();
    let mut reply = Vec::new(alloc);
    let Some(lists) = table.lists(bssid) else {
        return Ok(reply);
    };
    let mut next = lists.least(which);
    for _place in 0..lists.len(which) {
        let addr = next.unwrap();
        push_listed_line(&mut reply, addr)?;
        next = lists.after(which, addr);
    }
    Ok(reply)
}

fn state_word(up: bool) -> &'static str
    ensures { result.now ≡ state_word up }
{
    if up { "ENABLED" } else { "DISABLED" }
}

fn radio_lines(alloc: Global, conf: &Conf, up: bool) -> Result<String, AllocError>
    ensures { IfOk result (λ lines. string_bytes lines ≡ radio_lines conf.now up) }
{
    let state = state_word(up);
    let channel = conf.channel;
    let beacon_int = conf.beacon_int;
    let interface = conf.interface.as_str();
    format!(in alloc;
        "state={state}\nchannel={channel}\nbeacon_int={beacon_int}\nbss[0]={interface}\nbssid[0]="
    )
}

fn count_lines(alloc: Global, stations: usize) -> Result<String, AllocError>
    ensures { IfOk result (λ lines. string_bytes lines ≡ count_lines stations) }
{
    format!(in alloc; "\nnum_sta[0]={stations}\n")
}

fn status_reply(
    alloc: Global,
    table: &Table,
    conf: &Conf,
    bssid: Bssid,
    up: bool,
) -> Result<Vec<u8>, AllocError>
    ensures { IfOk result (λ reply. reply.items ≡ status_text table.now conf.now bssid up) }
{
    let mut reply = Vec::new(alloc);
    let radio = radio_lines(alloc, conf, up)?;
    reply.extend_from_slice(radio.as_bytes())?;
    bssid.0.write_text(&mut reply)?;
    reply.extend_from_slice(b"\nssid[0]=")?;
    push_escaped(&mut reply, conf.ssid.as_bytes())?;
    let stations = count_lines(alloc, table.count(bssid))?;
    reply.extend_from_slice(stations.as_bytes())?;
    Ok(reply)
}

/// The reply to a query about a BSSID with this configuration.
fn configured_reply(
    alloc: Global,
    table: &Table,
    confs: &Confs,
    conf: &Conf,
    query: Query,
) -> Result<Vec<u8>, AllocError>
    requires { IfSome (bssid_of query) (λ bssid. conf_at confs.now bssid ≡ Some conf.now) }
    ensures { IfOk result (λ reply. reply.items ≡ text table.now confs.now query) }
{
    match query {
        Query::Ping => Vec::from_slice(alloc, PONG),
        Query::Status(bssid, up) => status_reply(alloc, table, conf, bssid, up),
        Query::Sta(bssid, addr) => station_reply(alloc, addr, table.get(bssid, addr)),
        Query::First(bssid) => first_reply(alloc, table, bssid),
        Query::Next(bssid, addr) => next_reply(alloc, table, bssid, addr),
        Query::Show(bssid, which) => list_reply(alloc, table, bssid, which),
    }
}

/// The reply to a query: its text from the table, and `FAIL` where its BSSID is not configured.
pub fn reply(
    alloc: Global,
    table: &Table,
    confs: &Confs,
    query: Query,
) -> Result<Vec<u8>, AllocError>
    ensures { IfOk result (λ reply. reply.items ≡ text table.now confs.now query) }
{
    let Some(bssid) = query.bssid() else {
        return Vec::from_slice(alloc, PONG);
    };
    let Some(conf) = confs.with_bssid(bssid) else {
        return Vec::from_slice(alloc, FAIL);
    };
    configured_reply(alloc, table, confs, conf, query)
}

/// The addresses that replies go through, in order and each once, are those of the stations with a row at
/// the BSSID, and those of the list.
pub fn addresses_law()
    ensures stations_rise { (s : State) (b : At) → Rising (addresses_at s b) }
    ensures stations { (s : State) (b : At) (a : Address) → is_among a (addresses_at s b) ≡ is_some (station_at s b a) }
    ensures listed_rise { (s : State) (b : At) (w : WhichList) → Rising (listed_addresses s b w) }
    ensures listed { (s : State) (b : At) (w : WhichList) (a : Address)
        → is_among a (listed_addresses s b w) ≡ contains s.lists (b, w, a) }
{}
