//! Control commands that send stations away (own; IEEE Std 802.11-2016, 11.3.4.4 and 11.3.5.8).
ghost use Rattle.std.specs.Prelude.{◌≡◌, IfOk};
ghost use Rattle.std.specs.Ordering.{eq_by_cmp};
ghost use Rattle.apd_base.specs.Addr.{addr_cmp};
ghost use Rattle.apd_base.specs.declared.address.TheConstants.{BROADCAST};
ghost use Rattle.apd_mlme.specs.rules.Commands.{farewell, kick_by_deauthentication, kick_by_disassociation, kick_of_all, kick_verdict, unanswered_kick};

use crate::command_answer::{Answer, with_answer};
use crate::decision::reply_out;
use crate::draft::Draft;
use crate::leaving::{
    deauthentication, disassociation, push_outs_of_drop, push_outs_of_end, push_removal, put_back,
    row_drop,
};
use apd_base::{Addr, BROADCAST, Bssid, Sequence, Station};
use apd_frame::{Reason, Reply};
use apd_record::{Change, Changes};
use apd_table::Table;
use std::alloc::{AllocError, Global};

fn is_broadcast(addr: Addr) -> bool
    ensures { result ≡ eq_by_cmp addr_cmp addr BROADCAST }
{
    addr.cmp(&BROADCAST).is_eq()
}

/// The frame that a station is sent away with.
fn farewell(bssid: Bssid, to: Addr, reason: Reason, deauth: bool) -> Reply
    ensures { result ≡ farewell bssid to reason deauth }
{
    if deauth {
        deauthentication(bssid, to, reason)
    } else {
        disassociation(bssid, to, reason)
    }
}

/// A station is deauthenticated: it has no row from then on.
fn kick_by_deauthentication(
    alloc: Global,
    table: &Table,
    bssid: Bssid,
    to: Addr,
    reason: Reason,
) -> Result<Draft, AllocError>
    ensures changes { IfOk result (λ d. d.changes ≡ (kick_by_deauthentication table.now bssid to reason).changes) }
    ensures outs { IfOk result (λ d. d.outs ≡ (kick_by_deauthentication table.now bssid to reason).outs) }
{
    match table.get(bssid, to) {
        Some(_) => {
            let mut outs = Sequence::new(alloc);
            push_outs_of_drop(alloc, table, bssid, to, reason, &mut outs)?;
            row_drop(alloc, bssid, to, outs)
        }
        None => Draft::only_reply(alloc, &deauthentication(bssid, to, reason)),
    }
}

/// A station is disassociated: where it was associated it is authenticated from then on.
fn kick_by_disassociation(
    alloc: Global,
    table: &Table,
    bssid: Bssid,
    to: Addr,
    reason: Reason,
) -> Result<Draft, AllocError>
    ensures changes { IfOk result (λ d. d.changes ≡ (kick_by_disassociation table.now bssid to reason).changes) }
    ensures outs { IfOk result (λ d. d.outs ≡ (kick_by_disassociation table.now bssid to reason).outs) }
{
    match table.get(bssid, to) {
        Some(Station::Associated(_)) => {
            let mut outs = Sequence::new(alloc);
            push_outs_of_end(alloc, bssid, to, reason, &mut outs)?;
            put_back(alloc, bssid, to, outs)
        }
        Some(Station::Authenticated) | None => {
            Draft::only_reply(alloc, &disassociation(bssid, to, reason))
        }
    }
}

/// All stations of the BSSID are sent away with one frame: none has a row from then on.
fn kick_of_all(
    alloc: Global,
    table: &Table,
    bssid: Bssid,
    reason: Reason,
    deauth: bool,
) -> Result<Draft, AllocError>
    ensures changes { IfOk result (λ d. d.changes ≡ (kick_of_all table.now bssid reason deauth).changes) }
    ensures outs { IfOk result (λ d. d.outs ≡ (kick_of_all table.now bssid reason deauth).outs) }
{
    let all = table.addresses(alloc, bssid)?;
    let mut changes = Changes::new(alloc);
    let mut outs = Sequence::new(alloc);
    for addr in all.as_slice() {
        changes.push(Change::Drop { bssid, addr: *addr })?;
        push_removal(table, bssid, *addr, &mut outs)?;
    }
    outs.push(reply_out(alloc, &farewell(bssid, BROADCAST, reason, deauth))?)?;
    Ok(Draft { changes, outs })
}

fn unanswered_kick(
    alloc: Global,
    table: &Table,
    bssid: Bssid,
    to: Addr,
    reason: Reason,
    deauth: bool,
) -> Result<Draft, AllocError>
    ensures changes { IfOk result (λ d. d.changes ≡ (unanswered_kick table.now bssid to reason deauth).changes) }
    ensures outs { IfOk result (λ d. d.outs ≡ (unanswered_kick table.now bssid to reason deauth).outs) }
{
    if is_broadcast(to) {
        kick_of_all(alloc, table, bssid, reason, deauth)
    } else if deauth {
        kick_by_deauthentication(alloc, table, bssid, to, reason)
    } else {
        kick_by_disassociation(alloc, table, bssid, to, reason)
    }
}

/// What a command brings about that sends a station away, or all of the BSSID's where the address is the
/// broadcast address. It is always obeyed.
pub fn kick(
    alloc: Global,
    table: &Table,
    bssid: Bssid,
    to: Addr,
    reason: Reason,
    deauth: bool,
    tag: u64,
) -> Result<Draft, AllocError>
    ensures changes { IfOk result (λ d. d.changes ≡ (kick_verdict table.now bssid to reason deauth tag).changes) }
    ensures outs { IfOk result (λ d. d.outs ≡ (kick_verdict table.now bssid to reason deauth tag).outs) }
{
    let decision = unanswered_kick(alloc, table, bssid, to, reason, deauth)?;
    with_answer(alloc, tag, Answer::Done, decision)
}
