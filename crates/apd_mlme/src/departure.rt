//! What a station brings about that leaves, or that sends data (IEEE Std 802.11-2016, 11.3.5.9, 11.3.4.5
//! and 11.3.3).
ghost use Rattle.std.specs.Prelude.{◌≡◌, false, IfOk, OnErr};
ghost use Rattle.apd_mlme.specs.rules.Departure.{data_verdict, deauthentication_verdict, disassociation_verdict};
ghost use Rattle.apd_mlme.specs.Verdict.{is_nothing};

use crate::decision::{Out, Recipient};
use crate::draft::Draft;
use crate::leaving::{deauthentication, disassociation, push_removal, put_back, row_drop};
use apd_base::{Addr, Bssid, Sequence, Station};
use apd_frame::Reason;
use apd_table::Table;
use std::alloc::{AllocError, Global};

/// What a disassociation from a station brings about. Where that is nothing it takes no memory.
pub fn disassociation_draft(
    alloc: Global,
    table: &Table,
    bssid: Bssid,
    sender: Addr,
) -> Result<Draft, AllocError>
    ensures changes { IfOk result (λ d. d.changes ≡ (disassociation_verdict table.now bssid sender).changes) }
    ensures outs { IfOk result (λ d. d.outs ≡ (disassociation_verdict table.now bssid sender).outs) }
    ensures lacks { OnErr result (is_nothing (disassociation_verdict table.now bssid sender) ≡ false) }
{
    match table.get(bssid, sender) {
        Some(Station::Associated(_)) => {
            let mut outs = Sequence::new(alloc);
            outs.push((Recipient::Radio(bssid), Out::Remove(sender)))?;
            put_back(alloc, bssid, sender, outs)
        }
        Some(Station::Authenticated) => Ok(Draft::nothing(alloc)),
        None => {
            Draft::only_reply(
                alloc,
                &deauthentication(bssid, sender, Reason::INVALID_CLASS2_FRAME),
            )
        }
    }
}

/// What a deauthentication from a station brings about. Where that is nothing it takes no memory.
pub fn deauthentication_draft(
    alloc: Global,
    table: &Table,
    bssid: Bssid,
    sender: Addr,
) -> Result<Draft, AllocError>
    ensures changes { IfOk result (λ d. d.changes ≡ (deauthentication_verdict table.now bssid sender).changes) }
    ensures outs { IfOk result (λ d. d.outs ≡ (deauthentication_verdict table.now bssid sender).outs) }
    ensures lacks { OnErr result (is_nothing (deauthentication_verdict table.now bssid sender) ≡ false) }
{
    if table.get(bssid, sender).is_none() {
        return Ok(Draft::nothing(alloc));
    }
    let mut outs = Sequence::new(alloc);
    push_removal(table, bssid, sender, &mut outs)?;
    row_drop(alloc, bssid, sender, outs)
}

/// What data from a station bring about. Where that is nothing it takes no memory.
pub fn data_draft(
    alloc: Global,
    table: &Table,
    bssid: Bssid,
    sender: Addr,
) -> Result<Draft, AllocError>
    ensures changes { IfOk result (λ d. d.changes ≡ (data_verdict table.now bssid sender).changes) }
    ensures outs { IfOk result (λ d. d.outs ≡ (data_verdict table.now bssid sender).outs) }
    ensures lacks { OnErr result (is_nothing (data_verdict table.now bssid sender) ≡ false) }
{
    match table.get(bssid, sender) {
        Some(Station::Associated(_)) => Ok(Draft::nothing(alloc)),
        Some(Station::Authenticated) => {
            Draft::only_reply(
                alloc,
                &disassociation(bssid, sender, Reason::INVALID_CLASS3_FRAME),
            )
        }
        None => {
            Draft::only_reply(
                alloc,
                &deauthentication(bssid, sender, Reason::INVALID_CLASS3_FRAME),
            )
        }
    }
}
