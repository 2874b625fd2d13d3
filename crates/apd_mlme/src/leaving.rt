//! The end of an association or of an authentication (IEEE Std 802.11-2016, 11.3.4.4 and 11.3.5.8).
ghost use Rattle.std.specs.Prelude.{◌≡◌, [], ◌∷◌, ◌++◌, map, IfOk, OnOk};
ghost use Rattle.std.specs.List.{flat_map};
ghost use Rattle.apd_base.specs.declared.station.Station.TheVariants.{Authenticated};
ghost use Rattle.apd_frame.specs.declared.codes.TheConstants.Reason.{UNSPECIFIED};
ghost use Rattle.apd_record.specs.declared.change.Change.TheVariants.{Drop, Put};
ghost use Rattle.apd_mlme.specs.rules.Leaving.{deauthentication, disassociation, outs_of_drop, outs_of_end, removal};

use crate::decision::{Out, Recipient, reply_out};
use crate::draft::Draft;
use apd_base::{Addr, Bssid, Sequence, Station};
use apd_frame::{Reason, Reply, ReplyBody};
use apd_record::{Change, Changes};
use apd_table::Table;
use std::alloc::{AllocError, Global};

/// The frame that tells a station that its association is at an end.
pub(crate) fn disassociation(bssid: Bssid, addr: Addr, reason: Reason) -> Reply
    ensures { result ≡ disassociation bssid addr reason }
{
    Reply {
        to: addr,
        bssid,
        body: ReplyBody::Disassoc { reason },
    }
}

/// The frame that tells a station that its authentication is at an end.
pub(crate) fn deauthentication(bssid: Bssid, addr: Addr, reason: Reason) -> Reply
    ensures { result ≡ deauthentication bssid addr reason }
{
    Reply {
        to: addr,
        bssid,
        body: ReplyBody::Deauth { reason },
    }
}

/// Lets the driver let a station go, where it was associated.
pub(crate) fn push_removal(
    table: &Table,
    bssid: Bssid,
    addr: Addr,
    outs: &mut Sequence<(Recipient, Out)>,
) -> Result<(), AllocError>
    ensures { OnOk result (outs.new ≡ outs.old ++ removal table.now bssid addr) }
{
    if let Some(Station::Associated(_)) = table.get(bssid, addr) {
        outs.push((Recipient::Radio(bssid), Out::Remove(addr)))?;
    }
    Ok(())
}

/// Adds what leaves for a station that was associated and is so no more.
pub(crate) fn push_outs_of_end(
    alloc: Global,
    bssid: Bssid,
    addr: Addr,
    reason: Reason,
    outs: &mut Sequence<(Recipient, Out)>,
) -> Result<(), AllocError>
    ensures { OnOk result (outs.new ≡ outs.old ++ outs_of_end bssid addr reason) }
{
    outs.push((Recipient::Radio(bssid), Out::Remove(addr)))?;
    outs.push(reply_out(alloc, &disassociation(bssid, addr, reason))?)
}

/// Adds what leaves for a station whose row is dropped.
pub(crate) fn push_outs_of_drop(
    alloc: Global,
    table: &Table,
    bssid: Bssid,
    addr: Addr,
    reason: Reason,
    outs: &mut Sequence<(Recipient, Out)>,
) -> Result<(), AllocError>
    ensures { OnOk result (outs.new ≡ outs.old ++ outs_of_drop table.now bssid addr reason) }
{
    push_removal(table, bssid, addr, outs)?;
    outs.push(reply_out(alloc, &deauthentication(bssid, addr, reason))?)
}

/// A station is authenticated and not associated from now on; these outs leave.
pub(crate) fn put_back(
    alloc: Global,
    bssid: Bssid,
    addr: Addr,
    outs: Sequence<(Recipient, Out)>,
) -> Result<Draft, AllocError>
    ensures changes { IfOk result (λ d. d.changes ≡ Put bssid addr Authenticated ∷ []) }
    ensures outs { IfOk result (λ d. d.outs ≡ outs) }
{
    let mut changes = Changes::new(alloc);
    changes.push(Change::Put {
        bssid,
        addr,
        station: Station::Authenticated,
    })?;
    Ok(Draft { changes, outs })
}

/// A station has no row from now on; these outs leave.
pub(crate) fn row_drop(
    alloc: Global,
    bssid: Bssid,
    addr: Addr,
    outs: Sequence<(Recipient, Out)>,
) -> Result<Draft, AllocError>
    ensures changes { IfOk result (λ d. d.changes ≡ Drop bssid addr ∷ []) }
    ensures outs { IfOk result (λ d. d.outs ≡ outs) }
{
    let mut changes = Changes::new(alloc);
    changes.push(Change::Drop { bssid, addr })?;
    Ok(Draft { changes, outs })
}

/// Stations that the policy denies have no row from now on, one after the other, and are told so.
pub(crate) fn drop_denied(
    alloc: Global,
    table: &Table,
    bssid: Bssid,
    denied: &[Addr],
) -> Result<Draft, AllocError>
    ensures changes { IfOk result (λ d. d.changes ≡ map (λ a. Drop bssid a) denied.now) }
    ensures outs { IfOk result (λ d. d.outs ≡ flat_map (λ a. outs_of_drop table.now bssid a UNSPECIFIED) denied.now) }
{
    let mut changes = Changes::new(alloc);
    let mut outs = Sequence::new(alloc);
    for addr in denied {
        changes.push(Change::Drop { bssid, addr: *addr })?;
        push_outs_of_drop(alloc, table, bssid, *addr, Reason::UNSPECIFIED, &mut outs)?;
    }
    Ok(Draft { changes, outs })
}
