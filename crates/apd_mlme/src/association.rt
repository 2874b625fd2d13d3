//! The answer to an association or a reassociation request (IEEE Std 802.11-2016, 11.3.5.3 and 11.3.5.5).
ghost use Rattle.std.specs.Prelude.{◌≡◌, ◌∷◌, ◌++◌, None, Some, false, is_some, IsSome, IfOk, OnOk};
ghost use Rattle.std.specs.Option.{option_copied};
ghost use Rattle.apd_base.specs.State.{station_at, aid_at};
ghost use Rattle.apd_frame.specs.Contents.{association, reassociation};
ghost use Rattle.apd_record.specs.declared.change.Change.TheVariants.{Put};
ghost use Rattle.apd_mlme.specs.rules.Association.{acceptance_of, association_response, association_status, association_verdict, body_of, bssids_elsewhere, installation, is_elsewhere, is_named, outs_elsewhere, put_backs, row_of, without_current_ap};
ghost use Rattle.apd_mlme.specs.rules.Identifiers.{cursor_changes, identifier_for, next_free, number_of};
ghost use Rattle.apd_mlme.specs.Verdict.{is_nothing};

use crate::decision::{Out, Recipient, reply_out};
use crate::draft::Draft;
use crate::leaving::{deauthentication, push_outs_of_end};
use crate::offer::rates;
use apd_base::{Addr, Aid, Association as Membership, Bssid, Sequence, Station, StationNumber};
use apd_conf::{Conf, Confs};
use apd_frame::{
    Association, AssociationResponse, Reason, Reassociation, Reply, ReplyBody, SSID,
    SUPPORTED_RATES, Status, first_with, well_formed,
};
use apd_record::{Change, Changes};
use apd_table::Table;
use std::alloc::{AllocError, Global};

/// Which of the two requests it is. They are decided alike, and each has its response.
#[derive(Clone, Copy, Debug, PartialEq, Eq)]
pub enum Kind {
    /// IEEE Std 802.11-2016, 11.3.5.3.
    Association,
    /// 11.3.5.5.
    Reassociation,
}

/// The same request without the access point that it names, which is not looked at.
pub(crate) fn without_current_ap<'a>(request: Reassociation<'a>) -> Association<'a>
    ensures { association result ≡ without_current_ap (reassociation request.entry) }
{
    Association {
        sender: request.sender,
        capability: request.capability,
        listen_interval: request.listen_interval,
        elements: request.elements,
    }
}

fn is_named(conf: &Conf, ssid: Option<&[u8]>) -> bool
    ensures { result ≡ is_named conf.now (option_copied ssid.entry) }
{
    let Some(ssid) = ssid else {
        return false;
    };
    ssid == conf.ssid.as_bytes()
}

fn status_of(conf: &Conf, request: &Association<'_>) -> Status
    ensures { result ≡ association_status conf.now (association request.now) }
{
    if !well_formed(request.elements) {
        return Status::RefusedReasonUnspecified;
    }
    if !is_named(conf, first_with(request.elements, SSID)) {
        return Status::RefusedReasonUnspecified;
    }
    if first_with(request.elements, SUPPORTED_RATES).is_none() {
        return Status::RefusedReasonUnspecified;
    }
    if conf.max_listen_interval < request.listen_interval {
        return Status::DeniedListenIntervalTooLarge;
    }
    Status::Success
}

fn body(kind: Kind, response: AssociationResponse) -> ReplyBody
    ensures { result ≡ body_of kind response }
{
    match kind {
        Kind::Association => ReplyBody::Assoc(response),
        Kind::Reassociation => ReplyBody::Reassoc(response),
    }
}

fn response(
    conf: &Conf,
    bssid: Bssid,
    kind: Kind,
    sender: Addr,
    status: Status,
    aid: Option<Aid>,
) -> Reply
    ensures { result ≡ association_response conf.now bssid kind sender status aid }
{
    let rates = rates(conf);
    Reply {
        to: sender,
        bssid,
        body: body(kind, AssociationResponse { status, aid, rates }),
    }
}

fn is_associated(table: &Table, bssid: Bssid, addr: Addr) -> bool
    ensures { result ≡ is_some (aid_at table.now bssid addr) }
{
    match table.get(bssid, addr) {
        Some(Station::Associated(_)) => true,
        Some(Station::Authenticated) | None => false,
    }
}

/// The next identifier, for a station that has none.
fn next_free(table: &Table, bssid: Bssid, sender: Addr) -> Aid
    requires known { IsSome (station_at table.now bssid sender) }
    requires without { aid_at table.now bssid sender ≡ None }
    ensures { next_free table.now bssid ≡ Some result }
{
    table.sound();
    let number = table.next_free(bssid).unwrap();
    Aid::new(number).unwrap()
}

/// The identifier of a station that associates: its own, or the next one.
fn identifier(table: &Table, bssid: Bssid, sender: Addr) -> Aid
    requires { IsSome (station_at table.now bssid sender) }
    ensures { identifier_for table.now bssid (station_at table.now bssid sender) ≡ Some result }
{
    match table.get(bssid, sender) {
        Some(Station::Associated(membership)) => membership.aid,
        Some(Station::Authenticated) | None => next_free(table, bssid, sender),
    }
}

fn is_elsewhere(table: &Table, bssid: Bssid, sender: Addr, other: Bssid) -> bool
    ensures { result ≡ is_elsewhere table.now bssid sender other }
{
    bssid.cmp(&other).is_ne() && is_associated(table, other, sender)
}

/// The other BSSIDs that have a station associated, rising.
fn bssids_elsewhere(
    alloc: Global,
    table: &Table,
    bssid: Bssid,
    sender: Addr,
) -> Result<Sequence<Bssid>, AllocError>
    ensures { IfOk result (λ others. others ≡ bssids_elsewhere table.now bssid sender) }
{
    let mut others = Sequence::new(alloc);
    for place in 0..table.bss_count() {
        let other = table.bss(place).unwrap();
        if is_elsewhere(table, bssid, sender, other) {
            others.push(other)?;
        }
    }
    Ok(others)
}

/// Adds the rows in which a station is only authenticated at these BSSIDs.
fn push_put_backs(sender: Addr, others: &[Bssid], changes: &mut Changes) -> Result<(), AllocError>
    ensures { OnOk result (changes.new ≡ changes.old ++ put_backs sender others.now) }
{
    for other in others {
        changes.push(Change::Put {
            bssid: *other,
            addr: sender,
            station: Station::Authenticated,
        })?;
    }
    Ok(())
}

/// Adds what leaves for the end of a station's association at these BSSIDs. One that is not configured
/// has no radio.
fn push_outs_elsewhere(
    alloc: Global,
    confs: &Confs,
    sender: Addr,
    others: &[Bssid],
    outs: &mut Sequence<(Recipient, Out)>,
) -> Result<(), AllocError>
    ensures { OnOk result (outs.new ≡ outs.old ++ outs_elsewhere confs.now sender others.now) }
{
    for other in others {
        if confs.with_bssid(*other).is_some() {
            push_outs_of_end(alloc, *other, sender, Reason::UNSPECIFIED, outs)?;
        }
    }
    Ok(())
}

/// Lets the driver take a station in, where it was not associated before.
fn push_installation(
    table: &Table,
    bssid: Bssid,
    sender: Addr,
    aid: Aid,
    outs: &mut Sequence<(Recipient, Out)>,
) -> Result<(), AllocError>
    ensures { OnOk result (outs.new ≡ outs.old ++ installation table.now bssid sender aid) }
{
    if !is_associated(table, bssid, sender) {
        outs.push((Recipient::Radio(bssid), Out::Install(sender, aid)))?;
    }
    Ok(())
}

/// The row of a station that is associated as it asked.
fn row(request: &Association<'_>, aid: Aid) -> Station
    ensures { result ≡ row_of (association request.now) aid }
{
    Station::Associated(Membership {
        aid,
        capability: request.capability,
        listen_interval: request.listen_interval,
    })
}

/// An identifier, as the one that was given last.
fn number(aid: Aid) -> StationNumber
    ensures { result ≡ number_of aid }
{
    StationNumber { number: aid.number }
}

/// Adds that an identifier was given, where the station was not associated before.
fn push_cursor(
    table: &Table,
    bssid: Bssid,
    sender: Addr,
    aid: Aid,
    changes: &mut Changes,
) -> Result<(), AllocError>
    ensures { OnOk result (changes.new ≡ changes.old ++ cursor_changes table.now bssid sender aid) }
{
    if !is_associated(table, bssid, sender) {
        let last = number(aid);
        changes.push(Change::Cursor { bssid, last })?;
    }
    Ok(())
}

/// What a request that is accepted changes, where these other BSSIDs have the station associated.
fn accepted_changes(
    alloc: Global,
    table: &Table,
    bssid: Bssid,
    request: &Association<'_>,
    aid: Aid,
    others: &[Bssid],
) -> Result<Changes, AllocError>
    ensures { IfOk result
        (λ changes. changes
        ≡ put_backs request.now.sender others.now
        ++ Put bssid request.now.sender (row_of (association request.now) aid)
        ∷ cursor_changes table.now bssid request.now.sender aid) }
{
    let sender = request.sender;
    let mut changes = Changes::new(alloc);
    push_put_backs(sender, others, &mut changes)?;
    changes.push(Change::Put {
        bssid,
        addr: sender,
        station: row(request, aid),
    })?;
    push_cursor(table, bssid, sender, aid, &mut changes)?;
    Ok(changes)
}

/// What leaves for a request that is accepted, before the response.
fn accepted_outs(
    alloc: Global,
    table: &Table,
    confs: &Confs,
    bssid: Bssid,
    sender: Addr,
    aid: Aid,
    others: &[Bssid],
) -> Result<Sequence<(Recipient, Out)>, AllocError>
    ensures { IfOk result
        (λ outs. outs ≡ outs_elsewhere confs.now sender others.now ++ installation table.now bssid sender aid) }
{
    let mut outs = Sequence::new(alloc);
    push_outs_elsewhere(alloc, confs, sender, others, &mut outs)?;
    push_installation(table, bssid, sender, aid, &mut outs)?;
    Ok(outs)
}

/// What a request that is accepted brings about.
fn accept(
    alloc: Global,
    table: &Table,
    confs: &Confs,
    conf: &Conf,
    bssid: Bssid,
    kind: Kind,
    request: &Association<'_>,
) -> Result<Draft, AllocError>
    requires { IsSome (station_at table.now bssid request.now.sender) }
    ensures changes { IfOk result
        (λ d. d.changes
        ≡ (acceptance_of table.now confs.now conf.now bssid kind (association request.now)
        (identifier_for table.now bssid (station_at table.now bssid request.now.sender))).changes) }
    ensures outs { IfOk result
        (λ d. d.outs
        ≡ (acceptance_of table.now confs.now conf.now bssid kind (association request.now)
        (identifier_for table.now bssid (station_at table.now bssid request.now.sender))).outs) }
    ensures some { is_nothing (acceptance_of table.now confs.now conf.now bssid kind (association request.now)
        (identifier_for table.now bssid (station_at table.now bssid request.now.sender))) ≡ false }
{
    let sender = request.sender;
    let aid = identifier(table, bssid, sender);
    let others = bssids_elsewhere(alloc, table, bssid, sender)?;
    let changes = accepted_changes(alloc, table, bssid, request, aid, others.as_slice())?;
    let mut outs = accepted_outs(alloc, table, confs, bssid, sender, aid, others.as_slice())?;
    let reply = response(conf, bssid, kind, sender, Status::Success, Some(aid));
    outs.push(reply_out(alloc, &reply)?)?;
    Ok(Draft { changes, outs })
}

/// What an association or a reassociation request at a BSSID brings about: the response, the row of a
/// station that is accepted, the identifier that it is given, and the end of its association elsewhere.
pub fn answer(
    alloc: Global,
    table: &Table,
    confs: &Confs,
    conf: &Conf,
    bssid: Bssid,
    kind: Kind,
    request: &Association<'_>,
) -> Result<Draft, AllocError>
    ensures changes { IfOk result
        (λ d. d.changes
        ≡ (association_verdict table.now confs.now conf.now bssid kind (association request.now)).changes) }
    ensures outs { IfOk result
        (λ d. d.outs ≡ (association_verdict table.now confs.now conf.now bssid kind (association request.now)).outs) }
    ensures some { is_nothing
        (association_verdict table.now confs.now conf.now bssid kind (association request.now)) ≡ false }
{
    let sender = request.sender;
    if table.get(bssid, sender).is_none() {
        let reason = Reason::INVALID_CLASS2_FRAME;
        return Draft::only_reply(alloc, &deauthentication(bssid, sender, reason));
    }
    let status = status_of(conf, request);
    if status == Status::Success {
        return accept(alloc, table, confs, conf, bssid, kind, request);
    }
    Draft::only_reply(alloc, &response(conf, bssid, kind, sender, status, None))
}
