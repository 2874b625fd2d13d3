//! The station management entity: what an event changes in the table, and what leaves for the
//! radios because of it (IEEE Std 802.11-2016, clause 11.3).
#![tactic(auto)]

ghost use Rattle.std.specs.Prelude.{◌≡◌, ◌≤◌, false, length, IfOk, OnErr};
ghost use Rattle.apd_frame.specs.Contents.{contents};
ghost use Rattle.apd_record.specs.Meaning.{meaning_of};
ghost use Rattle.apd_record.specs.Ranges.{AreChanges};
ghost use Rattle.apd_record.specs.Record.{records_of};
ghost use Rattle.apd_table.specs.Sound.{StaySound};
ghost use Rattle.apd_mlme.specs.laws.Driver.{FollowsDrivers};
ghost use Rattle.apd_mlme.specs.declared.decision.TheConstants.{MAX_RECORD_BYTES};
ghost use Rattle.apd_event.specs.Happening.{happening};
ghost use Rattle.apd_mlme.specs.rules.{verdict, heard_verdict, IsFit};
ghost use Rattle.apd_mlme.specs.Verdict.{is_nothing};

mod association;
mod authentication;
mod command_answer;
mod configuration;
mod decision;
mod departure;
mod draft;
mod inactivity;
mod kick;
pub mod laws;
mod leaving;
mod list_edit;
mod offer;
mod probe_request;

use apd_base::Bssid;
use apd_conf::{Conf, Confs};
pub use apd_event::{Edit, Event};
use apd_frame::Frame;
use apd_table::Table;
use association::Kind;
pub use command_answer::Answer;
pub use decision::{Decision, MAX_RECORD_BYTES, Out, Recipient};
use draft::Draft;
use std::alloc::{AllocError, Global};

/// What a fit event brings about: its changes, in an order in which each of them leaves a sound
/// table, and its outs. A frame, a command or a silence is fit where its BSSID is configured and has a
/// policy row; a start, where the BSSID is configured, has a policy row or fewer than eight BSSIDs have one, and both
/// lists rise without doubles and have at most 1024 addresses.
pub fn decide(
    alloc: Global,
    table: &Table,
    confs: &Confs,
    event: Event<'_>,
) -> Result<Decision, AllocError>
    requires { IsFit table.now confs.now (happening event) }
    ensures changes { IfOk result (λ d. d.changes ≡ (verdict table.now confs.now (happening event.entry)).changes) }
    ensures outs { IfOk result (λ d. d.outs ≡ (verdict table.now confs.now (happening event.entry)).outs) }

    // What the changes mean is the state after the event, and each of them leaves a sound state.
    ensures meaning { IfOk result
        (λ d. meaning_of d.changes table.now ≡ (verdict table.now confs.now (happening event.entry)).state) }
    ensures sound { IfOk result (λ d. StaySound d.changes table.now) }

    // The records of its changes have at most 28,682 bytes.
    ensures records { IfOk result (λ d. length (records_of d.changes) ≤ MAX_RECORD_BYTES) }

    // What leaves keeps the driver of each configured BSSID at its associated stations.
    ensures driver { IfOk result
        (λ d. FollowsDrivers confs.now d.outs table.now (verdict table.now confs.now (happening event.entry)).state) }

    // It takes memory only where something changes or leaves.
    ensures lacks { OnErr result (is_nothing (verdict table.now confs.now (happening event.entry)) ≡ false) }
{
    table.sound();
    decide_fit(alloc, table, confs, event)
}

fn decide_fit(
    alloc: Global,
    table: &Table,
    confs: &Confs,
    event: Event<'_>,
) -> Result<Decision, AllocError>
    requires { IsFit table.now confs.now (happening event) }
    ensures changes { IfOk result (λ d. d.changes ≡ (verdict table.now confs.now (happening event.entry)).changes) }
    ensures outs { IfOk result (λ d. d.outs ≡ (verdict table.now confs.now (happening event.entry)).outs) }
    ensures known { IfOk result (λ d. AreChanges d.changes) }
    ensures lacks { OnErr result (is_nothing (verdict table.now confs.now (happening event.entry)) ≡ false) }
{
    let conf = confs.with_bssid(event.bssid()).unwrap();
    let draft = match event {
        Event::Heard(bssid, frame) => decide_frame(alloc, table, confs, conf, bssid, frame)?,
        Event::Kick {
            bssid,
            to,
            reason,
            deauth,
            tag,
        } => kick::kick(alloc, table, bssid, to, reason, deauth, tag)?,
        Event::ListEdit {
            bssid,
            which,
            edit,
            tag,
        } => list_edit::list_edit(alloc, table, bssid, which, edit, tag)?,
        Event::Expire { bssid, addr } => inactivity::expire(alloc, table, bssid, addr)?,
        Event::Configure {
            bssid,
            accept,
            deny,
        } => configuration::configure(alloc, table, conf, bssid, accept, deny)?,
    };
    Ok(draft.into_decision())
}

fn decide_frame(
    alloc: Global,
    table: &Table,
    confs: &Confs,
    conf: &Conf,
    bssid: Bssid,
    frame: Frame<'_>,
) -> Result<Draft, AllocError>
    ensures changes { IfOk result
        (λ d. d.changes ≡ (heard_verdict table.now confs.now conf.now bssid (contents frame.entry)).changes) }
    ensures outs { IfOk result
        (λ d. d.outs ≡ (heard_verdict table.now confs.now conf.now bssid (contents frame.entry)).outs) }
    ensures lacks { OnErr result
        (is_nothing (heard_verdict table.now confs.now conf.now bssid (contents frame.entry)) ≡ false) }
{
    match frame {
        Frame::Auth(request) => authentication::answer(alloc, table, conf, bssid, &request),
        Frame::Assoc(request) => {
            let kind = Kind::Association;
            association::answer(alloc, table, confs, conf, bssid, kind, &request)
        }
        Frame::Reassoc(request) => {
            let kind = Kind::Reassociation;
            let request = association::without_current_ap(request);
            association::answer(alloc, table, confs, conf, bssid, kind, &request)
        }
        Frame::Probe(request) => probe_request::answer(alloc, conf, bssid, &request),
        Frame::Disassoc { sender, .. } => departure::disassociation_draft(
            alloc, table, bssid, sender,
        ),
        Frame::Deauth { sender, .. } => departure::deauthentication_draft(
            alloc, table, bssid, sender,
        ),
        Frame::Uplink { sender } => departure::data_draft(alloc, table, bssid, sender),
    }
}
