//! The answer to an authentication request (IEEE Std 802.11-2016, 11.3.4.3).
ghost use Rattle.std.specs.Prelude.{◌≡◌, ◌==◌, IsSome, IfOk};
ghost use Rattle.apd_base.specs.State.{policy_at};
ghost use Rattle.apd_mlme.specs.rules.Authentication.{auth_status, auth_verdict, auth_response, is_full};

use crate::decision::reply_out;
use crate::draft::Draft;
use apd_base::{Bssid, Sequence, Station};
use apd_conf::Conf;
use apd_frame::{Authentication, Reply, ReplyBody, Status};
use apd_record::{Change, Changes};
use apd_table::Table;
use std::alloc::{AllocError, Global};

/// The number of the Open System algorithm (9.4.1.1).
const OPEN_SYSTEM: u16 = 0;

fn is_full(table: &Table, bssid: Bssid) -> bool
    ensures { result ≡ is_full table.now bssid }
{
    match table.policy(bssid) {
        Some((_, max)) => max as usize <= table.count(bssid),
        None => true,
    }
}

fn status_of(table: &Table, conf: &Conf, bssid: Bssid, request: &Authentication) -> Status
    ensures { result ≡ auth_status table.now conf.now bssid request.now }
{
    if !(request.algorithm == OPEN_SYSTEM && conf.auth_algs.allows_open()) {
        return Status::NotSupportedAuthAlgorithm;
    }
    if request.transaction != 1 {
        return Status::TransactionSequenceError;
    }
    if !table.allowed(bssid, request.sender) {
        return Status::RefusedReasonUnspecified;
    }
    if table.get(bssid, request.sender).is_none() && is_full(table, bssid) {
        return Status::DeniedNoMoreStas;
    }
    Status::Success
}

fn response(bssid: Bssid, request: &Authentication, status: Status) -> Reply
    ensures { result ≡ auth_response bssid request.now status }
{
    Reply {
        to: request.sender,
        bssid,
        body: ReplyBody::Auth {
            algorithm: request.algorithm,
            transaction: request.transaction.wrapping_add(1),
            status,
        },
    }
}

/// What an authentication request at a BSSID brings about: the response, and the row of a station
/// that is taken in.
pub fn answer(
    alloc: Global,
    table: &Table,
    conf: &Conf,
    bssid: Bssid,
    request: &Authentication,
) -> Result<Draft, AllocError>
    ensures changes { IfOk result (λ d. d.changes ≡ (auth_verdict table.now conf.now bssid request.now).changes) }
    ensures outs { IfOk result (λ d. d.outs ≡ (auth_verdict table.now conf.now bssid request.now).outs) }
{
    let status = status_of(table, conf, bssid, request);
    let mut changes = Changes::new(alloc);
    if status == Status::Success && table.get(bssid, request.sender).is_none() {
        changes.push(Change::Put {
            bssid,
            addr: request.sender,
            station: Station::Authenticated,
        })?;
    }
    let mut outs = Sequence::new(alloc);
    outs.push(reply_out(alloc, &response(bssid, request, status))?)?;
    Ok(Draft { changes, outs })
}
