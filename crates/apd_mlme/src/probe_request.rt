//! The answer to a probe request (IEEE Std 802.11-2016, 11.1.4.3.4).
ghost use Rattle.std.specs.Prelude.{◌≡◌, [], true, IfOk, OnErr};
ghost use Rattle.std.specs.Option.{option_copied};
ghost use Rattle.apd_frame.specs.Contents.{probe};
ghost use Rattle.apd_mlme.specs.rules.ProbeRequest.{is_answered, is_asked, is_open, probe_outs, probe_response};

use crate::draft::Draft;
use crate::offer::{channel, rates};
use apd_base::{Addr, Bssid};
use apd_conf::{Conf, IgnoreBroadcastSsid};
use apd_frame::{Probe, Reply, ReplyBody, SSID, SsidField, first_with, well_formed};
use std::alloc::{AllocError, Global};

fn is_open(conf: &Conf) -> bool
    ensures { result ≡ is_open conf.now.ignore_broadcast_ssid }
{
    match conf.ignore_broadcast_ssid {
        IgnoreBroadcastSsid::No => true,
        IgnoreBroadcastSsid::Empty | IgnoreBroadcastSsid::Cleared => false,
    }
}

fn is_asked(conf: &Conf, ssid: Option<&[u8]>) -> bool
    ensures { result ≡ is_asked conf.now (option_copied ssid.entry) }
{
    let Some(ssid) = ssid else {
        return false;
    };
    ssid == conf.ssid.as_bytes() || (ssid.is_empty() && is_open(conf))
}

fn is_answered(conf: &Conf, elements: &[u8]) -> bool
    ensures { result ≡ is_answered conf.now elements.now }
{
    well_formed(elements) && is_asked(conf, first_with(elements, SSID))
}

fn response(alloc: Global, conf: &Conf, bssid: Bssid, sender: Addr) -> Result<Reply, AllocError>
    ensures { IfOk result (λ reply. reply ≡ probe_response conf.now bssid sender) }
{
    let name = Vec::from_slice(alloc, conf.ssid.as_bytes())?;
    Ok(Reply {
        to: sender,
        bssid,
        body: ReplyBody::Probe {
            beacon_interval: conf.beacon_int,
            ssid: SsidField::from_vec(name).unwrap(),
            rates: rates(conf),
            channel: channel(conf),
        },
    })
}

/// What a probe request at a BSSID brings about: a response at most. One that is not answered takes no
/// memory.
pub fn answer(
    alloc: Global,
    conf: &Conf,
    bssid: Bssid,
    request: &Probe<'_>,
) -> Result<Draft, AllocError>
    ensures changes { IfOk result (λ d. d.changes ≡ []) }
    ensures outs { IfOk result (λ d. d.outs ≡ probe_outs conf.now bssid (probe request.now)) }
    ensures lacks { OnErr result (is_answered conf.now (probe request.now).elements ≡ true) }
{
    if !is_answered(conf, request.elements) {
        return Ok(Draft::nothing(alloc));
    }
    let reply = response(alloc, conf, bssid, request.sender)?;
    Draft::only_reply(alloc, &reply)
}
