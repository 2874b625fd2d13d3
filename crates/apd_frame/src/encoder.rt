//! From a reply to its bytes.
ghost use Rattle.std.specs.Prelude.{◌≡◌, ◌≤◌, ◌++◌, length, IfOk, OnOk};
ghost use Rattle.apd_frame.specs.declared.replies.Reply.{Reply as Answer};
ghost use Rattle.apd_frame.specs.Elements.{octets_of, octets_of_one};
ghost use Rattle.apd_frame.specs.Wire.{aid_field, body_octets, elements_in, fixed_fields, probe_fields, response_fields, subtype_of, wire, IsReply, Carries};

use crate::element::{DSSS_PARAMETER_SET, SSID, SUPPORTED_RATES};
use crate::header::HEADER;
use crate::replies::{AssociationResponse, Reply, ReplyBody};
use apd_base::Aid;
use std::alloc::{AllocError, Global};

/// The Capability Information of an access point without encryption: ESS alone.
const CAPABILITY: u16 = 1;

/// The timestamp of a probe response (own).
const TIMESTAMP: u64 = 0;

fn subtype_of(body: &ReplyBody) -> u8
    ensures { result ≡ subtype_of body.now }
{
    match body {
        ReplyBody::Auth { .. } => 11,
        ReplyBody::Assoc(_) => 1,
        ReplyBody::Reassoc(_) => 3,
        ReplyBody::Probe { .. } => 5,
        ReplyBody::Disassoc { .. } => 10,
        ReplyBody::Deauth { .. } => 12,
    }
}

fn body_length(body: &ReplyBody) -> usize
    ensures length { result ≡ length (body_octets body.now) }
    ensures small { result ≤ 64 }
{
    match body {
        ReplyBody::Auth { .. } => 6,
        ReplyBody::Assoc(response) | ReplyBody::Reassoc(response) => {
            6 + 2 + response.rates.octets().len()
        }
        ReplyBody::Probe {
            ssid,
            rates,
            channel,
            ..
        } => {
            let channel_length = if channel.is_some() { 3 } else { 0 };
            12 + 2 + ssid.as_bytes().len() + 2 + rates.octets().len() + channel_length
        }
        ReplyBody::Disassoc { .. } | ReplyBody::Deauth { .. } => 2,
    }
}

fn aid_field(aid: Option<Aid>) -> u16
    ensures { result ≡ aid_field aid }
{
    match aid {
        None => 0,
        Some(aid) => 0xc000 + aid.number,
    }
}

fn write_response_fields(
    frame: &mut Vec<u8>,
    response: &AssociationResponse,
) -> Result<(), AllocError>
    ensures { OnOk result (frame.new.items ≡ frame.old.items ++ response_fields response.now) }
{
    frame.extend_from_slice(&CAPABILITY.to_le_bytes())?;
    frame.extend_from_slice(&response.status.code().to_le_bytes())?;
    frame.extend_from_slice(&aid_field(response.aid).to_le_bytes())
}

fn write_probe_fields(frame: &mut Vec<u8>, beacon_interval: u16) -> Result<(), AllocError>
    ensures { OnOk result (frame.new.items ≡ frame.old.items ++ probe_fields beacon_interval) }
{
    frame.extend_from_slice(&TIMESTAMP.to_le_bytes())?;
    frame.extend_from_slice(&beacon_interval.to_le_bytes())?;
    frame.extend_from_slice(&CAPABILITY.to_le_bytes())
}

fn write_fixed_fields(frame: &mut Vec<u8>, body: &ReplyBody) -> Result<(), AllocError>
    ensures { OnOk result (frame.new.items ≡ frame.old.items ++ fixed_fields body.now) }
{
    match body {
        ReplyBody::Auth {
            algorithm,
            transaction,
            status,
        } => {
            frame.extend_from_slice(&algorithm.to_le_bytes())?;
            frame.extend_from_slice(&transaction.to_le_bytes())?;
            frame.extend_from_slice(&status.code().to_le_bytes())
        }
        ReplyBody::Assoc(response) | ReplyBody::Reassoc(response) => {
            write_response_fields(frame, response)
        }
        ReplyBody::Probe {
            beacon_interval,
            ..
        } => write_probe_fields(frame, *beacon_interval),
        ReplyBody::Disassoc { reason } | ReplyBody::Deauth { reason } => {
            frame.extend_from_slice(&reason.0.to_le_bytes())
        }
    }
}

fn write_element(frame: &mut Vec<u8>, id: u8, body: &[u8]) -> Result<(), AllocError>
    requires { length body.now ≤ 255 }
    ensures { OnOk result (frame.new.items ≡ frame.old.items ++ octets_of_one (id, body.now)) }
{
    frame.extend_from_slice(&[id, body.len() as u8])?;
    frame.extend_from_slice(body)
}

fn write_elements(frame: &mut Vec<u8>, body: &ReplyBody) -> Result<(), AllocError>
    ensures { OnOk result (frame.new.items ≡ frame.old.items ++ octets_of (elements_in body.now)) }
{
    match body {
        ReplyBody::Assoc(response) | ReplyBody::Reassoc(response) => {
            write_element(frame, SUPPORTED_RATES, response.rates.octets())
        }
        ReplyBody::Probe {
            ssid,
            rates,
            channel,
            ..
        } => {
            write_element(frame, SSID, ssid.as_bytes())?;
            write_element(frame, SUPPORTED_RATES, rates.octets())?;
            let Some(channel) = channel else {
                return Ok(());
            };
            write_element(frame, DSSS_PARAMETER_SET, &[*channel])
        }
        _ => Ok(()),
    }
}

/// The bytes of a reply (IEEE Std 802.11-2016, 9.3.3.2), or want of memory: duration, sequence
/// control and all flags are 0. It takes memory once.
pub fn encode(alloc: Global, reply: &Reply) -> Result<Vec<u8>, AllocError>
    ensures { IfOk result (λ frame. frame.items ≡ wire reply.now) }
{
    let receiver = &reply.to;
    let bssid = &reply.bssid.0;
    let mut frame = Vec::with_capacity(alloc, HEADER + body_length(&reply.body))?;
    frame.extend_from_slice(&[subtype_of(&reply.body) * 16, 0, 0, 0])?;
    frame.extend_from_slice(&receiver.0)?;
    frame.extend_from_slice(&bssid.0)?;
    frame.extend_from_slice(&bssid.0)?;
    frame.extend_from_slice(&[0, 0])?;
    write_fixed_fields(&mut frame, &reply.body)?;
    write_elements(&mut frame, &reply.body)?;
    Ok(frame)
}

/// What is written has each field in its place, for a reply that a frame can carry.
pub fn wire_law()
    ensures { (reply : Answer) → IsReply reply → Carries (wire reply) reply }
{}
