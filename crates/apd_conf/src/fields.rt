//! The fields of a configuration, from the lines of its file.
ghost use Rattle.std.specs.Prelude.{◌≡◌, ◌≤◌, true, ℕ, List, Some, IfSome, IfOk, IfErr, unwrap_or, option_and_then, codes};
ghost use Rattle.std.specs.Option.{option_copied};
ghost use Rattle.apd_base.specs.Mode.{mode_number};
ghost use Rattle.apd_conf.specs.Auth.{algs_number};
ghost use Rattle.apd_conf.specs.BroadcastSsid.{quiet_number};
ghost use Rattle.apd_conf.specs.Lines.{lines};
ghost use Rattle.apd_conf.specs.Faults.{IsFaultless};
ghost use Rattle.apd_conf.specs.Table.{rule_of};
ghost use Rattle.apd_conf.specs.Values.{accepts, number_of, number_or_default, is_individual, is_band};
ghost use Rattle.apd_base.specs.Addr.{address_of};
ghost use Rattle.apd_conf.specs.Names.{is_file_name};
ghost use Rattle.apd_conf.specs.ConfFile.{fault_at, value_of, band_name, IsConfOf, IsFaultOf};
ghost use Rattle.apd_conf.specs.declared.rule.Rule.{Rule as AnyRule};
ghost use Rattle.apd_conf.specs.declared.rule.Range.{Range as AnyRange};
ghost use Rattle.apd_conf.specs.declared.rule.Rule.TheVariants as rules;
ghost use Rattle.apd_conf.specs.Table as table;

use crate::conf_file::value_of;
use crate::rule::{
    AP_MAX_INACTIVITY, AUTH_ALGS, BEACON_INT, CHANNEL, IGNORE_BROADCAST_SSID, MACADDR_ACL,
    MAX_LISTEN_INTERVAL, MAX_NUM_STA, Range,
};
use crate::values::number_of;
use crate::{
    AddressList, AuthAlgs, Conf, ConfFault, FileName, HwMode, IgnoreBroadcastSsid, InterfaceName,
    Required, Ssid,
};
use apd_base::{AclMode, Addr, Bssid, StationNumber};
use std::alloc::{AllocError, Global};

// The value of a name, which its rule takes.
fn valid_value<'a>(name: &[u8], file: &'a [u8]) -> Option<&'a [u8]>
    requires { IsFaultless (fault_at (lines file.now)) }
    ensures value { option_copied result ≡ value_of name.now (lines file.now) }
    ensures taken { (rule : AnyRule) → rule_of name.now ≡ Some rule
        → IfSome result (λ value. accepts rule value.now ≡ true) }
{
    value_of(name, file)
}

// The number that a value writes, which is in its range.
#[tactic(auto, unfolding(crate::specs::Values::accepts))]
fn number_from(range: Range, value: &[u8]) -> u32
    requires { accepts (rules.Number range) value.now ≡ true }
    ensures number { number_of value.now ≡ Some result }
    ensures low { range.least ≤ result }
    ensures high { result ≤ range.greatest }
{
    let Some(number) = number_of(value) else {
        unreachable!();
    };
    number as u32
}

// The number of a name, or its default.
fn number(name: &[u8], range: Range, file: &[u8]) -> u32
    requires faultless { IsFaultless (fault_at (lines file.now)) }
    requires rule { rule_of name.now ≡ Some (rules.Number range) }
    requires least { range.least ≤ range.default }
    requires greatest { range.default ≤ range.greatest }
    ensures number { result ≡ number_or_default range (value_of name.now (lines file.now)) }
    ensures low { range.least ≤ result }
    ensures high { result ≤ range.greatest }
{
    match valid_value(name, file) {
        Some(value) => number_from(range, value),
        None => range.default,
    }
}

// The number of stations from which on a new one is refused.
fn max_num_sta(file: &[u8]) -> StationNumber
    requires { IsFaultless (fault_at (lines file.now)) }
    ensures { result.number ≡ number_or_default table.max_num_sta (value_of (codes "max_num_sta") (lines file.now)) }
{
    StationNumber {
        number: number(b"max_num_sta", MAX_NUM_STA, file) as u16,
    }
}

fn auth_algs(file: &[u8]) -> AuthAlgs
    requires { IsFaultless (fault_at (lines file.now)) }
    ensures { algs_number result ≡ number_or_default table.auth_algs (value_of (codes "auth_algs") (lines file.now)) }
{
    match number(b"auth_algs", AUTH_ALGS, file) {
        1 => AuthAlgs::Open,
        2 => AuthAlgs::Shared,
        _ => AuthAlgs::OpenAndShared,
    }
}

fn ignore_broadcast_ssid(file: &[u8]) -> IgnoreBroadcastSsid
    requires { IsFaultless (fault_at (lines file.now)) }
    ensures { quiet_number result
        ≡ number_or_default table.ignore_broadcast_ssid (value_of (codes "ignore_broadcast_ssid") (lines file.now)) }
{
    match number(b"ignore_broadcast_ssid", IGNORE_BROADCAST_SSID, file) {
        0 => IgnoreBroadcastSsid::No,
        1 => IgnoreBroadcastSsid::Empty,
        _ => IgnoreBroadcastSsid::Cleared,
    }
}

fn macaddr_acl(file: &[u8]) -> AclMode
    requires { IsFaultless (fault_at (lines file.now)) }
    ensures { mode_number result
        ≡ number_or_default table.macaddr_acl (value_of (codes "macaddr_acl") (lines file.now)) }
{
    match number(b"macaddr_acl", MACADDR_ACL, file) {
        0 => AclMode::AcceptUnlessDenied,
        _ => AclMode::DenyUnlessAccepted,
    }
}

fn channel(file: &[u8]) -> u8
    requires { IsFaultless (fault_at (lines file.now)) }
    ensures { result ≡ number_or_default table.channel (value_of (codes "channel") (lines file.now)) }
{
    number(b"channel", CHANNEL, file) as u8
}

fn beacon_int(file: &[u8]) -> u16
    requires { IsFaultless (fault_at (lines file.now)) }
    ensures { result ≡ number_or_default table.beacon_int (value_of (codes "beacon_int") (lines file.now)) }
{
    number(b"beacon_int", BEACON_INT, file) as u16
}

fn ap_max_inactivity(file: &[u8]) -> u32
    requires { IsFaultless (fault_at (lines file.now)) }
    ensures { result
        ≡ number_or_default table.ap_max_inactivity (value_of (codes "ap_max_inactivity") (lines file.now)) }
{
    number(b"ap_max_inactivity", AP_MAX_INACTIVITY, file)
}

fn max_listen_interval(file: &[u8]) -> u16
    requires { IsFaultless (fault_at (lines file.now)) }
    ensures { result
        ≡ number_or_default table.max_listen_interval (value_of (codes "max_listen_interval") (lines file.now)) }
{
    number(b"max_listen_interval", MAX_LISTEN_INTERVAL, file) as u16
}

fn band(name: &[u8]) -> HwMode
    requires { is_band name.now ≡ true }
    ensures { band_name result ≡ name.now }
{
    if name == b"a".as_slice() {
        return HwMode::A;
    }
    if name == b"b".as_slice() {
        return HwMode::B;
    }
    HwMode::G
}

pub(crate) fn hw_mode(file: &[u8]) -> HwMode
    requires { IsFaultless (fault_at (lines file.now)) }
    ensures { band_name result ≡ unwrap_or (value_of (codes "hw_mode") (lines file.now)) (codes "b") }
{
    match valid_value(b"hw_mode", file) {
        Some(name) => band(name),
        None => HwMode::B,
    }
}

// The address that a value is.
fn bssid_from(value: &[u8]) -> Bssid
    requires { is_individual (address_of value.now) ≡ true }
    ensures { address_of value.now ≡ Some result.0 }
{
    let Some(address) = Addr::parse(value) else {
        unreachable!();
    };
    Bssid(address)
}

// The name of a list file, if there is one.
fn file_name(name: &[u8], file: &[u8], alloc: Global) -> Result<Option<FileName>, AllocError>
    requires faultless { IsFaultless (fault_at (lines file.now)) }
    requires rule { rule_of name.now ≡ Some rules.File }
    ensures { IfOk result (λ found. found ≡ value_of name.now (lines file.now)) }
{
    match valid_value(name, file) {
        Some(value) => Ok(Some(FileName::from_bytes(value, alloc)?)),
        None => Ok(None),
    }
}

/// The values of the names that a file must give.
#[derive(Clone, Copy)]
pub(crate) struct Given<'a> {
    interface: &'a [u8],
    bssid: &'a [u8],
    ssid: &'a [u8],
}

/// The values of the names that a file without a faulty line must give, or the first of those names that it
/// does not give.
pub(crate) fn values_given(file: &[u8]) -> Result<Given<'_>, ConfFault>
    requires { IsFaultless (fault_at (lines file.now)) }
    ensures interface { IfOk result
        (λ given. value_of (codes "interface") (lines file.now) ≡ Some given.interface.now) }
    ensures bssid { IfOk result (λ given. value_of (codes "bssid") (lines file.now) ≡ Some given.bssid.now) }
    ensures ssid { IfOk result (λ given. value_of (codes "ssid") (lines file.now) ≡ Some given.ssid.now) }
    ensures err { IfErr result (IsFaultOf (lines file.now)) }
{
    let Some(interface) = value_of(b"interface", file) else {
        return Err(ConfFault::Missing(Required::Interface));
    };
    let Some(bssid) = value_of(b"bssid", file) else {
        return Err(ConfFault::Missing(Required::Bssid));
    };
    let Some(ssid) = value_of(b"ssid", file) else {
        return Err(ConfFault::Missing(Required::Ssid));
    };
    Ok(Given {
        interface,
        bssid,
        ssid,
    })
}

/// The configuration of a file without a faulty line, of which these values are given.
pub(crate) fn conf_from(alloc: Global, file: &[u8], given: Given<'_>) -> Result<Conf, AllocError>
    requires faultless { IsFaultless (fault_at (lines file.now)) }
    requires interface { value_of (codes "interface") (lines file.now) ≡ Some given.interface.now }
    requires bssid { value_of (codes "bssid") (lines file.now) ≡ Some given.bssid.now }
    requires ssid { value_of (codes "ssid") (lines file.now) ≡ Some given.ssid.now }
    ensures { IfOk result (IsConfOf (lines file.now)) }
{
    Ok(Conf {
        interface: InterfaceName::from_bytes(given.interface, alloc)?,
        bssid: bssid_from(given.bssid),
        ssid: Ssid::new(given.ssid, alloc)?,
        hw_mode: hw_mode(file),
        channel: channel(file),
        beacon_int: beacon_int(file),
        max_num_sta: max_num_sta(file),
        auth_algs: auth_algs(file),
        ap_max_inactivity: ap_max_inactivity(file),
        ignore_broadcast_ssid: ignore_broadcast_ssid(file),
        max_listen_interval: max_listen_interval(file),
        macaddr_acl: macaddr_acl(file),
        accept_mac_file: file_name(b"accept_mac_file", file, alloc)?,
        deny_mac_file: file_name(b"deny_mac_file", file, alloc)?,
        accept: AddressList::new(alloc),
        deny: AddressList::new(alloc),
    })
}
