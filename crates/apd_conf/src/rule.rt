//! The names of a configuration file, and which values each takes.
ghost use Rattle.std.specs.Prelude.{◌≡◌, map};
ghost use Rattle.apd_conf.specs.Table.{is_one_of, begins_with_one_of, rule_in, rule_of};

use apd_base::limits::MAX_STATIONS;

/// The numbers that a name takes, and the one that it has where no line gives it one.
#[derive(Clone, Copy, Debug, PartialEq, Eq)]
pub struct Range {
    pub least: u32,
    pub greatest: u32,
    pub default: u32,
}

/// Which values a name takes.
#[derive(Clone, Copy, Debug, PartialEq, Eq)]
pub enum Rule {
    /// The name of a network interface.
    Interface,
    /// An address that is no group's.
    Bssid,
    /// The name of a network.
    Ssid,
    /// `a`, `b` or `g`.
    Band,
    /// A number of 1 to 10 digits in a range.
    Number(Range),
    /// The name of a file.
    File,
    /// Any value: it has no effect.
    Ignored,
    /// `0` alone, since there is no security.
    Security,
}

pub(crate) const CHANNEL: Range = Range {
    least: 0,
    greatest: 196,
    default: 0,
};

pub(crate) const BEACON_INT: Range = Range {
    least: 15,
    greatest: 65535,
    default: 100,
};

pub(crate) const MAX_NUM_STA: Range = Range {
    least: 0,
    greatest: MAX_STATIONS as u32,
    default: MAX_STATIONS as u32,
};

pub(crate) const AUTH_ALGS: Range = Range {
    least: 1,
    greatest: 3,
    default: 3,
};

pub(crate) const AP_MAX_INACTIVITY: Range = Range {
    least: 1,
    greatest: 2147483647,
    default: 300,
};

pub(crate) const IGNORE_BROADCAST_SSID: Range = Range {
    least: 0,
    greatest: 2,
    default: 0,
};

pub(crate) const MAX_LISTEN_INTERVAL: Range = Range {
    least: 0,
    greatest: 65535,
    default: 65535,
};

pub(crate) const MACADDR_ACL: Range = Range {
    least: 0,
    greatest: 1,
    default: 0,
};

const SETTINGS: [(&[u8], Rule); 16] = [
    (b"interface", Rule::Interface),
    (b"bssid", Rule::Bssid),
    (b"ssid", Rule::Ssid),
    (b"hw_mode", Rule::Band),
    (b"channel", Rule::Number(CHANNEL)),
    (b"beacon_int", Rule::Number(BEACON_INT)),
    (b"max_num_sta", Rule::Number(MAX_NUM_STA)),
    (b"auth_algs", Rule::Number(AUTH_ALGS)),
    (b"ap_max_inactivity", Rule::Number(AP_MAX_INACTIVITY)),
    (
        b"ignore_broadcast_ssid",
        Rule::Number(IGNORE_BROADCAST_SSID),
    ),
    (b"max_listen_interval", Rule::Number(MAX_LISTEN_INTERVAL)),
    (b"macaddr_acl", Rule::Number(MACADDR_ACL)),
    (b"accept_mac_file", Rule::File),
    (b"deny_mac_file", Rule::File),
    (b"wpa", Rule::Security),
    (b"ieee8021x", Rule::Security),
];

const IGNORED: [&[u8]; 29] = [
    b"driver",
    b"bridge",
    b"ctrl_interface",
    b"ctrl_interface_group",
    b"logger_syslog",
    b"logger_syslog_level",
    b"logger_stdout",
    b"logger_stdout_level",
    b"country_code",
    b"ieee80211d",
    b"ieee80211h",
    b"dtim_period",
    b"rts_threshold",
    b"fragm_threshold",
    b"wmm_enabled",
    b"uapsd_advertisement_enabled",
    b"ieee80211n",
    b"ht_capab",
    b"preamble",
    b"disassoc_low_ack",
    b"skip_inactivity_poll",
    b"ap_isolate",
    b"utf8_ssid",
    b"eapol_key_index_workaround",
    b"eap_server",
    b"eapol_version",
    b"nas_identifier",
    b"ieee80211ac",
    b"own_ip_addr",
];

const IGNORED_PREFIXES: [&[u8]; 3] = [b"wmm_ac_", b"tx_queue_", b"vht_"];

#[tactic(auto, unfolding(crate::specs::Table::is_one_of))]
fn is_one_of(name: &[u8], names: &[&[u8]]) -> bool
    ensures { result ≡ is_one_of name.now (map (λ known. known.now) names.now) }
{
    for known in names {
        if name == *known {
            return true;
        }
    }
    false
}

#[tactic(auto, unfolding(crate::specs::Table::begins_with_one_of))]
fn begins_with_one_of(name: &[u8], prefixes: &[&[u8]]) -> bool
    ensures { result ≡ begins_with_one_of name.now (map (λ prefix. prefix.now) prefixes.now) }
{
    for prefix in prefixes {
        if name.starts_with(prefix) {
            return true;
        }
    }
    false
}

#[tactic(auto, unfolding(crate::specs::Table::rule_in))]
fn rule_in(name: &[u8], table: &[(&[u8], Rule)]) -> Option<Rule>
    ensures { result ≡ rule_in name.now (map (λ row. (row.0.now, row.1)) table.now) }
{
    for (known, rule) in table {
        if name == *known {
            return Some(*rule);
        }
    }
    None
}

/// The rule of a name, if it is known. It takes no memory.
#[tactic(auto, unfolding(crate::specs::Table::rule_of))]
pub fn rule_of(name: &[u8]) -> Option<Rule>
    ensures { result ≡ rule_of name.now }
{
    if is_one_of(name, &IGNORED) {
        return Some(Rule::Ignored);
    }
    if begins_with_one_of(name, &IGNORED_PREFIXES) {
        return Some(Rule::Ignored);
    }
    rule_in(name, &SETTINGS)
}
