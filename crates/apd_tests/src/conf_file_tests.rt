use crate::calls::built_in_conf;
use crate::expect::expect;
use apd_base::AclMode;
use apd_conf::{AuthAlgs, Conf, ConfFault, HwMode, IgnoreBroadcastSsid, Required, read_conf};
use std::alloc::Global;
use std::process::Abort;

const EXAMPLE: &[u8] = b"# open network
interface=wlan0
bssid=02:00:00:00:00:01
driver=nl80211
logger_syslog=-1
ctrl_interface=/var/run/hostapd
ssid=net
hw_mode=g
channel=6
beacon_int=100
dtim_period=2
rts_threshold=-1
macaddr_acl=0
auth_algs=3
ignore_broadcast_ssid=0
wmm_enabled=1
wmm_ac_bk_cwmin=4
eap_server=0
own_ip_addr=127.0.0.1
wpa=0
";

/// A configuration with all its fields.
fn text_of(rt: &impl Abort, alloc: Global, conf: Conf) -> String {
    format!(in alloc; "{conf:?}").expect(rt, "memory")
}

/// The configuration of a file that is taken.
fn conf_of(rt: &impl Abort, alloc: Global, file: &[u8]) -> Conf {
    read_conf(alloc, file).expect(rt, "a configuration file")
}

/// Why a file is refused.
fn fault_of(alloc: Global, file: &[u8]) -> Option<ConfFault> {
    read_conf(alloc, file).err()
}

#[test]
fn the_example_is_the_built_in_configuration(rt: HostRuntime) {
    let alloc = rt.alloc();
    let read = text_of(&rt, alloc, conf_of(&rt, alloc, EXAMPLE));
    let built_in = text_of(&rt, alloc, built_in_conf(&rt, alloc));
    expect(&rt, read.as_str(), built_in.as_str());
}

// What a configuration has where its file gives no more than the interface, the BSSID and the SSID.
fn expect_defaults(rt: &impl Abort, conf: &Conf) {
    expect(rt, conf.hw_mode, HwMode::B);
    expect(rt, (conf.channel, conf.beacon_int), (0, 100));
    expect(rt, conf.max_num_sta.number, 2007);
    expect(rt, conf.auth_algs, AuthAlgs::OpenAndShared);
    expect(rt, conf.ap_max_inactivity, 300);
    expect(rt, conf.ignore_broadcast_ssid, IgnoreBroadcastSsid::No);
    expect(rt, conf.max_listen_interval, 65535);
    expect(rt, conf.macaddr_acl, AclMode::AcceptUnlessDenied);
    expect(rt, conf.accept_mac_file.is_none(), true);
    expect(rt, conf.deny_mac_file.is_none(), true);
}

#[test]
fn names_that_no_line_gives_have_their_defaults(rt: HostRuntime) {
    let file = b"interface=wlan0\nbssid=02:00:00:00:00:01\nssid=net";
    let conf = conf_of(&rt, rt.alloc(), file);
    expect_defaults(&rt, &conf);
}

// What a configuration has whose file gives some names twice, and values with blanks.
fn expect_last_values(rt: &impl Abort, conf: &Conf) {
    expect(rt, conf.interface.as_str(), "wlan0");
    expect(rt, (conf.bssid.0.0[5], conf.channel), (0xaa, 7));
    expect(rt, conf.ssid.as_bytes(), b"net \r".as_slice());
    let accept = conf.accept_mac_file.as_ref();
    let accept = accept.expect(rt, "an accept file");
    expect(rt, accept.as_str(), "/etc/accept");
}

#[test]
fn a_value_is_that_of_the_last_line_and_keeps_its_blanks(rt: HostRuntime) {
    let file =
        b"ssid=a\ninterface=wlan0\r\nbssid=02:00:00:00:00:aA\nchannel=0000000007\nssid=a=b \naccept_mac_file=/etc/accept\nssid=net \r";
    let conf = conf_of(&rt, rt.alloc(), file);
    expect_last_values(&rt, &conf);
}

// Files that are refused, and why.
const FAULTY: [(&str, ConfFault); 20] = [
    ("", ConfFault::Missing(Required::Interface)),
    ("\n# a remark\n\n", ConfFault::Missing(Required::Interface)),
    ("interface=wlan0", ConfFault::Missing(Required::Bssid)),
    (
        "interface=wlan0\nbssid=02:00:00:00:00:01",
        ConfFault::Missing(Required::Ssid),
    ),
    ("interface=wlan0\nfoo", ConfFault::NoEquals(2)),
    ("\r", ConfFault::NoEquals(1)),
    ("\r\n #", ConfFault::NoEquals(2)),
    ("foo=1", ConfFault::Unknown(1)),
    ("=1", ConfFault::Unknown(1)),
    ("ssid =net", ConfFault::Unknown(1)),
    ("wmm_ac=1", ConfFault::Unknown(1)),
    ("wpa=2", ConfFault::Security(1)),
    ("wpa=1", ConfFault::Security(1)),
    ("wpa=00", ConfFault::Security(1)),
    ("\n\nieee8021x=", ConfFault::Security(3)),
    ("macaddr_acl=2", ConfFault::BadValue(1)),
    ("channel=197", ConfFault::BadValue(1)),
    ("ssid=\nssid=net", ConfFault::BadValue(1)),
    ("interface=wlan0\r", ConfFault::BadValue(1)),
    ("channel=x\nwpa=1\nfoo", ConfFault::BadValue(1)),
];

// Expects each file to be refused for what is told.
fn expect_faults(rt: &impl Abort, alloc: Global, rows: &[(&str, ConfFault)]) {
    for (file, fault) in rows {
        let found = fault_of(alloc, file.as_bytes());
        expect(rt, (*file, found), (*file, Some(*fault)));
    }
}

#[test]
fn the_first_faulty_line_is_told(rt: HostRuntime) {
    expect_faults(&rt, rt.alloc(), &FAULTY);
}

// A line alone: one that is taken leaves another name missing.
fn check_line(rt: &impl Abort, alloc: Global, line: &str, is_taken: bool) {
    let fault = fault_of(alloc, line.as_bytes());
    let is_missing = matches!(&fault, Some(ConfFault::Missing(_)));
    expect(rt, (line, is_missing), (line, is_taken));
    if !is_taken {
        let bad_value = Some(ConfFault::BadValue(1));
        expect(rt, (line, fault), (line, bad_value));
    }
}

// Whether each line alone is taken.
fn check_lines(rt: &impl Abort, alloc: Global, rows: &[(&str, bool)]) {
    for (line, is_taken) in rows {
        check_line(rt, alloc, line, *is_taken);
    }
}

const NAMES_AND_ADDRESSES: [(&str, bool); 17] = [
    ("interface=!", true),
    ("interface=~~~~~~~~~~~~~~~", true),
    ("interface=~~~~~~~~~~~~~~~~", false),
    ("interface=", false),
    ("interface= ", false),
    ("interface=\u{7f}", false),
    ("bssid=fe:ff:ff:ff:ff:FF", true),
    ("bssid=01:00:00:00:00:00", false),
    ("bssid=02:00:00:00:00:1", false),
    ("ssid=n", true),
    ("ssid=01234567890123456789012345678901", true),
    ("ssid=012345678901234567890123456789012", false),
    ("hw_mode=a", true),
    ("hw_mode=b", true),
    ("hw_mode=g", true),
    ("hw_mode=", false),
    ("hw_mode=n", false),
];

#[test]
fn names_and_addresses_at_their_ends_and_beyond(rt: HostRuntime) {
    check_lines(&rt, rt.alloc(), &NAMES_AND_ADDRESSES);
}

const NUMBERS: [(&str, bool); 26] = [
    ("channel=0", true),
    ("channel=196", true),
    ("channel=-1", false),
    ("beacon_int=14", false),
    ("beacon_int=15", true),
    ("beacon_int=65535", true),
    ("beacon_int=65536", false),
    ("max_num_sta=0", true),
    ("max_num_sta=2007", true),
    ("max_num_sta=2008", false),
    ("auth_algs=0", false),
    ("auth_algs=1", true),
    ("auth_algs=3", true),
    ("auth_algs=4", false),
    ("ap_max_inactivity=0", false),
    ("ap_max_inactivity=1", true),
    ("ap_max_inactivity=2147483647", true),
    ("ap_max_inactivity=2147483648", false),
    ("ignore_broadcast_ssid=0", true),
    ("ignore_broadcast_ssid=2", true),
    ("ignore_broadcast_ssid=3", false),
    ("max_listen_interval=0", true),
    ("max_listen_interval=65535", true),
    ("max_listen_interval=65536", false),
    ("macaddr_acl=0", true),
    ("macaddr_acl=1", true),
];

#[test]
fn numbers_at_their_ends_and_beyond(rt: HostRuntime) {
    check_lines(&rt, rt.alloc(), &NUMBERS);
}

const LIST_FILES: [(&str, bool); 5] = [
    ("accept_mac_file=x", true),
    ("accept_mac_file=\u{e9}", true),
    ("accept_mac_file=", false),
    ("deny_mac_file=x", true),
    ("deny_mac_file=", false),
];

// A line alone has a bad value.
fn expect_bad_value(rt: &impl Abort, alloc: Global, line: &[u8]) {
    expect(rt, fault_of(alloc, line), Some(ConfFault::BadValue(1)));
}

#[test]
fn the_name_of_a_list_file_is_a_text_and_not_empty(rt: HostRuntime) {
    check_lines(&rt, rt.alloc(), &LIST_FILES);
    expect_bad_value(&rt, rt.alloc(), b"accept_mac_file=\xff");
    expect_bad_value(&rt, rt.alloc(), b"deny_mac_file=x\xc3");
}

const DIGITS: [(&str, bool); 9] = [
    ("channel=", false),
    ("channel=7", true),
    ("channel=0000000007", true),
    ("channel=00000000007", false),
    ("channel=9999999999", false),
    ("channel=+7", false),
    ("channel= 7", false),
    ("channel=7 ", false),
    ("channel=0x7", false),
];

#[test]
fn numbers_have_one_to_ten_digits(rt: HostRuntime) {
    check_lines(&rt, rt.alloc(), &DIGITS);
}

const WITHOUT_EFFECT: [(&str, bool); 8] = [
    ("wmm_ac_=", true),
    ("tx_queue_data3_aifs=x", true),
    ("vht_oper_chwidth==", true),
    ("country_code=", true),
    ("skip_inactivity_poll=1", true),
    ("wpa=0", true),
    ("ieee8021x=0", true),
    ("#wpa=1", true),
];

#[test]
fn names_without_effect_take_any_value(rt: HostRuntime) {
    check_lines(&rt, rt.alloc(), &WITHOUT_EFFECT);
}
