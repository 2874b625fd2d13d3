//! The configuration of one radio.
ghost use Rattle.std.specs.Prelude.{◌≡◌, IfOk};
ghost use Rattle.apd_conf.specs.BuiltIn.{built_in};
ghost use Rattle.apd_conf.specs.Conf.{policy_of};

use crate::{AddressList, AuthAlgs, FileName, HwMode, IgnoreBroadcastSsid, InterfaceName, Ssid};
use apd_base::limits::MAX_STATIONS;
use apd_base::{AclMode, Addr, Bssid, Policy, StationNumber};
use std::alloc::{AllocError, Global};

/// The configuration of one radio. A field has the name, and the unit, that it has in a file.
#[derive(Debug, Drop)]
pub struct Conf {
    /// The network interface.
    pub interface: InterfaceName,
    /// The radio's address.
    pub bssid: Bssid,
    /// The network's name.
    pub ssid: Ssid,
    /// The band and rates.
    pub hw_mode: HwMode,
    /// The channel. Files have 0 to 196; the type keeps no range.
    pub channel: u8,
    /// From one beacon to the next, in time units of 1024 microseconds (IEEE Std 802.11-2016, 9.4.1.3).
    /// Files have 15 to 65535; the type keeps no range.
    pub beacon_int: u16,
    /// From how many stations on a new one is refused, 0 to 2007.
    pub max_num_sta: StationNumber,
    /// The authentication algorithms that are taken.
    pub auth_algs: AuthAlgs,
    /// After how many seconds of silence a station is disassociated, and after as many again
    /// deauthenticated. Files have 1 to 2147483647; the type keeps no range.
    pub ap_max_inactivity: u32,
    /// Whether a probe request for any network is left unanswered.
    pub ignore_broadcast_ssid: IgnoreBroadcastSsid,
    /// The greatest listen interval that a station may ask for, in beacon intervals (IEEE Std
    /// 802.11-2016, 9.4.1.6).
    pub max_listen_interval: u16,
    /// What becomes of a station that is on neither list.
    pub macaddr_acl: AclMode,
    /// The file of the addresses that are accepted.
    pub accept_mac_file: Option<FileName>,
    /// The file of the addresses that are denied.
    pub deny_mac_file: Option<FileName>,
    /// The addresses of its accept file; none until `set_lists`.
    pub accept: AddressList,
    /// The addresses of its deny file; none until `set_lists`.
    pub deny: AddressList,
}

fn copy_of(file: &Option<FileName>, alloc: Global) -> Result<Option<FileName>, AllocError>
    ensures { IfOk result (λ copy. copy ≡ file.now) }
{
    let Some(file) = file else {
        return Ok(None);
    };
    Ok(Some(file.copy(alloc)?))
}

impl Conf {
    /// The configuration of a daemon that was given no file.
    pub fn built_in(alloc: Global) -> Result<Conf, AllocError>
        ensures { IfOk result (λ conf. conf ≡ built_in) }
    {
        Ok(Conf {
            interface: InterfaceName::new("wlan0", alloc)?,
            bssid: Bssid(Addr([2, 0, 0, 0, 0, 1])),
            ssid: Ssid::new(b"net", alloc)?,
            hw_mode: HwMode::G,
            channel: 6,
            beacon_int: 100,
            max_num_sta: StationNumber {
                number: MAX_STATIONS as u16,
            },
            auth_algs: AuthAlgs::OpenAndShared,
            ap_max_inactivity: 300,
            ignore_broadcast_ssid: IgnoreBroadcastSsid::No,
            max_listen_interval: u16::MAX,
            macaddr_acl: AclMode::AcceptUnlessDenied,
            accept_mac_file: None,
            deny_mac_file: None,
            accept: AddressList::new(alloc),
            deny: AddressList::new(alloc),
        })
    }

    /// A second one of it.
    pub fn copy(&self, alloc: Global) -> Result<Conf, AllocError>
        ensures { IfOk result (λ conf. conf ≡ self.now) }
    {
        Ok(Conf {
            interface: self.interface.copy(alloc)?,
            bssid: self.bssid,
            ssid: self.ssid.copy(alloc)?,
            hw_mode: self.hw_mode,
            channel: self.channel,
            beacon_int: self.beacon_int,
            max_num_sta: self.max_num_sta,
            auth_algs: self.auth_algs,
            ap_max_inactivity: self.ap_max_inactivity,
            ignore_broadcast_ssid: self.ignore_broadcast_ssid,
            max_listen_interval: self.max_listen_interval,
            macaddr_acl: self.macaddr_acl,
            accept_mac_file: copy_of(&self.accept_mac_file, alloc)?,
            deny_mac_file: copy_of(&self.deny_mac_file, alloc)?,
            accept: self.accept.copy(alloc)?,
            deny: self.deny.copy(alloc)?,
        })
    }

    /// Gives it the addresses of its two list files, as `read_list` reads them. It takes no memory.
    pub fn set_lists(&mut self, accept: AddressList, deny: AddressList)
        ensures { self.new ≡ record self.old { accept = accept; deny = deny } }
    {
        self.accept = accept;
        self.deny = deny;
    }

    /// What the table of stations has to know of its BSSID. It takes no memory.
    pub fn policy(&self) -> Policy
        ensures { result ≡ policy_of self.now }
    {
        Policy {
            mode: self.macaddr_acl,
            max: self.max_num_sta,
        }
    }
}
