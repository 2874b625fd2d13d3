//! Texts, frames and records that are taken, each of those that read bytes having some.
/// The radio is 02:00:00:00:00:01, the station 02:00:00:00:00:aa.
pub const FRAMES: [&[u8]; 7] = [
    // An authentication, an association request with the elements of a network `net`, a reassociation request, a
    // probe request to all, a disassociation, a deauthentication, and data.
    b"\xb0\0\0\0\x02\0\0\0\0\x01\x02\0\0\0\0\xaa\x02\0\0\0\0\x01\x10\0\0\0\x01\0\0\0",
    b"\0\0\0\0\x02\0\0\0\0\x01\x02\0\0\0\0\xaa\x02\0\0\0\0\x01\x20\0\x31\x04\x0a\0\0\x03net\x01\x04\x82\x84\x8b\x96",
    b"\x20\0\0\0\x02\0\0\0\0\x01\x02\0\0\0\0\xaa\x02\0\0\0\0\x01\x20\0\x31\x04\x0a\0\x02\0\0\0\0\x02\0\x03net\x01\x04\x82\x84\x8b\x96",
    b"\x40\0\0\0\xff\xff\xff\xff\xff\xff\x02\0\0\0\0\xaa\xff\xff\xff\xff\xff\xff\x30\0\0\0\x01\x04\x82\x84\x8b\x96",
    b"\xa0\0\0\0\x02\0\0\0\0\x01\x02\0\0\0\0\xaa\x02\0\0\0\0\x01\x40\0\x08\0",
    b"\xc0\0\0\0\x02\0\0\0\0\x01\x02\0\0\0\0\xaa\x02\0\0\0\0\x01\x50\0\x03\0",
    b"\x08\x01\0\0\x02\0\0\0\0\x01\x02\0\0\0\0\xaa\x02\0\0\0\0\x02\x60\0of a station to all others behind the radio",
];

/// Control commands, most of them behind the name of an interface.
pub const COMMANDS: [&[u8]; 6] = [
    b"IFNAME=an-interface-of-a-longer-name-than-any-has PING",
    b"IFNAME=an-interface-of-a-longer-name-than-any-has STATUS\n",
    b"IFNAME=an-interface-of-a-longer-name-than-any-has STA 02:00:00:00:00:aa",
    b"IFNAME=an-interface-of-a-longer-name-than-any-has DENY_ACL ADD_MAC 02:00:00:00:00:aa\n",
    b"IFNAME=an-interface-of-a-longer-name-than-any-has DEAUTHENTICATE 02:00:00:00:00:aa reason=65535",
    b"STA-FIRST",
];

/// Configuration files.
pub const CONFS: [&[u8]; 2] = [
    b"interface=wlan0\nbssid=02:00:00:00:00:01\nssid=net\n# a remark behind which there is nothing to be read\n",
    b"# open network\ninterface=wlan0\nbssid=02:00:00:00:00:01\ndriver=nl80211\nssid=net\nhw_mode=g\nchannel=6\nauth_algs=3\nwpa=0\n",
];

/// List files.
pub const LISTS: [&[u8]; 2] = [
    b"# stations of the house, and what stands here is passed over\n02:00:00:00:00:aa\n02:00:00:00:00:ab\n",
    b"02:00:00:00:00:ab # that of the garden, which comes and goes\n\n02:00:00:00:00:aa\n",
];

/// Records: a station that is associated; one that goes; a policy and an address of a list; three of them.
pub const RECORDS: [&[u8]; 4] = [
    b"\x01\x02\0\0\0\0\x01\x02\0\0\0\0\xaa\x02\x01\0\x31\x04\x0a\0",
    b"\x02\x02\0\0\0\0\x01\x02\0\0\0\0\xaa",
    b"\x06\x02\0\0\0\0\x01\0\xd7\x07\x03\x02\0\0\0\0\x01\x01\x02\0\0\0\0\xab",
    b"\x03\x02\0\0\0\0\x01\x01\x02\0\0\0\0\xab\x04\x02\0\0\0\0\x01\0\x02\0\0\0\0\xaa\x02\x02\0\0\0\0\x01\x02\0\0\0\0\xac",
];
