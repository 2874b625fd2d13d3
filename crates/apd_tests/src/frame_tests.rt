use crate::expect::{expect, expect_printed};
use apd_base::{Addr, Aid, Bssid};
use apd_frame::{
    Association, AssociationResponse, Authentication, DSSS_PARAMETER_SET, Element, Frame, Ignored,
    Probe, Rates, Reason, Reassociation, Reply, ReplyBody, SSID, SUPPORTED_RATES, SsidField,
    Status, decode, elements, encode, first_with, well_formed,
};
use std::alloc::Global;
use std::process::Abort;

const OWN: Bssid = Bssid(Addr([2, 0, 0, 0, 0, 1]));

const STATION: Addr = Addr([2, 0, 0, 0, 0, 0xaa]);

const OTHER_AP: Addr = Addr([2, 0, 0, 0, 0, 2]);

// What stands between the frame control and the body, from the station to the radio.
const HEADER: [u8; 22] = [
    0, 0, 2, 0, 0, 0, 0, 1, 2, 0, 0, 0, 0, 0xaa, 2, 0, 0, 0, 0, 1, 0x20, 0,
];
// The SSID `net`, and 1, 2, 5.5 and 11 Mb/s.
const ELEMENTS: [u8; 11] = [0, 3, b'n', b'e', b't', 1, 4, 0x82, 0x84, 0x8b, 0x96];
// A station's first authentication frame: open system, transaction sequence number 1.
const AUTHENTICATION: [u8; 30] = [
    0xb0, 0, 0, 0, 2, 0, 0, 0, 0, 1, 2, 0, 0, 0, 0, 0xaa, 2, 0, 0, 0, 0, 1, 0x10, 0, 0, 0, 1, 0, 0,
    0,
];

/// What bytes are to the radio.
fn decode_heard(bytes: &[u8]) -> Result<Frame<'_>, Ignored> {
    decode(bytes, OWN)
}

fn frame_of(
    rt: &impl Abort,
    alloc: Global,
    control: [u8; 2],
    fixed: &[u8],
    elements: &[u8],
) -> Vec<u8> {
    let mut frame = Vec::from_slice(alloc, &control).expect(rt, "memory");
    for part in [HEADER.as_slice(), fixed, elements] {
        frame.extend_from_slice(part).expect(rt, "memory");
    }
    frame
}

// A frame of this kind, with these fields behind its header and then the elements, is decoded as this one.
fn decodes(rt: &impl Abort, alloc: Global, control: [u8; 2], fixed: &[u8], frame: Frame<'_>) {
    let bytes = frame_of(rt, alloc, control, fixed, &ELEMENTS);
    expect(rt, decode_heard(bytes.as_slice()), Ok(frame));
    expect(rt, frame.sender(), STATION);
}

#[test]
fn decodes_each_request(rt: HostRuntime) {
    let elements = ELEMENTS.as_slice();
    let association = Association {
        sender: STATION,
        capability: 0x0431,
        listen_interval: 10,
        elements,
    };
    let reassociation = Reassociation {
        sender: STATION,
        capability: 0x0431,
        listen_interval: 10,
        current_ap: OTHER_AP,
        elements,
    };
    let probe = Probe {
        sender: STATION,
        elements,
    };
    let authentication = Authentication {
        sender: STATION,
        algorithm: 0,
        transaction: 1,
        status: 0,
    };
    for (control, fixed, frame) in [
        (0x00, [0x31, 4, 10, 0].as_slice(), Frame::Assoc(association)),
        (
            0x20,
            &[0x31, 4, 10, 0, 2, 0, 0, 0, 0, 2],
            Frame::Reassoc(reassociation),
        ),
        (0x40, &[], Frame::Probe(probe)),
        (0xb0, &[0, 0, 1, 0, 0, 0], Frame::Auth(authentication)),
    ] {
        decodes(&rt, rt.alloc(), [control, 0], fixed, frame);
    }
}

#[test]
fn decodes_departures_and_data(rt: HostRuntime) {
    let disassociation = Frame::Disassoc {
        sender: STATION,
        reason: Reason(8),
    };
    let deauthentication = Frame::Deauth {
        sender: STATION,
        reason: Reason(3),
    };
    for (control, fixed, frame) in [
        ([0xa0, 0], [8, 0].as_slice(), disassociation),
        ([0xc0, 0], &[3, 0], deauthentication),
        ([0x88, 0x41], &[], Frame::Uplink { sender: STATION }),
    ] {
        decodes(&rt, rt.alloc(), control, fixed, frame);
    }
}

// The authentication frame with other values at some places.
fn changed(values: &[(usize, u8)]) -> [u8; 30] {
    let mut frame = AUTHENTICATION;
    for (place, value) in values {
        if let Some(byte) = frame.get_mut(*place) {
            *byte = *value;
        }
    }
    frame
}

fn reason_of(bytes: &[u8]) -> Option<Ignored> {
    decode_heard(bytes).err()
}

#[test]
fn tells_the_first_reason(rt: HostRuntime) {
    for (place, value, reason) in [
        (0, 0xb1, Ignored::Version),
        (0, 0xb4, Ignored::Class),
        (1, 0x04, Ignored::Fragment),
        (22, 0x11, Ignored::Fragment),
        (1, 0x40, Ignored::Flags),
        (1, 0x80, Ignored::Flags),
        (0, 0x08, Ignored::Direction),
        (10, 0x03, Ignored::Sender),
        (15, 0x01, Ignored::Sender),
        (9, 0x02, Ignored::Receiver),
        (21, 0x02, Ignored::OtherBss),
        (0, 0x10, Ignored::Subtype),
        (0, 0xd0, Ignored::Subtype),
    ] {
        let found = reason_of(&changed(&[(place, value)]));
        expect(&rt, (place, value, found), (place, value, Some(reason)));
    }
}

// The authentication frame is decoded as ever with another value at a place.
fn expect_not_looked_at(rt: &impl Abort, place: usize, value: u8) {
    let frame = changed(&[(place, value)]);
    let wanted = decode_heard(&AUTHENTICATION);
    let found = decode_heard(&frame);
    expect(rt, (place, value, found), (place, value, wanted));
}

#[test]
fn looks_at_no_other_bit(rt: HostRuntime) {
    for (place, value) in [(1, 0x3b), (2, 0xff), (3, 0x7f), (22, 0xf0), (23, 0xff)] {
        expect_not_looked_at(&rt, place, value);
    }
    let data = changed(&[(0, 0xf8), (1, 0xf9), (16, 0xff), (21, 0x02)]);
    let uplink = Frame::Uplink { sender: STATION };
    expect(&rt, decode_heard(&data), Ok(uplink));
}

// Why the front of a frame is ignored, where a body of this length is wanted behind 24 bytes.
fn reason_of_front(length: usize, body: usize) -> Option<Ignored> {
    if length < 24 {
        Some(Ignored::Short)
    } else if length - 24 < body {
        Some(Ignored::Body)
    } else {
        None
    }
}

// Each front of a frame of this kind.
fn check_fronts(rt: &impl Abort, alloc: Global, control: [u8; 2], body: usize) {
    let bytes = frame_of(rt, alloc, control, &[0; 15], &[]);
    expect(rt, bytes.len(), 39);
    for length in 0..=39 {
        let front = bytes.get(..length).expect(rt, "a front");
        let wanted = reason_of_front(length, body);
        expect(rt, (length, reason_of(front)), (length, wanted));
    }
}

#[test]
fn tells_the_length(rt: HostRuntime) {
    for (control, body) in [
        ([0x00, 0], 4),
        ([0x20, 0], 10),
        ([0x40, 0], 0),
        ([0xa0, 0], 2),
        ([0xb0, 0], 6),
        ([0xc0, 0], 2),
        ([0x08, 1], 0),
    ] {
        check_fronts(&rt, rt.alloc(), control, body);
    }
    let mut long = vec![in rt.alloc(); 0; 2304].expect(&rt, "memory");
    expect(&rt, reason_of(&long), Some(Ignored::Receiver));
    long.push(0).expect(&rt, "memory");
    expect(&rt, reason_of(&long), Some(Ignored::TooLong));
}

#[test]
fn a_probe_request_may_be_for_all(rt: HostRuntime) {
    const PROBE: [u8; 24] = [
        0x40, 0, 0, 0, 0xff, 0xff, 0xff, 0xff, 0xff, 0xff, 2, 0, 0, 0, 0, 0xaa, 0xff, 0xff, 0xff,
        0xff, 0xff, 0xff, 0x30, 0,
    ];
    let frame = Frame::Probe(Probe {
        sender: STATION,
        elements: &[],
    });
    expect(&rt, decode_heard(&PROBE), Ok(frame));
    let mut other = PROBE;
    other[9] = 0xfe;
    expect(&rt, decode_heard(&other), Err(Ignored::Receiver));
    let mut association = PROBE;
    association[0] = 0;
    expect(&rt, decode_heard(&association), Err(Ignored::Receiver));
}

// The SSID, then the rates, and no more.
fn reads_elements(rt: &impl Abort, rates: &[u8]) {
    let mut list = elements(&ELEMENTS);
    let ssid = Element {
        id: SSID,
        body: b"net",
    };
    expect(rt, list.next(), Some(ssid));
    let supported = Element {
        id: SUPPORTED_RATES,
        body: rates,
    };
    expect(rt, list.next(), Some(supported));
    expect(rt, list.next(), None);
}

#[test]
fn reads_whole_elements(rt: HostRuntime) {
    let rates = [0x82, 0x84, 0x8b, 0x96].as_slice();
    reads_elements(&rt, rates);
    let net = Some(b"net".as_slice());
    for (bytes, whole, ssid) in [
        (b"".as_slice(), true, None),
        (&ELEMENTS, true, net),
        (&[0, 0, 1, 0], true, Some(b"".as_slice())),
        (&[0], false, None),
        (&[0, 5, b'n', b'e', b't'], false, None),
        (&[0, 3, b'n', b'e', b't', 1], false, net),
        (&[0, 3, b'n', b'e', b't', 0, 1, b'a'], true, net),
    ] {
        let found = (well_formed(bytes), first_with(bytes, SSID));
        expect(&rt, (bytes, found), (bytes, (whole, ssid)));
    }
    expect(&rt, first_with(&ELEMENTS, SUPPORTED_RATES), Some(rates));
    expect(&rt, first_with(&ELEMENTS, DSSS_PARAMETER_SET), None);
}

// The bytes of a reply to the station.
fn encode_body(rt: &impl Abort, alloc: Global, body: ReplyBody) -> Vec<u8> {
    let reply = Reply {
        to: STATION,
        bssid: OWN,
        body,
    };
    encode(alloc, &reply).expect(rt, "memory")
}

// The bytes of a frame from a place on.
fn behind<'a>(rt: &impl Abort, frame: &'a [u8], place: usize) -> &'a [u8] {
    frame.get(place..).expect(rt, "a longer frame")
}

// A reply of this body to the station is a frame of this kind with these bytes behind its header.
fn encodes(rt: &impl Abort, alloc: Global, body: ReplyBody, kind: u8, want: &[u8]) {
    const ADDRESSES: [u8; 18] = [2, 0, 0, 0, 0, 0xaa, 2, 0, 0, 0, 0, 1, 2, 0, 0, 0, 0, 1];
    let frame = encode_body(rt, alloc, body);
    expect(rt, frame.get(..4), Some([kind, 0, 0, 0].as_slice()));
    expect(rt, frame.get(4..22), Some(ADDRESSES.as_slice()));
    expect(rt, frame.get(22..24), Some([0, 0].as_slice()));
    expect(rt, behind(rt, &frame, 24), want);
}

#[test]
fn encodes_each_reply(rt: HostRuntime) {
    let authentication = ReplyBody::Auth {
        algorithm: 0,
        transaction: 2,
        status: Status::Success,
    };
    let accepted = AssociationResponse {
        status: Status::Success,
        aid: Aid::new(1),
        rates: Rates::HrDsss,
    };
    let refused = AssociationResponse {
        status: Status::DeniedListenIntervalTooLarge,
        aid: None,
        rates: Rates::Ofdm,
    };
    for (body, first, want) in [
        (authentication, 0xb0, [0, 0, 2, 0, 0, 0].as_slice()),
        (
            ReplyBody::Assoc(accepted),
            0x10,
            &[1, 0, 0, 0, 1, 0xc0, 1, 4, 0x82, 0x84, 0x8b, 0x96],
        ),
        (
            ReplyBody::Reassoc(refused),
            0x30,
            &[1, 0, 51, 0, 0, 0, 1, 3, 0x8c, 0x98, 0xb0],
        ),
    ] {
        encodes(&rt, rt.alloc(), body, first, want);
    }
}

#[test]
fn encodes_what_ends_an_association_or_an_authentication(rt: HostRuntime) {
    let disassociation = ReplyBody::Disassoc {
        reason: Reason::INACTIVITY,
    };
    let deauthentication = ReplyBody::Deauth {
        reason: Reason::INVALID_CLASS2_FRAME,
    };
    encodes(&rt, rt.alloc(), disassociation, 0xa0, &[4, 0]);
    encodes(&rt, rt.alloc(), deauthentication, 0xc0, &[6, 0]);
}

// A probe response for the SSID `net` has these elements behind its fields.
fn encodes_probe(rt: &impl Abort, alloc: Global, channel: Option<u8>, rates: Rates, wanted: &[u8]) {
    let name = Vec::from_slice(alloc, b"net").expect(rt, "memory");
    let body = ReplyBody::Probe {
        beacon_interval: 100,
        ssid: SsidField::from_vec(name).expect(rt, "an SSID"),
        rates,
        channel,
    };
    let frame = encode_body(rt, alloc, body);
    let fields = [0, 0, 0, 0, 0, 0, 0, 0, 100, 0, 1, 0];
    expect(rt, frame.get(..1), Some([0x50].as_slice()));
    expect(rt, frame.get(24..36), Some(fields.as_slice()));
    expect(rt, behind(rt, &frame, 36), wanted);
}

#[test]
fn encodes_a_probe_response(rt: HostRuntime) {
    for (channel, rates, wanted) in [
        (
            Some(6),
            Rates::HrDsss,
            [
                0, 3, b'n', b'e', b't', 1, 4, 0x82, 0x84, 0x8b, 0x96, 3, 1, 6,
            ]
            .as_slice(),
        ),
        (
            None,
            Rates::Ofdm,
            &[0, 3, b'n', b'e', b't', 1, 3, 0x8c, 0x98, 0xb0],
        ),
    ] {
        encodes_probe(&rt, rt.alloc(), channel, rates, wanted);
    }
    let long = vec![in rt.alloc(); b'a'; 33].expect(&rt, "memory");
    expect(&rt, SsidField::from_vec(long).is_none(), true);
}

// What each reason for which a frame is ignored is printed as.
const WORDS: [(Ignored, &str); 12] = [
    (Ignored::TooLong, "long"),
    (Ignored::Short, "short"),
    (Ignored::Version, "version"),
    (Ignored::Class, "class"),
    (Ignored::Fragment, "fragment"),
    (Ignored::Flags, "flags"),
    (Ignored::Direction, "direction"),
    (Ignored::Sender, "sender"),
    (Ignored::Receiver, "receiver"),
    (Ignored::OtherBss, "bss"),
    (Ignored::Subtype, "subtype"),
    (Ignored::Body, "body"),
];

#[test]
fn prints_words_and_has_codes(rt: HostRuntime) {
    expect_printed(&rt, rt.alloc(), &WORDS);
    for (status, code) in [
        (Status::Success, 0),
        (Status::RefusedReasonUnspecified, 1),
        (Status::NotSupportedAuthAlgorithm, 13),
        (Status::TransactionSequenceError, 14),
        (Status::DeniedNoMoreStas, 17),
        (Status::DeniedListenIntervalTooLarge, 51),
    ] {
        expect(&rt, status.code(), code);
    }
    for (reason, code) in [
        (Reason::UNSPECIFIED, 1),
        (Reason::INVALID_AUTHENTICATION, 2),
        (Reason::INACTIVITY, 4),
        (Reason::INVALID_CLASS2_FRAME, 6),
        (Reason::INVALID_CLASS3_FRAME, 7),
    ] {
        expect(&rt, reason, Reason(code));
    }
}
