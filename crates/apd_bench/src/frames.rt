//! The frames of stations to the one radio, which has the built-in configuration's BSSID.
ghost use Rattle.std.specs.Prelude.{◌≤◌};

/// Station 0 asks to be authenticated.
pub const AUTHENTICATION: [u8; 30] = [
    0xb0, 0, 0, 0, 2, 0, 0, 0, 0, 1, 2, 0, 0, 1, 0, 0, 2, 0, 0, 0, 0, 1, 0, 0, 0, 0, 1, 0, 0, 0,
];

/// It asks to be associated: behind the header capability, listen interval, the network's name and four rates.
pub const ASSOCIATION: [u8; 39] = [
    0, 0, 0, 0, 2, 0, 0, 0, 0, 1, 2, 0, 0, 1, 0, 0, 2, 0, 0, 0, 0, 1, 0, 0, 0x31, 4, 10, 0, 0, 3,
    b'n', b'e', b't', 1, 4, 0x82, 0x84, 0x8b, 0x96,
];

/// It leaves.
pub const DEAUTHENTICATION: [u8; 26] = [
    0xc0, 0, 0, 0, 2, 0, 0, 0, 0, 1, 2, 0, 0, 1, 0, 0, 2, 0, 0, 0, 0, 1, 0, 0, 3, 0,
];

/// The same frame of the station of this number, which is the end of its address.
pub fn of_station<const LENGTH: usize>(frame: [u8; LENGTH], station: u16) -> [u8; LENGTH]
    requires { 16 ≤ LENGTH }
{
    let mut frame = frame;
    let [high, low] = station.to_be_bytes();
    frame[14] = high;
    frame[15] = low;
    frame
}
