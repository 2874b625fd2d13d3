//! Whether a network answers who asks for any.

/// The values of `ignore_broadcast_ssid`: whether a BSSID answers a probe request with the empty SSID,
/// which stands for any network (IEEE Std 802.11-2016, 9.4.2.2). This daemon does the same for both that
/// do not answer.
#[derive(Clone, Copy, Debug, PartialEq, Eq)]
pub enum IgnoreBroadcastSsid {
    /// 0: it answers.
    No,
    /// 1: it does not answer.
    Empty,
    /// 2: it does not answer.
    Cleared,
}
