//! Status codes and reason codes.
ghost use Rattle.std.specs.Prelude.{◌≡◌};
ghost use Rattle.apd_frame.specs.Wire.{status_code};
ghost use Rattle.apd_frame.specs.declared.codes.TheConstants.Reason.{UNSPECIFIED, INVALID_AUTHENTICATION, INACTIVITY, INVALID_CLASS2_FRAME, INVALID_CLASS3_FRAME};

/// A status code that is sent, by its name in IEEE Std 802.11-2016, 9.4.1.9, Table 9-46.
#[derive(Clone, Copy, Debug, PartialEq, Eq)]
pub enum Status {
    /// 0: successful.
    Success,
    /// 1: unspecified failure.
    RefusedReasonUnspecified,
    /// 13: the authentication algorithm is not supported.
    NotSupportedAuthAlgorithm,
    /// 14: the authentication transaction sequence number is not the one expected.
    TransactionSequenceError,
    /// 17: the access point can't serve more stations.
    DeniedNoMoreStas,
    /// 51: the listen interval is too large.
    DeniedListenIntervalTooLarge,
}

impl Status {
    /// Its code (9.4.1.9, Table 9-46).
    pub fn code(self) -> u16
        ensures { result ≡ status_code self }
    {
        match self {
            Status::Success => 0,
            Status::RefusedReasonUnspecified => 1,
            Status::NotSupportedAuthAlgorithm => 13,
            Status::TransactionSequenceError => 14,
            Status::DeniedNoMoreStas => 17,
            Status::DeniedListenIntervalTooLarge => 51,
        }
    }
}

/// A reason code (IEEE Std 802.11-2016, 9.4.1.7, Table 9-45): any number.
#[derive(Clone, Copy, Debug, PartialEq, Eq)]
pub struct Reason(pub u16);

impl Reason {
    /// 1: unspecified reason.
    pub const UNSPECIFIED: Reason = Reason(1);
    /// 2: the authentication is no longer valid.
    pub const INVALID_AUTHENTICATION: Reason = Reason(2);
    /// 4: the station was silent for too long.
    pub const INACTIVITY: Reason = Reason(4);
    /// 6: a class 2 frame from a station that is not authenticated.
    pub const INVALID_CLASS2_FRAME: Reason = Reason(6);
    /// 7: a class 3 frame from a station that is not associated.
    pub const INVALID_CLASS3_FRAME: Reason = Reason(7);
}

/// The reason codes in numbers, as IEEE Std 802.11-2016, 9.4.1.7, Table 9-45 has them. Other contracts
/// and definitions cite them by name.
pub fn reason_codes_law()
    ensures unspecified { UNSPECIFIED.0 ≡ 1 }
    ensures invalid_authentication { INVALID_AUTHENTICATION.0 ≡ 2 }
    ensures inactivity { INACTIVITY.0 ≡ 4 }
    ensures invalid_class2_frame { INVALID_CLASS2_FRAME.0 ≡ 6 }
    ensures invalid_class3_frame { INVALID_CLASS3_FRAME.0 ≡ 7 }
{}
