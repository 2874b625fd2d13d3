//! The authentication algorithms of a BSSID.
ghost use Rattle.std.specs.Prelude.{◌≡◌};
ghost use Rattle.apd_conf.specs.Auth.{allows_open};

/// The values of `auth_algs`, a set of algorithms (IEEE Std 802.11-2016, 9.4.1.1): bit 0 of its number
/// is Open System, and bit 1 is Shared Key.
#[derive(Clone, Copy, Debug, PartialEq, Eq)]
pub enum AuthAlgs {
    /// 1.
    Open,
    /// 2.
    Shared,
    /// 3.
    OpenAndShared,
}

impl AuthAlgs {
    /// Whether Open System is among them.
    pub fn allows_open(self) -> bool
        ensures { result ≡ allows_open self }
    {
        self != AuthAlgs::Shared
    }
}
