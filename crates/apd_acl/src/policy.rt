//! Whom a BSSID allows.
ghost use Rattle.std.specs.Prelude.{◌≡◌};
ghost use Rattle.apd_acl.specs.Policy.{is_allowed};

use apd_base::AclMode;

/// Whether a mode allows a station that is on the accept list or not, and on the deny list or not.
pub fn is_allowed(mode: AclMode, accepted: bool, denied: bool) -> bool
    ensures { result ≡ is_allowed mode accepted denied }
{
    match mode {
        AclMode::AcceptUnlessDenied => accepted || !denied,
        AclMode::DenyUnlessAccepted => accepted,
    }
}
