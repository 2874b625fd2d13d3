//! Why a list of configurations is refused.
use thiserror::Error;

/// Why a list of configurations is refused, in the order in which it is looked for. Places are counted
/// from 0.
#[derive(Clone, Copy, Debug, PartialEq, Eq, Error)]
pub enum ConfsFault {
    /// There is none.
    #[error("no configuration")]
    Empty,
    /// There are more than 8.
    #[error("too many interfaces")]
    TooMany,
    /// The least place whose interface stands at an earlier place too.
    #[error("interface given twice")]
    SameInterface(usize),
    /// The least place whose BSSID stands at an earlier place too.
    #[error("bssid given twice")]
    SameBssid(usize),
}
