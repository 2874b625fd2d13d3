//! The changes that a table takes, and a journal keeps.
use apd_base::{Addr, Bssid, Policy, Station, StationNumber, Which};

/// One change of a table. It holds only what a record can say: an identifier from 1 to 2007, mode 0 or
/// 1, a limit of at most 2007 stations, and a cursor from 0 to 2007, by their types.
#[derive(Clone, Copy, Debug, PartialEq, Eq)]
pub enum Change {
    /// The row of a station: a new one, or one in the place of its old one.
    Put {
        bssid: Bssid,
        addr: Addr,
        station: Station,
    },
    /// No row of the station any more. Without a row it does nothing.
    Drop {
        bssid: Bssid,
        addr: Addr,
    },
    /// An address more in a list. What is there already stays.
    ListAdd {
        bssid: Bssid,
        which: Which,
        addr: Addr,
    },
    /// An address no more in a list. What is not there stays out.
    ListDel {
        bssid: Bssid,
        which: Which,
        addr: Addr,
    },
    /// No address any more in a list.
    ListClear {
        bssid: Bssid,
        which: Which,
    },
    /// The policy of a BSSID: its first one, with which its cursor begins at 0, or one in the place of its
    /// old one.
    Policy {
        bssid: Bssid,
        policy: Policy,
    },
    /// The cursor of a BSSID: the identifier that it gave last, 0 where it gave none yet.
    Cursor {
        bssid: Bssid,
        last: StationNumber,
    },
}
