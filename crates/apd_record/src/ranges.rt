//! What is known of each change by its type: a proof names it by a call that changes nothing.
ghost use Rattle.std.specs.Prelude.{◌<◌, ◌^◌};
ghost use Rattle.std.specs.List.{AllByRecursion};
ghost use Rattle.apd_base.specs.Addr.{IsAddr};
ghost use Rattle.apd_record.specs.Ranges.{IsStation, IsChange};

use crate::change::Change;
use apd_base::{Addr, Station};

#[tactic(auto, using(crate::proofs::Fronts::all_bytes))]
fn known_bytes(bytes: &[u8])
    ensures { AllByRecursion (λ b. b < 256) bytes.now }
{}

fn known_addr(addr: Addr)
    ensures { IsAddr addr }
{
    known_bytes(&addr.0);
}

fn known_number(number: u16)
    ensures { number < 2 ^ 16 }
{}

fn known_station(station: &Station)
    ensures { IsStation station.now }
{
    match station {
        Station::Authenticated => {}
        Station::Associated(association) => {
            known_number(association.capability);
            known_number(association.listen_interval);
        }
    }
}

impl Change {
    /// Tells a caller's proof that it is in the ranges of its type: its addresses have six bytes, and its
    /// numbers are of two. It changes nothing.
    pub fn range_law(&self)
        ensures { IsChange self.now }
    {
        match self {
            Change::Put {
                bssid,
                addr,
                station,
            } => {
                known_addr(bssid.0);
                known_addr(*addr);
                known_station(station);
            }
            Change::Drop { bssid, addr }
            | Change::ListAdd { bssid, addr, .. }
            | Change::ListDel { bssid, addr, .. } => {
                known_addr(bssid.0);
                known_addr(*addr);
            }
            Change::ListClear { bssid, .. }
            | Change::Policy { bssid, .. }
            | Change::Cursor { bssid, .. } => known_addr(bssid.0),
        }
    }
}
