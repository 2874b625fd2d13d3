//! What is seen of a slot.
use crate::steps::STATION;
use apd_base::Addr;
use apd_radio::Radio;
use apd_slot::Slot;

/// Whether a slot is up, and the identifier under which a station is wanted, and installed.
pub(crate) type Seen = (bool, Option<u16>, Option<u16>);

pub(crate) fn look_at<R: Radio>(slot: &Slot<R>, station: Addr) -> Seen {
    (slot.is_up(), slot.wanted(station), slot.installed(station))
}

/// What is seen of the first slot, and of the station of each test.
pub(crate) fn look<R: Radio>(slots: &[Slot<R>]) -> Option<Seen> {
    Some(look_at(slots.first()?, STATION))
}

/// What is seen of the first two, and of a station at each.
pub(crate) fn look_at_two<R: Radio>(slots: &[Slot<R>], stations: [Addr; 2]) -> Option<[Seen; 2]> {
    let [one, two] = stations;
    let (first, second) = (slots.first()?, slots.get(1)?);
    Some([look_at(first, one), look_at(second, two)])
}
