//! What is settled goes to a slot.
ghost use Rattle.apd_steps.specs.Handing.{HandsTo};

use apd_base::Bssid;
use apd_core::Core;
use apd_mlme::Recipient;
use apd_radio::Radio;
use apd_slot::Slot;
use std::alloc::AllocError;

/// Hands what is ready for the radio of a BSSID to its slot, behind what waits there, and tells how many outs. Room is made
/// before.
///
/// Errors: where memory ran out, and no out has left the core.
pub fn hand_to<R: Radio>(
    core: &mut Core,
    slot: &mut Slot<R>,
    bssid: Bssid,
) -> Result<usize, AllocError>
    ensures { HandsTo bssid result core.old core.new slot.old slot.new }
{
    let to = Recipient::Radio(bssid);
    slot.make_room(core.ready_count(to))?;
    let outs = core.hand(to)?;
    let count = outs.len();
    slot.queue(outs);
    Ok(count)
}
