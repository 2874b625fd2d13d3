//! A list of steps.
ghost use Rattle.std.specs.Prelude.{◌≡◌, IfOk, OnErr, OnOk};
ghost use Rattle.apd_world.specs.Proper.{IsProper, IsShown};
ghost use Rattle.apd_world.specs.SafelyMade.{AreSafelyMade};
ghost use Rattle.apd_world.specs.WorldParts.{durable_of};

use crate::step::{Step, Told};
use crate::world::World;
use apd_disk::Disk;
use apd_radio::Radio;
use std::alloc::AllocError;

/// Makes the steps in order, and answers what each told. Whatever history the world stands for, it stands for a later
/// one after them, in which what is new is what they told. However many of the steps had been made, a stop at any
/// moment since then, inside a step or between two, leaves an image of the table after some of what happened, from the
/// front, with all of which anything had been said by then. At its end, between two steps, a stop leaves the settled
/// table, or that after the batch in flight. It is for who has a list of steps; served, workers make them in threads.
///
/// Errors, before the first step: `AllocError`, and the world is as it was.
pub fn drive<D: Disk, R: Radio>(
    world: &mut World<D, R>,
    steps: &[Step<'_>],
) -> Result<Vec<Told>, AllocError>
    ensures made { IfOk result (λ tolds. AreSafelyMade D.model R.model steps.now tolds.items world.old world.new) }
    ensures between { IsProper D.model (durable_of world.old) → OnOk result (IsShown D.model (durable_of world.new)) }
    ensures err { OnErr result (world.new ≡ world.old) }
{
    let mut tolds = Vec::with_capacity(world.alloc, steps.len())?;
    world.durable.stops();
    for step in steps {
        tolds.push_reserved(world.step(step));
    }
    world.show_images();
    Ok(tolds)
}
