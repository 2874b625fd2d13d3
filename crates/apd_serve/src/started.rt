//! A world that was started.
ghost use Rattle.std.specs.Prelude.{◌≡◌, IfOk};
ghost use Rattle.apd_serve.specs.Started.{HasStarted, WasStarted};

use crate::fault::{ServeFault, of_start};
use apd_disk::Disk;
use apd_radio::Radio;
use apd_world::World;

/// A world whose interfaces are configured, which was committed and handed out: nothing waits in it that would be lost
/// where it is taken apart.
#[derive(Drop)]
pub(crate) struct StartedWorld<D: Disk + Drop, R: Radio> {
    world: World<D, R>,
    ghost started: { ∥ WasStarted D.model R.model world ∥₁ },
}

impl<D: Disk + Drop, R: Radio> StartedWorld<D, R> {
    /// The world.
    pub(crate) fn world(&self) -> &World<D, R>
        ensures { result.now ≡ self.now.world }
    {
        &self.world
    }

    /// The same, to be taken apart.
    pub(crate) fn into_world(self) -> World<D, R>
        ensures same { result ≡ self.world }
        ensures started { ∥ WasStarted D.model R.model result ∥₁ }
    {
        let StartedWorld { world, .. } = self;
        world
    }
}

/// A world, started.
///
/// Errors: `Store` where the store refuses; `NoMemory`.
pub(crate) fn start<D: Disk + Drop, R: Radio>(
    world: World<D, R>,
) -> Result<StartedWorld<D, R>, ServeFault>
    ensures { IfOk result (λ started. HasStarted D.model R.model world started.world) }
{
    let mut world = world;
    match world.start() {
        Ok(told) => {
            drop(told);
            Ok(StartedWorld { world })
        }
        Err(fault) => {
            drop(world);
            Err(of_start(fault))
        }
    }
}
