//! The interfaces of a script that runs.
ghost use Rattle.std.specs.Prelude.{◌≡◌};
ghost use Rattle.apd_script.specs.Script.{found_by};

use super::runner::Runner;
use apd_base::Bssid;
use apd_ctrl::Interfaces;
use apd_disk::Disk;
use apd_radio::Radio;

// Those that its world is configured with, all known.
impl<D: Disk + Drop, R: Radio> Interfaces for Runner<D, R> {
    ghost finds = { λ s name found. found ≡ found_by s name };

    fn interface(&self, name: Option<&[u8]>) -> Option<(Bssid, bool)> {
        let bssid = self.world.confs().for_command(name)?.bssid;
        Some((bssid, self.world.is_up(bssid)))
    }
}
