//! A stop: the world is given up, and begun anew from what its device reads.
ghost use Rattle.std.specs.Prelude.{◌≡◌, ◌<◌, IfErr, IfNone, IfOk, IfSome, drop, length, map};
ghost use Rattle.apd_slot.specs.Slots.{bssid_of};
ghost use Rattle.apd_script.specs.Lines.{Stop};
ghost use Rattle.apd_world.specs.Outside.{device_of};
ghost use Rattle.apd_world.specs.WorldParts.{durable_of};

use super::beginning::begin_from;
use super::fault::{ScriptFault, writer_fault};
use super::output::write_recovered;
use super::runner::Runner;
use apd_conf::Confs;
use apd_disk::Disk;
use apd_radio::Radio;
use apd_slot::Slot;
use apd_store::an_image_shows_one_state;
use apd_world::{World, slots_for};
use std::alloc::{AllocError, Global};
use std::io::Write;
use std::mem;

/// A slot for each interface, each with a radio from the front; none where there are too few.
fn fresh_slots<R: Radio>(
    alloc: Global,
    confs: &Confs,
    spares: &mut Vec<R>,
) -> Result<Option<Vec<Slot<R>>>, AllocError>
    ensures slots { IfOk result
        (λ found. IfSome found (λ slots. map bssid_of slots.items ≡ map (λ conf. conf.bssid) confs.now)) }
    ensures rest { IfOk result
        (λ found. IfSome found (λ slots. spares.new.items ≡ drop (length confs.now) spares.old.items)) }
    ensures none { IfOk result (λ found. IfNone found (length spares.old.items < length confs.now)) }
{
    let count = confs.list().len();
    if spares.len() < count {
        return Ok(None);
    }
    let rest = spares.split_off(count)?;
    let radios = mem::replace(spares, rest);
    Ok(Some(slots_for(alloc, confs, radios)?))
}

/// The device of a world that is given up.
fn device_of<D: Disk, R: Radio>(world: World<D, R>) -> D
    ensures { result ≡ device_of (durable_of world) }
{
    let (flusher, core, slots) = world.into_parts();
    drop(core);
    drop(slots);
    flusher.into_device()
}

impl<D: Disk + Drop, R: Radio> Runner<D, R> {
    ghost use Rattle.apd_script.specs.Faults.{IsBeginFault, IsSaidFault, IsUnwritten};
    ghost use Rattle.apd_script.specs.Script.{AreRenewed, IsRestarted, Restarts, Stops, confs_of};

    /// Gives up the world, and begins one of these configurations from what its device reads, with these
    /// slots, at the moment.
    fn restart(self, confs: Confs, slots: Vec<Slot<R>>) -> Result<Runner<D, R>, ScriptFault>
        ensures ok { IfOk result
            (λ new. confs ≡ confs_of self → map bssid_of slots.items ≡ map (λ conf. conf.bssid) confs
            → IsRestarted D.model R.model self.moment self.world new.world) }
        ensures only { IfOk result (λ new. new ≡ record self { world = new.world; refusal = None }) }
        ensures err { IfErr result (λ why. map bssid_of slots.items ≡ map (λ conf. conf.bssid) confs
            → IsBeginFault D.model R.model (device_of (durable_of self.world)) confs why) }
    {
        an_image_shows_one_state();
        self.world.show_images();
        let Runner {
            alloc,
            world,
            moment,
            spares,
            ..
        } = self;
        let world = begin_from(alloc, device_of(world), confs, slots, moment)?;
        Ok(Runner {
            alloc,
            world,
            moment,
            spares,
            refusal: None,
        })
    }

    /// The configurations, and a slot for each with a radio from the front.
    fn fresh_parts(&mut self, number: u64) -> Result<(Confs, Vec<Slot<R>>), ScriptFault>
        ensures ok { IfOk result (λ parts. AreRenewed parts.0 parts.1.items self.old self.new) }
        ensures err { IfErr result (IsSaidFault D.model R.model number Stop self.old) }
    {
        let confs = self.world.confs().copy(self.alloc)?;
        match fresh_slots(self.alloc, &confs, &mut self.spares)? {
            Some(slots) => Ok((confs, slots)),
            None => Err(ScriptFault::BadLine(number)),
        }
    }

    /// Gives up the world, and begins it anew with a radio from the front for each interface.
    fn begin_anew(self, number: u64) -> Result<Runner<D, R>, ScriptFault>
        ensures ok { IfOk result (λ new. Restarts D.model R.model self new) }
        ensures err { IfErr result (IsSaidFault D.model R.model number Stop self) }
    {
        let mut runner = self;
        match runner.fresh_parts(number) {
            Ok((confs, slots)) => runner.restart(confs, slots),
            Err(fault) => runner.give_up(fault),
        }
    }

    /// Prints how many station rows the device held.
    fn print_rows<W: Write>(&self, writer: &mut W) -> Result<(), ScriptFault>
        ensures { IfErr result IsUnwritten }
    {
        write_recovered(self.alloc, writer, self.world.table().rows()).map_err(writer_fault)
    }

    /// The same, with the script handed back. A fault gives it up.
    fn print_rows_or_give_up<W: Write>(self, writer: &mut W) -> Result<Runner<D, R>, ScriptFault>
        ensures ok { IfOk result (λ new. new ≡ self) }
        ensures err { IfErr result IsUnwritten }
    {
        let printed = self.print_rows(writer);
        self.keep_if(printed)
    }

    /// Stops and restarts, prints how many station rows the device held, and starts the interfaces.
    pub fn stop<W: Write>(self, writer: &mut W, number: u64) -> Result<Runner<D, R>, ScriptFault>
        ensures ok { IfOk result (λ new. Stops D.model R.model self new) }
        ensures err { IfErr result (IsSaidFault D.model R.model number Stop self) }
    {
        let runner = self.begin_anew(number)?.print_rows_or_give_up(writer)?;
        runner.start_or_give_up(writer)
    }
}
