//! Calls whose contracts are long, each by a function of its own without a clause, so that the proof of a test needn't
//! carry them.
use apd_base::{Bssid, Moment};
use apd_conf::{Conf, Confs};
use apd_core::Core;
use apd_disk::{Disk, MemDisk};
use apd_flusher::Flusher;
use apd_mlme::{Out, Recipient};
use apd_radio::{Radio, Sim};
use apd_slot::{Mending, Slot};
use apd_store::{Store, format};
use apd_table::Table;
use apd_world::{Step, Told, World, WorldFault, drive, restart};
use std::alloc::Global;

/// A world on a device of memory, with radios that do nothing.
pub(crate) type Memory = World<MemDisk, Sim>;

/// What a restart that is refused hands back.
pub(crate) type Refused<R> = (MemDisk, Vec<Slot<R>>, WorldFault);

/// The number of a device's bytes.
const LENGTH: usize = 2_097_216;

// No clause says what the disk holds: a proof would go through two million bytes.
pub(crate) fn blank_disk(alloc: Global) -> Option<MemDisk> {
    MemDisk::new(alloc, vec![in alloc; 0u8; LENGTH].ok()?).ok()
}

/// The store of a device that is formatted.
pub(crate) fn store<D: Disk + Drop>(alloc: Global, disk: D) -> Option<Store<D>> {
    format(alloc, disk).ok()
}

/// A list of configurations that is taken.
pub(crate) fn confs_of(list: Vec<Conf>) -> Option<Confs> {
    Confs::new(list).ok()
}

/// A flusher of a new store.
pub(crate) fn flusher<D: Disk + Drop>(alloc: Global, store: Store<D>) -> Option<Flusher<D>> {
    Flusher::new(alloc, store, Table::new(alloc)).ok()
}

/// A core of the empty table.
pub(crate) fn core(alloc: Global, confs: Confs) -> Option<Core> {
    Core::new(alloc, Table::new(alloc), confs, Moment(0)).ok()
}

/// A world of these, of which no interface was started.
pub(crate) fn join_parts<D: Disk, R: Radio>(
    alloc: Global,
    flusher: Flusher<D>,
    core: Core,
    slots: Vec<Slot<R>>,
) -> World<D, R> {
    World::new(alloc, flusher, core, slots)
}

/// The world of the store that a device holds.
pub(crate) fn restart_world<R: Radio>(
    alloc: Global,
    device: MemDisk,
    confs: Confs,
    slots: Vec<Slot<R>>,
) -> Result<World<MemDisk, R>, Refused<R>> {
    restart(alloc, device, confs, slots, Moment(0))
}

/// Why a start is refused; none where it is not.
pub(crate) fn refusal<D: Disk, R: Radio>(world: &mut World<D, R>) -> Option<WorldFault> {
    world.start().err()
}

/// What is told, each with its recipient.
pub(crate) type Answers = Vec<(Recipient, Told)>;

/// What a start answers.
pub(crate) fn start_answers<D: Disk, R: Radio>(
    world: &mut World<D, R>,
) -> Result<Answers, WorldFault> {
    world.start()
}

/// What a flush answers.
pub(crate) fn flush_answers<D: Disk, R: Radio>(
    world: &mut World<D, R>,
) -> Result<Answers, WorldFault> {
    world.flush()
}

/// What a hand-out answers.
pub(crate) fn hand_out_answers<D: Disk, R: Radio>(
    world: &mut World<D, R>,
) -> Result<Answers, WorldFault> {
    world.hand_out()
}

/// What these steps tell.
pub(crate) fn tell<D: Disk, R: Radio>(
    world: &mut World<D, R>,
    steps: &[Step<'_>],
) -> Option<Vec<Told>> {
    drive(world, steps).ok()
}

/// Makes these steps.
pub(crate) fn makes<D: Disk, R: Radio>(world: &mut World<D, R>, steps: &[Step<'_>]) -> Option<()> {
    match drive(world, steps) {
        Ok(_) => Some(()),
        Err(_) => None,
    }
}

/// Puts another radio in the place of that of a BSSID's slot.
pub(crate) fn replace_radio<D: Disk, R: Radio>(
    world: &mut World<D, R>,
    bssid: Bssid,
    radio: R,
) -> Result<R, (R, WorldFault)> {
    world.replace(bssid, radio)
}

/// Begins to mend the slot of a BSSID.
pub(crate) fn begins_mending<D: Disk, R: Radio>(
    world: &mut World<D, R>,
    bssid: Bssid,
    mending: &mut Mending<R>,
) {
    world.begin_mending(bssid, mending);
}

/// Goes on mending it. Tells whether a try was left.
pub(crate) fn mends<D: Disk, R: Radio>(
    world: &mut World<D, R>,
    bssid: Bssid,
    mending: &mut Mending<R>,
) -> bool {
    world.mend(bssid, mending)
}

/// What a world is made of.
pub(crate) fn parts_of<D: Disk, R: Radio>(world: World<D, R>) -> (Flusher<D>, Core, Vec<Slot<R>>) {
    world.into_parts()
}

/// Gives a slot an out, beside those that wait.
pub(crate) fn applies<R: Radio>(slot: &mut Slot<R>, out: &Out) -> Option<()> {
    slot.apply(out).ok()
}

/// Puts outs behind those that wait at a slot.
pub(crate) fn queues<R: Radio>(slot: &mut Slot<R>, outs: Vec<Out>) -> Option<()> {
    slot.make_room(outs.len()).ok()?;
    slot.queue(outs);
    Some(())
}

/// The device of a world that stops.
pub(crate) fn device<R: Radio>(world: World<MemDisk, R>) -> MemDisk {
    let (flusher, core, slots) = world.into_parts();
    drop(core);
    drop(slots);
    flusher.into_device()
}

/// Its slots.
pub(crate) fn slots_of<R: Radio>(world: World<MemDisk, R>) -> Vec<Slot<R>> {
    let (flusher, core, slots) = world.into_parts();
    drop(flusher);
    drop(core);
    slots
}

/// The first byte of the next frame that a radio received.
pub(crate) fn receive<R: Radio>(radio: &mut R) -> Option<u8> {
    let frame = radio.poll().ok()??;
    frame.first().copied()
}

/// The same of a slot's.
pub(crate) fn receive_at<R: Radio>(slot: &mut Slot<R>) -> Option<u8> {
    let frame = slot.poll().ok()??;
    frame.first().copied()
}
