//! An access point that serves, in threads.
ghost use Rattle.std.specs.Prelude.{◌≡◌};

use crate::crew::Crew;
use crate::environment::Environment;
use crate::fault::ServeFault;
use crate::host::Host;
use crate::started::{StartedWorld, start};
use apd_desk::{Clock, Gate, Port, SEATS};
use apd_disk::Disk;
use apd_radio::Radio;
use apd_site::Alarm;
use apd_world::World;
use std::alloc::Global;
use std::io::Read;
use std::marker::Brand;
use std::net::Net;
use std::sync::ledger::{Blank, Ledger};

// Has the crew of a started world work until the input ends, and closes what is left, over one ledger.
fn serve_crew<
    L: Ledger + Send + Sync,
    W: Host + Net<Stream: Send + Sync, Listener: Send + Sync>,
    C: Clock + Sync,
    G: Gate + Sync,
    D: Disk + Drop + Send,
    R: Radio + Send,
    P: Port + Drop + Send,
    B: Read,
>(
    environment: &Environment<'_, W, C, G>,
    blank: Blank,
    world: StartedWorld<D, R>,
    port: P,
    reader: &mut B,
) -> Result<u64, ServeFault>
    requires name { blank.name ≡ L.name }
    requires parts { blank.parts ≡ L.parts }
    requires all { blank.parts ≡ SEATS }
{
    let crew = Crew::<L, W, C, G, D, R, P>::new(environment, blank, world, port)?;
    let crew = crew.work(reader)?;
    crew.close()
}

/// As `serve`, of a world that is started, in this environment.
pub(crate) fn serve_started<
    W: Host + Net<Stream: Send + Sync, Listener: Send + Sync>,
    C: Clock + Sync,
    G: Gate + Sync,
    D: Disk + Drop + Send,
    R: Radio + Send,
    P: Port + Drop + Send,
    B: Read,
>(
    environment: &Environment<'_, W, C, G>,
    world: StartedWorld<D, R>,
    port: P,
    reader: &mut B,
) -> Result<u64, ServeFault> {
    let blank = Blank::new(u64::from(SEATS));
    serve_crew::<Brand, W, C, G, D, R, P, B>(environment, blank, world, port, reader)
}

/// Serves an access point until the input ends or fails: configures each interface, which is committed and handed
/// out first, and then receives frames, carries out the commands of the control port, lets silent stations go,
/// commits, and hands out what is settled, each in a thread of its own, a thread for each radio. What is read of the
/// input is dropped. At its end the threads are stopped. Once all have ended, what they accepted is committed: a batch
/// or a receipt that the thread which commits left goes first. Then what was settled is handed out once more, in order.
/// What meets want of memory is tried again for about a second; what meets it still is lost with all that waits behind
/// it, which is logged at the level error. It answers how many requests became entries: the sum of what the threads'
/// seats counted, which the start isn't part of.
///
/// Errors: `Store` where the store refuses the start; `Thread` where a thread can't be made, with those that run
/// stopped first, or was lost; `NoMemory`. The start may have been committed and handed out before any of them. A fault
/// of the device that comes later is none: it is logged at the level error when it comes, what it leaves undone is
/// never told, and what comes after is refused, until a restart.
pub fn serve<
    W: Host + Net<Stream: Send + Sync, Listener: Send + Sync>,
    D: Disk + Drop + Send,
    R: Radio + Send,
    P: Port + Drop + Send,
    C: Clock + Drop + Sync,
    G: Gate + Sync,
    B: Read + Drop,
>(
    rt: &W,
    alloc: Global,
    world: World<D, R>,
    port: P,
    clock: C,
    gate: &G,
    reader: B,
) -> Result<u64, ServeFault> {
    serve_and_ring(rt, alloc, world, port, clock, gate, &Alarm::new(), reader)
}

/// As `serve`; the alarm rings where the device fails, when that comes.
pub fn serve_and_ring<
    W: Host + Net<Stream: Send + Sync, Listener: Send + Sync>,
    D: Disk + Drop + Send,
    R: Radio + Send,
    P: Port + Drop + Send,
    C: Clock + Drop + Sync,
    G: Gate + Sync,
    B: Read + Drop,
>(
    rt: &W,
    alloc: Global,
    world: World<D, R>,
    port: P,
    clock: C,
    gate: &G,
    alarm: &Alarm,
    reader: B,
) -> Result<u64, ServeFault> {
    let mut reader = reader;
    let world = start(world)?;
    let environment = Environment::untold(rt, alloc, &clock, gate, alarm);
    serve_started(&environment, world, port, &mut reader)
}
