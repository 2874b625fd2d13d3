//! The steps of a session: each is made once more where it lacked memory, and what it told is printed.
use crate::requests::{COMMITS, WLAN0, WLAN1};
use crate::saying::{say, say_again, say_table};
use crate::sum::sum_of;
use apd_core::PublishFault;
use apd_disk::MemDisk;
use apd_mlme::Recipient;
use apd_radio::Sim;
use apd_slot::SlotFault;
use apd_store::StoreFault;
use apd_world::{Step, Told, World, WorldFault};
use std::io;

/// A world on a device of memory, with radios that do nothing.
pub type Memory = World<MemDisk, Sim>;

/// Whether a call of the device failed.
#[derive(Clone, Copy, PartialEq, Eq)]
pub struct Calls {
    pub failed: bool,
}

/// What a start answers: what its last steps told, each with its recipient; or why it is refused.
type Started = Result<Vec<(Recipient, Told)>, WorldFault>;

/// What can be seen of a world that goes on: its table, and which slots are up. What its slots have is said at the end.
type Look = (usize, usize, u64, bool, bool);

fn look(world: &Memory) -> Look {
    let table = world.table();
    let (wlan0, wlan1) = (world.is_up(WLAN0), world.is_up(WLAN1));
    (table.bss_count(), table.rows(), sum_of(table), wlan0, wlan1)
}

fn lacks_memory(told: &Told) -> bool {
    matches!(
        told,
        Told::NoMemory
            | Told::Loaded(Err(StoreFault::NoMemory))
            | Told::Published(Err(PublishFault::NoMemory))
            | Told::Applied(_, Err(SlotFault::NoMemory))
    )
}

/// What a step is called where it is made once more.
fn name_of(step: &Step<'_>) -> &'static str {
    match step {
        Step::Accept(..) => "accept",
        Step::Take => "take",
        Step::Call => "call",
        Step::Publish => "publish",
        Step::Hand(_) => "hand",
        Step::Ask(_) => "ask",
        Step::Apply(_) => "apply",
    }
}

/// The world's own call, without a clause.
fn tell(world: &mut Memory, step: &Step<'_>) -> Told {
    world.step(step)
}

/// Says that a step lacked memory, and else that what can be seen has changed.
fn say_lack(rt: &impl Print, step: &Step<'_>, is_as_it_was: bool) -> io::Result<()> {
    if is_as_it_was {
        say_again(rt, name_of(step))
    } else {
        println!(rt; "changed: {}", name_of(step))
    }
}

/// What a step tells, made once more where it lacked memory.
fn tell_or_retry(rt: &impl Print, world: &mut Memory, step: &Step<'_>) -> io::Result<Told> {
    let before = look(world);
    let told = tell(world, step);
    if !lacks_memory(&told) {
        return Ok(told);
    }
    drop(told);
    say_lack(rt, step, look(world) == before)?;
    Ok(tell(world, step))
}

/// Prints what a step told, and what is settled. That a call of the device failed is noted in `calls`.
fn say_told(rt: &impl Print, world: &Memory, told: &Told, calls: &mut Calls) -> io::Result<()> {
    if let Told::Called(Err(fault)) = told {
        calls.failed = true;
        return say(rt, *fault);
    }
    println!(rt; "{told:?}")?;
    match told {
        Told::Published(_) => say_table(rt, world.table()),
        _ => Ok(()),
    }
}

/// Makes a step, and prints what it told, and what is settled; none once a call of the device failed.
fn make(rt: &impl Print, world: &mut Memory, step: &Step<'_>, calls: &mut Calls) -> io::Result<()> {
    if calls.failed {
        return Ok(());
    }
    let told = tell_or_retry(rt, world, step)?;
    let said = say_told(rt, world, &told, calls);
    drop(told);
    said
}

/// Makes steps in order, until a call of the device fails.
fn make_all(
    rt: &impl Print,
    world: &mut Memory,
    steps: &[Step<'_>],
    calls: &mut Calls,
) -> io::Result<()> {
    for step in steps {
        make(rt, world, step, calls)?;
    }
    Ok(())
}

/// Commits what was accepted, and hands it out.
fn commit(rt: &impl Print, world: &mut Memory, calls: &mut Calls) -> io::Result<()> {
    make_all(rt, world, &COMMITS, calls)
}

/// Accepts requests, and commits and hands out each before the next.
pub fn serve(
    rt: &impl Print,
    world: &mut Memory,
    requests: &[Step<'_>],
    calls: &mut Calls,
) -> io::Result<()> {
    for request in requests {
        make(rt, world, request, calls)?;
        commit(rt, world, calls)?;
    }
    Ok(())
}

/// Whether a world is refused for want of memory, of its store or of a slot too.
pub fn is_short(fault: WorldFault) -> bool {
    matches!(
        fault,
        WorldFault::NoMemory
            | WorldFault::Store(StoreFault::NoMemory)
            | WorldFault::Slot(_, SlotFault::NoMemory)
    )
}

/// The world's own call, without a clause.
fn start_world(world: &mut Memory) -> Started {
    world.start()
}

/// What a start answers, made once more where it lacked memory. What was settled before it was refused stands, and is
/// said.
fn start_or_retry(rt: &impl Print, world: &mut Memory) -> io::Result<Started> {
    match start_world(world) {
        Err(fault) if is_short(fault) => {
            say_again(rt, "start")?;
            say_table(rt, world.table())?;
            Ok(start_world(world))
        }
        started => Ok(started),
    }
}

/// Prints what a start told, each with its recipient, and what is settled.
fn say_started(rt: &impl Print, world: &Memory, answers: &[(Recipient, Told)]) -> io::Result<()> {
    for (to, told) in answers {
        println!(rt; "{to:?}: {told:?}")?;
    }
    say_table(rt, world.table())
}

/// Starts each interface by one call, and prints what that told, each with its recipient.
pub fn start(rt: &impl Print, world: &mut Memory, calls: &mut Calls) -> io::Result<()> {
    match start_or_retry(rt, world)? {
        Ok(answers) => {
            let said = say_started(rt, world, &answers);
            drop(answers);
            said
        }
        Err(fault) => {
            calls.failed = true;
            say(rt, fault)
        }
    }
}
