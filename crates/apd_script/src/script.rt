//! Scripts: requests as text, one a line, and what they are answered.
//!
//! | Line | What it does, and prints |
//! |---|---|
//! | `rx <interface> <hex>` | the radio of the interface received this frame; prints `entry <n>`, `quiet <word>`, `busy` or `stopped` |
//! | `tick <ms>` | the moment is this one from now on, in milliseconds: 1 to 20 decimal digits, below 2^64; it is 0 at first. The first station that is silent for too long goes; prints as `rx` does |
//! | `cmd <text>` | a control command, whose tag is the number of the line: a query prints `ctrl <tag> <text>` at once; any other prints `entry <n>`, and its reply when it is handed out; one that is refused prints `ctrl <tag> FAIL\n` or `ctrl <tag> UNKNOWN COMMAND\n` |
//! | `take`, `call`, `publish` | one step of a commit: a batch of what is not settled is taken, the next call of the device is made, the batch is settled; prints nothing |
//! | `hand` | hands out to each radio what was settled for it, and then the replies to commands; prints `<interface> install <addr> <aid>`, `<interface> remove <addr>`, `<interface> tx <hex>`, `<interface> lost` and `ctrl <tag> <text>` |
//! | `flush` | commits until all entries are settled, and then does as `hand`; a refusal of the store, there or in an earlier `take` or `call`, ends the script |
//! | `stop` | gives all up but the device, and begins anew from what it reads, with a fresh radio for each interface; prints `recovered <station rows>`, and then as at the beginning of a script |
//!
//! Lines end at a newline, and the last needs none. Blanks among the digits are skipped, and an empty
//! line is. Any other line, an interface that is not configured, and a `stop` for which there are too few
//! radios, ends the script.

ghost use Rattle.std.specs.Prelude.{◌≡◌, ◌≤◌, ◌<◌, ◌+◌, length, IfErr, IfNone, IfOk, IfSome, OnOk};
ghost use Rattle.apd_base.specs.declared.limits.TheConstants.{MAX_SCRIPT as MOST};
ghost use Rattle.apd_ctrl.specs.Reading.{line_of};
ghost use Rattle.apd_script.specs.Lines.{IsLineRead};
ghost use Rattle.apd_script.specs.Faults.{IsFault, IsUnread};
ghost use Rattle.apd_script.specs.Script.{Ends};

mod beginning;
mod calling;
mod fault;
mod interfaces;
mod line;
mod output;
mod runner;
mod stopping;

use apd_base::limits::MAX_SCRIPT;
use apd_disk::Disk;
use apd_radio::Radio;
use apd_world::World;
pub(crate) use beginning::begin_from;
pub use fault::ScriptFault;
use fault::reader_fault;
pub use line::exactly_one_line;
pub use output::{write_applied, write_out, write_reception};
use runner::Runner;
use std::alloc::Global;
use std::io::{BufRead, Read, Write};

/// Reads the bytes up to a newline, and with it, or all that is left, and tells how many there are.
///
/// # Errors
///
/// The reader failed, or memory ran out.
fn read_line<I: BufRead>(reader: &mut I, text: &mut Vec<u8>) -> Result<usize, ScriptFault>
    ensures read { OnOk result (IsLineRead (I.remaining reader.old) (I.remaining reader.new) text.new.items) }
    ensures length { IfOk result (λ read. length text.new.items ≡ read) }
    ensures err { IfErr result IsUnread }
{
    text.clear();
    reader.read_until(b'\n', text).map_err(reader_fault)
}

/// The bytes less one newline at their end.
fn line_of(bytes: &[u8]) -> &[u8]
    ensures { result.now ≡ line_of bytes.now }
{
    bytes.strip_suffix(b"\n").unwrap_or(bytes)
}

/// The number of bytes with these, where it is not more than a script may have.
fn within(length: usize, read: usize) -> Option<usize>
    ensures some { IfSome result (λ sum. (sum ≡ length + read) × (sum ≤ MOST)) }
    ensures none { IfNone result (MOST < length + read) }
{
    match length.checked_add(read) {
        Some(sum) if sum <= MAX_SCRIPT => Some(sum),
        _ => None,
    }
}

/// Reads the next line, tells how many bytes it has, and counts them. A script that is too long is refused as `Reader`.
fn next_line<I: BufRead>(
    reader: &mut I,
    text: &mut Vec<u8>,
    count: &mut usize,
) -> Result<usize, ScriptFault>
    ensures read { OnOk result (IsLineRead (I.remaining reader.old) (I.remaining reader.new) text.new.items) }
    ensures length { IfOk result (λ read. length text.new.items ≡ read) }
    ensures count { IfOk result (λ read. (count.new ≡ count.old + read) × (count.new ≤ MOST)) }
    ensures err { IfErr result IsUnread }
{
    let read = read_line(reader, text)?;
    let Some(sum) = within(*count, read) else {
        return Err(ScriptFault::Reader);
    };
    *count = sum;
    Ok(read)
}

/// Starts a world at moment 0, runs a script on it, line by line as it comes, and hands the world back.
/// It reads at most 16,777,217 bytes, and a script that has so many is refused as `Reader`. Each `stop`
/// takes a radio for each interface from the front of `spares`. A fault ends the script and gives the world
/// up; what was printed by then, for a bad line all that the lines in front of it told, stays printed.
pub fn run_script<D: Disk + Drop, R: Radio, I: BufRead + Drop, W: Write>(
    alloc: Global,
    world: World<D, R>,
    reader: I,
    writer: &mut W,
    spares: Vec<R>,
) -> Result<World<D, R>, ScriptFault>
    ensures ends { IfOk result (λ new. Ends D.model R.model (I.remaining reader) spares.items world new) }
    ensures fault { IfErr result (IsFault D.model R.model (I.remaining reader) spares.items world) }
{
    let mut runner = Runner::begin(alloc, world, spares).start_or_give_up(writer)?;
    let mut reader = reader.take(MAX_SCRIPT as u64 + 1);
    let mut text = Vec::new(alloc);
    let mut length = 0usize;
    for number in 1..u64::MAX {
        let read = match next_line(&mut reader, &mut text, &mut length) {
            Ok(read) => read,
            Err(fault) => return runner.give_up(fault),
        };
        if read == 0 {
            break;
        }
        runner = runner.run_line(writer, number, line_of(text.as_slice()))?;
    }
    Ok(runner.into_world())
}
