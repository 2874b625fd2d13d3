//! What a script prints: no clause speaks of it.

use apd_conf::{Confs, InterfaceName};
use apd_ctrl::{FAIL, escape};
use apd_mlme::{Out, Recipient};
use apd_slot::SlotFault;
use apd_world::{Reception, Told};
use std::alloc::{AllocError, Global};
use std::io::{self, Write};

/// Prints a line, if memory sufficed for it.
fn write_line<W: Write>(writer: &mut W, line: Result<String, AllocError>) -> io::Result<()> {
    let line = line?;
    writer.write_all(line.as_bytes())
}

/// Prints a frame that leaves for the radio of an interface.
fn write_frame<W: Write>(
    alloc: Global,
    writer: &mut W,
    interface: &InterfaceName,
    frame: &[u8],
) -> io::Result<()> {
    let digits = hex::encode(alloc, frame)?;
    write_line(writer, format!(in alloc; "{interface} tx {digits}\n"))
}

/// Prints what leaves for the radio of an interface.
pub fn write_out<W: Write>(
    alloc: Global,
    writer: &mut W,
    interface: &InterfaceName,
    out: &Out,
) -> io::Result<()> {
    match out {
        Out::Install(addr, aid) => {
            let number = aid.number;
            write_line(
                writer,
                format!(in alloc; "{interface} install {addr} {number}\n"),
            )
        }
        Out::Remove(addr) => write_line(writer, format!(in alloc; "{interface} remove {addr}\n")),
        Out::Frame(frame) => write_frame(alloc, writer, interface, frame.as_slice()),
        // No radio is told a text.
        Out::Text(..) => Ok(()),
    }
}

/// Prints what an interface's slot answered to an out: the out, or that it was lost, or that the slot went down.
pub fn write_applied<W: Write>(
    alloc: Global,
    writer: &mut W,
    interface: &InterfaceName,
    out: &Out,
    answer: Result<(), SlotFault>,
) -> io::Result<()> {
    match answer {
        Ok(()) => write_out(alloc, writer, interface, out),
        Err(SlotFault::Lost) => write_line(writer, format!(in alloc; "{interface} lost\n")),
        Err(SlotFault::WentDown) => write_line(writer, format!(in alloc; "{interface} down\n")),
        // No text is a radio's, and want of memory is told by no out.
        Err(SlotFault::NotMine | SlotFault::NoMemory) => Ok(()),
    }
}

/// Adds the text of a reply to its line, and ends this.
fn add_text(alloc: Global, line: &mut Vec<u8>, text: &[u8]) -> Result<(), AllocError> {
    let mut escaped = escape(alloc, text)?;
    line.append(&mut escaped)?;
    line.extend_from_slice(b"\n")
}

/// Prints the reply to the control command of a tag.
pub fn write_reply<W: Write>(
    alloc: Global,
    writer: &mut W,
    tag: u64,
    text: &[u8],
) -> io::Result<()> {
    let mut line = format!(in alloc; "ctrl {tag} ")?.into_bytes();
    add_text(alloc, &mut line, text)?;
    writer.write_all(line.as_slice())
}

/// Prints the replies among what is handed out.
fn write_replies<W: Write>(alloc: Global, writer: &mut W, outs: &[Out]) -> io::Result<()> {
    for out in outs {
        if let Out::Text(tag, text) = out {
            write_reply(alloc, writer, *tag, text.as_slice())?;
        }
    }
    Ok(())
}

/// Prints what was applied at the slot of an interface.
fn write_radios<W: Write>(
    alloc: Global,
    writer: &mut W,
    confs: &Confs,
    to: Recipient,
    told: &Told,
) -> io::Result<()> {
    let (Recipient::Radio(bssid), Told::Applied(out, answer)) = (to, told) else {
        return Ok(());
    };
    match confs.with_bssid(bssid) {
        Some(conf) => write_applied(alloc, writer, &conf.interface, out, *answer),
        None => Ok(()),
    }
}

/// Prints what was handed out: what each radio was given, in the order in which it was applied, and then
/// the replies to control commands.
pub fn write_answers<W: Write>(
    alloc: Global,
    writer: &mut W,
    confs: &Confs,
    answers: &[(Recipient, Told)],
) -> io::Result<()> {
    for (to, told) in answers {
        write_radios(alloc, writer, confs, *to, told)?;
    }
    for (_, told) in answers {
        if let Told::Handed(outs) = told {
            write_replies(alloc, writer, outs.as_slice())?;
        }
    }
    Ok(())
}

/// Prints the answer to a request.
pub fn write_reception<W: Write>(
    alloc: Global,
    writer: &mut W,
    answer: Reception,
) -> io::Result<()> {
    let line = match answer {
        Reception::Stopped => format!(in alloc; "stopped\n"),
        Reception::Busy => format!(in alloc; "busy\n"),
        Reception::Quiet(reason) => format!(in alloc; "quiet {reason}\n"),
        Reception::Entry(number) => format!(in alloc; "entry {number}\n"),
    };
    write_line(writer, line)
}

/// Prints what the step of a request told.
pub fn write_told<W: Write>(alloc: Global, writer: &mut W, told: &Told) -> io::Result<()> {
    match told {
        Told::Accepted(answer) => write_reception(alloc, writer, *answer),
        _ => Ok(()),
    }
}

/// Prints what the step of a control command told: its reply, or the entry that it is.
pub fn write_command_told<W: Write>(
    alloc: Global,
    writer: &mut W,
    tag: u64,
    told: &Told,
) -> io::Result<()> {
    match told {
        Told::Accepted(Reception::Entry(number)) => {
            write_reception(alloc, writer, Reception::Entry(*number))
        }
        Told::Accepted(Reception::Stopped | Reception::Busy | Reception::Quiet(_)) => {
            write_reply(alloc, writer, tag, FAIL)
        }
        Told::Answered(answer) => write_reply(alloc, writer, tag, answer.text()),
        _ => Ok(()),
    }
}

/// Prints how many station rows a device held.
pub fn write_recovered<W: Write>(alloc: Global, writer: &mut W, rows: usize) -> io::Result<()> {
    write_line(writer, format!(in alloc; "recovered {rows}\n"))
}
