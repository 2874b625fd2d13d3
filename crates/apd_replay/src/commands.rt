//! What the port was asked, and what it told.
use crate::digest::digest;
use crate::fault::Fault;
use crate::history::{Answered, History};
use crate::notes::{Note, Seen};
use crate::plan::Plan;
use apd_ctrl::{FAIL, Parsed, Placed, Query, UNKNOWN_COMMAND, parse_command};
use std::alloc::{AllocError, Global};

// What the port was asked, and told.
#[derive(Drop)]
struct PortReading<'a> {
    plan: &'a Plan,
    failed: bool,
    // The stamp of the end of the turn in which the device failed.
    fault: Option<u64>,
    // The last number that its own seat was told of.
    told: u64,
    // What it saw last of the radio that a command is about.
    seen: Option<Seen>,
    // Of each command that was given: what was told and seen when it was, and whether it became an entry and was replied
    // to.
    commands: Vec<Command>,
}

#[derive(Clone, Copy)]
struct Command {
    stamp: u64,
    from: u64,
    seen: Option<Seen>,
    is_entry: bool,
    is_replied: bool,
}

impl PortReading<'_> {
    fn give(&mut self, stamp: u64) -> Result<(), AllocError> {
        let from = self.told;
        let seen = self.seen.take();
        self.commands.push(Command {
            stamp,
            from,
            seen,
            is_entry: false,
            is_replied: false,
        })?;
        Ok(())
    }

    fn accept(&mut self) {
        if let Some(command) = self.commands.last_mut() {
            command.is_entry = true;
        }
    }

    fn tell(&mut self, query: Query, number: u64, text: u64) -> Result<Answered, Fault> {
        if number < self.told {
            return Err(Fault::ToldBack(number));
        }
        self.told = number;
        Ok(Answered {
            command: None,
            queries: [query, query],
            from: number,
            to: number,
            text,
        })
    }

    // The command of a tag, if it was not replied to before; it is from now on.
    fn reply_to(&mut self, tag: u64) -> Option<Command> {
        let place = usize::try_from(tag).unwrap_or(usize::MAX);
        match self.commands.get_mut(place) {
            Some(command) if !command.is_replied => {
                command.is_replied = true;
                Some(*command)
            }
            _ => None,
        }
    }

    // Whether each command was replied to that has to be by now: but orders that became entries, and are told of by the
    // replay.
    fn check_replies(&self) -> Result<(), Fault> {
        for (place, command) in self.commands.iter().enumerate() {
            if !command.is_replied && !command.is_entry {
                return Err(Fault::NoReply(place as u64));
            }
        }
        Ok(())
    }
}

/// What has to be replied to a command.
#[derive(Clone, Copy)]
enum Wanted {
    /// This text, at once.
    Text(&'static [u8]),
    /// The answer to one of these queries.
    Answer([Query; 2]),
    /// What its entry says, or `FAIL` where it became none.
    Order,
}

// Whether a radio was noted up from one look to another, where it can't have changed between: to be noted otherwise and
// back, its drivers would have failed, or would have been taken down.
fn steadily_up(from: Option<Seen>, to: Option<Seen>) -> Option<bool> {
    let (Some(from), Some(to)) = (from, to) else {
        return None;
    };
    if from.up == to.up && from.before == to.behind {
        Some(from.up)
    } else {
        None
    }
}

// How an interface may have been told to be, whose radio was up, or down, if that is known: it is down once the core has
// failed, which it has behind the fault of the device.
fn may_be_up(command: Command, up: Option<bool>, failed: bool, fault: Option<u64>) -> [bool; 2] {
    if fault.is_some_and(|fault| command.stamp > fault) {
        return [false, false];
    }
    [up.unwrap_or(true), up.unwrap_or(false) && !failed]
}

// What has to be replied to a command, whose interface is either.
fn wanted_reply(plan: &Plan, bytes: &[u8], [up, or_up]: [bool; 2]) -> Wanted {
    let (interface, command) = match parse_command(bytes) {
        Parsed::Command { interface, command } => (interface, command),
        Parsed::Unknown => return Wanted::Text(UNKNOWN_COMMAND),
        Parsed::Fail => return Wanted::Text(FAIL),
    };
    let Some(conf) = plan.confs.for_command(interface) else {
        return Wanted::Text(FAIL);
    };
    let one = command.at(conf.bssid, up, 0);
    let other = command.at(conf.bssid, or_up, 0);
    match (one, other) {
        (Placed::Ask(one), Placed::Ask(other)) => Wanted::Answer([one, other]),
        _ => Wanted::Order,
    }
}

impl History {
    // Adds the reply to an order, or compares it with that to one that became no entry.
    fn add_order_reply(
        &mut self,
        command: Command,
        failed: bool,
        tag: u64,
        text: u64,
    ) -> Result<(), Fault> {
        if command.is_entry {
            return Ok(self.replies.push((tag, text))?);
        }
        if failed {
            check_same(tag, text, digest(FAIL))
        } else {
            Err(Fault::OtherReply(tag))
        }
    }

    // Adds a reply.
    fn add_reply(&mut self, port: &mut PortReading<'_>, tag: u64, text: u64) -> Result<(), Fault> {
        let seen = port.seen.take();
        let (Some(command), Some(bytes)) = (port.reply_to(tag), port.plan.command(tag)) else {
            return Err(Fault::ReplyTwice(tag));
        };
        let up = steadily_up(command.seen, seen);
        let may_be_up = may_be_up(command, up, port.failed, port.fault);
        match wanted_reply(port.plan, bytes, may_be_up) {
            Wanted::Text(wanted) => check_same(tag, text, digest(wanted)),
            Wanted::Order => self.add_order_reply(command, port.failed, tag, text),
            Wanted::Answer(queries) => {
                let answer = Answered {
                    command: Some(tag),
                    queries,
                    from: command.from,
                    to: port.told,
                    text,
                };
                Ok(self.answers.push(answer)?)
            }
        }
    }

    fn read_port(&mut self, port: &mut PortReading<'_>, note: Note) -> Result<(), Fault> {
        match note {
            Note::Given(stamp, _) => Ok(port.give(stamp)?),
            Note::Accepted(_) => {
                port.accept();
                Ok(())
            }
            Note::Told(query, number, text) => {
                let answer = port.tell(query, number, text)?;
                Ok(self.answers.push(answer)?)
            }
            Note::Replied(tag, text) => self.add_reply(port, tag, text),
            Note::Seen(seen) => {
                port.seen = Some(seen);
                Ok(())
            }
            _ => Ok(()),
        }
    }

    /// Adds what the port's notes say.
    pub(crate) fn add_port(
        &mut self,
        alloc: Global,
        plan: &Plan,
        failed: bool,
        fault: Option<u64>,
        notes: &[Note],
    ) -> Result<(), Fault> {
        let mut port = PortReading {
            plan,
            failed,
            fault,
            told: 0,
            seen: None,
            commands: Vec::new(alloc),
        };
        for note in notes {
            self.read_port(&mut port, *note)?;
        }
        port.check_replies()
    }
}

fn check_same(tag: u64, text: u64, wanted: u64) -> Result<(), Fault> {
    if text == wanted {
        Ok(())
    } else {
        Err(Fault::OtherReply(tag))
    }
}
