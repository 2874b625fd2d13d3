//! From the bytes of a command to the command.
ghost use Rattle.std.specs.Prelude.{◌≡◌, ◌↔◌, ℕ, List, Option, Result};
ghost use Rattle.std.specs.Option.{option_copied};
ghost use Rattle.apd_ctrl.specs.declared.command.Command.{Command as Order};
ghost use Rattle.apd_ctrl.specs.declared.parser.Refusal.{Refusal as Refused};
ghost use Rattle.apd_ctrl.specs.Grammar.{outcome_of, refusal_text, text_of_refusal, IsOutcome};
ghost use Rattle.apd_ctrl.specs.Reading.{behind, command_of, command_with, dismissal_of, line_of, list_command, outcome, reason_of, split_prefix, word};

use crate::command::Command;
use crate::word::{Word, word_of};
use apd_base::limits::MAX_COMMAND;
use apd_base::text::{decimal_u16, first_blank};
use apd_base::{Addr, TEXT_LENGTH, Which};
use apd_event::Edit;
use apd_frame::Reason;

/// The reply to a command whose word is not known.
pub const UNKNOWN_COMMAND: &[u8] = b"UNKNOWN COMMAND\n";

/// The reply to a command that can't be done.
pub const FAIL: &[u8] = b"FAIL\n";

/// What bytes are as a command.
///
/// `Unknown`: they begin with no word that is known. `Fail`: other words follow than a line of the
/// table has, or they are more than 4,096 bytes. Else the name of the interface that is meant, where
/// they give one, and the command.
#[derive(Clone, Copy, Debug, PartialEq, Eq)]
pub enum Parsed<'a> {
    Unknown,
    Fail,
    Command {
        interface: Option<&'a [u8]>,
        command: Command,
    },
}

/// Why bytes become neither a query nor an event.
#[derive(Clone, Copy, Debug, PartialEq, Eq)]
pub enum Refusal {
    Unknown,
    Fail,
}

const PREFIX: &[u8] = b"IFNAME=";

const REASON: &[u8] = b" reason=";

/// The bytes less one newline at their end.
fn line_of(bytes: &[u8]) -> &[u8]
    ensures { result.now ≡ line_of bytes.now }
{
    bytes.strip_suffix(b"\n").unwrap_or(bytes)
}

/// What stands before the first blank, and what stands behind it, where there is one.
fn split_word(text: &[u8]) -> (&[u8], Option<&[u8]>)
    ensures word { result.0.now ≡ word text.now }
    ensures behind { option_copied result.1 ≡ behind text.now }
{
    match first_blank(text) {
        None => (text, None),
        Some(place) => (&text[..place], Some(&text[place + 1..])),
    }
}

/// The name of an interface in front, where there is one, and the rest.
fn split_prefix(line: &[u8]) -> (Option<&[u8]>, &[u8])
    ensures name { option_copied result.0 ≡ (split_prefix line.now).0 }
    ensures rest { result.1.now ≡ (split_prefix line.now).1 }
{
    if !line.starts_with(PREFIX) {
        return (None, line);
    }
    let (name, rest) = split_word(&line[PREFIX.len()..]);
    match rest {
        None => (None, line),
        Some(rest) => (Some(name), rest),
    }
}

/// The reason that is given behind an address, and 2 where none is.
fn reason_of(text: &[u8]) -> Option<Reason>
    ensures { result ≡ reason_of text.now }
{
    if text.is_empty() {
        return Some(Reason::INVALID_AUTHENTICATION);
    }
    if !text.starts_with(REASON) {
        return None;
    }
    Some(Reason(decimal_u16(&text[REASON.len()..])?))
}

/// An address, and the reason behind it.
fn dismissal_of(text: &[u8]) -> Option<(Addr, Reason)>
    ensures { result ≡ dismissal_of text.now }
{
    if text.len() < TEXT_LENGTH {
        return None;
    }
    let to = Addr::parse(&text[..TEXT_LENGTH])?;
    let reason = reason_of(&text[TEXT_LENGTH..])?;
    Some((to, reason))
}

/// What the words behind the name of a list say.
fn list_command(which: Which, text: &[u8]) -> Option<Command>
    ensures { result ≡ list_command which text.now }
{
    let (word, argument) = split_word(text);
    let edit = match argument {
        None if word == b"SHOW".as_slice() => return Some(Command::Show(which)),
        None if word == b"CLEAR".as_slice() => Edit::Clear,
        Some(text) if word == b"ADD_MAC".as_slice() => Edit::Add(Addr::parse(text)?),
        Some(text) if word == b"DEL_MAC".as_slice() => Edit::Remove(Addr::parse(text)?),
        _ => return None,
    };
    Some(Command::ListEdit { which, edit })
}

/// The command of a first word and what stands behind the blank after it.
fn command_with(word: Word, arguments: Option<&[u8]>) -> Option<Command>
    ensures { result ≡ command_with word (option_copied arguments.entry) }
{
    match (word, arguments) {
        (Word::Ping, None) => Some(Command::Ping),
        (Word::Status, None) => Some(Command::Status),
        (Word::StaFirst, None) => Some(Command::StaFirst),
        (Word::Sta, Some(text)) => Some(Command::Sta(Addr::parse(text)?)),
        (Word::StaNext, Some(text)) => Some(Command::StaNext(Addr::parse(text)?)),
        (Word::Deauthenticate, Some(text)) => {
            let (to, reason) = dismissal_of(text)?;
            Some(Command::Deauthenticate { to, reason })
        }
        (Word::Disassociate, Some(text)) => {
            let (to, reason) = dismissal_of(text)?;
            Some(Command::Disassociate { to, reason })
        }
        (Word::List(which), Some(text)) => list_command(which, text),
        _ => None,
    }
}

/// The command that the bytes behind the prefix say.
fn command_of(text: &[u8]) -> Result<Command, Refusal>
    ensures { result ≡ command_of text.now }
{
    let (first, arguments) = split_word(text);
    let word = word_of(first).ok_or(Refusal::Unknown)?;
    command_with(word, arguments).ok_or(Refusal::Fail)
}

/// What bytes are as a command. The length is looked at first, less one newline at the end and with
/// the prefix `IFNAME=<name> ` counted; then the first word behind the prefix; then what follows it.
/// Whether the interface is known is not looked at. It takes no memory.
pub fn parse_command(bytes: &[u8]) -> Parsed<'_>
    ensures { outcome_of result ≡ outcome bytes.now }
{
    let line = line_of(bytes);
    if line.len() > MAX_COMMAND {
        return Parsed::Fail;
    }
    let (interface, text) = split_prefix(line);
    match command_of(text) {
        Ok(command) => Parsed::Command { interface, command },
        Err(Refusal::Unknown) => Parsed::Unknown,
        Err(Refusal::Fail) => Parsed::Fail,
    }
}

impl Refusal {
    /// The reply to what is refused so. It takes no memory.
    pub fn text(self) -> &'static [u8]
        ensures { result.now ≡ text_of_refusal self }
    {
        match self {
            Refusal::Unknown => UNKNOWN_COMMAND,
            Refusal::Fail => FAIL,
        }
    }
}

impl Parsed<'_> {
    /// The reply to bytes that are no command; `None` for a command. It takes no memory.
    pub fn refusal(&self) -> Option<&'static [u8]>
        ensures { option_copied result ≡ refusal_text (outcome_of self.now) }
    {
        match self {
            Parsed::Unknown => Some(Refusal::Unknown.text()),
            Parsed::Fail => Some(Refusal::Fail.text()),
            Parsed::Command { .. } => None,
        }
    }
}

/// Of any bytes exactly one outcome holds by the table of commands, and it is what [`parse_command`]
/// answers.
pub fn exactly_one_outcome()
    ensures { (bytes : List ℕ) (x : Result (Option (List ℕ) × Order) Refused)
        → IsOutcome bytes x ↔ (x ≡ outcome bytes) }
{}
