//! The lines of a script.
ghost use Rattle.std.specs.Prelude.{◌≡◌, ℕ, List, IfOk, IfSome, IfNone};
ghost use Rattle.apd_base.specs.declared.moment.Moment.{Moment as AnyMoment};
ghost use Rattle.apd_script.specs.Lines.{IsMoment, IsReception, IsWord, Said, Says, saying_of, without_blanks};

use apd_base::text::{behind, decimal_number, first_blank};
use apd_base::{Moment, Sequence};
use std::alloc::{AllocError, Global};

/// A line of a script.
#[derive(Drop)]
pub enum Line<'a> {
    /// Nothing.
    Empty,
    /// The radio of the interface received a frame.
    Received {
        interface: &'a [u8],
        frame: Sequence<u8>,
    },
    /// It is this moment from now on.
    Tick(Moment),
    /// A control command.
    Command(&'a [u8]),
    /// A batch is taken.
    Take,
    /// The next call of the device is made.
    Call,
    /// A batch is settled.
    Publish,
    /// What was settled is handed out.
    Hand,
    /// All entries are settled, and then handed out.
    Flush,
    /// All but the device is given up, and begins anew.
    Stop,
}

/// The lines of one word, and the empty one.
fn parse_word(text: &[u8]) -> Option<Line<'static>>
    ensures some { IfSome result (λ line. Says text.now (saying_of line)) }
    ensures none { IfNone result ((what : Said) → IsWord what → Says text.now what → ⊥) }
{
    if text.is_empty() {
        return Some(Line::Empty);
    }
    if text == b"take".as_slice() {
        return Some(Line::Take);
    }
    if text == b"call".as_slice() {
        return Some(Line::Call);
    }
    if text == b"publish".as_slice() {
        return Some(Line::Publish);
    }
    if text == b"hand".as_slice() {
        return Some(Line::Hand);
    }
    if text == b"flush".as_slice() {
        return Some(Line::Flush);
    }
    if text == b"stop".as_slice() {
        return Some(Line::Stop);
    }
    None
}

/// The moment of 1 to 20 decimal digits, in milliseconds, where it is below 2^64.
fn parse_moment(digits: &[u8]) -> Option<Moment>
    ensures some { IfSome result (λ m. IsMoment m digits.now) }
    ensures none { IfNone result ((m : AnyMoment) → IsMoment m digits.now → ⊥) }
{
    Some(Moment(decimal_number(digits, 20, u64::MAX)?))
}

/// The digits without the blanks among them.
fn without_blanks(alloc: Global, text: &[u8]) -> Result<Vec<u8>, AllocError>
    ensures { IfOk result (λ digits. digits.items ≡ without_blanks text.now) }
{
    text.iter()
        .copied()
        .filter(|byte| *byte != b' ')
        .collect(alloc)
}

/// The interface and the frame of what stands behind `rx `; none where the digits are odd in number or
/// something else stands among them.
fn parse_reception(alloc: Global, text: &[u8]) -> Result<Option<(&[u8], Sequence<u8>)>, AllocError>
    ensures some { IfOk result (λ found. IfSome found (λ parts. IsReception parts.0.now parts.1 text.now)) }
    ensures none { IfOk result
        (λ found. IfNone found ((interface frame : List ℕ) → IsReception interface frame text.now → ⊥)) }
{
    let end = first_blank(text).unwrap_or(text.len());
    let (interface, digits) = text.split_at(end);
    let digits = without_blanks(alloc, digits)?;
    match hex::decode(alloc, digits.as_slice()) {
        Ok(frame) => Ok(Some((interface, Sequence::from_vec(frame)))),
        Err(hex::FromHexError::OutOfMemory) => Err(AllocError),
        Err(_) => Ok(None),
    }
}

/// Reads a line, without the newline at its end.
///
/// # Errors
///
/// Memory runs out.
pub fn parse_line(alloc: Global, text: &[u8]) -> Result<Option<Line<'_>>, AllocError>
    ensures some { IfOk result (λ found. IfSome found (λ line. Says text.now (saying_of line))) }
    ensures none { IfOk result (λ found. IfNone found ((what : Said) → Says text.now what → ⊥)) }
{
    if let Some(line) = parse_word(text) {
        return Ok(Some(line));
    }
    if text == b"cmd".as_slice() {
        return Ok(Some(Line::Command(b"")));
    }
    if let Some(command) = behind(text, b"cmd ") {
        return Ok(Some(Line::Command(command)));
    }
    if let Some(digits) = behind(text, b"tick ") {
        let Some(moment) = parse_moment(digits) else {
            return Ok(None);
        };
        return Ok(Some(Line::Tick(moment)));
    }
    let Some(rest) = behind(text, b"rx ") else {
        return Ok(None);
    };
    let Some((interface, frame)) = parse_reception(alloc, rest)? else {
        return Ok(None);
    };
    Ok(Some(Line::Received { interface, frame }))
}

/// What a text says as a line is one thing, or nothing.
pub fn exactly_one_line()
    ensures { (text : List ℕ) (a b : Said) → Says text a → Says text b → a ≡ b }
{}
