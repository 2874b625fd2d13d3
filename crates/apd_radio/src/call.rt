//! The calls of a radio, and their lines in a recording.
ghost use Rattle.std.specs.Prelude.{◌≡◌, ℕ, List, IfOk, IfSome, IfNone};
ghost use Rattle.hex.specs.Hex.{decode_of};
ghost use Rattle.apd_base.specs.declared.address.Addr.{Addr as Address};
ghost use Rattle.apd_radio.specs.declared.call.Call.{Call as AnyCall};
ghost use Rattle.apd_radio.specs.Calls.{IsFrame, IsStation, IsLineOf};

use apd_base::text::{behind, decimal_u16};
use apd_base::{Addr, Sequence, TEXT_LENGTH};
use hex::FromHexError;
use std::alloc::{AllocError, Global};

/// One call of a radio that succeeded, as a line of a recording has it.
#[derive(Debug, Drop)]
pub enum Call {
    /// A frame was received: its bytes.
    Received(Sequence<u8>),
    /// A station was installed: its address and its association identifier.
    Installed(Addr, u16),
    /// A station was taken out.
    Removed(Addr),
    /// A frame was sent: its bytes.
    Sent(Sequence<u8>),
    /// All stations were taken out.
    Down,
}

fn decode_hex(alloc: Global, digits: &[u8]) -> Result<Option<Sequence<u8>>, AllocError>
    ensures some { IfOk result (λ found. IfSome found (λ frame. decode_of digits.now ≡ Ok frame)) }
    ensures none { IfOk result (λ found. IfNone found ((frame : List ℕ) → decode_of digits.now ≡ Ok frame → ⊥)) }
{
    match hex::decode(alloc, digits) {
        Ok(frame) => Ok(Some(Sequence::from_vec(frame))),
        Err(FromHexError::OutOfMemory) => Err(AllocError),
        Err(_) => Ok(None),
    }
}

// The frame that the digits behind a blank stand for.
fn frame_of(alloc: Global, text: &[u8]) -> Result<Option<Sequence<u8>>, AllocError>
    ensures some { IfOk result (λ found. IfSome found (λ frame. IsFrame frame text.now)) }
    ensures none { IfOk result (λ found. IfNone found ((frame : List ℕ) → IsFrame frame text.now → ⊥)) }
{
    let Some((first, digits)) = text.split_first() else {
        return Ok(Some(Sequence::new(alloc)));
    };
    if *first != b' ' {
        return Ok(None);
    }
    decode_hex(alloc, digits)
}

fn station_of(text: &[u8]) -> Option<(Addr, u16)>
    ensures some { IfSome result (λ found. IsStation found.0 found.1 text.now) }
    ensures none { IfNone result ((addr : Address) (aid : ℕ) → IsStation addr aid text.now → ⊥) }
{
    if text.len() <= TEXT_LENGTH || text[TEXT_LENGTH] != b' ' {
        return None;
    }
    let Some(addr) = Addr::parse(&text[..TEXT_LENGTH]) else {
        return None;
    };
    let Some(aid) = decimal_u16(&text[TEXT_LENGTH + 1..]) else {
        return None;
    };
    Some((addr, aid))
}

impl Call {
    /// Reads a line without its newline; `None` where it stands for no call.
    ///
    /// Errors: memory runs out.
    pub fn read(alloc: Global, line: &[u8]) -> Result<Option<Call>, AllocError>
        ensures call { IfOk result (λ found. IfSome found (λ call. IsLineOf call line.now)) }
        ensures none { IfOk result (λ found. IfNone found ((call : AnyCall) → IsLineOf call line.now → ⊥)) }
    {
        if let Some(text) = behind(line, b"rx") {
            let Some(frame) = frame_of(alloc, text)? else {
                return Ok(None);
            };
            return Ok(Some(Call::Received(frame)));
        }
        if let Some(text) = behind(line, b"tx") {
            let Some(frame) = frame_of(alloc, text)? else {
                return Ok(None);
            };
            return Ok(Some(Call::Sent(frame)));
        }
        if let Some(text) = behind(line, b"install ") {
            let Some((addr, aid)) = station_of(text) else {
                return Ok(None);
            };
            return Ok(Some(Call::Installed(addr, aid)));
        }
        if let Some(text) = behind(line, b"remove ") {
            let Some(addr) = Addr::parse(text) else {
                return Ok(None);
            };
            return Ok(Some(Call::Removed(addr)));
        }
        if line == b"down".as_slice() {
            return Ok(Some(Call::Down));
        }
        Ok(None)
    }
}
