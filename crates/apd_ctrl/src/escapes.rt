//! Bytes as they are printed.
ghost use Rattle.std.specs.Prelude.{◌≡◌, ◌++◌, IfOk, OnOk};
ghost use Rattle.apd_ctrl.specs.Escapes.{escaped_text, escaped_byte};

use apd_base::text::hex_digit;
use std::alloc::{AllocError, Global};

fn push_escaped_byte(out: &mut Vec<u8>, byte: u8) -> Result<(), AllocError>
    ensures { OnOk result (out.new.items ≡ out.old.items ++ escaped_byte byte) }
{
    match byte {
        b'\\' => out.extend_from_slice(b"\\\\"),
        b'"' => out.extend_from_slice(b"\\\""),
        b'\n' => out.extend_from_slice(b"\\n"),
        b'\r' => out.extend_from_slice(b"\\r"),
        b'\t' => out.extend_from_slice(b"\\t"),
        0x1b => out.extend_from_slice(b"\\e"),
        0x20..=0x7e => out.extend_from_slice(&[byte]),
        _ => out.extend_from_slice(&[b'\\', b'x', hex_digit(byte / 16), hex_digit(byte % 16)]),
    }
}

/// Writes bytes as they are printed at the end. An error may leave a front of them there.
pub(crate) fn push_escaped(out: &mut Vec<u8>, bytes: &[u8]) -> Result<(), AllocError>
    ensures { OnOk result (out.new.items ≡ out.old.items ++ escaped_text bytes.now) }
{
    for byte in bytes {
        push_escaped_byte(out, *byte)?;
    }
    Ok(())
}

/// Bytes as they are printed, on one line: a backslash as `\\`, a double quote as `\"`, and the bytes
/// 0x0a, 0x0d, 0x09 and 0x1b as `\n`, `\r`, `\t` and `\e`; any other byte from 0x20 to 0x7e as it
/// stands, and each remaining one as `\x` and two lower case hexadecimal digits.
pub fn escape(alloc: Global, bytes: &[u8]) -> Result<Vec<u8>, AllocError>
    ensures { IfOk result (λ text. text.items ≡ escaped_text bytes.now) }
{
    let mut text = Vec::new(alloc);
    push_escaped(&mut text, bytes)?;
    Ok(text)
}
