//! Bytes as text that can be printed.
use std::fmt::{self, Display, Formatter};

/// How many bytes of a text are shown.
const MOST: usize = 64;

/// Bytes of a file, as a line shows them: what is no printing character of ASCII as `\x` and two digits, and of more than
/// 64 bytes the first ones, with three dots behind.
#[derive(Clone, Copy)]
pub(crate) struct Shown<'a>(pub(crate) &'a [u8]);

impl Display for Shown<'_> {
    fn fmt<W: fmt::Write>(&self, f: &mut Formatter<W>) -> fmt::Result {
        for byte in self.0.iter().take(MOST) {
            if byte.is_ascii_graphic() || *byte == b' ' {
                write!(f, "{}", char::from(*byte))?;
            } else {
                write!(f, "\\x{byte:02x}")?;
            }
        }
        if self.0.len() > MOST {
            f.write_str("...")?;
        }
        Ok(())
    }
}
