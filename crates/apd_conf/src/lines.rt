//! The lines of configuration files and of list files.
ghost use Rattle.std.specs.Prelude.{◌≡◌, ◌≤◌, length};
ghost use Rattle.apd_conf.specs.Lines.{lines, is_skipped};

use bstr::{ByteSlice, Lines};

/// The lines of a file, each without the `\n` or the `\r\n` that ends it.
pub(crate) fn lines_of(file: &[u8]) -> Lines<'_>
    ensures lines { result ≡ lines file.now }
    ensures len { length result ≤ length file.now }
{
    file.lines()
}

/// Whether a line is passed over: it is empty or a remark.
pub(crate) fn is_skipped(line: &[u8]) -> bool
    ensures { result ≡ is_skipped line.now }
{
    line.is_empty() || line[0] == b'#'
}
