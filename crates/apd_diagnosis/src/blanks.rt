//! What stands beside a name or a value and can't be seen.

/// The three bytes that some editors put in front of a text (a byte order mark, in UTF-8).
const BYTE_ORDER_MARK: &[u8; 3] = b"\xef\xbb\xbf";

fn is_blank(byte: Option<&u8>) -> bool {
    matches!(byte, Some(b' ' | b'\t'))
}

/// What stands in front of a text, or behind it, and can't be seen; the first that is found.
pub(crate) fn unseen_beside(text: &[u8]) -> Option<&'static str> {
    if text.starts_with(BYTE_ORDER_MARK) {
        Some("a byte order mark stands in front of it")
    } else if is_blank(text.first()) {
        Some("a blank stands in front of it")
    } else if is_blank(text.last()) {
        Some("a blank stands behind it")
    } else if text.last() == Some(&b'\r') {
        Some("a carriage return stands behind it")
    } else {
        None
    }
}

/// A text without a byte order mark in front.
pub(crate) fn without_mark(text: &[u8]) -> &[u8] {
    text.strip_prefix(BYTE_ORDER_MARK).unwrap_or(text)
}
