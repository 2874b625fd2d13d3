//! Expectations, each in a function of its own: a test that calls them has no way out where they fail.
use std::alloc::Global;
use std::fmt::{Debug, Display};
use std::process::Abort;

/// Ends the test where what was found isn't what was wanted, and prints both.
pub(crate) fn expect<T: PartialEq + Debug + Drop>(rt: &impl Abort, found: T, wanted: T) {
    assert_eq!(rt; found, wanted);
}

/// Ends the test where a value prints another text.
pub(crate) fn expect_text(rt: &impl Abort, alloc: Global, value: &impl Display, text: &str) {
    let printed = format!(in alloc; "{value}").expect(rt, "memory");
    expect(rt, printed.as_str(), text);
}
