//! An expectation, in a function of its own: a test that calls it has no way out where it fails.
use std::fmt::Debug;
use std::process::Abort;

/// Ends the test where what was found isn't what was wanted, and prints both.
pub(crate) fn expect<T: PartialEq + Debug + Drop>(rt: &impl Abort, found: T, wanted: T) {
    assert_eq!(rt; found, wanted);
}
