//! Expectations, each in a function of its own.
use std::alloc::Global;
use std::fmt::{Debug, Display};
use std::process::Abort;

/// Ends the test where what was found isn't what was wanted, and prints both.
pub fn expect<T: PartialEq + Debug + Drop>(rt: &impl Abort, found: T, wanted: T) {
    assert_eq!(rt; found, wanted);
}

/// Ends the test where one of these isn't printed in the words beside it.
pub fn expect_printed<T: Display>(rt: &impl Abort, alloc: Global, rows: &[(T, &str)]) {
    for (value, words) in rows {
        let text = format!(in alloc; "{value}").expect(rt, "memory");
        expect(rt, text.as_str(), *words);
    }
}
