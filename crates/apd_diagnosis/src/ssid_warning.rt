//! Networks' names that are taken as they stand, and are seldom meant so.
use apd_conf::Conf;
use std::fmt::{self, Display, Formatter};

/// What is odd about a network's name.
#[derive(Clone, Copy, Debug, PartialEq, Eq)]
pub enum SsidWarning {
    /// It stands in quotes.
    Quoted,
    /// It ends in a blank or a tab.
    EndsInBlank,
}

impl Display for SsidWarning {
    fn fmt<W: fmt::Write>(&self, f: &mut Formatter<W>) -> fmt::Result {
        f.write_str(match self {
            SsidWarning::Quoted => "the quotes belong to the ssid, as it is given",
            SsidWarning::EndsInBlank => "the ssid ends in a blank, as it is given",
        })
    }
}

/// What is odd about the name of a configuration's network.
pub fn warning_of(conf: &Conf) -> Option<SsidWarning> {
    match conf.ssid.as_bytes() {
        [b'"', .., b'"'] => Some(SsidWarning::Quoted),
        [.., b' ' | b'\t'] => Some(SsidWarning::EndsInBlank),
        _ => None,
    }
}
