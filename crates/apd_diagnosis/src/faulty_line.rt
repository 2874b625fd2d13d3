//! A faulty line, and what would be right there.
use crate::blanks::{unseen_beside, without_mark};
use crate::shown::Shown;
use apd_conf::{ConfFault, ListFault, Required, Rule, read_conf, read_list, rule_of};
use bstr::ByteSlice;
use std::alloc::{AllocError, Global};
use std::fmt::{self, Display, Formatter};

/// How the names begin that ask for security.
const SECURITY: [&[u8]; 10] = [
    b"wpa",
    b"rsn_",
    b"sae_",
    b"owe_",
    b"wep_",
    b"eap",
    b"ieee8021x",
    b"ieee80211w",
    b"group_cipher",
    b"group_mgmt_cipher",
];

/// A name and a value, where a line has both.
pub(crate) fn setting_of(line: &[u8]) -> Option<(&[u8], &[u8])> {
    line.split_once_str(b"=")
}

/// What is wrong with a line of a configuration file that has this number.
pub(crate) fn conf_fault_at(
    alloc: Global,
    line: &[u8],
    number: usize,
) -> Result<Option<ConfFault>, AllocError> {
    // (The line is read as a file of its own, in which nothing but a name can be missing.)
    match read_conf(alloc, line) {
        Err(ConfFault::NoEquals(_)) => Ok(Some(ConfFault::NoEquals(number))),
        Err(ConfFault::Unknown(_)) => Ok(Some(ConfFault::Unknown(number))),
        Err(ConfFault::BadValue(_)) => Ok(Some(ConfFault::BadValue(number))),
        Err(ConfFault::Security(_)) => Ok(Some(ConfFault::Security(number))),
        Err(ConfFault::NoMemory) => Err(AllocError),
        Err(ConfFault::Missing(_)) | Ok(_) => Ok(None),
    }
}

/// Whether a line of a list file is faulty.
pub(crate) fn is_bad_address(alloc: Global, line: &[u8]) -> Result<bool, AllocError> {
    match read_list(alloc, line) {
        Err(ListFault::BadAddress(_)) => Ok(true),
        Err(ListFault::NoMemory) => Err(AllocError),
        Err(ListFault::TooMany) | Ok(_) => Ok(false),
    }
}

/// Which values a rule takes, in words.
#[derive(Clone, Copy)]
pub(crate) struct Allowed(pub(crate) Rule);

impl Display for Allowed {
    fn fmt<W: fmt::Write>(&self, f: &mut Formatter<W>) -> fmt::Result {
        match self.0 {
            Rule::Interface => f.write_str("1 to 15 printing characters of ASCII, no blank"),
            Rule::Bssid => f.write_str("an address of no group, as 02:00:00:00:00:01"),
            Rule::Ssid => f.write_str("1 to 32 bytes"),
            Rule::Band => f.write_str("a, b or g"),
            Rule::Number(range) => write!(f, "{} to {}", range.least, range.greatest),
            Rule::File => f.write_str("the name of a file"),
            Rule::Ignored => f.write_str("any value"),
            Rule::Security => f.write_str("0 alone, since the network is to be open"),
        }
    }
}

/// What a name that a file must have takes, in words.
pub(crate) fn allowed_at(name: Required) -> Allowed {
    Allowed(match name {
        Required::Interface => Rule::Interface,
        Required::Bssid => Rule::Bssid,
        Required::Ssid => Rule::Ssid,
    })
}

/// A faulty line of a configuration file. It is shown by its fault, as that is told of the first one, and what would be
/// right.
#[derive(Clone, Copy)]
pub(crate) struct FaultyLine<'a> {
    pub(crate) fault: ConfFault,
    pub(crate) line: &'a [u8],
}

fn asks_for_security(name: &[u8]) -> bool {
    for begins in SECURITY {
        if name.starts_with(begins) {
            return true;
        }
    }
    false
}

// What is known of a name that isn't.
fn hint_of_name(name: &[u8]) -> &'static str {
    if let Some(unseen) = unseen_beside(name) {
        return unseen;
    }
    if asks_for_security(name) {
        "there is no security, and the network is to be open"
    } else {
        "docs/FORMATS.md has the names"
    }
}

// What is known of a line without an equals sign.
fn hint_of_text(line: &[u8]) -> &'static str {
    let text = without_mark(line).trim_ascii();
    if text.is_empty() {
        "an empty line has no blank"
    } else if text.first() == Some(&b'#') {
        "a remark has its # in front of all"
    } else {
        "a line is a name, = and a value"
    }
}

fn write_value<W: fmt::Write>(f: &mut Formatter<W>, name: &[u8], value: &[u8]) -> fmt::Result {
    write!(f, ": {}: ", Shown(name))?;
    if let Some(rule) = rule_of(name) {
        write!(f, "{}", Allowed(rule))?;
    }
    match unseen_beside(value) {
        Some(unseen) => write!(f, "; of the value: {unseen}"),
        None => Ok(()),
    }
}

impl Display for FaultyLine<'_> {
    fn fmt<W: fmt::Write>(&self, f: &mut Formatter<W>) -> fmt::Result {
        write!(f, "{}", self.fault)?;
        let Some((name, value)) = setting_of(self.line) else {
            return write!(f, ": {}: {}", Shown(self.line), hint_of_text(self.line));
        };
        if let ConfFault::Unknown(_) = self.fault {
            return write!(f, ": {}: {}", Shown(without_mark(name)), hint_of_name(name));
        }
        write_value(f, name, value)
    }
}

/// A faulty line of a list file, shown in the same way.
#[derive(Clone, Copy)]
pub(crate) struct FaultyAddress<'a> {
    pub(crate) number: usize,
    pub(crate) line: &'a [u8],
}

impl Display for FaultyAddress<'_> {
    fn fmt<W: fmt::Write>(&self, f: &mut Formatter<W>) -> fmt::Result {
        let fault = ListFault::BadAddress(self.number);
        write!(f, "{fault}: {}: ", Shown(without_mark(self.line)))?;
        match unseen_beside(self.line) {
            Some(unseen) => f.write_str(unseen),
            None => f.write_str("an address, as 02:00:00:00:00:aa"),
        }
    }
}
