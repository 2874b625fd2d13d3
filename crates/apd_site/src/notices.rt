//! What is told on standard error while it serves, each with the target `apd`.
use crate::edits::ListEdit;
use crate::store_watch::{Fate, Misfit};
use crate::watched_file::FailedCall;
use apd_base::Addr;
use apd_base::limits::DEVICE_LENGTH;
use apd_conf::{Conf, Confs};
use apd_frame::Reason;
use apd_table::Table;
use log::{Log, error, info, warn};
use std::alloc::{AllocError, Global};
use std::fmt::{self, Display, Formatter};
use std::io;

/// Logs how many requests became entries, at the level info.
pub fn tell_entries<R: Log>(rt: &R, entries: u64) {
    info!(rt; target: "apd", "entries {entries}");
}

// What is served: the port of commands, and each interface that the table has a policy of, with its port.
#[derive(Clone, Copy)]
struct Served<'a> {
    port: u16,
    confs: &'a Confs,
    table: &'a Table,
}

impl Display for Served<'_> {
    fn fmt<W: fmt::Write>(&self, f: &mut Formatter<W>) -> fmt::Result {
        write!(f, "commands on port {}", self.port)?;
        let mut port = self.port;
        for conf in self.confs.list() {
            port = port.saturating_add(1);
            if self.table.policy(conf.bssid).is_some() {
                write!(f, ", {} on port {port}", conf.interface.as_str())?;
            }
        }
        Ok(())
    }
}

/// Logs, at the level warn, each interface that isn't served after a start, and why.
pub fn tell_unserved<R: Log>(rt: &R, confs: &Confs, table: &Table) {
    for conf in confs.list() {
        if table.policy(conf.bssid).is_none() {
            let interface = conf.interface.as_str();
            warn!(rt; target: "apd", "{interface} is not served: the store has as many other BSSIDs as it can have");
        }
    }
}

/// What is served after a start, in words: the ports, the interfaces, and how many stations were recovered.
pub fn words_of_served(
    alloc: Global,
    port: u16,
    confs: &Confs,
    table: &Table,
    recovered: usize,
) -> Result<String, AllocError> {
    let served = Served { port, confs, table };
    format!(in alloc; "{served}; stations recovered: {recovered}")
}

/// Logs what is served, at the level info.
pub fn tell_served<R: Log>(rt: &R, words: &str) {
    info!(rt; target: "apd", "serves {words}");
}

/// Logs that standard input ended, at the level info.
pub(crate) fn tell_input_ended<R: Log>(rt: &R) {
    info!(rt; target: "apd", "standard input ended: ends");
}

/// Logs, at the level warn, each list file that does not count, since the store has the lists of its BSSID already: the
/// table is as it was recovered.
pub fn tell_lists<R: Log>(rt: &R, confs: &Confs, table: &Table) {
    for conf in confs.list() {
        if table.policy(conf.bssid).is_some() {
            tell_list_files(rt, conf);
        }
    }
}

fn tell_list_files<R: Log>(rt: &R, conf: &Conf) {
    let interface = conf.interface.as_str();
    for file in [&conf.accept_mac_file, &conf.deny_mac_file] {
        if let Some(file) = file {
            let file = file.as_str();
            warn!(rt; target: "apd", "{interface}: {file} does not count, since the store has the lists of its BSSID: commands change them");
        }
    }
}

/// Logs that the store's device failed, at the level error.
pub fn tell_device_fault<R: Log>(rt: &R) {
    error!(rt; target: "apd", "device fault: nothing more is made durable, and what would change the table is refused; end it, see to the disk, and start it again");
}

/// Logs, at the level error, which call of the store's file failed, and why.
pub(crate) fn tell_failed_call<R: Log>(rt: &R, name: &str, failed: &FailedCall) {
    error!(rt; target: "apd", "{name}: {failed}");
}

/// Logs, at the level warn, that the store's file has not answered a call for so many seconds.
pub(crate) fn tell_unanswered<R: Log>(rt: &R, seconds: u64) {
    warn!(rt; target: "apd", "the store has not answered for {seconds} s: what waits for it is answered once it does");
}

/// Logs, at the level warn, that the store's file answered a call, and after how many seconds.
pub(crate) fn tell_answers_again<R: Log>(rt: &R, seconds: u64) {
    warn!(rt; target: "apd", "the store answers again, after {seconds} s");
}

/// Logs that the store is worn out, at the level error.
pub fn tell_worn_out<R: Log>(rt: &R) {
    error!(rt; target: "apd", "the store is worn out: nothing more is made durable, and what would change the table is refused; end it, and start it on a new store");
}

/// Logs what became of the store's file, at the level error; nothing where it has its name.
pub(crate) fn tell_fate<R: Log>(rt: &R, name: &str, fate: Fate) {
    match fate {
        Fate::Named => {}
        Fate::Removed => {
            error!(rt; target: "apd", "{name} was removed: what the store holds is lost when this ends, and its device fails from now on");
        }
        Fate::Replaced => {
            error!(rt; target: "apd", "{name} is not the store that is served any more: a start from {name} begins elsewhere, and the store's device fails from now on");
        }
    }
}

/// Logs, at the level error, that the store's file has another length than a store's.
pub(crate) fn tell_length<R: Log>(rt: &R, name: &str, misfit: Misfit) {
    match misfit {
        Misfit::Cut(length) => {
            error!(rt; target: "apd", "{name} was cut to {length} bytes, of {DEVICE_LENGTH}: what the store holds may be lost when this ends, and its device fails from now on");
        }
        Misfit::Grown(length) => {
            error!(rt; target: "apd", "{name} grew to {length} bytes, from {DEVICE_LENGTH}: a start from it is refused until it is cut to these");
        }
    }
}

/// Logs, at the level error, why a recording ended.
pub(crate) fn tell_recording_ended<R: Log>(rt: &R, name: &str, error: &io::Error) {
    error!(rt; target: "apd", "{name}: the recording ends here: {error}");
}

/// Logs, at the level error, that the driver of an interface failed as a station was to be installed, or removed.
pub(crate) fn tell_driver_fault<R: Log>(rt: &R, interface: &str, addr: Addr, what: &str) {
    error!(rt; target: "apd", "{interface}: driver fault as {addr} was to be {what}");
}

/// Logs, at the level warn, that a driver that failed is given its stations anew, for the how many-th time of three.
pub(crate) fn tell_driver_tried<R: Log>(rt: &R, interface: &str, tries: u8) {
    warn!(rt; target: "apd", "{interface}: the driver is given its stations anew: try {tries} of 3");
}

/// Logs, at the level info, that a driver that failed has all its stations again, and how many they are.
pub(crate) fn tell_driver_up<R: Log>(rt: &R, interface: &str, stations: usize) {
    info!(rt; target: "apd", "{interface}: the driver is up again; stations installed: {stations}");
}

/// Logs, at the level error, that a driver failed at the last try.
pub(crate) fn tell_driver_down<R: Log>(rt: &R, interface: &str) {
    error!(rt; target: "apd", "{interface}: the driver stays down: nothing is sent, installed or removed there until a restart");
}

/// Logs, at the level warn, how many datagrams came to a radio from elsewhere than its driver.
pub(crate) fn tell_strangers<R: Log>(rt: &R, interface: &str, count: u64) {
    warn!(rt; target: "apd", "{interface}: datagrams from elsewhere than its driver, passed over: {count}");
}

/// Logs that a station associated, at the level info.
pub(crate) fn tell_associated<R: Log>(rt: &R, interface: &str, addr: Addr, aid: u16) {
    info!(rt; target: "apd", "{interface}: {addr} associated, identifier {aid}");
}

/// Logs that a station left, at the level info.
pub(crate) fn tell_left<R: Log>(rt: &R, interface: &str, addr: Addr) {
    info!(rt; target: "apd", "{interface}: {addr} left");
}

/// Logs that a station was let go, or all were, at the level info.
pub(crate) fn tell_let_go<R: Log>(rt: &R, interface: &str, to: Addr, reason: Reason) {
    let Reason(code) = reason;
    info!(rt; target: "apd", "{interface}: {to} was let go, reason {code}");
}

/// Logs that a list was edited, at the level info.
pub(crate) fn tell_edit<R: Log>(rt: &R, interface: &str, edit: ListEdit) {
    info!(rt; target: "apd", "{interface}: {edit}");
}

/// Logs, at the level error, that memory lacked for handing out all that was settled.
pub fn tell_not_handed_out<R: Log>(rt: &R) {
    error!(rt; target: "apd", "out of memory: not all that is durable was answered");
}
