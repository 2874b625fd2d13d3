//! Warnings of what is taken as it stands, and is seldom meant so.
use apd_conf::Confs;
use apd_diagnosis::warning_of;
use log::{Log, warn};

/// Logs, at the level warn, what is odd about the names of networks.
pub fn warn_of_ssids(rt: &impl Log, confs: &Confs) {
    for conf in confs.list() {
        if let Some(warning) = warning_of(conf) {
            let interface = conf.interface.as_str();
            warn!(rt; target: "apd", "{interface}: {warning}");
        }
    }
}
