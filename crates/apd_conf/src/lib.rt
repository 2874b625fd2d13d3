//! The configuration of the daemon: one for each of its radios.
#![tactic(auto)]

mod address_list;
mod auth_algs;
mod conf;
mod conf_fault;
mod conf_file;
mod configuration;
mod confs;
mod confs_fault;
mod fields;
mod file_name;
mod hw_mode;
mod ignore_broadcast_ssid;
mod interface_name;
pub mod laws;
mod lines;
mod list_fault;
mod list_file;
mod list_so_far;
mod rule;
mod ssid;
mod values;

pub use address_list::AddressList;
pub use auth_algs::AuthAlgs;
pub use conf::Conf;
pub use conf_fault::{ConfFault, Required};
pub use conf_file::read_conf;
pub use configuration::{ConfigurationFault, FilesRead, MAX_FILE, configurations, file_limit_law};
pub use confs::{Confs, look_up_laws};
pub use confs_fault::ConfsFault;
pub use file_name::FileName;
pub use hw_mode::HwMode;
pub use ignore_broadcast_ssid::IgnoreBroadcastSsid;
pub use interface_name::InterfaceName;
pub use list_fault::ListFault;
pub use list_file::read_list;
pub use rule::{Range, Rule, rule_of};
pub use ssid::Ssid;
