//! Where an access point runs: its store's file, its recordings, its radios' ports, its log, and its input.
#![tactic(auto)]

mod alarm;
mod driven;
mod driver_notes;
mod edits;
mod elsewhere;
mod file_reason;
mod files;
mod identity;
mod input;
mod locks;
mod notices;
mod opening;
mod radios;
mod recordings;
mod site;
mod station_notes;
mod store_watch;
mod telling_file;
mod telling_input;
mod telling_radio;
mod unanswered;
mod until_fault;
mod watched_file;

pub use alarm::Alarm;
pub use driven::{Driven, DrivenBy};
pub use edits::{Edits, ListEdit};
pub use elsewhere::Elsewhere;
pub use file_reason::{FileReason, Words};
pub use files::{open_recordings_of, open_watch};
pub use identity::are_one_file;
pub use input::read_to_its_end;
pub use locks::Holder;
pub use notices::{
    tell_device_fault, tell_entries, tell_lists, tell_not_handed_out, tell_served, tell_unserved,
    tell_worn_out, words_of_served,
};
pub use opening::{Access, OpenFault, file_or_fault, make_disk, open_disk};
pub use radios::{Recorded, SiteRadio, elsewhere_of, open_radios, site_radios};
pub use recordings::{RecordingFile, begins_as_a_store};
pub use site::{Site, SiteFault};
pub use station_notes::StationNotes;
pub use store_watch::{Ending, StoreWatch, watch};
pub use telling_file::TellingFile;
pub use telling_input::TellingInput;
pub use telling_radio::TellingRadio;
pub use until_fault::UntilFault;
pub use watched_file::{FailedCall, FileState, StoreDisk, WatchedFile, watched_disk};
