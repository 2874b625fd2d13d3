//! Frames of IEEE Std 802.11-2016, clause 9: what comes from the air is decoded, or ignored for one
//! of twelve reasons, and what is answered is encoded. A frame here has no frame check sequence.
#![tactic(auto)]

mod codes;
mod decoder;
mod element;
mod element_list;
mod encoder;
mod header;
mod ignored;
mod kind;
mod received;
mod replies;

pub use codes::{Reason, Status, reason_codes_law};
pub use decoder::{a_sender_is_one_station, decode, exactly_one_outcome};
pub use element::{DSSS_PARAMETER_SET, Element, Elements, SSID, SUPPORTED_RATES, element_ids_law};
pub use element_list::{elements, elements_law, first_with, well_formed};
pub use encoder::{encode, wire_law};
pub use ignored::Ignored;
pub use received::{Association, Authentication, Frame, Probe, Reassociation};
pub use replies::{AssociationResponse, Rates, Reply, ReplyBody, SsidField};
