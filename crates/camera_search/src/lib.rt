//! Which cameras are there: DISCOVERY is sent twice, and each camera that answers gets a line.
//!
//! `specs/Discovery.antt` says which bytes of a DISCOVERY_ACK (GigE Vision 2.0) are which field, and
//! `specs/CameraLine.antt` has the line that shows them; `discovery_laws` says that the fields are the bootstrap
//! registers from the first to the user-defined name. `specs/Asking.antt` says what is sent and when,
//! `specs/Found.antt` which cameras answered and the text, `specs/Searched.antt` what a search is over links and clocks
//! that tell.
#![tactic(auto)]

mod adding; // parts of a line, added
mod asking; // what is sent, and when
mod discovering; // a search over ports
mod discovery_ack; // the fields
pub mod discovery_laws; // which registers the fields are
mod hearing; // what a receive tells
pub mod laws; // laws of a search, as contracts
mod lines; // the lines
mod noting; // the cameras so far
mod piece; // a part of a line
mod reading; // the fields, read
mod search_end; // how a search ended
mod searching; // a search over a link
mod telling; // lines, written

pub use discovering::discover;
pub use discovery_ack::DiscoveryAck;
pub use lines::{add_camera, add_count};
pub use reading::read_discovery;
pub use search_end::SearchEnd;
pub use searching::search;
