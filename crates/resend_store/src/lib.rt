//! The resend store of a camera: the last frames that were sent, from which a PACKETRESEND command is
//! answered (GigE Vision 2.0, GVCP).
//!
//! `specs/Pushes.antt` defines the store over the list of all frames that were pushed, and
//! `specs/Shelf.antt` over what is kept of them; the functions of `laws` tie the two.
#![tactic(auto)]

mod laws; // laws of the definitions, as contracts
mod reply; // what a request is answered
mod sent; // a frame that was sent
mod shelf; // what is done with the list of frames
mod store; // the store and its public calls

pub use laws::{
    a_new_store_stands_for_nothing, a_push_adds_its_frame, a_store_answers_as_its_list,
};
pub use reply::Reply;
pub use sent::SentFrame;
pub use store::Store;
