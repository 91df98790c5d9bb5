//! The reader's turns of a live run, on the board that threads share: a receiver that is served through a pass,
//! the turns over two links, and the reader as a worker of its own, which sets the camera up, makes its turns and
//! stops the acquisition.
//!
//! `specs/Acquired.antt` has all turns, `specs/Reads.antt` what the worker did, `specs/Kinds.antt` the kinds of its
//! acts on the shared board, and `specs/History.antt` its part in the whole history.
#![tactic(auto)]

mod acquired; // what the worker gives back
mod acquiring; // all turns of the reader
mod claiming; // a buffer for a new block, by the mode
mod draining; // the stop of the receiver
mod filling; // buffers of blocks that retired, by the mode
mod heard; // what became of a datagram
mod host; // links, clock and client as one
mod laws; // laws of the reader's turns, as contracts
mod lent; // what a turn is lent of the outside
mod moments; // which moment the receiver is told
mod reader_laws; // laws of the worker's part in the history
mod reader_turn; // one turn, and its control part
mod reading; // the worker: setup, turns, stop
mod receiving; // a datagram, and the claim that it asks for
mod sending; // the requests of a turn
mod turn; // a turn's entry in the journal
mod turning; // what a turn does to the receiver

pub use acquired::Acquired;
pub use acquiring::acquire;
pub use draining::{drain, retire_all};
pub use filling::fill_all;
pub use gev_control::{AcqEnd, TurnEnd};
pub use heard::Heard;
pub use host::Host;
pub use laws::{
    client_goes_through_turns, own_tells_moments, paced_cuts_steps, paced_tells_its_clock,
    readers_fill_the_retired, served_fills_are_retired, turns_fill_the_retired,
};
pub use lent::Lent;
pub use moments::{HostMoments, Moments, Paced};
pub use reader_laws::{
    readers_claim_one_size, readers_fills_are_retired, readers_lay_nothing, readers_part_stays,
};
pub use reader_turn::turn_once;
pub use reading::{Reader, read};
pub use receiving::receive;
pub use turn::Turn;
pub use turning::serve_turn;
