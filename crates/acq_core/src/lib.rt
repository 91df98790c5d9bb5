//! The receiver of one stream: a window of open blocks that take the stream's packets into buffers.
//!
//! An `Acq` stands for the inputs that it took, first in first. Its answers, fills, requests and counts are
//! those that the acquisition machine gives for that list, whatever the list is. `specs/Receiver.antt`
//! has the words by which callers speak of it, `specs/Waiting.antt` those for what waits to be taken, and
//! `specs/Standing.antt` says how it stands for a state of the machine. `requests` gives the ranges of
//! packet ids that a camera is to be asked for again, for which `specs/Either.antt` has the test.
#![tactic(auto)]

mod acq; // the receiver's public calls
mod asked; // a request that waits to be sent
mod asking; // what an open block asks for again
mod counting; // counts that stand still at their type's end
mod ended; // what is told of a block that retired
mod ending; // which blocks that retire are told
mod gaps; // the ranges of packet ids that a camera is asked for again
mod giving; // a claimed buffer, or none, opens a block
mod hearing; // what a datagram makes of the state
mod laws; // laws of the definitions, as contracts
mod making; // a new receiver, with all its memory
mod retiring; // blocks retire, the lowest first
mod rounds; // a moment: old blocks retire, others ask
mod slot; // an open block, and its bitmaps
mod slots; // what is asked of one open block
mod waiting; // fills, requests and ends that wait
mod window; // the receiver's state

pub use acq::Acq;
pub use acquisition_machine::{AcqConfig, Counts, Need, Retired, Why};
pub use ended::{Ended, Held};
pub use gaps::requests;
pub use laws::receivers_show_their_inputs;
