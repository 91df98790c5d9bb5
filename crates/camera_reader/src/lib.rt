//! The reader of a camera's stream: turns without a journal and without a most number, by the receiver's clock.
//!
//! `specs/Hearing.antt` says what is heard of what arrives, by the form of the stream's identifiers, `specs/ReceiverClock.antt`
//! which moment the receiver is told, `specs/Asking.antt` what is sent, `specs/Listening.antt` when the camera is silent and
//! when its control ended, `specs/Reading.antt` what the reader did, and `specs/Beginning.antt` what it's told before, over
//! links and clocks that tell. No call takes memory.
#![tactic(auto)]

mod asking; // the requests of a turn
mod hearing; // what is heard of what arrives
mod laws; // laws of the definitions, as contracts
mod listening; // when the camera is silent
mod looping; // the turns
mod reader_end; // how it ended
mod receiver_clock; // which moment the receiver is told
mod taking; // one turn
mod telling; // the moment before the first turn
mod turn_state; // what is kept from one turn to the next
mod turns_done; // what it tells at its end
mod words; // how it reads

pub use gev_acq::Host;
pub use laws::{nothing_is_asked, receiver_clock_cuts_steps, silence_is_waited};
pub use looping::read_camera;
pub use reader_end::ReaderEnd;
pub use receiver_clock::ReceiverClock;
pub use telling::tell_begin;
pub use turns_done::TurnsDone;
pub use words::ReaderWords;
