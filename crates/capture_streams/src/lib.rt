//! The image streams in a capture: who sends to whom, what the leaders tell, and how much came.
//!
//! `specs/Signs.antt` says what a datagram is to a stream, `specs/Streams.antt` what is counted of each, and
//! `specs/Texts.antt` has the text that lists them, as a function of the capture's packets. `specs/Laws.antt` and `specs/Dropped.antt` say how the
//! counts add up, `specs/Begins.antt` when a capture begins, and `specs/Rows.antt` has captures worked out by hand.
#![tactic(auto)]

mod counts; // what is counted of packets
mod laws; // a law of the counts, as a contract
mod listing; // the teller, and the run that lists streams
mod piece; // a part of a line
mod sign; // what a datagram is to a stream
mod signing; // how that is read of its bytes
mod stream; // one image stream, and what is counted of it
mod stream_text; // the lines that list streams
mod table; // the streams so far

pub use laws::{
    begins_in_milliseconds, captures_are_listed, dropped_are_told_last, packets_are_counted,
    streams_are_within,
};
pub use listing::list_streams;
