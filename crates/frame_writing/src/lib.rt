//! The application of a run over a camera's frames, on the board that threads share: it takes filled buffers, writes of
//! each its line or its picture, and gives it back to the acquisition.
//!
//! `specs/FrameLine.antt` has the line of a frame, `specs/ReceiveLine.antt` the last one; a call adds a line with its line
//! feed, takes memory only where `out` has to grow, and leaves `out` as it was after `NoMemory`. `specs/Texts.antt` says what
//! is written of a buffer, and `specs/HandsOut.antt` what all turns together did. A turn is that of `gev_apply`.
#![tactic(auto)]

mod adding; // lines from their parts
mod applying; // all turns
mod frame_line; // the line of a frame
mod handed_out; // how it ended
mod handing; // what becomes of a taken buffer
mod input_watch; // whether an input has ended
mod looking; // one turn
mod outlet; // what is wanted, and where it goes
mod piece; // a part of a line
mod progress; // lines that tell how the run goes
mod receive_counts; // the numbers of the last line
mod receive_line; // the last line
mod turn_end; // how a turn ended
mod working; // the application's worker
mod write_stop; // why a buffer's text wasn't written
mod writing; // what is written of a buffer

pub use applying::hand_out_frames;
pub use frame_line::add_frame;
pub use handed_out::{HandedEnd, HandedOut};
pub use input_watch::InputWatch;
pub use outlet::Outlet;
pub use progress::Progress;
pub use receive_counts::{BlockIds, ReceiveCounts};
pub use receive_line::add_receive;
pub use working::{FramesDone, work_frames};
