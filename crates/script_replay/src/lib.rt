//! The replay of a script: each line is run on the board of the stream, on the tree of handles and on the
//! acquisition, and adds to the trace and to the report what `script_trace` says of it.
#![tactic(auto)]

mod acquisition_lines; // the lines `start`, `stop`, `t` and `d`
mod adding; // which line does what
mod answers; // what a call was answered, as a line
mod beginning; // the header
mod board_lines; // lines that call the stream or its event
mod buffer_lines; // the lines `take` and `binfo`
mod closing_lines; // the line `close`
mod datagram_rooms; // room for a datagram's bytes
mod fill_counts; // fills and dropped buffers, counted
mod got; // what a claim got
mod handle_lines; // the lines `open` and `close`
mod hex_digits; // bytes that hex digits spell
mod later; // a line behind the header
mod opening; // board and handles behind the header
mod replay; // the machine that runs a replay script
mod retired; // buffers that the receiver gives back, and requests
mod running; // what a script runs on
mod script; // a script behind its header
mod standard_requests; // requests in the standard form
mod step_line; // the line `step`
mod steps; // one step of the board by one actor
mod wide_lines; // lines of scripts with standard identifiers
mod widening; // what is kept of standard identifiers

pub use acquisition_lines::{receive, start};
pub use answers::{line_done, line_refused};
pub use beginning::{begin, first_line};
pub use board_lines::{CALLER, announce, queue};
pub use datagram_rooms::{DatagramRooms, ROOM, WIDE_ROOM};
pub use fill_counts::FillCounts;
pub use got::Got;
pub use hex_digits::decode;
pub use later::{is_out_of_place, later_line, run_said};
pub use replay::Replay;
pub use retired::{fill_one, fill_retired, give_claimed};
pub use running::Running;
pub use script::Script;
pub use standard_requests::line_standard;
pub use wide_lines::{is_standard, note_start};
pub use widening::Widening;
