//! Tests of the board: threads that meet on one board, the two threads of a shared board, ends of actors and
//! laws.

mod call_meeting; // GenTL's calls
mod laws; // laws of the definitions
mod meeting; // how threads meet on a board
mod mode_meeting; // claims and fills in a mode
mod output_meeting; // fills, takes and a close
mod pool_meeting; // claims
mod sharing; // a board that is handed to two threads
