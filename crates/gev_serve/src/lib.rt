//! The camera's worker of a live run: in each turn it hears what came on its link, answers, and makes a
//! frame.
//!
//! `specs/Turns.antt` says what a turn sends and what it makes of the camera, and `specs/Serving.antt` what
//! the worker promises of all its turns.
#![tactic(auto)]

mod ends; // how a turn, and the worker, ended
mod rooms; // where the camera writes
mod sending; // what the camera has to send
mod serving; // all turns
mod turns; // one turn
mod working; // the worker, with what it works with by value

pub use ends::{ServeEnd, ServeTurn};
pub use rooms::Rooms;
pub use serving::{RECEIVE_ROOM, make_turn, serve};
pub use turns::{hear_and_send, serve_once};
pub use working::{CameraDone, work_camera};
