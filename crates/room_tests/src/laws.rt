//! Tests of one block, of scripts, of cameras and of worlds: that the laws of these rooms can be called, and what
//! readers do behind a read that fails.

mod block; // one block, and acquisitions
mod camera; // the camera, its parts and its client
mod script; // scripts, reports and captures
mod world; // the network, the worlds and their runs
