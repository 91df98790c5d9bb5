//! Frames that are received: their lines, the last line, and the application that writes them.

pub mod handing;
pub mod lines;
