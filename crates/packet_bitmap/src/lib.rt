//! A set of packet ids, in words of 64 bits.
//!
//! Contracts see it as a list of truth values, one for each id (`specs/Bits.antt`). A search for the
//! next clear id, or the next set one, looks at a word at a time.
#![tactic(auto)]

mod bitmap;
mod words;

pub use bitmap::Bitmap;
