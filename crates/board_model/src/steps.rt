//! The board's steps, each of which adds one entry.

mod output;
mod pool;
mod run;
mod words;
