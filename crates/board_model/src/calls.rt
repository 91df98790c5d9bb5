//! The calls on a data stream and on its event, each of which adds the entries of its steps.

mod announce;
mod buffers;
mod event;
mod fill;
mod flush;
mod info;
mod parts;
mod run;
