//! The lines of the scripts that `replay` and `camera` run: how a line is read and written, and how
//! lines are taken from a source one at a time.
//!
//! `specs/Grammar.antt` computes what a line of bytes says or why it is refused, `specs/Spelling.antt`
//! has the one spelling of each line, and `laws` joins the two. `specs/Streams.antt` says which line
//! comes next of the bytes that a source gives.
#![tactic(auto)]

mod act; // a step of the board
mod fields; // the fields of a line
mod forms; // the form of each line
mod kind; // why a line is refused
pub mod laws; // laws of the definitions, as contracts
mod line; // what a line says
mod line_end; // why no further line comes
mod lines; // the lines and their public calls
mod name; // what a first word names
mod numbers; // decimal numbers and hex digits
mod parsing; // a line, read
mod parts; // the words of a line
mod window; // the bytes that are held of the source
mod writing; // a line, written

pub use act::Act;
pub use kind::ScriptKind;
pub use line::Line;
pub use line_end::LineEnd;
pub use lines::Lines;
pub use name::Name;
pub use numbers::number_in;
pub use parsing::{first_name, parse_line};
pub use writing::write_line;
