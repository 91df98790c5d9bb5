//! The commands of the program that make no use of ports: what `gevacq` does with its words, its input and its
//! output. `gev_program` has the program's call, which adds those over ports.
//!
//! `specs/Usage.antt` says which words are which command, and `specs/Answers.antt` what a command has read
//! and written by its answer. They stand on the definitions of `script_runs`, `script_trace`, `gev_make`
//! and `gev_world`.
#![tactic(auto)]

mod capturing; // `streams` and `capture`
mod command; // the commands that make no use of ports
mod errand; // what any command line asks for
mod imaging; // `image`
mod live_numbers; // the numbers of `live` and `record`
mod live_words; // the words of any command line
mod making; // `make`
mod numbers; // the numbers of `make` and `soak`
mod plain; // the call for these commands
mod scripts; // `replay`, `explain` and `camera`
mod soaking; // `soak`
mod usage; // the words of these commands

pub use command::Command;
pub use errand::Errand;
pub use gev_status::Status;
pub use live_numbers::LiveNumbers;
pub use live_words::read_errand;
pub use plain::{plain_top, run_command};
