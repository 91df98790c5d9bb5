//! The bootstrap registers of the camera (GigE Vision 2.0, bootstrap registers): 848 words of 4
//! bytes.
//!
//! `specs/Table.antt` defines the registers: where each lies, what it holds at first, and what may be
//! written to it. `table` has them as data, `specs/Registers.antt` says what the table comes to at each
//! address, `specs/Changes.antt` what the words hold after writes and releases, and the functions of
//! `laws` say in the standard's words what the table and the refusals come to. No call takes memory.
#![tactic(auto)]

pub mod addresses; // the registers' addresses
pub mod laws; // laws of the definitions, as contracts
mod lookup; // what a word holds at first
mod refusals; // why an access is refused
mod regs; // the words and their public calls
pub mod table; // the registers as data

pub use lookup::initial_at;
pub use refusals::{address_refusal, value_refusal};
pub use regs::Regs;
