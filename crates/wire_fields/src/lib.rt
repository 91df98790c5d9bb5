//! Fields of the wire: numbers of known widths, one after the other, most significant byte first.
//!
//! `specs/Fields.antt` is the one notation for them that the packets of an image stream and the
//! messages of the control channel share: a list of fields, each given by its width in bytes and its
//! number. `laws` says how fields in order, numbers at places and what spells them belong together.
#![tactic(auto)]

pub mod laws;
mod places;

pub use places::{u16_at, u32_at, u64_at};
