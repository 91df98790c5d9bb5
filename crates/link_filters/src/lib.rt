//! Links that stand on links: what is heard over them is an exact function of what the inner link told.
//!
//! [`OnlyFrom`] hears one address. [`Widened`] hears a stream with standard identifiers as one with extended ones, and [`hear`]
//! is what it does with one receive.
//!
//! [`RegisterReads`] hears values of one register, [`MemoryReads`] the bytes of one READMEM: an acknowledge with success that
//! hasn't what was asked for is passed over, so that it matches no command (`specs/Reads.antt`).
#![tactic(auto)]

mod asked; // what was asked for
mod fixed; // what stays the same of a link
mod memory_reads; // READMEM
mod only_from; // one address
mod register_reads; // READREG
mod widened; // extended identifiers

pub use asked::AskedFor;
pub use fixed::{Behind, Heard};
pub use memory_reads::MemoryReads;
pub use only_from::OnlyFrom;
pub use register_reads::RegisterReads;
pub use widened::{Widened, hear};
