//! One block on its way into its buffer.
//!
//! An `Assembly` stands for the packets of its block that came, in order of arrival
//! (`specs/Assembly.antt`). What it answers is what the definitions of kept packets, of the block image
//! and of missing ranges give of that list, in whatever order the packets came.
#![tactic(auto)]

mod account; // what is told of a block that retires
mod assembly; // the block and its public calls
mod completing; // whether the image is whole
mod judging; // what becomes of a packet
mod keeping; // what a packet changes
mod laws; // laws of the definitions, as contracts
mod lost; // packet ids without a kept packet
mod progress; // what is known of the kept packets
mod recording; // the record of a block
mod span; // where a payload lies in the buffer
mod verdict; // the answer to a packet
mod zeroing; // zeros where nothing came

pub use account::Account;
pub use assembly::Assembly;
pub use laws::{accounts_agree, packet_ids_are_those, verdicts_tell};
pub use progress::PACKET_IDS;
pub use verdict::Verdict;
