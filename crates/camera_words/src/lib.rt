//! The words of the commands that meet a camera on the network: addresses, and what follows a command's name.
//!
//! `specs/Addresses.antt` says which word is which address, `specs/Words.antt` what the words of `discover` and
//! `description` say, `specs/SimulateWords.antt` what those of `simulate` say, `specs/Accesses.antt` what those of
//! `register` say, and `specs/Receiving.antt` what those of `receive` do.
#![tactic(auto)]

mod access; // one access to a register
mod accesses; // the words of `register`
mod addresses; // IPv4 addresses
mod choices; // the settings of `receive`
mod parts; // what stands before a byte, and behind it
mod reading; // the words of `receive`, one after the other
mod receiving; // the words of `receive`
mod register_write; // a register that is to be written
mod said; // one word of `receive`
mod setting; // what a word of `receive` may set
mod settings; // what `receive` is asked for
mod simulate_words; // the words of `simulate`
mod words; // the words of `discover` and `description`
mod writes; // the words of writes

pub use access::{Access, RegisterWords};
pub use accesses::read_register;
pub use addresses::address_in;
pub use parts::{before_byte, behind_byte};
pub use receiving::read_receive;
pub use register_write::{RegisterWrite, Stage};
pub use settings::{LineDigest, Output, Settings};
pub use simulate_words::{SimulateWords, read_simulate};
pub use words::{read_description, read_discover};
