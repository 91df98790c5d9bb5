//! The network between a camera and its receiver, as a queue that loses, repeats and swaps datagrams.
//!
//! `specs/Lossy.antt` says what one datagram's put does, by the numbers of one generator that several
//! queues may share. The functions of `laws` say what it amounts to.
#![tactic(auto)]

mod datagram; // a datagram on its way
mod fate; // what becomes of it
pub mod laws; // laws of the definitions, as contracts
mod queue; // the network and its public calls
mod rates; // how often it loses, repeats and swaps

pub use datagram::{Channel, Datagram};
pub use queue::LossyQueue;
pub use rates::Rates;
